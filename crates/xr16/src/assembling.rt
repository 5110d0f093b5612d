// The assembler's exported call.
ghost use Rattle.std.specs.Prelude.{◌≡◌, length, Ok, Err};
ghost use Rattle.text.specs.Answer.{assembled};
ghost use Rattle.xr16.specs.Assemblies as spec;

use crate::answers::Assembly;
use assembler::assemble;
use text::{Answers, Refused};

impl From<Answers> for Assembly {
    ghost from_gives = { λ answers a. a ≡ spec.assembly_of (Ok answers) };

    fn from(answers: Answers) -> Assembly {
        Assembly {
            text: answers.text,
            image: answers.image,
            run: answers.run,
            ..Assembly::default()
        }
    }
}

impl From<Refused> for Assembly {
    ghost from_gives = { λ refused a. a ≡ spec.assembly_of (Err refused) };

    fn from(refused: Refused) -> Assembly {
        Assembly {
            refusal: refused.refusal.number(),
            index: refused.index,
            ..Assembly::default()
        }
    }
}

// Assembles a listing into a buffer. The image is written from the start of the buffer, and nothing past it is altered; a
// refusal alters nothing.
#[unsafe(no_mangle)]
pub extern "C" fn xr16_assemble(listing: &[u8], image: &mut [u8]) -> Assembly
    ensures answer { result ≡ spec.assembly_of (assembled listing.now (length image.old)) }
    ensures image { image.new ≡ spec.image_after listing.now image.old }
{
    assemble(listing, image).map_or_else(Assembly::from, Assembly::from)
}
