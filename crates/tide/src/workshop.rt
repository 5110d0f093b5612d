// The assembled program, and the two memories that it is run in.
ghost use Rattle.std.specs.Prelude.{◌≤◌, IfOk};

use crate::constituents::COUNT;
use crate::faults::{Unkept, Unprefixed};
use crate::images::{Curve, Image};
use crate::placings::Tide;
use crate::programs::{SERVICE, TICKS};
use crate::{faults, placings};
use assembler::{LARGEST_IMAGE, assemble};
use histories::{Action, leaves_no_mark};
use isa::Refusal;
use memory::{FlatMemory, MappedMemory, PageTable, agree, load_word};
use rehearsal::{Report, rehearse};
use std::alloc::Global;
use std::array;
use text::Answers;

// A listing with its image, and what the assembler answered.
#[derive(Drop)]
struct Assembled {
    listing: Vec<u8>,
    image: Vec<u8>,
    answers: Answers,
    // The text length once more, as the core takes it.
    text: u16,
}

// The bytes of a flat memory.
#[derive(Drop)]
struct FlatBytes {
    bytes: Vec<u8>,
}

// The frames of a mapped memory, and its table.
#[derive(Drop)]
struct Frames {
    bytes: Vec<u8>,
    pages: PageTable,
}

#[derive(Drop)]
pub(crate) struct Workshop {
    program: Assembled,
    flat: FlatBytes,
    frames: Frames,
}

impl Assembled {
    fn new(heap: Global, listing: Vec<u8>) -> anyhow::Result<Assembled> {
        let mut image = vec![in heap; 0; LARGEST_IMAGE]?;
        let answers = assemble(listing.as_slice(), image.as_mut_slice()).map_err(Refusal::from)?;
        image.truncate(answers.image);
        Ok(Assembled {
            listing,
            image,
            answers,
            text: u16::try_from(answers.text)?,
        })
    }

    fn image(&self) -> Image<'_> {
        Image {
            bytes: self.image.as_slice(),
            text: self.text,
        }
    }
}

impl FlatBytes {
    fn new(heap: Global) -> anyhow::Result<FlatBytes> {
        Ok(FlatBytes {
            bytes: vec![in heap; 0; 0x1_0000]?,
        })
    }

    fn memory(&mut self) -> FlatMemory<'_> {
        FlatMemory::new(self.bytes.as_mut_slice())
    }
}

// Sixteen open pages, scattered over the odd ones of thirty-two frames.
fn scattered() -> [u16; 16] {
    array::from_fn(|page| 0x8000 + (page as u16 * 7 + 3) % 16 * 2 + 1)
}

impl Frames {
    fn new(heap: Global) -> anyhow::Result<Frames> {
        Ok(Frames {
            bytes: vec![in heap; 0; 0x2_0000]?,
            pages: PageTable::new(scattered())?,
        })
    }

    fn memory(&mut self) -> MappedMemory<'_> {
        MappedMemory::new(self.pages, self.bytes.as_mut_slice())
    }
}

impl Workshop {
    // Assembles a listing, and takes fresh memories for it.
    pub(crate) fn new(heap: Global, listing: Vec<u8>) -> anyhow::Result<Workshop> {
        Ok(Workshop {
            program: Assembled::new(heap, listing)?,
            flat: FlatBytes::new(heap)?,
            frames: Frames::new(heap)?,
        })
    }

    // How many records the listing has.
    pub(crate) fn records(&self) -> usize {
        self.program.listing.len() / 8
    }

    pub(crate) fn answers(&self) -> Answers {
        self.program.answers
    }

    // Whether the two memories have the same bytes and marks.
    pub(crate) fn memories_agree(&mut self) -> bool {
        agree(&self.flat.memory(), &self.frames.memory())
    }

    // How many words of the program text would let a request leave a mark.
    pub(crate) fn extended_shifts(&self) -> usize {
        let (words, _) = self.program.image.as_chunks::<2>();
        (0..self.program.text)
            .step_by(2)
            .zip(words)
            .filter(|(address, word)| {
                !SERVICE.contains(*address) && !leaves_no_mark(u16::from_be_bytes(**word))
            })
            .count()
    }

    // One tide undisturbed, in flat memory.
    pub(crate) fn run_flat(&mut self) -> anyhow::Result<Tide> {
        placings::measure(&mut self.flat.memory(), self.program.image())
    }

    // One tide undisturbed, in mapped memory.
    pub(crate) fn run_mapped(&mut self) -> anyhow::Result<Tide> {
        placings::measure(&mut self.frames.memory(), self.program.image())
    }

    // Rehearses a list of actions in flat memory, beside a twin in mapped memory.
    pub(crate) fn rehearse(&mut self, actions: &[Action]) -> anyhow::Result<Report>
        ensures bounded { IfOk result (λ report. report.totals.wait ≤ report.limit) }
    {
        let report = rehearse(
            self.program.listing.as_slice(),
            self.program.image.as_mut_slice(),
            SERVICE,
            &mut self.flat.memory(),
            &mut self.frames.memory(),
            actions,
        )
        .map_err(Refusal::from)?;
        Ok(report)
    }

    // One tide of the image with a nop in the place of a prefix that a load needs.
    pub(crate) fn run_unprefixed(&mut self, steps: u16) -> anyhow::Result<Unprefixed> {
        let mut by_hand = self.program.image.clone()?;
        let address = faults::blank_prefix(by_hand.as_mut_slice())?;
        let image = Image {
            bytes: by_hand.as_slice(),
            text: self.program.text,
        };
        faults::run_unprefixed(&mut self.flat.memory(), image, address, steps)
    }

    // The program with a request, until a step is refused.
    pub(crate) fn run_unkept(&mut self) -> anyhow::Result<Unkept> {
        faults::run_unkept(&mut self.flat.memory(), self.program.image())
    }

    // The heights that flat memory holds now.
    pub(crate) fn curve(&mut self) -> Curve {
        self.program.image().curve(&self.flat.memory())
    }

    // The ticks that the service has counted in flat memory.
    pub(crate) fn ticks(&mut self) -> u16 {
        load_word(&self.flat.memory(), TICKS)
    }

    // The phases that flat memory holds now.
    pub(crate) fn phases(&mut self) -> [u32; COUNT] {
        self.program.image().phases(&self.flat.memory())
    }
}
