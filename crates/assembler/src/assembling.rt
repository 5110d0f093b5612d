// A listing assembled into a buffer.
ghost use Rattle.std.specs.Prelude.{◌≡◌, ◌/◌, ◌≤◌, ◌++◌, length, drop, is_ok, IfOk, if◌then◌else◌, OnOk};
ghost use Rattle.text.specs.Image as spec;
ghost use Rattle.text.specs.Runs.{Longest};
ghost use Rattle.text.specs.Answer.{assembled};
ghost use Rattle.text.specs.Hazards.{NoHazard};
ghost use Rattle.text.specs.Immediates.{ImmediatesKept};
ghost use Rattle.text.specs.Targets.{TargetsReached};
ghost use Rattle.text.specs.Sizes.{SizesAgree};
ghost use Rattle.assembler.specs.Plans.{plan_of};
ghost use Rattle.assembler.specs.Listings.{laid_out};

use crate::addresses::Addresses;
use crate::labels::Labels;
use crate::listings::Listing;
use crate::planning::Plan;
use crate::writing::write_sections;
use text::{Answers, Refused};

// Writes the image of a listing that was planned, into a slice of just its length.
fn write_image(listing: Listing, plan: Plan, labels: &Labels, out: &mut [u8])
    requires plan { plan ≡ plan_of listing.bytes.now }
    requires labels { labels.now.marks ≡ (laid_out listing.bytes.now).labels }
    requires text { plan.text ≤ 65280 }
    requires room { length out.old ≡ plan.image }
    ensures { out.new ≡ spec.image listing.entry.bytes.now }
{
    let addresses = Addresses {
        base: plan.text,
        labels,
    };
    let (text, data) = out.split_at_mut(plan.text);
    write_sections(listing, addresses, text, data);
    text[plan.end..].fill(0);
}

// Assembles a listing into a buffer. The image is written from the start of the buffer, and nothing past
// it is altered; a refusal alters nothing.
pub fn assemble(listing: &[u8], image: &mut [u8]) -> Result<Answers, Refused>
    ensures value { result ≡ assembled listing.now (length image.old) }
    ensures image { image.new
        ≡ (if is_ok result then spec.image listing.now ++ drop (length (spec.image listing.now)) image.old else image.old) }
    ensures hazards { OnOk result (NoHazard listing.now) }
    ensures immediates { OnOk result (ImmediatesKept listing.now) }
    ensures targets { OnOk result (TargetsReached listing.now) }
    ensures run { IfOk result (λ a. Longest (spec.image listing.now) (a.text / 2) a.run) }
    ensures sizes { IfOk result (λ a. SizesAgree listing.now a) }
{
    let listing = Listing::new(listing)?;
    let mut labels = Labels::new();
    let plan = Plan::of(listing, image.len(), &mut labels)?;
    write_image(listing, plan, &labels, &mut image[..plan.image]);
    Ok(Answers {
        text: plan.text,
        image: plan.image,
        run: text::longest_run(&image[..plan.text]),
    })
}
