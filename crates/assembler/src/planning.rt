// Every check of a listing, and the lengths of its image.
ghost use Rattle.std.specs.Prelude.{◌≡◌, ◌≤◌, IfOk, OnOk};
ghost use Rattle.text.specs.Layout.{start};
ghost use Rattle.assembler.specs.Plans.{plan_of, planned};
ghost use Rattle.assembler.specs.Listings.{laid_out};

use crate::addresses::Addresses;
use crate::checking::check_values;
use crate::labels::Labels;
use crate::laying::lay_out;
use crate::listings::Listing;
use crate::measuring::pad;
use crate::walks::Walk;
use isa::Refusal;
use text::Refused;

// The largest image, in bytes: what is left of the address space below the I/O addresses, 0xFF00 and above.
pub const LARGEST_IMAGE: usize = 65280;

// Where the text ends before it is padded, where it ends then, and where the data end.
#[derive(Clone, Copy)]
pub(crate) struct Plan {
    pub end: usize,
    pub text: usize,
    pub image: usize,
}

impl Plan {
    // Makes every check of the records, in order, and writes nothing. The labels are then what each of them names.
    pub(crate) fn of(listing: Listing, room: usize, labels: &mut Labels) -> Result<Plan, Refused>
        requires { labels.old.marks ≡ start.labels }
        ensures value { result ≡ planned listing.entry.bytes.now room }
        ensures plan { IfOk result (λ p. p ≡ plan_of listing.entry.bytes.now) }
        ensures labels { OnOk result (labels.new.marks ≡ (laid_out listing.entry.bytes.now).labels) }
        ensures bound { IfOk result (λ p. (p.text ≤ 65280) × (p.image ≤ room)) }
    {
        let Walk { place, .. } = lay_out(listing, labels)?;
        let text = place.text + pad(place.text, 16);
        let image = text + place.data;
        if image > LARGEST_IMAGE {
            return Err(listing.refused(Refusal::Big));
        }
        check_values(listing, Addresses { base: text, labels })?;
        if image > room {
            return Err(listing.refused(Refusal::Short));
        }
        Ok(Plan {
            end: place.text,
            text,
            image,
        })
    }
}
