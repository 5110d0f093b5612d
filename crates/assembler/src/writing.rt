// The third pass: the bytes of each record. Nothing is refused here.
ghost use Rattle.std.specs.Prelude.{◌≡◌, ◌+◌, ◌++◌, ◌/◌, ◌≤◌, length, take};
ghost use Rattle.listing.specs.declared.items.Item.TheVariants.{Words};
ghost use Rattle.listing.specs.declared.items.Section.TheVariants.{Text, Data};
ghost use Rattle.listing.specs.Slots.{slots};
ghost use Rattle.text.specs.Layout.{here};
ghost use Rattle.text.specs.Image.{words, bytes_of, record_bytes, section_bytes};
ghost use Rattle.assembler.specs.Listings.{laid_out};

use crate::addresses::Addresses;
use crate::filling::filled_word;
use crate::listings::Listing;
use crate::standing::Standing;
use crate::values::Value;
use crate::walks::Walk;
use listing::{Body, Item, Section, Template};

impl Standing {
    // Writes the record's words into a slice of just their length.
    fn write_words(&self, body: Body, number: Value, out: &mut [u8])
        requires words { self.now.item ≡ Words body }
        requires room { length out.old ≡ self.now.measure.size }
        ensures { let ss = slots self.now.walk.place.result body self.now.record in
            out.new ≡ words number.number self.now.walk.place.text ss (length ss) }
    {
        let template = Template {
            body,
            record: self.record,
        };
        let at = self.walk.place.text as u32;
        // By index: once the pairs that `chunks_exact_mut` lends are gone, a proof knows nothing of what they left in `out`.
        for k in 0..out.len() / 2 {
            let slot = template.slot(self.measure.mend, k);
            let [high, low] = filled_word(slot, number, at + 2 * k as u32).to_be_bytes();
            out[2 * k] = high;
            out[2 * k + 1] = low;
        }
    }

    // Writes what the record means into a slice of just its size.
    fn write_item(&self, value: Value, out: &mut [u8])
        requires { length out.old ≡ self.now.measure.size }
        ensures { out.new ≡ bytes_of self.now.item self.now.walk.place self.now.record value.number }
    {
        match self.item {
            Item::Words(body) => self.write_words(body, value.encoded(body.negated), out),
            Item::Byte => out[0] = (value.bits() % 256) as u8,
            Item::Word => out.copy_from_slice(&value.bits().to_be_bytes()),
            Item::Align => out.fill(0),
            Item::Label | Item::Section(_) => {}
        }
    }

    // Writes the record behind what its section has.
    fn write(&self, addresses: Addresses, section: &mut [u8])
        requires { here self.now.walk.place + self.now.measure.size ≤ length section.old }
        ensures { take (here self.now.walk.place + self.now.measure.size) section.new
            ≡ take (here self.now.walk.place) section.old
            ++ record_bytes addresses.entry.base addresses.entry.labels.now.marks self.now.walk.place self.now.record }
    {
        let value = addresses.found_value(self.record);
        let at = self.walk.end();
        self.write_item(value, &mut section[at..at + self.measure.size]);
    }
}

// Writes all records of a listing, each into its section.
pub(crate) fn write_sections(
    listing: Listing,
    addresses: Addresses,
    text: &mut [u8],
    data: &mut [u8],
)
    requires text { (laid_out listing.bytes.now).place.text ≤ length text.old }
    requires stored { (laid_out listing.bytes.now).place.«data» ≤ length «data».old }
    ensures text { take (laid_out listing.entry.bytes.now).place.text text.new
        ≡ section_bytes Text addresses.entry.base addresses.entry.labels.now.marks listing.entry.bytes.now (length listing.entry.bytes.now / 8) }
    ensures stored { take (laid_out listing.entry.bytes.now).place.«data» «data».new
        ≡ section_bytes Data addresses.entry.base addresses.entry.labels.now.marks listing.entry.bytes.now (length listing.entry.bytes.now / 8) }
{
    let mut walk = Walk::start();
    for bytes in listing.records() {
        match Standing::read(walk, bytes) {
            Some(standing) => {
                match walk.place.section {
                    Section::Text => standing.write(addresses, text),
                    Section::Data => standing.write(addresses, data),
                }
                walk = standing.next();
            }
            // Never taken after the first pass. The checking goes through the records likewise; see there.
            None => walk = walk.skip(),
        }
    }
}
