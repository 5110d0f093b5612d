// The second pass: the value of each record.
ghost use Rattle.std.specs.Prelude.{◌≡◌, ◌/◌, length};
ghost use Rattle.std.specs.Result.{result_err};
ghost use Rattle.text.specs.Image.{value};
ghost use Rattle.text.specs.Layout.{refused_at};
ghost use Rattle.text.specs.Values.{is_target, outside, near, first_reaches, reaches, value_refusal, value_refused};

use crate::addresses::Addresses;
use crate::listings::Listing;
use crate::standing::Standing;
use crate::values::Value;
use crate::walks::Walk;
use isa::Refusal;
use listing::{Body, First, Item};
use text::Refused;

fn is_near(at: u32, value: Value) -> bool
    ensures { result ≡ near at value.number }
{
    let distance = value.distance_from(at);
    value.bits() % 2 == 0 && (-256..=254).contains(&distance)
}

fn is_reached_by(first: First, at: u32, value: Value) -> bool
    ensures { result ≡ first_reaches first at value.number }
{
    match first {
        First::Branch(_) => is_near(at, value),
        First::Call => value.bits() % 16 == 0,
        _ => true,
    }
}

impl Standing {
    fn is_target(&self) -> bool
        ensures { result ≡ is_target self.now.item }
    {
        matches!(
            self.item,
            Item::Words(Body {
                first: First::Branch(_) | First::Call,
                ..
            })
        )
    }

    fn is_outside(&self, value: Value) -> bool
        ensures { result ≡ outside self.now.item value.number }
    {
        let low = if self.is_target() { 0 } else { -32768 };
        !(low..=65535).contains(&value.number)
    }

    fn is_reached(&self, value: Value) -> bool
        ensures { result ≡ reaches self.now.item self.now.walk.place.text value.number }
    {
        match self.item {
            Item::Words(body) => is_reached_by(body.first, self.walk.place.text as u32, value),
            _ => true,
        }
    }

    // Refuses a record that cannot be written with its value.
    fn check_value(&self, addresses: Addresses) -> Result<(), Refused>
        ensures { result_err result ≡ refused_at self.now.walk.index (value_refusal self.now.walk.place self.now.record
            (value addresses.entry.base addresses.entry.labels.now.marks self.now.record)) }
    {
        // No `ok_or` with `?`: each check here gives the record's index itself.
        let Some(value) = addresses.value_of(self.record) else {
            return Err(self.walk.refused(Refusal::Missing));
        };
        if self.is_outside(value) {
            return Err(self.walk.refused(Refusal::Value));
        }
        if !self.is_reached(value) {
            return Err(self.walk.refused(Refusal::Reach));
        }
        Ok(())
    }
}

// Checks the values of all records.
pub(crate) fn check_values(listing: Listing, addresses: Addresses) -> Result<(), Refused>
    ensures { result_err result ≡ value_refused listing.entry.bytes.now (length listing.entry.bytes.now / 8)
        addresses.entry.base addresses.entry.labels.now.marks }
{
    let mut walk = Walk::start();
    for bytes in listing.records() {
        match Standing::read(walk, bytes) {
            Some(standing) => {
                standing.check_value(addresses)?;
                walk = standing.next();
            }
            // Never taken after the first pass. The writing goes through the records likewise: in one walk with a closure, what each
            // of the two changes would be handed in and out, and the loop is no shorter.
            None => walk = walk.skip(),
        }
    }
    Ok(())
}
