// The value of a record.
ghost use Rattle.std.specs.Prelude.{◌≡◌, pos, negsuc, ◌≤ℤ◌};
ghost use Rattle.listing.specs.Numbers.{bits16};
ghost use Rattle.listing.specs.Slots.{number_of};
ghost use Rattle.text.specs.Image.{distance};

// A constant and at most one address, or the negation of that.
#[derive(Clone, Copy)]
pub(crate) struct Value {
    pub number: i64,
    ghost low: { negsuc 1099511627775 ≤ℤ number },
    ghost high: { number ≤ℤ pos 1099511627776 },
}

impl Value {
    // The value modulo 65,536.
    pub(crate) fn bits(self) -> u16
        ensures { result ≡ bits16 self.number }
    {
        low_bits(self.number)
    }

    // The number that is encoded.
    pub(crate) fn encoded(self, negated: bool) -> Value
        ensures { result.number ≡ number_of negated self.number }
    {
        if negated {
            Value {
                number: -self.number,
            }
        } else {
            self
        }
    }

    // How far the value, as a target, is from the second word after an address.
    pub(crate) fn distance_from(self, at: u32) -> i64
        ensures { result ≡ distance at self.number }
    {
        self.number - (i64::from(at) + 4)
    }
}

// A number modulo 65,536.
pub(crate) fn low_bits(number: i64) -> u16
    ensures { result ≡ bits16 number }
{
    number.rem_euclid(65536) as u16
}
