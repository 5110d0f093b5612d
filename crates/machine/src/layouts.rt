// Where words may stand and where they may reach.
ghost use Rattle.std.specs.Prelude.{◌≡◌};
ghost use Rattle.machine.specs.Layouts as spec;

use crate::states::{Layout, ServiceRange, Side};
use operations::{Effect, Width};

impl Side {
    pub(crate) fn is_own(self) -> bool
        ensures { result ≡ spec.is_own self }
    {
        matches!(self, Side::Own)
    }
}

impl ServiceRange {
    // Whether the address is in the range.
    pub fn contains(self, address: u16) -> bool
        ensures { result ≡ spec.contains self address }
    {
        (self.low..self.high).contains(&address)
    }
}

impl Layout {
    // Whether a word of this side may run at the address.
    pub(crate) fn places(self, side: Side, address: u16) -> bool
        ensures { result ≡ spec.placed self side address }
    {
        match side {
            Side::Own => address < self.text && !self.service.contains(address),
            Side::Service => self.service.contains(address),
        }
    }

    // Whether the effect is an access that this side may not make.
    pub(crate) fn forbids(self, side: Side, effect: Effect) -> bool
        ensures { result ≡ spec.trespasses self side effect }
    {
        match (effect, side) {
            (Effect::Load { address, .. }, Side::Own) => self.service.contains(address),
            (Effect::Store { address, .. }, Side::Own) => self.service.contains(address)
                || address < self.text,
            (Effect::Store { address, .. }, Side::Service) => !self.service.contains(address),
            _ => false,
        }
    }
}

// Whether the effect is an access to a word at an odd address.
pub(crate) fn is_odd(effect: Effect) -> bool
    ensures { result ≡ spec.is_odd effect }
{
    matches!(
        effect,
        Effect::Load { width: Width::Word, address }
            | Effect::Store { width: Width::Word, address, .. } if address % 2 == 1
    )
}

// Whether the effect is an access to the last 256 addresses.
pub(crate) fn is_io(effect: Effect) -> bool
    ensures { result ≡ spec.is_io effect }
{
    matches!(
        effect,
        Effect::Load { address, .. } | Effect::Store { address, .. } if address >= 0xFF00
    )
}
