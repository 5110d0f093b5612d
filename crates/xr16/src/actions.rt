// Actions, three bytes each.
ghost use Rattle.std.specs.Prelude.{◌≡◌};
ghost use Rattle.xr16.specs.Actions as spec;

use histories::Action;

// The action of a kind's number and a budget. A function and no From: Action is histories' type, and bytes are the C interface's.
pub(crate) fn action_of(bytes: [u8; 3]) -> Action
    ensures { result ≡ spec.action_in bytes }
{
    let [kind, high, low] = bytes;
    match kind {
        0 => Action::Request,
        1 => Action::Step,
        _ => Action::Run(u16::from_be_bytes([high, low])),
    }
}
