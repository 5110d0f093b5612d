// What is answered of a core.
ghost use Rattle.std.specs.Prelude.{◌≡◌};
ghost use Rattle.xr16.specs.Playing as spec;

use crate::answers::{Playing, Totals};
use isa::Refusal;
use machine::Core;

pub(crate) fn report(core: &Core, loading: Result<(), Refusal>, totals: Totals) -> Playing
    ensures { result ≡ spec.report loading core.now.state totals }
{
    Playing {
        own: totals.own,
        service: totals.service,
        takings: totals.takings,
        registers: core.registers(),
        counter: core.counter(),
        wait: totals.wait,
        last: totals.last.unwrap_or_default(),
        loading: loading.err().map_or(0, Refusal::number),
        owing: core.owing(),
    }
}
