// What steps and runs answer.
ghost use Rattle.std.specs.Prelude.{◌≡◌};

use crate::states::Side;
use isa::Refusal;

// A request was taken after this wait, or a word of this side ran.
#[derive(Clone, Copy, PartialEq, Eq)]
pub enum Step {
    Taken(u16),
    Made(Side),
}

// Why a step was refused, the counter, and whose step it was.
#[derive(Clone, Copy, PartialEq, Eq)]
pub struct StepRefusal {
    pub refusal: Refusal,
    pub address: u16,
    pub side: Side,
}

// The refusal alone, without where it happened.
impl From<StepRefusal> for Refusal {
    ghost from_gives = { λ refused refusal. refusal ≡ refused.refusal };

    fn from(refused: StepRefusal) -> Refusal {
        refused.refusal
    }
}

// How many steps of each kind succeeded, and the wait of the request that was taken, or 0: takings are counted and not an Option,
// so that tallies add up. The totals of rehearsal and xr16 are wider tallies of their own, since a run's counts fit sixteen bits.
#[derive(Clone, Copy, PartialEq, Eq, Default)]
pub struct Tally {
    pub own: u16,
    pub service: u16,
    pub takings: u16,
    pub wait: u16,
}

// What a run did; it ends well when its budget is spent.
#[derive(Clone, Copy, PartialEq, Eq)]
pub struct Run {
    pub tally: Tally,
    pub end: Result<(), StepRefusal>,
}
