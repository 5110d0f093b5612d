// What a rehearsal reports.
ghost use Rattle.std.specs.Prelude.{◌≡◌};
ghost use Rattle.rehearsal.specs.Reports as spec;

use isa::Refusal;
use machine::{Step, StepRefusal};
use text::Refused;

// The steps that a list of actions made, by kind, and the longest wait of a request that was taken, or 0. Takings are counted, so that
// totals add up. Wider than a run's tally, since these counts must not overflow.
#[derive(Clone, Copy, Default)]
pub struct Totals {
    pub own: u128,
    pub service: u128,
    pub takings: u128,
    pub wait: u16,
}

// How the two program states compare: they are looked at only where no service is open.
#[derive(Clone, Copy, PartialEq, Eq)]
pub enum Program {
    Serving,
    Same,
    Different,
}

// The totals, whether every step of the twin was an own step that succeeded, the limit of the waits, how the program
// states compare, and how the one step more answered in both cores.
#[derive(Clone, Copy)]
pub struct Report {
    pub totals: Totals,
    pub kept: bool,
    pub limit: usize,
    pub program: Program,
    pub next: Result<Step, StepRefusal>,
    pub twin_next: Result<Step, StepRefusal>,
}

// Which call refused: the assembly, the loading of the first core, or that of the twin.
#[derive(Clone, Copy)]
pub enum Obstacle {
    Assembly(Refused),
    Loading(Refusal),
    TwinLoading(Refusal),
}

// The refusal behind an obstacle, whichever call refused.
impl From<Obstacle> for Refusal {
    ghost from_gives = { λ obstacle refusal. refusal ≡ spec.refusal_behind obstacle };

    fn from(obstacle: Obstacle) -> Refusal {
        match obstacle {
            Obstacle::Assembly(refused) => refused.refusal,
            Obstacle::Loading(refusal) | Obstacle::TwinLoading(refusal) => refusal,
        }
    }
}
