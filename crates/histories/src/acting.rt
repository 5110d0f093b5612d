// One action on a core.
ghost use Rattle.std.specs.Prelude.{◌≡◌};
ghost use Rattle.machine.specs.Runs as count;
ghost use Rattle.histories.specs.Histories as spec;
ghost use Rattle.histories.specs.Laws.{StepsAreCounted};

use crate::actions::Action;
use machine::{Core, Side, Step, Tally};
use memory::Memory;

// The tally of a single step that succeeded, which a run's steps count like. A function and no From: both types are machine's.
// It does not call machine's Tally::count: that one asks for room for one step more, and a public function asks nothing.
#[tactic(auto, using(crate::proofs::Counting::steps_are_counted))]
pub fn tally_of_step(step: Step) -> Tally
    ensures exact { result ≡ count.counted count.no_steps step }
    ensures law { StepsAreCounted }
{
    match step {
        Step::Taken(wait) => Tally {
            takings: 1,
            wait,
            ..Tally::default()
        },
        Step::Made(Side::Own) => Tally {
            own: 1,
            ..Tally::default()
        },
        Step::Made(Side::Service) => Tally {
            service: 1,
            ..Tally::default()
        },
    }
}

impl Action {
    // Does this to a core over a memory, and tallies the steps that succeeded. Core and memory stay two parameters, as in the core's
    // own calls, since the memory is the caller's.
    pub fn act<M: Memory>(self, core: &mut Core, memory: &mut M) -> Tally
        ensures exact { spec.Acts self core.old.state (M.Memory.means memory.old)
            result core.new.state (M.Memory.means memory.new) }
        ensures lent { M.Memory.loan memory.new ≡ M.Memory.loan memory.old }
    {
        match self {
            Action::Request => {
                let _ = core.request();
                Tally::default()
            }
            Action::Step => core.step(memory).map(tally_of_step).unwrap_or_default(),
            Action::Run(budget) => core.run(memory, budget).tally,
        }
    }
}
