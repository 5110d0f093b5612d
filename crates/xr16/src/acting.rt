// One action, with what it counts and why it was refused.
ghost use Rattle.std.specs.Prelude.{◌≡◌};
ghost use Rattle.histories.specs.Histories.{Acts};
ghost use Rattle.histories.specs.declared.actions.Action.TheVariants as action;
ghost use Rattle.xr16.specs.Faults as spec;

use crate::answers::{Deed, Fault};
use histories::Action;
use isa::Refusal;
use machine::{Core, Side, StepRefusal, Tally};
use memory::Memory;

fn side_number(side: Side) -> u8
    ensures { result ≡ spec.side_number side }
{
    side as u8
}

impl From<StepRefusal> for Fault {
    ghost from_gives = { λ refused f. f ≡ spec.fault_of refused };

    fn from(refused: StepRefusal) -> Fault {
        Fault {
            number: refused.refusal.number(),
            side: side_number(refused.side),
            address: refused.address,
        }
    }
}

// Why a request was refused: it has no side and no address.
impl From<Refusal> for Fault {
    ghost from_gives = { λ refusal f. f ≡ spec.request_fault refusal };

    fn from(refusal: Refusal) -> Fault {
        Fault {
            number: refusal.number(),
            ..Fault::default()
        }
    }
}

// A run; a step is a run of one. Core and memory stay two parameters, as in the core's own calls: a struct of both would only be taken apart here.
fn spend<M: Memory>(core: &mut Core, memory: &mut M, budget: u16) -> Deed
    ensures exact { Acts (action.Run budget) core.old.state (M.Memory.means memory.old)
        result.tally core.new.state (M.Memory.means memory.new) }
    ensures fault { result.fault ≡ spec.fault_in (M.Memory.means memory.old).mark
        core.old.state (M.Memory.means memory.old).byte (action.Run budget) }
    ensures lent { M.Memory.loan memory.new ≡ M.Memory.loan memory.old }
{
    let run = core.run(memory, budget);
    Deed {
        tally: run.tally,
        fault: run.end.err().map(Fault::from),
    }
}

// Does an action to a core over a memory.
pub(crate) fn act<M: Memory>(action: Action, core: &mut Core, memory: &mut M) -> Deed
    ensures exact { Acts action core.old.state (M.Memory.means memory.old)
        result.tally core.new.state (M.Memory.means memory.new) }
    ensures fault { result.fault ≡ spec.fault_in (M.Memory.means memory.old).mark
        core.old.state (M.Memory.means memory.old).byte action }
    ensures lent { M.Memory.loan memory.new ≡ M.Memory.loan memory.old }
{
    match action {
        Action::Request => Deed {
            tally: Tally::default(),
            fault: core.request().err().map(Fault::from),
        },
        Action::Step => spend(core, memory, 1),
        Action::Run(budget) => spend(core, memory, budget),
    }
}
