// Requests and steps, in place.
ghost use Rattle.std.specs.Prelude.{◌≡◌, true};
ghost use Rattle.machine.specs.Laws.{StepLaws};
ghost use Rattle.machine.specs.Steps as spec;

use crate::answers::{Step, StepRefusal};
use crate::body::Core;
use crate::states::Side;
use isa::Refusal;
use memory::Memory;

impl Core {
    // Holds one request pending, unless one is pending already or a service is open.
    pub fn request(&mut self) -> Result<(), Refusal>
        ensures answer { result ≡ spec.asking self.old.state }
        ensures state { self.new.state ≡ spec.asked self.old.state }
    {
        if self.state.service.is_some() || self.state.pending.is_some() {
            return Err(Refusal::Busy);
        }
        self.state.pending = Some(0);
        Ok(())
    }

    // Runs the word at the counter.
    fn perform<M: Memory>(&mut self, memory: &mut M, side: Side) -> Result<Step, StepRefusal>
        requires { spec.due self.old.state side ≡ true }
        ensures exact { spec.Performs side self.old.state (M.Memory.means memory.old)
            result self.new.state (M.Memory.means memory.new) }
        ensures lent { M.Memory.loan memory.new ≡ M.Memory.loan memory.old }
    {
        let address = self.state.counter;
        let plan = self
            .state
            .found(memory, side)
            .map_err(|refusal| StepRefusal {
                refusal,
                address,
                side,
            })?;
        self.state.apply(side, &plan, memory);
        Ok(Step::Made(side))
    }

    // Takes the pending request if one may be taken now, else runs a word.
    pub(crate) fn turn<M: Memory>(&mut self, memory: &mut M) -> Result<Step, StepRefusal>
        ensures exact { spec.Steps self.old.state (M.Memory.means memory.old)
            result self.new.state (M.Memory.means memory.new) }
        ensures lent { M.Memory.loan memory.new ≡ M.Memory.loan memory.old }
    {
        let side = match (
            self.state.service,
            self.state.pending,
            self.state.interruptible,
        ) {
            (None, Some(wait), true) => {
                self.state.take();
                return Ok(Step::Taken(wait));
            }
            (None, _, _) => Side::Own,
            (Some(_), _, _) => Side::Service,
        };
        self.perform(memory, side)
    }

    // One step: a request is taken, or one word runs, own or service.
    #[tactic(auto, using(crate::proofs::Promises::step_laws))]
    pub fn step<M: Memory>(&mut self, memory: &mut M) -> Result<Step, StepRefusal>
        ensures exact { spec.Steps self.old.state (M.Memory.means memory.old)
            result self.new.state (M.Memory.means memory.new) }
        ensures laws { StepLaws self.old.state (M.Memory.means memory.old)
            result self.new.state (M.Memory.means memory.new) }
        ensures lent { M.Memory.loan memory.new ≡ M.Memory.loan memory.old }
    {
        self.turn(memory)
    }
}
