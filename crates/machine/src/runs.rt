// Runs: many steps, until the budget is spent or one is refused.
ghost use Rattle.std.specs.Prelude.{◌≡◌, ◌+◌, ◌<◌};
ghost use Rattle.machine.specs.Laws.{RunLaws};
ghost use Rattle.machine.specs.Runs as spec;

use crate::answers::{Run, Step, StepRefusal, Tally};
use crate::body::Core;
use crate::states::Side;
use memory::Memory;

impl Tally {
    // Counts one more step.
    fn count(&mut self, step: Step)
        requires { self.old.own + self.old.service + self.old.takings < 65535 }
        ensures { self.new ≡ spec.counted self.old step }
    {
        match step {
            Step::Taken(wait) => {
                self.takings += 1;
                self.wait = wait;
            }
            Step::Made(Side::Own) => self.own += 1,
            Step::Made(Side::Service) => self.service += 1,
        }
    }
}

impl Core {
    // Counts the steps of a whole budget, or those before one that is refused.
    fn spend<M: Memory>(
        &mut self,
        memory: &mut M,
        budget: u16,
        tally: &mut Tally,
    ) -> Result<(), StepRefusal>
        requires { tally.old ≡ spec.no_steps }
        ensures exact { spec.Runs budget self.old.state (M.Memory.means memory.old)
            (record { tally = tally.new; end = result }) self.new.state (M.Memory.means memory.new) }
        ensures lent { M.Memory.loan memory.new ≡ M.Memory.loan memory.old }
    {
        for _ in 0..budget {
            let step = self.turn(memory)?;
            tally.count(step);
        }
        Ok(())
    }

    // Makes its whole budget of steps unless one is refused; the steps before it stand.
    pub fn run<M: Memory>(&mut self, memory: &mut M, budget: u16) -> Run
        ensures exact { spec.Runs budget self.old.state (M.Memory.means memory.old)
            result self.new.state (M.Memory.means memory.new) }
        ensures laws { RunLaws budget self.old.state (M.Memory.means memory.old)
            result self.new.state (M.Memory.means memory.new) }
        ensures lent { M.Memory.loan memory.new ≡ M.Memory.loan memory.old }
    {
        let mut tally = Tally::default();
        let end = self.spend(memory, budget, &mut tally);
        Run { tally, end }
    }
}
