// A core with the memory that it runs over.
ghost use Rattle.std.specs.Prelude.{◌≡◌};
ghost use Rattle.histories.specs.Histories.{Acts};
ghost use Rattle.rehearsal.specs.Boards.{Holds};
ghost use Rattle.machine.specs.Loads.{Loads, fresh, unloaded};
ghost use Rattle.machine.specs.Steps.{Steps};

use histories::Action;
use isa::Refusal;
use machine::{Core, Layout, Step, StepRefusal, Tally};
use memory::Memory;

#[derive(Drop)]
pub(crate) struct Board<'a, M> {
    pub(crate) core: Core,
    pub(crate) memory: &'a mut M,
}

impl<'a, M: Memory> Board<'a, M> {
    // A core that was never loaded, over a memory.
    pub(crate) fn new(memory: &'a mut M) -> Board<'a, M>
        ensures core { result.core.state ≡ fresh unloaded }
        ensures memory { result.memory.now ≡ memory.old }
        ensures same_reference { result.memory.ghost_name ≡ memory.entry.ghost_name }
    {
        Board {
            core: Core::new(),
            memory,
        }
    }

    pub(crate) fn load(&mut self, image: &[u8], layout: Layout) -> Result<(), Refusal>
        ensures exact { Loads layout image.now self.old.core.state (M.Memory.means self.old.memory.now)
            result self.new.core.state (M.Memory.means self.new.memory.now) }
        ensures holds { Holds M.Memory.loan self.old.memory self.new.memory }
    {
        self.core.load(self.memory, image, layout)
    }

    pub(crate) fn act(&mut self, action: Action) -> Tally
        ensures exact { Acts action self.old.core.state (M.Memory.means self.old.memory.now)
            result self.new.core.state (M.Memory.means self.new.memory.now) }
        ensures holds { Holds M.Memory.loan self.old.memory self.new.memory }
    {
        action.act(&mut self.core, self.memory)
    }

    pub(crate) fn step(&mut self) -> Result<Step, StepRefusal>
        ensures exact { Steps self.old.core.state (M.Memory.means self.old.memory.now)
            result self.new.core.state (M.Memory.means self.new.memory.now) }
        ensures holds { Holds M.Memory.loan self.old.memory self.new.memory }
    {
        self.core.step(self.memory)
    }
}
