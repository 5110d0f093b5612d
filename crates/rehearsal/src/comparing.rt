// Two cores and their memories compared.
ghost use Rattle.std.specs.Prelude.{◌≡◌, ℕ, ◌<◌, false, Decides, ◌≢◌, slice_index};
ghost use Rattle.machine.specs.Layouts.{inside};
ghost use Rattle.histories.specs.Laws.{SameProgram};
ghost use Rattle.rehearsal.specs.Boards.{SameByte};
ghost use Rattle.rehearsal.specs.Reports as spec;

use crate::pairs::Pair;
use crate::reports::Program;
use machine::{Core, Step, StepRefusal};
use memory::Memory;

// All registers but r14 are the same, which is no derived equality.
fn same_registers(core: &Core, twin: &Core) -> bool
    ensures { Decides result ((k : ℕ) → k < 16 → (k ≢ 14) → slice_index core.now.state.registers k ≡ slice_index twin.now.state.registers k) }
{
    let registers = core.registers();
    let twins = twin.registers();
    registers
        .iter()
        .zip(&twins)
        .enumerate()
        .all(|(number, (value, other))| number == 14 || value == other)
}

impl<M: Memory, N: Memory> Pair<'_, '_, M, N> {
    // The byte at an address is the same, unless the address is in the service range.
    fn same_byte(&self, address: u16) -> bool
        ensures { Decides result (SameByte self.now.first.core.state.layout
            (M.Memory.means self.now.first.memory.now).byte (N.Memory.means self.now.twin.memory.now).byte address) }
    {
        self.first.core.layout().service.contains(address)
            || self.first.memory.read(address) == self.twin.memory.read(address)
    }

    // All memory outside the service range is the same, which is no derived equality.
    fn same_memory(&self) -> bool
        ensures { Decides result ((a : ℕ) → a < 65536 → inside self.now.first.core.state.layout a ≡ false
            → (M.Memory.means self.now.first.memory.now).byte a ≡ (N.Memory.means self.now.twin.memory.now).byte a) }
    {
        (0..=u16::MAX).all(|address| self.same_byte(address))
    }

    fn same_program(&self) -> bool
        ensures { Decides result (SameProgram self.now.first.core.state (M.Memory.means self.now.first.memory.now).byte
            self.now.twin.core.state (N.Memory.means self.now.twin.memory.now).byte) }
    {
        self.first.core.counter() == self.twin.core.counter()
            && same_registers(&self.first.core, &self.twin.core)
            && self.same_memory()
    }

    // How the two program states compare.
    pub(crate) fn compare(&self) -> Program
        ensures { spec.Compared (spec.standing self.now.first.core.state (M.Memory.means self.now.first.memory.now))
            (spec.standing self.now.twin.core.state (N.Memory.means self.now.twin.memory.now)) result }
    {
        if self.first.core.is_serving() {
            Program::Serving
        } else if self.same_program() {
            Program::Same
        } else {
            Program::Different
        }
    }
}

// Whether two steps answered alike: both made the same, or both were refused with the same number, address and side.
#[tactic(auto, using(crate::proofs::Answered::same_results))]
pub fn same_answer(first: Result<Step, StepRefusal>, second: Result<Step, StepRefusal>) -> bool
    ensures { Decides result (first ≡ second) }
{
    first == second
}
