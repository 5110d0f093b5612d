// What a word is about to do, decided without touching a memory.
ghost use Rattle.std.specs.Prelude.{◌≡◌};
ghost use Rattle.machine.specs.Checks as spec;
ghost use Rattle.machine.specs.Steps.{found};

use crate::layouts::{is_io, is_odd};
use crate::states::{Plan, Side, State};
use isa::{Instruction, Refusal};
use memory::{Memory, load_word};
use operations::{Operands, gather};

// How many of r1 to r15 differ from their copies.
fn differing(registers: &[u16; 16], copies: &[u16; 16]) -> u8
    ensures { result ≡ spec.differing registers.now copies.now 15 }
{
    let pairs = registers.iter().zip(copies).skip(1);
    pairs.filter(|(held, copy)| held != copy).count() as u8
}

// The register that is read late is the result of the word before.
// The assembler's own test of its slots stands in listing, which knows no core.
fn in_hazard(late: u8, before: u8) -> bool
    ensures { result ≡ spec.hazard late before }
{
    late != 0 && late == before
}

impl State {
    // The register that the side's last word wrote.
    fn last(&self, side: Side) -> u8
        ensures { result ≡ spec.last self.now side }
    {
        match side {
            Side::Own => self.made,
            Side::Service => self.served,
        }
    }

    pub(crate) fn owing(&self) -> u8
        ensures { result ≡ spec.owing self.now }
    {
        self.service
            .as_ref()
            .map_or(0, |copies| differing(&self.registers, copies))
    }

    // The word that ends a service, with no prefix pending.
    fn closes(&self, side: Side, word: u16) -> bool
        ensures { result ≡ spec.closes self.now side word }
    {
        !side.is_own() && word == 0xA0E0 && self.prefix.is_none()
    }

    fn operands(&self, instruction: Instruction) -> Operands
        ensures { result ≡ spec.operands self.now instruction }
    {
        gather(
            &self.registers,
            self.counter,
            self.prefix,
            self.forerunner,
            instruction,
        )
    }

    // The first check that the word fails refuses it.
    fn check(&self, side: Side, plan: &Plan, given: Operands) -> Result<(), Refusal>
        requires given { given ≡ spec.operands self.now plan.now.instruction }
        requires effect { plan.now.effect ≡ spec.effect_in self.now plan.now.instruction }
        ensures { result ≡ spec.first_failed (spec.checks self.now side plan.now.closes plan.now.instruction) }
    {
        let instruction = plan.instruction;
        if side.is_own() && instruction.names(14) {
            Err(Refusal::Reserved)
        } else if in_hazard(instruction.late(), self.last(side)) {
            Err(Refusal::Hazard)
        } else if self.forerunner.lacks(instruction, self.prefix) {
            Err(Refusal::Bare)
        } else if given.miscounts(instruction) {
            Err(Refusal::Count)
        } else if is_odd(plan.effect) {
            Err(Refusal::Odd)
        } else if is_io(plan.effect) {
            Err(Refusal::Io)
        } else if self.layout.forbids(side, plan.effect) {
            Err(Refusal::Trespass)
        } else if plan.closes && self.owing() > 0 {
            Err(Refusal::Unkept)
        } else {
            Ok(())
        }
    }

    // What the word is about to do, or why it is refused.
    fn planned(&self, side: Side, word: u16) -> Result<Plan, Refusal>
        ensures { result ≡ spec.planned self.now side word }
    {
        let instruction = isa::read(word)?;
        let given = self.operands(instruction);
        let plan = Plan {
            instruction,
            effect: given.effect(instruction),
            leaves: given.leaves(instruction),
            closes: self.closes(side, word),
        };
        self.check(side, &plan, given)?;
        Ok(plan)
    }

    // The plan of the word at the counter, which has to stand where the side's words may.
    pub(crate) fn found<M: Memory>(&self, memory: &M, side: Side) -> Result<Plan, Refusal>
        ensures { result ≡ found self.now (M.Memory.means memory.now).byte side }
    {
        if !self.layout.places(side, self.counter) {
            return Err(Refusal::Astray);
        }
        self.planned(side, load_word(memory, self.counter))
    }
}
