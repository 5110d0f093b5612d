// What an instruction takes from its forerunner, and whether one that it needs is lacking.
ghost use Rattle.std.specs.Prelude.{◌≡◌};
ghost use Rattle.operations.specs.Forerunners as spec;

use crate::values::Forerunner;
use isa::{Condition, ImmediateFunction, Instruction, RegisterFunction};

impl Forerunner {
    fn is_sum(self) -> bool
        ensures { result ≡ spec.is_sum self }
    {
        matches!(self, Forerunner::Sum { .. })
    }

    fn is_shift(self) -> bool
        ensures { result ≡ spec.is_shift self }
    {
        matches!(self, Forerunner::Shift { .. })
    }

    // The carry or borrow that the adc and sbc forms use.
    pub(crate) fn carry(self) -> bool
        ensures { result ≡ spec.carry_of self }
    {
        matches!(self, Forerunner::Sum { carry: true, .. })
    }

    // The bit that the extended shifts move in.
    pub(crate) fn bit(self) -> bool
        ensures { result ≡ spec.bit_of self }
    {
        matches!(self, Forerunner::Shift { bit: true })
    }

    // The operands that branches compare, the second as it was added.
    pub(crate) fn compared(self) -> (u16, u16)
        ensures { result ≡ (spec.first_of self, spec.second_of self) }
    {
        match self {
            Forerunner::Sum { a, b, .. } => (a, b),
            Forerunner::Nothing | Forerunner::Shift { .. } => (0, 0),
        }
    }

    // Whether this is not the forerunner that the instruction needs. A pending prefix stands between a branch and its sum.
    pub fn lacks(self, instruction: Instruction, prefix: Option<u16>) -> bool
        ensures { result ≡ spec.lacks self instruction prefix }
    {
        match instruction {
            Instruction::Register {
                function: RegisterFunction::Adc | RegisterFunction::Sbc,
                ..
            }
            | Instruction::Immediate {
                function: ImmediateFunction::Adci | ImmediateFunction::Sbci,
                ..
            } => !self.is_sum(),
            Instruction::Immediate {
                function: ImmediateFunction::Srxi | ImmediateFunction::Slxi,
                ..
            } => !self.is_shift(),
            Instruction::Branch {
                condition: Condition::Br,
                ..
            } => false,
            Instruction::Branch { .. } => !self.is_sum() || prefix.is_some(),
            _ => false,
        }
    }
}
