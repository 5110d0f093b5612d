// What each operation leaves for the next word. Each function here answers an arm of `leaves` as it stands, an Option: only imm leaves
// none, and `Some` would otherwise stand in each arm.
ghost use Rattle.std.specs.Prelude.{◌≡◌};
ghost use Rattle.operations.specs.Operations as spec;

use crate::values::{Forerunner, Operands};
use isa::{ImmediateFunction, Instruction, RegisterFunction};

// A sum's operands, without the carry in, and its carry.
fn sum_left(a: u16, b: u16, carry: bool) -> Option<Forerunner>
    ensures { result ≡ spec.sum_left a b carry }
{
    Some(Forerunner::Sum {
        a,
        b,
        carry: u32::from(a) + u32::from(b) + u32::from(carry) > 0xFFFF,
    })
}

// A difference's operands, without the borrow in, the second negated, and its borrow.
fn difference_left(a: u16, b: u16, borrow: bool) -> Option<Forerunner>
    ensures { result ≡ spec.difference_left a b borrow }
{
    Some(Forerunner::Sum {
        a,
        b: b.wrapping_neg(),
        carry: u32::from(a) < u32::from(b) + u32::from(borrow),
    })
}

fn lowest(x: u16) -> Option<Forerunner>
    ensures { result ≡ spec.lowest x }
{
    Some(Forerunner::Shift { bit: x % 2 == 1 })
}

fn highest(x: u16) -> Option<Forerunner>
    ensures { result ≡ spec.highest x }
{
    Some(Forerunner::Shift { bit: x >= 0x8000 })
}

impl Operands {
    fn register_leaves(self, function: RegisterFunction) -> Option<Forerunner>
        ensures { result ≡ spec.register_leaves function self }
    {
        match function {
            RegisterFunction::Adc => sum_left(self.left, self.right, self.carry),
            RegisterFunction::Sbc => difference_left(self.left, self.right, self.carry),
            _ => Some(Forerunner::Nothing),
        }
    }

    fn immediate_leaves(self, function: ImmediateFunction) -> Option<Forerunner>
        ensures { result ≡ spec.immediate_leaves function self }
    {
        match function {
            ImmediateFunction::Adci => sum_left(self.left, self.immediate, self.carry),
            ImmediateFunction::Sbci => difference_left(self.left, self.immediate, self.carry),
            ImmediateFunction::Srli | ImmediateFunction::Srai | ImmediateFunction::Srxi => lowest(
                self.left,
            ),
            ImmediateFunction::Slli | ImmediateFunction::Slxi => highest(self.left),
            _ => Some(Forerunner::Nothing),
        }
    }

    // What the instruction leaves for the next word; none where it keeps what the word before left.
    pub fn leaves(self, instruction: Instruction) -> Option<Forerunner>
        ensures { result ≡ spec.leaves instruction self }
    {
        match instruction {
            Instruction::Add { .. } => sum_left(self.left, self.right, false),
            Instruction::Sub { .. } => difference_left(self.left, self.right, false),
            Instruction::Addi { .. } => sum_left(self.left, self.immediate, false),
            Instruction::Register { function, .. } => self.register_leaves(function),
            Instruction::Immediate { function, .. } => self.immediate_leaves(function),
            Instruction::Imm { .. } => None,
            _ => Some(Forerunner::Nothing),
        }
    }
}
