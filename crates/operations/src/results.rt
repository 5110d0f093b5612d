// What each operation does.
ghost use Rattle.std.specs.Prelude.{◌≡◌};
ghost use Rattle.operations.specs.Arithmetic.{plus, minus, one_if};
ghost use Rattle.operations.specs.Operations as spec;

use crate::conditions::holds;
use crate::values::{Effect, Operands, Width};
use isa::{Condition, ImmediateFunction, Instruction, RegisterFunction, branch_target};

fn plus_carry(x: u16, y: u16, carry: bool) -> u16
    ensures { result ≡ plus (plus x y) (one_if carry) }
{
    x.wrapping_add(y).wrapping_add(u16::from(carry))
}

// Not a sum with the inverted operand: as a difference it reads as its definition does.
fn minus_borrow(x: u16, y: u16, borrow: bool) -> u16
    ensures { result ≡ minus (minus x y) (one_if borrow) }
{
    x.wrapping_sub(y).wrapping_sub(u16::from(borrow))
}

// Shifts right by one, with the sign kept.
fn halved(x: u16) -> u16
    ensures { result ≡ spec.halved x }
{
    (x.cast_signed() >> 1).cast_unsigned()
}

// Shifts right by one, with the bit moved in at the top.
fn halved_under(x: u16, bit: bool) -> u16
    ensures { result ≡ spec.halved_under x bit }
{
    x / 2 + u16::from(bit) * 0x8000
}

impl Operands {
    // One function for each enum, as the two enums are the functions of two opcodes.
    fn register_value(self, function: RegisterFunction) -> u16
        ensures { result ≡ spec.register_value function self }
    {
        match function {
            RegisterFunction::And => self.left & self.right,
            RegisterFunction::Or => self.left | self.right,
            RegisterFunction::Xor => self.left ^ self.right,
            RegisterFunction::Andn => self.left & !self.right,
            RegisterFunction::Adc => plus_carry(self.left, self.right, self.carry),
            RegisterFunction::Sbc => minus_borrow(self.left, self.right, self.carry),
        }
    }

    // The functions of the other opcode; see above.
    fn immediate_value(self, function: ImmediateFunction) -> u16
        ensures { result ≡ spec.immediate_value function self }
    {
        match function {
            ImmediateFunction::Andi => self.left & self.immediate,
            ImmediateFunction::Ori => self.left | self.immediate,
            ImmediateFunction::Xori => self.left ^ self.immediate,
            ImmediateFunction::Andni => self.left & !self.immediate,
            ImmediateFunction::Adci => plus_carry(self.left, self.immediate, self.carry),
            ImmediateFunction::Sbci => minus_borrow(self.left, self.immediate, self.carry),
            ImmediateFunction::Srli => self.left >> 1,
            ImmediateFunction::Srai => halved(self.left),
            ImmediateFunction::Slli => self.left.wrapping_add(self.left),
            ImmediateFunction::Srxi => halved_under(self.left, self.bit),
            ImmediateFunction::Slxi => plus_carry(self.left, self.left, self.bit),
        }
    }

    fn branched(self, condition: Condition, displacement: u8) -> u16
        ensures { result ≡ spec.branched condition displacement self }
    {
        if holds(condition, self.a, self.b) {
            branch_target(self.counter, displacement)
        } else {
            self.counter.wrapping_add(2)
        }
    }

    // What the instruction does with these operands.
    pub fn effect(self, instruction: Instruction) -> Effect
        ensures { result ≡ spec.effect_of instruction self }
    {
        let next = self.counter.wrapping_add(2);
        let address = self.left.wrapping_add(self.immediate);
        match instruction {
            Instruction::Add { .. } => Effect::Put {
                value: self.left.wrapping_add(self.right),
                next,
            },
            Instruction::Sub { .. } => Effect::Put {
                value: self.left.wrapping_sub(self.right),
                next,
            },
            Instruction::Addi { .. } => Effect::Put {
                value: address,
                next,
            },
            Instruction::Register { function, .. } => Effect::Put {
                value: self.register_value(function),
                next,
            },
            Instruction::Immediate { function, .. } => Effect::Put {
                value: self.immediate_value(function),
                next,
            },
            Instruction::Lw { .. } => Effect::Load {
                width: Width::Word,
                address,
            },
            Instruction::Lb { .. } => Effect::Load {
                width: Width::Byte,
                address,
            },
            Instruction::Sw { .. } => Effect::Store {
                width: Width::Word,
                address,
                value: self.right,
            },
            Instruction::Sb { .. } => Effect::Store {
                width: Width::Byte,
                address,
                value: self.right,
            },
            Instruction::Jal { .. } => Effect::Put {
                value: next,
                next: address / 2 * 2,
            },
            Instruction::Branch {
                condition,
                displacement,
            } => Effect::Put {
                value: 0,
                next: self.branched(condition, displacement),
            },
            Instruction::Call { imm12 } => Effect::Put {
                value: next,
                next: imm12.wrapping_mul(16),
            },
            Instruction::Imm { imm12 } => Effect::Hold { prefix: imm12 },
        }
    }

    // Whether the instruction is a shift whose count is not 1.
    pub fn miscounts(self, instruction: Instruction) -> bool
        ensures { result ≡ spec.miscounts instruction self }
    {
        matches!(
            instruction,
            Instruction::Immediate {
                function: ImmediateFunction::Srli
                    | ImmediateFunction::Srai
                    | ImmediateFunction::Slli
                    | ImmediateFunction::Srxi
                    | ImmediateFunction::Slxi,
                ..
            }
        ) && self.immediate != 1
    }
}
