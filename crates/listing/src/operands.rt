// What the assembler alters in an instruction.
ghost use Rattle.std.specs.Prelude.{◌≡◌};
ghost use Rattle.listing.specs.Operands.{swapped, carrying, with_immediate};

use isa::{Instruction, RegisterFunction};

// and r0,r0, which does nothing.
pub(crate) const NOP: Instruction = Instruction::Register {
    function: RegisterFunction::And,
    rd: 0,
    rb: 0,
};

// The same sum with its operands swapped, where they differ.
pub(crate) fn swap(i: Instruction) -> Option<Instruction>
    ensures { result ≡ swapped i }
{
    match i {
        Instruction::Add { rd, ra, rb } if ra != rb => Some(Instruction::Add {
            rd,
            ra: rb,
            rb: ra,
        }),
        _ => None,
    }
}

// Whether the instruction is adc or sbc, which take the carry of the word before.
pub(crate) fn takes_carry(i: Instruction) -> bool
    ensures { result ≡ carrying i }
{
    matches!(
        i,
        Instruction::Register {
            function: RegisterFunction::Adc | RegisterFunction::Sbc,
            ..
        }
    )
}

// The instruction with another immediate, where it has one.
pub fn set_immediate(i: Instruction, n: u8) -> Instruction
    ensures { result ≡ with_immediate i n }
{
    match i {
        Instruction::Addi { rd, ra, imm: _ } => Instruction::Addi { rd, ra, imm: n },
        Instruction::Immediate {
            function,
            rd,
            imm: _,
        } => Instruction::Immediate {
            function,
            rd,
            imm: n,
        },
        Instruction::Lw { rd, ra, imm: _ } => Instruction::Lw { rd, ra, imm: n },
        Instruction::Lb { rd, ra, imm: _ } => Instruction::Lb { rd, ra, imm: n },
        Instruction::Sw { rd, ra, imm: _ } => Instruction::Sw { rd, ra, imm: n },
        Instruction::Sb { rd, ra, imm: _ } => Instruction::Sb { rd, ra, imm: n },
        Instruction::Jal { rd, ra, imm: _ } => Instruction::Jal { rd, ra, imm: n },
        _ => i,
    }
}
