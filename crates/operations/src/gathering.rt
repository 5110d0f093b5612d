// What an instruction works with, read from a core's parts.
ghost use Rattle.std.specs.Prelude.{◌≡◌, slice_index};
ghost use Rattle.isa.specs.Immediates.{immediate_field};
ghost use Rattle.operations.specs.Operations as spec;

use crate::values::{Forerunner, Operands};
use isa::Instruction;

// The number of the register that is the first operand; r0, which is 0, stands for none.
fn base(instruction: Instruction) -> u8
    ensures { result ≡ spec.base instruction }
{
    match instruction {
        Instruction::Add { ra, .. }
        | Instruction::Sub { ra, .. }
        | Instruction::Addi { ra, .. }
        | Instruction::Lw { ra, .. }
        | Instruction::Lb { ra, .. }
        | Instruction::Sw { ra, .. }
        | Instruction::Sb { ra, .. }
        | Instruction::Jal { ra, .. } => ra,
        Instruction::Register { rd, .. } | Instruction::Immediate { rd, .. } => rd,
        Instruction::Branch { .. } | Instruction::Call { .. } | Instruction::Imm { .. } => 0,
    }
}

fn register(registers: &[u16; 16], number: u8) -> u16
    ensures { result ≡ slice_index registers.now number }
{
    registers.get(usize::from(number)).copied().unwrap_or(0)
}

fn immediate(instruction: Instruction, prefix: Option<u16>) -> u16
    ensures { result ≡ spec.immediate_by (immediate_field instruction) prefix }
{
    instruction
        .immediate_field()
        .map_or(0, |field| field.value(prefix))
}

// The operands of an instruction that is about to run.
pub fn gather(
    registers: &[u16; 16],
    counter: u16,
    prefix: Option<u16>,
    forerunner: Forerunner,
    instruction: Instruction,
) -> Operands
    ensures { result ≡ spec.gathered registers.now counter prefix forerunner instruction }
{
    let (a, b) = forerunner.compared();
    Operands {
        left: register(registers, base(instruction)),
        right: register(registers, instruction.late()),
        immediate: immediate(instruction, prefix),
        counter,
        carry: forerunner.carry(),
        a,
        b,
        bit: forerunner.bit(),
    }
}
