// The registers of an instruction, and whether a request may be taken after it. A register is its number, as in the word, and r0 the
// number for none: writing r0 has no effect and reading it no hazard, so an Option would add a case that changes nothing.
ghost use Rattle.std.specs.Prelude.{◌≡◌};
ghost use Rattle.isa.specs.Registers as spec;

use crate::instructions::{ImmediateFunction, Instruction, RegisterFunction};

impl Instruction {
    // The register that the instruction writes; r0, which never changes, stands for none.
    pub fn result(self) -> u8
        ensures { result ≡ spec.result self }
    {
        match self {
            Instruction::Add { rd, .. }
            | Instruction::Sub { rd, .. }
            | Instruction::Addi { rd, .. }
            | Instruction::Register { rd, .. }
            | Instruction::Immediate { rd, .. }
            | Instruction::Lw { rd, .. }
            | Instruction::Lb { rd, .. }
            | Instruction::Jal { rd, .. } => rd,
            Instruction::Call { .. } => 15,
            _ => 0,
        }
    }

    // The register that may not be the result of the word before; r0 stands for none.
    pub fn late(self) -> u8
        ensures { result ≡ spec.late self }
    {
        match self {
            Instruction::Add { rb, .. }
            | Instruction::Sub { rb, .. }
            | Instruction::Register { rb, .. } => rb,
            Instruction::Sw { rd, .. } | Instruction::Sb { rd, .. } => rd,
            _ => 0,
        }
    }

    // Whether one of the instruction's register fields has this number.
    pub fn names(self, register: u8) -> bool
        ensures { result ≡ spec.names self register }
    {
        match self {
            Instruction::Add { rd, ra, rb } | Instruction::Sub { rd, ra, rb } => rd == register
                || ra == register
                || rb == register,
            Instruction::Addi { rd, ra, .. }
            | Instruction::Lw { rd, ra, .. }
            | Instruction::Lb { rd, ra, .. }
            | Instruction::Sw { rd, ra, .. }
            | Instruction::Sb { rd, ra, .. }
            | Instruction::Jal { rd, ra, .. } => rd == register || ra == register,
            Instruction::Register { rd, rb, .. } => rd == register || rb == register,
            Instruction::Immediate { rd, .. } => rd == register,
            Instruction::Branch { .. } | Instruction::Call { .. } | Instruction::Imm { .. } =>
                false,
        }
    }

    // Whether no request is taken directly after the instruction.
    pub fn is_interlocked(self) -> bool
        ensures { result ≡ spec.interlocked self }
    {
        matches!(
            self,
            Instruction::Add { .. }
                | Instruction::Sub { .. }
                | Instruction::Addi { .. }
                | Instruction::Register {
                    function: RegisterFunction::Adc | RegisterFunction::Sbc,
                    ..
                }
                | Instruction::Immediate {
                    function: ImmediateFunction::Adci | ImmediateFunction::Sbci,
                    ..
                }
                | Instruction::Imm { .. }
        )
    }
}
