// The names of the instructions.
ghost use Rattle.std.specs.Prelude.{◌≡◌};
ghost use Rattle.isa.specs.Mnemonics as spec;

use crate::instructions::{Condition, ImmediateFunction, Instruction, RegisterFunction};

impl RegisterFunction {
    fn mnemonic(self) -> &'static str
        ensures { result.now ≡ spec.register_mnemonic self }
    {
        match self {
            RegisterFunction::And => "and",
            RegisterFunction::Or => "or",
            RegisterFunction::Xor => "xor",
            RegisterFunction::Andn => "andn",
            RegisterFunction::Adc => "adc",
            RegisterFunction::Sbc => "sbc",
        }
    }
}

impl ImmediateFunction {
    fn mnemonic(self) -> &'static str
        ensures { result.now ≡ spec.immediate_mnemonic self }
    {
        match self {
            ImmediateFunction::Andi => "andi",
            ImmediateFunction::Ori => "ori",
            ImmediateFunction::Xori => "xori",
            ImmediateFunction::Andni => "andni",
            ImmediateFunction::Adci => "adci",
            ImmediateFunction::Sbci => "sbci",
            ImmediateFunction::Srli => "srli",
            ImmediateFunction::Srai => "srai",
            ImmediateFunction::Slli => "slli",
            ImmediateFunction::Srxi => "srxi",
            ImmediateFunction::Slxi => "slxi",
        }
    }
}

impl Condition {
    fn mnemonic(self) -> &'static str
        ensures { result.now ≡ spec.condition_mnemonic self }
    {
        match self {
            Condition::Br => "br",
            Condition::Beq => "beq",
            Condition::Bne => "bne",
            Condition::Bc => "bc",
            Condition::Bnc => "bnc",
            Condition::Bv => "bv",
            Condition::Bnv => "bnv",
            Condition::Blt => "blt",
            Condition::Bge => "bge",
            Condition::Ble => "ble",
            Condition::Bgt => "bgt",
            Condition::Bltu => "bltu",
            Condition::Bgeu => "bgeu",
            Condition::Bleu => "bleu",
            Condition::Bgtu => "bgtu",
        }
    }
}

impl Instruction {
    // The instruction's name, as it is written in assembly.
    pub fn mnemonic(self) -> &'static str
        ensures { result.now ≡ spec.mnemonic self }
    {
        match self {
            Instruction::Add { .. } => "add",
            Instruction::Sub { .. } => "sub",
            Instruction::Addi { .. } => "addi",
            Instruction::Register { function, .. } => function.mnemonic(),
            Instruction::Immediate { function, .. } => function.mnemonic(),
            Instruction::Lw { .. } => "lw",
            Instruction::Lb { .. } => "lb",
            Instruction::Sw { .. } => "sw",
            Instruction::Sb { .. } => "sb",
            Instruction::Jal { .. } => "jal",
            Instruction::Branch { condition, .. } => condition.mnemonic(),
            Instruction::Call { .. } => "call",
            Instruction::Imm { .. } => "imm",
        }
    }
}
