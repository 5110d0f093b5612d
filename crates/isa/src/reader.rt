// What a word reads as.
ghost use Rattle.std.specs.Prelude.{◌≡◌, ◌/◌, ◌%◌};
ghost use Rattle.isa.specs.Laws.{ReadsBack};
ghost use Rattle.isa.specs.Registers.{reads_interlocked};
ghost use Rattle.isa.specs.Words.{register_function, immediate_function, branch_condition, read_word};

use crate::instructions::{Condition, ImmediateFunction, Instruction, RegisterFunction};
use crate::refusals::Refusal;

// The four fields of a word, from the most significant.
struct Fields {
    opcode: u8,
    rd: u8,
    ra: u8,
    rb: u8,
}

impl Fields {
    fn of(word: u16) -> Fields
        ensures opcode { result.opcode ≡ word / 4096 }
        ensures rd { result.rd ≡ word / 256 % 16 }
        ensures ra { result.ra ≡ word / 16 % 16 }
        ensures rb { result.rb ≡ word % 16 }
    {
        Fields {
            opcode: (word / 0x1000) as u8,
            rd: (word / 0x100 % 0x10) as u8,
            ra: (word / 0x10 % 0x10) as u8,
            rb: (word % 0x10) as u8,
        }
    }
}

// The function of opcode 3 that has this number.
impl TryFrom<u8> for RegisterFunction {
    type Error = Refusal;

    ghost try_from_gives = { λ number result. result ≡ register_function number };

    fn try_from(number: u8) -> Result<Self, Refusal> {
        match number {
            0 => Ok(RegisterFunction::And),
            1 => Ok(RegisterFunction::Or),
            2 => Ok(RegisterFunction::Xor),
            3 => Ok(RegisterFunction::Andn),
            4 => Ok(RegisterFunction::Adc),
            5 => Ok(RegisterFunction::Sbc),
            _ => Err(Refusal::Unknown),
        }
    }
}

// The function of opcode 4 that has this number.
impl TryFrom<u8> for ImmediateFunction {
    type Error = Refusal;

    ghost try_from_gives = { λ number result. result ≡ immediate_function number };

    fn try_from(number: u8) -> Result<Self, Refusal> {
        match number {
            0 => Ok(ImmediateFunction::Andi),
            1 => Ok(ImmediateFunction::Ori),
            2 => Ok(ImmediateFunction::Xori),
            3 => Ok(ImmediateFunction::Andni),
            4 => Ok(ImmediateFunction::Adci),
            5 => Ok(ImmediateFunction::Sbci),
            6 => Ok(ImmediateFunction::Srli),
            7 => Ok(ImmediateFunction::Srai),
            8 => Ok(ImmediateFunction::Slli),
            9 => Ok(ImmediateFunction::Srxi),
            10 => Ok(ImmediateFunction::Slxi),
            _ => Err(Refusal::Unknown),
        }
    }
}

// The condition that has this number; there is no condition 1.
impl TryFrom<u8> for Condition {
    type Error = Refusal;

    ghost try_from_gives = { λ number result. result ≡ branch_condition number };

    fn try_from(number: u8) -> Result<Self, Refusal> {
        match number {
            0 => Ok(Condition::Br),
            2 => Ok(Condition::Beq),
            3 => Ok(Condition::Bne),
            4 => Ok(Condition::Bc),
            5 => Ok(Condition::Bnc),
            6 => Ok(Condition::Bv),
            7 => Ok(Condition::Bnv),
            8 => Ok(Condition::Blt),
            9 => Ok(Condition::Bge),
            10 => Ok(Condition::Ble),
            11 => Ok(Condition::Bgt),
            12 => Ok(Condition::Bltu),
            13 => Ok(Condition::Bgeu),
            14 => Ok(Condition::Bleu),
            15 => Ok(Condition::Bgtu),
            _ => Err(Refusal::Unknown),
        }
    }
}

fn decode(word: u16) -> Result<Instruction, Refusal>
    ensures { result ≡ read_word word }
{
    let Fields { opcode, rd, ra, rb } = Fields::of(word);
    Ok(match opcode {
        0x0 => Instruction::Add { rd, ra, rb },
        0x1 => Instruction::Sub { rd, ra, rb },
        0x2 => Instruction::Addi { rd, ra, imm: rb },
        0x3 => Instruction::Register {
            function: RegisterFunction::try_from(ra)?,
            rd,
            rb,
        },
        0x4 => Instruction::Immediate {
            function: ImmediateFunction::try_from(ra)?,
            rd,
            imm: rb,
        },
        0x5 => Instruction::Lw { rd, ra, imm: rb },
        0x6 => Instruction::Lb { rd, ra, imm: rb },
        0x8 => Instruction::Sw { rd, ra, imm: rb },
        0x9 => Instruction::Sb { rd, ra, imm: rb },
        0xA => Instruction::Jal { rd, ra, imm: rb },
        0xB => Instruction::Branch {
            condition: Condition::try_from(rd)?,
            displacement: ra * 16 + rb,
        },
        0xC => Instruction::Call { imm12: word % 4096 },
        0xD => Instruction::Imm { imm12: word % 4096 },
        0x7 | 0xE.. => return Err(Refusal::Unknown),
    })
}

// A word's instruction, which is written as that word; or that the word is unknown.
#[tactic(auto, using(crate::proofs::Back::reads_back))]
pub fn read(word: u16) -> Result<Instruction, Refusal>
    ensures value { result ≡ read_word word }
    ensures back { ReadsBack word result }
{
    decode(word)
}

// Whether a word reads as an interlocked instruction.
pub fn reads_interlocked(word: u16) -> bool
    ensures { result ≡ reads_interlocked word }
{
    decode(word).is_ok_and(|instruction| instruction.is_interlocked())
}
