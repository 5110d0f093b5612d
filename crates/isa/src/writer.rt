// Which word an instruction is written as.
ghost use Rattle.std.specs.Prelude.{◌≡◌, ◌<◌};
ghost use Rattle.isa.specs.Laws.{WritesBack};
ghost use Rattle.isa.specs.Words.{packed, packed_low, write_word};

use crate::instructions::Instruction;
use crate::refusals::Refusal;

// Four numbers, each where its field stands in the word: a struct's literal would take five lines at each call.
fn pack(opcode: u8, rd: u8, ra: u8, rb: u8) -> Result<u16, Refusal>
    requires { opcode < 16 }
    ensures { result ≡ packed opcode rd ra rb }
{
    if rd < 16 && ra < 16 && rb < 16 {
        Ok(u16::from_be_bytes([opcode * 16 + rd, ra * 16 + rb]))
    } else {
        Err(Refusal::Field)
    }
}

fn pack_low(opcode: u8, low: u16) -> Result<u16, Refusal>
    requires { opcode < 16 }
    ensures { result ≡ packed_low opcode low }
{
    pack(
        opcode,
        (low / 256) as u8,
        (low / 16 % 16) as u8,
        (low % 16) as u8,
    )
}

fn encode(instruction: Instruction) -> Result<u16, Refusal>
    ensures { result ≡ write_word instruction }
{
    match instruction {
        Instruction::Add { rd, ra, rb } => pack(0x0, rd, ra, rb),
        Instruction::Sub { rd, ra, rb } => pack(0x1, rd, ra, rb),
        Instruction::Addi { rd, ra, imm } => pack(0x2, rd, ra, imm),
        Instruction::Register { function, rd, rb } => pack(0x3, rd, function as u8, rb),
        Instruction::Immediate { function, rd, imm } => pack(0x4, rd, function as u8, imm),
        Instruction::Lw { rd, ra, imm } => pack(0x5, rd, ra, imm),
        Instruction::Lb { rd, ra, imm } => pack(0x6, rd, ra, imm),
        Instruction::Sw { rd, ra, imm } => pack(0x8, rd, ra, imm),
        Instruction::Sb { rd, ra, imm } => pack(0x9, rd, ra, imm),
        Instruction::Jal { rd, ra, imm } => pack(0xA, rd, ra, imm),
        Instruction::Branch {
            condition,
            displacement,
        } => pack(0xB, condition as u8, displacement / 16, displacement % 16),
        Instruction::Call { imm12 } => pack_low(0xC, imm12),
        Instruction::Imm { imm12 } => pack_low(0xD, imm12),
    }
}

// An instruction's word, which reads as that instruction; or a refusal where a field is too large.
#[tactic(auto, using(crate::proofs::Back::writes_back))]
pub fn write(instruction: Instruction) -> Result<u16, Refusal>
    ensures value { result ≡ write_word instruction }
    ensures back { WritesBack instruction result }
{
    encode(instruction)
}
