// An instruction from its name and its fields, in the order of the word.
ghost use Rattle.std.specs.Prelude.{◌≤◌};

use crate::complaints::Complaint;
use crate::numbers;
use isa::{Instruction, Refusal, read};
use std::array;
use std::num::TryFromIntError;
use std::str::SplitWhitespace;

// The N numbers that end the line; no instruction has more than three.
fn last_numbers<const N: usize>(words: &mut SplitWhitespace<'_>) -> Result<[u32; N], Complaint>
    requires { N ≤ 3 }
{
    let numbers = array::try_from_fn(|_| numbers::number(words))?;
    numbers::end(words)?;
    Ok(numbers)
}

// A number that no field can hold is refused as a field is, once the line has all its words.
fn field<T: TryFrom<u32, Error = TryFromIntError>>(number: u32) -> Result<T, Complaint> {
    Ok(T::try_from(number).map_err(|_| Refusal::Field)?)
}

// The instruction of a name, with all its fields 0. Every kind of instruction has a word whose last four bits are 0.
fn named(name: &str) -> Option<Instruction> {
    (0..=u16::MAX)
        .step_by(16)
        .filter_map(|word| read(word).ok())
        .find(|kind| kind.mnemonic() == name)
}

// The instruction of an opcode that has rd, ra and a third field.
fn three_field(kind: Instruction, rd: u8, ra: u8, last: u8) -> Instruction {
    match kind {
        Instruction::Add { .. } => Instruction::Add { rd, ra, rb: last },
        Instruction::Sub { .. } => Instruction::Sub { rd, ra, rb: last },
        Instruction::Addi { .. } => Instruction::Addi { rd, ra, imm: last },
        Instruction::Lw { .. } => Instruction::Lw { rd, ra, imm: last },
        Instruction::Lb { .. } => Instruction::Lb { rd, ra, imm: last },
        Instruction::Sw { .. } => Instruction::Sw { rd, ra, imm: last },
        Instruction::Sb { .. } => Instruction::Sb { rd, ra, imm: last },
        Instruction::Jal { .. } => Instruction::Jal { rd, ra, imm: last },
        // The caller has matched the kinds without three fields.
        _ => kind,
    }
}

// The instruction of a name and the fields that follow it on the line.
pub(crate) fn instruction(words: &mut SplitWhitespace<'_>) -> Result<Instruction, Complaint> {
    let kind = named(numbers::word(words)?).ok_or(Complaint::UnknownName)?;
    match kind {
        Instruction::Register { function, .. } => {
            let [rd, rb] = last_numbers::<2>(words)?;
            Ok(Instruction::Register {
                function,
                rd: field(rd)?,
                rb: field(rb)?,
            })
        }
        Instruction::Immediate { function, .. } => {
            let [rd, imm] = last_numbers::<2>(words)?;
            Ok(Instruction::Immediate {
                function,
                rd: field(rd)?,
                imm: field(imm)?,
            })
        }
        Instruction::Branch { condition, .. } => {
            let [displacement] = last_numbers::<1>(words)?;
            Ok(Instruction::Branch {
                condition,
                displacement: field(displacement)?,
            })
        }
        Instruction::Call { .. } => {
            let [imm12] = last_numbers::<1>(words)?;
            Ok(Instruction::Call {
                imm12: field(imm12)?,
            })
        }
        Instruction::Imm { .. } => {
            let [imm12] = last_numbers::<1>(words)?;
            Ok(Instruction::Imm {
                imm12: field(imm12)?,
            })
        }
        _ => {
            let [rd, ra, last] = last_numbers::<3>(words)?;
            Ok(three_field(kind, field(rd)?, field(ra)?, field(last)?))
        }
    }
}
