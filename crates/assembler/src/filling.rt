// The words of a record with its number.
ghost use Rattle.std.specs.Prelude.{◌≡◌};
ghost use Rattle.text.specs.Image.{filled, word_of};

use crate::values::{Value, low_bits};
use isa::Instruction;
use listing::Slot;

// The instruction at an address.
fn fill(slot: Slot, number: Value, at: u32) -> Instruction
    ensures { result ≡ filled number.number at slot }
{
    match slot {
        Slot::Word(i) => i,
        Slot::Prefix => Instruction::Imm {
            imm12: number.bits() / 16,
        },
        Slot::Low(i) => listing::set_immediate(i, (number.bits() % 16) as u8),
        Slot::Call => Instruction::Call {
            imm12: number.bits() / 16,
        },
        Slot::Branch(condition) => Instruction::Branch {
            condition,
            displacement: (low_bits(number.distance_from(at)) / 2 % 256) as u8,
        },
    }
}

// The word at an address. No instruction of a record is too large for one.
pub(crate) fn filled_word(slot: Slot, number: Value, at: u32) -> u16
    ensures { result ≡ word_of (filled number.number at slot) }
{
    isa::write(fill(slot, number, at)).unwrap_or(0)
}
