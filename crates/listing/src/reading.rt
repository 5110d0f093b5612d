// What eight bytes of a listing say.
ghost use Rattle.std.specs.Prelude.{◌≡◌};
ghost use Rattle.listing.specs.Packing.{ReadsBack};
ghost use Rattle.listing.specs.Reading.{operation_of, record_of, read_record};

use crate::records::{Operation, Record};
use isa::{Condition, ImmediateFunction, RegisterFunction};

impl Operation {
    // No TryFrom, as the definition `operation_of` is an Option: later passes skip what is not listed.
    #[tactic(auto, using(crate::proofs::Unlisted::no_pseudo, crate::proofs::Unlisted::no_directive))]
    fn numbered(number: u8) -> Option<Operation>
        ensures { result ≡ operation_of number }
    {
        match number {
            0 => Some(Operation::Add),
            1 => Some(Operation::Sub),
            2 => Some(Operation::Addi),
            3..=8 => RegisterFunction::try_from(number - 3)
                .ok()
                .map(Operation::Register),
            9..=19 => ImmediateFunction::try_from(number - 9)
                .ok()
                .map(Operation::Immediate),
            20 => Some(Operation::Lw),
            21 => Some(Operation::Lb),
            22 => Some(Operation::Sw),
            23 => Some(Operation::Sb),
            24 => Some(Operation::Jal),
            25 => Some(Operation::Call),
            32..=47 => Condition::try_from(number - 32).ok().map(Operation::Branch),
            48 => Some(Operation::Cmp),
            49 => Some(Operation::Cmpi),
            50 => Some(Operation::J),
            51 => Some(Operation::Lea),
            52 => Some(Operation::Lbs),
            53 => Some(Operation::Nop),
            54 => Some(Operation::Mov),
            55 => Some(Operation::Ret),
            56 => Some(Operation::Reti),
            57 => Some(Operation::Sxt),
            58 => Some(Operation::Subi),
            59 => Some(Operation::Zext),
            64 => Some(Operation::Text),
            65 => Some(Operation::Data),
            66 => Some(Operation::Byte),
            67 => Some(Operation::Word),
            68 => Some(Operation::Align),
            69 => Some(Operation::Label),
            _ => None,
        }
    }
}

impl Record {
    fn from_words(head: u32, tail: u32) -> Option<Record>
        ensures { result ≡ record_of head tail }
    {
        let operation = Operation::numbered((head / 0x200_0000) as u8)?;
        Some(Record {
            operation,
            rd: (head / 0x20_0000 % 16) as u8,
            ra: (head / 0x2_0000 % 16) as u8,
            rb: (head / 0x2000 % 16) as u8,
            reference: (head / 0x1000 % 2) as u8,
            label: (head % 0x1000) as u16,
            constant: tail.cast_signed(),
        })
    }

    // The record of eight bytes, which is written as those bytes; or nothing where its operation is
    // not listed.
    pub fn read(bytes: [u8; 8]) -> Option<Record>
        ensures value { result ≡ read_record bytes }
        ensures back { ReadsBack bytes result }
    {
        let [a, b, c, d, e, f, g, h] = bytes;
        let head = u32::from_be_bytes([a, b, c, d]);
        let tail = u32::from_be_bytes([e, f, g, h]);
        Record::from_words(head, tail)
    }
}
