// Which eight bytes a record is written as.
ghost use Rattle.std.specs.Prelude.{◌≡◌, ◌<◌};
ghost use Rattle.listing.specs.Packing.{operation_number, InSize, head_of, record_bytes, write_record, WritesBack};

use crate::records::{Operation, Record};
use isa::Refusal;

impl Operation {
    // The way back, `numbered`, is no TryFrom, as the definition `operation_of` is an Option: later passes skip what is not listed.
    fn number(self) -> u32
        ensures value { result ≡ operation_number self }
        ensures bound { result < 128 }
    {
        match self {
            Operation::Add => 0,
            Operation::Sub => 1,
            Operation::Addi => 2,
            Operation::Register(function) => 3 + function as u32,
            Operation::Immediate(function) => 9 + function as u32,
            Operation::Lw => 20,
            Operation::Lb => 21,
            Operation::Sw => 22,
            Operation::Sb => 23,
            Operation::Jal => 24,
            Operation::Call => 25,
            Operation::Branch(condition) => 32 + condition as u32,
            Operation::Cmp => 48,
            Operation::Cmpi => 49,
            Operation::J => 50,
            Operation::Lea => 51,
            Operation::Lbs => 52,
            Operation::Nop => 53,
            Operation::Mov => 54,
            Operation::Ret => 55,
            Operation::Reti => 56,
            Operation::Sxt => 57,
            Operation::Subi => 58,
            Operation::Zext => 59,
            Operation::Text => 64,
            Operation::Data => 65,
            Operation::Byte => 66,
            Operation::Word => 67,
            Operation::Align => 68,
            Operation::Label => 69,
        }
    }
}

impl Record {
    // The first four bytes as one number.
    fn head(self) -> u32
        requires { InSize self }
        ensures { result ≡ head_of self }
    {
        self.operation.number() * 0x200_0000
            + u32::from(self.rd) * 0x20_0000
            + u32::from(self.ra) * 0x2_0000
            + u32::from(self.rb) * 0x2000
            + u32::from(self.reference) * 0x1000
            + u32::from(self.label)
    }

    fn bytes(self) -> [u8; 8]
        requires { InSize self }
        ensures { result ≡ record_bytes self }
    {
        let [a, b, c, d] = self.head().to_be_bytes();
        let [e, f, g, h] = self.constant.to_be_bytes();
        [a, b, c, d, e, f, g, h]
    }

    // The record's eight bytes, which read as that record; or a refusal where a field is too large for
    // its bits.
    pub fn write(self) -> Result<[u8; 8], Refusal>
        ensures value { result ≡ write_record self }
        ensures back { WritesBack self result }
    {
        if self.rd < 16
            && self.ra < 16
            && self.rb < 16
            && self.reference < 2
            && self.label < 0x1000
        {
            Ok(self.bytes())
        } else {
            Err(Refusal::Field)
        }
    }
}
