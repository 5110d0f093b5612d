// The words of a record that no hazard alters: how many there are, and each of them.
ghost use Rattle.std.specs.Prelude.{◌≡◌, ◌<◌, ◌≤◌, length, slice_get, slice_index_or};
ghost use Rattle.listing.specs.declared.items.First.TheVariants.{Field, Repeat};
ghost use Rattle.listing.specs.Numbers.{bits16};
ghost use Rattle.listing.specs.Slots as spec;
ghost use Rattle.listing.specs.Slots.{number, fits, field_of, first_slots, rest_slots, template, nop};

use crate::items::{First, Rest, Slot, Template};
use crate::operands::{NOP, set_immediate};
use isa::{ImmediateForm, ImmediateFunction, Instruction};

impl Rest {
    fn len(self) -> usize
        ensures value { result ≡ length (rest_slots self) }
        ensures bound { result ≤ 6 }
    {
        match self {
            Rest::Nothing => 0,
            Rest::Zero(_) => 2,
            Rest::Sign(_) => 4,
            Rest::Both(_) => 6,
        }
    }

    fn slot(self, k: usize) -> Slot
        ensures { result ≡ slice_index_or (rest_slots self) k nop }
    {
        match (self, k) {
            (Rest::Zero(_) | Rest::Both(_), 0) => Slot::Word(Instruction::Imm { imm12: 0xF }),
            (Rest::Zero(rd) | Rest::Both(rd), 1) => Slot::Word(Instruction::Immediate {
                function: ImmediateFunction::Andi,
                rd,
                imm: 15,
            }),
            (Rest::Sign(_), 0) | (Rest::Both(_), 2) => Slot::Word(Instruction::Imm { imm12: 0x8 }),
            (Rest::Sign(rd), 1) | (Rest::Both(rd), 3) => Slot::Word(Instruction::Immediate {
                function: ImmediateFunction::Xori,
                rd,
                imm: 0,
            }),
            (Rest::Sign(_), 2) | (Rest::Both(_), 4) => Slot::Word(Instruction::Imm {
                imm12: 0xFF8,
            }),
            (Rest::Sign(rd), 3) | (Rest::Both(rd), 5) => Slot::Word(Instruction::Addi {
                rd,
                ra: rd,
                imm: 0,
            }),
            _ => Slot::Word(NOP),
        }
    }
}

impl Template {
    // The number that is tested and encoded where there is no reference.
    fn number(self) -> i64
        ensures { result ≡ number self.body self.record }
    {
        let constant = i64::from(self.record.constant);
        if self.body.negated {
            -constant
        } else {
            constant
        }
    }

    fn number_bits(self) -> u32
        ensures value { result ≡ bits16 (number self.body self.record) }
        ensures bound { result < 65536 }
    {
        self.number().rem_euclid(65536) as u32
    }

    fn is_fit(self, form: ImmediateForm) -> bool
        ensures { result ≡ fits form (number self.body self.record) }
    {
        let number = self.number();
        match form {
            ImmediateForm::Signed => matches!(number, -8..=7),
            ImmediateForm::ByteOffset => matches!(number, 0..=15),
            ImmediateForm::WordOffset => matches!(number, 0..=30) && number % 2 == 0,
        }
    }

    // Whether the immediate stands in its word with no prefix.
    fn is_short(self, form: ImmediateForm) -> bool
        ensures { result ≡ spec.short form self.record (number self.body self.record) }
    {
        self.record.reference == 0 && self.is_fit(form)
    }

    fn field_bits(self, form: ImmediateForm) -> u8
        ensures { result ≡ field_of form (number self.body self.record) }
    {
        let bits = self.number_bits();
        match form {
            ImmediateForm::Signed | ImmediateForm::ByteOffset => (bits % 16) as u8,
            ImmediateForm::WordOffset => ((bits % 16 + bits / 16) % 16) as u8,
        }
    }

    fn field_slot(self, form: ImmediateForm, i: Instruction, k: usize) -> Option<Slot>
        ensures { result ≡ slice_get (first_slots (Field form i) self.record (number self.body self.record)) k }
    {
        match (self.is_short(form), k) {
            (true, 0) => Some(Slot::Word(set_immediate(i, self.field_bits(form)))),
            (false, 0) => Some(Slot::Prefix),
            (false, 1) => Some(Slot::Low(i)),
            _ => None,
        }
    }

    fn repeat_slot(self, function: ImmediateFunction, rd: u8, k: usize) -> Option<Slot>
        ensures { result ≡ slice_get (first_slots (Repeat function rd) self.record (number self.body self.record)) k }
    {
        let i = Instruction::Immediate {
            function,
            rd,
            imm: 1,
        };
        (k < self.number_bits() as usize).then_some(Slot::Word(i))
    }

    fn first_len(self) -> usize
        ensures value { result ≡ length (first_slots self.body.first self.record (number self.body self.record)) }
        ensures bound { result ≤ 65536 }
    {
        match self.body.first {
            First::Word(_) | First::Branch(_) | First::Call => 1,
            First::Field(form, _) => { if self.is_short(form) { 1 } else { 2 } }
            First::Repeat(_, _) => self.number_bits() as usize,
            First::Move(rd, ra) => { if rd == ra { 0 } else { 1 } }
        }
    }

    // The word at k among those that the record begins with, where there is one.
    fn first_slot(self, k: usize) -> Option<Slot>
        ensures { result ≡ slice_get (first_slots self.body.first self.record (number self.body self.record)) k }
    {
        match (self.body.first, k) {
            (First::Word(i), 0) => Some(Slot::Word(i)),
            (First::Field(form, i), _) => self.field_slot(form, i, k),
            (First::Repeat(function, rd), _) => self.repeat_slot(function, rd, k),
            (First::Move(rd, ra), 0) if rd != ra => Some(Slot::Word(Instruction::Add {
                rd,
                ra,
                rb: 0,
            })),
            (First::Branch(condition), 0) => Some(Slot::Branch(condition)),
            (First::Call, 0) => Some(Slot::Call),
            _ => None,
        }
    }

    // How many words there are.
    pub(crate) fn unmended_len(self) -> usize
        ensures value { result ≡ length (template self.body self.record) }
        ensures bound { result ≤ 65542 }
    {
        self.first_len() + self.body.rest.len()
    }

    // The word at k among them, where there is one.
    pub(crate) fn unmended_slot(self, k: usize) -> Slot
        ensures { result ≡ slice_index_or (template self.body self.record) k nop }
    {
        match self.first_slot(k) {
            Some(slot) => slot,
            None => self.body.rest.slot(k - self.first_len()),
        }
    }
}
