// What a record means, and the words that it makes.
use crate::records::Record;
use isa::{Condition, ImmediateForm, ImmediateFunction, Instruction};

#[derive(Clone, Copy, Default, PartialEq, Eq)]
pub enum Section {
    #[default]
    Text,
    Data,
}

// The words that a record begins with: a known word, an instruction with the record's value as its
// immediate, a shift for each count, a move between registers, a branch or a call.
#[derive(Clone, Copy, PartialEq, Eq)]
pub enum First {
    Word(Instruction),
    Field(ImmediateForm, Instruction),
    Repeat(ImmediateFunction, u8),
    Move(u8, u8),
    Branch(Condition),
    Call,
}

// The words that it ends with: they extend the low byte of a register with zeros, with its sign where
// the rest is 0, or with its sign whatever the rest is. `Nothing` is an ending of no words: an Option
// would put a case before each match.
#[derive(Clone, Copy, PartialEq, Eq)]
pub enum Rest {
    Nothing,
    Zero(u8),
    Sign(u8),
    Both(u8),
}

// The words of a record. Negated: its number is the negated value.
#[derive(Clone, Copy, PartialEq, Eq)]
pub struct Body {
    pub first: First,
    pub rest: Rest,
    pub negated: bool,
}

// A record with the words that its operation makes.
#[derive(Clone, Copy, PartialEq, Eq)]
pub struct Template {
    pub body: Body,
    pub record: Record,
}

#[derive(Clone, Copy, PartialEq, Eq)]
pub enum Item {
    Words(Body),
    Byte,
    Word,
    Align,
    Label,
    Section(Section),
}

// A word to be made: known, a prefix, an instruction that wants the low bits of the record's number,
// a branch or a call.
#[derive(Clone, Copy, PartialEq, Eq)]
pub enum Slot {
    Word(Instruction),
    Prefix,
    Low(Instruction),
    Branch(Condition),
    Call,
}

// How a record's first word is kept out of hazard: as it is, by another word in its place, or by a nop.
// `Keep` is as good an answer as the others, so this is no Option.
#[derive(Clone, Copy, PartialEq, Eq)]
pub enum Mend {
    Keep,
    Swap(Instruction),
    Nop,
}

// What the layout wants to know of a record's words: how the first is mended, how many there are, the
// register that the last one writes, r0 for none, and whether adc or sbc is in hazard.
#[derive(Clone, Copy, PartialEq, Eq)]
pub struct Outline {
    pub mend: Mend,
    pub words: usize,
    pub result: u8,
    pub parted: bool,
}
