// The plain values between an instruction and the core.

// What the word before left for the next: the operands a and b of a sum with its carry or borrow, or the bit that a shift moved out.
// `Nothing` is one of three things that can be left, so this is no Option.
#[derive(Clone, Copy, PartialEq, Eq)]
pub enum Forerunner {
    Nothing,
    Sum { a: u16, b: u16, carry: bool },
    Shift { bit: bool },
}

// All that an instruction works with: two registers, its immediate, the counter, and what the forerunner has for it.
#[derive(Clone, Copy, PartialEq, Eq)]
pub struct Operands {
    pub left: u16,
    pub right: u16,
    pub immediate: u16,
    pub counter: u16,
    pub carry: bool,
    pub a: u16,
    pub b: u16,
    pub bit: bool,
}

#[derive(Clone, Copy, PartialEq, Eq)]
pub enum Width {
    Byte,
    Word,
}

// What an instruction does to the core and the memory.
#[derive(Clone, Copy, PartialEq, Eq)]
pub enum Effect {
    // A value for the result's register, and the counter after.
    Put {
        value: u16,
        next: u16,
    },
    Load {
        width: Width,
        address: u16,
    },
    Store {
        width: Width,
        address: u16,
        value: u16,
    },
    // A prefix for the next word.
    Hold {
        prefix: u16,
    },
}
