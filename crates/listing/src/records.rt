// A record and the fields that its operation uses.
use isa::{Condition, ImmediateFunction, RegisterFunction};

#[derive(Clone, Copy, PartialEq, Eq)]
pub enum Operation {
    Add,
    Sub,
    Addi,
    Register(RegisterFunction),
    Immediate(ImmediateFunction),
    Lw,
    Lb,
    Sw,
    Sb,
    Jal,
    Call,
    Branch(Condition),
    Cmp,
    Cmpi,
    J,
    Lea,
    Lbs,
    Nop,
    Mov,
    Ret,
    Reti,
    Sxt,
    Subi,
    Zext,
    Text,
    Data,
    Byte,
    Word,
    Align,
    Label,
}

#[derive(Clone, Copy, PartialEq, Eq)]
pub struct Record {
    pub operation: Operation,
    pub rd: u8,
    pub ra: u8,
    pub rb: u8,
    // No Option: a label record has a label and no reference, a label without one must be readable to be refused, and a narrower type would ask more of `write`.
    pub reference: u8,
    pub label: u16,
    pub constant: i32,
}

// The constants that an operation takes.
#[derive(Clone, Copy, PartialEq, Eq)]
pub enum Constants {
    Any,
    Byte,
    Count,
    One,
    Alignment,
}

// The fields that an operation uses; where it uses the constant, which ones it takes.
#[derive(Clone, Copy, PartialEq, Eq)]
pub struct Uses {
    pub rd: bool,
    pub ra: bool,
    pub rb: bool,
    pub constant: Option<Constants>,
    pub reference: bool,
    pub label: bool,
}
