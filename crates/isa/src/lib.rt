// The xr16 instruction word: what a word reads as, which word an instruction is written as, and what
// the assembler and the core both ask of an instruction. Also the refusals that every call answers with.
#![tactic(auto)]

mod immediates;
mod instructions;
mod laws;
mod mnemonics;
mod reader;
mod refusals;
mod registers;
mod writer;

pub use immediates::branch_target;
pub use instructions::{
    Condition, ImmediateField, ImmediateForm, ImmediateFunction, Instruction, RegisterFunction,
};
pub use laws::unknown_words;
pub use reader::{read, reads_interlocked};
pub use refusals::Refusal;
pub use writer::write;
