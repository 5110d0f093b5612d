// The plain parts of a core.
use isa::Instruction;
use operations::{Effect, Forerunner};

// Whose word a step runs: the program's own, or the service's.
#[derive(Clone, Copy, PartialEq, Eq)]
pub enum Side {
    Own,
    Service,
}

// Where the service's words stand: from low up to, not including, high.
#[derive(Clone, Copy, PartialEq, Eq, Default)]
pub struct ServiceRange {
    pub low: u16,
    pub high: u16,
}

// The text length and the service range.
#[derive(Clone, Copy, PartialEq, Eq, Default)]
pub struct Layout {
    pub text: u16,
    pub service: ServiceRange,
}

// `made` and `served` are the registers that the last own word and the last service word wrote, 0 for none.
// `pending` has the own steps that succeeded since the request was accepted.
// `service` has the sixteen registers of an open service as they were copied when its request was taken.
#[derive(Clone, Copy)]
pub struct State {
    pub counter: u16,
    pub registers: [u16; 16],
    pub prefix: Option<u16>,
    pub forerunner: Forerunner,
    pub made: u8,
    pub served: u8,
    pub pending: Option<u16>,
    pub interruptible: bool,
    pub service: Option<[u16; 16]>,
    pub layout: Layout,
}

// What a word is about to do: its effect, what it leaves (none: the forerunner stays), and whether it closes the service.
#[derive(Clone, Copy)]
pub struct Plan {
    pub instruction: Instruction,
    pub effect: Effect,
    pub leaves: Option<Forerunner>,
    pub closes: bool,
}
