// What the exported calls answer. Kinds, sides and refusals are numbers here: C fixes no size for an enum, and has none
// with values.
use machine::Tally;

// What became of a listing: the refusal's number and its index, or the text length, the image length and the longest
// interlocked run. What does not apply is 0.
#[repr(C)]
#[derive(Clone, Copy, Default)]
pub struct Assembly {
    pub refusal: u8,
    pub index: usize,
    pub text: usize,
    pub image: usize,
    pub run: usize,
}

// Why an action was refused: the refusal's number, and of a step its address and its side (0 own, 1 service). All are 0 where
// it was not.
#[repr(C)]
#[derive(Clone, Copy, Default)]
pub struct Fault {
    pub number: u8,
    pub side: u8,
    pub address: u16,
}

// What became of a list of actions: the number of the load's refusal or 0, the steps that were made by kind, the longest wait,
// the core as the list left it, and why the last action was refused.
#[repr(C)]
#[derive(Clone, Copy)]
pub struct Playing {
    pub own: u64,
    pub service: u64,
    pub takings: u64,
    pub registers: [u16; 16],
    pub counter: u16,
    pub wait: u16,
    pub last: Fault,
    pub loading: u8,
    pub owing: u8,
}

// What one action came to.
#[derive(Clone, Copy)]
pub(crate) struct Deed {
    pub tally: Tally,
    pub fault: Option<Fault>,
}

// What a list of actions came to. Not rehearsal's totals: these counts are the C answer's, 64 bits that wrap. Takings are counted, as in a tally.
#[derive(Clone, Copy, Default)]
pub(crate) struct Totals {
    pub own: u64,
    pub service: u64,
    pub takings: u64,
    pub wait: u16,
    pub last: Option<Fault>,
}
