// What a command answers, and how it is printed.
use crate::showing::Shown;
use isa::Instruction;
use machine::{Run, Step};
use rehearsal::Report;
use std::fmt;
use text::Answers;

#[derive(Clone, Copy)]
pub(crate) enum Answer<'a> {
    Instruction(Instruction),
    Word(u16),
    FlatMemory(usize),
    MappedMemory(usize),
    Byte { address: u16, value: u8 },
    Stored { open: bool },
    Checksum(u32),
    ListingSize(usize),
    Assembled(Answers),
    ImageSize(usize),
    Image(&'a [u8]),
    Loaded,
    Accepted,
    Step(Step),
    Run(Run),
    Counter(u16),
    Registers([u16; 16]),
    Register { number: u8, value: u16 },
    Owing(u8),
    Rehearsed(Report),
}

impl fmt::Display for Answer<'_> {
    fn fmt<W: fmt::Write>(&self, f: &mut fmt::Formatter<W>) -> fmt::Result {
        match *self {
            Answer::Instruction(instruction) => write!(f, "instruction {}", Shown(instruction)),
            Answer::Word(word) => write!(f, "word {word:04X}"),
            Answer::FlatMemory(size) => write!(f, "memory flat {size}"),
            Answer::MappedMemory(size) => write!(f, "memory mapped {size}"),
            Answer::Byte { address, value } => write!(f, "byte {address:04X} {value:02X}"),
            Answer::Stored { open: true } => write!(f, "stored open"),
            Answer::Stored { open: false } => write!(f, "stored closed"),
            Answer::Checksum(sum) => write!(f, "checksum {sum:08X}"),
            Answer::ListingSize(size) => write!(f, "listing {size} bytes"),
            Answer::Assembled(answers) => write!(f, "assembled {}", Shown(answers)),
            Answer::ImageSize(size) => write!(f, "image {size} bytes"),
            Answer::Image(image) => write!(f, "{}", Shown(image)),
            Answer::Loaded => write!(f, "loaded"),
            Answer::Accepted => write!(f, "accepted"),
            Answer::Step(step) => write!(f, "{}", Shown(step)),
            Answer::Run(run) => write!(f, "run {}", Shown(run)),
            Answer::Counter(counter) => write!(f, "counter {counter:04X}"),
            Answer::Registers(registers) => write!(f, "registers{}", Shown(registers)),
            Answer::Register { number, value } => write!(f, "register {number} {value:04X}"),
            Answer::Owing(owing) => write!(f, "owing {owing}"),
            Answer::Rehearsed(report) => write!(f, "rehearsed {}", Shown(report)),
        }
    }
}
