// The commands of the console.
use histories::Action;
use isa::Instruction;
use machine::{Layout, ServiceRange};

#[derive(Drop)]
pub(crate) enum Command {
    Read(u16),
    Write(Instruction),
    // Memories by their size in bytes.
    FlatMemory(usize),
    MappedMemory(usize, [u16; 16]),
    Byte(u16),
    Store(u16, u8),
    Checksum,
    Listing(Vec<u8>),
    More(Vec<u8>),
    // The size of the output buffer.
    Assemble(usize),
    Image(Vec<u8>),
    Dump,
    Load(Layout),
    Request,
    Step,
    // The budget.
    Run(u16),
    Counter,
    Registers,
    Register(u32),
    Owing,
    Rehearse(ServiceRange, Vec<Action>),
}
