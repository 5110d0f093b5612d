// The console's memory: flat or mapped, as the last `memory` command chose.
ghost use Rattle.bench.specs.declared.memories.EitherMemory.TheVariants.{Flat, Mapped};

use memory::{FlatMemory, MappedMemory, Memory, PageTable, agree};
use std::alloc::{AllocError, Global};

// A memory of one of the two kinds: an enum and no `dyn Memory`, as what is generic over a memory asks for a type.
#[derive(Drop)]
pub(crate) enum EitherMemory<'a> {
    Flat(FlatMemory<'a>),
    Mapped(MappedMemory<'a>),
}

impl<'a> Memory for EitherMemory<'a> {
    ghost means = { elim [
      | Flat m ↦ ⟦<FlatMemory<'a> as Memory>⟧.means m
      | Mapped m ↦ ⟦<MappedMemory<'a> as Memory>⟧.means m
    ] };

    ghost lawful = { elim [
      | Flat m ↦ ⟦<FlatMemory<'a> as Memory>⟧.lawful m
      | Mapped m ↦ ⟦<MappedMemory<'a> as Memory>⟧.lawful m
    ] };

    ghost loan = { elim [
      | Flat m ↦ ⟦<FlatMemory<'a> as Memory>⟧.loan m
      | Mapped m ↦ ⟦<MappedMemory<'a> as Memory>⟧.loan m
    ] };

    fn read(&self, address: u16) -> u8 {
        match self {
            EitherMemory::Flat(memory) => memory.read(address),
            EitherMemory::Mapped(memory) => memory.read(address),
        }
    }

    fn is_open(&self, address: u16) -> bool {
        match self {
            EitherMemory::Flat(memory) => memory.is_open(address),
            EitherMemory::Mapped(memory) => memory.is_open(address),
        }
    }

    fn store(&mut self, address: u16, value: u8) {
        match self {
            EitherMemory::Flat(memory) => memory.store(address, value),
            EitherMemory::Mapped(memory) => memory.store(address, value),
        }
    }
}

impl EitherMemory<'_> {
    // Whether it has the bytes and the marks of another. The kinds are asked once, and not at each address.
    pub(crate) fn agrees(&self, other: &EitherMemory<'_>) -> bool {
        match (self, other) {
            (EitherMemory::Flat(first), EitherMemory::Flat(second)) => agree(first, second),
            (EitherMemory::Flat(first), EitherMemory::Mapped(second)) => agree(first, second),
            (EitherMemory::Mapped(first), EitherMemory::Flat(second)) => agree(first, second),
            (EitherMemory::Mapped(first), EitherMemory::Mapped(second)) => agree(first, second),
        }
    }
}

// A buffer, and the table of a mapped memory over it; without a table the memory is flat.
#[derive(Drop)]
pub(crate) struct Buffer {
    bytes: Vec<u8>,
    pages: Option<PageTable>,
}

impl Buffer {
    // So many zero bytes.
    pub(crate) fn new(
        heap: Global,
        size: usize,
        pages: Option<PageTable>,
    ) -> Result<Buffer, AllocError> {
        Ok(Buffer {
            bytes: vec![in heap; 0; size]?,
            pages,
        })
    }

    // A buffer of zero bytes of the same kind and size.
    pub(crate) fn fresh(&self, heap: Global) -> Result<Buffer, AllocError> {
        Buffer::new(heap, self.bytes.len(), self.pages)
    }

    // The memory over the buffer.
    pub(crate) fn memory(&mut self) -> EitherMemory<'_> {
        let bytes = self.bytes.as_mut_slice();
        match self.pages {
            None => EitherMemory::Flat(FlatMemory::new(bytes)),
            Some(table) => EitherMemory::Mapped(MappedMemory::new(table, bytes)),
        }
    }
}
