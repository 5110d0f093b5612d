// Memory that lies over a buffer through a page table.
ghost use Rattle.std.specs.Prelude.{◌≡◌};
ghost use Rattle.memory.specs.Pages.{mapped, mapped_loan};
ghost use Rattle.memory.specs.Lawful.{mapped_lawful};

use crate::interface::Memory;
use crate::page_tables::PageTable;

// Apart from FlatMemory: one struct over a trait of places was longer, with four ghost members and two laws for three short methods.
#[derive(Drop)]
pub struct MappedMemory<'a> {
    table: PageTable,
    buffer: &'a mut [u8],
}

impl<'a> MappedMemory<'a> {
    // The memory over a lent buffer of frames, as the table maps them.
    pub fn new(table: PageTable, buffer: &'a mut [u8]) -> MappedMemory<'a>
        ensures table { result.table ≡ table }
        ensures bytes { result.buffer.now ≡ buffer.old }
        ensures lent { result.buffer.ghost_name ≡ buffer.entry.ghost_name }
    {
        MappedMemory { table, buffer }
    }
}

impl<'a> Memory for MappedMemory<'a> {
    ghost means = { λ m. mapped m.table.words m.buffer.now };

    ghost lawful = { λ m. mapped_lawful m.table.words m.buffer.now };

    ghost loan = { λ m. mapped_loan m.buffer.ghost_name m.table.words m.buffer.now };

    fn read(&self, address: u16) -> u8 {
        let place = self.table.place(address);
        self.buffer.get(place).copied().unwrap_or(0xFF)
    }

    fn is_open(&self, address: u16) -> bool {
        self.table.is_writable(address) && self.table.place(address) < self.buffer.len()
    }

    // Tested and then indexed, as in flat memory.
    fn store(&mut self, address: u16, value: u8) {
        let place = self.table.place(address);
        if self.table.is_writable(address) && place < self.buffer.len() {
            self.buffer[place] = value;
        }
    }
}
