// Memory that lies over a buffer address by address.
ghost use Rattle.std.specs.Prelude.{◌≡◌};
ghost use Rattle.memory.specs.Meaning.{flat, flat_loan};
ghost use Rattle.memory.specs.Lawful.{flat_lawful};

use crate::interface::Memory;

#[derive(Drop)]
pub struct FlatMemory<'a> {
    buffer: &'a mut [u8],
}

impl<'a> FlatMemory<'a> {
    // The memory over a lent buffer, all of it open.
    pub fn new(buffer: &'a mut [u8]) -> FlatMemory<'a>
        ensures bytes { result.buffer.now ≡ buffer.old }
        ensures lent { result.buffer.ghost_name ≡ buffer.entry.ghost_name }
    {
        FlatMemory { buffer }
    }
}

impl<'a> Memory for FlatMemory<'a> {
    ghost means = { λ m. flat m.buffer.now };

    ghost lawful = { λ m. flat_lawful m.buffer.now };

    ghost loan = { λ m. flat_loan m.buffer.ghost_name m.buffer.now };

    fn read(&self, address: u16) -> u8 {
        self.buffer
            .get(usize::from(address))
            .copied()
            .unwrap_or(0xFF)
    }

    fn is_open(&self, address: u16) -> bool {
        usize::from(address) < self.buffer.len()
    }

    // Tested and then indexed, since after get_mut the proof did not know the bytes.
    fn store(&mut self, address: u16, value: u8) {
        if self.is_open(address) {
            self.buffer[usize::from(address)] = value;
        }
    }
}
