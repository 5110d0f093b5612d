// What a memory is: for each address a byte and a mark.
ghost use Rattle.std.specs.Prelude.{◌≡◌};
ghost use Rattle.memory.specs.Meaning.{Lawful, Loan, Meaning, stored};

pub trait Memory {
    // The byte and the mark of each address.
    ghost means: { Self → Meaning };

    // Bytes are below 256, and there are no addresses past 65,535.
    ghost lawful: { (m : Self) → Lawful (means m) };

    // What the memory keeps of the buffer that it was lent, by which the owner knows every byte once the memory is gone.
    ghost loan: { Self → Loan };

    fn read(&self, address: u16) -> u8
        ensures { result ≡ (means self.now).byte address };

    fn is_open(&self, address: u16) -> bool
        ensures { result ≡ (means self.now).mark address };

    fn store(&mut self, address: u16, value: u8)
        ensures meaning { means self.new ≡ stored (means self.old) address value }
        // Of before and after, so no invariant of a type can say it: each function over a memory repeats it.
        ensures lent { loan self.new ≡ loan self.old };
}
