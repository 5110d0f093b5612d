// The state of the console, and what each command does to it.
use crate::answers::Answer;
use crate::commands::Command;
use crate::complaints::Complaint;
use crate::memories::{Buffer, EitherMemory};
use assembler::{LARGEST_IMAGE, assemble};
use histories::Action;
use isa::Refusal;
use machine::{Core, Layout, ServiceRange};
use memory::{Memory, PageTable};
use rehearsal::{Obstacle, Report, rehearse};
use std::alloc::{AllocError, Global};
use text::Answers;

#[derive(Drop)]
pub(crate) struct Console {
    heap: Global,
    buffer: Buffer,
    core: Core,
    listing: Vec<u8>,
    image: Vec<u8>,
}

// h = 0, then h = 31 h + byte modulo 2^32 for each byte as memory reads it.
fn checksum<M: Memory>(memory: &M) -> u32 {
    (0..=u16::MAX).fold(0u32, |sum, address| {
        sum.wrapping_mul(31)
            .wrapping_add(u32::from(memory.read(address)))
    })
}

// What is rehearsed.
#[derive(Clone, Copy)]
struct Plan<'a, 'b> {
    listing: &'a [u8],
    range: ServiceRange,
    actions: &'b [Action],
}

impl Plan<'_, '_> {
    // Over memories of two types: each pair of kinds is compiled apart, so that no access asks which kind it is.
    fn rehearse<M: Memory, N: Memory>(
        self,
        image: &mut [u8],
        memory: &mut M,
        twin: &mut N,
    ) -> Result<Report, Obstacle> {
        rehearse(self.listing, image, self.range, memory, twin, self.actions)
    }
}

impl Console {
    // Flat memory of 65,536 zero bytes, an unloaded core, an empty listing and an empty image.
    pub(crate) fn new(heap: Global) -> Result<Console, AllocError> {
        Ok(Console {
            heap,
            buffer: Buffer::new(heap, 0x10000, None)?,
            core: Core::new(),
            listing: Vec::new(heap),
            image: Vec::new(heap),
        })
    }

    pub(crate) fn heap(&self) -> Global {
        self.heap
    }

    // A new memory of zero bytes, and a new core.
    fn renew(&mut self, size: usize, pages: Option<PageTable>) -> Result<(), AllocError> {
        self.buffer = Buffer::new(self.heap, size, pages)?;
        self.core = Core::new();
        Ok(())
    }

    // Stores a byte, and answers whether its address is open.
    fn store(&mut self, address: u16, value: u8) -> bool {
        let mut memory = self.buffer.memory();
        memory.store(address, value);
        memory.is_open(address)
    }

    // Assembles the listing into a buffer of this size, and keeps the image.
    fn assemble(&mut self, size: usize) -> Result<Answers, Complaint> {
        let mut image = vec![in self.heap; 0; size]?;
        let answers = assemble(self.listing.as_slice(), image.as_mut_slice())?;
        image.truncate(answers.image);
        self.image = image;
        Ok(answers)
    }

    // The memory's kind is asked once, and not at each byte of the image.
    fn load(&mut self, layout: Layout) -> Result<(), Refusal> {
        let image = self.image.as_slice();
        match self.buffer.memory() {
            EitherMemory::Mapped(mut memory) => self.core.load(&mut memory, image, layout),
            EitherMemory::Flat(mut memory) => self.core.load(&mut memory, image, layout),
        }
    }

    // Rehearses the listing over a fresh memory of the current kind and size, beside a flat twin where that means the same,
    // else beside a second memory of the kind.
    fn rehearse(&self, range: ServiceRange, actions: &[Action]) -> Result<Report, Complaint> {
        let mut image = vec![in self.heap; 0; LARGEST_IMAGE]?;
        let mut first = self.buffer.fresh(self.heap)?;
        let mut twin = Buffer::new(self.heap, 0x10000, None)?;
        if !first.memory().agrees(&twin.memory()) {
            twin = self.buffer.fresh(self.heap)?;
        }
        let plan = Plan {
            listing: self.listing.as_slice(),
            range,
            actions,
        };
        let image = image.as_mut_slice();
        Ok(match (&mut first.memory(), &mut twin.memory()) {
            (EitherMemory::Flat(memory), EitherMemory::Flat(twin)) => {
                plan.rehearse(image, memory, twin)
            }
            (EitherMemory::Flat(memory), EitherMemory::Mapped(twin)) => {
                plan.rehearse(image, memory, twin)
            }
            (EitherMemory::Mapped(memory), EitherMemory::Flat(twin)) => {
                plan.rehearse(image, memory, twin)
            }
            (EitherMemory::Mapped(memory), EitherMemory::Mapped(twin)) => {
                plan.rehearse(image, memory, twin)
            }
        }?)
    }

    // What a command answers; where it complains, nothing has changed.
    pub(crate) fn obey(&mut self, command: Command) -> Result<Answer<'_>, Complaint> {
        match command {
            Command::Read(word) => Ok(Answer::Instruction(isa::read(word)?)),
            Command::Write(instruction) => Ok(Answer::Word(isa::write(instruction)?)),
            Command::FlatMemory(size) => {
                self.renew(size, None)?;
                Ok(Answer::FlatMemory(size))
            }
            Command::MappedMemory(size, pages) => {
                self.renew(size, Some(PageTable::new(pages)?))?;
                Ok(Answer::MappedMemory(size))
            }
            Command::Byte(address) => {
                let value = self.buffer.memory().read(address);
                Ok(Answer::Byte { address, value })
            }
            Command::Store(address, value) => {
                let open = self.store(address, value);
                Ok(Answer::Stored { open })
            }
            Command::Checksum => Ok(Answer::Checksum(checksum(&self.buffer.memory()))),
            Command::Listing(bytes) => {
                self.listing = bytes;
                Ok(Answer::ListingSize(self.listing.len()))
            }
            Command::More(bytes) => {
                self.listing.extend_from_slice(bytes.as_slice())?;
                Ok(Answer::ListingSize(self.listing.len()))
            }
            Command::Assemble(size) => Ok(Answer::Assembled(self.assemble(size)?)),
            Command::Image(bytes) => {
                self.image = bytes;
                Ok(Answer::ImageSize(self.image.len()))
            }
            Command::Dump => Ok(Answer::Image(self.image.as_slice())),
            Command::Load(layout) => {
                self.load(layout)?;
                Ok(Answer::Loaded)
            }
            Command::Request => {
                self.core.request()?;
                Ok(Answer::Accepted)
            }
            Command::Step => Ok(Answer::Step(self.core.step(&mut self.buffer.memory())?)),
            Command::Run(budget) => Ok(Answer::Run(
                self.core.run(&mut self.buffer.memory(), budget),
            )),
            Command::Counter => Ok(Answer::Counter(self.core.counter())),
            Command::Registers => Ok(Answer::Registers(self.core.registers())),
            Command::Register(number) => {
                let number = u8::try_from(number).map_err(|_| Refusal::Register)?;
                let value = self.core.register(number)?;
                Ok(Answer::Register { number, value })
            }
            Command::Owing => Ok(Answer::Owing(self.core.owing())),
            Command::Rehearse(range, actions) => Ok(Answer::Rehearsed(self.rehearse(
                range,
                actions.as_slice(),
            )?)),
        }
    }
}
