// A new core, and loading.
ghost use Rattle.std.specs.Prelude.{◌≡◌};
ghost use Rattle.machine.specs.Loads as spec;

use crate::body::Core;
use crate::states::{Layout, ServiceRange, State};
use isa::Refusal;
use memory::{Memory, store_image};
use operations::Forerunner;

// A state with this layout in which no word has run.
fn fresh(layout: Layout) -> State
    ensures { result ≡ spec.fresh layout }
{
    State {
        counter: 0,
        registers: [0; 16],
        prefix: None,
        forerunner: Forerunner::Nothing,
        made: 0,
        served: 0,
        pending: None,
        interruptible: false,
        service: None,
        layout,
    }
}

impl ServiceRange {
    // Both ends are even, the range has the address of the first service word, and it ends within the text.
    fn fits(self, text: u16) -> bool
        ensures { result ≡ spec.range_fits (spec.layout text self.low self.high) }
    {
        self.low % 2 == 0
            && self.high % 2 == 0
            && matches!(self.low, 2..=16)
            && 18 <= self.high
            && self.high <= text
    }
}

impl Layout {
    // The limit of an image is the assembler's too, which stands apart from the core.
    fn accepts(self, size: usize) -> bool
        ensures { result ≡ spec.fits self size }
    {
        self.text % 16 == 0
            && usize::from(self.text) <= size
            && size <= 65280
            && self.service.fits(self.text)
    }
}

fn is_open_below<M: Memory>(memory: &M, size: u16) -> bool
    ensures { result ≡ spec.open_below (M.Memory.means memory.now).mark size }
{
    (0..size).all(|address| memory.is_open(address))
}

impl Core {
    // A core that was never loaded: it has no text.
    pub fn new() -> Core
        ensures { result.state ≡ spec.fresh spec.unloaded }
    {
        Core {
            state: fresh(Layout::default()),
        }
    }

    // Stores an image and resets the core, unless text and range do not fit or an image address is closed.
    #[tactic(auto, using(crate::proofs::Fitting::fitting))]
    pub fn load<M: Memory>(
        &mut self,
        memory: &mut M,
        image: &[u8],
        layout: Layout,
    ) -> Result<(), Refusal>
        ensures exact { spec.Loads layout image.now self.old.state (M.Memory.means memory.old)
            result self.new.state (M.Memory.means memory.new) }
        ensures lent { M.Memory.loan memory.new ≡ M.Memory.loan memory.old }
    {
        if !layout.accepts(image.len()) {
            return Err(Refusal::Plan);
        }
        if !is_open_below(memory, image.len() as u16) {
            return Err(Refusal::Closed);
        }
        store_image(memory, image);
        self.state = fresh(layout);
        Ok(())
    }
}
