// What can be asked of a core.
ghost use Rattle.std.specs.Prelude.{◌≡◌, not, if◌then◌else◌, Ok, Err, nat_lt, slice_index};
ghost use Rattle.isa.specs.declared.refusals.Refusal.TheVariants as refusal;
ghost use Rattle.machine.specs.Checks as spec;
ghost use Rattle.machine.specs.Waits.{closed};
ghost use Rattle.machine.specs.Laws.{OwingLaws};

use crate::body::Core;
use crate::states::Layout;
use isa::Refusal;

impl Core {
    // The address of the next word.
    pub fn counter(&self) -> u16
        ensures { result ≡ self.now.state.counter }
    {
        self.state.counter
    }

    // The text length and the service range that were loaded.
    pub fn layout(&self) -> Layout
        ensures { result ≡ self.now.state.layout }
    {
        self.state.layout
    }

    // What the sixteen registers hold.
    pub fn registers(&self) -> [u16; 16]
        ensures { result ≡ self.now.state.registers }
    {
        self.state.registers
    }

    // Whether a service is open.
    pub fn is_serving(&self) -> bool
        ensures { result ≡ not (closed self.now.state.service) }
    {
        self.state.service.is_some()
    }

    // What a register holds; there are sixteen.
    pub fn register(&self, number: u8) -> Result<u16, Refusal>
        ensures { result ≡ (if nat_lt number 16 then Ok (slice_index self.now.state.registers number) else Err refusal.Register) }
    {
        self.state
            .registers
            .get(usize::from(number))
            .copied()
            .ok_or(Refusal::Register)
    }

    // How many of r1 to r15 an open service has yet to give back.
    pub fn owing(&self) -> u8
        ensures value { result ≡ spec.owing self.now.state }
        ensures laws { OwingLaws self.now.state result }
    {
        self.state.owing()
    }
}
