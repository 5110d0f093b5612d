// The core: a state in which r0 is 0, the counter is even, the service range begins and ends at even addresses, and a request
// waits no longer than the interlocked words passed since, so that its wait never outgrows sixteen bits.
ghost use Rattle.std.specs.Prelude.{◌≡◌, ◌*◌, ◌%◌, ◌≤◌, if◌then◌else◌, slice_index};
ghost use Rattle.machine.specs.Waits.{wait_of, closed};

use crate::states::State;

#[derive(Clone, Copy)]
pub struct Core {
    pub(crate) state: State,
    ghost zero: { slice_index state.registers 0 ≡ 0 },
    ghost even: { state.counter % 2 ≡ 0 },
    ghost lower: { state.layout.service.low % 2 ≡ 0 },
    ghost upper: { state.layout.service.high % 2 ≡ 0 },
    ghost below: { state.layout.text ≤ 65280 },
    ghost bounded: { wait_of state.pending ≤ 32640 },
    ghost held: { (if state.interruptible then 0 else 2 * wait_of state.pending) ≤ state.counter },
    ghost still: { (if closed state.service then 0 else wait_of state.pending) ≡ 0 },
}
