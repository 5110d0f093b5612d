// What a word leaves, written into the state in place.
ghost use Rattle.std.specs.Prelude.{◌≡◌, ◌≤◌};
ghost use Rattle.machine.specs.Waits.{wait_of};
ghost use Rattle.machine.specs.Steps as spec;

use crate::states::{Plan, Side, State};
use memory::{Memory, load_word, store_word};
use operations::{Effect, Forerunner, Width};

// Makes the access of an effect, and answers the value for the result's register.
fn access<M: Memory>(memory: &mut M, effect: Effect) -> u16
    ensures value { result ≡ spec.value_by (M.Memory.means memory.old).byte effect }
    ensures meaning { M.Memory.means memory.new ≡ spec.memory_after (M.Memory.means memory.old) effect }
    ensures lent { M.Memory.loan memory.new ≡ M.Memory.loan memory.old }
{
    match effect {
        Effect::Put { value, .. } => value,
        Effect::Load { width, address } => match width {
            Width::Byte => u16::from(memory.read(address)),
            Width::Word => load_word(memory, address),
        },
        Effect::Store {
            width,
            address,
            value,
        } => {
            match width {
                Width::Byte => memory.store(address, (value % 256) as u8),
                Width::Word => store_word(memory, address, value),
            }
            0
        }
        Effect::Hold { .. } => 0,
    }
}

fn next_counter(counter: u16, effect: Effect) -> u16
    ensures { result ≡ spec.counter_by counter effect }
{
    match effect {
        Effect::Put { next, .. } => next,
        _ => counter.wrapping_add(2),
    }
}

fn next_prefix(effect: Effect) -> Option<u16>
    ensures { result ≡ spec.prefix_by effect }
{
    match effect {
        Effect::Hold { prefix } => Some(prefix),
        _ => None,
    }
}

// Tested and then indexed, as a memory's byte is.
#[tactic(auto, using(std::proofs::lemmas::List::set_past, std::proofs::lemmas::Bool::Decides::nat_tests))]
fn write(registers: &mut [u16; 16], number: u8, value: u16)
    ensures { registers.new ≡ spec.written registers.old number value }
{
    if number != 0 && number < 16 {
        registers[usize::from(number)] = value;
    }
}

impl State {
    // Does what a word that passed its checks is to do.
    pub(crate) fn apply<M: Memory>(&mut self, side: Side, plan: &Plan, memory: &mut M)
        requires { wait_of self.old.pending ≤ 32640 }
        ensures state { self.new ≡ spec.run_state self.old (M.Memory.means memory.old) side plan.now }
        ensures meaning { M.Memory.means memory.new ≡ spec.memory_after (M.Memory.means memory.old) plan.now.effect }
        ensures lent { M.Memory.loan memory.new ≡ M.Memory.loan memory.old }
    {
        let value = access(memory, plan.effect);
        let result = plan.instruction.result();
        write(&mut self.registers, result, value);
        self.counter = next_counter(self.counter, plan.effect);
        self.prefix = next_prefix(plan.effect);
        if let Some(forerunner) = plan.leaves {
            self.forerunner = forerunner;
        }
        match side {
            Side::Own => {
                self.made = result;
                if let Some(wait) = &mut self.pending {
                    *wait += 1;
                }
            }
            Side::Service => self.served = result,
        }
        self.interruptible = !plan.instruction.is_interlocked();
        if plan.closes {
            self.service = None;
        }
    }

    // Takes the pending request: r14 gets the counter, the counter 0x0010, then the registers are copied.
    pub(crate) fn take(&mut self)
        ensures { self.new ≡ spec.taking self.old }
    {
        self.registers[14] = self.counter;
        self.counter = 0x0010;
        self.service = Some(self.registers);
        self.pending = None;
        self.forerunner = Forerunner::Nothing;
        self.served = 14;
    }
}
