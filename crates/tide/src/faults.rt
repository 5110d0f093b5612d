// What the bench makes of faulty programs.
use crate::images::{Curve, Image};
use anyhow::Context;
use machine::{Core, StepRefusal};
use memory::Memory;

// The load of the fifth phase of a group, `lw r3,32(r1)`: its prefix and its word.
const PREFIXED_LOAD: [u8; 4] = [0xD0, 0x02, 0x53, 0x10];

const NOP: [u8; 2] = [0x30, 0x00];

// The constituent that the load means in the first group, and the one that it reads without its prefix.
pub(crate) const MEANT: usize = 4;

pub(crate) const READ: usize = 0;

// What a program does without the prefix of one load.
#[derive(Clone, Copy)]
pub(crate) struct Unprefixed {
    // Where the load stands, and what it loads.
    pub(crate) address: u16,
    pub(crate) loaded: u16,
    // The high halves of the phase that is meant and of the one that is read.
    pub(crate) meant: u16,
    pub(crate) read: u16,
    pub(crate) curve: Curve,
}

// What a service does that keeps a register.
#[derive(Clone, Copy)]
pub(crate) struct Unkept {
    pub(crate) refused: Option<StepRefusal>,
    pub(crate) owing: u8,
}

// Puts a nop in the place of the prefix, and answers the address of its load.
pub(crate) fn blank_prefix(image: &mut [u8]) -> anyhow::Result<u16> {
    let prefix = image
        .windows(PREFIXED_LOAD.len())
        .position(|bytes| bytes == PREFIXED_LOAD.as_slice())
        .context("no load needs a prefix")?;
    if let Some(word) = image.get_mut(prefix..prefix + 2) {
        word.copy_from_slice(&NOP);
    }
    Ok(u16::try_from(prefix + 2)?)
}

fn high_half(phase: u32) -> u16 {
    (phase >> 16) as u16
}

// Steps until the counter is at an address; core and memory stand apart, as in the core's own calls.
fn step_to<M: Memory>(core: &mut Core, memory: &mut M, address: u16) {
    for _ in 0..u16::MAX {
        if core.counter() == address {
            break;
        }
        let _ = core.step(memory);
    }
}

// Runs one tide of an image whose load at an address has lost its prefix.
pub(crate) fn run_unprefixed<M: Memory>(
    memory: &mut M,
    image: Image<'_>,
    address: u16,
    steps: u16,
) -> anyhow::Result<Unprefixed> {
    let mut core = image.load(memory)?;
    step_to(&mut core, memory, address);
    let phases = image.phases(memory);
    let _ = core.step(memory);
    let loaded = core.registers()[3];
    let _ = core.run(memory, steps);
    Ok(Unprefixed {
        address,
        loaded,
        meant: high_half(phases[MEANT]),
        read: high_half(phases[READ]),
        curve: image.curve(memory),
    })
}

// Runs a program with a request after some own steps, until a step is refused.
pub(crate) fn run_unkept<M: Memory>(memory: &mut M, image: Image<'_>) -> anyhow::Result<Unkept> {
    let mut core = image.load(memory)?;
    let _ = core.run(memory, 40);
    let _ = core.request();
    let refused = core.run(memory, 100).end.err();
    Ok(Unkept {
        refused,
        owing: core.owing(),
    })
}
