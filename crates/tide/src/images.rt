// An image of the display's program, and what it leaves in a memory.
use crate::constituents::COUNT;
use crate::programs::{BLOCK_SIZE, CURVE, HEIGHTS, SERVICE};
use machine::{Core, Layout};
use memory::{Memory, load_word};
use std::array;

// The heights of one tide, as the display shows them.
pub(crate) type Curve = [u16; HEIGHTS];

// The bytes of an image, and the length of its text.
#[derive(Clone, Copy)]
pub(crate) struct Image<'a> {
    pub(crate) bytes: &'a [u8],
    pub(crate) text: u16,
}

impl Image<'_> {
    // A core newly loaded with it.
    pub(crate) fn load<M: Memory>(self, memory: &mut M) -> anyhow::Result<Core> {
        let mut core = Core::new();
        let layout = Layout {
            text: self.text,
            service: SERVICE,
        };
        core.load(memory, self.bytes, layout)?;
        Ok(core)
    }

    // The heights that a memory holds for it.
    pub(crate) fn curve<M: Memory>(self, memory: &M) -> Curve {
        let start = self.text.wrapping_add(CURVE);
        array::from_fn(|i| load_word(memory, start.wrapping_add(2 * i as u16)))
    }

    // The phases that a memory holds for it, the two halves of each joined.
    pub(crate) fn phases<M: Memory>(self, memory: &M) -> [u32; COUNT] {
        array::from_fn(|i| {
            let address = self.text.wrapping_add(BLOCK_SIZE * i as u16);
            let high = load_word(memory, address);
            let low = load_word(memory, address.wrapping_add(2));
            u32::from(high) * 0x1_0000 + u32::from(low)
        })
    }
}
