// How a record's first word is kept out of hazard, and the words that the record then makes.
ghost use Rattle.std.specs.Prelude.{◌≡◌, ◌-◌, ◌≤◌, length, slice_index_or};
ghost use Rattle.listing.specs.Slots as spec;
ghost use Rattle.listing.specs.Slots.{template, nop, slot_late, slot_result, slot_swapped, slot_carrying, clash, mend_of, mended};

use crate::items::{Mend, Outline, Slot, Template};
use crate::operands::{NOP, swap, takes_carry};
use isa::Instruction;

impl Slot {
    fn late(self) -> u8
        ensures { result ≡ slot_late self }
    {
        match self {
            Slot::Word(i) | Slot::Low(i) => i.late(),
            _ => 0,
        }
    }

    fn result(self) -> u8
        ensures { result ≡ slot_result self }
    {
        match self {
            Slot::Word(i) | Slot::Low(i) => i.result(),
            Slot::Call => 15,
            _ => 0,
        }
    }

    fn swapped(self) -> Option<Instruction>
        ensures { result ≡ slot_swapped self }
    {
        match self {
            Slot::Word(i) => swap(i),
            _ => None,
        }
    }

    fn is_carrying(self) -> bool
        ensures { result ≡ slot_carrying self }
    {
        matches!(self, Slot::Word(i) if takes_carry(i))
    }

    // Whether the word is in hazard after a word with that result. The core's own test stands in machine, which knows no slots.
    fn clashes(self, before: u8) -> bool
        ensures { result ≡ clash before self }
    {
        before > 0 && self.late() == before
    }

    fn mend(self, before: u8) -> Mend
        ensures { result ≡ mend_of before self }
    {
        if self.clashes(before) {
            self.swapped().map_or(Mend::Nop, Mend::Swap)
        } else {
            Mend::Keep
        }
    }
}

impl Template {
    fn len(self, mend: Mend) -> usize
        ensures value { result ≡ length (mended mend (template self.body self.record)) }
        ensures bound { result ≤ 65543 }
    {
        let n = self.unmended_len();
        match mend {
            Mend::Keep => n,
            Mend::Swap(_) => n.max(1),
            Mend::Nop => n + 1,
        }
    }

    // The last of the words, where the first one is known before it is mended.
    fn last_slot(self, mend: Mend, words: usize, first: Slot) -> Slot
        requires { first ≡ slice_index_or (template self.body self.record) 0 nop }
        ensures { result ≡ slice_index_or (mended mend (template self.body self.record)) (words - 1) nop }
    {
        match (mend, words) {
            (Mend::Keep, 0..=1) => first,
            _ => self.slot(mend, words.saturating_sub(1)),
        }
    }

    // The words that the record makes after a word with that result, in outline.
    pub fn outline(self, before: u8) -> Outline
        ensures value { result ≡ spec.outline before self.body self.record }
        ensures bound { result.words ≤ 65543 }
    {
        let first = self.unmended_slot(0);
        let mend = first.mend(before);
        let words = self.len(mend);
        let last = self.last_slot(mend, words, first);
        Outline {
            mend,
            words,
            result: last.result(),
            parted: first.clashes(before) && first.is_carrying(),
        }
    }

    // The word at k among those that the record makes when its first word is so mended.
    pub fn slot(self, mend: Mend, k: usize) -> Slot
        ensures { result ≡ slice_index_or (mended mend (template self.body self.record)) k nop }
    {
        match (mend, k) {
            (Mend::Swap(i), 0) => Slot::Word(i),
            (Mend::Nop, 0) => Slot::Word(NOP),
            (Mend::Nop, _) => self.unmended_slot(k - 1),
            _ => self.unmended_slot(k),
        }
    }
}
