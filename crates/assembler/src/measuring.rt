// What a record adds to its section.
ghost use Rattle.std.specs.Prelude.{◌≡◌, ◌≤◌, false};
ghost use Rattle.listing.specs.declared.items.Mend.TheVariants.{Keep};
ghost use Rattle.listing.specs.Numbers.{bits16};
ghost use Rattle.text.specs.Layout.{here, padding};
ghost use Rattle.assembler.specs.Measures.{measured};

use crate::values::low_bits;
use crate::walks::Walk;
use listing::{Item, Mend, Record, Template};

// How a record's first word is mended, how many bytes the record adds to its section, the register that
// its last word writes, and whether it is adc or sbc in hazard.
// Beside Outline: an outline counts words, a measure bytes.
#[derive(Clone, Copy)]
pub(crate) struct Measure {
    pub mend: Mend,
    pub size: usize,
    pub result: u8,
    pub parted: bool,
}

// How many bytes bring a length to a multiple of an alignment.
pub(crate) fn pad(length: usize, alignment: usize) -> usize
    ensures value { result ≡ padding length alignment }
    ensures bound { result ≤ alignment }
{
    if alignment == 0 {
        0
    } else {
        (alignment - length % alignment) % alignment
    }
}

fn gap(walk: Walk, r: Record) -> usize
    ensures value { result ≡ padding (here walk.place) (bits16 r.constant) }
    ensures bound { result ≤ 65536 }
{
    pad(walk.end(), usize::from(low_bits(i64::from(r.constant))))
}

impl Measure {
    // Bytes that are no words of a record.
    fn unmended(size: usize) -> Measure
        ensures { result ≡ record { mend = Keep; size = size; result = 0; parted = false } }
    {
        Measure {
            mend: Mend::Keep,
            size,
            result: 0,
            parted: false,
        }
    }

    // What a record adds where a walk has come to.
    pub(crate) fn of(walk: Walk, item: Item, r: Record) -> Measure
        ensures value { result ≡ measured item walk.place r }
        ensures bound { result.size ≤ 262144 }
    {
        match item {
            Item::Words(body) => {
                let outline = Template { body, record: r }.outline(walk.place.result);
                Measure {
                    mend: outline.mend,
                    size: 2 * outline.words,
                    result: outline.result,
                    parted: outline.parted,
                }
            }
            Item::Byte => Measure::unmended(1),
            Item::Word => Measure::unmended(2),
            Item::Align => Measure::unmended(gap(walk, r)),
            Item::Label | Item::Section(_) => Measure::unmended(0),
        }
    }
}
