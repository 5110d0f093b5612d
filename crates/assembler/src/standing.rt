// Records where they stand.
ghost use Rattle.std.specs.Prelude.{◌≡◌, ◌+◌, ◌<◌, ◌≤◌, IfSome};
ghost use Rattle.listing.specs.Meaning.{meaning};
ghost use Rattle.listing.specs.Reading.{read_record};
ghost use Rattle.text.specs.Layout.{moved, section_after};
ghost use Rattle.assembler.specs.Measures.{measured};

use crate::measuring::Measure;
use crate::walks::Walk;
use listing::{Item, Record, Section};
use text::Place;

// A record, what it means, and what it adds where it stands.
#[derive(Clone, Copy)]
pub(crate) struct Standing {
    pub walk: Walk,
    pub record: Record,
    pub item: Item,
    pub measure: Measure,
    ghost means: { item ≡ meaning «record» },
    ghost adds: { measure ≡ measured item walk.place «record» },
    ghost within: { measure.size ≤ 262144 },
}

impl Standing {
    ghost use Rattle.assembler.specs.Found.{record_in};

    // The next record; nothing where its operation is not listed.
    pub(crate) fn read(walk: Walk, bytes: &[u8; 8]) -> Option<Standing>
        ensures record { record_in result ≡ read_record bytes.now }
        ensures walk { IfSome result (λ s. s.walk ≡ walk) }
    {
        let record = Record::read(*bytes)?;
        let item = record.meaning();
        Some(Standing {
            walk,
            record,
            item,
            measure: Measure::of(walk, item, record),
        })
    }

    // The section that the next record stands in.
    fn section_after(&self) -> Section
        ensures { result ≡ section_after self.now.item self.now.walk.place.section }
    {
        match self.item {
            Item::Section(next) => next,
            _ => self.walk.place.section,
        }
    }

    // Past the record.
    pub(crate) fn next(&self) -> Walk
        requires { self.now.walk.index < 4096 }
        ensures index { result.index ≡ self.now.walk.index + 1 }
        ensures place { result.place ≡ moved self.now.walk.place self.now.record }
    {
        let place = self.walk.place;
        let section = self.section_after();
        let size = self.measure.size;
        let place = match place.section {
            Section::Text if size > 0 => Place {
                section,
                text: place.text + size,
                result: self.measure.result,
                ..place
            },
            Section::Text => Place { section, ..place },
            Section::Data => Place {
                section,
                data: place.data + size,
                ..place
            },
        };
        Walk {
            index: self.walk.index + 1,
            place,
        }
    }
}
