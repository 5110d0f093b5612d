// Where labels lie once the length of the text is known.
ghost use Rattle.std.specs.Prelude.{◌≡◌, ◌^◌, ◌<◌, ◌≤◌, pos};
ghost use Rattle.std.specs.Option.{unwrap_or};
ghost use Rattle.text.specs.Image.{address, value};
ghost use Rattle.assembler.specs.Found.{number_in};

use crate::labels::Labels;
use crate::values::Value;
use listing::{Record, Section};
use text::Mark;

// The labels of a listing, and the address at which its data begin.
#[derive(Clone, Copy)]
pub(crate) struct Addresses<'a> {
    pub base: usize,
    pub labels: &'a Labels,
    ghost within: { base ≤ 65280 },
}

impl<'a> Addresses<'a> {
    fn address_of(self, mark: Mark) -> usize
        ensures value { result ≡ address self.entry.base mark }
        ensures bound { result < 2 ^ 33 }
    {
        match mark.section {
            Section::Text => mark.offset as usize,
            Section::Data => self.base + mark.offset as usize,
        }
    }

    // A record's value; nothing where its label is not defined.
    pub(crate) fn value_of(self, record: Record) -> Option<Value>
        ensures { number_in result ≡ value self.entry.base self.entry.labels.now.marks «record» }
    {
        let constant = i64::from(record.constant);
        if record.reference == 0 {
            return Some(Value { number: constant });
        }
        let mark = self.labels.get(record.label)?;
        Some(Value {
            number: constant + self.address_of(mark) as i64,
        })
    }

    // The value of a record whose label was looked up before.
    pub(crate) fn found_value(self, record: Record) -> Value
        ensures { result.number ≡ unwrap_or (value self.entry.base self.entry.labels.now.marks «record») (pos 0) }
    {
        self.value_of(record).unwrap_or(Value { number: 0 })
    }
}
