// A listing that is written record by record; each builder names the fields that the display's program uses.
use listing::{Operation, Record};
use std::alloc::Global;

// The labels of the display's program.
#[derive(Clone, Copy)]
pub(crate) enum Label {
    Start,
    Ticks,
    Kept,
    NextHeight,
    Group,
    Done,
    Blocks,
    BlocksEnd,
    Tables,
    Display,
    Curve,
    CurveEnd,
}

// A record without fields.
pub(crate) fn plain(operation: Operation) -> Record {
    Record {
        operation,
        rd: 0,
        ra: 0,
        rb: 0,
        reference: 0,
        label: 0,
        constant: 0,
    }
}

// A record of registers; one that the operation does not use is 0.
pub(crate) fn registers(operation: Operation, rd: u8, ra: u8, rb: u8) -> Record {
    Record {
        rd,
        ra,
        rb,
        ..plain(operation)
    }
}

// A record with a constant.
pub(crate) fn constant(operation: Operation, rd: u8, ra: u8, constant: i32) -> Record {
    Record {
        rd,
        ra,
        constant,
        ..plain(operation)
    }
}

// A record whose value is a label's address.
pub(crate) fn reference(operation: Operation, rd: u8, ra: u8, label: Label) -> Record {
    Record {
        rd,
        ra,
        reference: 1,
        label: label as u16,
        ..plain(operation)
    }
}

// A word of data.
pub(crate) fn word(value: i32) -> Record {
    constant(Operation::Word, 0, 0, value)
}

// A record that defines a label.
pub(crate) fn define(label: Label) -> Record {
    Record {
        label: label as u16,
        ..plain(Operation::Label)
    }
}

#[derive(Drop)]
pub(crate) struct Draft {
    bytes: Vec<u8>,
}

impl Draft {
    pub(crate) fn new(heap: Global) -> Draft {
        Draft {
            bytes: Vec::new(heap),
        }
    }

    // The bytes of the listing.
    pub(crate) fn finish(self) -> Vec<u8> {
        let Draft { bytes } = self;
        bytes
    }

    // Writes records at the end.
    pub(crate) fn put(&mut self, records: &[Record]) -> anyhow::Result<()> {
        for record in records {
            self.bytes.extend_from_slice(&record.write()?)?;
        }
        Ok(())
    }
}
