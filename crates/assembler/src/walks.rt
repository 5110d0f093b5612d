// How far a pass over a listing has come.
ghost use Rattle.std.specs.Prelude.{◌≡◌, ◌+◌, ◌*◌, ◌<◌, ◌≤◌};
ghost use Rattle.std.specs.Result.{result_err};
ghost use Rattle.text.specs.Layout.{here, start, mark_at, refused_at};

use isa::Refusal;
use listing::Section;
use text::{Mark, Place, Refused};

// The index of the next record, and the place at which it stands. A record adds at most 262,144 bytes.
#[derive(Clone, Copy)]
pub(crate) struct Walk {
    // Counted here and not by enumerate, since the bounds of text and data are stated by it.
    pub index: usize,
    pub place: Place,
    ghost few: { index ≤ 4096 },
    ghost text: { place.text ≤ 262144 * index },
    ghost stored: { place.«data» ≤ 262144 * index },
}

impl Walk {
    // A listing begins in text, at address 0.
    pub(crate) fn start() -> Walk
        ensures index { result.index ≡ 0 }
        ensures place { result.place ≡ start.place }
    {
        Walk {
            index: 0,
            place: Place::default(),
        }
    }

    // Past a record that adds nothing.
    pub(crate) fn skip(self) -> Walk
        requires { self.index < 4096 }
        ensures index { result.index ≡ self.index + 1 }
        ensures place { result.place ≡ self.place }
    {
        Walk {
            index: self.index + 1,
            place: self.place,
        }
    }

    // Where the section ends.
    pub(crate) fn end(self) -> usize
        ensures { result ≡ here self.place }
    {
        match self.place.section {
            Section::Text => self.place.text,
            Section::Data => self.place.data,
        }
    }

    // What a label here names.
    pub(crate) fn mark(self) -> Mark
        ensures { result ≡ mark_at self.place }
    {
        Mark {
            section: self.place.section,
            offset: self.end() as u32,
        }
    }

    // A refusal of the next record.
    pub(crate) fn refused(self, refusal: Refusal) -> Refused
        ensures { result ≡ record { refusal = refusal; index = self.index } }
    {
        Refused {
            refusal,
            index: self.index,
        }
    }

    // What a check of the next record says, with the record's index.
    pub(crate) fn indexed(self, checked: Result<(), Refusal>) -> Result<(), Refused>
        ensures { result_err result ≡ refused_at self.index (result_err checked) }
    {
        checked.map_err(|refusal| self.refused(refusal))
    }
}
