// The refusals: one number and one word for each reason a call can have.
ghost use Rattle.std.specs.Prelude.{◌≡◌, ◌-◌, Some, slice_index_or};
ghost use Rattle.isa.specs.Refusals.{refusal_number, refusal_text, refusal_word, refusals};
ghost use Rattle.isa.specs.declared.refusals.Refusal.TheVariants.{Page};

use std::error::Error;
use std::fmt;

#[derive(Clone, Copy, Debug, PartialEq, Eq)]
pub enum Refusal {
    Ragged = 1,
    Long,
    Operation,
    Field,
    Constant,
    Misplaced,
    Twice,
    Parted,
    Big,
    Missing,
    Value,
    Reach,
    Short,
    Plan,
    Closed,
    Busy,
    Astray,
    Unknown,
    Reserved,
    Hazard,
    Bare,
    Count,
    Odd,
    Io,
    Trespass,
    Unkept,
    Register,
    Page,
}

impl Refusal {
    // The number that is sent back, which no other refusal has.
    pub fn number(self) -> u8
        ensures value { result ≡ refusal_number self }
        ensures own { slice_index_or refusals (result - 1) Page ≡ self }
    {
        self as u8
    }

    // The word that stands beside the number.
    pub fn word(self) -> &'static str
        ensures { result.now ≡ refusal_word self }
    {
        match self {
            Refusal::Ragged => "ragged",
            Refusal::Long => "long",
            Refusal::Operation => "operation",
            Refusal::Field => "field",
            Refusal::Constant => "constant",
            Refusal::Misplaced => "misplaced",
            Refusal::Twice => "twice",
            Refusal::Parted => "parted",
            Refusal::Big => "big",
            Refusal::Missing => "missing",
            Refusal::Value => "value",
            Refusal::Reach => "reach",
            Refusal::Short => "short",
            Refusal::Plan => "plan",
            Refusal::Closed => "closed",
            Refusal::Busy => "busy",
            Refusal::Astray => "astray",
            Refusal::Unknown => "unknown",
            Refusal::Reserved => "reserved",
            Refusal::Hazard => "hazard",
            Refusal::Bare => "bare",
            Refusal::Count => "count",
            Refusal::Odd => "odd",
            Refusal::Io => "I/O",
            Refusal::Trespass => "trespass",
            Refusal::Unkept => "unkept",
            Refusal::Register => "register",
            Refusal::Page => "page",
        }
    }
}

// A refusal is shown by its number and its word, as in "4 field".
impl fmt::Display for Refusal {
    ghost output = { λ refusal. Some (refusal_text refusal) };

    fn fmt<W: fmt::Write>(&self, f: &mut fmt::Formatter<W>) -> fmt::Result {
        write!(f, "{} {}", self.number(), self.word())
    }
}

impl Error for Refusal {}
