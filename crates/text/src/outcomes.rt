// What assembling a listing answers.
ghost use Rattle.std.specs.Prelude.{◌≡◌};

use isa::Refusal;

// The text length and the image length in bytes, and the longest run of interlocked text words.
#[derive(Clone, Copy, Debug, PartialEq, Eq)]
pub struct Answers {
    pub text: usize,
    pub image: usize,
    pub run: usize,
}

// A refusal with the index of its record, or with the number of records where it concerns them all.
#[derive(Clone, Copy, Debug, PartialEq, Eq)]
pub struct Refused {
    pub refusal: Refusal,
    pub index: usize,
}

// The refusal, without the record that it concerns.
impl From<Refused> for Refusal {
    ghost from_gives = { λ refused refusal. refusal ≡ refused.refusal };

    fn from(error: Refused) -> Refusal {
        error.refusal
    }
}
