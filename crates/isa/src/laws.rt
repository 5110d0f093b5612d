// What holds of all words together.
ghost use Rattle.std.specs.Prelude.{◌≡◌};
ghost use Rattle.isa.specs.Laws.{unknowns};

// How many of the 65,536 words are unknown.
pub fn unknown_words() -> u16
    ensures { result ≡ unknowns 65536 }
{
    16384
}
