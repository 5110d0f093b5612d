// Sixteen page words, one for each 4,096 addresses.
ghost use Rattle.std.specs.Prelude.{◌≡◌, ◌<◌, MatchResult, nat_le};
ghost use Rattle.isa.specs.declared.refusals.Refusal.TheVariants.{Page};
ghost use Rattle.memory.specs.Pages.{Distinct, Plain, Sound, frame, place, word_of};

use isa::Refusal;

// The frame that a page word names.
fn frame(word: u16) -> u16
    ensures { result ≡ frame word }
{
    word % 0x4000
}

#[derive(Clone, Copy, Debug, PartialEq, Eq)]
pub struct PageTable {
    words: [u16; 16],
    ghost plain: { Plain words },
    ghost distinct: { Distinct words },
}

impl PageTable {
    // The table of sixteen page words; refused where one has bit 14 set or a frame above 31, or two have one frame.
    pub fn new(words: [u16; 16]) -> Result<PageTable, Refusal>
        ensures { MatchResult result (λ t. t.words ≡ words) (λ e. (e ≡ Page) × (Sound words → ⊥)) }
    {
        for (page, &word) in words.iter().enumerate() {
            let mut before = words[..page].iter();
            if word % 0x8000 >= 32 || before.any(|&other| frame(other) == frame(word)) {
                return Err(Refusal::Page);
            }
        }
        Ok(PageTable { words })
    }

    // The page word of an address.
    fn word(&self, address: u16) -> u16
        ensures { result ≡ word_of self.now.words address }
    {
        self.words[usize::from(address / 0x1000)]
    }

    // Where an address lies in the buffer.
    pub(crate) fn place(&self, address: u16) -> usize
        ensures { result ≡ place self.now.words address }
    {
        usize::from(frame(self.word(address))) * 0x1000 + usize::from(address % 0x1000)
    }

    // Whether bit 15 of an address's page word is set.
    pub(crate) fn is_writable(&self, address: u16) -> bool
        ensures { result ≡ nat_le 32768 (word_of self.now.words address) }
    {
        self.word(address) >= 0x8000
    }
}
