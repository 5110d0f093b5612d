// The listing that is assembled.
ghost use Rattle.std.specs.Prelude.{◌≡◌, ℕ, ◌/◌, ◌%◌, ◌≤◌, length, Some, IfOk, IfErr};
ghost use Rattle.text.specs.Answer.{failure};
ghost use Rattle.assembler.specs.Listings.{HasRecords};

use isa::Refusal;
use text::Refused;

// Eight bytes for each record, and no more records than the assembler takes.
#[derive(Clone, Copy)]
pub(crate) struct Listing<'a> {
    pub bytes: &'a [u8],
    ghost whole: { length bytes.now % 8 ≡ 0 },
    ghost few: { length bytes.now / 8 ≤ 4096 },
}

impl<'a> Listing<'a> {
    pub(crate) fn new(bytes: &'a [u8]) -> Result<Listing<'a>, Refused>
        ensures ok { IfOk result (λ l. l.bytes.now ≡ bytes.now) }
        ensures err { IfErr result (λ e. (room : ℕ) → failure bytes.now room ≡ Some e) }
    {
        let index = bytes.len() / 8;
        let refusal = if bytes.len() % 8 != 0 {
            Refusal::Ragged
        } else if index > 4096 {
            Refusal::Long
        } else {
            return Ok(Listing { bytes });
        };
        Err(Refused { refusal, index })
    }

    pub(crate) fn records(self) -> &'a [[u8; 8]]
        ensures count { length result.now ≡ length self.entry.bytes.now / 8 }
        ensures records { HasRecords self.entry.bytes.now result.now }
    {
        let (records, _) = self.bytes.as_chunks::<8>();
        records
    }

    // A refusal that concerns all records.
    pub(crate) fn refused(self, refusal: Refusal) -> Refused
        ensures { result ≡ record { refusal = refusal; index = length self.entry.bytes.now / 8 } }
    {
        Refused {
            refusal,
            index: self.bytes.len() / 8,
        }
    }
}
