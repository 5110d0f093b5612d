// Which fields an operation uses, and which constants it takes.
ghost use Rattle.std.specs.Prelude.{◌≡◌};
ghost use Rattle.std.specs.Result.{result_err};
ghost use Rattle.listing.specs.declared.records.Operation.TheVariants.{Immediate};
ghost use Rattle.listing.specs.Rules as spec;
ghost use Rattle.listing.specs.Rules.{allowed, in_set, good_fields, good_constant, rule_refusal};

use crate::records::{Constants, Operation, Record, Uses};
use isa::{ImmediateFunction, Refusal};

// Whether rd, ra and rb are used, which constants are taken, and whether a reference is.
// Five arguments in the order of the fields of `Uses`, so that most operations stand on one line.
fn row(rd: bool, ra: bool, rb: bool, constant: Option<Constants>, reference: bool) -> Uses
    ensures { result ≡ spec.row rd ra rb constant reference }
{
    Uses {
        rd,
        ra,
        rb,
        constant,
        reference,
        label: false,
    }
}

fn function_uses(function: ImmediateFunction) -> Uses
    ensures { result ≡ spec.uses (Immediate function) }
{
    match function {
        ImmediateFunction::Srli | ImmediateFunction::Srai | ImmediateFunction::Slli => row(
            true,
            false,
            false,
            Some(Constants::Count),
            false,
        ),
        ImmediateFunction::Srxi | ImmediateFunction::Slxi => row(
            true,
            false,
            false,
            Some(Constants::One),
            false,
        ),
        _ => row(true, false, false, Some(Constants::Any), true),
    }
}

impl Operation {
    fn uses(self) -> Uses
        ensures { result ≡ spec.uses self }
    {
        match self {
            Operation::Add | Operation::Sub => row(true, true, true, None, false),
            Operation::Register(_) => row(true, false, true, None, false),
            Operation::Immediate(function) => function_uses(function),
            Operation::Addi
            | Operation::Lea
            | Operation::Lw
            | Operation::Lb
            | Operation::Lbs
            | Operation::Sw
            | Operation::Sb
            | Operation::Jal => row(true, true, false, Some(Constants::Any), true),
            Operation::Subi => row(true, true, false, Some(Constants::Any), false),
            Operation::Call | Operation::Branch(_) => row(
                false,
                false,
                false,
                Some(Constants::Any),
                true,
            ),
            Operation::Cmp => row(false, true, true, None, false),
            Operation::Cmpi => row(false, true, false, Some(Constants::Any), false),
            Operation::J => row(false, true, false, Some(Constants::Any), true),
            Operation::Mov | Operation::Sxt | Operation::Zext => row(
                true, true, false, None, false,
            ),
            Operation::Nop | Operation::Ret | Operation::Reti | Operation::Text | Operation::Data =>
                row(false, false, false, None, false),
            Operation::Byte => row(false, false, false, Some(Constants::Byte), false),
            Operation::Word => row(false, false, false, Some(Constants::Any), true),
            Operation::Align => row(false, false, false, Some(Constants::Alignment), false),
            Operation::Label => Uses {
                label: true,
                ..row(false, false, false, None, false)
            },
        }
    }
}

fn is_allowed(used: bool, n: u16) -> bool
    ensures { result ≡ allowed used n }
{
    used || n == 0
}

impl Constants {
    fn contains(self, constant: i32) -> bool
        ensures { result ≡ in_set self constant }
    {
        match self {
            Constants::Any => matches!(constant, -32768..=65535),
            Constants::Byte => matches!(constant, -128..=255),
            Constants::Count => matches!(constant, 1..=15),
            Constants::One => constant == 1,
            Constants::Alignment => matches!(constant, 1..=16) && constant.count_ones() == 1,
        }
    }
}

impl Record {
    fn has_good_fields(self, uses: Uses) -> bool
        ensures { result ≡ good_fields uses self }
    {
        is_allowed(uses.rd, u16::from(self.rd))
            && is_allowed(uses.ra, u16::from(self.ra))
            && is_allowed(uses.rb, u16::from(self.rb))
            && is_allowed(uses.reference, u16::from(self.reference))
            && is_allowed(uses.label || self.reference == 1, self.label)
            && self.label < 1024
            && (uses.constant.is_some() || self.constant == 0)
    }

    fn has_good_constant(self, uses: Uses) -> bool
        ensures { result ≡ good_constant uses.constant self.constant }
    {
        uses.constant.is_none_or(|set| set.contains(self.constant))
    }

    // Refuses a record that is wrong wherever it stands: a field against the rules, or a constant
    // outside its operation's set.
    pub fn check(self) -> Result<(), Refusal>
        ensures { result_err result ≡ rule_refusal self }
    {
        let uses = self.operation.uses();
        if !self.has_good_fields(uses) {
            Err(Refusal::Field)
        } else if !self.has_good_constant(uses) {
            Err(Refusal::Constant)
        } else {
            Ok(())
        }
    }
}
