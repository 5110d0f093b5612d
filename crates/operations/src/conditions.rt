// The conditions of branches.
ghost use Rattle.std.specs.Prelude.{◌≡◌};
ghost use Rattle.operations.specs.Conditions as spec;

use isa::Condition;

// The sum of two signed numbers does not fit sixteen bits.
fn overflows(a: u16, b: u16) -> bool
    ensures { result ≡ spec.overflows a b }
{
    a.cast_signed().checked_add(b.cast_signed()).is_none()
}

fn carries(a: u16, b: u16) -> bool
    ensures { result ≡ spec.sum_carries a b }
{
    a.checked_add(b).is_none()
}

// Signed 16-bit comparison.
fn below(a: u16, b: u16) -> bool
    ensures { result ≡ spec.below a b }
{
    a.cast_signed() < b.cast_signed()
}

// Whether a branch goes to its target, where a + b is the sum of the word before: a is compared with the negated b.
pub(crate) fn holds(condition: Condition, a: u16, b: u16) -> bool
    ensures { result ≡ spec.holds condition a b }
{
    let other = b.wrapping_neg();
    match condition {
        Condition::Br => true,
        Condition::Beq => a == other,
        Condition::Bne => a != other,
        Condition::Bc => carries(a, b),
        Condition::Bnc => !carries(a, b),
        Condition::Bv => overflows(a, b),
        Condition::Bnv => !overflows(a, b),
        Condition::Blt => below(a, other),
        Condition::Bge => !below(a, other),
        Condition::Ble => !below(other, a),
        Condition::Bgt => below(other, a),
        Condition::Bltu => a < other,
        Condition::Bgeu => a >= other,
        Condition::Bleu => a <= other,
        Condition::Bgtu => a > other,
    }
}
