// The worked examples follow from the definitions.
ghost use Rattle.std.specs.Prelude.{◌≡◌, true, length};
ghost use Rattle.text.specs.Examples.{examples, all_hold};

// How many worked examples there are; all of them hold.
pub fn worked_examples() -> usize
    ensures count { result ≡ length examples }
    ensures hold { all_hold examples ≡ true }
{
    11
}
