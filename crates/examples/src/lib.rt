// The worked examples, computed from the definitions that the contracts cite. Those of the assembler alone stand in `text` too,
// below the core, where each of its definitions is tried in seconds.
#![tactic(auto)]

ghost use Rattle.std.specs.Prelude.{◌≡◌, true, length};
ghost use Rattle.examples.specs.Examples.{all_hold};
ghost use Rattle.examples.specs.Table.{examples};

// How many worked examples there are; all of them hold.
pub fn worked_examples() -> usize
    ensures count { result ≡ length examples }
    ensures hold { all_hold examples ≡ true }
{
    14
}
