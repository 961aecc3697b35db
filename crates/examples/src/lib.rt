// The worked examples, as rows of one table that follows from the definitions.
#![tactic(auto)]

ghost use Rattle.std.specs.Prelude.{◌≡◌, length};
ghost use Rattle.examples.specs.Table.{table, HoldsThroughout};

// How many worked examples there are: each holds by the definitions that the contracts of the code cite.
pub fn worked_examples() -> usize
    ensures rows { result ≡ length table }
    ensures hold { HoldsThroughout table }
{
    9
}
