// Worked examples of expressions, proved by computation.
#![tactic(auto)]

ghost use Rattle.std.specs.Prelude.{◌≡◌, length};
ghost use Rattle.examples.specs.Table.{table, Hold};

/// How many worked examples the table has; each of them holds.
pub fn worked_examples() -> usize
    ensures count { result ≡ length table }
    ensures hold { Hold }
{
    12
}
