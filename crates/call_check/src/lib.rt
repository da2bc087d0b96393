// check: whether a table is a map, and whether it is a block map.
#![tactic(auto)]

ghost use Rattle.std.specs.Prelude.{◌≡◌, []};
ghost use Rattle.model.specs.Calls.{check_call};
ghost use Rattle.answers.specs.Answers.{outcome};

use answers::{Answer, Done};

// "count 1 for a map, 2 for a block map"
pub fn check(n: u32, table: &[u32]) -> Answer
    ensures { outcome result table.now [] [] ≡ check_call n table.now }
{
    answers::opening(n, table, true, true)?;
    let count = if block_test::is_block(n, table) { 2 } else { 1 };
    Ok(Done { place: 0, count })
}
