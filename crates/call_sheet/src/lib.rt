// sheet: the sheet of a dart, the cells that it goes through, and what touches them.
#![tactic(auto)]

ghost use Rattle.std.specs.Prelude.{◌≡◌, [], ◌*◌, ◌≤◌, length};
ghost use Rattle.model.specs.Table.{slots};
ghost use Rattle.model.specs.Checks.{in_order, pass, sheet_checks};
ghost use Rattle.model.specs.Calls.{sheet_call};
ghost use Rattle.answers.specs.Answers.{outcome};

use answers::{Answer, Done};
use reading::{LARGE_HALF, MIDDLE, MIDDLE_HALF, SMALL, SMALL_HALF};

// sheet, where its checks pass and the work list has a word for every two slots.
fn sheet_in(n: u32, table: &[u32], marks: &mut [u8], work: &mut [u16], d: u32) -> Answer
    requires d_value { in_order (sheet_checks n table.now marks.old d) ≡ pass }
    requires table_bound { slots table.now ≤ 2 * length work.old }
    ensures { outcome result table.now marks.new []
        ≡ sheet_call n table.now marks.old d }
{
    let size = sheets::sheet(n, table, marks, work, d);
    Ok(Done {
        place: 0,
        count: size,
    })
}

// The same with a work list of so many words. Each size has a stack frame of its own, which smaller tables and refusals do not
// pay for.
#[inline(never)]
fn sheet_with<const WORDS: usize>(n: u32, table: &[u32], marks: &mut [u8], d: u32) -> Answer
    requires d_value { in_order (sheet_checks n table.now marks.old d) ≡ pass }
    requires room { (slots table.now ≤ 2 * WORDS) × (WORDS ≤ 32768) }
    ensures { outcome result table.now marks.new []
        ≡ sheet_call n table.now marks.old d }
{
    let mut work = [0u16; WORDS];
    sheet_in(n, table, marks, &mut work, d)
}

// "Marks: 1 in S, 2 for other darts of cells that hold a dart of S", 3 for what touches these cells, "0 elsewhere. Count: size
// of S."
pub fn sheet(n: u32, table: &[u32], marks: &mut [u8], d: u32) -> Answer
    ensures { outcome result table.now marks.new []
        ≡ sheet_call n table.now marks.old d }
{
    answers::opening_layer(n, table, reading::marks_fit(table, marks), true, d)?;
    if table.len() <= 4 * SMALL {
        return sheet_with::<SMALL_HALF>(n, table, marks, d);
    }
    if table.len() <= 4 * MIDDLE {
        return sheet_with::<MIDDLE_HALF>(n, table, marks, d);
    }
    sheet_with::<LARGE_HALF>(n, table, marks, d)
}
