// split: the cells that a sheet goes through are split in two. The call takes any input, and its contract is an equation with the
// model's definition of the call.
#![tactic(auto)]

ghost use Rattle.std.specs.Prelude.{◌≡◌, ◌*◌, ◌≤◌, length};
ghost use Rattle.model.specs.Lists.{ones};
ghost use Rattle.model.specs.Table.{slots};
ghost use Rattle.model.specs.Split.{crosses};
ghost use Rattle.model.specs.Checks.{pass, in_order, layer_checks};
ghost use Rattle.model.specs.Calls.{split_call};
ghost use Rattle.answers.specs.Answers.{outcome};
ghost use Rattle.call_split.specs.Sheets.{LeadsIn};

use answers::{Answer, Done, Reason};
use reading::{
    LARGE, LARGE_HALF, LARGE_QUARTER, MIDDLE, MIDDLE_HALF, MIDDLE_QUARTER, SMALL, SMALL_HALF,
    SMALL_QUARTER, link_in,
};

// Whether some g with the mark 1 has g.1 with the mark 1.
fn crosses(table: &[u32], marks: &[u8]) -> bool
    requires { LeadsIn table.now marks.now }
    ensures { result ≡ crosses table.now marks.now (ones marks.now) }
{
    let mut x = scans::skip_clear(marks, 0);
    while x < marks.len() {
        if marks[x] == 1 {
            if marks[link_in(table, 1, x as u32) as usize] == 1 {
                return true;
            }
        }
        x = scans::skip_clear(marks, x + 1);
    }
    false
}

// split where the checks up to 8 have passed: the new slots have a word for every second slot, which the sheet is found with before,
// the darts one for every fourth, and each slot has a place.
fn split_in(
    n: u32,
    table: &mut [u32],
    marks: &mut [u8],
    journal: &mut [u32],
    tag: u32,
    d: u32,
    fresh: &mut [u16],
    darts: &mut [u16],
    places: &mut [u16],
) -> Answer
    requires d_value { in_order (layer_checks n table.old marks.old journal.old d) ≡ pass }
    requires table_bound { (slots table.old ≤ 2 * length fresh.old) × (slots table.old ≤ 4 * length darts.old)
        × (slots table.old ≤ length places.old) }
    ensures { outcome result table.new marks.new journal.new
        ≡ split_call n table.old marks.old journal.old tag d }
{
    let size = sheets::sheet(n, table, marks, fresh, d);
    if crosses(table, marks) {
        return Err(Reason::CrossesItself.into());
    }
    // as many slots are live as are new
    let new = n * size;
    if !new_darts::find_slots(table, fresh, new, new) {
        return Err(Reason::TooFewSlots.into());
    }
    let changes = (4 * n + 1) * size;
    if !journal::record_fits(journal, changes) {
        return Err(Reason::NoRoom.into());
    }
    new_darts::list_darts(n, marks, darts, places, size);
    new_darts::write_split(n, table, journal, darts, fresh, places, size);
    drafts::carry_out(table, journal, changes, tag);
    Ok(Done {
        place: fresh[0] as u32,
        count: new,
    })
}

// The same with so many places, and words for new slots for half and for darts for a quarter of them. Each size has a stack frame of
// its own, which smaller tables and refusals do not pay for.
#[inline(never)]
fn split_with<const SLOTS: usize, const HALF: usize, const QUARTER: usize>(
    n: u32,
    table: &mut [u32],
    marks: &mut [u8],
    journal: &mut [u32],
    tag: u32,
    d: u32,
) -> Answer
    requires d_value { in_order (layer_checks n table.old marks.old journal.old d) ≡ pass }
    requires room { (slots table.old ≤ SLOTS) × (SLOTS ≤ 65536) × (SLOTS ≡ 2 * HALF) × (SLOTS ≡ 4 * QUARTER) }
    ensures { outcome result table.new marks.new journal.new
        ≡ split_call n table.old marks.old journal.old tag d }
{
    let mut fresh = [0u16; HALF];
    let mut darts = [0u16; QUARTER];
    let mut places = [0u16; SLOTS];
    split_in(
        n,
        table,
        marks,
        journal,
        tag,
        d,
        &mut fresh,
        &mut darts,
        &mut places,
    )
}

// "each g in S, rising, gets new darts a, b (for n = 3 also c) in the lowest unused slots in that order." "Place: first new
// slot. Count: darts added."
pub fn split(
    n: u32,
    table: &mut [u32],
    marks: &mut [u8],
    journal: &mut [u32],
    tag: u32,
    d: u32,
) -> Answer
    ensures { outcome result table.new marks.new journal.new
        ≡ split_call n table.old marks.old journal.old tag d }
{
    answers::opening_layer(
        n,
        table,
        reading::marks_fit(table, marks),
        reading::journal_fits(journal),
        d,
    )?;
    if table.len() <= 4 * SMALL {
        return split_with::<SMALL, SMALL_HALF, SMALL_QUARTER>(n, table, marks, journal, tag, d);
    }
    if table.len() <= 4 * MIDDLE {
        return split_with::<MIDDLE, MIDDLE_HALF, MIDDLE_QUARTER>(n, table, marks, journal, tag, d);
    }
    split_with::<LARGE, LARGE_HALF, LARGE_QUARTER>(n, table, marks, journal, tag, d)
}
