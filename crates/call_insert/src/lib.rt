// insert: a layer of cells along a wall. The call takes any input, and its contract is an equation with the model's definition of the
// call.
#![tactic(auto)]

ghost use Rattle.std.specs.Prelude.{◌≡◌, true, List, ℕ, ◌+◌, ◌*◌, ◌≤◌, ◌<◌, length, get_or, drop};
ghost use Rattle.model.specs.Lists.{ones};
ghost use Rattle.model.specs.Table.{slots};
ghost use Rattle.model.specs.Insert.{insert_table};
ghost use Rattle.model.specs.Journal.{changes_from};
ghost use Rattle.model.specs.Checks.{pass, in_order};
ghost use Rattle.model.specs.Calls.{insert_call};
ghost use Rattle.model.specs.Meaning.Maps.{Dim};
ghost use Rattle.drafts.specs.Drafts.{drafted};
ghost use Rattle.answers.specs.Answers.{outcome};
ghost use Rattle.new_darts.specs.News.{insert_made};
ghost use Rattle.new_darts.specs.Drafting.{Writing};
ghost use Rattle.call_insert.specs.Opened.{opening_checks};
ghost use Rattle.call_insert.specs.Behind.{ListedBehind};

use answers::{Answer, Done, Reason};
use reading::{LARGE, MIDDLE, SMALL};

// Lists the `size` darts of the wall behind the new slots, which are the first words of `queue`, with the places of their new darts.
fn list_behind(n: u32, marks: &[u8], queue: &mut [u16], places: &mut [u16], size: u32)
    requires { (length marks.now ≤ 65536) × (size ≡ length (ones marks.now)) × (Dim n) × (n * size ≤ 65536)
        × (n * size + size ≤ length queue.old) × (length marks.now ≤ length places.old) }
    ensures { ListedBehind n (ones marks.now) size queue.old queue.new
        places.old places.new }
{
    new_darts::list_darts(n, marks, &mut queue[(n * size) as usize..], places, size);
}

// Drafts the record from these.
fn write_in(
    n: u32,
    table: &[u32],
    journal: &mut [u32],
    queue: &[u16],
    places: &[u16],
    nexts: &[u16],
    size: u32,
)
    requires { ((m : List ℕ) × Writing n true table.now (insert_made n table.now m) nexts.now (drop (n * size) queue.now) queue.now
        places.now size journal.old) × (n * size < 4294967296) }
    ensures { (m : List ℕ)
        → Writing n true table.now (insert_made n table.now m) nexts.now
        (drop (n * size) queue.now) queue.now places.now size journal.old
        → journal.new ≡ drafted journal.old
        (changes_from 0 table.now (insert_table n table.now m)) }
{
    let darts = &queue[(n * size) as usize..];
    new_darts::write_layer(n, table, journal, darts, queue, places, nexts, size)
}

// insert where the checks up to 8 have passed. Each buffer has a word for each slot, and `places`, which the wall is tested with before,
// has zeros there. The first words of `queue`, with which the wall is tested too, are the new slots, the wall's darts stand behind them.
fn insert_in(
    n: u32,
    table: &mut [u32],
    marks: &[u8],
    journal: &mut [u32],
    tag: u32,
    queue: &mut [u16],
    nexts: &mut [u16],
    places: &mut [u16],
) -> Answer
    requires journal_value { in_order (opening_checks n table.old marks.now journal.old) ≡ pass }
    requires table_in_bounds { (slots table.old ≤ length queue.old) × (slots table.old ≤ length nexts.old)
        × (slots table.old ≤ length places.old) × ((x : ℕ) → x < slots table.old → get_or places.old x 0 ≡ 0) }
    ensures { outcome result table.new marks.now journal.new
        ≡ insert_call n table.old marks.now journal.old tag }
{
    let size = match walls::test(n, table, marks, queue, nexts, places) {
        Ok(size) => size,
        Err(reason) => return Err(reason.into()),
    };
    let new = n * size;
    if !new_darts::find_slots(table, queue, new, size) {
        return Err(Reason::TooFewSlots.into());
    }
    let changes = (4 * n + 1) * size;
    if !journal::record_fits(journal, changes) {
        return Err(Reason::NoRoom.into());
    }
    list_behind(n, marks, queue, places, size);
    write_in(n, table, journal, queue, places, nexts, size);
    drafts::carry_out(table, journal, changes, tag);
    Ok(Done {
        place: queue[0] as u32,
        count: new,
    })
}

// The same with buffers of so many words. Each size has a stack frame of its own, so that the stack has one size of buffers only.
#[inline(never)]
fn insert_with<const WORDS: usize>(
    n: u32,
    table: &mut [u32],
    marks: &[u8],
    journal: &mut [u32],
    tag: u32,
) -> Answer
    requires journal_value { in_order (opening_checks n table.old marks.now journal.old) ≡ pass }
    requires room { (slots table.old ≤ WORDS) × (WORDS ≤ 65536) }
    ensures { outcome result table.new marks.now journal.new
        ≡ insert_call n table.old marks.now journal.old tag }
{
    let mut queue = [0u16; WORDS];
    let mut nexts = [0u16; WORDS];
    let mut places = [0u16; WORDS];
    insert_in(
        n,
        table,
        marks,
        journal,
        tag,
        &mut queue,
        &mut nexts,
        &mut places,
    )
}

// "Each wall dart h, rising, gets 2 new darts p, q in 2D, 3 (also r) in 3D, in the lowest unused slots in that order". "place: first new
// slot; count: darts added"
pub fn insert(n: u32, table: &mut [u32], marks: &[u8], journal: &mut [u32], tag: u32) -> Answer
    ensures { outcome result table.new marks.now journal.new
        ≡ insert_call n table.old marks.now journal.old tag }
{
    answers::opening_wall(
        n,
        table,
        reading::marks_fit(table, marks),
        reading::journal_fits(journal),
    )?;
    if table.len() <= 4 * SMALL {
        return insert_with::<SMALL>(n, table, marks, journal, tag);
    }
    if table.len() <= 4 * MIDDLE {
        return insert_with::<MIDDLE>(n, table, marks, journal, tag);
    }
    insert_with::<LARGE>(n, table, marks, journal, tag)
}
