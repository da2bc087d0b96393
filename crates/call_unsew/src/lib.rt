// unsew: each dart of d's side and its partner become i-free. The call takes any input, and its contract is an equation with the
// model's definition of the call.
#![tactic(auto)]

ghost use Rattle.std.specs.Prelude.{◌≡◌, true, [], ℕ, ◌*◌, ◌<◌, ◌≤◌, length};
ghost use Rattle.model.specs.Table.{live, slots};
ghost use Rattle.model.specs.Checks.{pass, in_order, unsew_checks};
ghost use Rattle.model.specs.Calls.{unsew_call};
ghost use Rattle.model.specs.Meaning.Sets.{Marked};
ghost use Rattle.model.specs.Meaning.Pairings.{OnSide};
ghost use Rattle.sides.specs.Turns.{Linked};
ghost use Rattle.answers.specs.Answers.{outcome};
ghost use Rattle.call_unsew.specs.Marking.{Marking, Couple, Unsewn, Wide, Full};

use answers::{Answer, Done, Reason};
use reading::{LARGE, LARGE_GROUPS, MIDDLE, MIDDLE_GROUPS, SMALL, SMALL_GROUPS};

// The dart x gets the mark 1; 0 if it has it already, else 1.
fn mark(marks: &mut [u8], x: u32) -> u32
    requires { x < length marks.old }
    ensures { Marking (λ z. z ≡ x) marks.old marks.new result }
{
    if marks[x as usize] == 1 {
        return 0;
    }
    marks[x as usize] = 1;
    1
}

// The dart x and its partner get the mark 1; how many of them have it not yet.
fn mark_couple(table: &[u32], marks: &mut [u8], i: u32, x: u32) -> u32
    requires { (Linked table.now) × (i < 4) × (live table.now x ≡ true) × (Wide table.now marks.old) }
    ensures { Marking (Couple table.now i x) marks.old marks.new result }
{
    let y = reading::link_in(table, i as usize, x);
    let own = mark(marks, x);
    let other = mark(marks, y);
    own + other
}

// The darts of d's side and their partners get the mark 1; how many of them have it not yet. The side is walked by its links in turn:
// the darts after each turn, and those on the way.
fn mark_side(n: u32, table: &[u32], marks: &mut [u8], i: u32, d: u32) -> u32
    requires { (OnSide n table.now i d) × (Wide table.now marks.old) }
    ensures { Marking (Unsewn n table.now i d) marks.old marks.new result }
{
    let links = sides::side_links(n, i);
    let a = links.a;
    let b = links.b;
    let mut x = d;
    let mut size = 0;
    loop {
        let p = reading::link_in(table, a as usize, x);
        size += mark_couple(table, marks, i, x);
        size += mark_couple(table, marks, i, p);
        x = reading::link_in(table, b as usize, p);
        if x == d {
            return size;
        }
    }
}

// unsew, where its checks have passed, with marks for the slots, of which none is set, and groups that all count as marked: one entry
// changes for each dart that is marked.
fn unsew_in(
    n: u32,
    table: &mut [u32],
    journal: &mut [u32],
    tag: u32,
    i: u32,
    d: u32,
    marks: &mut [u8],
    groups: &[u8],
) -> Answer
    requires d_value { in_order (unsew_checks n table.old journal.old i d) ≡ pass }
    requires by_index { ((x : ℕ) → Marked marks.old x → ⊥) × (Wide table.old marks.old) × (Full marks.old groups.now) }
    ensures { outcome result table.new [] journal.new
        ≡ unsew_call n table.old journal.old tag i d }
{
    let changes = mark_side(n, table, marks, i, d);
    if !journal::record_fits(journal, changes) {
        return Err(Reason::NoRoom.into());
    }
    marked_links::write_marked(table, journal, marks, groups, i, false);
    drafts::carry_out(table, journal, changes, tag);
    Ok(Done {
        place: 0,
        count: changes,
    })
}

// The same with so many marks and groups. Each size has a stack frame of its own, which smaller tables and refusals do not
// pay for.
#[inline(never)]
fn unsew_with<const SLOTS: usize, const GROUPS: usize>(
    n: u32,
    table: &mut [u32],
    journal: &mut [u32],
    tag: u32,
    i: u32,
    d: u32,
) -> Answer
    requires d_value { in_order (unsew_checks n table.old journal.old i d) ≡ pass }
    requires room { (slots table.old ≤ SLOTS) × (SLOTS ≤ 65536) × (SLOTS ≡ 256 * GROUPS) }
    ensures { outcome result table.new [] journal.new
        ≡ unsew_call n table.old journal.old tag i d }
{
    let mut marks = [0u8; SLOTS];
    let groups = [1u8; GROUPS];
    unsew_in(n, table, journal, tag, i, d, &mut marks, &groups)
}

// "Count: entries changed." A small table does not pay for clearing large buffers.
pub fn unsew(n: u32, table: &mut [u32], journal: &mut [u32], tag: u32, i: u32, d: u32) -> Answer
    ensures { outcome result table.new [] journal.new
        ≡ unsew_call n table.old journal.old tag i d }
{
    answers::opening_side(n, table, reading::journal_fits(journal), i, d)?;
    if reading::is_free(table, i, d) {
        return Err(Reason::Free.into());
    }
    if table.len() <= 4 * SMALL {
        return unsew_with::<SMALL, SMALL_GROUPS>(n, table, journal, tag, i, d);
    }
    if table.len() <= 4 * MIDDLE {
        return unsew_with::<MIDDLE, MIDDLE_GROUPS>(n, table, journal, tag, i, d);
    }
    unsew_with::<LARGE, LARGE_GROUPS>(n, table, journal, tag, i, d)
}
