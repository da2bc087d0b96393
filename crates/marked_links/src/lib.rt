// The record of sew and unsew: link i of marked darts changes, from the dart itself to another dart, or back.
#![tactic(auto)]

ghost use Rattle.std.specs.Prelude.{◌≡◌, true, false, List, ℕ, ◌+◌, ◌≤◌, ◌<◌, length};
ghost use Rattle.model.specs.Journal.{changes_from};
ghost use Rattle.scans.specs.Clear.{Grouped, Skips};
ghost use Rattle.drafts.specs.Drafts.{drafted};
ghost use Rattle.marked_links.specs.Marked.{before, after, MarkedRecord, SomeMarkedRecord, MarkedPass, ToMarked, ToSome};

// A link and the one that takes its place: where it sews, from the dart x itself to y, else back.
// sews stays a bool here and below: it is the Bool of `before` and `after`, which the clauses of all these functions name.
fn old_and_new(sews: bool, x: u32, y: u32) -> (u32, u32)
    ensures old { result.0 ≡ elim sews [ true ↦ x | false ↦ y ] }
    ensures new { result.1 ≡ elim sews [ true ↦ y | false ↦ x ] }
{
    if sews { (x, y) } else { (y, x) }
}

// A pass of that record comes to the slot x, with the next triple at the word w: where x is marked, the triple is written; the word of
// the next one.
fn write_one(
    table: &[u32],
    journal: &mut [u32],
    marks: &[u8],
    i: u32,
    sews: bool,
    w: usize,
    x: u32,
) -> usize
    requires { ToMarked sews table.now marks.now i x w journal.old }
    ensures { (v j : List ℕ) → MarkedPass sews table.now v marks.now i j x w journal.old
        → MarkedPass sews table.now v marks.now i j (x + 1) result journal.new }
{
    if marks[x as usize] != 1 {
        return w;
    }
    let y = reading::link_in(table, i as usize, x);
    let (old, new) = old_and_new(sews, x, y);
    drafts::write_link(journal, w, x, i, old, new);
    w + 3
}

// The slots from x to before y, one after the other.
fn write_some(
    table: &[u32],
    journal: &mut [u32],
    marks: &[u8],
    i: u32,
    sews: bool,
    w: usize,
    x: u32,
    y: u32,
) -> usize
    requires { ToSome sews table.now marks.now i x y w journal.old }
    ensures { (v j : List ℕ) → MarkedPass sews table.now v marks.now i j x w journal.old
        → MarkedPass sews table.now v marks.now i j y result journal.new }
{
    let mut at = w;
    for z in x..y {
        at = write_one(table, journal, marks, i, sews, at, z);
    }
    at
}

// The end of a block of 32 slots that begins at x, or of all.
fn block_end(x: usize, end: usize) -> usize
    requires { x < end }
    ensures { (x < result) × (result ≤ end) }
{
    x + (end - x).min(32)
}

// From y on past marks that are 0, but not where y is the end of all slots.
fn skip_to(marks: &[u8], groups: &[u8], y: usize, end: usize) -> usize
    requires { (Grouped marks.now groups.now) × (y ≤ length marks.now) }
    ensures { Skips marks.now y result }
{
    if y < end {
        scans::skip_grouped(marks, groups, y)
    } else {
        y
    }
}

// Drafts the record of the change between the table and the one in which the darts marked with 1 are i-free: where it sews, to the
// table, else from it. It costs what the groups with a mark cost.
pub fn write_marked(
    table: &[u32],
    journal: &mut [u32],
    marks: &[u8],
    groups: &[u8],
    i: u32,
    sews: bool,
)
    requires some_marked_record { SomeMarkedRecord sews table.now marks.now i journal.old }
    requires grouped { Grouped marks.now groups.now }
    ensures { (v : List ℕ) → MarkedRecord sews table.now v marks.now i journal.old
        → journal.new ≡ drafted journal.old
        (changes_from 0 (before sews table.now v) (after sews table.now v)) }
{
    let end = reading::slots(table) as usize;
    let mut w = journal[0] as usize + 2;
    let mut x = scans::skip_grouped(marks, groups, 0);
    while x < end {
        let y = block_end(x, end);
        w = write_some(table, journal, marks, i, sews, w, x as u32, y as u32);
        x = skip_to(marks, groups, y, end);
    }
}
