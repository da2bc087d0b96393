// One sew on a table that is a map: its sides are walked, joined and recorded, at what they cost and not what the table costs.
ghost use Rattle.std.specs.Prelude.{◌≡◌, true, [], ℕ, ◌+◌, ◌*◌, ◌/◌, set};
ghost use Rattle.model.specs.Map.{is_map};
ghost use Rattle.model.specs.Checks.{pass, in_order, dim_ok, table_ok, sides_checks};
ghost use Rattle.model.specs.Calls.{sew_call};
ghost use Rattle.model.specs.Meaning.SewLists.{Ready};
ghost use Rattle.answers.specs.Answers.{outcome};
ghost use Rattle.answers.specs.Openings.{Settles};
ghost use Rattle.call_sew.specs.Joins.{Slot, Fit, Joining, SomeJoining, Joined, Unmarking, Blank, Lent};
ghost use Rattle.call_sew.specs.Items.{pair_checks};

use answers::{Answer, Done, Reason, Refused};
use reading::GROUP;

// Link i of x becomes y, and x gets the mark 1, its group too.
fn relink(table: &mut [u32], marks: &mut [u8], groups: &mut [u8], i: u32, x: u32, y: u32)
    requires { Fit table.old marks.old groups.old i x }
    ensures { (table.new ≡ set table.old (4 * x + i) y)
        × (marks.new ≡ set marks.old x 1)
        × (groups.new ≡ set groups.old (x / 256) 1) }
{
    table[4 * (x as usize) + i as usize] = y;
    marks[x as usize] = 1;
    groups[x as usize / GROUP] = 1;
}

// The darts listed in xs and their partners, in ys, are linked and get the mark 1.
fn join(
    table: &mut [u32],
    marks: &mut [u8],
    groups: &mut [u8],
    i: u32,
    xs: &[u16],
    ys: &[u16],
    size: u32,
)
    requires { SomeJoining table.old marks.old groups.old i xs.now ys.now size }
    ensures { (n d e : ℕ)
        → Joining n table.old marks.old groups.old i d e xs.now ys.now size
        → Joined n table.old i d e xs.now ys.now size
        table.new marks.new groups.new }
{
    // a zip of xs[..size] and ys[..size], word by word, says no more
    for k in 0..size {
        let x = xs[k as usize] as u32;
        let y = ys[k as usize] as u32;
        relink(table, marks, groups, i, x, y);
        relink(table, marks, groups, i, y, x);
    }
}

// x and its group lose their marks.
fn wipe(marks: &mut [u8], groups: &mut [u8], x: u16)
    requires { Slot marks.old groups.old x }
    ensures { (marks.new ≡ set marks.old x 0)
        × (groups.new ≡ set groups.old (x / 256) 0) }
{
    marks[x as usize] = 0;
    groups[x as usize / GROUP] = 0;
}

// The darts listed, which alone have marks, lose them, the last pair first. For long sides all marks are cleared, which is faster.
fn unmark(marks: &mut [u8], groups: &mut [u8], xs: &[u16], ys: &[u16], size: u32)
    requires { Unmarking marks.old groups.old xs.now ys.now size }
    ensures { Blank marks.new groups.new }
{
    if size as usize > marks.len() / 64 {
        scans::clear(marks);
        scans::clear(groups);
        return;
    }
    for k in (0..size).rev() {
        wipe(marks, groups, ys[k as usize]);
        wipe(marks, groups, xs[k as usize]);
    }
}

// Passes where the checks 6 to 10 pass, else the refusal.
fn pair_fits(n: u32, table: &[u32], i: u32, d: u32, e: u32) -> Result<(), Refused>
    requires { (dim_ok n ≡ pass) × (table_ok table.now ≡ pass) × (is_map n table.now ≡ true) }
    ensures { Settles result (in_order (pair_checks n table.now i d e)) }
{
    if i > n {
        return Err(Reason::OutOfRange.into());
    }
    if !reading::live(table, d) {
        return Err(Reason::NotLive.into());
    }
    if !reading::live(table, e) {
        return Err(Reason::NotLive.into());
    }
    if sides::meets(n, table, i, d, e) {
        return Err(Reason::SameSide.into());
    }
    if !(reading::is_free(table, i, d) & reading::is_free(table, i, e)) {
        return Err(Reason::NotFree.into());
    }
    Ok(())
}

// sew, where the checks up to 10 have passed, with a mark for each slot and two lists for half of them. No mark is set, before and
// after.
fn sew_pair(
    n: u32,
    table: &mut [u32],
    journal: &mut [u32],
    tag: u32,
    i: u32,
    d: u32,
    e: u32,
    marks: &mut [u8],
    groups: &mut [u8],
    xs: &mut [u16],
    ys: &mut [u16],
) -> Answer
    requires e_value { in_order (sides_checks n table.old journal.old i d e) ≡ pass }
    requires lent { Lent table.old marks.old groups.old xs.old ys.old }
    ensures { (outcome result table.new [] journal.new
        ≡ sew_call n table.old journal.old tag i d e)
        × (Blank marks.new groups.new) }
{
    let pairing = sides::in_step(n, table, i, d, e, xs, ys);
    let size = pairing.ok_or(Reason::NoPairing)?;
    let changes = 2 * size;
    if !journal::record_fits(journal, changes) {
        return Err(Reason::NoRoom.into());
    }
    join(table, marks, groups, i, xs, ys, size);
    marked_links::write_marked(table, journal, marks, groups, i, true);
    drafts::close_record(journal, changes, tag);
    unmark(marks, groups, xs, ys, size);
    Ok(Done {
        place: 0,
        count: changes,
    })
}

// sew, where the checks of the table and the journal have passed.
pub fn sew_item(
    n: u32,
    table: &mut [u32],
    journal: &mut [u32],
    tag: u32,
    i: u32,
    d: u32,
    e: u32,
    marks: &mut [u8],
    groups: &mut [u8],
    xs: &mut [u16],
    ys: &mut [u16],
) -> Answer
    requires ready { Ready n table.old journal.old }
    requires lent { Lent table.old marks.old groups.old xs.old ys.old }
    ensures { (outcome result table.new [] journal.new
        ≡ sew_call n table.old journal.old tag i d e)
        × (Blank marks.new groups.new) }
{
    pair_fits(n, table, i, d, e)?;
    sew_pair(n, table, journal, tag, i, d, e, marks, groups, xs, ys)
}
