// undo and redo: the record before the cursor is taken back, or the one at the cursor put again. `step` is both.
#![tactic(auto)]

ghost use Rattle.std.specs.Prelude.{◌+◌, ◌≤◌, ◌≡◌, []};
ghost use Rattle.model.specs.Journal.{record_length};
ghost use Rattle.model.specs.Checks.{pass, dim_ok, table_ok, journal_ok};
ghost use Rattle.model.specs.Calls.{step_outcome, undo_call, redo_call};
ghost use Rattle.answers.specs.Answers.{outcome};

use answers::{Answer, Done, Reason};

// Puts the new values (redo), or the old ones, of the record of k changes at the word a, and moves the cursor to `to`; the
// record's tag is the place. If it is broken or the result no map, table and journal are left as they were: 17.
fn step(
    redo: bool,
    n: u32,
    table: &mut [u32],
    journal: &mut [u32],
    a: usize,
    k: u32,
    to: usize,
) -> Answer
    requires n_value { (dim_ok n ≡ pass) × (table_ok table.old ≡ pass) × (journal_ok journal.old ≡ pass) }
    requires to_bound { to ≤ a + record_length k }
    ensures { outcome result table.new [] journal.new
        ≡ step_outcome redo n table.old journal.old a k to }
{
    if !journal::unbroken(redo, table, journal, a, k) {
        return Err(Reason::BrokenRecord.into());
    }
    journal::put_record(redo, table, journal, a, k as usize);
    if !reading::is_map(n, table) {
        journal::put_record(!redo, table, journal, a, k as usize);
        return Err(Reason::BrokenRecord.into());
    }
    let tag = journal[a + 1];
    journal[0] = to as u32;
    Ok(Done {
        place: tag,
        count: k,
    })
}

// Puts back the old values of the record before the cursor, and moves the cursor before it. The record's tag is the place.
// "Count: entries changed."
pub fn undo(n: u32, table: &mut [u32], journal: &mut [u32]) -> Answer
    ensures { outcome result table.new [] journal.new
        ≡ undo_call n table.old journal.old }
{
    answers::opening(n, table, true, reading::journal_fits(journal))?;
    let none_stands = journal[0] == 2;
    if none_stands {
        return Err(Reason::NoRecord.into());
    }
    let found = journal::undo_start(journal);
    step(
        false,
        n,
        table,
        journal,
        found.start,
        found.count,
        found.start,
    )
}

// Puts back the new values of the record at the cursor, and moves the cursor behind it. The record's tag is the place.
// "Count: entries changed."
pub fn redo(n: u32, table: &mut [u32], journal: &mut [u32]) -> Answer
    ensures { outcome result table.new [] journal.new
        ≡ redo_call n table.old journal.old }
{
    answers::opening(n, table, true, reading::journal_fits(journal))?;
    if journal[0] == journal[1] {
        return Err(Reason::NoRecord.into());
    }
    let a = journal[0] as usize;
    let k = journal[a];
    step(true, n, table, journal, a, k, a + journal::record_length(k))
}
