// add: one free cell in the lowest unused slots. The call takes any input, and its contract is an equation with the model's
// definition of the call.
#![tactic(auto)]

ghost use Rattle.std.specs.Prelude.{◌≡◌, List, [], ℕ, ◌≤◌, ◌<◌, length, get_or};
ghost use Rattle.model.specs.Cell.{cell_size};
ghost use Rattle.model.specs.Numbering.{cell_link};
ghost use Rattle.model.specs.Journal.{changes_from};
ghost use Rattle.model.specs.Add.{add_table};
ghost use Rattle.model.specs.Calls.{add_call};
ghost use Rattle.model.specs.Meaning.Maps.{Dim};
ghost use Rattle.drafts.specs.Drafts.{drafted};
ghost use Rattle.answers.specs.Answers.{outcome};
ghost use Rattle.call_add.specs.NewCell.{NewCell, SomeCell};

use answers::{Answer, Done, Reason};
use reading::UNUSED;

// Link i of the k-th dart of the new cell, whose slots are `fresh`.
fn cell_slot(n: u32, fresh: &[u16], i: u32, k: u32) -> u32
    requires { (Dim n) × (i < 4) × (k < cell_size n) × (cell_size n ≤ length fresh.now) }
    ensures { result ≡ get_or fresh.now (cell_link n i k) 0 }
{
    fresh[numbering::cell_link(n, i, k) as usize] as u32
}

// Drafts the record: four entries for each slot of the new cell.
fn write_cell(n: u32, journal: &mut [u32], fresh: &[u16], size: u32)
    requires { SomeCell n fresh.now size journal.old }
    ensures { (t : List ℕ) → NewCell n t fresh.now size journal.old
        → journal.new ≡ drafted journal.old (changes_from 0 t (add_table n t)) }
{
    let mut w = journal[0] as usize + 2;
    for k in 0..size {
        let x = fresh[k as usize] as u32;
        let links = [
            cell_slot(n, fresh, 0, k),
            cell_slot(n, fresh, 1, k),
            cell_slot(n, fresh, 2, k),
            cell_slot(n, fresh, 3, k),
        ];
        drafts::write_slot(journal, w, x, [UNUSED; 4], links);
        w += 12;
    }
}

// "Place: first slot. Count: 8 or 48."
pub fn add(n: u32, table: &mut [u32], journal: &mut [u32], tag: u32) -> Answer
    ensures { outcome result table.new [] journal.new
        ≡ add_call n table.old journal.old tag }
{
    answers::opening(n, table, true, reading::journal_fits(journal))?;
    let size = numbering::cell_size(n);
    let mut fresh = [0u16; 48];
    let listed = scans::list_unused(table, &mut fresh, size);
    let too_few = listed != size;
    if too_few {
        return Err(Reason::TooFewSlots.into());
    }
    let changes = 4 * size;
    if !journal::record_fits(journal, changes) {
        return Err(Reason::NoRoom.into());
    }
    write_cell(n, journal, &fresh, size);
    drafts::carry_out(table, journal, changes, tag);
    Ok(Done {
        place: fresh[0] as u32,
        count: size,
    })
}
