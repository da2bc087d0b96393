// remove: a layer of cells is taken away. The call takes any input, and its contract is an equation with the model's definition of
// the call.
#![tactic(auto)]

ghost use Rattle.std.specs.Prelude.{◌≡◌, List, ℕ, ◌+◌, ◌*◌, ◌≤◌, ◌<◌, length, get_or};
ghost use Rattle.model.specs.Lists.{count};
ghost use Rattle.model.specs.Table.{slots};
ghost use Rattle.model.specs.Journal.{changes_from};
ghost use Rattle.model.specs.Remove.{count_marked, removed};
ghost use Rattle.model.specs.Checks.{pass, in_order, layer_checks};
ghost use Rattle.model.specs.Calls.{remove_call};
ghost use Rattle.drafts.specs.Drafts.{drafted};
ghost use Rattle.answers.specs.Answers.{outcome};
ghost use Rattle.call_remove.specs.Removing.{Removing, Clearing, ToClear};

use answers::{Answer, Done, Reason};
use reading::{LARGE_HALF, MIDDLE, MIDDLE_HALF, SMALL, SMALL_HALF, UNUSED};
use scans::{skip_blocks, skip_clear};
use walk::first_outside;

mod walk;

// How many darts are taken away, and how many are at the edge: these remain, and their link n led to a dart taken away.
#[derive(Clone, Copy)]
struct Counts {
    darts: u32,
    edge: u32,
}

// Those with the marks 1 and 2, and those with the mark 3, of a sheet's marks.
fn count_layer(marks: &[u8]) -> Counts
    requires { (length marks.now ≤ 65536) × ((x : ℕ) → x < length marks.now → get_or marks.now x 0 ≤ 3) }
    ensures { (result.darts ≡ count_marked marks.now) × (result.edge ≡ count 3 marks.now)
        × (result.darts + result.edge ≤ length marks.now) }
{
    let mut darts: u32 = 0;
    let mut edge: u32 = 0;
    for &mark in marks {
        if mark == 3 {
            edge += 1;
        }
        if (mark != 0) & (mark != 3) {
            darts += 1;
        }
    }
    Counts { darts, edge }
}

// A pass of the record comes to the slot x, which has a mark, with the next triple at the word w: at the edge link n becomes the first
// dart outside, else the slot becomes unused. The word of the next triple.
fn write_one(n: u32, table: &[u32], journal: &mut [u32], marks: &[u8], w: usize, x: u32) -> usize
    requires { ToClear n table.now marks.now x w journal.old }
    ensures { (j : List ℕ) → Clearing n table.now marks.now j x w journal.old
        → Clearing n table.now marks.now j (x + 1) result journal.new }
{
    let at_edge = marks[x as usize] == 3;
    if at_edge {
        let y = reading::link_in(table, n as usize, x);
        drafts::write_link(journal, w, x, n, y, first_outside(n, table, marks, x));
        return w + 3;
    }
    drafts::write_slot(journal, w, x, reading::links_in(table, x), [UNUSED; 4]);
    w + 12
}

// Drafts the record: the slots without a mark stay.
fn write_layer(n: u32, table: &[u32], journal: &mut [u32], marks: &[u8])
    requires { Removing n table.now marks.now journal.old }
    ensures { journal.new ≡ drafted journal.old
        (changes_from 0 table.now (removed n table.now marks.now)) }
{
    let mut w = journal[0] as usize + 2;
    let mut x = skip_blocks(marks, 0);
    while x < marks.len() {
        if marks[x] != 0 {
            w = write_one(n, table, journal, marks, w, x as u32);
        }
        x = skip_clear(marks, x + 1);
    }
}

// remove where the checks up to 8 have passed; the work list has a word for every two slots.
fn remove_in(
    n: u32,
    table: &mut [u32],
    marks: &mut [u8],
    journal: &mut [u32],
    tag: u32,
    d: u32,
    work: &mut [u16],
) -> Answer
    requires d_value { in_order (layer_checks n table.old marks.old journal.old d) ≡ pass }
    requires table_bound { slots table.old ≤ 2 * length work.old }
    ensures { outcome result table.new marks.new journal.new
        ≡ remove_call n table.old marks.old journal.old tag d }
{
    sheets::sheet(n, table, marks, work, d);
    let counts = count_layer(marks);
    let changes = 4 * counts.darts + counts.edge;
    if !journal::record_fits(journal, changes) {
        return Err(Reason::NoRoom.into());
    }
    write_layer(n, table, journal, marks);
    drafts::carry_out(table, journal, changes, tag);
    Ok(Done {
        place: 0,
        count: counts.darts,
    })
}

// The same with a work list of so many words. Each size has a stack frame of its own, which smaller tables and refusals do not
// pay for.
#[inline(never)]
fn remove_with<const WORDS: usize>(
    n: u32,
    table: &mut [u32],
    marks: &mut [u8],
    journal: &mut [u32],
    tag: u32,
    d: u32,
) -> Answer
    requires d_value { in_order (layer_checks n table.old marks.old journal.old d) ≡ pass }
    requires room { (slots table.old ≤ 2 * WORDS) × (WORDS ≤ 32768) }
    ensures { outcome result table.new marks.new journal.new
        ≡ remove_call n table.old marks.old journal.old tag d }
{
    let mut work = [0u16; WORDS];
    remove_in(n, table, marks, journal, tag, d, &mut work)
}

// "cells with marks 1 or 2 become unused." "Count: darts removed."
pub fn remove(
    n: u32,
    table: &mut [u32],
    marks: &mut [u8],
    journal: &mut [u32],
    tag: u32,
    d: u32,
) -> Answer
    ensures { outcome result table.new marks.new journal.new
        ≡ remove_call n table.old marks.old journal.old tag d }
{
    answers::opening_layer(
        n,
        table,
        reading::marks_fit(table, marks),
        reading::journal_fits(journal),
        d,
    )?;
    if table.len() <= 4 * SMALL {
        return remove_with::<SMALL_HALF>(n, table, marks, journal, tag, d);
    }
    if table.len() <= 4 * MIDDLE {
        return remove_with::<MIDDLE_HALF>(n, table, marks, journal, tag, d);
    }
    remove_with::<LARGE_HALF>(n, table, marks, journal, tag, d)
}
