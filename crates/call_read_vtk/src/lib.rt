// read_vtk: the cells of a VTK legacy text, in a table with no live slot. The call takes any input, and its contract is an equation with
// the model's definition of the call.
#![tactic(auto)]

ghost use Rattle.std.specs.Prelude.{◌≡◌, true, not, List, [], ℕ, ◌≤◌, ◌<◌};
ghost use Rattle.model.specs.Lists.{all_below};
ghost use Rattle.model.specs.Table.{slots, live};
ghost use Rattle.model.specs.Checks.{pass, in_order, table_ok};
ghost use Rattle.model.specs.Calls.{vtk_call};
ghost use Rattle.answers.specs.Answers.{outcome};
ghost use Rattle.answers.specs.Openings.{Settles};
ghost use Rattle.vtk_faces.specs.Texts.{CellsAt, SomeCellsAt};
ghost use Rattle.call_read_vtk.specs.Formed.{empty_checks, Formed, Lent, CellsHeld, SomeCellsHeld, Judged, JudgedHeld, Checked, SomeChecked};

use answers::{Answer, Done, Reason, Refused};
use reading::UNUSED;
use vtk_form::NoForm;

// Whether no slot is live: the bits that all entries have in common are those of an unused one.
fn is_empty(table: &[u32]) -> bool
    requires { table_ok table.now ≡ pass }
    ensures { result ≡ all_below (slots table.now) (λ d. not (live table.now d)) }
{
    table.iter().fold(UNUSED, |common, entry| common & *entry) == UNUSED
}

// Whether the checks up to 18 pass; where no slot is live, the table is a map.
fn opens_empty(n: u32, table: &[u32], journal: &[u32]) -> bool
    ensures { result ≡ true → in_order (empty_checks n table.now journal.now) ≡ pass }
{
    if n != 3 {
        return false;
    }
    if !reading::table_fits(table) {
        return false;
    }
    if !reading::journal_fits(journal) {
        return false;
    }
    is_empty(table)
}

// The checks up to 18, one after the other: passes where they pass, else the refusal.
fn open_table(n: u32, table: &[u32], journal: &[u32]) -> Result<(), Refused>
    ensures { Settles result (in_order (empty_checks n table.now journal.now)) }
{
    if n != 3 {
        return Err(Reason::WrongDimension.into());
    }
    answers::opening(n, table, true, reading::journal_fits(journal))?;
    if !is_empty(table) {
        return Err(Reason::NotEmpty.into());
    }
    Ok(())
}

// The same, for a read that is most often of an empty table.
fn open_read(n: u32, table: &[u32], journal: &[u32]) -> Result<(), Refused>
    ensures { Settles result (in_order (empty_checks n table.now journal.now)) }
{
    if opens_empty(n, table, journal) {
        return Ok(());
    }
    open_table(n, table, journal)
}

// 21 to 23 for no more cells than a table takes: the first that refuses.
fn judge_few(
    rows: &[u64],
    cells: usize,
    heads: &mut [u16],
    nexts: &mut [u16],
    mates: &mut [u16],
) -> Result<(), Reason>
    requires { (SomeCellsHeld rows.now cells) × (cells ≤ 1365) × (Lent rows.now heads.old nexts.old mates.old) }
    ensures { (rs : List (List ℕ)) → CellsHeld rows.now cells rs → JudgedHeld rs mates.new result }
{
    if vtk_faces::repeated(rows, cells) {
        return Err(Reason::VertexRepeated);
    }
    vtk_faces::judge_held(rows, cells, heads, nexts, mates)
}

// The same for any number of cells.
fn judge_many(
    text: &[u8],
    at: usize,
    cells: usize,
    rows: &mut [u64],
    heads: &mut [u16],
    nexts: &mut [u16],
    mates: &mut [u16],
) -> Result<(), Reason>
    requires { (SomeCellsAt text.now at cells) × (Lent rows.old heads.old nexts.old mates.old) }
    ensures { (rs : List (List ℕ)) → CellsAt text.now at cells rs → Judged rs result }
{
    if vtk_faces::any_repeated(text, at, cells, rows) {
        return Err(Reason::VertexRepeated);
    }
    vtk_faces::judge(text, at, cells, rows, heads, nexts, mates)
}

// Behind 23: 14, 15, and the record.
fn place_cells(
    table: &mut [u32],
    journal: &mut [u32],
    tag: u32,
    mates: &[u16],
    cells: usize,
) -> Answer
    requires { (SomeChecked table.old journal.old mates.now cells) × (cells ≤ 1365) }
    ensures { (text : List ℕ) → Checked table.old journal.old text mates.now cells
        → outcome result table.new [] journal.new
        ≡ vtk_call 3 table.old journal.old tag text }
{
    if table.len() < 192 * cells {
        return Err(Reason::TooFewSlots.into());
    }
    let changes = 192 * cells as u32;
    if !journal::record_fits(journal, changes) {
        return Err(Reason::NoRoom.into());
    }
    vtk_table::write_cells(table, journal, mates, cells);
    drafts::close_record(journal, changes, tag);
    Ok(Done {
        place: 0,
        count: 48 * cells as u32,
    })
}

// The read of more cells than any table takes: it is refused, by 21 to 23 or by 14.
fn read_many(
    text: &[u8],
    at: usize,
    cells: usize,
    rows: &mut [u64],
    heads: &mut [u16],
    nexts: &mut [u16],
    mates: &mut [u16],
) -> Answer
    requires { (SomeCellsAt text.now at cells) × (1365 < cells) × (Lent rows.old heads.old nexts.old mates.old) }
    ensures { (t j : List ℕ) (tag : ℕ) → Formed t j text.now rows.old at cells
        → outcome result t [] j ≡ vtk_call 3 t j tag text.now }
{
    judge_many(text, at, cells, rows, heads, nexts, mates)?;
    Err(Reason::TooFewSlots.into())
}

// The read where the checks up to 20 have passed.
fn read_formed(
    table: &mut [u32],
    journal: &mut [u32],
    tag: u32,
    text: &[u8],
    at: usize,
    cells: usize,
    rows: &mut [u64],
    heads: &mut [u16],
    nexts: &mut [u16],
    mates: &mut [u16],
) -> Answer
    requires { (Formed table.old journal.old text.now rows.old at cells)
        × (Lent rows.old heads.old nexts.old mates.old) }
    ensures { outcome result table.new [] journal.new
        ≡ vtk_call 3 table.old journal.old tag text.now }
{
    if cells > 1365 {
        return read_many(text, at, cells, rows, heads, nexts, mates);
    }
    judge_few(rows, cells, heads, nexts, mates)?;
    place_cells(table, journal, tag, mates, cells)
}

// The read where the checks up to 18 have passed. As it calls itself it has a stack frame of its own, so that the checks before do not pay
// for its buffers; the table fits, so it never does. (With #[inline(never)] import, whose table has one size, would clear its journal of
// 3 MiB first, for nothing.)
fn read_cells(table: &mut [u32], journal: &mut [u32], tag: u32, text: &[u8]) -> Answer
    requires { in_order (empty_checks 3 table.old journal.old) ≡ pass }
    ensures { outcome result table.new [] journal.new
        ≡ vtk_call 3 table.old journal.old tag text.now }
{
    if !reading::table_fits(table) {
        let _ = read_cells(table, journal, tag, text);
        return Err(Reason::WrongTableLength.into());
    }
    let mut rows = [0u64; 10920];
    let mut heads = [0u16; 16384];
    let mut nexts = [0u16; 8191];
    let mut mates = [0u16; 8191];
    let form = match vtk_form::read_form(text, &mut rows) {
        Ok(form) => form,
        Err(NoForm::WrongForm) => return Err(Reason::WrongForm.into()),
        Err(NoForm::OtherType(_)) => return Err(Reason::OtherType.into()),
    };
    read_formed(
        table,
        journal,
        tag,
        text,
        form.at,
        form.cells as usize,
        &mut rows,
        &mut heads,
        &mut nexts,
        &mut mates,
    )
}

// "Place 0; count: darts added; n = 2 is refused by 1."
pub fn read_vtk(n: u32, table: &mut [u32], journal: &mut [u32], tag: u32, text: &[u8]) -> Answer
    ensures { outcome result table.new [] journal.new
        ≡ vtk_call n table.old journal.old tag text.now }
{
    open_read(n, table, journal)?;
    read_cells(table, journal, tag, text)
}
