// Whether a text is of the form of 02, R-1, read from front to back: the version and the title, POINTS, CELLS, CELL_TYPES.
// Each pass ends with the text's words, whatever the counts say.
#![tactic(auto)]

ghost use Rattle.std.specs.Prelude.{◌≡◌, false, ◌&&◌, List, [], ◌∷◌, ℕ, ◌+◌, ◌≤◌, ◌<◌, length, drop, set};
ghost use Rattle.std.proofs.Math.Option.{some};
ghost use Rattle.model.specs.Lists.{all_of};
ghost use Rattle.model.specs.Text.{bytes};
ghost use Rattle.model.specs.Vtk.{behind_line, behind_title, behind_words, words, counted, numbers, types_of, eights};
ghost use Rattle.model.specs.Meaning.Vtk.{rows_from};
ghost use Rattle.vtk_words.specs.Words.{PlaceOf, large};
ghost use Rattle.vtk_form.specs.Parts.{LineOf, PointsOf, RoomOf, RowOf, RowsOf, CellsOf, CountOf, TypeOf, TypesOf, types_left, is_eight};
ghost use Rattle.vtk_form.specs.Form.{GridOf, FormOf};

use vtk_words::{Decimal, NoDecimal};

// ---- the lines

fn behind_line(text: &[u8], at: usize) -> Option<usize>
    ensures { LineOf text.now (behind_line (drop at text.now)) result }
{
    let rest = text.get(at..)?;
    let k = rest.iter().position(|&b| b == b'\n')?;
    Some(at + k + 1)
}

// "version 2.0 or 3.0: version line, title line"
fn behind_title(text: &[u8]) -> Option<usize>
    ensures { LineOf text.now (behind_title text.now) result }
{
    if texts::begins(b"# vtk DataFile Version 2.0\n", text)
        || texts::begins(b"# vtk DataFile Version 3.0\n", text)
    {
        return behind_line(text, 27);
    }
    None
}

// ---- POINTS

fn behind_keys(text: &[u8], at: usize) -> Option<usize>
    requires { at ≤ length text.now }
    ensures { PlaceOf text.now (behind_words
        (bytes "ASCII" ∷ bytes "DATASET" ∷ bytes "UNSTRUCTURED_GRID" ∷ bytes "POINTS" ∷ []) (words (drop at text.now))) result }
{
    let dataset = vtk_words::behind_word(text, at, b"ASCII")?;
    let kind = vtk_words::behind_word(text, dataset, b"DATASET")?;
    let points = vtk_words::behind_word(text, kind, b"UNSTRUCTURED_GRID")?;
    vtk_words::behind_word(text, points, b"POINTS")
}

// The number of points, and the place behind them.
#[derive(Clone, Copy)]
struct Points {
    count: u64,
    end: usize,
}

// "POINTS (three words a point, skipped)"
fn behind_points(text: &[u8], at: usize) -> Option<Points>
    requires { at ≤ length text.now }
    ensures { PointsOf text.now at result }
{
    let behind = behind_keys(text, at)?;
    let Decimal {
        value: count,
        end: word,
    } = vtk_words::number_at(text, behind).ok()?;
    let first = vtk_words::skip_words(text, word, 1);
    let second = vtk_words::skip_words(text, first, count);
    let third = vtk_words::skip_words(text, second, count);
    let end = vtk_words::skip_words(text, third, count);
    Some(Points { count, end })
}

// ---- CELLS

// The words of the buffer that keep the i-th row: eight, or none where it ends before.
#[derive(Clone, Copy)]
struct Room {
    base: usize,
    words: u64,
}

fn room_for(i: u64, len: usize) -> Room
    ensures { RoomOf i len result.base result.words }
{
    if i < len as u64 / 8 {
        return Room {
            base: 8 * i as usize,
            words: 8,
        };
    }
    Room { base: 0, words: 0 }
}

// The i-th number of a row goes into the buffer, if it has a word for it.
fn keep(i: u64, v: u64, base: usize, room: u64, rows: &mut [u64])
    requires { base + room ≤ length rows.old }
    ensures { (i < room → rows.new ≡ set rows.old (base + i) v)
        × (room ≤ i → rows.new ≡ rows.old) }
{
    if i < room {
        rows[base + i as usize] = v;
    }
}

// A row: k numbers, of which "each number names a point". The first of them go into the `room` words of the buffer from `base` on.
fn behind_row(
    text: &[u8],
    at: usize,
    k: u64,
    points: u64,
    base: usize,
    room: u64,
    rows: &mut [u64],
) -> Option<usize>
    requires { (at ≤ length text.now) × (points < large) × (base + room ≤ length rows.old) }
    ensures { RowOf text.now at k points base room rows.old rows.new result }
{
    let mut p = at;
    for i in 0..k {
        let Decimal { value: v, end } = vtk_words::number_at(text, p).ok()?;
        if v >= points {
            return None;
        }
        keep(i, v, base, room, rows);
        p = end;
    }
    Some(p)
}

// The rows: whether all have 8 numbers, and the place behind them.
#[derive(Clone, Copy)]
struct Rows {
    eight: bool,
    end: usize,
}

// n rows in `size` words, each behind its length. The buffer keeps those that have 8 numbers.
fn behind_rows(
    text: &[u8],
    at: usize,
    n: u64,
    size: u64,
    points: u64,
    rows: &mut [u64],
) -> Option<Rows>
    requires { (at ≤ length text.now) × (size < large) × (points < large) }
    ensures { RowsOf text.now at n size points rows.new result }
{
    let mut p = at;
    let mut left = size;
    let mut eight = true;
    for i in 0..n {
        let Decimal {
            value: k,
            end: start,
        } = vtk_words::number_at(text, p).ok()?;
        if k >= left {
            return None;
        }
        let room = room_for(i, rows.len());
        p = behind_row(text, start, k, points, room.base, room.words, rows)?;
        left = left - 1 - k;
        eight &= k == 8;
    }
    let some_left = left > 0;
    if some_left {
        return None;
    }
    Some(Rows { eight, end: p })
}

// The cells: their number, where their rows begin, whether all have 8 numbers, and the place behind them.
#[derive(Clone, Copy)]
struct Cells {
    count: u64,
    at: usize,
    eight: bool,
    end: usize,
}

fn behind_cells(text: &[u8], at: usize, points: u64, rows: &mut [u64]) -> Option<Cells>
    requires { (at ≤ length text.now) × (points < large) }
    ensures { CellsOf text.now at points rows.new result }
{
    let counts = vtk_words::behind_word(text, at, b"CELLS")?;
    let Decimal {
        value: count,
        end: second,
    } = vtk_words::number_at(text, counts).ok()?;
    let Decimal {
        value: size,
        end: first,
    } = vtk_words::number_at(text, second).ok()?;
    let Rows { eight, end } = behind_rows(text, first, count, size, points, rows)?;
    Some(Cells {
        count,
        at: first,
        eight,
        end,
    })
}

// ---- CELL_TYPES

// Behind the count, which is that of the cells.
fn behind_count(text: &[u8], at: usize, n: u64) -> Option<usize>
    requires { (at ≤ length text.now) × (n < large) }
    ensures { CountOf text.now n (types_of n (words (drop at text.now))) result }
{
    let count = vtk_words::behind_word(text, at, b"CELL_TYPES")?;
    let Decimal {
        value: m,
        end: first,
    } = vtk_words::number_at(text, count).ok()?;
    if m != n {
        return None;
    }
    Some(first)
}

// A type, which may be any number: whether it is 12, and the place behind it.
#[derive(Clone, Copy)]
struct CellType {
    twelve: bool,
    end: usize,
}

fn type_at(text: &[u8], at: usize) -> Option<CellType>
    requires { at ≤ length text.now }
    ensures { TypeOf text.now (counted (words (drop at text.now))) result }
{
    match vtk_words::number_at(text, at) {
        Ok(Decimal { value, end }) => Some(CellType {
            twelve: value == 12,
            end,
        }),
        Err(NoDecimal::Large(end)) => Some(CellType { twelve: false, end }),
        Err(NoDecimal::Unfit) => None,
    }
}

// n types, "then nothing"; whether all are 12.
fn all_types(text: &[u8], at: usize, n: u64) -> Option<bool>
    requires { at ≤ length text.now }
    ensures { TypesOf (types_left n (words (drop at text.now))) result }
{
    let mut p = at;
    let mut all = true;
    for _ in 0..n {
        let CellType { twelve, end } = type_at(text, p)?;
        all &= twelve;
        p = end;
    }
    if vtk_words::word_start(text, p) < text.len() {
        return None;
    }
    Some(all)
}

// ---- "a type 12 row has 8 numbers"

// The lengths of n rows beside n types.
fn eights_beside(text: &[u8], at: usize, first: usize, n: u64) -> bool
    requires { (at ≤ length text.now) × (first ≤ length text.now) }
    ensures { (rows : List (List ℕ)) → (size : ℕ) → size < large → rows_from n size (words (drop at text.now)) ≡ some rows
        → (ts : List ℕ) → numbers n (words (drop first text.now)) ≡ some ts → result ≡ eights rows ts }
{
    let mut p = at;
    let mut q = first;
    for _ in 0..n {
        let Ok(
            Decimal {
                value: k,
                end: start,
            },
        ) = vtk_words::number_at(text, p)
        else {
            return true;
        };
        let Some(CellType { twelve, end }) = type_at(text, q) else {
            return true;
        };
        if twelve & (k != 8) {
            return false;
        }
        p = vtk_words::skip_words(text, start, k);
        q = end;
    }
    true
}

// Where all rows have 8 numbers, no type asks for more.
fn eights_hold(text: &[u8], eight: bool, at: usize, first: usize, n: u64) -> bool
    requires { (at ≤ length text.now) × (first ≤ length text.now) }
    ensures { (rows : List (List ℕ)) → (size : ℕ) → size < large → rows_from n size (words (drop at text.now)) ≡ some rows
        → (ts : List ℕ) → numbers n (words (drop first text.now)) ≡ some ts → eight ≡ all_of is_eight rows → result ≡ eights rows ts }
{
    eight || eights_beside(text, at, first, n)
}

// ---- the form

// How many cells a text of the form has, and where their rows begin.
#[derive(Clone, Copy)]
pub struct Form {
    pub cells: u64,
    pub at: usize,
}

// The grid of a text: its form, and whether all cells are of type 12.
#[derive(Clone, Copy)]
struct Grid {
    form: Form,
    twelve: bool,
}

fn read_grid(text: &[u8], rows: &mut [u64]) -> Option<Grid>
    ensures { GridOf text.now rows.new result }
{
    let body = behind_title(text)?;
    let points = behind_points(text, body)?;
    let cells = behind_cells(text, points.end, points.count, rows)?;
    let n = cells.count;
    if n == 0 {
        return None;
    }
    let first = behind_count(text, cells.end, n)?;
    let twelve = all_types(text, first, n)?;
    if !eights_hold(text, cells.eight, cells.at, first, n) {
        return None;
    }
    Some(Grid {
        form: Form {
            cells: n,
            at: cells.at,
        },
        twelve,
    })
}

// Why `read_form` refuses: the text is not of the form; or it is, but not all its cells are of type 12, and this is its form.
#[derive(Clone, Copy)]
pub enum NoForm {
    WrongForm,
    OtherType(Form),
}

// The form of a text whose cells are all of type 12, or why there is none. The buffer keeps the rows of eight numbers, eight words to a
// row, as far as it goes.
pub fn read_form(text: &[u8], rows: &mut [u64]) -> Result<Form, NoForm>
    ensures { FormOf text.now rows.new result }
{
    let grid = read_grid(text, rows).ok_or(NoForm::WrongForm)?;
    if !grid.twelve {
        return Err(NoForm::OtherType(grid.form));
    }
    Ok(grid.form)
}
