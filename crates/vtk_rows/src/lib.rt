// The cells of a text that is of the form, read as rows of eight numbers into a lent buffer.
#![tactic(auto)]

ghost use Rattle.std.specs.Prelude.{ℕ, ◌+◌, ◌*◌, ◌≤◌, List, length};
ghost use Rattle.vtk_rows.specs.Rows.{RowAt, RowRead, EightsAt, EightsRead};

use vtk_words::Decimal;

// The eight numbers that stand next, from `base` on in the buffer; the place behind them.
fn read_row(text: &[u8], at: usize, base: usize, rows: &mut [u64]) -> usize
    requires { (at ≤ length text.now) × ((row : List ℕ) × RowAt text.now at row) × (base + 8 ≤ length rows.old) }
    ensures high { result ≤ length text.now }
    ensures read { (row : List ℕ) → RowAt text.now at row
        → RowRead text.now at row rows.old rows.new base result }
{
    let mut p = at;
    for word in rows[base..base + 8].iter_mut() {
        let Ok(Decimal { value, end }) = vtk_words::number_at(text, p) else {
            return p;
        };
        *word = value;
        p = end;
    }
    p
}

// The next k rows, each behind its length, from the buffer's start on; the place behind them.
pub fn read_rows(text: &[u8], at: usize, k: usize, rows: &mut [u64]) -> usize
    requires { ((rs : List (List ℕ)) × EightsAt text.now at k rs) × (8 * k ≤ length rows.old) }
    ensures { (rs : List (List ℕ)) → EightsAt text.now at k rs
        → EightsRead text.now k rs rows.old rows.new result }
{
    let mut p = at;
    // c stays a number: once the chunks of chunks_exact_mut are given back, a proof knows the length of the buffer, and not its words
    for c in 0..k {
        let Ok(length) = vtk_words::number_at(text, p) else {
            return p;
        };
        p = read_row(text, length.end, 8 * c, rows);
    }
    p
}
