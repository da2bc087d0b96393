// Plays a script, which is read from standard input, and prints it line by line, each with what it gives. A line that is no
// line of a script, or asks for more than there is, gives a question mark. What the lines are is said at the top of the
// script, in the file `stdin`.
#![tactic(auto)]

ghost use Rattle.std.specs.Prelude.{◌≡◌, ◌≤◌, length, take};

use calls::Asked;
use lines::{Kind, Row};
use stage::Stage;

mod calls;
mod lines;
mod shows;
mod stage;

// The largest table of 01 has 262,144 words. The marks are those that `mark` lines draw, the list is that of `item` and `word` lines, and
// the text that of the lines that begin with a >.
fn main() {
    let mut table = [0u32; 262148];
    let mut marks = [0u8; 65537];
    let mut journal = [0u32; 443000];
    let mut list = [0u32; 96];
    let mut text = [0u8; 4096];
    play(&mut table, &mut marks, &mut journal, &mut list, &mut text);
}

// As many lines as a script may have; behind its end there is nothing to do.
fn play(
    table: &mut [u32],
    marks: &mut [u8],
    journal: &mut [u32],
    list: &mut [u32],
    text: &mut [u8],
) {
    let mut s = stage::EMPTY;
    for _ in 0..65536 {
        s = turn(s, table, marks, journal, list, text);
    }
}

fn turn(
    s: Stage,
    table: &mut [u32],
    marks: &mut [u8],
    journal: &mut [u32],
    list: &mut [u32],
    text: &mut [u8],
) -> Stage {
    let row = lines::heard(text, s.text);
    let mut now = stage::next(s, row);
    lend(now, row, table, marks, journal, list, text);
    now.list = stage::listed(now.list, row, list);
    now.text = stage::told(row);
    shows::line_end(row.kind);
    now
}

// The beginnings of table, journal, list and text are lent.
fn lend(
    s: Stage,
    row: Row,
    table: &mut [u32],
    marks: &mut [u8],
    journal: &mut [u32],
    list: &[u32],
    text: &[u8],
) {
    let entries = few(table, s.entries);
    let words = few(journal, s.words);
    let items = few(list, s.list);
    let bytes = few(text, row.text);
    act(
        s,
        row,
        &mut table[..entries],
        marks,
        &mut journal[..words],
        &list[..items],
        &text[..bytes],
    );
}

// So many words or bytes; if there are not so many, a question mark and none.
fn few<T: Copy>(words: &[T], most: usize) -> usize
    ensures { (result ≤ length words.now) × (result ≡ length (take result words.now)) }
{
    if most <= words.len() {
        return most;
    }
    shows::unknown();
    0
}

fn act(
    s: Stage,
    row: Row,
    table: &mut [u32],
    marks: &mut [u8],
    journal: &mut [u32],
    list: &[u32],
    text: &[u8],
) {
    match row.kind {
        Kind::Call(op) => {
            let asked = Asked::by(op, row);
            calls::call(s, asked, table, marks, journal, list, text);
        }
        Kind::CallWith(op) => {
            let asked = Asked::by(op, row);
            calls::call_with(s, asked, row, table, marks, journal, list, text);
        }
        _ => {
            stage::set_table(row, table);
            stage::set_marks(row, table.len() / 4, marks);
            stage::set_journal(row, journal);
            shows::show(row, table, journal);
        }
    }
}
