// What is printed behind a line: numbers, answers, marks, words.
use crate::lines::{Kind, Row};
use crate::stage;
use answers::Told;

pub fn text(text: &[u8]) {
    io::write_all(1, text);
}

// Behind the script's end there are no lines.
pub fn line_end(kind: Kind) {
    if kind != Kind::End {
        text(b"\n");
    }
}

pub fn unknown() {
    text(b" ?");
}

// Words and a number behind them.
pub fn number(words: &[u8], number: u32) {
    io::write_all(1, words);
    io::print_decimal(1, number as u64);
}

pub fn answer(told: Told) {
    number(b": number ", told.number);
    number(b", place ", told.place);
    number(b", count ", told.count);
}

// What pick took off; and of a refusal whether the queue, each word of which was this one, is as it was lent.
pub fn picked(answer: u32, taken: u32, queue: &[u32], word: u32) {
    number(b", taken ", taken);
    if answer != 0 {
        if queue.iter().all(|x| *x == word) {
            text(b", queue as lent");
        } else {
            text(b", queue changed");
        }
    }
}

// Its first two words, and its digest.
pub fn journal(journal: &[u32]) {
    number(b", cursor ", stage::word(journal, 0));
    number(b", end ", stage::word(journal, 1));
    number(b", journal ", digest(journal));
}

// ---- marks

// They are shown where they are few, in eights.
pub fn marks(marks: &[u8]) {
    if marks.len() < 100 {
        text(b", marks");
        for (k, x) in marks.iter().enumerate() {
            mark(k, *x);
        }
    }
}

fn mark(k: usize, mark: u8) {
    if k % 8 == 0 {
        text(b" ");
    }
    io::print_decimal(1, mark as u64);
}

// ---- words

pub fn show(row: Row, table: &[u32], journal: &[u32]) {
    match row.kind {
        Kind::Links => words(table, 4 * (row.c as usize), 4 * (row.c as usize) + 4),
        Kind::Table => words(table, 0, table.len()),
        Kind::Words => words(journal, row.b as usize, row.c as usize),
        Kind::Unknown => unknown(),
        _ => {}
    }
}

// The words from a on, up to e.
fn words(words: &[u32], a: usize, e: usize) {
    text(b":");
    for k in a..e {
        word(stage::word(words, k));
    }
}

// An entry of an unused slot is shown as a dash.
fn word(word: u32) {
    if word == reading::UNUSED {
        text(b" -");
    } else {
        number(b" ", word);
    }
}

// A number that tells lists of words apart, most likely.
pub fn digest(words: &[u32]) -> u32 {
    let mut sum: u64 = 1;
    for word in words {
        sum = mixed(sum, *word);
    }
    (sum % 65521) as u32
}

fn mixed(sum: u64, word: u32) -> u64 {
    ((sum % 65521) * 31 + word as u64) % 65521
}
