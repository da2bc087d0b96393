// The stage: the dimension that calls are given, how much of the buffers is lent to them, the tag of operations, how many words the
// list and the queue and how many bytes the text has, and what each word of the queue is.
use crate::lines::{Kind, Row};
use crate::shows;
use reading::UNUSED;
use requests::Op;

#[derive(Clone, Copy)]
pub struct Stage {
    pub n: u32,
    pub entries: usize,
    pub marks: usize,
    pub words: usize,
    pub tag: u32,
    pub list: usize,
    pub queue: usize,
    pub queue_word: u32,
    pub text: usize,
}

pub const EMPTY: Stage = Stage {
    n: 0,
    entries: 0,
    marks: 0,
    words: 0,
    tag: 0,
    list: 0,
    queue: 0,
    queue_word: 9,
    text: 0,
};

// The stage for a line and those behind it.
pub fn next(s: Stage, row: Row) -> Stage {
    let mut next = s;
    match row.kind {
        Kind::Scene => {
            next = scene(row);
        }
        Kind::Lend => {
            next.entries = row.a as usize;
            next.marks = row.b as usize;
            next.words = row.c as usize;
        }
        Kind::Dim => {
            next.n = row.c;
        }
        Kind::Tag => {
            next.tag = row.c;
        }
        Kind::Queue => {
            next.queue = row.b as usize;
            next.queue_word = row.c;
        }
        _ => {}
    }
    next
}

// As many marks and words of the queue as slots.
fn scene(row: Row) -> Stage {
    Stage {
        n: row.a,
        entries: entry(row.b, 0),
        marks: row.b as usize,
        words: row.c as usize,
        tag: 0,
        list: 0,
        queue: row.b as usize,
        queue_word: 9,
        text: 0,
    }
}

// ---- what a line does to the list

// How many words it has for the lines behind: behind sewlist none.
pub fn listed(words: usize, row: Row, list: &mut [u32]) -> usize {
    match row.kind {
        Kind::Item => with_item(words, row, list),
        Kind::Word => with_word(words, row.c, list),
        Kind::Call(Op::SewList) => 0,
        _ => words,
    }
}

fn with_item(words: usize, row: Row, list: &mut [u32]) -> usize {
    let one = with_word(words, row.a, list);
    let two = with_word(one, row.b, list);
    with_word(two, row.c, list)
}

// A word for which there is no room gives a question mark.
fn with_word(words: usize, word: u32, list: &mut [u32]) -> usize {
    if words < list.len() {
        list[words] = word;
        return words + 1;
    }
    shows::unknown();
    words
}

// ---- what it does to the text

// How many bytes it has for the lines behind: behind a scene and readvtk none.
pub fn told(row: Row) -> usize {
    match row.kind {
        Kind::Scene | Kind::Call(Op::ReadVtk) => 0,
        _ => row.text,
    }
}

// ---- what a line does to the words and marks that are lent

// A scene has unused slots.
pub fn set_table(row: Row, table: &mut [u32]) {
    match row.kind {
        Kind::Scene => fill(table, 0, table.len(), UNUSED),
        Kind::Put => put(table, entry(row.a, row.b), row.c),
        Kind::Tile => tile(table, row.b, row.c),
        _ => {}
    }
}

pub fn set_journal(row: Row, journal: &mut [u32]) {
    match row.kind {
        Kind::Scene => fresh(journal),
        Kind::Write => put(journal, row.b as usize, row.c),
        Kind::Fill => fill(journal, row.a as usize, row.b as usize, row.c),
        _ => {}
    }
}

// The marks that insert is lent; those of the table's slots are tiled with it.
pub fn set_marks(row: Row, slots: usize, marks: &mut [u8]) {
    match row.kind {
        Kind::Scene => fill(marks, 0, marks.len(), 0),
        Kind::Mark => fill(marks, row.a as usize, row.b as usize, (row.c % 256) as u8),
        Kind::Tile => tile_marks(marks, row.b, row.c, slots),
        _ => {}
    }
}

// Cursor and end are 2, the other words 9.
fn fresh(journal: &mut [u32]) {
    fill(journal, 0, journal.len(), 9);
    fill(journal, 0, 2, 2);
}

// Entry i of slot d.
fn entry(d: u32, i: u32) -> usize {
    4 * (d as usize) + (i as usize)
}

// The slots behind the `width` ones from `first` on repeat these, with links that lead as much further each time.
fn tile(table: &mut [u32], first: u32, width: u32) {
    let back = 4 * (width as usize);
    let from = 4 * (first as usize) + back;
    for k in from..table.len() {
        table[k] = table[k - back].wrapping_add(width);
    }
}

// The marks behind the `width` ones from `first` on repeat these, as far as the slots go.
fn tile_marks(marks: &mut [u8], first: u32, width: u32, slots: usize) {
    let back = width as usize;
    let from = (first as usize) + back;
    for k in from..slots.min(marks.len()) {
        marks[k] = marks[k - back];
    }
}

// The words or marks from a on, up to e, as far as there are any.
fn fill<T: Copy>(words: &mut [T], a: usize, e: usize, value: T) {
    for k in a..e.min(words.len()) {
        words[k] = value;
    }
}

pub fn put(words: &mut [u32], at: usize, value: u32) {
    if at < words.len() {
        words[at] = value;
    }
}

pub fn word(words: &[u32], at: usize) -> u32 {
    words.get(at).copied().unwrap_or(0)
}
