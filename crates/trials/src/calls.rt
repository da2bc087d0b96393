// A call, and what is printed behind its line: what it answers, and what it leaves.
use crate::lines::Row;
use crate::stage::Stage;
use crate::{shows, stage};
use answers::Told;
use requests::Op;

// A call with its i, d and e: "i holds the index or mask".
#[derive(Clone, Copy)]
pub struct Asked {
    op: Op,
    i: u32,
    d: u32,
    e: u32,
}

impl Asked {
    // What a line asks: the last of its numbers.
    pub fn by(op: Op, row: Row) -> Asked {
        match op {
            Op::Sew => Asked {
                op,
                i: row.a,
                d: row.b,
                e: row.c,
            },
            _ => Asked {
                op,
                i: row.b,
                d: row.c,
                e: 0,
            },
        }
    }
}

// With a word of the journal and a value for it: that is its value for this call.
pub fn call_with(
    s: Stage,
    asked: Asked,
    row: Row,
    table: &mut [u32],
    drawn: &mut [u8],
    journal: &mut [u32],
    list: &[u32],
    text: &[u8],
) {
    let at = row.b as usize;
    let kept = stage::word(journal, at);
    stage::put(journal, at, row.c);
    call(s, asked, table, drawn, journal, list, text);
    stage::put(journal, at, kept);
}

// Each call is lent marks that are 9, but insert those that are drawn.
pub fn call(
    s: Stage,
    asked: Asked,
    table: &mut [u32],
    drawn: &mut [u8],
    journal: &mut [u32],
    list: &[u32],
    text: &[u8],
) {
    if asked.op == Op::Insert {
        lend_some(s, asked, table, drawn, journal, list, text);
    } else {
        lend_nines(s, asked, table, journal, list, text);
    }
}

fn lend_nines(
    s: Stage,
    asked: Asked,
    table: &mut [u32],
    journal: &mut [u32],
    list: &[u32],
    text: &[u8],
) {
    let mut marks = [9u8; 65537];
    lend_some(s, asked, table, &mut marks, journal, list, text);
}

// The first of these marks are lent.
fn lend_some(
    s: Stage,
    asked: Asked,
    table: &mut [u32],
    marks: &mut [u8],
    journal: &mut [u32],
    list: &[u32],
    text: &[u8],
) {
    let slots = crate::few(marks, s.marks);
    lend_queue(s, asked, table, &mut marks[..slots], journal, list, text);
}

// Each call is lent a queue of equal words, which only pick takes.
fn lend_queue(
    s: Stage,
    asked: Asked,
    table: &mut [u32],
    marks: &mut [u8],
    journal: &mut [u32],
    list: &[u32],
    text: &[u8],
) {
    let word = s.queue_word;
    let mut queue = [word; 65537];
    ask(s, asked, table, marks, journal, list, &mut queue, text);
}

fn ask(
    s: Stage,
    asked: Asked,
    table: &mut [u32],
    marks: &mut [u8],
    journal: &mut [u32],
    list: &[u32],
    queue: &mut [u32],
    text: &[u8],
) {
    let words = crate::few(queue, s.queue);
    let mut taken: u32 = 0;
    let given = requests::any_request(
        s.n,
        table,
        marks,
        journal,
        asked.op as u32,
        s.tag,
        asked.i,
        asked.d,
        asked.e,
        list,
        &mut queue[..words],
        &mut taken,
        text,
    );
    let told = Told::from(given);
    shows::answer(told);
    if asked.op == Op::Pick {
        shows::picked(told.number, taken, queue, s.queue_word);
    }
    left(asked.op, table, marks, journal);
}

// ---- what it leaves

fn left(op: Op, table: &[u32], marks: &[u8], journal: &[u32]) {
    if has_journal(op) {
        shows::journal(journal);
        shows::number(b", table ", shows::digest(table));
    }
    if has_marks(op) {
        shows::marks(marks);
    }
}

fn has_journal(op: Op) -> bool {
    match op {
        Op::Check | Op::Orbit | Op::Sheet | Op::Pick => false,
        _ => true,
    }
}

fn has_marks(op: Op) -> bool {
    match op {
        Op::Orbit | Op::Sheet | Op::Pick => true,
        Op::Remove | Op::Split | Op::Insert => true,
        _ => false,
    }
}
