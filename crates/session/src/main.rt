// The session program: standard input is read piece by piece, and what the session prints for a piece is written before the
// next is read.
#![tactic(auto)]

ghost use Rattle.std.specs.Prelude.{◌+◌, ◌<◌, ◌≤◌, length};
ghost use Rattle.io.specs.Counts.{IsPrefixLen};
ghost use Rattle.lines.specs.Held.{Room, Kept};

use lines::Session;
use std::io::{Read, Stdin};

// Nothing says that the input ends, so the pieces are counted, up to a number that no input comes to.
const PIECES: u64 = 1125899906842624;

// How many bytes of the next piece are read. A read that fails is the end of the input.
fn read_piece(input: Stdin, piece: &mut [u8]) -> usize
    ensures { IsPrefixLen result piece.new }
{
    let mut reader = input;
    match reader.read(piece) {
        Ok(n) => n,
        Err(_) => 0,
    }
}

// Reads a piece, and writes what is printed for it; whether there may be more of the input.
fn turn(
    s: &mut Session,
    input: Stdin,
    text: &mut [u8],
    table: &mut [u32],
    marks: &mut [u8],
    journal: &mut [u32],
    out: &mut [u8],
) -> bool
    requires room { (Room text.old table.old marks.old journal.old) × (Kept s.old) }
    requires line_bound { (s.old.line + 2048 < 18446744073709551616) × (163840 ≤ length out.old) }
    ensures { (Kept s.new) × (s.new.line ≤ s.old.line + 2048) }
{
    let mut piece = [0u8; 2048];
    let n = read_piece(input, &mut piece);
    if n == 0 {
        return false;
    }
    let step = lines::feed(*s, &piece[..n], text, table, marks, journal, out, 0);
    let at = step.at;
    *s = step.session;
    io::write_all(1, &out[..at]) & !step.session.done
}

// The pieces one after the other, and what is printed at the end.
fn run(
    input: Stdin,
    text: &mut [u8],
    table: &mut [u32],
    marks: &mut [u8],
    journal: &mut [u32],
    out: &mut [u8],
)
    requires { (Room text.old table.old marks.old journal.old) × (163840 ≤ length out.old) }
{
    let mut s = lines::start();
    for piece in 0..PIECES {
        if !turn(&mut s, input, text, table, marks, journal, out) {
            break;
        }
    }
    let end = lines::finish(s, table, out, 0);
    io::write_all(1, &out[..end]);
}

fn main(rt: HostRuntime) {
    let mut text = [0u8; 15];
    let mut table = [0u32; 3840];
    let mut marks = [0u8; 960];
    let mut journal = [0u32; 16384];
    let mut out = [0u8; 163840];
    run(
        rt.stdin(),
        &mut text,
        &mut table,
        &mut marks,
        &mut journal,
        &mut out,
    );
}
