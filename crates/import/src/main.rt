// The program `import`: a VTK text is read from standard input, and the map that it gives is written in pieces, or why it is
// refused.
#![tactic(auto)]

ghost use Rattle.std.specs.Prelude.{◌≡◌, ◌++◌, ◌≤◌, ◌<◌, length, take};
ghost use Rattle.model.specs.Import.{longest_text, to_lines, imported};

use reading::UNUSED;

// How many slots have their lines in one piece, and how many bytes that takes at most.
const SLOTS: u32 = 512;

const BYTES: usize = 49152;

// The first piece ends at the byte `at`; behind it come the lines of so many slots.
#[derive(Clone, Copy)]
struct Begun {
    at: usize,
    slots: u32,
}

// The call on an empty table and a fresh journal, and the first piece: its answer, or the two lines before the slots'.
fn first(text: &[u8], table: &mut [u32], journal: &mut [u32], out: &mut [u8]) -> Begun
    requires text_len_bound { (length text.now ≤ longest_text) × (49152 ≤ length out.old) }
    requires table_len { (length table.old ≡ 262144) × (length journal.old ≡ 786437) }
    ensures { (result.at ≤ length out.new)
        × (take result.at out.new ++ to_lines result.slots 0 table.new ≡ imported text.now) }
{
    table.fill(UNUSED);
    fresh::fresh_journal(journal);
    match kernel::read_vtk(3, table, journal, 0, text) {
        Ok(done) => Begun {
            at: printing::map_head(out, 0, 3, done.count),
            slots: done.count,
        },
        Err(refused) => Begun {
            at: printing::answer(out, 0, Err(refused)),
            slots: 0,
        },
    }
}

// Writes the first bytes of `out`, and says whether that went well.
fn put(out: &[u8], end: usize) -> bool
    requires { end ≤ length out.now }
{
    io::write_all(1, &out[..end])
}

// Writes the lines of so many slots. After a write that fails nothing more is done.
fn write_lines(table: &[u32], slots: u32, out: &mut [u8])
    requires { 49152 ≤ length out.old }
{
    let mut a = 0;
    while a < slots {
        let k = SLOTS.min(slots - a);
        let end = printing::to_lines(out, 0, table, a, k);
        if !put(out, end) {
            return;
        }
        a += k;
    }
}

// What is printed for a text that is in the buffer whole.
fn tell(text: &[u8], table: &mut [u32], journal: &mut [u32], out: &mut [u8])
    requires text_len_bound { (length text.now ≤ longest_text) × (49152 ≤ length out.old) }
    requires table_len { (length table.old ≡ 262144) × (length journal.old ≡ 786437) }
{
    let begun = first(text, table, journal, out);
    if put(out, begun.at) {
        write_lines(table, begun.slots, out);
    }
}

// What is printed for a text that is longer than the buffer.
fn tell_long(longest: usize, out: &mut [u8])
    requires { 49152 ≤ length out.old }
{
    let end = texts::say(out, 0, b"long=", longest as u64);
    put(out, end);
}

// Whether there is a byte more to read.
fn more() -> bool {
    let mut byte = [0u8; 1];
    io::read_full(0, &mut byte) != 0
}

// Reads the text. A read that fails is the end of the input.
fn run(text: &mut [u8], table: &mut [u32], journal: &mut [u32], out: &mut [u8])
    requires text_len { (length text.old ≡ longest_text) × (49152 ≤ length out.old) }
    requires table_len { (length table.old ≡ 262144) × (length journal.old ≡ 786437) }
{
    let n = io::read_full(0, text);
    if n == text.len() {
        if more() {
            tell_long(n, out);
            return;
        }
    }
    tell(&text[..n], table, journal, out);
}

// A buffer of equal words; its length is told here, so that nothing counts them.
fn buffer<T: Copy, const N: usize>(word: T) -> [T; N]
    ensures { N ≡ length result }
{
    [word; N]
}

fn main() {
    let mut text: [u8; 2097152] = buffer(0);
    let mut table: [u32; 262144] = buffer(0);
    let mut journal: [u32; 786437] = buffer(0);
    let mut out = [0u8; BYTES];
    run(&mut text, &mut table, &mut journal, &mut out);
}
