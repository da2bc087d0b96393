// What a session prints: the answer to a request; at the end the number of live slots, and the links of each.
#![tactic(auto)]

ghost use Rattle.std.specs.Prelude.{◌≡◌, [], ◌++◌, ◌+◌, ◌*◌, ◌<◌, ◌≤◌, length};
ghost use Rattle.model.specs.Table.{slots, link};
ghost use Rattle.model.specs.Table.{live_count};
ghost use Rattle.model.specs.Text.{bytes, decimal, said};
ghost use Rattle.model.specs.Session.{answered, to_line, dart_lines, darts_from, ending};
ghost use Rattle.model.specs.Import.{to_lines};
ghost use Rattle.answers.specs.Answers.{outcome};
ghost use Rattle.texts.specs.Texts.{Appended};

use answers::{Answer, Told};

// "Per request it prints `no=`, `at=` (place), `n=` (count)"
pub fn answer(out: &mut [u8], at: usize, given: Answer) -> usize
    requires { at + 75 ≤ length out.old }
    ensures { (Appended out.old at (answered (outcome given [] [] [])) out.new result)
        × (result ≤ at + 75) }
{
    let told = Told::from(given);
    let place = texts::say(out, at, b"no=", told.number as u64);
    let count = texts::say(out, place, b"at=", told.place as u64);
    texts::say(out, count, b"n=", told.count as u64)
}

// A link, and the comma behind it.
fn link_comma(out: &mut [u8], at: usize, table: &[u32], i: usize, d: u32) -> usize
    requires { (at + 21 ≤ length out.old) × (i < 4) }
    ensures { (Appended out.old at (decimal (link table.now i d) ++ bytes ",")
        out.new result)
        × (result ≤ at + 21) }
{
    let end = texts::put_decimal(out, at, reading::link(table, i, d) as u64);
    texts::put(out, end, b",")
}

// "`to=` with its four links, parted by commas"
fn to_line(out: &mut [u8], at: usize, table: &[u32], d: u32) -> usize
    requires { at + 96 ≤ length out.old }
    ensures { (Appended out.old at (to_line table.now d) out.new result)
        × (result ≤ at + 96) }
{
    let first = texts::put(out, at, b"to=");
    let second = link_comma(out, first, table, 0, d);
    let third = link_comma(out, second, table, 1, d);
    let last = link_comma(out, third, table, 2, d);
    texts::say(out, last, b"", reading::link(table, 3, d) as u64)
}

// "`dart=` and `to=`"
fn dart_lines(out: &mut [u8], at: usize, table: &[u32], d: u32) -> usize
    requires { at + 128 ≤ length out.old }
    ensures { (Appended out.old at (dart_lines table.now d) out.new result)
        × (result ≤ at + 128) }
{
    let to = texts::say(out, at, b"dart=", d as u64);
    to_line(out, to, table, d)
}

// The lines of d, if it is a live slot.
fn dart(out: &mut [u8], at: usize, table: &[u32], d: u32) -> usize
    requires { at + 128 ≤ length out.old }
    ensures { (Appended out.old at (darts_from 1 d table.now) out.new result)
        × (result ≤ at + 128) }
{
    if reading::live(table, d) {
        return dart_lines(out, at, table, d);
    }
    at
}

// The lines of the live slots, "by rising dart".
fn darts(out: &mut [u8], at: usize, table: &[u32]) -> usize
    requires { (at + 128 * slots table.now ≤ length out.old) × (length table.now ≤ 3840) }
    ensures { Appended out.old at (darts_from (slots table.now) 0 table.now)
        out.new result }
{
    let end = reading::slots(table);
    let mut place = at;
    for d in 0..end {
        place = dart(out, place, table, d);
    }
    place
}

// The number of live slots.
fn live_count(table: &[u32]) -> u32
    requires { length table.now ≤ 3840 }
    ensures { result ≡ live_count table.now }
{
    let end = reading::slots(table);
    (0..end).filter(|&d| reading::live(table, d)).count() as u32
}

// "after the last request `live=` (number of live slots) and, by rising dart, `dart=` and `to=`"
pub fn ending(out: &mut [u8], at: usize, table: &[u32]) -> usize
    requires { (at + (128 * slots table.now + 26) ≤ length out.old) × (length table.now ≤ 3840) }
    ensures { Appended out.old at (ending table.now) out.new result }
{
    let first = texts::say(out, at, b"live=", live_count(table) as u64);
    darts(out, first, table)
}

// ---- a map, as `import` prints it

// "one `to=` line per slot": of k slots from a on.
pub fn to_lines(out: &mut [u8], at: usize, table: &[u32], a: u32, k: u32) -> usize
    requires { (at + 96 * k ≤ length out.old) × (a + k < 4294967296) }
    ensures { Appended out.old at (to_lines k a table.now) out.new result }
{
    let mut place = at;
    for d in a..a + k {
        place = to_line(out, place, table, d);
    }
    place
}

// "`dim=`, `slots=`": what stands before the lines of k slots.
pub fn map_head(out: &mut [u8], at: usize, n: u32, k: u32) -> usize
    requires { at + 64 ≤ length out.old }
    ensures { (Appended out.old at (said (bytes "dim=") n ++ said (bytes "slots=") k) out.new result)
        × (result ≤ at + 64) }
{
    let size = texts::say(out, at, b"dim=", n as u64);
    texts::say(out, size, b"slots=", k as u64)
}
