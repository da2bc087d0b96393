// Text: the value of a line, read; and lines, written behind what stands in a lent buffer.
#![tactic(auto)]

ghost use Rattle.std.specs.Prelude.{◌≡◌, [], ◌∷◌, ◌+◌, ◌<◌, ◌≤◌, length};
ghost use Rattle.model.specs.Text.{begins, digits, number, up_to, decimal, said};
ghost use Rattle.texts.specs.Texts.{given_by, Appended};

// ---- reading

// Whether a text begins with a word.
pub fn begins(word: &[u8], text: &[u8]) -> bool
    ensures { result ≡ begins word.now text.now }
{
    text.starts_with(word)
}

// The number of these digits, if it is at most `top`.
fn digits(text: &[u8], top: u32) -> Option<u32>
    ensures { given_by result ≡ up_to top (digits 0 text.now) }
{
    let mut v: u64 = 0;
    for &x in text {
        if !x.is_ascii_digit() {
            return None;
        }
        v = 10 * v + ((x - b'0') as u64);
        if v > top as u64 {
            return None;
        }
    }
    Some(v as u32)
}

// "Numbers are decimal without leading zeros", up to `top`.
pub fn number(text: &[u8], top: u32) -> Option<u32>
    ensures { given_by result ≡ up_to top (number text.now) }
{
    if text.is_empty() {
        return None;
    }
    if text.len() == 1 {
        return digits(text, top);
    }
    let zero_first = text[0] == b'0';
    if zero_first {
        return None;
    }
    digits(text, top)
}

// ---- writing: each function writes at `at`, and returns the place behind what it wrote

fn put_byte(out: &mut [u8], at: usize, b: u8) -> usize
    requires { at < length out.old }
    ensures { Appended out.old at (b ∷ []) out.new result }
{
    out[at] = b;
    at + 1
}

pub fn put(out: &mut [u8], at: usize, text: &[u8]) -> usize
    requires { at + length text.now ≤ length out.old }
    ensures { Appended out.old at text.now out.new result }
{
    let end = at + text.len();
    out[at..end].copy_from_slice(text);
    end
}

// A number's digits; by hand, since `write!` gives a Result, and here nothing can fail.
pub fn put_decimal(out: &mut [u8], at: usize, v: u64) -> usize
    requires { at + length (decimal v) ≤ length out.old }
    ensures { Appended out.old at (decimal v) out.new result }
{
    if v < 10 {
        return put_byte(out, at, b'0' + v as u8);
    }
    let last = put_decimal(out, at, v / 10);
    put_byte(out, last, b'0' + (v % 10) as u8)
}

// A key, which has its "=", and a number, on a line.
pub fn say(out: &mut [u8], at: usize, key: &[u8], v: u64) -> usize
    requires { at + (length key.now + 21) ≤ length out.old }
    ensures { (Appended out.old at (said key.now v) out.new result)
        × (result ≤ at + (length key.now + 21)) }
{
    let value = put(out, at, key);
    let end = put_decimal(out, value, v);
    put_byte(out, end, b'\n')
}
