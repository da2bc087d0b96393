// The words of a lent text: where the next one begins and ends, whether it is a keyword, the plain decimal that it is,
// and the place behind so many of them. Each is linear in the bytes that it passes, and a number may have any length.
#![tactic(auto)]

ghost use Rattle.std.specs.Prelude.{◌≡◌, [], ◌∷◌, ℕ, ◌+◌, ◌≤◌, ◌<◌, length, get_or, drop, Err};
ghost use Rattle.model.specs.Vtk.{is_blank, words, behind_words, counted};
ghost use Rattle.vtk_words.specs.Words.{First, WordStart, WordEnd, ends_between, WordEnds, WordsAt, PlaceOf, NumberOf, digits_on, large};

// "words between blanks, tabs or LF"
fn is_blank(b: u8) -> bool
    ensures { result ≡ is_blank b }
{
    (b == b' ') | (b == b'\t') | (b == b'\n')
}

// The first place from `at` on where a byte is blank, or is not, as asked for; or the text's length.
// blank stays a bool: as a const bool it would stand in the clause as a number behind a conversion.
fn first(blank: bool, text: &[u8], at: usize) -> usize
    requires { at ≤ length text.now }
    ensures { First blank text.now at result }
{
    // not position, which counts from `at` on and gives None at the end
    for k in at..text.len() {
        if is_blank(text[k]) == blank {
            return k;
        }
    }
    text.len()
}

// Where the next word begins, or the text's length.
pub fn word_start(text: &[u8], at: usize) -> usize
    requires { at ≤ length text.now }
    ensures { WordStart text.now at result }
{
    first(false, text, at)
}

// Where the word that begins here ends.
fn word_end(text: &[u8], start: usize) -> usize
    requires { start ≤ length text.now }
    ensures { WordEnd text.now start result }
{
    first(true, text, start)
}

// ---- so many words passed

// 1 where a word ends between these two bytes, else 0, without a branch.
fn is_end(a: u8, b: u8) -> u8
    ensures { result ≡ ends_between a b }
{
    (!is_blank(a) & is_blank(b)) as u8
}

// How many words end in the 64 bytes from here on. Always 64 rounds without a branch: the compiler takes many bytes at once.
fn ends_from(text: &[u8], at: usize) -> u8
    requires { at + 64 < length text.now }
    ensures { WordEnds text.now at 64 result }
{
    let mut n: u8 = 0;
    for i in 0..64usize {
        n += is_end(text[at + i], text[at + i + 1]);
    }
    n
}

// The place behind n words, or the text's length where there are fewer: word by word.
fn skip_few(text: &[u8], at: usize, n: u64) -> usize
    requires { at ≤ length text.now }
    ensures { WordsAt text.now (drop n (words (drop at text.now))) result }
{
    let mut p = at;
    for _ in 0..n {
        let start = word_start(text, p);
        if start == text.len() {
            return start;
        }
        p = word_end(text, start);
    }
    p
}

// The same: "three words a point, skipped", 64 bytes at a time while more than 64 words are left.
pub fn skip_words(text: &[u8], at: usize, n: u64) -> usize
    requires { at ≤ length text.now }
    ensures { WordsAt text.now (drop n (words (drop at text.now))) result }
{
    let mut p = at;
    let mut left = n;
    while left > 64 {
        if text.len() - p <= 64 {
            return skip_few(text, p, left);
        }
        left -= ends_from(text, p) as u64;
        p += 64;
    }
    skip_few(text, p, left)
}

// The place behind the next word, if that is the one asked for.
pub fn behind_word(text: &[u8], at: usize, key: &[u8]) -> Option<usize>
    requires { at ≤ length text.now }
    ensures { PlaceOf text.now (behind_words (key.now ∷ []) (words (drop at text.now))) result }
{
    let start = word_start(text, at);
    if start == text.len() {
        return None;
    }
    let end = word_end(text, start);
    if key == &text[start..end] {
        return Some(end);
    }
    None
}

// ---- plain decimals

// A plain decimal of at most 19 digits, and the place behind it.
#[derive(Clone, Copy)]
pub struct Decimal {
    pub value: u64,
    pub end: usize,
}

// Why a word is none: it has more digits, and ends here; or it is no plain decimal.
#[derive(Clone, Copy)]
pub enum NoDecimal {
    Large(usize),
    Unfit,
}

// Behind a zero, with which no longer number begins.
fn zero_at(text: &[u8], start: usize) -> Result<Decimal, NoDecimal>
    requires { (start < length text.now) × (get_or text.now start 0 ≡ 48) }
    ensures { NumberOf text.now (counted (words (drop start text.now))) result }
{
    let end = start + 1;
    if end == text.len() {
        return Ok(Decimal { value: 0, end });
    }
    if is_blank(text[end]) {
        return Ok(Decimal { value: 0, end });
    }
    Err(NoDecimal::Unfit)
}

// What is left of a number that is too large: its digits are still passed.
fn large_at(text: &[u8], at: usize) -> NoDecimal
    requires { at ≤ length text.now }
    ensures { (v : ℕ) → large ≤ v → NumberOf text.now (digits_on v (drop at text.now)) (Err result) }
{
    for k in at..text.len() {
        let x = text[k];
        if is_blank(x) {
            return NoDecimal::Large(k);
        }
        if !x.is_ascii_digit() {
            return NoDecimal::Unfit;
        }
    }
    NoDecimal::Large(text.len())
}

// A word that begins with no zero.
fn digits_at(text: &[u8], start: usize) -> Result<Decimal, NoDecimal>
    requires { start ≤ length text.now }
    ensures { NumberOf text.now (digits_on 0 (drop start text.now)) result }
{
    let mut v: u64 = 0;
    for k in start..text.len() {
        let x = text[k];
        if !x.is_ascii_digit() {
            if is_blank(x) {
                return Ok(Decimal { value: v, end: k });
            }
            return Err(NoDecimal::Unfit);
        }
        let nineteen_digits = v >= 1000000000000000000;
        if nineteen_digits {
            return Err(large_at(text, k + 1));
        }
        v = 10 * v + ((x - b'0') as u64);
    }
    Ok(Decimal {
        value: v,
        end: text.len(),
    })
}

// "the counts, plain decimals": of any length, with no sign and no leading zero.
pub fn number_at(text: &[u8], at: usize) -> Result<Decimal, NoDecimal>
    requires { at ≤ length text.now }
    ensures { NumberOf text.now (counted (words (drop at text.now))) result }
{
    let start = word_start(text, at);
    if start == text.len() {
        return Err(NoDecimal::Unfit);
    }
    if text[start] == b'0' {
        return zero_at(text, start);
    }
    digits_at(text, start)
}
