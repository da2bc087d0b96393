// A line of a script, read: its first word and how many numbers it has say what it does. A number is digits that stand
// together.
ghost use Rattle.std.specs.Prelude.{◌≤◌, length};

use requests::Op;

// What a line does: a call, a call with a word of the journal and a value for it, or what the names behind the calls say.
#[derive(Clone, Copy, Debug, PartialEq, Eq)]
pub enum Kind {
    Call(Op),
    CallWith(Op),
    Links,
    Table,
    Words,
    Put,
    Write,
    Fill,
    Mark,
    Item,
    Word,
    Queue,
    Tile,
    Scene,
    Lend,
    Dim,
    Tag,
    Unknown,
    Remark,
    // a line of the text
    Text,
    // no line, but the script's end
    End,
}

// What a line does, and the last three of its numbers; and how long the text is behind it.
#[derive(Clone, Copy)]
pub struct Row {
    pub kind: Kind,
    pub text: usize,
    pub a: u32,
    pub b: u32,
    pub c: u32,
}

// ---- a line is read and printed, byte by byte

// The next byte, if there is one; a 0 ends a script too.
fn byte() -> Option<u8> {
    let mut piece = [0u8; 1];
    if io::read_full(0, &mut piece) == 0 {
        return None;
    }
    if piece[0] != b'\n' {
        io::write_all(1, &piece);
    }
    if piece[0] == 0 {
        return None;
    }
    Some(piece[0])
}

// The bytes that a line has.
const LINE: usize = 999;

// A line as it is read: how many bytes it has, and whether the script ends in it.
#[derive(Clone, Copy)]
struct Line {
    length: usize,
    ends: bool,
}

// A line has at most 999 bytes: one more is passed over.
fn hear(line: &mut [u8; LINE]) -> Line
    ensures { result.length ≤ 999 }
{
    for length in 0..LINE {
        match byte() {
            None => {
                return Line { length, ends: true };
            }
            Some(b'\n') => {
                return Line {
                    length,
                    ends: false,
                };
            }
            Some(x) => {
                line[length] = x;
            }
        }
    }
    Line {
        length: LINE,
        ends: byte().is_none(),
    }
}

// A line that begins with a > is put behind the text, of which `length` bytes are there, with a LF.
pub fn heard(text: &mut [u8], length: usize) -> Row {
    let mut buffer = [0u8; LINE];
    let heard = hear(&mut buffer);
    let line = &buffer[..heard.length];
    let word = &line[..word_length(line)];
    let mut found = NONE;
    for x in line {
        found = found.with(*x);
    }
    Row {
        kind: if heard.ends {
            Kind::End
        } else {
            told(word, found.count)
        },
        text: match word {
            b">" => with_text(&line[1..], text, length),
            _ => length,
        },
        a: found.a,
        b: found.b,
        c: found.c,
    }
}

// The bytes of a line of the text and a LF, as far as there is room.
fn with_text(line: &[u8], text: &mut [u8], length: usize) -> usize {
    let mut at = length;
    for x in line {
        at = with_byte(*x, text, at);
    }
    with_byte(b'\n', text, at)
}

fn with_byte(x: u8, text: &mut [u8], at: usize) -> usize {
    if at < text.len() {
        text[at] = x;
        return at + 1;
    }
    at
}

// ---- what it does

// The first word ends before a blank, and behind a sign: a # or a > that the line begins with.
fn word_length(line: &[u8]) -> usize
    ensures { result ≤ length line.now }
{
    for k in 0..line.len() {
        if k == 1 && (line[0] == b'#' || line[0] == b'>') {
            return 1;
        }
        if k > 0 && line[k] == b' ' {
            return k;
        }
    }
    line.len()
}

// An empty line and one that begins with a # are remarks. Of the others the first word and how many numbers there are decide.
fn told(word: &[u8], count: u8) -> Kind {
    match word {
        b"" | b"#" => Kind::Remark,
        b">" => Kind::Text,
        _ => named(word, count),
    }
}

fn named(word: &[u8], count: u8) -> Kind {
    match (word, count) {
        (b"check", 0) => Kind::Call(Op::Check),
        (b"orbit", 2) => Kind::Call(Op::Orbit),
        (b"sheet", 1) => Kind::Call(Op::Sheet),
        (b"add", 0) => Kind::Call(Op::Add),
        (b"sew", 3) => Kind::Call(Op::Sew),
        (b"unsew", 2) => Kind::Call(Op::Unsew),
        (b"remove", 1) => Kind::Call(Op::Remove),
        (b"split", 1) => Kind::Call(Op::Split),
        (b"undo", 0) => Kind::Call(Op::Undo),
        (b"redo", 0) => Kind::Call(Op::Redo),
        (b"insert", 0) => Kind::Call(Op::Insert),
        (b"sewlist", 0) => Kind::Call(Op::SewList),
        (b"pick", 1) => Kind::Call(Op::Pick),
        (b"readvtk", 0) => Kind::Call(Op::ReadVtk),
        (b"undo", 2) => Kind::CallWith(Op::Undo),
        (b"redo", 2) => Kind::CallWith(Op::Redo),
        (b"links", 1) => Kind::Links,
        (b"table", 0) => Kind::Table,
        (b"words", 2) => Kind::Words,
        (b"put", 3) => Kind::Put,
        (b"write", 2) => Kind::Write,
        (b"fill", 3) => Kind::Fill,
        (b"mark", 3) => Kind::Mark,
        (b"item", 3) => Kind::Item,
        (b"word", 1) => Kind::Word,
        (b"queue", 2) => Kind::Queue,
        (b"tile", 2) => Kind::Tile,
        (b"scene", 3) => Kind::Scene,
        (b"lend", 3) => Kind::Lend,
        (b"dim", 1) => Kind::Dim,
        (b"tag", 1) => Kind::Tag,
        _ => Kind::Unknown,
    }
}

// ---- its numbers

// How many there are so far; the last three of them; and whether the last byte was a digit of the last.
#[derive(Clone, Copy)]
struct Found {
    count: u8,
    inside: bool,
    a: u32,
    b: u32,
    c: u32,
}

// More numbers than any line has.
const TOO_MANY: u8 = 9;

const NONE: Found = Found {
    count: 0,
    inside: false,
    a: 0,
    b: 0,
    c: 0,
};

impl Found {
    fn with(self, x: u8) -> Found {
        match x {
            b'0'..=b'9' => {
                if self.inside {
                    self.longer(x - b'0')
                } else {
                    self.more(x - b'0')
                }
            }
            _ => Found {
                inside: false,
                ..self
            },
        }
    }

    // One more number, which begins with this digit.
    fn more(self, digit: u8) -> Found {
        Found {
            count: self.count.saturating_add(1).min(TOO_MANY),
            inside: true,
            a: self.b,
            b: self.c,
            c: u32::from(digit),
        }
    }

    // The last number with a digit behind it. A line with one that does not fit counts as one with too many.
    fn longer(self, digit: u8) -> Found {
        let value = 10 * u64::from(self.c) + u64::from(digit);
        match u32::try_from(value) {
            Ok(c) => Found { c, ..self },
            Err(_) => Found {
                count: TOO_MANY,
                ..self
            },
        }
    }
}
