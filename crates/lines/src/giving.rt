// What a line gives: the value behind its key, if the line fits.
ghost use Rattle.std.specs.Prelude.{◌≡◌, ◌<◌, [], ℕ, get_or};
ghost use Rattle.model.specs.Calls.{Outcome};
ghost use Rattle.model.specs.Text.{number, up_to};
ghost use Rattle.model.specs.Session.{names, place_from, behind, reads};
ghost use Rattle.texts.specs.Texts.{given_by};
ghost use Rattle.lines.specs.Held.{due_at};

use crate::Key;

// The k-th of the calls' names.
#[tactic(auto, unfolding(model::specs::Session::names))]
fn name(k: u32) -> &'static [u8]
    requires { k < 10 }
    ensures { result.now ≡ get_or names k [] }
{
    match k {
        0 => b"check",
        1 => b"orbit",
        2 => b"sheet",
        3 => b"add",
        4 => b"sew",
        5 => b"unsew",
        6 => b"remove",
        7 => b"split",
        8 => b"undo",
        _ => b"redo",
    }
}

// The place of an op among the names of the calls.
fn op_named(text: &[u8]) -> Option<u32>
    ensures { given_by result ≡ place_from 0 names text.now }
{
    for k in 0..10 {
        if name(k) == text {
            return Some(k);
        }
    }
    None
}

// The op of a line.
fn op_behind(key: &[u8], line: &[u8]) -> Option<u32>
    ensures { given_by result ≡ behind key.now (place_from 0 names) line.now }
{
    op_named(line.strip_prefix(key)?)
}

// The number of a line, up to `top`.
fn number_behind(key: &[u8], line: &[u8], top: u32) -> Option<u32>
    ensures { given_by result ≡ behind key.now (λ v. up_to top (number v)) line.now }
{
    texts::number(line.strip_prefix(key)?, top)
}

// What a line gives, where a line with this key is due.
pub fn given(key: Key, line: &[u8]) -> Option<u32>
    ensures { (n p i d : ℕ) (o : Outcome) → given_by result ≡ reads (due_at key n p i d o) line.now }
{
    match key {
        Key::Dim => number_behind(b"dim=", line, u32::MAX),
        Key::Slots => number_behind(b"slots=", line, 960),
        Key::Op => op_behind(b"op=", line),
        Key::I => number_behind(b"i=", line, 255),
        Key::D => number_behind(b"d=", line, u32::MAX),
        Key::E => number_behind(b"e=", line, u32::MAX),
    }
}
