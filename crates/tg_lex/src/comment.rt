ghost use Rattle.std.specs.Prelude.{◌≡◌, ◌<◌, ◌≤◌, IsTrue, IfSome, length, drop, option_map, true};
ghost use Rattle.tg_lex.specs.Grammar.{opens, closes, after_comment};
ghost use Rattle.tg_lex.specs.Scan.{part_before};

use crate::part::{Fault, Part};

// The comment that begins here.
pub(crate) fn comment_part(bytes: &[u8]) -> Result<Part, Fault>
    requires { opens bytes.now ≡ true }
    ensures { result ≡ part_before bytes.now (after_comment bytes.now) }
{
    match comment_len(bytes) {
        Some(len) => Ok(Part::Skip(len)),
        None => Err(Fault::Comment),
    }
}

// How many bytes the comment that begins here has.
fn comment_len(bytes: &[u8]) -> Option<usize>
    requires { opens bytes.now ≡ true }
    ensures after { option_map (λ len. drop len bytes.now) result ≡ after_comment bytes.now }
    ensures within { IfSome result (λ len. len ≤ length bytes.now) }
{
    let mut depth: usize = 1;
    let mut at = 2;
    while at < bytes.len() {
        let rest = &bytes[at..];
        if opens(rest) {
            depth += 1;
            at += 2;
        } else if closes(rest) {
            depth -= 1;
            at += 2;
            if depth == 0 {
                return Some(at);
            }
        } else {
            at += 1;
        }
    }
    None
}

// Whether `(*` stands here.
pub(crate) fn opens(bytes: &[u8]) -> bool
    ensures { result ≡ opens bytes.now }
{
    match bytes {
        [first, second, ..] => *first == b'(' && *second == b'*',
        _ => false,
    }
}

// Whether `*)` stands here.
fn closes(bytes: &[u8]) -> bool
    ensures { result ≡ closes bytes.now }
{
    match bytes {
        [first, second, ..] => *first == b'*' && *second == b')',
        _ => false,
    }
}
