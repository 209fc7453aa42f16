ghost use Rattle.std.specs.Prelude.{◌≡◌, ◌∷◌, [], ◌++◌, OnOk, decimal};
ghost use Rattle.tg_render.specs.Render.{last_or, is_apart, put};

use itoa::Buffer;
use std::alloc::AllocError;

/// Writes a token behind what is written, with a space between them where one stands there. Where memory runs out,
/// the space may be written alone.
#[tactic(auto, using(crate::proofs::Ends::ends))]
pub fn put_token(out: &mut Vec<u8>, text: &[u8]) -> Result<(), AllocError>
    ensures { OnOk result (out.new.items ≡ put out.old.items text.now) }
{
    if is_apart(out.as_slice(), text) {
        out.push(b' ')?;
    }
    out.extend_from_slice(text)
}

/// Writes a number in decimal digits as a token.
pub fn put_number(out: &mut Vec<u8>, number: u64) -> Result<(), AllocError>
    ensures { OnOk result (out.new.items ≡ put out.old.items (decimal number)) }
{
    put_token(out, Buffer::new().format(number).as_bytes())
}

/// Ends a line.
pub fn end_line(out: &mut Vec<u8>) -> Result<(), AllocError>
    ensures { OnOk result (out.new.items ≡ out.old.items ++ 10 ∷ []) }
{
    out.push(b'\n')?;
    Ok(())
}

/// Whether a space stands between what is written and a token.
#[tactic(auto, using(crate::proofs::Ends::ends))]
fn is_apart(out: &[u8], text: &[u8]) -> bool
    ensures { result ≡ is_apart (last_or 10 out.now) text.now }
{
    let before = last_byte(out);
    match text.first() {
        Some(next) => stand_apart(before, *next),
        None => false,
    }
}

/// The last byte, or LF where there is none.
#[tactic(auto, using(crate::proofs::Ends::ends))]
fn last_byte(out: &[u8]) -> u8
    ensures { result ≡ last_or 10 out.now }
{
    match out.last() {
        Some(b) => *b,
        None => b'\n',
    }
}

/// Whether a space stands between two bytes of two tokens.
fn stand_apart(before: u8, next: u8) -> bool
    ensures { result ≡ is_apart before (next ∷ []) }
{
    let opens = matches!(before, b'\n' | b'(' | b'[' | b'{' | b'!' | b'?');
    let closes = matches!(next, b')' | b']' | b'}' | b',' | b';' | b'.');
    before == b'(' && next == b'*' || !(opens || closes)
}
