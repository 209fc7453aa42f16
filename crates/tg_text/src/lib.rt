//! Texts put together from pieces of bytes and decimal numbers.
#![tactic(auto)]

ghost use Rattle.std.specs.Prelude.{◌≡◌, ◌++◌, OnOk, OnErr};
ghost use Rattle.tg_text.specs.Text.{part_text, text_of, AppendsSome};

use itoa::Buffer;
use std::alloc::AllocError;

/// A piece of a text.
#[derive(Clone, Copy, Debug)]
pub enum Part<'a> {
    /// These bytes as they are.
    Text(&'a [u8]),
    /// This number in decimal digits, with no zero in front.
    Number(u64),
}

/// Appends the parts to `out`, in their order. Where memory runs out, the parts before the one that did
/// not fit are appended.
pub fn put(out: &mut Vec<u8>, parts: &[Part]) -> Result<(), AllocError>
    ensures whole { OnOk result (out.new.items ≡ out.old.items ++ text_of parts.now) }
    ensures some { OnErr result (AppendsSome out.old.items parts.now out.new.items) }
{
    for part in parts {
        put_part(out, part)?;
    }
    Ok(())
}

fn put_part(out: &mut Vec<u8>, part: &Part) -> Result<(), AllocError>
    ensures whole { OnOk result (out.new.items ≡ out.old.items ++ part_text part.now) }
    ensures unchanged { OnErr result (out.new.items ≡ out.old.items) }
{
    match *part {
        Part::Text(bytes) => out.extend_from_slice(bytes),
        Part::Number(number) => out.extend_from_slice(Buffer::new().format(number).as_bytes()),
    }
}

#[cfg(test)]
mod tests {
    use super::*;
    use std::alloc::Global;
    use std::test::Fail;

    #[test]
    fn parts_come_in_their_order(rt: HostRuntime) -> Result<(), Fail> {
        let mut out = Vec::from_slice(rt.alloc(), b"a")?;
        put(
            &mut out,
            &[
                Part::Text(b"-"),
                Part::Number(0),
                Part::Text(b""),
                Part::Number(120),
            ],
        )?;
        assert_eq!(rt; out.as_slice(), b"a-0120".as_slice());
        Ok(())
    }
}
