use crate::{end_line, put_number, put_token};
use std::test::Fail;

#[test]
fn one_space_stands_between_tokens(rt: HostRuntime) -> Result<(), Fail> {
    let mut out = Vec::new(rt.alloc());
    for text in [b"(".as_slice(), b"ALL", b"nat", b".", b"[", b"!"] {
        put_token(&mut out, text)?;
    }
    put_number(&mut out, 10)?;
    put_token(&mut out, b"]")?;
    put_token(&mut out, b")")?;
    end_line(&mut out)?;
    put_token(&mut out, b"(")?;
    put_token(&mut out, b"*")?;
    assert_eq!(rt; out.as_slice(), b"(ALL nat. [!10])\n( *".as_slice());
    Ok(())
}
