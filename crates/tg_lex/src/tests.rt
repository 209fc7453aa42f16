use crate::Kind::{Number, Sym, TyVar, Word};
use crate::{Kind, LexErr, Token, is_nested, lex, number};
use std::process::Abort;
use std::test::Fail;
use tg_tables::{SYMBOL_ROWS, symbols};

fn token(kind: Kind, start: usize, end: usize) -> Token {
    Token { kind, start, end }
}

fn reads(rt: &(impl Abort + AllocGlobal), text: &[u8], wanted: &[Token]) -> Result<(), Fail> {
    match lex(rt.alloc(), text) {
        Ok(tokens) => assert_eq!(rt; tokens.as_slice(), wanted),
        Err(_) => assert!(rt; false),
    }
    Ok(())
}

#[derive(Clone, Copy, Debug, PartialEq, Eq)]
enum Found {
    Byte,
    Comment,
    Number,
    Tokens,
}

// The fault of a text, its place and how many tokens come before it.
fn fault(rt: &impl AllocGlobal, text: &[u8]) -> (Found, usize, usize) {
    match lex(rt.alloc(), text) {
        Ok(tokens) => (Found::Tokens, 0, tokens.len()),
        Err(LexErr::Byte { at, before }) => (Found::Byte, at, before.len()),
        Err(LexErr::Comment { at, before }) => (Found::Comment, at, before.len()),
        Err(LexErr::Number { at, before }) => (Found::Number, at, before.len()),
        Err(LexErr::Memory) => (Found::Tokens, 0, 0),
    }
}

#[test]
fn texts_have_their_tokens(rt: HostRuntime) -> Result<(), Fail> {
    reads(&rt, b"", &[])?;
    reads(&rt, b" \t\r\n", &[])?;
    reads(&rt, b"x", &[token(Word, 0, 1)])?;
    reads(&rt, b"a_1B c", &[token(Word, 0, 4), token(Word, 5, 6)])?;
    reads(&rt, b"12ab", &[token(Number, 0, 2), token(Word, 2, 4)])?;
    reads(&rt, b"a'b", &[token(Word, 0, 1), token(TyVar, 1, 3)])?;
    reads(&rt, b"'a0_'b", &[token(TyVar, 0, 4), token(TyVar, 4, 6)])?;
    reads(&rt, b"0017", &[token(Number, 0, 4)])?;
    reads(&rt, b"18446744073709551615", &[token(Number, 0, 20)])?;
    reads(&rt, b"<==", &[token(Sym(12), 0, 2), token(Sym(10), 2, 3)])?;
    reads(&rt, b"==>", &[token(Sym(10), 0, 1), token(Sym(20), 1, 3)])?;
    reads(&rt, b"--->", &[token(Sym(14), 0, 1), token(Sym(19), 1, 4)])?;
    reads(
        &rt,
        b"x::'a",
        &[token(Word, 0, 1), token(Sym(21), 1, 3), token(TyVar, 3, 5)],
    )?;
    reads(&rt, b"(**)", &[])?;
    reads(
        &rt,
        b"a(* (* \" *) 99999999999999999999 *)b",
        &[token(Word, 0, 1), token(Word, 35, 36)],
    )?;
    reads(
        &rt,
        b"( *)",
        &[
            token(Sym(1), 0, 1),
            token(Sym(15), 2, 3),
            token(Sym(2), 3, 4),
        ],
    )?;
    reads(
        &rt,
        b"?1!2",
        &[
            token(Sym(22), 0, 1),
            token(Number, 1, 2),
            token(Sym(23), 2, 3),
            token(Number, 3, 4),
        ],
    )
}

#[test]
fn faults_stand_at_their_places(rt: HostRuntime) -> Result<(), Fail> {
    assert_eq!(rt; fault(&rt, b"\""), (Found::Byte, 0, 0));
    assert_eq!(rt; fault(&rt, b"a _b"), (Found::Byte, 2, 1));
    assert_eq!(rt; fault(&rt, b"x '1"), (Found::Byte, 2, 1));
    assert_eq!(rt; fault(&rt, b"x '"), (Found::Byte, 2, 1));
    assert_eq!(rt; fault(&rt, b"a->b"), (Found::Byte, 2, 2));
    assert_eq!(rt; fault(&rt, b"a:b"), (Found::Byte, 1, 1));
    assert_eq!(rt; fault(&rt, b"a\x80"), (Found::Byte, 1, 1));
    assert_eq!(rt; fault(&rt, b"(*)"), (Found::Comment, 0, 0));
    assert_eq!(rt; fault(&rt, b"x (*(*)*)"), (Found::Comment, 2, 1));
    assert_eq!(rt; fault(&rt, b"1 2 (* a (* b *)"), (Found::Comment, 4, 2));
    assert_eq!(rt;
        fault(&rt, b"a 18446744073709551616"),
        (Found::Number, 2, 1)
    );
    assert_eq!(rt;
        fault(&rt, b"0000000000018446744073709551615"),
        (Found::Tokens, 0, 1)
    );
    assert_eq!(rt;
        fault(&rt, b"99999999999999999999 (* \""),
        (Found::Number, 0, 0)
    );
    assert_eq!(rt;
        fault(&rt, b"(* 99999999999999999999"),
        (Found::Comment, 0, 0)
    );
    Ok(())
}

// Where two symbols join, the longest one is taken first.
#[test]
fn joined_symbols_are_cut_at_the_longest(rt: HostRuntime) -> Result<(), Fail> {
    let table = symbols();
    for left in &SYMBOL_ROWS {
        for right in &SYMBOL_ROWS {
            let mut text = Vec::from_slice(rt.alloc(), left.name.as_bytes())?;
            text.extend_from_slice(right.name.as_bytes())?;
            if text.as_slice().starts_with(b"(*") {
                continue;
            }
            let first = if text.len() > 2 && table.find(&text[..3]).is_some() {
                3
            } else if text.len() > 1 && table.find(&text[..2]).is_some() {
                2
            } else {
                1
            };
            let (found, at, before) = fault(&rt, text.as_slice());
            if found == Found::Tokens {
                assert!(rt; before == 1 && first == text.len() || before > 1);
            } else {
                assert!(rt; found == Found::Byte && at >= first);
            }
        }
    }
    Ok(())
}

#[test]
fn numbers_have_their_values(rt: HostRuntime) -> Result<(), Fail> {
    let text = b"007 18446744073709551615";
    match lex(rt.alloc(), text) {
        Ok(tokens) => {
            for t in &tokens {
                if let Kind::Number = t.kind {
                    let value = number(text, t);
                    assert!(rt; value == 7 || value == u64::MAX);
                }
            }
        }
        Err(_) => assert!(rt; false),
    }
    Ok(())
}

#[test]
fn four_hundred_brackets_are_no_fault(rt: HostRuntime) -> Result<(), Fail> {
    for (count, wanted) in [(400, false), (401, true)] {
        let text = vec![in rt.alloc(); b'('; count]?;
        match lex(rt.alloc(), text.as_slice()) {
            Ok(tokens) => {
                assert_eq!(rt;
                    is_nested(rt.alloc(), text.as_slice(), tokens.as_slice())?,
                    wanted
                );
            }
            Err(_) => assert!(rt; false),
        }
    }
    Ok(())
}
