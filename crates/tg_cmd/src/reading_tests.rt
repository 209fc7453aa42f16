//! Worked texts: what is read of them, and the places of their faults.
use std::alloc::{AllocError, Global};
use std::test::Fail;
use tg_lex::lex;
use tg_syntax::{FormErr, RawTheory, parse_check, parse_judge, parse_theory};

const INC: &[u8] =
    b"theory Inc version 1 begin program put :: nat => nat; spec x . x < 3 --> x < put x; end";

const JUDGED: &[u8] =
    b"theory A version 1 begin end outcomes depth 3 bound 8 seed 1 tries 1000 width 16 begin answer 1 (Cons 4 Nil); raised 2; end";

// Each rule of the calculus once, in their order.
const CHECKED: &[u8] = b"theory A version 1 begin end certificate 1 begin
1 hyp {nat, bool} [!0 = 0]; 2 weak 1 [True]; 3 cut 1 2; 4 grow 1 {nat}; 5 andI 1 2; 6 andL 1; 7 andR 1;
8 impI 1 (THYP [True]); 9 mp 1 2; 10 allI 1; 11 allE 1 ?1; 12 exI 1 (EX nat. [!1 = 0]) 0; 13 exE 1 2;
14 thypI 1; 15 thypE 1; 16 true {}; 17 false 1 (ALL nat. (deep 2 !1 (Suc 0))); 18 split 1 2 (0 < ?1);
19 refl {} (let !1 = 2 in !1); 20 sym 1; 21 trans 1 2; 22 replace 1 2 ([True] & [False]);
23 schema {} if_true True; 24 exhaust 1 2 3 4; 25 deep {nat} 1 0 ?1; 26 compute {} (1 + 1 = 2); end";

// What is read of a text: how many declarations it has, or why it is none.
#[derive(Clone, Copy, Debug, PartialEq, Eq)]
enum Found {
    Theory(usize),
    Fault(u64),
    Nested,
    Nothing,
}

fn answer_of(read: Result<RawTheory, FormErr>) -> Found {
    match read {
        Ok(theory) => Found::Theory(theory.decls.as_slice().len()),
        Err(FormErr::Form { decl }) => Found::Fault(decl),
        Err(FormErr::Nested) => Found::Nested,
        Err(FormErr::Memory) => Found::Nothing,
    }
}

fn theory_in(alloc: Global, text: &[u8]) -> Found {
    match lex(alloc, text) {
        Ok(tokens) => answer_of(parse_theory(alloc, text, tokens.as_slice())),
        Err(_) => Found::Nothing,
    }
}

// A theory with a variable in so many brackets.
fn nested(alloc: Global, count: usize) -> Result<Vec<u8>, AllocError> {
    let mut text = Vec::from_slice(alloc, b"theory A version 1 begin spec x . ")?;
    for _ in 0..count {
        text.push(b'(')?;
    }
    text.push(b'x')?;
    for _ in 0..count {
        text.push(b')')?;
    }
    text.extend_from_slice(b"; end")?;
    Ok(text)
}

#[test]
fn a_theory_is_read(rt: HostRuntime) -> Result<(), Fail> {
    if let Ok(tokens) = lex(rt.alloc(), INC) {
        if let Ok(theory) = parse_theory(rt.alloc(), INC, tokens.as_slice()) {
            assert!(rt; theory.name.bytes() == b"Inc".as_slice());
            assert_eq!(rt; theory.decls.as_slice().len(), 2);
            return Ok(());
        }
    }
    assert!(rt; false);
    Ok(())
}

#[test]
fn outcomes_are_read(rt: HostRuntime) -> Result<(), Fail> {
    if let Ok(tokens) = lex(rt.alloc(), JUDGED) {
        if let Ok((_, outcomes)) = parse_judge(rt.alloc(), JUDGED, tokens.as_slice()) {
            assert!(rt; outcomes.settings == [3, 8, 1, 1000, 16]);
            assert_eq!(rt; outcomes.items.as_slice().len(), 2);
            return Ok(());
        }
    }
    assert!(rt; false);
    Ok(())
}

#[test]
fn a_certificate_is_read(rt: HostRuntime) -> Result<(), Fail> {
    if let Ok(tokens) = lex(rt.alloc(), CHECKED) {
        if let Ok((_, certificate)) = parse_check(rt.alloc(), CHECKED, tokens.as_slice()) {
            assert_eq!(rt; certificate.lines.as_slice().len(), 26);
            for (place, line) in certificate.lines.as_slice().iter().enumerate() {
                assert_eq!(rt; line.rule as usize, place + 1);
                assert_eq!(rt; line.number as usize, place + 1);
            }
            return Ok(());
        }
    }
    assert!(rt; false);
    Ok(())
}

#[test]
fn faults_stand_at_their_places(rt: HostRuntime) -> Result<(), Fail> {
    for (text, decl) in [
        (&b""[..], 0),
        (&b"theory A version 1 begin"[..], 0),
        (&b"theory A version 2 begin end"[..], 0),
        (
            &b"theory A version 1 begin program f :: nat; spec x . x"[..],
            2,
        ),
        (
            &b"theory A version 1 begin program f :: nat; end spec"[..],
            1,
        ),
    ] {
        assert_eq!(rt; theory_in(rt.alloc(), text), Found::Fault(decl));
    }
    Ok(())
}

#[test]
fn four_hundred_brackets_are_read(rt: HostRuntime) -> Result<(), Fail> {
    for (count, wanted) in [(400, Found::Theory(1)), (401, Found::Nested)] {
        let text = nested(rt.alloc(), count)?;
        assert_eq!(rt; theory_in(rt.alloc(), text.as_slice()), wanted);
    }
    Ok(())
}
