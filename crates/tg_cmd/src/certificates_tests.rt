//! Certificates on worked theories: what is printed of them.
use crate::tests::{INC, SORT, run_whole};
use crate::{Answer, Refusal};
use std::alloc::{AllocError, Global};
use std::test::Fail;
use tg_io::MemSink;

/// The run on a theory and a certificate of these lines.
fn run_checked(
    alloc: Global,
    theory: &[u8],
    lines: &[u8],
) -> Result<(Answer, MemSink), AllocError> {
    let mut input = Vec::from_slice(alloc, theory)?;
    input.extend_from_slice(b"\ncertificate 1 begin ")?;
    input.extend_from_slice(lines)?;
    input.extend_from_slice(b" end")?;
    run_whole(alloc, b"check", input.as_slice())
}

#[test]
fn what_a_certificate_proves_is_printed(rt: HostRuntime) -> Result<(), Fail> {
    let lines = b"1 refl {} 0; 2 schema {} eq_same (0 = 0); 3 replace 2 1 [True];";
    let (answer, sink) = run_checked(rt.alloc(), INC, lines)?;
    assert_eq!(rt; answer, Answer::Done);
    assert_eq!(rt;
        sink.bytes(),
        b"checked Inc
lines 3
vars {}
conclusion [True]
"
            .as_slice()
    );
    Ok(())
}

#[test]
fn hypotheses_and_types_of_variables_are_printed(rt: HostRuntime) -> Result<(), Fail> {
    let lines = b"1 hyp {(nat list)} [(?1 = Nil)]; 2 grow 1 {nat}; 3 weak 2 [(?2 < 3)];";
    let (answer, sink) = run_checked(rt.alloc(), SORT, lines)?;
    assert_eq!(rt; answer, Answer::Done);
    assert_eq!(rt;
        sink.bytes(),
        b"checked Sort
lines 3
vars {(nat list), nat}
hypothesis [(?1 = Nil)]
hypothesis [(?2 < 3)]
conclusion [(?1 = Nil)]
"
            .as_slice()
    );
    Ok(())
}

#[test]
fn the_first_line_that_fails_is_told(rt: HostRuntime) -> Result<(), Fail> {
    let lines = b"1 refl {} 0; 2 schema {} eq_same (0 = 0); 3 replace 2 4 [True];";
    let (answer, sink) = run_checked(rt.alloc(), INC, lines)?;
    assert_eq!(rt; answer, Answer::Refused(Refusal::Certificate { line: 3 }));
    assert_eq!(rt; answer.status(), 6);
    assert_eq!(rt; sink.bytes(), b"refused certificate at line 3\n".as_slice());
    let (answer, sink) = run_checked(rt.alloc(), INC, b"1 refl {} 0; 3 sym 1;")?;
    assert_eq!(rt; answer, Answer::Refused(Refusal::Certificate { line: 2 }));
    assert_eq!(rt; sink.bytes(), b"refused certificate at line 2\n".as_slice());
    Ok(())
}

#[test]
fn a_certificate_without_a_line_is_refused(rt: HostRuntime) -> Result<(), Fail> {
    let (answer, sink) = run_checked(rt.alloc(), INC, b"")?;
    assert_eq!(rt; answer, Answer::Refused(Refusal::Certificate { line: 0 }));
    assert_eq!(rt; sink.bytes(), b"refused certificate at line 0\n".as_slice());
    Ok(())
}

#[test]
fn a_theory_is_refused_before_its_certificate(rt: HostRuntime) -> Result<(), Fail> {
    let theory = b"theory Inc version 1 begin end";
    let (answer, sink) = run_checked(rt.alloc(), theory, b"")?;
    assert_eq!(rt; answer, Answer::Refused(Refusal::Program { decl: 1 }));
    assert_eq!(rt;
        sink.bytes(),
        b"refused program at declaration 1\n".as_slice()
    );
    Ok(())
}
