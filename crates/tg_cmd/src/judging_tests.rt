//! Worked theories with recorded outcomes.
use crate::tests::{INC, SORT, run_failing, run_whole};
use crate::{Answer, Refusal};
use std::alloc::{AllocError, Global};
use std::test::Fail;
use tg_io::MemSink;

const NOTHING_RECORDED: &[u8] =
    b"\noutcomes depth 3 bound 8 seed 1 tries 1000 width 16 begin\nend\n";

const ANSWERED_0: &[u8] =
    b"\noutcomes depth 3 bound 8 seed 1 tries 1000 width 16 begin\nanswer 1 0;\nend\n";

const ANSWERED_1: &[u8] =
    b"\noutcomes depth 3 bound 8 seed 1 tries 1000 width 16 begin\nanswer 1 1;\nend\n";

const PASSED_REPORT: &[u8] = b"testgen Inc
settings depth 3 bound 8 seed 1 tries 1000 width 16
class 1
pattern ?1
constraint (?1 < 3)
check (?1 < (put ?1))
datum 0
verdict passed
theorem
test 1 ((tested 0) & [(0 < (put 0))])
uniformity 1 (THYP ((EX nat. ((tested !1) & ([(!1 < 3)] & [(!1 < (put !1))]))) --> (ALL nat. ((tested !1) --> ([(!1 < 3)] --> [(!1 < (put !1))])))))
conclusion (ALL nat. ((tested !1) --> [((!1 < 3) --> (!1 < (put !1)))]))
passed 1 failed 0 undecided 0 raised 0 missing 0 open 0
";

const FAILED_REPORT: &[u8] = b"testgen Inc
settings depth 3 bound 8 seed 1 tries 1000 width 16
class 1
pattern ?1
constraint (?1 < 3)
check (?1 < (put ?1))
datum 0
verdict failed
theorem
open 1 (ALL nat. ((tested !1) --> ([(!1 < 3)] --> [(!1 < (put !1))])))
conclusion (ALL nat. ((tested !1) --> [((!1 < 3) --> (!1 < (put !1)))]))
passed 0 failed 1 undecided 0 raised 0 missing 0 open 0
";

const MISSING_REPORT: &[u8] = b"testgen Inc
settings depth 3 bound 8 seed 1 tries 1000 width 16
class 1
pattern ?1
constraint (?1 < 3)
check (?1 < (put ?1))
datum 0
verdict missing
theorem
open 1 (ALL nat. ((tested !1) --> ([(!1 < 3)] --> [(!1 < (put !1))])))
conclusion (ALL nat. ((tested !1) --> [((!1 < 3) --> (!1 < (put !1)))]))
passed 0 failed 0 undecided 0 raised 0 missing 1 open 0
";

/// What `judge` answers of the theory and the outcomes.
fn judged(alloc: Global, theory: &[u8], outcomes: &[u8]) -> Result<(Answer, MemSink), AllocError> {
    let mut input = Vec::from_slice(alloc, theory)?;
    input.extend_from_slice(outcomes)?;
    run_whole(alloc, b"judge", input.as_slice())
}

#[test]
fn an_answer_that_meets_the_check_passes(rt: HostRuntime) -> Result<(), Fail> {
    let (answer, sink) = judged(rt.alloc(), INC, ANSWERED_1)?;
    assert_eq!(rt; answer, Answer::Done);
    assert_eq!(rt; sink.bytes(), PASSED_REPORT);
    Ok(())
}

#[test]
fn an_answer_that_does_not_meet_the_check_fails(rt: HostRuntime) -> Result<(), Fail> {
    let (answer, sink) = judged(rt.alloc(), INC, ANSWERED_0)?;
    assert_eq!(rt; answer, Answer::TestsFailed);
    assert_eq!(rt; answer.status(), 1);
    assert_eq!(rt; sink.bytes(), FAILED_REPORT);
    Ok(())
}

#[test]
fn without_an_answer_the_test_is_missing(rt: HostRuntime) -> Result<(), Fail> {
    let (answer, sink) = judged(rt.alloc(), INC, NOTHING_RECORDED)?;
    assert_eq!(rt; answer, Answer::Done);
    assert_eq!(rt; sink.bytes(), MISSING_REPORT);
    Ok(())
}

#[test]
fn at_most_is_met_by_equal_numbers(rt: HostRuntime) -> Result<(), Fail> {
    let theory =
        b"theory Inc version 1 begin program put :: nat => nat; spec x . x < 3 --> x <= put x; end";
    let (answer, _) = judged(rt.alloc(), theory, ANSWERED_0)?;
    assert_eq!(rt; answer, Answer::Done);
    Ok(())
}

#[test]
fn a_class_without_a_datum_has_no_test(rt: HostRuntime) -> Result<(), Fail> {
    let theory =
        b"theory Inc version 1 begin program put :: nat => nat; spec x . x < 0 --> x < put x; end";
    let (answer, sink) = judged(rt.alloc(), theory, ANSWERED_1)?;
    assert_eq!(rt; answer, Answer::Refused(Refusal::Unknown { test: 1 }));
    assert_eq!(rt; answer.status(), 6);
    assert_eq!(rt; sink.bytes(), b"refused unknown at test 1\n".as_slice());
    let (answer, _) = judged(rt.alloc(), theory, NOTHING_RECORDED)?;
    assert_eq!(rt; answer, Answer::Done);
    Ok(())
}

const SORTED: &[u8] = b"
outcomes depth 3 bound 8 seed 1 tries 1000 width 16 begin
answer 1 Nil;
answer 2 Cons 0 Nil;
answer 3 (Cons 0 (Cons 0 Nil));
answer 4 (Cons 0 (Cons 1 Nil));
end
";

#[test]
fn sorted_lists_pass(rt: HostRuntime) -> Result<(), Fail> {
    let (answer, sink) = judged(rt.alloc(), SORT, SORTED)?;
    assert_eq!(rt; answer, Answer::Done);
    assert!(rt;
        sink.bytes().ends_with(
            b"
regularity (THYP (ALL (nat list). ((tested !1) --> ((deep 3 !1) --> [((put !1) = (isort !1))]))))
conclusion (ALL (nat list). ((tested !1) --> [((put !1) = (isort !1))]))
passed 4 failed 0 undecided 0 raised 0 missing 0 open 0
"
        )
    );
    Ok(())
}

#[test]
fn other_verdicts_leave_their_classes_open(rt: HostRuntime) -> Result<(), Fail> {
    let outcomes =
        b" outcomes depth 3 bound 8 seed 1 tries 1000 width 16 begin answer 1 Nil; raised 2; answer 4 (Cons 1 (Cons 0 Nil)); end";
    let (answer, sink) = judged(rt.alloc(), SORT, outcomes)?;
    assert_eq!(rt; answer, Answer::TestsFailed);
    assert_eq!(rt; answer.status(), 1);
    assert!(rt;
        sink.bytes().ends_with(
            b"
conclusion (ALL (nat list). ((tested !1) --> [((put !1) = (isort !1))]))
passed 1 failed 1 undecided 0 raised 1 missing 1 open 0
"
        )
    );
    Ok(())
}

#[test]
fn outcomes_of_other_settings_are_refused(rt: HostRuntime) -> Result<(), Fail> {
    let outcomes = b" outcomes depth 2 bound 8 seed 7 tries 1000 width 16 begin end";
    let (answer, sink) = judged(rt.alloc(), INC, outcomes)?;
    assert_eq!(rt;
        answer,
        Answer::Refused(Refusal::Settings {
            stated: [2, 8, 7, 1000, 16],
            used: [3, 8, 1, 1000, 16],
        })
    );
    assert_eq!(rt;
        sink.bytes(),
        b"refused settings stated depth 2 bound 8 seed 7 tries 1000 width 16 used depth 3 bound 8 seed 1 tries 1000 width 16\n".as_slice()
    );
    Ok(())
}

#[test]
fn a_wrong_record_is_refused(rt: HostRuntime) -> Result<(), Fail> {
    let head = b" outcomes depth 3 bound 8 seed 1 tries 1000 width 16 begin ";
    let records: [(&[u8], Refusal, &[u8]); 3] = [
        (
            b"raised 2; end",
            Refusal::Unknown { test: 2 },
            b"refused unknown at test 2\n",
        ),
        (
            b"raised 1; answer 1 True; end",
            Refusal::Repeated { test: 1 },
            b"refused repeated at test 1\n",
        ),
        (
            b"answer 1 True; end",
            Refusal::BadAnswer { test: 1 },
            b"refused answer at test 1\n",
        ),
    ];
    for (record, refusal, line) in records {
        let mut outcomes = Vec::from_slice(rt.alloc(), head)?;
        outcomes.extend_from_slice(record)?;
        let (answer, sink) = judged(rt.alloc(), INC, outcomes.as_slice())?;
        assert_eq!(rt; answer, Answer::Refused(refusal));
        assert_eq!(rt; sink.bytes(), line);
    }
    let (answer, _) = judged(rt.alloc(), INC, b"")?;
    assert_eq!(rt; answer, Answer::Refused(Refusal::Form { decl: 2 }));
    Ok(())
}

#[test]
fn faults_of_judging_are_answered_as_such(rt: HostRuntime) -> Result<(), Fail> {
    let mut input = Vec::from_slice(rt.alloc(), INC)?;
    input.extend_from_slice(ANSWERED_0)?;
    let input = input.as_slice();
    let third = vec![in rt.alloc(); 3]?;
    let (answer, sink) = run_failing(rt.alloc(), b"judge", input, third, Vec::new(rt.alloc()))?;
    assert_eq!(rt; answer, Answer::ReadFault);
    assert_eq!(rt; sink.bytes(), b"".as_slice());
    let third = vec![in rt.alloc(); 3]?;
    let (answer, sink) = run_failing(rt.alloc(), b"judge", input, Vec::new(rt.alloc()), third)?;
    assert_eq!(rt; answer, Answer::WriteFault { written: 20 });
    assert_eq!(rt; sink.bytes(), b"testgen Inc\nsettings".as_slice());
    Ok(())
}
