use crate::{Answer, LimitName, Refusal, run};
use std::alloc::{AllocError, Global};
use std::test::Fail;
use tg_io::{MemSink, MemSource};
use tg_types::Name;

pub(crate) const INC: &[u8] =
    b"theory Inc version 1 begin program put :: nat => nat; spec x . x < 3 --> x < put x; end";

/// The run of one word on an input, with the calls of the source and of the sink that fail. The source
/// gives at most 7 bytes a call, and the sink takes at most 10.
pub(crate) fn run_failing(
    alloc: Global,
    word: &[u8],
    input: &[u8],
    reads: Vec<u64>,
    writes: Vec<u64>,
) -> Result<(Answer, MemSink), AllocError> {
    let words = vec![in alloc; Name::new(alloc, word)?]?;
    let mut source = MemSource::new(Vec::from_slice(alloc, input)?, 7, reads);
    let mut sink = MemSink::new(alloc, 4096, 10, writes)?;
    let answer = run(alloc, words.as_slice(), &mut source, &mut sink);
    Ok((answer, sink))
}

pub(crate) fn run_whole(
    alloc: Global,
    word: &[u8],
    input: &[u8],
) -> Result<(Answer, MemSink), AllocError> {
    run_failing(alloc, word, input, Vec::new(alloc), Vec::new(alloc))
}

#[test]
fn a_class_with_a_datum_is_tested(rt: HostRuntime) -> Result<(), Fail> {
    let (answer, sink) = run_whole(rt.alloc(), b"generate", INC)?;
    assert_eq!(rt; answer, Answer::Done);
    assert_eq!(rt; answer.status(), 0);
    assert_eq!(rt;
        sink.bytes(),
        b"testgen Inc
settings depth 3 bound 8 seed 1 tries 1000 width 16
class 1
pattern ?1
constraint (?1 < 3)
check (?1 < (put ?1))
datum 0
theorem
test 1 ((tested 0) & [(0 < (put 0))])
uniformity 1 (THYP ((EX nat. ((tested !1) & ([(!1 < 3)] & [(!1 < (put !1))]))) --> (ALL nat. ((tested !1) --> ([(!1 < 3)] --> [(!1 < (put !1))])))))
conclusion (ALL nat. ((tested !1) --> [((!1 < 3) --> (!1 < (put !1)))]))
classes 1 tests 1 open 0
"
            .as_slice()
    );
    Ok(())
}

#[test]
fn a_class_without_a_datum_stays_open(rt: HostRuntime) -> Result<(), Fail> {
    let input =
        b"theory Inc version 1 begin program put :: nat => nat; spec x . x < 0 --> x < put x; end";
    let (answer, sink) = run_whole(rt.alloc(), b"generate", input)?;
    assert_eq!(rt; answer, Answer::Done);
    assert_eq!(rt;
        sink.bytes(),
        b"testgen Inc
settings depth 3 bound 8 seed 1 tries 1000 width 16
class 1
pattern ?1
constraint (?1 < 0)
check (?1 < (put ?1))
open
theorem
open 1 (ALL nat. ((tested !1) --> ([(!1 < 0)] --> [(!1 < (put !1))])))
conclusion (ALL nat. ((tested !1) --> [((!1 < 0) --> (!1 < (put !1)))]))
classes 1 tests 0 open 1
"
            .as_slice()
    );
    Ok(())
}

pub(crate) const SORT: &[u8] = b"theory Sort version 1 begin
datatype 'a list = Nil | Cons 'a ('a list);
primrec ins :: nat => (nat list) => (nat list) where
  ins x Nil = Cons x Nil;
  ins x (Cons y ys) = if x <= y then Cons x (Cons y ys) else Cons y (ins x ys);
primrec isort :: nat list => nat list where
  isort Nil = Nil;
  isort (Cons x xs) = ins x (isort xs);
program put :: nat list => nat list;
spec xs . put xs = isort xs;
end";

/// The lines of the text that are no `test` and no `uniformity` are known by hand, as are those of the first class.
#[test]
fn lists_are_sorted_in_four_classes(rt: HostRuntime) -> Result<(), Fail> {
    let (answer, sink) = run_whole(rt.alloc(), b"generate", SORT)?;
    assert_eq!(rt; answer, Answer::Done);
    assert!(rt;
        sink.bytes().starts_with(
            b"testgen Sort
settings depth 3 bound 8 seed 1 tries 1000 width 16
class 1
pattern Nil
check ((put Nil) = Nil)
datum Nil
class 2
pattern (Cons ?1 Nil)
check ((put (Cons ?1 Nil)) = (Cons ?1 Nil))
datum (Cons 0 Nil)
class 3
pattern (Cons ?1 (Cons ?2 Nil))
constraint (?1 <= ?2)
check ((put (Cons ?1 (Cons ?2 Nil))) = (Cons ?1 (Cons ?2 Nil)))
datum (Cons 0 (Cons 0 Nil))
class 4
pattern (Cons ?1 (Cons ?2 Nil))
constraint (~ (?1 <= ?2))
check ((put (Cons ?1 (Cons ?2 Nil))) = (Cons ?2 (Cons ?1 Nil)))
datum (Cons 1 (Cons 0 Nil))
theorem
test 1 ((tested Nil) & [((put Nil) = Nil)])
uniformity 1 (THYP (((tested Nil) & [((put Nil) = Nil)]) --> ((tested Nil) --> [((put Nil) = Nil)])))
test 2 "
        )
    );
    assert!(rt;
        sink.bytes().ends_with(
            b"
regularity (THYP (ALL (nat list). ((tested !1) --> ((deep 3 !1) --> [((put !1) = (isort !1))]))))
conclusion (ALL (nat list). ((tested !1) --> [((put !1) = (isort !1))]))
classes 4 tests 4 open 0
"
        )
    );
    Ok(())
}

#[test]
fn a_true_specification_has_no_class(rt: HostRuntime) -> Result<(), Fail> {
    let input = b"theory T version 1 begin program put :: nat => nat; spec x . True; end";
    let (answer, sink) = run_whole(rt.alloc(), b"generate", input)?;
    assert_eq!(rt; answer, Answer::Done);
    assert_eq!(rt;
        sink.bytes(),
        b"testgen T
settings depth 3 bound 8 seed 1 tries 1000 width 16
theorem
conclusion (ALL nat. ((tested !1) --> [True]))
classes 0 tests 0 open 0
"
            .as_slice()
    );
    Ok(())
}

#[test]
fn limits_on_classes_are_told(rt: HostRuntime) -> Result<(), Fail> {
    let input =
        b"theory T version 1 begin datatype tree = Leaf | Node tree nat tree; program put :: tree => tree; spec t . put t = t; end";
    let words = vec![in rt.alloc();
        Name::new(rt.alloc(), b"generate")?,
        Name::new(rt.alloc(), b"--depth")?,
        Name::new(rt.alloc(), b"6")?,
    ]?;
    let mut source = MemSource::new(Vec::from_slice(rt.alloc(), input)?, 7, Vec::new(rt.alloc()));
    let mut sink = MemSink::new(rt.alloc(), 4096, 10, Vec::new(rt.alloc()))?;
    let answer = run(rt.alloc(), words.as_slice(), &mut source, &mut sink);
    assert_eq!(rt; answer, Answer::Limit(LimitName::Patterns));
    assert_eq!(rt; answer.status(), 7);
    assert_eq!(rt; sink.bytes(), b"limit patterns 4096\n".as_slice());
    Ok(())
}

#[test]
fn a_theory_that_is_not_accepted_is_refused_at_its_place(rt: HostRuntime) -> Result<(), Fail> {
    let input = b"theory Inc version 1 begin end";
    let (answer, sink) = run_whole(rt.alloc(), b"generate", input)?;
    assert_eq!(rt; answer, Answer::Refused(Refusal::Program { decl: 1 }));
    assert_eq!(rt; answer.status(), 6);
    assert_eq!(rt;
        sink.bytes(),
        b"refused program at declaration 1\n".as_slice()
    );
    let input =
        b"theory Inc version 1 begin program x :: nat => nat; spec x . x < 3 --> x < x x; end";
    let (answer, sink) = run_whole(rt.alloc(), b"generate", input)?;
    assert_eq!(rt; answer, Answer::Refused(Refusal::Name { decl: 2 }));
    assert_eq!(rt; sink.bytes(), b"refused name at declaration 2\n".as_slice());
    Ok(())
}

#[test]
fn what_is_no_text_is_refused_at_its_place(rt: HostRuntime) -> Result<(), Fail> {
    let (answer, sink) = run_whole(rt.alloc(), b"generate", &INC[..71])?;
    assert_eq!(rt; answer, Answer::Refused(Refusal::Form { decl: 2 }));
    assert_eq!(rt; answer.status(), 6);
    assert_eq!(rt; sink.bytes(), b"refused form at declaration 2\n".as_slice());
    let (answer, _) = run_whole(rt.alloc(), b"generate", b"")?;
    assert_eq!(rt; answer, Answer::Refused(Refusal::Form { decl: 0 }));
    let (answer, _) = run_whole(rt.alloc(), b"generate", b"theory A (* cut")?;
    assert_eq!(rt; answer, Answer::Refused(Refusal::Form { decl: 0 }));
    Ok(())
}

#[test]
fn limits_are_told_by_name_and_number(rt: HostRuntime) -> Result<(), Fail> {
    let (answer, sink) = run_whole(rt.alloc(), b"generate", b"18446744073709551616")?;
    assert_eq!(rt; answer, Answer::Limit(LimitName::Number));
    assert_eq!(rt; answer.status(), 7);
    assert_eq!(rt;
        sink.bytes(),
        b"limit number 18446744073709551615\n".as_slice()
    );
    let (answer, sink) = run_whole(rt.alloc(), b"generate", &[b'('; 401])?;
    assert_eq!(rt; answer, Answer::Limit(LimitName::Nesting));
    assert_eq!(rt; sink.bytes(), b"limit nesting 400\n".as_slice());
    Ok(())
}

#[test]
fn faults_are_answered_as_such(rt: HostRuntime) -> Result<(), Fail> {
    let first = vec![in rt.alloc(); 1]?;
    let (answer, sink) = run_failing(rt.alloc(), b"generate", INC, first, Vec::new(rt.alloc()))?;
    assert_eq!(rt; answer, Answer::ReadFault);
    assert_eq!(rt; answer.status(), 3);
    assert_eq!(rt; sink.bytes(), b"".as_slice());
    let second = vec![in rt.alloc(); 2]?;
    let (answer, sink) = run_failing(rt.alloc(), b"generate", INC, Vec::new(rt.alloc()), second)?;
    assert_eq!(rt; answer, Answer::WriteFault { written: 10 });
    assert_eq!(rt; answer.status(), 4);
    assert_eq!(rt; sink.bytes(), b"testgen In".as_slice());
    Ok(())
}

#[test]
fn other_words_are_no_command(rt: HostRuntime) -> Result<(), Fail> {
    let (answer, sink) = run_whole(rt.alloc(), b"prove", INC)?;
    assert_eq!(rt; answer, Answer::Usage);
    assert_eq!(rt; answer.status(), 2);
    assert_eq!(rt; sink.bytes(), b"".as_slice());
    assert_eq!(rt; Answer::Memory.status(), 5);
    Ok(())
}
