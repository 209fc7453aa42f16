//! Commands on a theory alone: its harness, and a function that stands in.
use crate::tests::{SORT, run_whole};
use crate::{Answer, Refusal, run};
use std::alloc::{AllocError, Global};
use std::test::Fail;
use tg_io::{MemSink, MemSource};
use tg_types::Name;

fn simulated(alloc: Global, name: &[u8]) -> Result<(Answer, MemSink), AllocError> {
    let words = vec![in alloc; Name::new(alloc, b"simulate")?, Name::new(alloc, name)?]?;
    let mut source = MemSource::new(Vec::from_slice(alloc, SORT)?, 4096, Vec::new(alloc));
    let mut sink = MemSink::new(alloc, 4096, 4096, Vec::new(alloc))?;
    let answer = run(alloc, words.as_slice(), &mut source, &mut sink);
    Ok((answer, sink))
}

#[test]
fn a_function_stands_in(rt: HostRuntime) -> Result<(), Fail> {
    let (answer, sink) = simulated(rt.alloc(), b"isort")?;
    assert_eq!(rt; answer, Answer::Done);
    assert_eq!(rt;
        sink.bytes(),
        b"outcomes depth 3 bound 8 seed 1 tries 1000 width 16 begin
answer 1 Nil;
answer 2 (Cons 0 Nil);
answer 3 (Cons 0 (Cons 0 Nil));
answer 4 (Cons 0 (Cons 1 Nil));
end
"
            .as_slice()
    );
    Ok(())
}

#[test]
fn a_function_of_another_type_does_not(rt: HostRuntime) -> Result<(), Fail> {
    let (answer, sink) = simulated(rt.alloc(), b"ins")?;
    assert_eq!(rt; answer, Answer::Refused(Refusal::StandIn));
    assert_eq!(rt; sink.bytes(), b"refused standin\n".as_slice());
    Ok(())
}

#[test]
fn the_harness_runs_each_test(rt: HostRuntime) -> Result<(), Fail> {
    let (answer, sink) = run_whole(rt.alloc(), b"harness", SORT)?;
    assert_eq!(rt; answer, Answer::Done);
    assert_eq!(rt;
        sink.bytes(),
        b"#!/bin/sh
printf '%s\\n' 'outcomes depth 3 bound 8 seed 1 tries 1000 width 16 begin'
if a=$(\"$1\" 'Nil'); then printf '%s\\n' \"answer 1 $a;\"; else printf '%s\\n' 'raised 1;'; fi
if a=$(\"$1\" '(Cons 0 Nil)'); then printf '%s\\n' \"answer 2 $a;\"; else printf '%s\\n' 'raised 2;'; fi
if a=$(\"$1\" '(Cons 0 (Cons 0 Nil))'); then printf '%s\\n' \"answer 3 $a;\"; else printf '%s\\n' 'raised 3;'; fi
if a=$(\"$1\" '(Cons 1 (Cons 0 Nil))'); then printf '%s\\n' \"answer 4 $a;\"; else printf '%s\\n' 'raised 4;'; fi
printf '%s\\n' 'end'
"
            .as_slice()
    );
    Ok(())
}
