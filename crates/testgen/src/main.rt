//! `testgen`: the words of the command line, standard input and standard output, handed to
//! `tg_cmd::run`. Its answer is the exit status, and at faults and refusals one line on standard error.
#![tactic(auto)]

mod help;

use std::alloc::AllocGlobal;
use std::env::{self, Env};
use std::io::{Eprint, ErrorKind};
use std::process::ExitCode;
use tg_cmd::{Answer, run};
use tg_io::{StdSink, StdSource};
use tg_types::Name;

fn main(rt: HostRuntime) -> ExitCode {
    let answer = match words(&rt) {
        Ok(words) => {
            let mut source = StdSource::new(rt.stdin());
            let mut sink = StdSink::new(rt.stdout());
            run(rt.alloc(), words.as_slice(), &mut source, &mut sink)
        }
        Err(answer) => answer,
    };
    explain(&rt, &answer);
    ExitCode::from(answer.status())
}

/// The words after the program's name. One that is no UTF-8 is no word of a command.
fn words(rt: &(impl Env + AllocGlobal)) -> Result<Vec<Name>, Answer> {
    let args = env::args(rt).map_err(|error| match error.kind() {
        ErrorKind::OutOfMemory => Answer::Memory,
        _ => Answer::Usage,
    })?;
    let mut words = Vec::new(rt.alloc());
    for word in args.skip(1) {
        let word = Name::new(rt.alloc(), word.as_bytes()).map_err(|_| Answer::Memory)?;
        words.push(word).map_err(|_| Answer::Memory)?;
    }
    Ok(words)
}

/// Says on standard error why there is no result. Where standard error can't be written, the exit
/// status alone says so.
fn explain(rt: &(impl Eprint + AllocGlobal), answer: &Answer) {
    let _ = match answer {
        Answer::ReadFault => eprintln!(rt; "read fault"),
        Answer::WriteFault { written } => eprintln!(rt; "write fault after {written} bytes"),
        Answer::Memory => eprintln!(rt; "out of memory"),
        Answer::Refused(refusal) => eprintln!(rt; "{refusal}"),
        Answer::Limit(limit) => eprintln!(rt; "{limit}"),
        Answer::Usage => return advise(rt),
        Answer::Done | Answer::TestsFailed => Ok(()),
    };
}

/// Prints the help on standard error.
fn advise(rt: &(impl Eprint + AllocGlobal)) {
    if let Ok(text) = help::render(rt.alloc()) {
        let _ = eprint!(rt; "{text}");
    }
}
