//! The harness.
ghost use Rattle.std.specs.Prelude.{◌≡◌, ◌++◌, IfOk, OnOk, map};
ghost use Rattle.tg_harness.specs.HarnessTexts.{quoted, words, print, test_line, test_lines, harness_text};
ghost use Rattle.tg_harness.specs.OutcomeTexts.{head_line};
ghost use Rattle.tg_render.specs.Render.{render};
ghost use Rattle.tg_harness.specs.Tests.{test};
ghost use Rattle.tg_term.specs.Values.{value};

use crate::recording::put_head;
use std::alloc::{AllocError, Global};
use tg_report::value_text;
use tg_term::{Test, Value};
use tg_text::Part::{Number, Text};
use tg_text::put;
use tg_theory::Theory;
use tg_types::Settings;

/// A script for a POSIX shell that runs the program named by its first argument on the inputs of each test, a word an input, and prints
/// the outcomes as `judge` reads them: what the program printed as its answer, or that it raised an error where its exit status isn't 0.
#[tactic(auto, using(crate::proofs::HarnessLaws::writing))]
pub fn write(
    alloc: Global,
    th: &Theory,
    s: &Settings,
    tests: &[Test],
) -> Result<Vec<u8>, AllocError>
    ensures { IfOk result (λ text. text.items ≡ harness_text th.now s.now (map test tests.now)) }
{
    let mut head = Vec::new(alloc);
    put_head(&mut head, s)?;
    let mut out = Vec::new(alloc);
    put(
        &mut out,
        &[
            Text(b"#!/bin/sh\nprintf '%s\\n' '"),
            Text(head.as_slice()),
            Text(b"'\n"),
        ],
    )?;
    put_tests(alloc, &mut out, th, tests)?;
    put(&mut out, &[Text(b"printf '%s\\n' 'end'\n")])?;
    Ok(out)
}

/// Writes the line of each test.
#[tactic(auto, using(crate::proofs::HarnessLaws::writing))]
fn put_tests(
    alloc: Global,
    out: &mut Vec<u8>,
    th: &Theory,
    tests: &[Test],
) -> Result<(), AllocError>
    ensures { OnOk result (out.new.items ≡ out.old.items ++ test_lines th.now (map test tests.now)) }
{
    for test in tests {
        put_test(alloc, out, th, test)?;
    }
    Ok(())
}

/// Writes the line of a test.
#[tactic(auto, using(crate::proofs::HarnessLaws::writing))]
fn put_test(alloc: Global, out: &mut Vec<u8>, th: &Theory, t: &Test) -> Result<(), AllocError>
    ensures { OnOk result (out.new.items ≡ out.old.items ++ test_line th.now (test t.now)) }
{
    let number = u64::from(t.class);
    put(out, &[Text(b"if a=$(\"$1\"")])?;
    put_words(alloc, out, th, t.datum.as_slice())?;
    put(
        out,
        &[
            Text(b"); then printf '%s\\n' \"answer "),
            Number(number),
            Text(b" $a;\"; else printf '%s\\n' 'raised "),
            Number(number),
            Text(b";'; fi\n"),
        ],
    )
}

/// Writes values, a quoted word each.
#[tactic(auto, using(crate::proofs::HarnessLaws::writing))]
fn put_words(alloc: Global, out: &mut Vec<u8>, th: &Theory, vs: &[Value]) -> Result<(), AllocError>
    ensures { OnOk result (out.new.items ≡ out.old.items ++ words th.now (map value vs.now)) }
{
    for v in vs {
        let text = value_text(alloc, th, v)?;
        put(out, &[Text(b" '"), Text(text.as_slice()), Text(b"'")])?;
    }
    Ok(())
}
