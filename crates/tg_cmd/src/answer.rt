ghost use Rattle.std.specs.Prelude.{◌≡◌, ◌++◌, OnOk, codes, decimal};
ghost use Rattle.tg_cmd.specs.Answers.{status_of, refusal_line, limit_line, settings_text};
ghost use Rattle.tg_cmd.specs.declared.answer.Refusal.TheVariants as refusals;

use std::alloc::AllocError;
use tg_lex::LOAD_LIMIT;
use tg_text::Part::{Number, Text};
use tg_text::put;
use thiserror::Error;

/// How a run ended.
#[derive(Clone, Copy, Debug, PartialEq, Eq)]
pub enum Answer {
    /// The whole result was written.
    Done,
    /// The whole report was written, and a test is judged failed.
    TestsFailed,
    /// The words aren't those of a command. Nothing was read or written.
    Usage,
    /// The source failed. Nothing was written.
    ReadFault,
    /// The sink failed after it took the first `written` bytes of what was to be written.
    WriteFault {
        /// Bytes, fewer than were to be written.
        written: u64,
    },
    /// Memory ran out before anything was written.
    Memory,
    /// The input was refused, and one line was written that says so.
    Refused(Refusal),
    /// The input passes a limit, and one line was written that says so.
    Limit(LimitName),
}

/// Why an input was refused.
#[derive(Clone, Copy, Debug, PartialEq, Eq, Error)]
pub enum Refusal {
    /// The input is no text of the grammar.
    #[error("refused form at declaration {decl}")]
    Form {
        /// How many of the words `datatype`, `primrec`, `definition`, `program`, `spec`, `outcomes` and
        /// `certificate` stand before the fault.
        decl: u64,
    },
    /// A name isn't declared before, or is declared already.
    #[error("refused name at declaration {decl}")]
    Name {
        /// The number of the declaration, from 1; behind all of them where one is missing.
        decl: u64,
    },
    /// There is no typing.
    #[error("refused typing at declaration {decl}")]
    Typing {
        /// The number of the declaration, from 1; behind all of them where one is missing.
        decl: u64,
    },
    /// There are several typings.
    #[error("refused ambiguous at declaration {decl}")]
    Ambiguous {
        /// The number of the declaration, from 1; behind all of them where one is missing.
        decl: u64,
    },
    /// A rule of shape is broken.
    #[error("refused shape at declaration {decl}")]
    Shape {
        /// The number of the declaration, from 1; behind all of them where one is missing.
        decl: u64,
    },
    /// A rule on the program under test is broken.
    #[error("refused program at declaration {decl}")]
    Program {
        /// The number of the declaration, from 1; behind all of them where one is missing.
        decl: u64,
    },
    /// The header of the outcomes states other settings than those in use, in the order depth, bound, seed, tries, width.
    #[error("refused settings stated depth {} bound {} seed {} tries {} width {} used depth {} bound {} seed {} tries {} width {}", .stated[0], .stated[1], .stated[2], .stated[3], .stated[4], .used[0], .used[1], .used[2], .used[3], .used[4])]
    Settings {
        /// The settings of the header.
        stated: [u64; 5],
        /// The settings in use.
        used: [u64; 5],
    },
    /// A record is of no test.
    #[error("refused unknown at test {test}")]
    Unknown {
        /// The number in the record.
        test: u64,
    },
    /// A record is of a test that has one already.
    #[error("refused repeated at test {test}")]
    Repeated {
        /// The number in the record.
        test: u64,
    },
    /// An answer is no value of the program's answer type.
    #[error("refused answer at test {test}")]
    BadAnswer {
        /// The number in the record.
        test: u64,
    },
    /// No function of the name has the program's type, at whatever types for its type variables.
    #[error("refused standin")]
    StandIn,
    /// A line of a certificate bears another number than its place, or is no instance of its rule on earlier lines.
    #[error("refused certificate at line {line}")]
    Certificate {
        /// The place of the first such line, from 1; 0 where there is no line.
        line: u64,
    },
}

/// What an input can have too much of.
#[derive(Clone, Copy, Debug, PartialEq, Eq, Error)]
pub enum LimitName {
    /// More than 16,777,216 bytes.
    #[error("limit input 16777216")]
    Input,
    /// A number of 2^64 or more.
    #[error("limit number 18446744073709551615")]
    Number,
    /// A load of nesting above [`LOAD_LIMIT`].
    #[error("limit nesting {}", LOAD_LIMIT)]
    Nesting,
    /// A term of a declaration of more than 100,000 nodes.
    #[error("limit termsize 100000")]
    TermSize,
    /// More than 4,096 patterns, or a pattern whose terms have together more than 100,000 nodes.
    #[error("limit patterns 4096")]
    Patterns,
    /// More than 4,096 inner nodes over all split trees.
    #[error("limit splits 4096")]
    Splits,
    /// More than 2,000,000 calls that normalise over all patterns and splits, a level of them above 1,000, or a normalised term
    /// of more than 100,000 nodes.
    #[error("limit steps 2000000")]
    Steps,
    /// A list of more than 4,096 clauses, or more of them over all leaves.
    #[error("limit clauses 4096")]
    Clauses,
}

/// How a run ends whose output was written.
#[derive(Clone, Copy, Debug, PartialEq, Eq)]
pub(crate) enum Ending {
    Done,
    TestsFailed,
    Refused(Refusal),
    Limit(LimitName),
}

impl Answer {
    /// The exit status: 0 `Done`, 1 `TestsFailed`, 2 `Usage`, 3 `ReadFault`, 4 `WriteFault`, 5 `Memory`,
    /// 6 `Refused`, 7 `Limit`.
    pub fn status(&self) -> u8
        ensures { result ≡ status_of self.now }
    {
        match self {
            Answer::Done => 0,
            Answer::TestsFailed => 1,
            Answer::Usage => 2,
            Answer::ReadFault => 3,
            Answer::WriteFault { .. } => 4,
            Answer::Memory => 5,
            Answer::Refused(_) => 6,
            Answer::Limit(_) => 7,
        }
    }
}

/// The line that is written in place of a result.
pub(crate) fn put_refusal(out: &mut Vec<u8>, refusal: Refusal) -> Result<(), AllocError>
    ensures { OnOk result (out.new.items ≡ out.old.items ++ refusal_line refusal) }
{
    match refusal {
        Refusal::Form { decl } => put_place(out, b"refused form at declaration ", decl),
        Refusal::Name { decl } => put_place(out, b"refused name at declaration ", decl),
        Refusal::Typing { decl } => put_place(out, b"refused typing at declaration ", decl),
        Refusal::Ambiguous { decl } => put_place(out, b"refused ambiguous at declaration ", decl),
        Refusal::Shape { decl } => put_place(out, b"refused shape at declaration ", decl),
        Refusal::Program { decl } => put_place(out, b"refused program at declaration ", decl),
        Refusal::Settings { stated, used } => put_settings(out, &stated, &used),
        Refusal::Unknown { test } => put_place(out, b"refused unknown at test ", test),
        Refusal::Repeated { test } => put_place(out, b"refused repeated at test ", test),
        Refusal::BadAnswer { test } => put_place(out, b"refused answer at test ", test),
        Refusal::StandIn => put(out, &[Text(b"refused standin\n")]),
        Refusal::Certificate { line } => put_place(out, b"refused certificate at line ", line),
    }
}

/// A line that ends with a number, that of a declaration, of a test or of a line.
fn put_place(out: &mut Vec<u8>, words: &[u8], place: u64) -> Result<(), AllocError>
    ensures { OnOk result (out.new.items ≡ out.old.items ++ (words.now ++ (decimal place ++ codes "\n"))) }
{
    put(out, &[Text(words), Number(place), Text(b"\n")])
}

/// The line of two lists of settings.
fn put_settings(out: &mut Vec<u8>, stated: &[u64; 5], used: &[u64; 5]) -> Result<(), AllocError>
    ensures { OnOk result (out.new.items ≡ out.old.items ++ refusal_line (refusals.Settings stated.now used.now)) }
{
    put(out, &[Text(b"refused settings stated ")])?;
    put_header(out, stated)?;
    put(out, &[Text(b" used ")])?;
    put_header(out, used)?;
    put(out, &[Text(b"\n")])
}

/// Settings in the order of a header.
fn put_header(out: &mut Vec<u8>, s: &[u64; 5]) -> Result<(), AllocError>
    ensures { OnOk result (out.new.items ≡ out.old.items ++ settings_text s.now) }
{
    put(
        out,
        &[
            Text(b"depth "),
            Number(s[0]),
            Text(b" bound "),
            Number(s[1]),
            Text(b" seed "),
            Number(s[2]),
            Text(b" tries "),
            Number(s[3]),
            Text(b" width "),
            Number(s[4]),
        ],
    )
}

/// The line that is written in place of a result.
pub(crate) fn put_limit(out: &mut Vec<u8>, name: LimitName) -> Result<(), AllocError>
    ensures { OnOk result (out.new.items ≡ out.old.items ++ limit_line name) }
{
    match name {
        LimitName::Input => put(out, &[Text(b"limit input 16777216\n")]),
        LimitName::Number => put(out, &[Text(b"limit number 18446744073709551615\n")]),
        LimitName::Nesting => put(
            out,
            &[
                Text(b"limit nesting "),
                Number(u64::from(LOAD_LIMIT)),
                Text(b"\n"),
            ],
        ),
        LimitName::TermSize => put(out, &[Text(b"limit termsize 100000\n")]),
        LimitName::Patterns => put(out, &[Text(b"limit patterns 4096\n")]),
        LimitName::Splits => put(out, &[Text(b"limit splits 4096\n")]),
        LimitName::Steps => put(out, &[Text(b"limit steps 2000000\n")]),
        LimitName::Clauses => put(out, &[Text(b"limit clauses 4096\n")]),
    }
}
