//! The words of a run, read by hand. It takes no memory, so that words that are no command are told even
//! where there is none.
ghost use Rattle.std.specs.Prelude.{◌≡◌, ◌≢◌, MatchOption, IsTrue};
ghost use Rattle.std.specs.List.{list_all};
ghost use Rattle.tg_cmd.specs.Requests.{IsCommand, AskFor, asked, command_word, NamesWith};
ghost use Rattle.tg_lex.specs.Bytes.{is_letter, is_name_byte};
ghost use Rattle.tg_lex.specs.Grammar.{is_word};

use crate::options::settings_of;
use tg_types::{Name, Settings};

/// What is to be done, and with which settings.
#[derive(Clone, Copy, Debug)]
pub(crate) enum Request<'a> {
    /// The classes of a theory, their data and the test theorem.
    Generate(Settings),
    /// The shell harness of the tests.
    Harness(Settings),
    /// The report on a theory with recorded outcomes, which are judged.
    Judge(Settings),
    /// The outcomes of the tests where the function of the name stands in as the program.
    Simulate(&'a Name, Settings),
    /// The sequent that a certificate proves.
    Check,
}

#[derive(Clone, Copy, Debug)]
enum Command {
    Generate,
    Harness,
    Judge,
    Simulate,
    Check,
}

/// What the words ask for, if they are those of a command.
pub(crate) fn request_of(words: &[Name]) -> Option<Request<'_>>
    ensures { MatchOption result (IsCommand words.now → ⊥) (λ r. AskFor words.now (asked r)) }
{
    match words {
        [command, rest @ ..] => match command_of(command)? {
            Command::Generate => Some(Request::Generate(settings_of(rest)?)),
            Command::Harness => Some(Request::Harness(settings_of(rest)?)),
            Command::Judge => Some(Request::Judge(settings_of(rest)?)),
            Command::Simulate => {
                let (name, settings) = named(rest)?;
                Some(Request::Simulate(name, settings))
            }
            Command::Check if rest.is_empty() => Some(Request::Check),
            Command::Check => None,
        },
        [] => None,
    }
}

fn command_of(word: &Name) -> Option<Command>
    ensures { MatchOption result ((c : _) → word.now ≢ command_word c) (λ c. word.now ≡ command_word c) }
{
    let word = word.bytes();
    if word == b"generate".as_slice() {
        Some(Command::Generate)
    } else if word == b"harness".as_slice() {
        Some(Command::Harness)
    } else if word == b"judge".as_slice() {
        Some(Command::Judge)
    } else if word == b"simulate".as_slice() {
        Some(Command::Simulate)
    } else if word == b"check".as_slice() {
        Some(Command::Check)
    } else {
        None
    }
}

/// A name and the settings that the options behind it make.
fn named(words: &[Name]) -> Option<(&Name, Settings)>
    ensures { MatchOption result ((name : _) → (s : _) → NamesWith words.now name s → ⊥) (λ r. NamesWith words.now r.0.now r.1) }
{
    match words {
        [name, options @ ..] => {
            let settings = settings_of(options)?;
            if is_word(name.bytes()) {
                Some((name, settings))
            } else {
                None
            }
        }
        [] => None,
    }
}

/// A letter, and then letters, digits and `_`.
fn is_word(bytes: &[u8]) -> bool
    ensures { result ≡ is_word bytes.now }
{
    match bytes {
        [first, rest @ ..] => is_letter(*first) && are_name_bytes(rest),
        [] => false,
    }
}

fn is_letter(byte: u8) -> bool
    ensures { result ≡ is_letter byte }
{
    byte.is_ascii_alphabetic()
}

fn are_name_bytes(bytes: &[u8]) -> bool
    ensures { result ≡ list_all is_name_byte bytes.now }
{
    bytes.iter().all(|b| is_name_byte(*b))
}

fn is_name_byte(byte: u8) -> bool
    ensures { result ≡ is_name_byte byte }
{
    is_letter(byte) || byte.is_ascii_digit() || byte == b'_'
}
