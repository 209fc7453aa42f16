//! The options of a run.
ghost use Rattle.std.specs.Prelude.{◌≡◌, ◌≢◌, ◌<◌, ◌^◌, ◌↔◌, IsTrue, MatchOption, None, decimal};
ghost use Rattle.tg_cmd.specs.Options.{option_word, IsChoice, choice_of, chosen, all_chosen, settings_in, ReadsOptions, Spell, IsSpelled};

use itoa::Buffer;
use tg_types::{Name, Settings};

/// An option.
#[derive(Clone, Copy, Debug, PartialEq, Eq)]
pub(crate) enum Setting {
    Depth,
    Bound,
    Seed,
    Tries,
    Width,
}

/// The numbers of the options that were given.
#[derive(Clone, Copy, Debug)]
pub(crate) struct Chosen {
    depth: Option<u8>,
    bound: Option<u32>,
    seed: Option<u64>,
    tries: Option<u32>,
    width: Option<u8>,
}

impl Chosen {
    fn is_chosen(&self, setting: Setting) -> bool
        ensures { IsTrue result ↔ (choice_of self.now setting ≢ None) }
    {
        match setting {
            Setting::Depth => self.depth.is_some(),
            Setting::Bound => self.bound.is_some(),
            Setting::Seed => self.seed.is_some(),
            Setting::Tries => self.tries.is_some(),
            Setting::Width => self.width.is_some(),
        }
    }

    fn chosen(self, setting: Setting, number: u64) -> Chosen
        requires { IsChoice (setting, number) }
        ensures { result ≡ chosen self setting number }
    {
        match setting {
            Setting::Depth => Chosen {
                depth: Some(number as u8),
                ..self
            },
            Setting::Bound => Chosen {
                bound: Some(number as u32),
                ..self
            },
            Setting::Seed => Chosen {
                seed: Some(number),
                ..self
            },
            Setting::Tries => Chosen {
                tries: Some(number as u32),
                ..self
            },
            Setting::Width => Chosen {
                width: Some(number as u8),
                ..self
            },
        }
    }
}

/// The settings that the words make, if they are options.
pub(crate) fn settings_of(words: &[Name]) -> Option<Settings>
    ensures { MatchOption result ((s : _) → ReadsOptions words.now s → ⊥) (ReadsOptions words.now) }
{
    let chosen = options_of(words, NOTHING_CHOSEN)?;
    Some(settings_in(&chosen))
}

const NOTHING_CHOSEN: Chosen = Chosen {
    depth: None,
    bound: None,
    seed: None,
    tries: None,
    width: None,
};

fn setting_of(word: &Name) -> Option<Setting>
    ensures { MatchOption result ((s : _) → word.now ≢ option_word s) (λ s. word.now ≡ option_word s) }
{
    let word = word.bytes();
    if word == b"--depth".as_slice() {
        Some(Setting::Depth)
    } else if word == b"--bound".as_slice() {
        Some(Setting::Bound)
    } else if word == b"--seed".as_slice() {
        Some(Setting::Seed)
    } else if word == b"--tries".as_slice() {
        Some(Setting::Tries)
    } else if word == b"--width".as_slice() {
        Some(Setting::Width)
    } else {
        None
    }
}

/// The choices that the words are, where those of `given` were made before.
fn options_of(words: &[Name], given: Chosen) -> Option<Chosen>
    ensures { MatchOption result ((cs : _) → Spell words.now given cs → ⊥) (λ r. (cs : _) × Spell words.now given cs × (r ≡ all_chosen given cs)) }
{
    match words {
        [option, number, rest @ ..] => {
            let (setting, number) = choice_of(option, number)?;
            options_of(rest, add(given, setting, number)?)
        }
        [] => Some(given),
        [_] => None,
    }
}

/// The choice that these two words are.
fn choice_of(option: &Name, number: &Name) -> Option<(Setting, u64)>
    ensures { MatchOption result ((c : _) → IsSpelled option.now number.now c → ⊥) (IsSpelled option.now number.now) }
{
    let setting = setting_of(option)?;
    let number = number_of(number.bytes())?;
    if is_allowed(setting, number) {
        Some((setting, number))
    } else {
        None
    }
}

/// The choices with one more, of an option that wasn't given before.
fn add(given: Chosen, setting: Setting, number: u64) -> Option<Chosen>
    requires { IsChoice (setting, number) }
    ensures { MatchOption result (choice_of given setting ≢ None) (λ r. (choice_of given setting ≡ None) × (r ≡ chosen given setting number)) }
{
    if given.is_chosen(setting) {
        None
    } else {
        Some(given.chosen(setting, number))
    }
}

/// A number below 2^64, with no zero in front: it is read and written again.
fn number_of(text: &[u8]) -> Option<u64>
    ensures { MatchOption result ((n : _) → n < 2 ^ 64 → text.now ≢ decimal n) (λ n. (n < 2 ^ 64) × (text.now ≡ decimal n)) }
{
    let number = read_number(text)?;
    if Buffer::new().format(number).as_bytes() == text {
        Some(number)
    } else {
        None
    }
}

fn read_number(text: &[u8]) -> Option<u64>
    ensures { (n : _) → n < 2 ^ 64 → text.now ≡ decimal n → result ≡ Some n }
{
    match std::str::from_utf8(text) {
        Ok(text) => text.parse().ok(),
        Err(_) => None,
    }
}

/// The number is one of those that the option allows.
fn is_allowed(setting: Setting, number: u64) -> bool
    ensures { IsTrue result ↔ IsChoice (setting, number) }
{
    match setting {
        Setting::Depth => 1 <= number && number <= 8,
        Setting::Bound => number <= 20_000,
        Setting::Seed => true,
        Setting::Tries => number <= 100_000,
        Setting::Width => 1 <= number && number <= 32,
    }
}

fn settings_in(chosen: &Chosen) -> Settings
    ensures { result ≡ settings_in chosen.now }
{
    Settings {
        depth: chosen.depth.unwrap_or(3),
        bound: chosen.bound.unwrap_or(8),
        seed: chosen.seed.unwrap_or(1),
        tries: chosen.tries.unwrap_or(1000),
        width: chosen.width.unwrap_or(16),
    }
}
