//! The help.
use clap::{Arg, Command};
use std::alloc::{AllocError, Global};

/// What the commands do and which options they take, with the range and the default of each, as `clap` renders it. The words are read
/// by `tg_cmd::run` alone.
pub(crate) fn render(alloc: Global) -> Result<String, AllocError> {
    let mut command = with_options(alloc, with_commands(alloc)?)?;
    command.render_help()
}

fn with_commands(alloc: Global) -> Result<Command<'static>, AllocError> {
    Command::new(alloc, "testgen")
        .about("Generates tests from a theory, and says exactly what they show.")
        .override_usage("testgen COMMAND [OPTIONS] < INPUT > OUTPUT")
        .disable_help_flag(true)
        .disable_help_subcommand(true)
        .subcommand(Command::new(alloc, "generate").about(
            "reads a theory: its classes, their data, and the test theorem",
        ))?
        .subcommand(Command::new(alloc, "harness").about(
            "reads a theory: a shell script that runs a program on the tests",
        ))?
        .subcommand(Command::new(alloc, "judge").about(
            "reads a theory and outcomes: the verdicts, and what they show",
        ))?
        .subcommand(Command::new(alloc, "simulate NAME").about(
            "reads a theory: the outcomes where its function NAME stands in",
        ))?
        .subcommand(Command::new(alloc, "check").about(
            "reads a theory and a certificate: what this proves; no options",
        ))
}

fn with_options<'a>(alloc: Global, command: Command<'a>) -> Result<Command<'a>, AllocError> {
    command
        .arg(option(alloc, "depth", "3").help("constructor depth of the classes, 1 to 8"))?
        .arg(option(alloc, "bound", "8").help("numbers tried in order for a datum, 0 to 20000"))?
        .arg(option(alloc, "seed", "1").help("seed of the random data, below 2^64"))?
        .arg(option(alloc, "tries", "1000").help("random data tried for a class, 0 to 100000"))?
        .arg(option(alloc, "width", "16").help("bits of a random number, 1 to 32"))
}

fn option<'a>(alloc: Global, name: &'a str, default: &'a str) -> Arg<'a> {
    Arg::new(alloc, name)
        .long(name)
        .value_name("N")
        .default_value(default)
}
