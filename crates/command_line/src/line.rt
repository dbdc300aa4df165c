//! The command line, made of its tables.
use crate::helps::STATUSES;
use crate::tables::{Argument, KINDS, Presence, Subcommand, Values, orders};
use clap::{Arg, ArgAction, Command};
use std::alloc::{AllocError, Global};

/// The program's version, the logic that its proofs are written in, and how to identify the program: by its bytes, since an unproved
/// build has the same constant. `tests/words` compares the logic with README.md and with the kit.
const VERSION: &str = "2.2.0 (logic dac8208d650f15bf)
Compare its SHA-256 sum with SHA256SUMS: in prebuilt/ of the repository, or next to the program in a release.";

/// An argument without an option's name.
fn word<'a>(alloc: Global, name: &'a str, value: &'a str, help: &'a str) -> Arg<'a> {
    Arg::new(alloc, name).value_name(value).help(help)
}

/// An option with one of these values.
fn option<'a>(
    alloc: Global,
    name: &'a str,
    value: &'a str,
    help: &'a str,
    values: &Values,
) -> Arg<'a> {
    let option = word(alloc, name, value, help)
        .long(name)
        .action(ArgAction::Set);
    match values {
        Values::Kinds => option.value_parser(KINDS),
        // so that a negative number is reported as out of range
        Values::Numbers(_, _, _) => option.allow_negative_numbers(true),
        Values::Texts => option,
    }
}

/// The same, which has to be given or requires others.
fn present<'a>(option: Arg<'a>, presence: &Presence) -> Result<Arg<'a>, AllocError> {
    match presence {
        Presence::Required => Ok(option.required(true)),
        Presence::Optional(others) => option.requires_all(others),
        Presence::Instead(others, excluded) => {
            option.requires_all(others)?.conflicts_with_all(excluded)
        }
    }
}

/// An option without a value.
fn flag<'a>(alloc: Global, name: &'a str, help: &'a str) -> Arg<'a> {
    Arg::new(alloc, name)
        .long(name)
        .help(help)
        .action(ArgAction::SetTrue)
}

const CODE: &str = "Code to explain, or a line that has one; without it all codes are listed";

/// The file of a store.
fn store<'a>(alloc: Global) -> Arg<'a> {
    word(alloc, "store", "STORE", "File of the store").required(true)
}

/// The words among which the code of a fault is sought.
fn code<'a>(alloc: Global) -> Arg<'a> {
    word(alloc, "code", "CODE", CODE).num_args(0..)
}

fn arg_of<'a>(alloc: Global, entry: &Argument) -> Result<Arg<'a>, AllocError> {
    match entry {
        Argument::Store => Ok(store(alloc)),
        Argument::Code => Ok(code(alloc)),
        Argument::Flag(name, help) => Ok(flag(alloc, name, help)),
        Argument::Valued(name, value, help, values, presence) => {
            present(option(alloc, name, value, help, values), presence)
        }
    }
}

/// The option of each command that has a fault's line followed by what it means.
fn words<'a>(alloc: Global) -> Arg<'a> {
    flag(
        alloc,
        "words",
        "Print an explanation after an error line, also if standard error is not a terminal",
    )
}

/// Puts a part after the others.
fn add<T: Drop>(parts: &mut Vec<T>, part: T) -> Result<(), AllocError> {
    parts.push(part)?;
    Ok(())
}

/// What a command takes.
fn args_of<'a>(alloc: Global, entries: &[Argument]) -> Result<Vec<Arg<'a>>, AllocError> {
    let mut args = Vec::new(alloc);
    for entry in entries {
        add(&mut args, arg_of(alloc, entry)?)?;
    }
    add(&mut args, words(alloc))?;
    Ok(args)
}

/// A command, without what it takes.
fn bare_command<'a>(alloc: Global, order: &Subcommand) -> Command<'a> {
    Command::new(alloc, order.name)
        .about(order.about)
        .after_help(order.after)
}

/// A command that takes what its table says.
fn command_of<'a>(alloc: Global, order: &Subcommand) -> Result<Command<'a>, AllocError> {
    let args = args_of(alloc, order.entries)?;
    bare_command(alloc, order).args(args)
}

/// The commands, in the order of the help.
fn commands<'a>(alloc: Global) -> Result<Vec<Command<'a>>, AllocError> {
    let mut commands = Vec::new(alloc);
    for order in &orders() {
        add(&mut commands, command_of(alloc, order)?)?;
    }
    Ok(commands)
}

/// The program, without its commands.
fn program<'a>(alloc: Global) -> Command<'a> {
    Command::new(alloc, "plandesk")
        .about(
            "Checks district plans against Iowa Code 42.4, and keeps and serves every version of every plan",
        )
        .version(VERSION)
        .after_help(STATUSES)
        .subcommand_required(true)
}

/// The command line.
pub fn command<'a>(alloc: Global) -> Result<Command<'a>, AllocError> {
    let commands = commands(alloc)?;
    program(alloc).subcommands(commands)
}
