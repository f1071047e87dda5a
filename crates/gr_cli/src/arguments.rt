//! The simple command of `clap` that reads the words.
ghost use Rattle.std.specs.Prelude.{◌≡◌, All, IfOk, map};
ghost use Rattle.clap.specs.Words.{app_of, rule_of};
ghost use Rattle.gr_cli.specs.Arguments as spec;
ghost use Rattle.gr_cli.specs.ClapWords.{IsOwn};

use clap::{Arg, ArgAction, Command};
use std::alloc::{AllocError, Global};

/// The required argument that is a word by itself.
fn positional<'a>(alloc: Global, name: &'a str) -> Arg<'a>
    ensures rule { rule_of result ≡ spec.positional name.entry.now }
    ensures own { IsOwn result }
{
    Arg::new(alloc, name).required(true).action(ArgAction::Set)
}

/// The option `--name` with one value.
fn option<'a>(alloc: Global, name: &'a str) -> Arg<'a>
    ensures rule { rule_of result ≡ spec.option name.entry.now }
    ensures own { IsOwn result }
{
    Arg::new(alloc, name).long(name).action(ArgAction::Set)
}

/// The flag `--name`.
fn flag<'a>(alloc: Global, name: &'a str) -> Arg<'a>
    ensures rule { rule_of result ≡ spec.flag name.entry.now }
    ensures own { IsOwn result }
{
    Arg::new(alloc, name).long(name).action(ArgAction::SetTrue)
}

/// All arguments of the command.
fn arguments<'a>(alloc: Global) -> Result<Vec<Arg<'a>>, AllocError>
    ensures rules { IfOk result (λ arguments. map rule_of arguments.items ≡ spec.arguments) }
    ensures own { IfOk result (λ arguments. All IsOwn arguments.items) }
{
    Ok(vec![in alloc;
        positional(alloc, "command"),
        option(alloc, "cores"),
        option(alloc, "block"),
        option(alloc, "limit"),
        option(alloc, "steps"),
        option(alloc, "slice"),
        option(alloc, "events"),
        option(alloc, "kind"),
        option(alloc, "size"),
        option(alloc, "seed"),
        flag(alloc, "history"),
        flag(alloc, "counts"),
    ]?)
}

/// The command without arguments: its words don't begin with a program's name, and nothing is added
/// for help or a version.
fn bare_command<'a>(alloc: Global) -> Command<'a>
    ensures { app_of result ≡ spec.bare_command }
{
    Command::new(alloc, "grappa")
        .no_binary_name(true)
        .disable_help_flag(true)
        .disable_version_flag(true)
}

/// The command with all its arguments.
pub(crate) fn simple_command<'a>(alloc: Global) -> Result<Command<'a>, AllocError>
    ensures { IfOk result (λ command. app_of command ≡ spec.simple_command) }
{
    let arguments = arguments(alloc)?;
    bare_command(alloc).args(arguments)
}
