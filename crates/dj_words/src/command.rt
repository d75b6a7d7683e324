//! The command of the program, as `clap` takes it.

ghost use Rattle.std.specs.Prelude.{◌≡◌, IfOk, false};
ghost use Rattle.clap.specs.Simple.{app_of};
ghost use Rattle.clap.specs.Walk.{rule_of};
ghost use Rattle.dj_words.specs.Command.{class_rule, command, make_rule, raw_rule, world_rule};

use clap::{Arg, ArgAction, Command};
use std::alloc::{AllocError, Global};

/// The positional argument: any number of class files.
fn class_argument<'a>(alloc: Global) -> Arg<'a>
    ensures rule { rule_of result ≡ class_rule }
    ensures local { result.global ≡ false }
{
    Arg::new(alloc, "CLASS").action(ArgAction::Append)
}

/// The option that names the list of library files.
fn world_option<'a>(alloc: Global) -> Arg<'a>
    ensures rule { rule_of result ≡ world_rule }
    ensures local { result.global ≡ false }
{
    Arg::new(alloc, "world")
        .long("world")
        .action(ArgAction::Set)
}

/// The option that orders classes to be made.
fn make_option<'a>(alloc: Global) -> Arg<'a>
    ensures rule { rule_of result ≡ make_rule }
    ensures local { result.global ≡ false }
{
    Arg::new(alloc, "make").long("make").action(ArgAction::Set)
}

/// The flag that asks for bodies as they are rebuilt.
fn raw_flag<'a>(alloc: Global) -> Arg<'a>
    ensures rule { rule_of result ≡ raw_rule }
    ensures local { result.global ≡ false }
{
    Arg::new(alloc, "raw")
        .long("raw")
        .action(ArgAction::SetTrue)
}

/// The command, without a flag for help or the version.
pub(crate) fn command<'a>(alloc: Global) -> Result<Command<'a>, AllocError>
    ensures command { IfOk result (λ made. app_of made ≡ command) }
{
    Command::new(alloc, "decompile")
        .disable_help_flag(true)
        .disable_version_flag(true)
        .arg(class_argument(alloc))?
        .arg(world_option(alloc))?
        .arg(make_option(alloc))?
        .arg(raw_flag(alloc))
}
