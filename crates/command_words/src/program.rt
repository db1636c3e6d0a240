// The parser of the words.
ghost use Rattle.std.specs.Prelude.{◌≡◌, IfOk, false};
ghost use Rattle.clap.specs.Words.{app_of, rule_of};
ghost use Rattle.clap.specs.declared.builder.command.Command.TheViews.{out-Command};
ghost use Rattle.command_words.specs.Program.{bare_app, flag_rule, program_app, run_app, workers_rule};

use clap::{Arg, ArgAction, Command};
use std::alloc::{AllocError, Global};

/// The parser of words of which the first is a command: four commands and the options of `run`, without words for help
/// or a version. `gen` stands here by its name alone, since words that begin so have no reading yet.
pub fn program<'a>(alloc: Global) -> Result<Command<'a>, AllocError>
    ensures { IfOk result (λ command. app_of command ≡ program_app) }
{
    bare(alloc)
        .subcommand(run(alloc)?)?
        .subcommand(Command::new(alloc, "plan"))?
        .subcommand(Command::new(alloc, "check"))?
        .subcommand(Command::new(alloc, "gen"))
}

// A parser without commands, to which the program's own name is no word.
fn bare<'a>(alloc: Global) -> Command<'a>
    ensures { app_of result ≡ bare_app }
{
    Command::new(alloc, "wakerun")
        .no_binary_name(true)
        .disable_help_flag(true)
        .disable_help_subcommand(true)
}

fn run<'a>(alloc: Global) -> Result<Command<'a>, AllocError>
    ensures app { IfOk result (λ command. app_of command ≡ run_app) }
    ensures local { IfOk result (λ command. (out-Command command).has_globals ≡ false) }
{
    Command::new(alloc, "run")
        .arg(workers(alloc))?
        .arg(flag(alloc, "trace"))?
        .arg(flag(alloc, "plain"))
}

fn workers<'a>(alloc: Global) -> Arg<'a>
    ensures rule { rule_of result ≡ workers_rule }
    ensures local { result.global ≡ false }
{
    Arg::new(alloc, "workers")
        .long("workers")
        .default_value("4")
}

fn flag<'a>(alloc: Global, name: &'a str) -> Arg<'a>
    ensures rule { rule_of result ≡ flag_rule name.entry.now }
    ensures local { result.global ≡ false }
{
    Arg::new(alloc, name).long(name).action(ArgAction::SetTrue)
}
