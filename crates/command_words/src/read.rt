// The reading of words: the forms decide whether they have one, and the parser takes it out.
ghost use Rattle.std.specs.Prelude.{◌≡◌, ◌≢◌, List, IfOk, IfErr, Some, None, codes};
ghost use Rattle.clap.specs.Words.{Row, found_of, rows_of, subcommand_rows_of};
ghost use Rattle.command_words.specs.Program.{HaveOptions};
ghost use Rattle.command_words.specs.Words.{reading_of};
ghost use Rattle.command_words.specs.declared.words.RunOptions.{RunOptions};
ghost use Rattle.command_words.specs.declared.words.Words.TheVariants.{Run, Plan, Check};

use crate::forms::have_reading;
use crate::program::program;
use crate::words::{RunOptions, Words};
use clap::ArgMatches;
use clap::error::ErrorKind;
use handoff_data::NoMemory;
use std::alloc::Global;

/// What the words behind the program's name say, if they have a reading. Answers `NoMemory` where memory runs out, and
/// never for words that have none.
pub fn read_words(alloc: Global, words: &[String]) -> Result<Option<Words>, NoMemory>
    ensures ok { IfOk result (λ reading. reading ≡ reading_of words.now) }
    ensures err { IfErr result (λ refused. reading_of words.now ≢ None) }
{
    if !have_reading(words) {
        return Ok(None);
    }
    let command = program(alloc)?;
    match command.try_get_matches_from(words) {
        Ok(matches) => Ok(command_in(&matches)),
        Err(error) if error.kind() == ErrorKind::OutOfMemory => Err(NoMemory),
        // It takes all words that have a reading.
        Err(_) => unreachable!(),
    }
}

// The command that was met, with its options.
fn command_in(matches: &ArgMatches<'_>) -> Option<Words>
    ensures run { (rows : List Row) → (options : RunOptions) → subcommand_rows_of matches.now ≡ Some (codes "run", rows)
        → HaveOptions rows options → result ≡ Some (Run options) }
    ensures plan { (rows : List Row) → subcommand_rows_of matches.now ≡ Some (codes "plan", rows)
        → result ≡ Some Plan }
    ensures check { (rows : List Row) → subcommand_rows_of matches.now ≡ Some (codes "check", rows)
        → result ≡ Some Check }
{
    let (name, options) = matches.subcommand()?;
    match name {
        "run" => Some(Words::Run(options_in(options)?)),
        "plan" => Some(Words::Plan),
        "check" => Some(Words::Check),
        _ => None,
    }
}

// The options behind `run`.
fn options_in(matches: &ArgMatches<'_>) -> Option<RunOptions>
    ensures { (options : RunOptions) → HaveOptions (rows_of (found_of matches.now)) options → result ≡ Some options }
{
    Some(RunOptions {
        workers: matches.get_one::<u32>("workers")?,
        trace: matches.get_flag("trace"),
        plain: matches.get_flag("plain"),
    })
}
