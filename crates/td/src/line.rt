//! The words of the command line.
ghost use Rattle.std.specs.Prelude.{◌≡◌, IfNone, IfOk, IfSome, codes, map, IsFalse};
ghost use Rattle.clap.specs.Faults.{fault_of};
ghost use Rattle.clap.specs.Kinds.{FailsBy};
ghost use Rattle.clap.specs.Words.{IsPlainArg, app_of, found_of, new_rule, rows_of, rule_of};
ghost use Rattle.clap.specs.Words.{subcommand_of};
ghost use Rattle.clap.specs.Words.{subcommand_rows_of};
ghost use Rattle.clap.specs.declared.builder.command.Command.TheViews.{out-Command};
ghost use Rattle.td.specs.model.CommandLine.{IsOfMode, IsSaidBy, Stops, dump_app, mode_word};
ghost use Rattle.td.specs.model.CommandLine.{run_app, stop_rule, td_app};
ghost use Rattle.td.specs.declared.line.Mode.{Mode};

use clap::{Arg, ArgAction, ArgMatches, Command, Error};
use std::alloc::{AllocError, Global};

/// What a script is run for.
#[derive(Clone, Copy, Debug, PartialEq, Eq)]
pub enum Mode {
    /// Its answers.
    Run,
    /// The dump of the database that it leaves.
    Dump,
}

/// What the command line says.
#[derive(Clone, Copy, Debug, PartialEq, Eq)]
pub struct Line<'a> {
    /// What the script is run for.
    pub mode: Mode,
    /// Whether the first refusal ends the run.
    pub stop: bool,
    /// The script; without it, and where it is `-`, the script is standard input.
    pub file: Option<&'a str>,
}

/// The flag `--stop`.
fn stop_flag<'a>(alloc: Global) -> Arg<'a>
    ensures rule { rule_of result ≡ stop_rule }
    ensures plain { IsPlainArg result }
    ensures local { IsFalse result.global }
{
    Arg::new(alloc, "stop")
        .long("stop")
        .action(ArgAction::SetTrue)
        .help("Ends the run at the first refused statement")
}

/// The script's file.
fn file_word<'a>(alloc: Global) -> Arg<'a>
    ensures rule { rule_of result ≡ new_rule (codes "file") }
    ensures plain { IsPlainArg result }
    ensures local { IsFalse result.global }
{
    Arg::new(alloc, "file").help(
        "The script; without it, or where it is '-', the script is standard input",
    )
}

/// `run`: a flag `--stop` and the file.
fn run_part<'a>(alloc: Global) -> Result<Command<'a>, AllocError>
    ensures app { IfOk result (λ c. app_of c ≡ run_app) }
    ensures local { IfOk result (λ c. IsFalse (out-Command c).has_globals) }
{
    let stop = stop_flag(alloc);
    let file = file_word(alloc);
    Command::new(alloc, "run")
        .about("Runs a script and writes an answer for each statement")
        .arg(stop)?
        .arg(file)
}

/// `dump`: the file.
fn dump_part<'a>(alloc: Global) -> Result<Command<'a>, AllocError>
    ensures app { IfOk result (λ c. app_of c ≡ dump_app) }
    ensures local { IfOk result (λ c. IsFalse (out-Command c).has_globals) }
{
    let file = file_word(alloc);
    Command::new(alloc, "dump")
        .about("Runs a script and writes the dump of the database that it leaves")
        .arg(file)
}

/// What stands at the end of the help.
const HELP_END: &str = "\
Exit status:
  0  no statement was refused
  1  a statement was refused
  2  the command line is wrong
  3  a file, the output or memory failed

Example:
  echo 'WRITE 1 + 2;' | td run";

/// The whole command.
fn command<'a>(alloc: Global) -> Result<Command<'a>, AllocError>
    ensures app { IfOk result (λ c. app_of c ≡ td_app) }
{
    let run = run_part(alloc)?;
    let dump = dump_part(alloc)?;
    Command::new(alloc, "td")
        .about("An engine for Tutorial D")
        .after_help(HELP_END)
        .subcommand_required(true)
        .subcommand(run)?
        .subcommand(dump)
}

fn mode_of(name: &str) -> Option<Mode>
    ensures some { IfSome result (λ mode. name.now ≡ mode_word mode) }
    ensures none { IfNone result ((mode : Mode) → name.now ≡ mode_word mode → ⊥) }
{
    match name {
        "run" => Some(Mode::Run),
        "dump" => Some(Mode::Dump),
        _ => None,
    }
}

/// Whether the first refusal ends the run: `dump` has no such flag.
fn stops(mode: Mode, found: &ArgMatches<'_>) -> bool
    ensures { Stops mode (rows_of (found_of found.now)) result }
{
    match mode {
        Mode::Run => found.get_flag("stop"),
        Mode::Dump => false,
    }
}

/// What the matches say, where they are those of a subcommand that names a mode.
fn line_of<'a>(matches: &ArgMatches<'a>) -> Option<Line<'a>>
    ensures some { IfSome result (λ line. IsSaidBy line (subcommand_rows_of matches.now)) }
    ensures none { IfNone result (IsOfMode (subcommand_rows_of matches.now) → ⊥) }
{
    let (name, found) = matches.subcommand()?;
    let mode = mode_of(name)?;
    Some(Line {
        mode,
        stop: stops(mode, found),
        file: found.get_str("file"),
    })
}

/// What the words say to the command.
fn line_said_by<'a>(command: &mut Command<'a>, words: &'a [&'a str]) -> Result<Line<'a>, Error>
    requires { app_of command.old ≡ td_app }
    ensures said { IfOk result (λ line.
        IsSaidBy line (subcommand_of td_app (map (λ s. s.now) words.entry.now))) }
    ensures refused { FailsBy (fault_of td_app (map (λ s. s.now) words.entry.now)) result }
{
    let matches = command.try_get_matches_from_mut(words)?;
    let Some(line) = line_of(&matches) else {
        unreachable!()
    };
    drop(matches);
    Ok(line)
}

/// Reads the words of the command line, of which the first is the program's name. What it
/// refuses is refused by `clap`, in its words: for memory, or where these words have a fault.
pub fn read_line<'a>(alloc: Global, words: &'a [&'a str]) -> Result<Line<'a>, Error>
    ensures said { IfOk result (λ line.
        IsSaidBy line (subcommand_of td_app (map (λ s. s.now) words.entry.now))) }
    ensures refused { FailsBy (fault_of td_app (map (λ s. s.now) words.entry.now)) result }
{
    let mut command = command(alloc)?;
    let line = line_said_by(&mut command, words);
    drop(command);
    line
}
