//! `td run [--stop] [FILE]` runs a script of Tutorial D and writes an answer for each statement;
//! `td dump [FILE]` runs it and writes the dump of the database that it leaves.
//!
//! Nothing relies on it. Most used are `program::status`, `session` and `dump`.
//!
//! Read line.rt for the words of the command line, program.rt for files and streams, then
//! session.rt and dump.rt, whose contracts say what is written and which status there is. Tests of
//! all crates stand in tests/.
#![tactic(auto)]

mod dump;
mod line;
mod program;
mod session;
#[cfg(test)]
mod tests;

use std::process::ExitCode;

fn main(rt: HostRuntime) -> ExitCode {
    ExitCode::from(program::status(&rt))
}
