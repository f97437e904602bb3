//! Sessions: a script on an engine of its own.
ghost use Rattle.std.specs.Prelude.{◌≡◌};
ghost use Rattle.td.specs.model.Sessions.{ScriptPromise, SessionPromise, status_of};
ghost use Rattle.td_engine.specs.model.Machine.{empty_state};
ghost use Rattle.td_engine.specs.model.Promises.{seen};

use crate::dump::dump;
use crate::line::Mode;
use std::alloc::Global;
use td_body::body::Body;
use td_body::hashed::HashBody;
use td_engine::engine::Engine;
use td_engine::laws::runs_keep_legality;
use td_engine::run::{Report, RunFault, run};
use td_engine::sink::Sink;
use td_engine::source::Source;

/// What a session comes to.
#[derive(Clone, Copy, Debug, PartialEq, Eq)]
pub struct Outcome {
    /// The status that the program exits with.
    pub status: u8,
    /// Why the script was not run to its end, or the dump not written.
    pub fault: Option<RunFault>,
}

/// The status of a script that was run to its end.
fn status_of(report: Report) -> u8
    ensures { result ≡ status_of report.refused }
{
    if report.refused == 0 { 0 } else { 1 }
}

/// Runs a script, and writes what the mode wants of it.
fn run_script<B: Body, R: Source, W: Sink>(
    alloc: Global,
    mode: Mode,
    stop: bool,
    engine: &mut Engine<B>,
    reader: &mut R,
    writer: &mut W,
) -> Result<Report, RunFault>
    ensures { ScriptPromise mode stop (seen engine.old (R.left reader.old)
        (R.is_broken reader.old) (W.taken writer.old) (W.is_broken writer.old))
        (seen engine.new (R.left reader.new) (R.is_broken reader.new) (W.taken writer.new)
        (W.is_broken writer.new)) result }
{
    match mode {
        Mode::Run => run(alloc, engine, reader, writer, stop),
        Mode::Dump => dump(alloc, engine, reader, writer, stop),
    }
}

/// A session whose relvars have bodies of the type.
pub(crate) fn session_on<B: Body, R: Source, W: Sink>(
    alloc: Global,
    mode: Mode,
    stop: bool,
    reader: &mut R,
    writer: &mut W,
) -> Outcome
    ensures { SessionPromise mode stop (seen empty_state (R.left reader.old)
        (R.is_broken reader.old) (W.taken writer.old) (W.is_broken writer.old))
        (λ s. seen s (R.left reader.new) (R.is_broken reader.new) (W.taken writer.new)
        (W.is_broken writer.new)) result.status result.fault }
{
    let mut engine: Engine<B> = Engine::new(alloc);
    engine.reveal();
    runs_keep_legality();
    let answered = run_script(alloc, mode, stop, &mut engine, reader, writer);
    drop(engine);
    match answered {
        Ok(report) => Outcome {
            status: status_of(report),
            fault: None,
        },
        Err(fault) => Outcome {
            status: 3,
            fault: Some(fault),
        },
    }
}

/// Runs a script on an empty database, and writes its answers or the dump of the database that it
/// leaves. The status is 0 where nothing was refused, 1 where something was, and 3 where there is a
/// fault.
pub fn session<R: Source, W: Sink>(
    alloc: Global,
    mode: Mode,
    stop: bool,
    reader: &mut R,
    writer: &mut W,
) -> Outcome
    ensures { SessionPromise mode stop (seen empty_state (R.left reader.old)
        (R.is_broken reader.old) (W.taken writer.old) (W.is_broken writer.old))
        (λ s. seen s (R.left reader.new) (R.is_broken reader.new) (W.taken writer.new)
        (W.is_broken writer.new)) result.status result.fault }
{
    session_on::<HashBody, R, W>(alloc, mode, stop, reader, writer)
}
