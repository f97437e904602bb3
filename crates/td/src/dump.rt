//! The dump of the database that a script leaves.
ghost use Rattle.std.specs.Prelude.{◌≡◌, ℕ, IfErr, IfOk, IsTrue, OnOk, take};
ghost use Rattle.std.specs.Io.KnownBytes.{Appends};
ghost use Rattle.td.specs.model.Sessions.{ScriptPromise};
ghost use Rattle.td.specs.declared.line.Mode.TheVariants.{Dump};
ghost use Rattle.td_catalog.specs.model.Dumps.{dump_text};
ghost use Rattle.td_engine.specs.model.Faults.{IfMemory, IfRead, IfReadLimit, IfWrite};
ghost use Rattle.td_engine.specs.model.Promises.{seen};
ghost use Rattle.td_engine.specs.model.Told.{AppendsIfTold, StaysWhole};

use std::alloc::Global;
use td_body::body::Body;
use td_engine::engine::Engine;
use td_engine::run::{Report, RunFault, run};
use td_engine::sink::{Sink, put_bytes};
use td_engine::source::{Broken, Source};

/// A sink that lets all bytes go.
#[derive(Drop)]
struct Nowhere;

impl Sink for Nowhere {
    ghost use Rattle.std.specs.Prelude.{None, false};

    ghost taken = { λ _. None };

    ghost is_broken = { λ _. false };

    fn put(&mut self, bytes: &[u8]) -> Result<usize, Broken> {
        Ok(bytes.len())
    }
}

/// Writes the dump of the database, after a run that answered this report.
fn write_dump<B: Body, W: Sink>(
    engine: &Engine<B>,
    writer: &mut W,
    report: Report,
) -> Result<Report, RunFault>
    ensures written { IfOk result (λ r. (r ≡ report)
        × Appends (W.taken writer.old) (W.taken writer.new) (dump_text engine.now.database)) }
    ensures whole { OnOk result (StaysWhole (W.is_broken writer.old) (W.is_broken writer.new)) }
    ensures memory { IfErr result (IfMemory (λ done. (done ≡ report.statements)
        × (W.taken writer.new ≡ W.taken writer.old))) }
    ensures write { IfErr result (IfWrite (λ done. (done ≡ report.statements)
        × ((n : ℕ) × AppendsIfTold (W.taken writer.old) (W.taken writer.new)
        (take n (dump_text engine.now.database))))) }
    ensures broken { IfErr result (IfWrite (λ done. IsTrue (W.is_broken writer.new))) }
    ensures read { IfErr result (IfRead (λ done. ⊥)) }
    ensures limit { IfErr result (IfReadLimit (λ done. ⊥)) }
{
    let done = report.statements;
    let Ok(text) = engine.dump() else {
        return Err(RunFault::Memory { done });
    };
    match put_bytes(writer, text.as_bytes()) {
        Ok(()) => Ok(report),
        Err(Broken) => Err(RunFault::Write { done }),
    }
}

/// Runs a script, lets its answers go and writes the dump of the database that it leaves; at a
/// fault of the run it writes nothing.
pub(crate) fn dump<B: Body, R: Source, W: Sink>(
    alloc: Global,
    engine: &mut Engine<B>,
    reader: &mut R,
    writer: &mut W,
    stop: bool,
) -> Result<Report, RunFault>
    ensures { ScriptPromise Dump stop (seen engine.old (R.left reader.old)
        (R.is_broken reader.old) (W.taken writer.old) (W.is_broken writer.old))
        (seen engine.new (R.left reader.new) (R.is_broken reader.new) (W.taken writer.new)
        (W.is_broken writer.new)) result }
{
    let mut nowhere = Nowhere;
    match run(alloc, engine, reader, &mut nowhere, stop) {
        Ok(report) => write_dump(engine, writer, report),
        Err(fault) => Err(fault),
    }
}
