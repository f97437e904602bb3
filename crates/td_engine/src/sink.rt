//! Where answers go.
ghost use Rattle.std.specs.Prelude.{◌≡◌, ℕ, ◌<◌, ◌≤◌, Bool, cond, List, length, Option, None, IfOk};
ghost use Rattle.std.specs.Prelude.{IsFalse, IsTrue, OnErr, OnOk, take};
ghost use Rattle.std.specs.Io.KnownBytes.{Appends};
ghost use Rattle.td_engine.specs.model.Told.{AppendsIfTold, Puts, StaysWhole};

use crate::source::{Broken, PATIENCE};
use std::io::{ErrorKind, Write};

/// Where answers go.
pub trait Sink {
    /// The bytes that it has taken, where it tells them.
    ghost taken: { Self → Option (List ℕ) };

    /// Whether a call has answered `Broken`: what is broken stays so.
    ghost is_broken: { Self → Bool };

    /// Takes bytes off the front and answers how many: at least 1, where there are any.
    fn put(&mut self, bytes: &[u8]) -> Result<usize, Broken>
        ensures bound { IfOk result (λ n. n ≤ length bytes.now) }
        ensures some { IfOk result (λ n. 0 < length bytes.now → 0 < n) }
        ensures bytes { Puts (taken self.old) (taken self.new) result bytes.now }
        ensures broken { OnErr result (IsTrue (is_broken self.new)) }
        ensures stays { OnOk result (is_broken self.new ≡ is_broken self.old) };
}

/// A sink over a writer of std. An error, a write of no byte or too many answers `Interrupted`
/// in a row break it; once broken it answers `Broken` without a call.
pub struct IoSink<W> {
    writer: W,
    gave_up: bool,
}

impl<W: Drop> Drop for IoSink<W> {
    fn drop(self) {
        let IoSink {
            writer: _,
            gave_up: _,
        } = self;
    }
}

impl<W: Write> IoSink<W> {
    /// A sink that is not broken, with the bytes that the writer has taken.
    pub fn new(writer: W) -> IoSink<W>
        ensures told { ⟦<IoSink<W> as Sink>⟧.taken result ≡ W.contents writer }
        ensures whole { IsFalse (⟦<IoSink<W> as Sink>⟧.is_broken result) }
    {
        IoSink {
            writer,
            gave_up: false,
        }
    }
}

impl<W: Write> Sink for IoSink<W> {
    ghost taken = { λ s. cond s.gave_up None (W.contents s.writer) };

    ghost is_broken = { λ s. s.gave_up };

    /// Once the sink is broken, each later call answers `Broken` and takes nothing.
    fn put(&mut self, bytes: &[u8]) -> Result<usize, Broken>
        ensures bound { IfOk result (λ n. n ≤ length bytes.now) }
        ensures some { IfOk result (λ n. 0 < length bytes.now → 0 < n) }
        ensures bytes { Puts (⟦<IoSink<W> as Sink>⟧.taken self.old)
            (⟦<IoSink<W> as Sink>⟧.taken self.new) result bytes.now }
        ensures broken { OnErr result (IsTrue (⟦<IoSink<W> as Sink>⟧.is_broken self.new)) }
        ensures stays { OnOk result (⟦<IoSink<W> as Sink>⟧.is_broken self.new
            ≡ ⟦<IoSink<W> as Sink>⟧.is_broken self.old) }
        ensures still { IsTrue (⟦<IoSink<W> as Sink>⟧.is_broken self.old)
            → self.new ≡ self.old }
    {
        if self.gave_up {
            return Err(Broken);
        }
        for _ in 0..PATIENCE {
            match self.writer.write(bytes) {
                Ok(count) => {
                    if count > 0 || bytes.is_empty() {
                        return Ok(count);
                    }
                    break;
                }
                Err(error) => {
                    if error.kind() != ErrorKind::Interrupted {
                        break;
                    }
                }
            }
        }
        self.gave_up = true;
        Err(Broken)
    }
}

/// Writes all the bytes, by as many calls as the sink wants.
pub fn put_bytes<W: Sink>(writer: &mut W, bytes: &[u8]) -> Result<(), Broken>
    ensures written { OnOk result (Appends (W.taken writer.old) (W.taken writer.new) bytes.now) }
    ensures cut { OnErr result ((n : ℕ) × (n ≤ length bytes.now)
        × AppendsIfTold (W.taken writer.old) (W.taken writer.new) (take n bytes.now)) }
    ensures whole { OnOk result (StaysWhole (W.is_broken writer.old) (W.is_broken writer.new)) }
    ensures broken { OnErr result (IsTrue (W.is_broken writer.new)) }
{
    let mut rest = bytes;
    while !rest.is_empty() {
        match writer.put(rest) {
            Ok(count) => rest = &rest[count..],
            Err(Broken) => return Err(Broken),
        }
    }
    Ok(())
}
