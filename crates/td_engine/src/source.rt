//! Where a script comes from.
ghost use Rattle.std.specs.Prelude.{◌≡◌, ℕ, ◌<◌, ◌≤◌, Bool, cond, List, length, Option, None, IfOk};
ghost use Rattle.std.specs.Prelude.{IsFalse, IsTrue, OnErr, OnOk};
ghost use Rattle.std.specs.Io.KnownBytes.{IsAtEnd};
ghost use Rattle.td_engine.specs.model.Told.{Pulls};

use std::io::{ErrorKind, Read};

/// A source or a sink gave up.
#[derive(Clone, Copy, Debug, PartialEq, Eq)]
pub struct Broken;

/// How many answers `Interrupted` in a row break a source or a sink.
pub const PATIENCE: u8 = 64;

/// Where a script comes from.
pub trait Source {
    /// The bytes that it still has to give, where it tells them.
    ghost left: { Self → Option (List ℕ) };

    /// Whether a call has answered `Broken`: what is broken stays so.
    ghost is_broken: { Self → Bool };

    /// Moves the next bytes into the front of the buffer and answers how many they are: 0, for
    /// a buffer that is not empty, only at the end.
    fn pull(&mut self, buffer: &mut [u8]) -> Result<usize, Broken>
        ensures bound { IfOk result (λ n. n ≤ length buffer.new) }
        ensures bytes { Pulls (left self.old) (left self.new) result buffer.new }
        ensures end { IfOk result (λ n. n ≡ 0 → 0 < length buffer.new → IsAtEnd (left self.new)) }
        ensures broken { OnErr result (IsTrue (is_broken self.new)) }
        ensures stays { OnOk result (is_broken self.new ≡ is_broken self.old) };
}

/// A source over a reader of std. An error or too many answers `Interrupted` in a row break
/// it; once broken it answers `Broken` without a call.
pub struct IoSource<R> {
    reader: R,
    gave_up: bool,
}

impl<R: Drop> Drop for IoSource<R> {
    fn drop(self) {
        let IoSource {
            reader: _,
            gave_up: _,
        } = self;
    }
}

impl<R: Read> IoSource<R> {
    /// A source that is not broken, with the bytes that the reader has.
    pub fn new(reader: R) -> IoSource<R>
        ensures told { ⟦<IoSource<R> as Source>⟧.left result ≡ R.remaining reader }
        ensures whole { IsFalse (⟦<IoSource<R> as Source>⟧.is_broken result) }
    {
        IoSource {
            reader,
            gave_up: false,
        }
    }
}

impl<R: Read> Source for IoSource<R> {
    ghost left = { λ s. cond s.gave_up None (R.remaining s.reader) };

    ghost is_broken = { λ s. s.gave_up };

    /// Once the source is broken, each later call answers `Broken` and moves nothing.
    fn pull(&mut self, buffer: &mut [u8]) -> Result<usize, Broken>
        ensures bound { IfOk result (λ n. n ≤ length buffer.new) }
        ensures bytes { Pulls (⟦<IoSource<R> as Source>⟧.left self.old)
            (⟦<IoSource<R> as Source>⟧.left self.new) result buffer.new }
        ensures end { IfOk result (λ n. n ≡ 0 → 0 < length buffer.new
            → IsAtEnd (⟦<IoSource<R> as Source>⟧.left self.new)) }
        ensures broken { OnErr result (IsTrue (⟦<IoSource<R> as Source>⟧.is_broken self.new)) }
        ensures stays { OnOk result (⟦<IoSource<R> as Source>⟧.is_broken self.new
            ≡ ⟦<IoSource<R> as Source>⟧.is_broken self.old) }
        ensures still { IsTrue (⟦<IoSource<R> as Source>⟧.is_broken self.old)
            → self.new ≡ self.old }
    {
        if self.gave_up {
            return Err(Broken);
        }
        for _ in 0..PATIENCE {
            match self.reader.read(buffer) {
                Ok(count) => return Ok(count),
                Err(error) => {
                    if error.kind() != ErrorKind::Interrupted {
                        break;
                    }
                }
            }
        }
        self.gave_up = true;
        Err(Broken)
    }
}
