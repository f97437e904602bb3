//! The cutter of a script into statements.
ghost use Rattle.std.specs.Prelude.{◌≡◌, ◌+◌, ◌-◌, ◌<◌, ◌≤◌, ◌^◌, [], ◌++◌, length, IfOk, IfSome};
ghost use Rattle.std.specs.Prelude.{OnOk, OnErr, IsFalse, IsTrue, None, Some, drop, false};
ghost use Rattle.std.specs.Prelude.{option_map, true};
ghost use Rattle.td_scan.specs.code.Fronts.{end_of_last};
ghost use Rattle.td_scan.specs.code.Progress.{IsFirstStatement, end_of_statement};
ghost use Rattle.td_tree.specs.model.Division.{up_to};
ghost use Rattle.td_tree.specs.model.Statements.{Held, after, behind, statement_or_rest, ends};
ghost use Rattle.td_tree.specs.model.Statements.{first_statement};
ghost use Rattle.td_tree.specs.model.Statements.{tokens};

use crate::queue::Queue;
use crate::reading::{Reading, bytes_from, is_end, left_may_end, read_on};
use crate::token::{Token, first_token};
use crate::upcoming::Upcoming;
use std::alloc::{AllocError, Global};
use std::marker::Model;

/// The first statement of the tokens of the bytes, which are put into the empty list.
fn statement_of<'a>(
    list: Vec<Token<'a>>,
    bytes: &'a [u8],
    offset: u64,
    finished: bool,
) -> Result<Option<Vec<Token<'a>>>, AllocError>
    requires room { offset + length bytes.now < 2 ^ 64 }
    requires empty { list.items ≡ [] }
    ensures { IfOk result (λ first. option_map (λ v. v.items) first
        ≡ statement_or_rest finished (tokens offset bytes.now)
        (up_to ends (tokens offset bytes.now))) }
{
    let mut found = list;
    let mut start = offset;
    let mut rest = bytes;
    while let Some(next) = first_token(rest, start) {
        let ended = is_end(next.token.kind());
        start = next.token.stop();
        found.push(next.token)?;
        if ended {
            return Ok(Some(found));
        }
        rest = next.rest;
    }
    if finished && !found.is_empty() {
        return Ok(Some(found));
    }
    Ok(None)
}

/// Where the first statement ends, whose last token so far ends at `so_far`; `none` where there is
/// no statement.
fn end_with_rest(bytes: &[u8], offset: u64, finished: bool, so_far: u64, none: u64) -> u64
    requires { offset + length bytes.now < 2 ^ 64 }
    ensures { result ≡ end_of_statement finished none so_far (tokens offset bytes.now) }
{
    let mut last = so_far;
    let mut start = offset;
    let mut rest = bytes;
    while let Some(found) = first_token(rest, start) {
        last = found.token.stop();
        if is_end(found.token.kind()) {
            return last;
        }
        start = last;
        rest = found.rest;
    }
    if finished { last } else { none }
}

/// How many tokens a statement has at least, and at most, that are read as they are asked for.
const FEWEST: usize = 64;

const MOST: usize = 4_294_967_295;

/// How many tokens a list has room for at first: room for more is slow to come by.
const LISTED: usize = 32;

/// A statement that its `;` ends, in the bytes of the script.
#[derive(Drop)]
pub struct WholeStatement<'a> {
    /// Its tokens.
    pub tokens: Upcoming<'a>,
    /// Whether one of them is bad.
    pub has_bad: bool,
    /// Where it ends in the script, in bytes.
    pub end: u64,
}

/// Cuts a script, which is fed in pieces of any size, into statements. Bytes are read once a `;` may
/// stand in them that ends a statement: those of a statement's first piece with the next one.
#[derive(Drop)]
pub struct Cutter {
    bytes: Queue<u8>,
    offset: u64,
    finished: bool,
    /// How far the first statement was read.
    reading: Reading,
    /// Whether a `;` may stand in what was not read.
    may_end: bool,
}

impl Model for Cutter {
    ghost use Rattle.td_scan.specs.code.Progress.{IsHeld};
    ghost use Rattle.td_tree.specs.model.Statements.{Held};

    ghost Value = { Held };

    ghost view = { λ c. record { bytes = c.bytes; offset = c.offset; finished = c.finished } };

    ghost invariant = { λ c. IsHeld c.bytes c.offset c.reading c.may_end };
}

impl Cutter {
    /// A cutter that was fed nothing.
    pub fn new(alloc: Global) -> Cutter
        ensures { result ≡ record { bytes = []; offset = 0; finished = false } }
    {
        Cutter {
            bytes: Queue::new(alloc),
            offset: 0,
            finished: false,
            reading: Reading::unread(0),
            may_end: false,
        }
    }

    /// How many bytes were fed and not taken off.
    pub fn held(&self) -> usize
        ensures { result ≡ length self.now.bytes }
    {
        self.bytes.len()
    }

    /// Takes the next piece of the script. What has no `;` is not read yet, nor is a statement that
    /// begins in the piece: most often the statement ends in it too.
    pub fn feed(&mut self, piece: &[u8]) -> Result<(), AllocError>
        requires unfinished { IsFalse self.old.finished }
        requires room { self.old.offset + length self.old.bytes + length piece.now < 2 ^ 64 }
        ensures ok { OnOk result
            (self.new ≡ record self.old { bytes = self.old.bytes ++ piece.now }) }
        ensures err { OnErr result (self.new ≡ self.old) }
    {
        let is_first = self.bytes.len() == 0;
        self.bytes.close_up();
        self.bytes.extend(piece)?;
        if !self.may_end && !piece.contains(&b';') {
            return Ok(());
        }
        self.may_end = true;
        if !is_first && !self.reading.is_whole {
            let rest = bytes_from(self.bytes.as_slice(), self.offset, self.reading.start);
            let reading = read_on(self.reading, rest);
            self.may_end = left_may_end(self.reading, reading, rest);
            self.reading = reading;
        }
        Ok(())
    }

    /// Says that the whole script was fed.
    pub fn finish(&mut self)
        ensures { self.new ≡ record self.old { finished = true } }
    {
        self.finished = true;
    }

    /// Whether there is no statement yet, as far as can be told without a look at what was read.
    pub fn awaits(&self) -> bool
        ensures { IsTrue result → first_statement self.now ≡ None }
    {
        if self.finished || self.reading.is_whole {
            return false;
        }
        !self.may_end
    }

    /// The tokens of the first statement.
    pub fn next_statement(&self) -> Result<Option<Vec<Token<'_>>>, AllocError>
        ensures is { IfOk result
            (λ found. option_map (λ v. v.items) found ≡ first_statement self.now) }
        ensures end { IfOk result
            (λ found. IfSome found (λ v. end_of_last v.items ≡ Some (behind self.now))) }
    {
        if self.awaits() {
            return Ok(None);
        }
        let room = self.reading.count.max(LISTED);
        let list = Vec::with_capacity(self.bytes.allocator(), room)?;
        statement_of(list, self.bytes.as_slice(), self.offset, self.finished)
    }

    /// The first statement, where its `;` was read, and it has at least 64 tokens, which are not
    /// listed. With fewer a list of them is faster; 4,294,967,296 are too many to be counted.
    pub fn whole_statement(&self) -> Option<WholeStatement<'_>>
        ensures { IfSome result
            (λ s. IsFirstStatement self.now s.tokens s.has_bad s.end) }
    {
        let reading = &self.reading;
        if !reading.is_whole || reading.count < FEWEST || reading.count > MOST {
            return None;
        }
        Some(WholeStatement {
            tokens: Upcoming::new(self.bytes.as_slice(), self.offset, reading.count),
            has_bad: reading.is_bad,
            end: reading.start,
        })
    }

    /// Where the first statement ends.
    fn end(&self) -> u64
        ensures { result ≡ behind self.now }
    {
        if self.reading.is_whole {
            return self.reading.start;
        }
        let bytes = self.bytes.as_slice();
        end_with_rest(bytes, self.offset, self.finished, self.offset, self.offset)
    }

    /// Takes the first statement off. Where there is none, nothing changes.
    pub fn take_statement(&mut self)
        ensures { self.new ≡ after self.old }
    {
        if self.awaits() {
            return;
        }
        let end = self.end();
        self.take_to(end);
    }

    /// Takes the first statement off, of which it is known where it ends.
    pub fn take_to(&mut self, end: u64)
        requires { end ≡ behind self.old }
        ensures { self.new ≡ after self.old }
    {
        if end == self.offset {
            return;
        }
        self.bytes.take_off((end - self.offset) as usize);
        self.offset = end;
        self.reading = Reading::unread(end);
        self.may_end = self.bytes.as_slice().contains(&b';');
    }
}
