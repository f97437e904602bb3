//! Sessions over readers and writers of std whose calls are interrupted, or that take nothing.
use crate::line::Mode;
use crate::session::session;
use std::alloc::Global;
use std::io::{self, ErrorKind, Read, Write};
use td_engine::run::RunFault;
use td_engine::sink::IoSink;
use td_engine::source::IoSource;

/// How many calls are still interrupted before one that is not, each time so many.
#[derive(Drop)]
struct Interruptions {
    each: u8,
    left: u8,
}

impl Interruptions {
    fn new(each: u8) -> Interruptions {
        Interruptions { each, left: each }
    }

    /// Whether the next call is interrupted.
    fn comes(&mut self) -> bool {
        if self.left == 0 {
            self.left = self.each;
            return false;
        }
        self.left -= 1;
        true
    }
}

/// A reader that gives one byte at a call that is not interrupted.
#[derive(Drop)]
struct Reader<'a> {
    rest: &'a [u8],
    interruptions: Interruptions,
}

impl<'a> Read for Reader<'a> {
    fn read(&mut self, buffer: &mut [u8]) -> io::Result<usize> {
        if self.interruptions.comes() {
            return Err(io::Error::from(ErrorKind::Interrupted));
        }
        let count = self.rest.len().min(1).min(buffer.len());
        let (front, rest) = self.rest.split_at(count);
        buffer[..count].copy_from_slice(front);
        self.rest = rest;
        Ok(count)
    }
}

/// A writer that takes so many bytes at a call that is not interrupted.
#[derive(Drop)]
struct Writer<'a> {
    bytes: &'a mut Vec<u8>,
    at_once: usize,
    interruptions: Interruptions,
}

impl<'a> Write for Writer<'a> {
    fn write(&mut self, bytes: &[u8]) -> io::Result<usize> {
        if self.interruptions.comes() {
            return Err(io::Error::from(ErrorKind::Interrupted));
        }
        let count = bytes.len().min(self.at_once);
        self.bytes.extend_from_slice(&bytes[..count])?;
        Ok(count)
    }

    fn flush(&mut self) -> io::Result<()> {
        Ok(())
    }
}

/// A script; how many calls of the reader, and of the writer, are interrupted before each that is
/// not; how many bytes the writer takes at once; and the status, the fault and what is written.
type Case = (
    &'static [u8],
    u8,
    u8,
    usize,
    u8,
    Option<RunFault>,
    &'static [u8],
);

const SCRIPT: &[u8] = b"WRITE 1; WRITE 22;";

const CASES: &[Case] = &[
    (SCRIPT, 63, 63, 1, 0, None, b"1\n22\n"),
    (SCRIPT, 63, 63, 9, 0, None, b"1\n22\n"),
    (SCRIPT, 64, 0, 9, 3, Some(RunFault::Read { done: 0 }), b""),
    (SCRIPT, 0, 64, 9, 3, Some(RunFault::Write { done: 1 }), b""),
    (SCRIPT, 0, 0, 0, 3, Some(RunFault::Write { done: 1 }), b""),
];

/// Whether that comes of a session on the case's script. What is written goes to the bytes.
fn is_session(alloc: Global, case: Case, bytes: &mut Vec<u8>) -> bool {
    let (script, reads, writes, at_once, status, fault, _) = case;
    let mut source = IoSource::new(Reader {
        rest: script,
        interruptions: Interruptions::new(reads),
    });
    let mut sink = IoSink::new(Writer {
        bytes,
        at_once,
        interruptions: Interruptions::new(writes),
    });
    let outcome = session(alloc, Mode::Run, false, &mut source, &mut sink);
    outcome.status == status && outcome.fault == fault
}

#[test]
fn interrupted_calls_and_writes_of_nothing(rt: HostRuntime) {
    for case in CASES {
        let mut bytes = Vec::new(rt.alloc());
        assert!(rt;
            is_session(rt.alloc(), *case, &mut bytes),
            "{}, {}",
            case.1,
            case.2
        );
        assert!(rt; bytes.as_slice() == case.6, "{}, {}", case.1, case.2);
    }
}
