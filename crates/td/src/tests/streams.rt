//! Whole scripts: words of the command line, scripts in pieces, and readers and writers that fail
//! in mid-stream.
use crate::line::{Mode, read_line};
use crate::session::{Outcome, session, session_on};
use std::alloc::Global;
use std::io::{self, ErrorKind, Read, Write};
use td_body::sorted::SortedBody;
use td_engine::engine::Engine;
use td_engine::run::{Report, RunFault, run_within};
use td_engine::sink::{IoSink, Sink};
use td_engine::source::{IoSource, Source};

// ---- the command line

/// What a command line says: a mode, whether the first refusal ends the run, and the script.
type Said = Option<(Mode, bool, Option<&'static str>)>;

const LINES: &[(&[&str], Said)] = &[
    (&["td", "run", "a"], Some((Mode::Run, false, Some("a")))),
    (&["td", "dump", "-"], Some((Mode::Dump, false, Some("-")))),
    (&["td", "run", "--stop"], Some((Mode::Run, true, None))),
    (
        &["td", "run", "--stop", "a"],
        Some((Mode::Run, true, Some("a"))),
    ),
    (&["td", "walk", "a"], None),
];

/// Whether the words of a command line say that.
fn is_said(alloc: Global, words: &[&str], said: Said) -> bool {
    match read_line(alloc, words).ok() {
        Some(line) => said == Some((line.mode, line.stop, line.file)),
        None => said.is_none(),
    }
}

#[test]
fn the_words_of_a_line(rt: HostRuntime) {
    for (words, said) in LINES {
        assert!(rt; is_said(rt.alloc(), words, *said), "{words:?}");
    }
}

/// The script of `examples/first.td`.
const SCRIPT: &[u8] = b"VAR R BASE RELATION {K INTEGER} KEY {K}; \
    R := R UNION RELATION {TUPLE {K 2}, TUPLE {K 1}}; WRITE R;\n";

/// What `examples/first.out` has.
const ANSWERS: &[u8] = b"OK\nOK\nRELATION {K INTEGER} {TUPLE {K 1}, TUPLE {K 2}}\n";

/// The dump of what it leaves.
const DUMP: &[u8] = b"VAR R BASE RELATION {K INTEGER} \
    INIT (RELATION {K INTEGER} {TUPLE {K 1}, TUPLE {K 2}}) KEY {K};\n";

// ---- readers and writers

/// A reader that gives three bytes at a call, fails once after so many calls, and would go on
/// then.
#[derive(Drop)]
struct Reader<'a> {
    rest: &'a [u8],
    calls: u8,
    has_failed: bool,
}

impl<'a> Read for Reader<'a> {
    fn read(&mut self, buffer: &mut [u8]) -> io::Result<usize> {
        if self.calls == 0 && !self.has_failed {
            self.has_failed = true;
            return Err(io::Error::from(ErrorKind::PermissionDenied));
        }
        self.calls = self.calls.saturating_sub(1);
        let count = self.rest.len().min(3).min(buffer.len());
        let (front, rest) = self.rest.split_at(count);
        buffer[..count].copy_from_slice(front);
        self.rest = rest;
        Ok(count)
    }
}

fn source_of(script: &[u8], calls: u8) -> IoSource<Reader<'_>> {
    IoSource::new(Reader {
        rest: script,
        calls,
        has_failed: false,
    })
}

/// A writer that takes one byte at a call, fails once after so many calls, and would go on then.
#[derive(Drop)]
struct Writer<'a> {
    bytes: &'a mut Vec<u8>,
    calls: u8,
    has_failed: bool,
}

impl<'a> Write for Writer<'a> {
    fn write(&mut self, bytes: &[u8]) -> io::Result<usize> {
        if self.calls == 0 && !self.has_failed {
            self.has_failed = true;
            return Err(io::Error::from(ErrorKind::PermissionDenied));
        }
        self.calls = self.calls.saturating_sub(1);
        let count = bytes.len().min(1);
        self.bytes.extend_from_slice(&bytes[..count])?;
        Ok(count)
    }

    fn flush(&mut self) -> io::Result<()> {
        Ok(())
    }
}

// ---- runs

/// A script on an empty database, whether the first refusal ends the run and the most bytes that
/// the script may have, after how many calls the reader and the writer fail, and what comes of
/// that.
#[derive(Drop)]
struct Case {
    script: &'static [u8],
    stop: bool,
    limit: u8,
    reads: u8,
    writes: u8,
    answer: Result<Report, RunFault>,
    written: &'static [u8],
    /// Whether the reader and the writer, which would go on, are broken then, or at one call more.
    broken: (bool, bool),
}

const CASES: &[Case] = &[
    Case {
        script: SCRIPT,
        stop: false,
        limit: 255,
        reads: 255,
        writes: 255,
        answer: Ok(Report {
            statements: 3,
            refused: 0,
        }),
        written: ANSWERS,
        broken: (false, false),
    },
    Case {
        script: SCRIPT,
        stop: false,
        limit: 255,
        reads: 20,
        writes: 255,
        answer: Err(RunFault::Read { done: 1 }),
        written: b"OK\n",
        broken: (true, false),
    },
    // The statement that is not whole is not counted.
    Case {
        script: b"WRITE 1; WRITE 2;",
        stop: false,
        limit: 255,
        reads: 4,
        writes: 255,
        answer: Err(RunFault::Read { done: 1 }),
        written: b"1\n",
        broken: (true, false),
    },
    // No more is read after the refusal.
    Case {
        script: b"WRITE 1 / 0; WRITE 2;",
        stop: true,
        limit: 255,
        reads: 4,
        writes: 255,
        answer: Ok(Report {
            statements: 1,
            refused: 1,
        }),
        written: b"REFUSED 21 ZERO_DIVISOR\n",
        broken: (true, false),
    },
    Case {
        script: b"WRITE 1;            ",
        stop: false,
        limit: 20,
        reads: 255,
        writes: 255,
        answer: Ok(Report {
            statements: 1,
            refused: 0,
        }),
        written: b"1\n",
        broken: (false, false),
    },
    Case {
        script: b"WRITE 1;             ",
        stop: false,
        limit: 20,
        reads: 255,
        writes: 255,
        answer: Err(RunFault::ReadLimit { done: 1 }),
        written: b"1\n",
        broken: (false, false),
    },
    Case {
        script: b"WRITE 1; WRITE 22;",
        stop: false,
        limit: 255,
        reads: 255,
        writes: 3,
        answer: Err(RunFault::Write { done: 2 }),
        written: b"1\n2",
        broken: (false, true),
    },
];

/// What comes of the case's run on an empty database.
fn run_alone<R: Source, W: Sink>(
    alloc: Global,
    case: &Case,
    reader: &mut R,
    writer: &mut W,
) -> Result<Report, RunFault> {
    let mut engine: Engine<SortedBody> = Engine::new(alloc);
    let limit = u64::from(case.limit);
    let answer = run_within(alloc, &mut engine, reader, writer, case.stop, limit);
    drop(engine);
    answer
}

/// Whether the reader and the writer are broken.
fn are_broken<R: Source, W: Sink>(reader: &mut R, writer: &mut W) -> (bool, bool) {
    (reader.pull(&mut [0; 4]).is_err(), writer.put(b"").is_err())
}

/// Whether that comes of the case's run. What is written goes to the bytes.
fn is_run(alloc: Global, case: &Case, bytes: &mut Vec<u8>) -> bool {
    let mut writer = IoSink::new(Writer {
        bytes,
        calls: case.writes,
        has_failed: false,
    });
    let mut reader = source_of(case.script, case.reads);
    let answer = run_alone(alloc, case, &mut reader, &mut writer);
    let broken = are_broken(&mut reader, &mut writer);
    answer == case.answer && broken == case.broken
}

#[test]
fn runs_in_pieces_and_failures_in_mid_stream(rt: HostRuntime) {
    for case in CASES {
        let mut bytes = Vec::new(rt.alloc());
        assert!(rt; is_run(rt.alloc(), case, &mut bytes), "{}", case.reads);
        assert!(rt; bytes.as_slice() == case.written, "{}", case.reads);
    }
}

// ---- sessions

/// A relvar with two keys: assigned to, rolled back and refused.
const KEYED: &[u8] = b"VAR S BASE RELATION {K INTEGER, V INTEGER}
INIT (RELATION {TUPLE {K 3, V 1}, TUPLE {K 1, V 2}}) KEY {K} KEY {V};
INSERT S RELATION {TUPLE {K 2, V 3}};
INSERT S RELATION {TUPLE {K 2, V 4}};
UPDATE S (V := V + 1);
BEGIN TRANSACTION;
DELETE S WHERE K = 1;
WRITE S;
ROLLBACK;
WRITE S;
S := S WHERE V > 2, INSERT S RELATION {TUPLE {K 0, V 0}};
UPDATE S WHERE K = 0 (V := 4);
WRITE COUNT(S);";

const KEYED_ANSWERS: &[u8] = b"OK
OK
REFUSED 30 KEY S
OK
OK
OK
RELATION {K INTEGER, V INTEGER} {TUPLE {K 2, V 4}, TUPLE {K 3, V 2}}
OK
RELATION {K INTEGER, V INTEGER} {TUPLE {K 1, V 3}, TUPLE {K 2, V 4}, TUPLE {K 3, V 2}}
OK
REFUSED 30 KEY S
3
";

const KEYED_DUMP: &[u8] = b"VAR S BASE RELATION {K INTEGER, V INTEGER} \
    INIT (RELATION {K INTEGER, V INTEGER} \
    {TUPLE {K 0, V 0}, TUPLE {K 1, V 3}, TUPLE {K 2, V 4}}) KEY {K} KEY {V};
";

/// A mode and a script; after how many calls the writer fails; and what comes of that: the status,
/// the fault and what is written.
type Session = (Mode, &'static [u8], u8, u8, Option<RunFault>, &'static [u8]);

const SESSIONS: &[Session] = &[
    (Mode::Run, SCRIPT, 255, 0, None, ANSWERS),
    (Mode::Dump, SCRIPT, 255, 0, None, DUMP),
    (
        Mode::Run,
        b"WRITE 1 / 0; WRITE 2;",
        255,
        1,
        None,
        b"REFUSED 21 ZERO_DIVISOR\n2\n",
    ),
    (Mode::Run, KEYED, 255, 1, None, KEYED_ANSWERS),
    (Mode::Dump, KEYED, 255, 1, None, KEYED_DUMP),
    (
        Mode::Run,
        b"WRITE 1; WRITE 22;",
        3,
        3,
        Some(RunFault::Write { done: 2 }),
        b"1\n2",
    ),
    (
        Mode::Dump,
        SCRIPT,
        3,
        3,
        Some(RunFault::Write { done: 3 }),
        b"VAR",
    ),
];

/// What comes of a session: the program's, or one over bodies whose members stand in order.
fn outcome_of<R: Source, W: Sink>(
    alloc: Global,
    mode: Mode,
    is_sorted: bool,
    reader: &mut R,
    writer: &mut W,
) -> Outcome {
    if is_sorted {
        session_on::<SortedBody, R, W>(alloc, mode, false, reader, writer)
    } else {
        session(alloc, mode, false, reader, writer)
    }
}

/// What comes of a session on the script. What is written goes to the bytes.
fn session_on_script(
    alloc: Global,
    mode: Mode,
    is_sorted: bool,
    script: &[u8],
    calls: u8,
    bytes: &mut Vec<u8>,
) -> Outcome {
    let mut writer = IoSink::new(Writer {
        bytes,
        calls,
        has_failed: false,
    });
    let mut reader = source_of(script, 255);
    outcome_of(alloc, mode, is_sorted, &mut reader, &mut writer)
}

/// Whether that comes of the session, and is written in it.
fn is_session(alloc: Global, is_sorted: bool, session: Session) -> bool {
    let (mode, script, calls, status, fault, want) = session;
    let mut bytes = Vec::new(alloc);
    let outcome = session_on_script(alloc, mode, is_sorted, script, calls, &mut bytes);
    outcome.status == status && outcome.fault == fault && bytes.as_slice() == want
}

#[test]
fn sessions(rt: HostRuntime) {
    for session in SESSIONS {
        assert!(rt; is_session(rt.alloc(), false, *session), "{}", session.3);
        assert!(rt;
            is_session(rt.alloc(), true, *session),
            "{} sorted",
            session.3
        );
    }
}
