//! The program: words, files and streams are handed to a session.
use crate::line::{Line, read_line};
use crate::session::session;
use clap::Error;
use clap::error::ErrorKind;
use std::alloc::{AllocError, Global};
use std::rt::{Env, Files};
use std::{env, fs, io};
use td_engine::run::RunFault;
use td_engine::sink::{IoSink, Sink};
use td_engine::source::{IoSource, Source};

/// The status of a wrong command line.
const WRONG_LINE: u8 = 2;

/// The status where a file, the output or memory failed.
const FAILED: u8 = 3;

/// The words of the command line.
fn words_of<R: Env + AllocGlobal>(rt: &R) -> io::Result<Vec<String>> {
    let mut words = Vec::new(rt.alloc());
    for word in env::args(rt)? {
        words.push(word)?;
    }
    Ok(words)
}

/// The words of the command line as borrowed texts.
fn texts_of<'a>(alloc: Global, words: &'a [String]) -> Result<Vec<&'a str>, AllocError> {
    let mut texts = Vec::new(alloc);
    for word in words {
        texts.push(word.as_str())?;
    }
    Ok(texts)
}

/// Says why a script was not run to its end.
fn report_fault<R: Eprint>(rt: &R, fault: RunFault) {
    let (what, done) = match fault {
        RunFault::Memory { done } => ("out of memory", done),
        RunFault::Read { done } => ("read failed", done),
        RunFault::ReadLimit { done } => ("script too long", done),
        RunFault::Write { done } => ("write failed", done),
    };
    let _ = eprintln!(rt; "td: {what} after {done} statements");
}

/// Runs the script that the source gives, as the line says.
fn run_source<R: Print + Eprint + AllocGlobal, S: Source + Drop>(
    rt: &R,
    line: &Line<'_>,
    mut source: S,
) -> u8 {
    let mut sink = IoSink::new(io::writer(rt));
    let outcome = session(rt.alloc(), line.mode, line.stop, &mut source, &mut sink);
    if let Some(fault) = outcome.fault {
        report_fault(rt, fault);
    }
    outcome.status
}

/// Runs the script that the line names.
fn run_line<R: Files + Input + Print + Eprint + AllocGlobal>(rt: &R, line: &Line<'_>) -> u8 {
    match line.file {
        Some(file) if file != "-" => match fs::open(rt, file) {
            Ok(opened) => run_source(rt, line, IoSource::new(opened)),
            Err(_) => {
                let _ = eprintln!(rt; "td: cannot open {file}");
                FAILED
            }
        },
        _ => run_source(rt, line, IoSource::new(rt.reader())),
    }
}

/// Memory was refused before the run.
fn out_of_memory<R: Eprint>(rt: &R) -> u8 {
    report_fault(rt, RunFault::Memory { done: 0 });
    FAILED
}

/// Says why there are no words: one of them is no text, in the form of `clap`'s refusals, or memory
/// was refused.
fn refuse_words<R: Eprint>(rt: &R, error: &io::Error) -> u8 {
    if error.kind() != io::ErrorKind::InvalidData {
        return out_of_memory(rt);
    }
    let _ = eprintln!(rt; "error: invalid UTF-8 was detected in one or more arguments");
    let _ = eprintln!(rt; "\nFor more information, try '--help'.");
    WRONG_LINE
}

/// Prints what `clap` says to the words: help, or why they are refused.
fn answer_words<R: Print + Eprint>(rt: &R, error: &Error) -> u8 {
    if error.kind() == ErrorKind::OutOfMemory {
        return out_of_memory(rt);
    }
    let printed = error.print(rt);
    if error.use_stderr() {
        return WRONG_LINE;
    }
    if printed.is_err() {
        report_fault(rt, RunFault::Write { done: 0 });
        return FAILED;
    }
    0
}

/// Runs what the command line says, and answers the status to exit with.
pub fn status<R: Files + Env + Input + Print + Eprint + AllocGlobal>(rt: &R) -> u8 {
    let words = match words_of(rt) {
        Ok(words) => words,
        Err(error) => return refuse_words(rt, &error),
    };
    let Ok(texts) = texts_of(rt.alloc(), words.as_slice()) else {
        return out_of_memory(rt);
    };
    match read_line(rt.alloc(), texts.as_slice()) {
        Ok(line) => run_line(rt, &line),
        Err(error) => answer_words(rt, &error),
    }
}
