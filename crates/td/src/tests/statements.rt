//! Statements, one after another, and the database that they leave.
ghost use Rattle.std.specs.Prelude.{◌≡◌, [], IfOk};

use std::alloc::{AllocError, Global};
use td_body::body::Body;
use td_body::sorted::SortedBody;
use td_catalog::catalog::Catalog;
use td_engine::answer::Answer;
use td_engine::engine::Engine;
use td_scan::cutter::Cutter;
use td_tree::cause::Cause;

/// What the engine answers to the first statement of what was fed.
fn step_by<B: Body>(engine: &mut Engine<B>, cutter: &Cutter) -> Result<Answer, AllocError> {
    match cutter.next_statement()? {
        Some(tokens) => engine.step(&tokens),
        None => engine.step(&[]),
    }
}

/// What the engine answers to the statement of that text.
fn step<B: Body>(alloc: Global, engine: &mut Engine<B>, text: &str) -> Result<Answer, AllocError> {
    let mut cutter = Cutter::new(alloc);
    cutter.feed(text.as_bytes())?;
    cutter.finish();
    step_by(engine, &cutter)
}

/// Has the engine do the statements.
pub fn steps<B: Body>(
    alloc: Global,
    engine: &mut Engine<B>,
    statements: &[&str],
) -> Result<(), AllocError> {
    for statement in statements {
        step(alloc, engine, statement)?;
    }
    Ok(())
}

/// A copy of the database that the engine has after the statements.
fn database_of(
    alloc: Global,
    engine: &mut Engine<SortedBody>,
    statements: &[&str],
) -> Result<Catalog<SortedBody>, AllocError>
    ensures { IfOk result (λ c. c.kept ≡ []) }
{
    steps(alloc, engine, statements)?;
    engine.catalog().try_clone()
}

/// The database that the statements define.
pub fn database(alloc: Global, statements: &[&str]) -> Result<Catalog<SortedBody>, AllocError>
    ensures { IfOk result (λ c. c.kept ≡ []) }
{
    let mut engine = Engine::new(alloc);
    let database = database_of(alloc, &mut engine, statements);
    drop(engine);
    database
}

/// A statement, why it is refused, what it prints, and how many transactions are open then.
type Step = (&'static str, Option<Cause>, &'static str, u32);

const STEPS: &[Step] = &[
    ("WRITE 1;", None, "1\n", 0),
    (
        "WRITE Q;",
        Some(Cause::NameUnknown),
        "REFUSED 3 NAME_UNKNOWN\n",
        0,
    ),
    (
        "CONSTRAINT C FALSE;",
        Some(Cause::Constraint),
        "REFUSED 31 CONSTRAINT C\n",
        0,
    ),
    ("BEGIN TRANSACTION;", None, "OK\n", 1),
    ("CONSTRAINT C TRUE;", None, "OK\n", 1),
    ("COMMIT;", None, "OK\n", 0),
    (
        "ROLLBACK;",
        Some(Cause::Transaction),
        "REFUSED 11 TRANSACTION\n",
        0,
    ),
    ("DUMP;", None, "CONSTRAINT C TRUE;\n", 0),
];

/// Whether the engine's dump is that text.
fn is_dump(engine: &Engine<SortedBody>, text: &str) -> Result<bool, AllocError> {
    let dump = engine.dump()?;
    Ok(dump.as_str() == text)
}

/// Whether the engine answers as the step says, and so many transactions are open then.
fn is_so(alloc: Global, engine: &mut Engine<SortedBody>, want: Step) -> Result<bool, AllocError> {
    let (statement, cause, text, depth) = want;
    let answer = step(alloc, engine, statement)?;
    let is_told = answer.accepted == cause.is_none() && answer.cause == cause;
    let is_so = is_told && answer.text.as_str() == text && engine.depth() == depth;
    drop(answer);
    Ok(is_so)
}

#[test]
fn steps_of_an_engine(rt: HostRuntime) {
    let alloc = rt.alloc();
    let mut engine = Engine::new(alloc);
    assert!(rt; is_dump(&engine, "") == Ok(true));
    for want in STEPS {
        let found = is_so(alloc, &mut engine, *want);
        assert!(rt; found == Ok(true), "{}", want.0);
    }
    assert!(rt; is_dump(&engine, "CONSTRAINT C TRUE;\n") == Ok(true));
    drop(engine);
}
