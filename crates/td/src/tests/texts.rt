//! What is made of texts, and the texts that are to be answered.
use super::given::{add, made};
use std::alloc::Global;
use td_body::sorted::SortedBody;
use td_catalog::catalog::Catalog;
use td_eval::env::Env;
use td_eval::value::eval;
use td_parse::statement::parse_statement;
use td_scan::cutter::Cutter;
use td_tree::cause::Cause;
use td_tree::expression::Expr;
use td_tree::fault::Fault;
use td_tree::name::{Name, is_name};
use td_tree::statement::Statement;
use td_tree::type_tree::TypeTree;
use td_value::relation::Rel;
use td_value::value::{Node, Value};

// ---- names and trees

/// The name of that text, which is to be a name's.
pub fn name(alloc: Global, text: &str) -> Result<Name, Fault> {
    if !is_name(text) {
        return Err(Fault::Refused(Cause::Scan));
    }
    Ok(Name::new(alloc, text)?)
}

pub fn names(alloc: Global, texts: &[&str]) -> Result<Vec<Name>, Fault> {
    let mut names = Vec::new(alloc);
    for text in texts {
        add(&mut names, name(alloc, text))?;
    }
    Ok(names)
}

/// The first statement of what was fed.
fn first_statement(alloc: Global, cutter: &Cutter) -> Result<Statement, Fault> {
    match &cutter.next_statement()? {
        Some(tokens) => parse_statement(alloc, tokens),
        None => parse_statement(alloc, &[]),
    }
}

/// The first statement of the script.
pub fn statement(alloc: Global, script: &str) -> Result<Statement, Fault> {
    let mut cutter = Cutter::new(alloc);
    cutter.feed(script.as_bytes())?;
    cutter.finish();
    first_statement(alloc, &cutter)
}

/// A copy of the expression that the statement writes.
fn written(statement: &Statement) -> Result<Expr, Fault> {
    match statement {
        Statement::Write(tree) => Ok(tree.try_clone()?),
        _ => Err(Fault::Refused(Cause::Syntax)),
    }
}

/// A copy of the expression that is read from the text.
pub fn expression(alloc: Global, text: &str) -> Result<Expr, Fault> {
    let script = format!(in alloc; "WRITE {text};")?;
    let statement = statement(alloc, script.as_str())?;
    let tree = written(&statement);
    drop(statement);
    tree
}

/// A copy of the type of the first component of the type that the statement defines.
fn first_component(statement: &Statement) -> Result<TypeTree, Fault> {
    let Statement::DefineType(definition) = statement else {
        return Err(Fault::Refused(Cause::Syntax));
    };
    match definition.components.first() {
        Some(component) => Ok(component.ty.try_clone()?),
        None => Err(Fault::Refused(Cause::Syntax)),
    }
}

/// A copy of the type that is read from the text, where it is a component's.
pub fn type_tree(alloc: Global, text: &str) -> Result<TypeTree, Fault> {
    let script = format!(in alloc; "TYPE T POSSREP {{C {text}}};")?;
    let statement = statement(alloc, script.as_str())?;
    let ty = first_component(&statement);
    drop(statement);
    ty
}

// ---- values

/// The value of the expression in the catalogue, with no tuple in hand.
fn value_in<'a>(
    alloc: Global,
    catalog: &'a Catalog<SortedBody>,
    tree: &Expr,
) -> Result<Value, Fault> {
    let other: Option<(&'a Name, &'a Rel)> = None;
    let env = Env {
        catalog,
        other,
        tuples: &[],
    };
    eval(alloc, &env, tree)
}

/// The value of the expression where nothing is defined.
fn value_of(alloc: Global, tree: &Expr) -> Result<Value, Fault> {
    let catalog: Catalog<SortedBody> = Catalog::new(alloc);
    let value = value_in(alloc, &catalog, tree);
    drop(catalog);
    value
}

/// The value of the expression of that text where nothing is defined.
pub fn value(alloc: Global, text: &str) -> Result<Value, Fault> {
    let tree = expression(alloc, text)?;
    let value = value_of(alloc, &tree);
    drop(tree);
    value
}

/// A copy of the relation that the value is.
fn as_relation(value: &Value) -> Result<Rel, Fault> {
    match &value.node {
        Node::Rel(rel) => Ok(rel.try_clone()?),
        _ => Err(Fault::Refused(Cause::TypeMismatch)),
    }
}

/// The relation that is the value of the expression.
pub fn relation(alloc: Global, text: &str) -> Result<Rel, Fault> {
    let value = value(alloc, text)?;
    let rel = as_relation(&value);
    drop(value);
    rel
}

// ---- what is answered

/// The literal of the value, where there is one.
pub fn value_literal(alloc: Global, found: Result<Value, Fault>) -> Result<String, Fault> {
    let value = found?;
    let literal = value.literal(alloc);
    drop(value);
    made(literal)
}

/// The literal of the relation, where there is one.
pub fn literal(found: Result<Rel, Fault>) -> Result<String, Fault> {
    let rel = found?;
    let literal = rel.literal();
    drop(rel);
    made(literal)
}

/// A text, or the cause of a refusal.
pub type Want = Result<&'static str, Cause>;

/// Whether the answer is what is wanted. Want of memory never is.
pub fn is_answer(answer: Result<String, Fault>, want: Want) -> bool {
    match (&answer, want) {
        (Ok(found), Ok(text)) => found.as_str() == text,
        (Err(fault), Err(cause)) => *fault == Fault::Refused(cause),
        _ => false,
    }
}
