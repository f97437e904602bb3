//! The statement that tokens spell.
//!
//! td_engine calls `parse_statement`, the one public call beside laws. Inside, `Cursor` holds the
//! tokens that are left, and `expression` and `type_tree` read most.
//!
//! Read statement.rt and definition.rt, then levels.rt, primary.rt and postfix.rt for expressions;
//! each function does what its like in specs/code/Reading says, and proofs/ shows that this is the
//! grammar. What tokens mean stands in specs/model/Meanings.
#![tactic(auto)]

mod ahead;
mod assignment;
mod cursor;
mod definition;
mod found;
mod grammar;
pub mod laws;
mod levels;
mod lists;
mod lone;
mod names;
mod operators;
mod parts;
mod postfix;
mod primary;
mod shared_names;
pub mod statement;
mod steps;
mod summarize;
mod types;
mod word;
