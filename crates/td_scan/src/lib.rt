//! The statements and tokens of a script, however it is cut into pieces.
//!
//! td_engine feeds a script to a `Cutter`, and td_parse reads the tokens that it gives. Most used
//! are `Cutter::feed`, `Cutter::next_statement` and `Cutter::take_statement`.
//!
//! Read token.rt and cutter.rt for what callers see, then reading.rt, piece.rt and symbol.rt for
//! how a byte is read once; front.rt and run.rt are shorter ways to the same. What a token is
//! stands in td_tree's specs/model/Statements.
#![tactic(auto)]

pub mod cutter;
mod front;
pub mod laws;
mod piece;
mod queue;
mod reading;
mod run;
mod symbol;
pub mod token;
pub mod upcoming;
