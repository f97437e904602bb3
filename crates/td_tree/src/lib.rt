//! Names, causes, tokens and trees of Tutorial D.
//!
//! All other crates speak of these. Most used are `Name::new`, which makes a name of a text,
//! `Expr::reveal`, which tells that names and texts in a tree are as the language has them, and
//! `Gathering::add`, which keeps the least cause of several answers.
//!
//! Read cause.rt and fault.rt, token.rt and name.rt, then the trees in type_tree.rt, expression.rt
//! and statement.rt, and print.rt, which gives their texts. What they mean begins in
//! specs/model/Trees.
#![tactic(auto)]

mod both;
pub mod cause;
mod copy;
pub mod expression;
pub mod fault;
pub mod gathering;
pub mod height;
pub mod keyword;
pub mod laws;
pub mod name;
pub mod operator;
pub mod piece;
pub mod print;
pub mod quoted;
mod remade;
pub mod statement;
pub mod token;
pub mod tree_laws;
pub mod type_tree;
pub mod written;
