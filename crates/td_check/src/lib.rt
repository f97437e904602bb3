//! The static checker.
//!
//! td_engine asks it whether a statement is allowed, td_catalog and td_plan what type an expression
//! has. Most used are `check_statement`, `check_expr` and `names_in`, the names in an expression.
//!
//! Read scope.rt and place.rt, which say what is known where, then expression.rt, which goes
//! through a tree, with a rule for each operator in rules/, and statement.rt. What is checked
//! stands in specs/model/: Scopes, OperatorTypes, StaticTypes, StatementTypes.
#![tactic(auto)]

mod alike;
pub mod cannot_fail;
pub mod declared;
pub mod expression;
pub mod laws;
pub mod mentioned;
pub mod mentions;
pub mod names;
mod nodes;
mod place;
pub mod rules;
pub mod scope;
pub mod statement;
