//! Types and headings.
//!
//! Every crate above it relies on them. Most used are `Heading::get`, the type of a name,
//! `Heading::project`, and `resolve_heading`, the heading that a tree means where types are
//! declared.
//!
//! Read ty.rt and heading.rt, operations.rt for what is made of headings, then table.rt for
//! declared types, resolve.rt and rank.rt. What they mean stands in specs/model/: Types, Headings,
//! TypeLists.
#![tactic(auto)]

mod copy;
mod hash;
pub mod heading;
pub mod laws;
pub mod named;
pub mod names;
pub mod operations;
mod order;
pub mod rank;
pub mod rename;
pub mod resolve;
pub mod table;
pub mod text;
pub mod ty;
