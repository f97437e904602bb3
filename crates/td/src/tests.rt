//! Each public call of the engine and of the crates below it, with ample memory and mostly from
//! text to text; and streams that fail in mid-stream.
mod bodies;
mod catalogs;
mod checks;
mod evaluation;
mod given;
mod groups;
mod interruptions;
mod look_ups;
mod operators;
mod pairs;
mod pieces;
mod plans;
mod statements;
mod streams;
mod texts;
mod tokens;
mod trees;
mod types;
mod values;
