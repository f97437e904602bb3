//! Bodies whose members are numbered, and found by hashes.
mod back;
mod body;
mod chains;
mod count;
mod filled;
mod hashes;
mod index;
mod indexes;
mod members;
mod rows;
mod step;

pub use body::HashBody;
