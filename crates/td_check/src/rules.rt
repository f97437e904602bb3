//! The static rules of the operators: each gives a type by the types of operands, or refuses.
pub mod headings;
pub mod keys;
pub mod lists;
pub mod operand;
pub mod operator;
pub mod postfix;
pub mod requirements;
