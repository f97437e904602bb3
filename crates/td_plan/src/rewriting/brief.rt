//! Whether an expression is short enough to be planned once more.
use td_tree::expression::Expr;

/// How many names, literals and operators a brief expression may have.
const ROOM: usize = 64;

/// Whether an expression is made of few names and literals, and of operators and selectors of user
/// types between them.
pub(crate) fn is_brief(expr: &Expr) -> bool {
    room_after(expr, ROOM).is_some()
}

/// What is left of the room where the expression took its part of it, if that is in it.
#[cycle(brief)]
fn room_after(expr: &Expr, room: usize) -> Option<usize> {
    let room = room.checked_sub(1)?;
    match expr {
        Expr::Literal(_) | Expr::Name(_) => Some(room),
        Expr::Parentheses(operand) => room_after(operand, room),
        Expr::Prefix(_, operand) => room_after(operand, room),
        Expr::Component(_, operand) => room_after(operand, room),
        Expr::Extract(_, operand) => room_after(operand, room),
        Expr::Binary(left, _, right) => room_after(right, room_after(left, room)?),
        Expr::Compare(left, _, right) => room_after(right, room_after(left, room)?),
        Expr::Select(_, arguments) => room_after_all(arguments, room),
        _ => None,
    }
}

/// What is left of it where each of the expressions did.
#[cycle(brief)]
fn room_after_all(exprs: &[Expr], room: usize) -> Option<usize> {
    let mut left = room;
    for expr in exprs {
        left = room_after(expr, left)?;
    }
    Some(left)
}
