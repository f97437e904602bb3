//! Which statements are of transactions.
ghost use Rattle.std.specs.Prelude.{◌≡◌, IfNone, IfSome};
ghost use Rattle.td_engine.specs.code.Carried.{IsOfDatabase};
ghost use Rattle.td_engine.specs.code.Transactions.{transaction_view};
ghost use Rattle.td_tree.specs.code.TreeViews.{statement_view};

use td_tree::statement::Statement;

/// What a statement does to the transactions.
#[derive(Clone, Copy, Debug, PartialEq, Eq)]
pub(crate) enum Transaction {
    Begin,
    Commit,
    Rollback,
}

/// What the statement does to the transactions, if it is of them.
pub(crate) fn transaction_of(statement: &Statement) -> Option<Transaction>
    ensures some { IfSome result (λ t. statement_view statement.now ≡ transaction_view t) }
    ensures none { IfNone result (IsOfDatabase (statement_view statement.now)) }
{
    match statement {
        Statement::BeginTransaction => Some(Transaction::Begin),
        Statement::Commit => Some(Transaction::Commit),
        Statement::Rollback => Some(Transaction::Rollback),
        _ => None,
    }
}
