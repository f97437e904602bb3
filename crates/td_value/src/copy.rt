//! Copies of values, which can fail for want of memory.
ghost use Rattle.std.specs.Prelude.{◌≡◌, IfOk};
ghost use Rattle.td_value.specs.code.Views.{node_view};

use crate::relation::Rel;
use crate::tuple::Tuple;
use crate::value::{Node, Value};
use std::alloc::AllocError;

/// A copy of the node.
fn node_again(node: &Node) -> Result<Node, AllocError>
    ensures { IfOk result (λ n. node_view n ≡ node_view node.now) }
{
    match node {
        Node::Bool(b) => Ok(Node::Bool(*b)),
        Node::Int(n) => Ok(Node::Int(*n)),
        Node::Text(s) => Ok(Node::Text(s.clone()?)),
        Node::User(u) => Ok(Node::User(u.clone()?)),
        Node::Tup(t) => Ok(Node::Tup(t.clone()?)),
        Node::Rel(r) => Ok(Node::Rel(r.clone()?)),
    }
}

impl Value {
    /// A copy of the value, which shares what this one is made of.
    pub fn try_clone(&self) -> Result<Value, AllocError>
        ensures { IfOk result (λ w. w ≡ self.now) }
    {
        let node = node_again(&self.node)?;
        Ok(Value { node })
    }
}

impl Tuple {
    /// A copy of the tuple, which shares this one's block.
    pub fn try_clone(&self) -> Result<Tuple, AllocError>
        ensures { IfOk result (λ t. t ≡ self.now) }
    {
        let block = self.block.clone()?;
        Ok(Tuple {
            block,
            start: self.start,
        })
    }
}

impl Rel {
    /// A copy of the relation, which shares this one's heading and tuples.
    pub fn try_clone(&self) -> Result<Rel, AllocError>
        ensures { IfOk result (λ r. r ≡ self.now) }
    {
        let heading = self.heading.clone()?;
        let rows = self.rows.clone()?;
        Ok(Rel { heading, rows })
    }
}
