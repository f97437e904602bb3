//! Values.
ghost use Rattle.std.specs.Prelude.{◌≡◌, ℤ, FitsSigned, IfOk};
ghost use Rattle.std.specs.Int.{w64};
ghost use Rattle.std.specs.Option.{SomeIff};
ghost use Rattle.std.specs.Rc.{rc_str_bytes};
ghost use Rattle.td_tree.specs.model.Outcomes.{Answers};
ghost use Rattle.td_types.specs.model.Types.{pack};
ghost use Rattle.td_value.specs.model.Values.{boolean, char, integer, of_number, pack_fields};
ghost use Rattle.td_value.specs.model.Values.{pack_rows, relation, selected_value, tuple};

use crate::relation::Rel;
use crate::tuple::Tuple;
use crate::user::User;
use std::alloc::{AllocError, Global};
use std::marker::Model;
use std::rc::{Rc, RcStr};
use td_tree::cause::Cause;
use td_tree::fault::Fault;

/// A value of any type. A copy of it shares what it is made of.
#[cycle(value)]
#[derive(Drop)]
pub struct Value {
    pub node: Node,
}

/// A value, by the kind of its type.
#[cycle(value)]
#[derive(Drop)]
pub enum Node {
    /// TRUE or FALSE.
    Bool(bool),
    /// A number.
    Int(i64),
    /// A text.
    Text(RcStr),
    /// A user value.
    User(Rc<User>),
    /// A tuple.
    Tup(Rc<Tuple>),
    /// A relation.
    Rel(Rc<Rel>),
}

impl Model for Value {
    ghost use Rattle.td_value.specs.code.Depths.{depth};
    ghost use Rattle.td_value.specs.model.Values.{IsValue, Val};
    ghost use Rattle.td_value.specs.code.ValueCode.{val_code};

    ghost Value = { Val };

    ghost coded = { val_code };

    ghost use Rattle.td_value.specs.code.Views.{node_view};

    ghost view = { λ a. node_view a.node };

    ghost invariant = { λ a. IsValue (node_view a.node) };

    ghost size = { depth };

    ghost use Rattle.td_value.specs.code.Falls.{node_falls};

    ghost size_decreases = { λ a h. node_falls a.node };
}

impl Value {
    /// The value TRUE or FALSE.
    pub fn bool(b: bool) -> Value
        ensures { result ≡ boolean b }
    {
        Value {
            node: Node::Bool(b),
        }
    }

    /// The value of the number.
    pub fn int(n: i64) -> Value
        ensures { result ≡ integer n }
    {
        Value { node: Node::Int(n) }
    }

    /// The value of a number, if it was found: one out of range is refused.
    pub fn in_range(found: Option<i64>) -> Result<Value, Fault>
        ensures { (z : ℤ) → SomeIff found (FitsSigned w64 z) z
            → Answers (λ v. v) result (of_number z) }
    {
        match found {
            Some(z) => Ok(Value::int(z)),
            None => Err(Fault::Refused(Cause::Overflow)),
        }
    }

    /// The value of the text.
    pub fn text(alloc: Global, content: &str) -> Result<Value, AllocError>
        ensures { IfOk result (λ v. v ≡ char content.now) }
    {
        let shared = RcStr::from_str(alloc, content)?;
        let _ = shared.as_str();
        let node = Node::Text(shared);
        Ok(Value { node })
    }

    /// The value of a text that is shared with it. It takes no memory.
    pub fn shared_text(content: RcStr) -> Value
        ensures { result ≡ char (rc_str_bytes content) }
    {
        let _ = content.as_str();
        let node = Node::Text(content);
        Value { node }
    }

    /// The user value.
    pub fn user(alloc: Global, selected: User) -> Result<Value, AllocError>
        ensures { IfOk result (λ v. v ≡ selected_value selected) }
    {
        let _ = &selected.components;
        let node = Node::User(Rc::new(alloc, selected)?);
        Ok(Value { node })
    }

    /// The tuple as a value.
    pub fn tuple(alloc: Global, t: Tuple) -> Result<Value, AllocError>
        ensures { IfOk result (λ v. v ≡ tuple (pack_fields t)) }
    {
        t.reveal();
        let node = Node::Tup(Rc::new(alloc, t)?);
        Ok(Value { node })
    }

    /// The relation as a value.
    pub fn relation(alloc: Global, r: Rel) -> Result<Value, AllocError>
        ensures { IfOk result (λ v. v ≡ relation (pack r.heading) (pack_rows r.body)) }
    {
        let _ = &r.rows;
        let node = Node::Rel(Rc::new(alloc, r)?);
        Ok(Value { node })
    }
}
