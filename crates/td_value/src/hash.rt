//! The hashes of values.
ghost use Rattle.std.specs.Prelude.{◌≡◌, fold};
ghost use Rattle.td_value.specs.code.Hashes.{fed_value, fed_parts, fed_rows, fed_tuple};
ghost use Rattle.td_value.specs.code.Hashes.{fed_relation};
ghost use Rattle.td_value.specs.model.Values.{pack_parts, pack_rows, selected_value};

use crate::relation::Rel;
use crate::tuple::Tuple;
use crate::user::User;
use crate::value::{Node, Value};
use std::hash::{Hash, Hasher};

#[cycle(feed)]
fn feed_value<H: Hasher>(v: &Value, state: &mut H)
    ensures { state.new ≡ fold H.write state.old (fed_value v.now) }
{
    match &v.node {
        Node::Bool(b) => b.hash(state),
        Node::Int(n) => n.hash(state),
        Node::Text(s) => s.as_str().hash(state),
        Node::User(u) => feed_user(u, state),
        Node::Tup(t) => feed_tuple(t, state),
        Node::Rel(r) => feed_rel(r, state),
    }
}

#[cycle(feed)]
fn feed_user<H: Hasher>(u: &User, state: &mut H)
    ensures { state.new ≡ fold H.write state.old (fed_value (selected_value u.now)) }
{
    u.name.as_str().hash(state);
    feed_parts(&u.components, state);
}

#[cycle(feed)]
fn feed_tuple<H: Hasher>(t: &Tuple, state: &mut H)
    ensures { state.new ≡ fold H.write state.old (fed_tuple t.now) }
{
    feed_parts(t.values(), state);
}

#[cycle(feed)]
fn feed_parts<H: Hasher>(values: &[Value], state: &mut H)
    ensures { state.new ≡ fold H.write state.old (fed_parts (pack_parts values.now)) }
{
    for v in values {
        feed_value(v, state);
    }
    state.write_u8(0);
}

#[cycle(feed)]
fn feed_rel<H: Hasher>(r: &Rel, state: &mut H)
    ensures { state.new ≡ fold H.write state.old (fed_relation r.now) }
{
    feed_rows(&r.rows, state);
}

#[cycle(feed)]
fn feed_rows<H: Hasher>(rows: &[Tuple], state: &mut H)
    ensures { state.new ≡ fold H.write state.old (fed_rows (pack_rows rows.now)) }
{
    for t in rows {
        feed_tuple(t, state);
    }
    state.write_u8(1);
}

impl Hash for Value {
    ghost use Rattle.td_value.specs.code.ValueOrder.{values_fed_alike};

    ghost hash_input = { fed_value };

    ghost respects_eq = { values_fed_alike };

    fn hash<H: Hasher>(&self, state: &mut H) {
        feed_value(self, state);
    }
}

impl Hash for Tuple {
    ghost use Rattle.td_value.specs.code.ValueOrder.{tuples_fed_alike};

    ghost hash_input = { fed_tuple };

    ghost respects_eq = { tuples_fed_alike };

    fn hash<H: Hasher>(&self, state: &mut H) {
        feed_tuple(self, state);
    }
}

impl Hash for Rel {
    ghost use Rattle.td_value.specs.code.ValueOrder.{relations_fed_alike};

    ghost hash_input = { fed_relation };

    ghost respects_eq = { relations_fed_alike };

    fn hash<H: Hasher>(&self, state: &mut H) {
        feed_rel(self, state);
    }
}
