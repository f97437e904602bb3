//! Value order, and what follows from it.
ghost use Rattle.std.specs.Prelude.{◌≡◌, length};
ghost use Rattle.td_value.specs.model.Values.{pack_parts, pack_rows, parts_cmp, relation_cmp};
ghost use Rattle.td_value.specs.model.Values.{rows_cmp, selected_value, tuple_cmp, tuple_names};
ghost use Rattle.td_value.specs.model.Values.{value_cmp, value_kind};
ghost use Rattle.td_value.specs.code.Views.{tuple_view, values_of};

use crate::relation::Rel;
use crate::tuple::Tuple;
use crate::user::User;
use crate::value::{Node, Value};
use std::cmp::Ordering;
use td_tree::name::Name;

/// The number of the value's kind among the kinds.
fn kind_number(a: &Value) -> u8
    ensures { result ≡ value_kind a.now }
{
    match &a.node {
        Node::Bool(_) => 0,
        Node::Int(_) => 1,
        Node::Text(_) => 2,
        Node::User(_) => 3,
        Node::Tup(_) => 4,
        Node::Rel(_) => 5,
    }
}

#[cycle(compare)]
pub fn compare_values(a: &Value, b: &Value) -> Ordering
    ensures { result ≡ value_cmp a.now b.now }
{
    match (&a.node, &b.node) {
        (Node::Bool(x), Node::Bool(y)) => x.cmp(y),
        (Node::Int(x), Node::Int(y)) => x.cmp(y),
        (Node::Text(x), Node::Text(y)) => x.as_str().cmp(y.as_str()),
        (Node::User(t), Node::User(u)) => compare_users(t, u),
        (Node::Tup(s), Node::Tup(t)) => compare_tuples(s, t),
        (Node::Rel(r), Node::Rel(s)) => compare_rels(r, s),
        _ => kind_number(a).cmp(&kind_number(b)),
    }
}

#[cycle(compare)]
fn compare_users(a: &User, b: &User) -> Ordering
    ensures { result ≡ value_cmp (selected_value a.now) (selected_value b.now) }
{
    match a.name.cmp(&b.name) {
        Ordering::Equal => compare_parts(&a.components, &b.components),
        order => order,
    }
}

#[cycle(compare)]
fn compare_parts(a: &[Value], b: &[Value]) -> Ordering
    ensures { result ≡ parts_cmp (pack_parts a.now) (pack_parts b.now) }
{
    let mut place = 0;
    for x in a {
        if place == b.len() {
            return Ordering::Greater;
        }
        match compare_values(x, &b[place]) {
            Ordering::Equal => {}
            order => return order,
        }
        place += 1;
    }
    if place == b.len() {
        Ordering::Equal
    } else {
        Ordering::Less
    }
}

#[cycle(compare)]
pub fn compare_tuples(a: &Tuple, b: &Tuple) -> Ordering
    ensures { result ≡ tuple_cmp a.now b.now }
{
    compare_entries(a.names(), a.values(), b.names(), b.values())
}

/// By the values alone, in name order: of tuples of the same names this is their order.
pub fn compare_by_values(a: &Tuple, b: &Tuple) -> Ordering
    ensures { result ≡ parts_cmp (pack_parts (values_of a.now)) (pack_parts (values_of b.now)) }
{
    compare_parts(a.values(), b.values())
}

impl Tuple {
    /// How it stands to a tuple of the same names, whose values alone are looked at.
    pub fn compare_values(&self, other: &Tuple) -> Ordering
        requires { tuple_names self.now ≡ tuple_names other.now }
        ensures { result ≡ tuple_cmp self.now other.now }
    {
        compare_by_values(self, other)
    }
}

#[cycle(compare)]
fn compare_entries(m: &[Name], a: &[Value], n: &[Name], b: &[Value]) -> Ordering
    requires left { length m.now ≡ length a.now }
    requires right { length n.now ≡ length b.now }
    ensures { result ≡ tuple_cmp (tuple_view m.now a.now) (tuple_view n.now b.now) }
{
    let mut place = 0;
    for x in a {
        let name = &m[place];
        if place == b.len() {
            return Ordering::Greater;
        }
        let y = &b[place];
        match name.cmp(&n[place]) {
            Ordering::Equal => {}
            order => return order,
        }
        match compare_values(x, y) {
            Ordering::Equal => {}
            order => return order,
        }
        place += 1;
    }
    if place == b.len() {
        Ordering::Equal
    } else {
        Ordering::Less
    }
}

#[cycle(compare)]
pub fn compare_rels(a: &Rel, b: &Rel) -> Ordering
    ensures { result ≡ relation_cmp a.now b.now }
{
    match a.heading.compare(&b.heading) {
        Ordering::Equal => compare_rows(&a.rows, &b.rows),
        order => order,
    }
}

#[cycle(compare)]
fn compare_rows(a: &[Tuple], b: &[Tuple]) -> Ordering
    ensures { result ≡ rows_cmp (pack_rows a.now) (pack_rows b.now) }
{
    let mut place = 0;
    for x in a {
        if place == b.len() {
            return Ordering::Greater;
        }
        match compare_tuples(x, &b[place]) {
            Ordering::Equal => {}
            order => return order,
        }
        place += 1;
    }
    if place == b.len() {
        Ordering::Equal
    } else {
        Ordering::Less
    }
}

impl PartialEq for Value {
    ghost use Rattle.std.specs.Ordering.{eq_by_cmp};
    ghost use Rattle.std.specs.Cmp.{partial_equiv_from_equiv};
    ghost use Rattle.std.proofs.lemmas.Cmp.{eq_by_cmp_equiv};
    ghost use Rattle.td_value.specs.code.ValueOrder.{order_total};

    ghost eq = { eq_by_cmp value_cmp };

    ghost laws = { partial_equiv_from_equiv (eq_by_cmp_equiv order_total) };

    fn eq(&self, other: &Value) -> bool {
        compare_values(self, other) == Ordering::Equal
    }
}

impl Eq for Value {
    ghost use Rattle.std.proofs.lemmas.Cmp.{eq_by_cmp_equiv};
    ghost use Rattle.td_value.specs.code.ValueOrder.{order_total};

    ghost laws = { eq_by_cmp_equiv order_total };
}

impl PartialOrd for Value {
    ghost use Rattle.std.specs.Prelude.{refl};
    ghost use Rattle.std.specs.Ordering.{as_partial_cmp};
    ghost use Rattle.std.specs.Cmp.{partial_order_from_agreeing_total};
    ghost use Rattle.td_value.specs.code.ValueOrder.{order_total};

    ghost partial_cmp = { as_partial_cmp value_cmp };

    ghost laws = { partial_order_from_agreeing_total value_cmp order_total (λ x y. refl) (λ x y.
        refl) };

    fn partial_cmp(&self, other: &Value) -> Option<Ordering> {
        Some(self.cmp(other))
    }
}

impl Ord for Value {
    ghost use Rattle.std.specs.Prelude.{refl};
    ghost use Rattle.td_value.specs.code.ValueOrder.{order_total};

    ghost cmp = { value_cmp };

    ghost total = { order_total };

    ghost matches_partial_cmp = { λ x y. refl };

    ghost matches_eq = { λ x y. refl };

    fn cmp(&self, other: &Value) -> Ordering {
        compare_values(self, other)
    }
}

impl PartialEq for Tuple {
    ghost use Rattle.std.specs.Ordering.{eq_by_cmp};
    ghost use Rattle.std.specs.Cmp.{partial_equiv_from_equiv};
    ghost use Rattle.std.proofs.lemmas.Cmp.{eq_by_cmp_equiv};
    ghost use Rattle.td_value.specs.code.ValueOrder.{tuple_order_total};

    ghost eq = { eq_by_cmp tuple_cmp };

    ghost laws = { partial_equiv_from_equiv (eq_by_cmp_equiv tuple_order_total) };

    fn eq(&self, other: &Tuple) -> bool {
        compare_tuples(self, other) == Ordering::Equal
    }
}

impl Eq for Tuple {
    ghost use Rattle.std.proofs.lemmas.Cmp.{eq_by_cmp_equiv};
    ghost use Rattle.td_value.specs.code.ValueOrder.{tuple_order_total};

    ghost laws = { eq_by_cmp_equiv tuple_order_total };
}

impl PartialOrd for Tuple {
    ghost use Rattle.std.specs.Prelude.{refl};
    ghost use Rattle.std.specs.Ordering.{as_partial_cmp};
    ghost use Rattle.std.specs.Cmp.{partial_order_from_agreeing_total};
    ghost use Rattle.td_value.specs.code.ValueOrder.{tuple_order_total};

    ghost partial_cmp = { as_partial_cmp tuple_cmp };

    ghost laws = { partial_order_from_agreeing_total tuple_cmp tuple_order_total (λ x y. refl) (λ x
        y. refl) };

    fn partial_cmp(&self, other: &Tuple) -> Option<Ordering> {
        Some(self.cmp(other))
    }
}

impl Ord for Tuple {
    ghost use Rattle.std.specs.Prelude.{refl};
    ghost use Rattle.td_value.specs.code.ValueOrder.{tuple_order_total};

    ghost cmp = { tuple_cmp };

    ghost total = { tuple_order_total };

    ghost matches_partial_cmp = { λ x y. refl };

    ghost matches_eq = { λ x y. refl };

    fn cmp(&self, other: &Tuple) -> Ordering {
        compare_tuples(self, other)
    }
}

impl PartialEq for Rel {
    ghost use Rattle.std.specs.Ordering.{eq_by_cmp};
    ghost use Rattle.std.specs.Cmp.{partial_equiv_from_equiv};
    ghost use Rattle.std.proofs.lemmas.Cmp.{eq_by_cmp_equiv};
    ghost use Rattle.td_value.specs.code.ValueOrder.{relation_order_total};

    ghost eq = { eq_by_cmp relation_cmp };

    ghost laws = { partial_equiv_from_equiv (eq_by_cmp_equiv relation_order_total) };

    fn eq(&self, other: &Rel) -> bool {
        compare_rels(self, other) == Ordering::Equal
    }
}

impl Eq for Rel {
    ghost use Rattle.std.proofs.lemmas.Cmp.{eq_by_cmp_equiv};
    ghost use Rattle.td_value.specs.code.ValueOrder.{relation_order_total};

    ghost laws = { eq_by_cmp_equiv relation_order_total };
}

impl PartialOrd for Rel {
    ghost use Rattle.std.specs.Prelude.{refl};
    ghost use Rattle.std.specs.Ordering.{as_partial_cmp};
    ghost use Rattle.std.specs.Cmp.{partial_order_from_agreeing_total};
    ghost use Rattle.td_value.specs.code.ValueOrder.{relation_order_total};

    ghost partial_cmp = { as_partial_cmp relation_cmp };

    ghost laws = { partial_order_from_agreeing_total relation_cmp relation_order_total (λ x y. refl)
        (λ x y. refl) };

    fn partial_cmp(&self, other: &Rel) -> Option<Ordering> {
        Some(self.cmp(other))
    }
}

impl Ord for Rel {
    ghost use Rattle.std.specs.Prelude.{refl};
    ghost use Rattle.td_value.specs.code.ValueOrder.{relation_order_total};

    ghost cmp = { relation_cmp };

    ghost total = { relation_order_total };

    ghost matches_partial_cmp = { λ x y. refl };

    ghost matches_eq = { λ x y. refl };

    fn cmp(&self, other: &Rel) -> Ordering {
        compare_rels(self, other)
    }
}
