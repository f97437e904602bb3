//! Bodies whose members stand in order.
use crate::body::Body;
use crate::changes::changed_relation;
use crate::keys::{agreeing, key_holds};
use std::alloc::{AllocError, Global};
use std::marker::Model;
use std::rc::Rc;
use td_tree::name::Name;
use td_types::heading::Heading;
use td_value::relation::Rel;
use td_value::tuple::Tuple;

/// A body whose members stand in their order, beside those of each earlier relation that it keeps.
/// Copies share the members and the keys: the first change of a copy copies the members.
#[derive(Drop)]
pub struct SortedBody {
    relation: Rel,
    kept: Vec<Rel>,
    keys: Rc<Vec<Vec<Name>>>,
}

impl Model for SortedBody {
    ghost use Rattle.std.specs.Prelude.{map};
    ghost use Rattle.td_body.specs.model.Bodies.{BodyView, HaveOneHeading};
    ghost use Rattle.td_body.specs.code.BodyCode.{body_code};

    ghost Value = { BodyView };

    ghost coded = { body_code };

    ghost view = { λ b. record {
      relation = b.relation;
      keys = map (λ key. key.items) b.keys.value.items;
      kept = b.kept.items;
    } };

    ghost invariant = { λ b. HaveOneHeading b.relation b.kept.items };
}

impl Body for SortedBody {
    ghost relation = { λ b. b.relation };

    ghost keys = { λ b. b.keys };

    ghost kept = { λ b. b.kept };

    fn empty(alloc: Global, heading: Heading, names: Vec<Vec<Name>>) -> Result<Self, AllocError> {
        let relation = Rel::of_ascending(heading, Vec::new(alloc))?;
        let kept = Vec::new(alloc);
        let keys = Rc::new(alloc, names)?;
        Ok(SortedBody {
            relation,
            kept,
            keys,
        })
    }

    fn insert(&mut self, tuple: Tuple) -> Result<bool, Tuple> {
        let Ok(small) = tuple.kept_small() else {
            return Err(tuple);
        };
        self.relation.insert(small)
    }

    fn remove(&mut self, tuple: &Tuple) -> Result<bool, AllocError> {
        self.relation.remove(tuple)
    }

    fn change(&mut self, out: &Rel, add: &Rel) -> Result<(), AllocError> {
        let alloc = *self.keys.allocator();
        let next = changed_relation(alloc, &self.relation, out, add)?.kept_small()?;
        self.kept.push(self.relation.try_clone()?)?;
        self.relation = next;
        Ok(())
    }

    fn revert(&mut self) -> bool {
        match self.kept.pop() {
            Some(earlier) => {
                self.relation = earlier;
                true
            }
            None => false,
        }
    }

    fn settle(&mut self) {
        self.kept.clear();
    }

    fn kept(&self) -> usize {
        self.kept.len()
    }

    fn contains(&self, tuple: &Tuple) -> bool {
        self.relation.contains(tuple)
    }

    fn len(&self) -> usize {
        self.relation.heading().reveal();
        self.relation.rows().len()
    }

    fn to_rel(&self) -> Result<Rel, AllocError> {
        self.relation.try_clone()
    }

    fn try_clone(&self) -> Result<Self, AllocError> {
        Ok(SortedBody {
            relation: self.relation.try_clone()?,
            kept: Vec::new(*self.keys.allocator()),
            keys: self.keys.clone()?,
        })
    }

    fn find_by_key(&self, key: usize, part: &Tuple) -> Result<Rel, AllocError> {
        let alloc = *self.keys.allocator();
        agreeing(alloc, &self.keys[key], part, &self.relation)
    }

    fn key_holds(&self, key: usize) -> Result<bool, AllocError> {
        let alloc = *self.keys.allocator();
        key_holds(alloc, &self.keys[key], &self.relation)
    }
}
