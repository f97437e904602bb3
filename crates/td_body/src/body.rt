//! Bodies of relvars.
ghost use Rattle.std.specs.Prelude.{◌≡◌, ◌∷◌, ◌++◌, ℕ, ◌<◌, List, [], IfErr, IfOk, IfSome};
ghost use Rattle.std.specs.Prelude.{IsTrue, OnErr, OnOk, false, length, map, not};
ghost use Rattle.std.specs.List.{All, slice_get};
ghost use Rattle.td_types.specs.model.Headings.{has_attributes, projection};
ghost use Rattle.td_value.specs.model.Sets.{has};
ghost use Rattle.td_value.specs.model.Values.{IsRelation, IsTupleOf, Relation, heading_of};
ghost use Rattle.td_value.specs.model.Values.{relation_view, tuple_cmp, with_tuple, without_tuple};
ghost use Rattle.td_body.specs.model.Bodies.{after_change, agreeing, key_holds};

use std::alloc::{AllocError, Global};
use td_tree::name::Name;
use td_types::heading::Heading;
use td_value::relation::Rel;
use td_value::tuple::Tuple;

/// The body of a relvar: a set of tuples of one heading, with the keys that are declared for it,
/// and the earlier sets to which it can go back. It keeps no key: it answers whether one holds. A
/// refused call leaves it as it was.
pub trait Body: Drop {
    /// Its heading with the set of its tuples.
    ghost relation: { Self → Relation };

    /// The names of each of its keys, in the order in which they are declared.
    ghost keys: { Self → List (List (List ℕ)) };

    /// What it was before each change to which it can go back, the latest last.
    ghost kept: { Self → List Relation };

    /// The body of that heading without tuples, with the keys of those names.
    fn empty(alloc: Global, heading: Heading, names: Vec<Vec<Name>>) -> Result<Self, AllocError>
        requires { All (λ key. IsTrue (has_attributes key heading))
            (map (λ key. key.items) names.items) }
        ensures relation { IfOk result (λ b. relation b ≡ relation_view heading []) }
        ensures keys { IfOk result (λ b. keys b ≡ map (λ key. key.items) names.items) }
        ensures kept { IfOk result (λ b. kept b ≡ []) };

    /// Makes the tuple a member, and answers whether it was none. Where memory is refused the
    /// tuple comes back.
    fn insert(&mut self, tuple: Tuple) -> Result<bool, Tuple>
        requires headed { IsTupleOf (relation self.old).heading tuple }
        requires none_kept { kept self.old ≡ [] }
        ensures new { IfOk result (λ new.
            new ≡ not (has tuple_cmp tuple (relation self.old).body)) }
        ensures with { OnOk result (relation self.new ≡ with_tuple tuple (relation self.old)) }
        ensures back { IfErr result (λ back. back ≡ tuple) }
        ensures same { OnErr result (relation self.new ≡ relation self.old) }
        ensures keys { (keys self.new ≡ keys self.old) × (kept self.new ≡ []) };

    /// Takes the tuple out, and answers whether it was a member.
    fn remove(&mut self, tuple: &Tuple) -> Result<bool, AllocError>
        requires headed { IsTupleOf (relation self.old).heading tuple.now }
        requires none_kept { kept self.old ≡ [] }
        ensures there { IfOk result (λ there.
            there ≡ has tuple_cmp tuple.now (relation self.old).body) }
        ensures without { OnOk result
            (relation self.new ≡ without_tuple tuple.now (relation self.old)) }
        ensures same { OnErr result (relation self.new ≡ relation self.old) }
        ensures keys { (keys self.new ≡ keys self.old) × (kept self.new ≡ []) };

    /// Takes the tuples of the one relation out, then puts those of the other in, and keeps what
    /// it was.
    fn change(&mut self, out: &Rel, add: &Rel) -> Result<(), AllocError>
        requires out { out.now.heading ≡ (relation self.old).heading }
        requires add { add.now.heading ≡ (relation self.old).heading }
        ensures changed { OnOk result
            (relation self.new ≡ after_change out.now add.now (relation self.old)) }
        ensures kept { OnOk result (kept self.new ≡ kept self.old ++ relation self.old ∷ []) }
        ensures same { OnErr result
            ((relation self.new ≡ relation self.old) × (kept self.new ≡ kept self.old)) }
        ensures keys { keys self.new ≡ keys self.old };

    /// Goes back to what it was before the latest change of which that is kept, and answers
    /// whether there was one. It takes no memory.
    fn revert(&mut self) -> bool
        ensures back { IsTrue result → kept self.old ≡ kept self.new ++ relation self.new ∷ [] }
        ensures none { result ≡ false → (kept self.old ≡ []) × (kept self.new ≡ []) }
        ensures same { result ≡ false → relation self.new ≡ relation self.old }
        ensures heading { (relation self.new).heading ≡ (relation self.old).heading }
        ensures keys { keys self.new ≡ keys self.old };

    /// Keeps no earlier relation any longer. It takes no memory.
    fn settle(&mut self)
        ensures relation { relation self.new ≡ relation self.old }
        ensures keys { keys self.new ≡ keys self.old }
        ensures kept { kept self.new ≡ [] };

    /// How many earlier relations are kept. It takes no memory.
    fn kept(&self) -> usize
        ensures { result ≡ length (kept self.now) };

    /// Whether the tuple is a member.
    fn contains(&self, tuple: &Tuple) -> bool
        requires { IsTupleOf (relation self.now).heading tuple.now }
        ensures { result ≡ has tuple_cmp tuple.now (relation self.now).body };

    /// How many members it has.
    fn len(&self) -> usize
        ensures length { result ≡ length (relation self.now).body }
        ensures valid { IsRelation (relation self.now) };

    /// The heading with the members as a relation.
    fn to_rel(&self) -> Result<Rel, AllocError>
        ensures { IfOk result (λ r. r ≡ relation self.now) };

    /// A body of the same keys and members, which keeps no earlier relation.
    fn try_clone(&self) -> Result<Self, AllocError>
        ensures relation { IfOk result (λ b. relation b ≡ relation self.now) }
        ensures keys { IfOk result (λ b. keys b ≡ keys self.now) }
        ensures kept { IfOk result (λ b. kept b ≡ []) };

    /// The members that agree with the part on the key of that place, whose names and types the
    /// part has.
    fn find_by_key(&self, key: usize, part: &Tuple) -> Result<Rel, AllocError>
        requires declared { key < length (keys self.now) }
        requires part { IfSome (slice_get (keys self.now) key) (λ names.
            heading_of part.now ≡ projection names (relation self.now).heading) }
        ensures { IfSome (slice_get (keys self.now) key) (λ names.
            IfOk result (λ found. found ≡ agreeing names part.now (relation self.now))) };

    /// Whether the key of that place holds: no two members agree on it.
    fn key_holds(&self, key: usize) -> Result<bool, AllocError>
        requires { key < length (keys self.now) }
        ensures { IfSome (slice_get (keys self.now) key) (λ names.
            IfOk result (λ holds. holds ≡ key_holds names (relation self.now).body)) };
}
