//! The steps that led to the tables of a catalogue, by which they go back.
ghost use Rattle.std.specs.Prelude.{◌≡◌, ◌∷◌, ◌++◌, [], ◌<◌, IfNone, IfSome, OnOk};
ghost use Rattle.std.specs.Prelude.{vec_capacity, vec_len};
ghost use Rattle.td_catalog.specs.code.Histories.{dropped_in};

use crate::entry::{BaseEntry, ConstraintEntry, VirtualEntry};
use std::alloc::{AllocError, Global};
use td_body::body::Body;
use td_tree::name::Name;
use td_types::heading::Heading;
use td_types::table::TypeTable;

/// A step from one database to the next. What was dropped is moved here, with its place, and last
/// what was known of it.
#[derive(Drop)]
pub(crate) enum Step<B: Body> {
    TypeAdded(Name),
    BaseAdded,
    VirtualAdded,
    ConstraintAdded,
    /// A type was dropped: the types were these.
    TypeDropped(TypeTable),
    BaseDropped(usize, Name, BaseEntry<B>, (Name, Heading)),
    VirtualDropped(usize, Name, VirtualEntry, (Name, Heading)),
    ConstraintDropped(usize, Name, ConstraintEntry, Name),
    /// The body of the base relvar of the name changed, and keeps what it was.
    BodyChanged(Name),
}

/// How many entries the step moved out.
fn moved_out<B: Body>(step: &Step<B>) -> usize
    ensures { result ≡ dropped_in (step.now ∷ []) }
{
    match step {
        Step::TypeAdded(_) => 0,
        Step::BaseAdded => 0,
        Step::VirtualAdded => 0,
        Step::ConstraintAdded => 0,
        Step::TypeDropped(_) => 0,
        Step::BaseDropped(_, _, _, _) => 1,
        Step::VirtualDropped(_, _, _, _) => 1,
        Step::ConstraintDropped(_, _, _, _) => 1,
        Step::BodyChanged(_) => 0,
    }
}

/// Steps, the latest last.
#[derive(Drop)]
pub(crate) struct History<B: Body> {
    pub(crate) steps: Vec<Step<B>>,
    /// How many entries they moved out.
    pub(crate) dropped: usize,
    ghost counted: { dropped ≡ dropped_in steps.items },
}

impl<B: Body> History<B> {
    /// No step. It takes no memory.
    pub(crate) fn new(alloc: Global) -> History<B>
        ensures { result.steps.items ≡ [] }
    {
        History {
            steps: Vec::new(alloc),
            dropped: 0,
        }
    }

    /// Makes room for one more step.
    pub(crate) fn reserve(&mut self) -> Result<(), AllocError>
        ensures steps { self.new.steps.items ≡ self.old.steps.items }
        ensures space { OnOk result (vec_len self.new.steps < vec_capacity self.new.steps) }
    {
        self.steps.reserve(1)
    }

    /// Writes one more step. It takes no memory.
    pub(crate) fn note(&mut self, step: Step<B>)
        requires { vec_len self.old.steps < vec_capacity self.old.steps }
        ensures { self.new.steps.items ≡ self.old.steps.items ++ step ∷ [] }
    {
        self.dropped += moved_out(&step);
        self.steps.push_reserved(step);
    }

    /// Takes the latest step off.
    pub(crate) fn pop(&mut self) -> Option<Step<B>>
        ensures some { IfSome result (λ step.
            self.old.steps.items ≡ self.new.steps.items ++ step ∷ []) }
        ensures none { IfNone result
            ((self.old.steps.items ≡ []) × (self.new.steps.items ≡ [])) }
    {
        let step = self.steps.pop()?;
        self.dropped -= moved_out(&step);
        Some(step)
    }

    /// Takes all steps off.
    pub(crate) fn clear(&mut self)
        ensures { self.new.steps.items ≡ [] }
    {
        self.steps.clear();
        self.dropped = 0;
    }
}
