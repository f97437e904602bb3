//! Expressions that were read, with their heights.
ghost use Rattle.std.specs.Prelude.{◌≡◌, ◌<◌, ◌-◌, ◌^◌, map, min, nat_le, IfOk};
ghost use Rattle.std.specs.Rc.{rc_str_bytes};
ghost use Rattle.td_parse.specs.code.Views.{item_view, named_part_view};
ghost use Rattle.td_tree.specs.model.Heights as heights;
ghost use Rattle.td_parse.specs.code.Reading.{named_from, summaries_from, trees_from};
ghost use Rattle.td_tree.specs.model.Trees as trees;
ghost use Rattle.td_parse.specs.code.Walking.{infix_tree};
ghost use Rattle.td_tree.specs.code.TreeViews.{attributes_view, heading_tree_view, literal_view};
ghost use Rattle.td_tree.specs.code.TreeViews.{postfix_view, summaries_view, tree_view, trees_view};

use crate::operators::{Infix, Link};
use crate::parts::{Elements, NamedParts, Summaries};
use std::alloc::{AllocError, Global};
use std::marker::Model;
use std::rc::RcStr;
use td_tree::expression::{Attributes, Expr, Literal, Postfix, Summary};
use td_tree::height::highest_type;
use td_tree::name::Name;
use td_tree::operator::{Aggregate, Comparison, Measure, Operator, Prefix};
use td_tree::type_tree::AttributeTree;

/// An expression, and how high it is. `u64::MAX` stands for what is greater.
#[derive(Drop)]
pub struct Found {
    tree: Expr,
    height: u64,
}

impl Model for Found {
    ghost use Rattle.std.specs.Prelude.{◌≡◌, ◌-◌, ◌^◌, min};
    ghost use Rattle.std.specs.Coded.{codes};
    ghost use Rattle.td_tree.specs.contracts.expression.Expr as expr;
    ghost use Rattle.td_tree.specs.declared.expression.Expr.{Expr};
    ghost use Rattle.td_tree.specs.model.Heights as heights;
    ghost use Rattle.td_tree.specs.code.TreeViews.{tree_view};

    ghost Value = { Expr };

    ghost coded = { Prim.hlevel (codes, expr.the_row.coded) };

    ghost view = { λ f. f.tree };

    ghost invariant = { λ f. f.height ≡ min (heights.height (tree_view f.tree)) (2 ^ 64 - 1) };
}

/// A part in a box.
fn box_of<T: Drop>(alloc: Global, part: T) -> Result<Box<T>, AllocError>
    ensures { IfOk result (λ b. b.value ≡ part) }
{
    Ok(Box::new(alloc, part)?)
}

/// A part in a box, with what was boxed before it.
fn boxed_with<T: Drop, U: Drop>(
    alloc: Global,
    part: T,
    before: U,
) -> Result<(Box<T>, U), AllocError>
    ensures part { IfOk result (λ both. both.0.value ≡ part) }
    ensures before { IfOk result (λ both. both.1 ≡ before) }
{
    let part = box_of(alloc, part)?;
    Ok((part, before))
}

/// Two parts, each in a box.
fn boxed_both<T: Drop, U: Drop>(
    alloc: Global,
    first: T,
    second: U,
) -> Result<(Box<T>, Box<U>), AllocError>
    ensures first { IfOk result (λ both. both.0.value ≡ first) }
    ensures second { IfOk result (λ both. both.1.value ≡ second) }
{
    let second = box_of(alloc, second)?;
    boxed_with(alloc, first, second)
}

/// `T(e, ..)`
fn selector_call(ty: Name, arguments: Vec<Expr>) -> Expr
    ensures { tree_view result ≡ trees.select ty (trees_view arguments.items) }
{
    Expr::Select(ty, arguments)
}

/// `SUMMARIZE e BY {..} ADD (..)`
fn summarized_by(operand: Box<Expr>, by: Attributes, added: Vec<Summary>) -> Expr
    ensures { tree_view result
        ≡ trees.summarize_by (tree_view operand.value) (attributes_view by)
        (summaries_view added.items) }
{
    Expr::SummarizeBy(operand, by, added)
}

impl Found {
    /// The expression alone.
    pub fn into_tree(self) -> Expr
        ensures { result ≡ self }
    {
        self.tree
    }

    /// How high it is.
    pub fn height(&self) -> u64
        ensures { result ≡ min (heights.height (tree_view self.now)) (2 ^ 64 - 1) }
    {
        self.height
    }

    /// Whether it is at most so high.
    pub fn fits(&self, limit: u64) -> bool
        requires { limit < 2 ^ 64 - 1 }
        ensures { result ≡ nat_le (heights.height (tree_view self.now)) limit }
    {
        self.height <= limit
    }

    /// A literal.
    pub fn literal(value: Literal) -> Found
        ensures { tree_view result ≡ trees.literal (literal_view value) }
    {
        let tree = Expr::Literal(value);
        Found { tree, height: 1 }
    }

    /// A name.
    pub fn name(name: Name) -> Found
        ensures { tree_view result ≡ trees.name name }
    {
        let tree = Expr::Name(name);
        Found { tree, height: 1 }
    }

    /// `(e)`
    pub fn parentheses(alloc: Global, inner: Found) -> Result<Found, AllocError>
        ensures { IfOk result (λ e. tree_view e ≡ trees.parentheses (tree_view inner)) }
    {
        let height = inner.height.saturating_add(1);
        let inner = box_of(alloc, inner.tree)?;
        let tree = Expr::Parentheses(inner);
        Ok(Found { tree, height })
    }

    /// An operator before its operand.
    pub fn prefix(alloc: Global, op: Prefix, operand: Found) -> Result<Found, AllocError>
        ensures { IfOk result (λ e. tree_view e ≡ trees.prefix op (tree_view operand)) }
    {
        let height = operand.height.saturating_add(1);
        let operand = box_of(alloc, operand.tree)?;
        let tree = Expr::Prefix(op, operand);
        Ok(Found { tree, height })
    }

    /// `A FROM t`
    pub fn extract(alloc: Global, attribute: Name, operand: Found) -> Result<Found, AllocError>
        ensures { IfOk result (λ e. tree_view e ≡ trees.extract attribute (tree_view operand)) }
    {
        let height = operand.height.saturating_add(1);
        let operand = box_of(alloc, operand.tree)?;
        let tree = Expr::Extract(attribute, operand);
        Ok(Found { tree, height })
    }

    /// An operator between its operands.
    fn binary(alloc: Global, left: Found, op: Operator, right: Found) -> Result<Found, AllocError>
        ensures { IfOk result (λ e. tree_view e
            ≡ trees.binary (tree_view left) op (tree_view right)) }
    {
        let height = left.height.max(right.height).saturating_add(1);
        let (left, right) = boxed_both(alloc, left.tree, right.tree)?;
        let tree = Expr::Binary(left, op, right);
        Ok(Found { tree, height })
    }

    /// `r WHERE p`
    fn restriction(alloc: Global, operand: Found, condition: Found) -> Result<Found, AllocError>
        ensures { IfOk result (λ e. tree_view e
            ≡ trees.restriction (tree_view operand) (tree_view condition)) }
    {
        let height = operand.height.max(condition.height).saturating_add(1);
        let (operand, condition) = boxed_both(alloc, operand.tree, condition.tree)?;
        let tree = Expr::Restriction(operand, condition);
        Ok(Found { tree, height })
    }

    /// A comparison of two operands.
    fn compare(
        alloc: Global,
        left: Found,
        op: Comparison,
        right: Found,
    ) -> Result<Found, AllocError>
        ensures { IfOk result (λ e. tree_view e
            ≡ trees.compare (tree_view left) op (tree_view right)) }
    {
        let height = left.height.max(right.height).saturating_add(1);
        let (left, right) = boxed_both(alloc, left.tree, right.tree)?;
        let tree = Expr::Compare(left, op, right);
        Ok(Found { tree, height })
    }

    /// Two operands with what stands between them.
    pub fn of_infix(
        alloc: Global,
        left: Found,
        op: Infix,
        right: Found,
    ) -> Result<Found, AllocError>
        ensures { IfOk result (λ e. tree_view e
            ≡ infix_tree (tree_view left) op (tree_view right)) }
    {
        match op {
            Infix::Link(Link::Where) => Found::restriction(alloc, left, right),
            Infix::Link(Link::Operator(op)) => Found::binary(alloc, left, op, right),
            Infix::Comparison(op) => Found::compare(alloc, left, op, right),
        }
    }

    /// An operator behind its operand.
    pub fn postfix(alloc: Global, operand: Found, op: Postfix) -> Result<Found, AllocError>
        ensures { IfOk result (λ e. tree_view e
            ≡ trees.postfix (tree_view operand) (postfix_view op)) }
    {
        let height = operand.height.saturating_add(1);
        let operand = box_of(alloc, operand.tree)?;
        let tree = Expr::Postfix(operand, op);
        Ok(Found { tree, height })
    }

    /// `T(e, ..)`
    #[tactic(auto, using(crate::proofs::Views::trees_from_of))]
    pub fn select(ty: Name, arguments: Elements) -> Found
        ensures { tree_view result ≡ trees.select ty (trees_from (map tree_view arguments)) }
    {
        let height = arguments.height.saturating_add(1);
        let tree = selector_call(ty, arguments.items);
        Found { tree, height }
    }

    /// `THE_C(e)`, by what follows `THE_`.
    pub fn component(alloc: Global, rest: RcStr, operand: Found) -> Result<Found, AllocError>
        ensures { IfOk result
            (λ e. tree_view e ≡ trees.component (rc_str_bytes rest) (tree_view operand)) }
    {
        let height = operand.height.saturating_add(1);
        let operand = box_of(alloc, operand.tree)?;
        let tree = Expr::Component(rest, operand);
        Ok(Found { tree, height })
    }

    /// `COUNT(e)` or `IS_EMPTY(e)`
    pub fn measure(alloc: Global, op: Measure, operand: Found) -> Result<Found, AllocError>
        ensures { IfOk result (λ e. tree_view e ≡ trees.measure op (tree_view operand)) }
    {
        let height = operand.height.saturating_add(1);
        let operand = box_of(alloc, operand.tree)?;
        let tree = Expr::Measure(op, operand);
        Ok(Found { tree, height })
    }

    /// `SUM(e, v)`, `MAX(e, v)` or `MIN(e, v)`
    pub fn aggregate(
        alloc: Global,
        op: Aggregate,
        operand: Found,
        value: Found,
    ) -> Result<Found, AllocError>
        ensures { IfOk result
            (λ e. tree_view e ≡ trees.aggregate op (tree_view operand) (tree_view value)) }
    {
        let height = operand.height.max(value.height).saturating_add(1);
        let (operand, value) = boxed_both(alloc, operand.tree, value.tree)?;
        let tree = Expr::Aggregate(op, operand, value);
        Ok(Found { tree, height })
    }

    /// `RELATION {t, ..}`
    #[tactic(auto, using(crate::proofs::Views::trees_from_of, td_tree::proofs::code_lemmas::Rows::relation_is))]
    pub fn relation(elements: Elements) -> Found
        ensures { tree_view result ≡ trees.relation (trees_from (map tree_view elements)) }
    {
        let height = elements.height.saturating_add(1);
        let tree = Expr::Relation(elements.items);
        Found { tree, height }
    }

    /// `RELATION {A INTEGER, ..} {t, ..}`
    #[tactic(auto, using(crate::proofs::Views::trees_from_of, td_tree::proofs::code_lemmas::Rows::headed_relation_is))]
    pub fn headed_relation(heading: Vec<AttributeTree>, elements: Elements) -> Found
        ensures { tree_view result
            ≡ trees.headed_relation (heading_tree_view heading.items) (trees_from
            (map tree_view elements)) }
    {
        let highest = highest_type(heading.as_slice()).saturating_add(1);
        let height = highest.max(elements.height).saturating_add(1);
        let tree = Expr::HeadedRelation(heading, elements.items);
        Found { tree, height }
    }

    /// `TUPLE {A e, ..}`
    #[tactic(auto, using(crate::proofs::Views::named_from_of, td_tree::proofs::code_lemmas::Rows::tuple_is))]
    pub fn tuple(parts: NamedParts) -> Found
        ensures { tree_view result ≡ trees.tuple (named_from (map named_part_view parts)) }
    {
        let height = parts.height.saturating_add(1);
        let tree = Expr::Tuple(parts.items);
        Found { tree, height }
    }

    /// `EXTEND e ADD (v AS A, ..)`
    #[tactic(auto, using(crate::proofs::Views::named_from_of, td_tree::proofs::code_lemmas::Rows::extend_is))]
    pub fn extend(alloc: Global, operand: Found, parts: NamedParts) -> Result<Found, AllocError>
        ensures { IfOk result
            (λ e. tree_view e
            ≡ trees.extend (tree_view operand) (named_from (map named_part_view parts))) }
    {
        let height = operand.height.max(parts.height).saturating_add(1);
        let operand = box_of(alloc, operand.tree)?;
        let tree = Expr::Extend(operand, parts.items);
        Ok(Found { tree, height })
    }

    /// `EXTEND e : {A := v, ..}`
    #[tactic(auto, using(crate::proofs::Views::named_from_of, td_tree::proofs::code_lemmas::Rows::extend_setting_is))]
    pub fn extend_setting(
        alloc: Global,
        operand: Found,
        settings: NamedParts,
    ) -> Result<Found, AllocError>
        ensures { IfOk result
            (λ e. tree_view e
            ≡ trees.extend_setting (tree_view operand)
            (named_from (map named_part_view settings))) }
    {
        let height = operand.height.max(settings.height).saturating_add(1);
        let operand = box_of(alloc, operand.tree)?;
        let tree = Expr::ExtendSetting(operand, settings.items);
        Ok(Found { tree, height })
    }

    /// `SUMMARIZE e PER (p) ADD (..)`
    #[tactic(auto, using(crate::proofs::Views::summaries_from_of, td_tree::proofs::code_lemmas::Rows::summarize_per_is))]
    pub fn summarize_per(
        alloc: Global,
        operand: Found,
        per: Found,
        summaries: Summaries,
    ) -> Result<Found, AllocError>
        ensures { IfOk result
            (λ e. tree_view e
            ≡ trees.summarize_per (tree_view operand) (tree_view per)
            (summaries_from (map item_view summaries))) }
    {
        let height = operand
            .height
            .max(per.height)
            .max(summaries.height)
            .saturating_add(1);
        let (operand, per) = boxed_both(alloc, operand.tree, per.tree)?;
        let tree = Expr::SummarizePer(operand, per, summaries.items);
        Ok(Found { tree, height })
    }

    /// `SUMMARIZE e BY {..} ADD (..)`
    #[tactic(auto, using(crate::proofs::Views::summaries_from_of))]
    pub fn summarize_by(
        alloc: Global,
        operand: Found,
        by: Attributes,
        summaries: Summaries,
    ) -> Result<Found, AllocError>
        ensures { IfOk result
            (λ e. tree_view e
            ≡ trees.summarize_by (tree_view operand) (attributes_view by)
            (summaries_from (map item_view summaries))) }
    {
        let height = operand.height.max(summaries.height).saturating_add(1);
        let operand = box_of(alloc, operand.tree)?;
        let tree = summarized_by(operand, by, summaries.items);
        Ok(Found { tree, height })
    }

    /// `WITH (A := v, ..) : e`
    #[tactic(auto, using(crate::proofs::Views::named_from_of, td_tree::proofs::code_lemmas::Rows::binding_is))]
    pub fn binding(alloc: Global, items: NamedParts, value: Found) -> Result<Found, AllocError>
        ensures { IfOk result
            (λ e. tree_view e
            ≡ trees.binding (named_from (map named_part_view items)) (tree_view value)) }
    {
        let height = items.height.max(value.height).saturating_add(1);
        let value = box_of(alloc, value.tree)?;
        let tree = Expr::With(items.items, value);
        Ok(Found { tree, height })
    }

    /// `IF c THEN a ELSE b END IF`
    pub fn choice(
        alloc: Global,
        condition: Found,
        consequent: Found,
        alternative: Found,
    ) -> Result<Found, AllocError>
        ensures { IfOk result
            (λ e. tree_view e
            ≡ trees.choice (tree_view condition) (tree_view consequent) (tree_view alternative)) }
    {
        let height = condition
            .height
            .max(consequent.height)
            .max(alternative.height)
            .saturating_add(1);
        let branches = boxed_both(alloc, consequent.tree, alternative.tree)?;
        let (condition, (consequent, alternative)) = boxed_with(alloc, condition.tree, branches)?;
        let tree = Expr::If(condition, consequent, alternative);
        Ok(Found { tree, height })
    }
}
