//! Expressions made again, of what copies of their parts gave.
ghost use Rattle.std.specs.Prelude.{◌≡◌, IfOk};
ghost use Rattle.std.specs.Rc.{rc_str_bytes};
ghost use Rattle.td_tree.specs.code.Copies.{Boxed, Copied};
ghost use Rattle.td_tree.specs.model.Trees as trees;
ghost use Rattle.td_tree.specs.code.TreeViews.{attributes_view, heading_tree_view, literal_view};
ghost use Rattle.td_tree.specs.code.TreeViews.{named_view, postfix_view, summaries_view, tree_view};
ghost use Rattle.td_tree.specs.code.TreeViews.{trees_view};

use crate::both::both;
use crate::expression::{Attributes, Expr, Literal, NamedExpr, Postfix, Summary};
use crate::name::Name;
use crate::operator::{Aggregate, Comparison, Measure, Operator, Prefix};
use crate::type_tree::AttributeTree;
use std::alloc::AllocError;
use std::rc::RcStr;

/// A literal.
pub fn literal(value: Result<Literal, AllocError>) -> Result<Expr, AllocError>
    ensures { (v : trees.Literal) → IfOk value (λ x. literal_view x ≡ v)
        → Copied result (trees.literal v) }
{
    Ok(Expr::Literal(value?))
}

/// A name.
pub fn name(name: Result<Name, AllocError>) -> Result<Expr, AllocError>
    ensures { (n : trees.Text) → IfOk name (λ x. x ≡ n) → Copied result (trees.name n) }
{
    Ok(Expr::Name(name?))
}

/// `(e)`
pub fn parentheses(inner: Result<Box<Expr>, AllocError>) -> Result<Expr, AllocError>
    ensures { (i : trees.Tree) → Boxed inner i → Copied result (trees.parentheses i) }
{
    Ok(Expr::Parentheses(inner?))
}

/// An operator before its operand.
pub fn prefix(op: Prefix, operand: Result<Box<Expr>, AllocError>) -> Result<Expr, AllocError>
    ensures { (o : trees.Tree) → Boxed operand o → Copied result (trees.prefix op o) }
{
    Ok(Expr::Prefix(op, operand?))
}

/// `A FROM t`
pub fn extract(
    name: Result<Name, AllocError>,
    operand: Result<Box<Expr>, AllocError>,
) -> Result<Expr, AllocError>
    ensures { (n : trees.Text) → (o : trees.Tree) → IfOk name (λ x. x ≡ n) → Boxed operand o
        → Copied result (trees.extract n o) }
{
    match both(name, operand) {
        Ok((name, operand)) => Ok(Expr::Extract(name, operand)),
        Err(error) => Err(error),
    }
}

/// `r WHERE p`
pub fn restriction(
    operand: Result<Box<Expr>, AllocError>,
    condition: Result<Box<Expr>, AllocError>,
) -> Result<Expr, AllocError>
    ensures { (r : trees.Tree) → (p : trees.Tree) → Boxed operand r → Boxed condition p
        → Copied result (trees.restriction r p) }
{
    match both(operand, condition) {
        Ok((operand, condition)) => Ok(Expr::Restriction(operand, condition)),
        Err(error) => Err(error),
    }
}

/// An operator between its operands.
pub fn binary(
    left: Result<Box<Expr>, AllocError>,
    op: Operator,
    right: Result<Box<Expr>, AllocError>,
) -> Result<Expr, AllocError>
    ensures { (l : trees.Tree) → (r : trees.Tree) → Boxed left l → Boxed right r
        → Copied result (trees.binary l op r) }
{
    match both(left, right) {
        Ok((left, right)) => Ok(Expr::Binary(left, op, right)),
        Err(error) => Err(error),
    }
}

/// A comparison of two operands.
pub fn compare(
    left: Result<Box<Expr>, AllocError>,
    op: Comparison,
    right: Result<Box<Expr>, AllocError>,
) -> Result<Expr, AllocError>
    ensures { (l : trees.Tree) → (r : trees.Tree) → Boxed left l → Boxed right r
        → Copied result (trees.compare l op r) }
{
    match both(left, right) {
        Ok((left, right)) => Ok(Expr::Compare(left, op, right)),
        Err(error) => Err(error),
    }
}

/// An operator behind its operand.
pub fn postfix(
    operand: Result<Box<Expr>, AllocError>,
    op: Result<Postfix, AllocError>,
) -> Result<Expr, AllocError>
    ensures { (o : trees.Tree) → (p : trees.Postfix) → Boxed operand o
        → IfOk op (λ x. postfix_view x ≡ p) → Copied result (trees.postfix o p) }
{
    match both(operand, op) {
        Ok((operand, op)) => Ok(Expr::Postfix(operand, op)),
        Err(error) => Err(error),
    }
}

/// `T(e, ..)`, of its parts.
fn selector_call(ty: Name, arguments: Vec<Expr>) -> Expr
    ensures { tree_view result ≡ trees.select ty (trees_view arguments.items) }
{
    Expr::Select(ty, arguments)
}

/// `T(e, ..)`
pub fn select(
    ty: Result<Name, AllocError>,
    arguments: Result<Vec<Expr>, AllocError>,
) -> Result<Expr, AllocError>
    ensures { (n : trees.Text) → (es : trees.Trees) → IfOk ty (λ x. x ≡ n)
        → IfOk arguments (λ x. trees_view x.items ≡ es) → Copied result (trees.select n es) }
{
    match both(ty, arguments) {
        Ok((ty, arguments)) => Ok(selector_call(ty, arguments)),
        Err(error) => Err(error),
    }
}

/// `THE_C(e)`
pub fn component(
    rest: Result<RcStr, AllocError>,
    operand: Result<Box<Expr>, AllocError>,
) -> Result<Expr, AllocError>
    ensures { (t : trees.Text) → (o : trees.Tree) → IfOk rest (λ x. rc_str_bytes x ≡ t)
        → Boxed operand o → Copied result (trees.component t o) }
{
    match both(rest, operand) {
        Ok((rest, operand)) => Ok(Expr::Component(rest, operand)),
        Err(error) => Err(error),
    }
}

/// `COUNT(e)` or `IS_EMPTY(e)`
pub fn measure(op: Measure, operand: Result<Box<Expr>, AllocError>) -> Result<Expr, AllocError>
    ensures { (o : trees.Tree) → Boxed operand o → Copied result (trees.measure op o) }
{
    Ok(Expr::Measure(op, operand?))
}

/// `SUM(e, v)`, `MAX(e, v)` or `MIN(e, v)`
pub fn aggregate(
    op: Aggregate,
    operand: Result<Box<Expr>, AllocError>,
    value: Result<Box<Expr>, AllocError>,
) -> Result<Expr, AllocError>
    ensures { (o : trees.Tree) → (v : trees.Tree) → Boxed operand o → Boxed value v
        → Copied result (trees.aggregate op o v) }
{
    match both(operand, value) {
        Ok((operand, value)) => Ok(Expr::Aggregate(op, operand, value)),
        Err(error) => Err(error),
    }
}

/// `RELATION {t, ..}`
#[tactic(auto, using(crate::proofs::code_lemmas::Rows::relation_is))]
pub fn relation(elements: Result<Vec<Expr>, AllocError>) -> Result<Expr, AllocError>
    ensures { (es : trees.Trees) → IfOk elements (λ x. trees_view x.items ≡ es)
        → Copied result (trees.relation es) }
{
    Ok(Expr::Relation(elements?))
}

/// `RELATION {A INTEGER, ..} {t, ..}`
#[tactic(auto, using(crate::proofs::code_lemmas::Rows::headed_relation_is))]
pub fn headed_relation(
    heading: Result<Vec<AttributeTree>, AllocError>,
    elements: Result<Vec<Expr>, AllocError>,
) -> Result<Expr, AllocError>
    ensures { (h : trees.AttributeTrees) → (es : trees.Trees)
        → IfOk heading (λ x. heading_tree_view x.items ≡ h)
        → IfOk elements (λ x. trees_view x.items ≡ es)
        → Copied result (trees.headed_relation h es) }
{
    match both(heading, elements) {
        Ok((heading, elements)) => Ok(Expr::HeadedRelation(heading, elements)),
        Err(error) => Err(error),
    }
}

/// `TUPLE {A e, ..}`
#[tactic(auto, using(crate::proofs::code_lemmas::Rows::tuple_is))]
pub fn tuple(parts: Result<Vec<NamedExpr>, AllocError>) -> Result<Expr, AllocError>
    ensures { (ps : trees.NamedTrees) → IfOk parts (λ x. named_view x.items ≡ ps)
        → Copied result (trees.tuple ps) }
{
    Ok(Expr::Tuple(parts?))
}

/// `EXTEND e ADD (v AS A, ..)`
#[tactic(auto, using(crate::proofs::code_lemmas::Rows::extend_is))]
pub fn extend(
    operand: Result<Box<Expr>, AllocError>,
    parts: Result<Vec<NamedExpr>, AllocError>,
) -> Result<Expr, AllocError>
    ensures { (o : trees.Tree) → (ps : trees.NamedTrees) → Boxed operand o
        → IfOk parts (λ x. named_view x.items ≡ ps) → Copied result (trees.extend o ps) }
{
    match both(operand, parts) {
        Ok((operand, parts)) => Ok(Expr::Extend(operand, parts)),
        Err(error) => Err(error),
    }
}

/// `EXTEND e : {A := v, ..}`
#[tactic(auto, using(crate::proofs::code_lemmas::Rows::extend_setting_is))]
pub fn extend_setting(
    operand: Result<Box<Expr>, AllocError>,
    settings: Result<Vec<NamedExpr>, AllocError>,
) -> Result<Expr, AllocError>
    ensures { (o : trees.Tree) → (ps : trees.NamedTrees) → Boxed operand o
        → IfOk settings (λ x. named_view x.items ≡ ps) → Copied result (trees.extend_setting o ps) }
{
    match both(operand, settings) {
        Ok((operand, settings)) => Ok(Expr::ExtendSetting(operand, settings)),
        Err(error) => Err(error),
    }
}

/// `SUMMARIZE e PER (p) ADD (..)`
#[tactic(auto, using(crate::proofs::code_lemmas::Rows::summarize_per_is))]
pub fn summarize_per(
    operand: Result<Box<Expr>, AllocError>,
    per: Result<Box<Expr>, AllocError>,
    added: Result<Vec<Summary>, AllocError>,
) -> Result<Expr, AllocError>
    ensures { (o : trees.Tree) → (p : trees.Tree) → (ss : trees.Summaries) → Boxed operand o
        → Boxed per p → IfOk added (λ x. summaries_view x.items ≡ ss)
        → Copied result (trees.summarize_per o p ss) }
{
    match both(operand, both(per, added)) {
        Ok((operand, (per, added))) => Ok(Expr::SummarizePer(operand, per, added)),
        Err(error) => Err(error),
    }
}

/// `SUMMARIZE e BY {..} ADD (..)`, of its parts.
fn summarized_by(operand: Box<Expr>, by: Attributes, added: Vec<Summary>) -> Expr
    ensures { tree_view result
        ≡ trees.summarize_by (tree_view operand.value) (attributes_view by)
        (summaries_view added.items) }
{
    Expr::SummarizeBy(operand, by, added)
}

/// `SUMMARIZE e BY {..} ADD (..)`
pub fn summarize_by(
    operand: Result<Box<Expr>, AllocError>,
    by: Result<Attributes, AllocError>,
    added: Result<Vec<Summary>, AllocError>,
) -> Result<Expr, AllocError>
    ensures { (o : trees.Tree) → (b : trees.Attributes) → (ss : trees.Summaries) → Boxed operand o
        → IfOk by (λ x. attributes_view x ≡ b) → IfOk added (λ x. summaries_view x.items ≡ ss)
        → Copied result (trees.summarize_by o b ss) }
{
    match both(operand, both(by, added)) {
        Ok((operand, (by, added))) => Ok(summarized_by(operand, by, added)),
        Err(error) => Err(error),
    }
}

/// `IF c THEN a ELSE b END IF`
pub fn choice(
    condition: Result<Box<Expr>, AllocError>,
    yes: Result<Box<Expr>, AllocError>,
    no: Result<Box<Expr>, AllocError>,
) -> Result<Expr, AllocError>
    ensures { (i : trees.Tree) → (t : trees.Tree) → (e : trees.Tree) → Boxed condition i
        → Boxed yes t → Boxed no e → Copied result (trees.choice i t e) }
{
    match both(condition, both(yes, no)) {
        Ok((condition, (yes, no))) => Ok(Expr::If(condition, yes, no)),
        Err(error) => Err(error),
    }
}

/// `WITH (A := e, ..) : x`
#[tactic(auto, using(crate::proofs::code_lemmas::Rows::binding_is))]
pub fn binding(
    items: Result<Vec<NamedExpr>, AllocError>,
    value: Result<Box<Expr>, AllocError>,
) -> Result<Expr, AllocError>
    ensures { (is : trees.NamedTrees) → (v : trees.Tree)
        → IfOk items (λ x. named_view x.items ≡ is) → Boxed value v
        → Copied result (trees.binding is v) }
{
    match both(items, value) {
        Ok((items, value)) => Ok(Expr::With(items, value)),
        Err(error) => Err(error),
    }
}
