//! The type of an expression.
ghost use Rattle.std.specs.Prelude.{◌≡◌, ◌∷◌, [], IfOk, IsTrue, OnOk, Ok, is_some, map};
ghost use Rattle.td_check.specs.code.CheckViews.{added_view, bound_found, bounds_found};
ghost use Rattle.td_check.specs.code.CheckViews.{item_found, names_view, part_found};
ghost use Rattle.td_check.specs.code.CheckViews.{with_names};
ghost use Rattle.td_check.specs.code.ItemViews.{items_view, named_item_view};
ghost use Rattle.td_check.specs.model.Mentions.{in_tuples, mentioned_by_name, relvars_in};
ghost use Rattle.td_check.specs.model.Mentions.{relvars_in_all, relvars_in_items, relvars_in_named};
ghost use Rattle.td_check.specs.model.Mentions.{relvars_where_bound, types_in, types_in_all};
ghost use Rattle.td_check.specs.model.Mentions.{types_in_items, types_in_named};
ghost use Rattle.td_check.specs.model.OperatorTypes.{over_relation};
ghost use Rattle.td_check.specs.code.PlaceViews.{is_bound, scope_at, within_all};
ghost use Rattle.td_check.specs.model.Scopes.{entered_with};
ghost use Rattle.td_check.specs.model.StaticTypes.{items_of, name_type, named_types, type_of};
ghost use Rattle.td_check.specs.model.StaticTypes.{types_of, with_items};
ghost use Rattle.td_check.specs.code.Alike.{AreEnough};
ghost use Rattle.td_tree.specs.model.Trees.{Trees};
ghost use Rattle.td_tree.specs.model.Outcomes.{Answers, Outcome, Valued, with_value};
ghost use Rattle.td_tree.specs.code.TreeViews.{named_view, summaries_view, tree_view, trees_view};
ghost use Rattle.td_types.specs.code.Pairs.{pair_view};
ghost use Rattle.td_types.specs.model.Types.{IsType, Type'};
ghost use Rattle.td_types.specs.code.Views.{pairs_view, type_view};

use crate::alike::but_for_alike;
use crate::mentioned::{Mentions, add_types_in};
use crate::nodes::{
    by_attributes, per_relation, type_of_choice, type_of_comparison, type_of_extension,
    type_of_headed, type_of_operator, type_of_restriction, type_of_setting,
};
use crate::place::Place;
use crate::rules::lists::{Item, listed_type, selector_type, tuple_type};
use crate::rules::operand::{
    aggregate_type, component_type, extracted_type, literal_type, measure_type, prefix_type,
};
use crate::rules::postfix::postfix_type;
use crate::rules::requirements::{ask, relation_heading};
use crate::scope::Scope;
use td_tree::cause::Cause;
use td_tree::expression::{Expr, NamedExpr, Summary};
use td_tree::fault::Fault;
use td_tree::gathering::{Gathering, both};
use td_tree::name::Name;
use td_tree::operator::Operator;
use td_types::heading::Heading;
use td_types::resolve::resolve_heading;
use td_types::ty::Ty;

/// The type of an attribute or relvar by its name.
fn name_type(name: &Name, place: &Place<'_, '_, '_>, seen: &mut Mentions) -> Result<Ty, Fault>
    ensures ty { Answers type_view result (name_type (scope_at place.now) name.now) }
    ensures names { OnOk result (names_view seen.new ≡ with_names (names_view seen.old)
        (mentioned_by_name (scope_at place.now) name.now) []) }
{
    if let Some(ty) = place.attribute(name) {
        return Ok(ty.try_clone()?);
    }
    match place.relvar(name) {
        Some((_, heading)) => {
            seen.relvars.push(name.try_clone()?)?;
            Ok(Ty::Rel(heading.try_clone()?))
        }
        None => Err(Fault::Refused(Cause::NameUnknown)),
    }
}

/// The type of an expression where it stands. The names that it mentions are added to those seen.
#[cycle(check)]
fn check(expr: &Expr, place: &Place<'_, '_, '_>, seen: &mut Mentions) -> Result<Ty, Fault>
    ensures ty { Answers type_view result (type_of (scope_at place.now) (tree_view expr.now)) }
    ensures names { OnOk result (names_view seen.new ≡ with_names (names_view seen.old)
        (relvars_in (scope_at place.now) (tree_view expr.now)) (types_in (tree_view expr.now))) }
{
    match expr {
        Expr::Literal(literal) => Ok(literal_type(literal, place.allocator())),
        Expr::Name(name) => name_type(name, place, seen),
        Expr::Parentheses(inner) => check(inner, place, seen),
        Expr::Prefix(op, operand) => prefix_type(*op, &check(operand, place, seen)?),
        Expr::Extract(name, operand) => extracted_type(name, &check(operand, place, seen)?),
        Expr::Restriction(operand, condition) => {
            let operand = check(operand, place, seen)?;
            let condition = check_inside(condition, &operand, place, seen);
            type_of_restriction(operand, condition)
        }
        Expr::Binary(left, op, right) => {
            let first = check(left, place, seen);
            let second = check(right, place, seen);
            type_of_operator(*op, both(first, second))
        }
        Expr::Compare(left, op, right) => {
            let first = check(left, place, seen);
            let second = check(right, place, seen);
            type_of_comparison(*op, both(first, second))
        }
        Expr::Postfix(operand, op) => postfix_type(op, &check(operand, place, seen)?),
        Expr::Select(ty, arguments) => {
            seen.types.push(ty.try_clone()?)?;
            selector_type(place.types(), ty, &check_all(arguments, place, seen)?)
        }
        Expr::Component(name, operand) => {
            component_type(place.types(), name, &check(operand, place, seen)?)
        }
        Expr::Measure(op, operand) => measure_type(*op, &check(operand, place, seen)?),
        Expr::Aggregate(op, operand, value) => {
            let operand = check(operand, place, seen)?;
            aggregate_type(*op, check_inside(value, &operand, place, seen)?)
        }
        Expr::Relation(elements) => listed_type(&check_elements(elements, place, seen)?),
        Expr::HeadedRelation(heading, elements) => {
            add_types_in(heading, &mut seen.types)?;
            let elements = check_elements(elements, place, seen);
            type_of_headed(both(resolve_heading(place.types(), heading), elements))
        }
        Expr::Tuple(parts) => tuple_type(check_named(parts, place, seen)?),
        Expr::Extend(operand, parts) => {
            let operand = check(operand, place, seen)?;
            let attributes = check_named_inside(parts, &operand, place, seen);
            type_of_extension(operand, attributes)
        }
        Expr::ExtendSetting(operand, settings) => {
            let operand = check(operand, place, seen)?;
            let attributes = check_named_inside(settings, &operand, place, seen);
            type_of_setting(operand, attributes)
        }
        Expr::SummarizePer(operand, per, items) => {
            let operand = check(operand, place, seen);
            let added = check_items_inside(items, operand, place, seen);
            per_relation(both(added, check(per, place, seen)))
        }
        Expr::SummarizeBy(operand, by, items) => {
            let operand = check(operand, place, seen);
            by_attributes(by, check_items_inside(items, operand, place, seen))
        }
        Expr::If(condition, first, second) => {
            let condition = check(condition, place, seen);
            let first = check(first, place, seen);
            let second = check(second, place, seen);
            type_of_choice(both(condition, both(first, second)))
        }
        Expr::With(items, inside) => {
            let bounds = check_bounds(items, place, seen)?;
            check(inside, &place.inside_all(&bounds)?, seen)
        }
    }
}

/// The type of an expression that is applied to each tuple of an operand.
#[cycle(check)]
fn check_inside(
    expr: &Expr,
    operand: &Ty,
    place: &Place<'_, '_, '_>,
    seen: &mut Mentions,
) -> Result<Ty, Fault>
    ensures ty { Answers type_view result (over_relation (type_view operand.now)
        (λ h. type_of (entered_with h (scope_at place.now)) (tree_view expr.now))) }
    ensures names { OnOk result (names_view seen.new ≡ with_names (names_view seen.old)
        (relvars_in (in_tuples (scope_at place.now) (Valued (type_view operand.now)))
        (tree_view expr.now))
        (types_in (tree_view expr.now))) }
{
    let heading = relation_heading(operand)?;
    check(expr, &place.inside(heading)?, seen)
}

/// The types of expressions, in the order written.
#[cycle(check)]
fn check_all(
    exprs: &[Expr],
    place: &Place<'_, '_, '_>,
    seen: &mut Mentions,
) -> Result<Vec<Ty>, Fault>
    ensures types { Answers (λ ts. map type_view ts.items) result
        (types_of (scope_at place.now) (trees_view exprs.now)) }
    ensures names { OnOk result (names_view seen.new ≡ with_names (names_view seen.old)
        (relvars_in_all (scope_at place.now) (trees_view exprs.now))
        (types_in_all (trees_view exprs.now))) }
{
    let mut causes = Gathering::new();
    let mut types = Vec::with_capacity(place.allocator(), exprs.len())?;
    for expr in exprs {
        causes.collect(&mut types, check(expr, place, seen))?;
    }
    causes.finish(types)
}

/// The types of a relation's elements; where all are alike, of the first alone.
#[cycle(check)]
fn check_elements(
    elements: &[Expr],
    place: &Place<'_, '_, '_>,
    seen: &mut Mentions,
) -> Result<Vec<Ty>, Fault>
    ensures { (few : Trees) × AreEnough (trees_view elements.now) few
        × Answers (λ ts. map type_view ts.items) result (types_of (scope_at place.now) few)
        × OnOk result (names_view seen.new ≡ with_names (names_view seen.old)
        (relvars_in_all (scope_at place.now) few) (types_in_all few)) }
{
    check_all(but_for_alike(elements), place, seen)
}

/// The name with the type of its expression.
#[cycle(check)]
fn check_part(
    part: &NamedExpr,
    place: &Place<'_, '_, '_>,
    seen: &mut Mentions,
) -> Result<(Name, Ty), Fault>
    ensures part { Answers pair_view result (part_found (scope_at place.now) part.now) }
    ensures names { OnOk result (names_view seen.new ≡ with_names (names_view seen.old)
        (relvars_in (scope_at place.now) (tree_view part.now.value))
        (types_in (tree_view part.now.value))) }
{
    let ty = check(&part.value, place, seen)?;
    let name = part.name.try_clone()?;
    Ok((name, ty))
}

/// Names with the types of their expressions.
#[cycle(check)]
fn check_named(
    parts: &[NamedExpr],
    place: &Place<'_, '_, '_>,
    seen: &mut Mentions,
) -> Result<Vec<(Name, Ty)>, Fault>
    ensures types { Answers (λ ts. pairs_view ts.items) result
        (named_types (scope_at place.now) (named_view parts.now)) }
    ensures names { OnOk result (names_view seen.new ≡ with_names (names_view seen.old)
        (relvars_in_named (scope_at place.now) (named_view parts.now))
        (types_in_named (named_view parts.now))) }
{
    let mut causes = Gathering::new();
    let mut attributes = Vec::with_capacity(place.allocator(), parts.len())?;
    for part in parts {
        causes.collect(&mut attributes, check_part(part, place, seen))?;
    }
    causes.finish(attributes)
}

/// Names with the types of expressions that are applied to each tuple of an operand.
#[cycle(check)]
fn check_named_inside(
    parts: &[NamedExpr],
    operand: &Ty,
    place: &Place<'_, '_, '_>,
    seen: &mut Mentions,
) -> Result<Vec<(Name, Ty)>, Fault>
    ensures types { Answers (λ ts. pairs_view ts.items) result
        (over_relation (type_view operand.now)
        (λ h. named_types (entered_with h (scope_at place.now)) (named_view parts.now))) }
    ensures names { OnOk result (names_view seen.new ≡ with_names (names_view seen.old)
        (relvars_in_named (in_tuples (scope_at place.now) (Valued (type_view operand.now)))
        (named_view parts.now))
        (types_in_named (named_view parts.now))) }
{
    let heading = relation_heading(operand)?;
    check_named(parts, &place.inside(heading)?, seen)
}

/// Whether one of the headings has an attribute of the name.
fn is_bound(name: &Name, bounds: &[Heading]) -> bool
    ensures { result ≡ is_bound name.now bounds.now }
{
    bounds.iter().any(|bound| bound.get(name).is_some())
}

/// The heading of the one attribute that an item of WITH is, behind the items before it. It is
/// refused where one of them has its name.
#[cycle(check)]
fn check_binding(
    item: &NamedExpr,
    bounds: &[Heading],
    place: &Place<'_, '_, '_>,
    seen: &mut Mentions,
) -> Result<Heading, Fault>
    ensures heading { Answers (λ h. h) result
        (bound_found bounds.now (scope_at place.now) item.now) }
    ensures names { OnOk result (names_view seen.new ≡ with_names (names_view seen.old)
        (relvars_in (within_all bounds.now (scope_at place.now)) (tree_view item.now.value))
        (types_in (tree_view item.now.value))) }
{
    let (name, ty) = check_part(item, &place.inside_all(bounds)?, seen)?;
    ask(!is_bound(&name, bounds), Cause::Heading)?;
    Ok(Heading::empty(place.allocator()).add(name, ty)?)
}

/// The headings of one attribute that WITH's items are, each checked behind those before it.
#[cycle(check)]
fn check_bounds(
    items: &[NamedExpr],
    place: &Place<'_, '_, '_>,
    seen: &mut Mentions,
) -> Result<Vec<Heading>, Fault>
    ensures bounds { Answers (λ b. b.items) result
        (bounds_found [] (scope_at place.now) items.now) }
    ensures names { OnOk result (names_view seen.new ≡ with_names (names_view seen.old)
        (relvars_where_bound (scope_at place.now) (named_view items.now) (λ _. []))
        (types_in_named (named_view items.now))) }
{
    let mut bounds = Vec::with_capacity(place.allocator(), items.len())?;
    for item in items {
        let bound = check_binding(item, &bounds, place, seen)?;
        bounds.push(bound)?;
    }
    Ok(bounds)
}

/// An item of SUMMARIZE with the type of its expression.
#[cycle(check)]
fn check_item(
    item: &Summary,
    place: &Place<'_, '_, '_>,
    seen: &mut Mentions,
) -> Result<(Name, Item), Fault>
    ensures item { Answers named_item_view result
        (item_found (scope_at place.now) item.now) }
    ensures names { OnOk result (names_view seen.new ≡ with_names (names_view seen.old)
        (relvars_in_items (scope_at place.now) (summaries_view (item.now ∷ [])))
        (types_in_items (summaries_view (item.now ∷ [])))) }
{
    match item {
        Summary::Count(name) => Ok((name.try_clone()?, Item::Count)),
        Summary::Of(op, value, name) => {
            let ty = check(value, place, seen)?;
            Ok((name.try_clone()?, Item::Of(*op, ty)))
        }
    }
}

/// What SUMMARIZE adds, with the types of the expressions.
#[cycle(check)]
fn check_items(
    items: &[Summary],
    place: &Place<'_, '_, '_>,
    seen: &mut Mentions,
) -> Result<Vec<(Name, Item)>, Fault>
    ensures types { Answers (λ ts. items_view ts.items) result
        (items_of (scope_at place.now) (summaries_view items.now)) }
    ensures names { OnOk result (names_view seen.new ≡ with_names (names_view seen.old)
        (relvars_in_items (scope_at place.now) (summaries_view items.now))
        (types_in_items (summaries_view items.now))) }
{
    let mut causes = Gathering::new();
    let mut added = Vec::with_capacity(place.allocator(), items.len())?;
    for item in items {
        causes.collect(&mut added, check_item(item, place, seen))?;
    }
    causes.finish(added)
}

/// An operand with what SUMMARIZE adds to it. Of an operand that is no relation the items are not
/// looked at.
#[cycle(check)]
fn check_items_inside(
    items: &[Summary],
    operand: Result<Ty, Fault>,
    place: &Place<'_, '_, '_>,
    seen: &mut Mentions,
) -> Result<(Ty, Vec<(Name, Item)>), Fault>
    ensures added { (o : Outcome Type') → Answers type_view operand o
        → Answers added_view result (with_value o (λ s. with_items s
        (λ h. items_of (entered_with h (scope_at place.now)) (summaries_view items.now)))) }
    ensures operand { IfOk result (λ a. operand ≡ Ok a.0) }
    ensures names { IfOk result (λ a. IsTrue (is_some (added_view a))
        → names_view seen.new ≡ with_names (names_view seen.old)
        (relvars_in_items (in_tuples (scope_at place.now) (Valued (type_view a.0)))
        (summaries_view items.now))
        (types_in_items (summaries_view items.now))) }
{
    let operand = operand?;
    let items = match &operand {
        Ty::Rel(heading) => check_items(items, &place.inside(heading)?, seen)?,
        _ => Vec::new(place.allocator()),
    };
    Ok((operand, items))
}

/// The type of an expression where it stands.
pub(crate) fn check_at(expr: &Expr, place: &Place<'_, '_, '_>) -> Result<Ty, Fault>
    ensures { Answers type_view result (type_of (scope_at place.now) (tree_view expr.now)) }
{
    check(expr, place, &mut Mentions::new(place.allocator()))
}

/// Names with the types of their expressions where these stand.
pub(crate) fn check_named_at(
    parts: &[NamedExpr],
    place: &Place<'_, '_, '_>,
) -> Result<Vec<(Name, Ty)>, Fault>
    ensures { Answers (λ ts. pairs_view ts.items) result
        (named_types (scope_at place.now) (named_view parts.now)) }
{
    check_named(parts, place, &mut Mentions::new(place.allocator()))
}

/// The type of the expression. It is refused by the least of the causes of its parts, as far as
/// they are looked at, and where these have types by its own rule.
pub fn check_expr(scope: &Scope<'_>, expr: &Expr) -> Result<Ty, Fault>
    ensures answer { Answers type_view result (type_of scope.now (tree_view expr.now)) }
    ensures is_type { IfOk result (λ ty. IsType (type_view ty)) }
{
    let ty = check_at(expr, &Place::outside(scope))?;
    ty.reveal();
    Ok(ty)
}

/// The types of expressions with their names, in the order written: refused by the least of the
/// causes of them all.
pub fn check_parts(scope: &Scope<'_>, parts: &[NamedExpr]) -> Result<Vec<(Name, Ty)>, Fault>
    ensures { Answers (λ ts. pairs_view ts.items) result
        (named_types scope.now (named_view parts.now)) }
{
    check_named_at(parts, &Place::outside(scope))
}

/// The names that the expression mentions, in the order in which they stand there: refused as
/// `check_expr` refuses.
pub(crate) fn names_seen(scope: &Scope<'_>, expr: &Expr) -> Result<Mentions, Fault>
    ensures { Answers names_view result (with_value (type_of scope.now (tree_view expr.now))
        (λ t. Valued (relvars_in scope.now (tree_view expr.now), types_in (tree_view expr.now)))) }
{
    let mut seen = Mentions::new(scope.allocator());
    check(expr, &Place::outside(scope), &mut seen)?;
    Ok(seen)
}
