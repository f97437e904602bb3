//! The types of nodes, by those of their parts.
ghost use Rattle.std.specs.Prelude.{List, Option};
ghost use Rattle.td_check.specs.code.CheckViews.{Added, added_view, choice_of, headed_view};
ghost use Rattle.td_check.specs.code.CheckViews.{per_view, by_summary};
ghost use Rattle.td_check.specs.code.CheckViews.{per_summary, three_types_view, types_view};
ghost use Rattle.td_check.specs.model.OperatorTypes.{comparison_type, extension_type, headed_type};
ghost use Rattle.td_check.specs.model.OperatorTypes.{operator_type, over_relation};
ghost use Rattle.td_check.specs.model.OperatorTypes.{restriction_type, setting_type};
ghost use Rattle.td_tree.specs.model.Outcomes.{Answers, Outcome, with_value};
ghost use Rattle.td_tree.specs.code.TreeViews.{attributes_view};
ghost use Rattle.td_types.specs.model.Types.{Attribute, Heading, Type'};
ghost use Rattle.td_types.specs.code.Views.{pairs_view, type_view};

use crate::rules::headings::named_part;
use crate::rules::lists::{
    Item, extension_type, headed_type, per_heading, setting_type, summary_type,
};
use crate::rules::operator::{choice_type, comparison_type, operator_type, restriction_type};
use crate::rules::requirements::relation_heading;
use td_tree::cause::Cause;
use td_tree::expression::Attributes;
use td_tree::fault::Fault;
use td_tree::name::Name;
use td_tree::operator::{Comparison, Operator};
use td_types::heading::Heading;
use td_types::ty::Ty;

/// The type of an operator between operands of these types.
pub(crate) fn type_of_operator(op: Operator, operands: Result<(Ty, Ty), Fault>) -> Result<Ty, Fault>
    ensures { (o : Outcome (Type' × Type')) → Answers types_view operands o
        → Answers type_view result (with_value o (λ both. operator_type op both.0 both.1)) }
{
    let (first, second) = operands?;
    operator_type(op, first, second)
}

/// The type of a comparison of operands of these types.
pub(crate) fn type_of_comparison(
    op: Comparison,
    operands: Result<(Ty, Ty), Fault>,
) -> Result<Ty, Fault>
    ensures { (o : Outcome (Type' × Type')) → Answers types_view operands o
        → Answers type_view result (with_value o (λ both. comparison_type op both.0 both.1)) }
{
    let (first, second) = operands?;
    comparison_type(op, &first, &second)
}

/// The type of an operand restricted by a condition of this type.
pub(crate) fn type_of_restriction(operand: Ty, condition: Result<Ty, Fault>) -> Result<Ty, Fault>
    ensures { (o : Outcome Type') → Answers type_view condition o
        → Answers type_view result
        (with_value o (restriction_type (type_view operand))) }
{
    restriction_type(operand, &condition?)
}

/// The type of an operand extended by attributes.
pub(crate) fn type_of_extension(
    operand: Ty,
    attributes: Result<Vec<(Name, Ty)>, Fault>,
) -> Result<Ty, Fault>
    ensures { (o : Outcome (List Attribute)) → Answers (λ ts. pairs_view ts.items) attributes o
        → Answers type_view result (with_value o (λ attributes.
        over_relation (type_view operand) (λ h. extension_type h attributes))) }
{
    let attributes = attributes?;
    match operand {
        Ty::Rel(heading) => extension_type(heading, attributes),
        _ => Err(Fault::Refused(Cause::TypeMismatch)),
    }
}

/// The type of an operand with attributes set.
pub(crate) fn type_of_setting(
    operand: Ty,
    attributes: Result<Vec<(Name, Ty)>, Fault>,
) -> Result<Ty, Fault>
    ensures { (o : Outcome (List Attribute)) → Answers (λ ts. pairs_view ts.items) attributes o
        → Answers type_view result (with_value o (λ attributes.
        over_relation (type_view operand) (λ h. setting_type h attributes))) }
{
    let attributes = attributes?;
    match operand {
        Ty::Rel(heading) => setting_type(&heading, attributes),
        _ => Err(Fault::Refused(Cause::TypeMismatch)),
    }
}

/// The type of a relation of this heading with elements of these types.
pub(crate) fn type_of_headed(parts: Result<(Heading, Vec<Ty>), Fault>) -> Result<Ty, Fault>
    ensures { (o : Outcome (Heading × List Type')) → Answers headed_view parts o
        → Answers type_view result (with_value o (λ parts. headed_type parts.0 parts.1)) }
{
    let (heading, elements) = parts?;
    headed_type(heading, &elements)
}

/// The type of what is chosen by a condition of two.
pub(crate) fn type_of_choice(parts: Result<(Ty, (Ty, Ty)), Fault>) -> Result<Ty, Fault>
    ensures { (o : Outcome (Type' × (Type' × Type'))) → Answers three_types_view parts o
        → Answers type_view result (with_value o choice_of) }
{
    let (condition, (first, second)) = parts?;
    choice_type(&condition, first, &second)
}

/// The type of SUMMARIZE with PER: an operand with what is added, and PER's type.
pub(crate) fn per_relation(parts: Result<((Ty, Vec<(Name, Item)>), Ty), Fault>) -> Result<Ty, Fault>
    ensures { (o : Outcome (Option Added × Type')) → Answers per_view parts o
        → Answers type_view result (with_value o per_summary) }
{
    let ((operand, items), per) = parts?;
    let heading = relation_heading(&operand)?;
    summary_type(per_heading(heading, &per), items)
}

/// The type of SUMMARIZE with BY: an operand with what is added.
pub(crate) fn by_attributes(
    by: &Attributes,
    added: Result<(Ty, Vec<(Name, Item)>), Fault>,
) -> Result<Ty, Fault>
    ensures { (o : Outcome (Option Added)) → Answers added_view added o
        → Answers type_view result (with_value o (by_summary (attributes_view by.now))) }
{
    let (operand, items) = added?;
    let heading = relation_heading(&operand)?;
    summary_type(named_part(heading, by), items)
}
