//! Plans as a person reads them.
use crate::plan::Plan;
use crate::plan::step::{Dyadic, Monadic, Origin, Selector, Step};
use std::alloc::{AllocError, Global};
use td_group::aggregates::Agg;
use td_tree::expression::{Attributes, Postfix};
use td_tree::name::Name;
use td_tree::operator::{Comparison, Operator, Prefix};
use td_types::text::put_comma;
use td_types::ty::Ty;

/// The plan as a tree of lines: what stands under a step is indented by two blanks. What is
/// evaluated once, until a tuple that it names is another one, stands under `ONCE`.
pub fn explain(alloc: Global, plan: &Plan) -> Result<String, AllocError> {
    let mut outline = Outline {
        alloc,
        text: String::new(alloc),
    };
    outline.step(0, &plan.step)?;
    outline.text.push_str("\n")?;
    Ok(outline.text)
}

// ---- what stands in a line

/// Puts a word and the items, with a comma between two items.
fn put_items<T, F>(out: &mut String, word: &str, items: &[T], put: F) -> Result<(), AllocError>
where
    F: Fn(&mut String, &T) -> Result<(), AllocError>,
    requires { F.IsAlwaysCallable put }
{
    out.push_str(word)?;
    for (place, item) in items.iter().enumerate() {
        put_comma(out, place > 0)?;
        put(out, item)?;
    }
    Ok(())
}

/// Puts a word and the names.
fn put_names(out: &mut String, word: &str, names: &[Name]) -> Result<(), AllocError> {
    put_items(out, word, names, |out, name| out.push_str(name.as_str()))
}

/// Puts a word and the names of new attributes.
fn put_columns(out: &mut String, word: &str, columns: &[(Name, Ty)]) -> Result<(), AllocError> {
    put_items(
        out,
        word,
        columns,
        |out, column| out.push_str(column.0.as_str()),
    )
}

/// Puts a word and the attributes as they are listed.
fn put_attributes(out: &mut String, word: &str, attributes: &Attributes) -> Result<(), AllocError> {
    out.push_str(word)?;
    match attributes {
        Attributes::Only(names) => put_names(out, "", names),
        Attributes::AllBut(names) => put_names(out, "ALL BUT ", names),
    }
}

/// Puts an operator that stands behind its operand.
fn put_postfix(out: &mut String, op: &Postfix) -> Result<(), AllocError> {
    match op {
        Postfix::Project(attributes) => put_attributes(out, "PROJECTION ", attributes),
        Postfix::Rename(_, renamings) => put_items(out, "RENAME ", renamings, |out, renaming| {
            write!(
                out,
                "{} AS {}",
                renaming.old.as_str(),
                renaming.new.as_str()
            )
        }),
        Postfix::Group(_, attributes, name) => {
            put_attributes(out, "GROUP ", attributes)?;
            write!(out, " AS {}", name.as_str())
        }
        Postfix::Ungroup(name) => write!(out, "UNGROUP {}", name.as_str()),
        Postfix::Wrap(_, attributes, name) => {
            put_attributes(out, "WRAP ", attributes)?;
            write!(out, " AS {}", name.as_str())
        }
        Postfix::Unwrap(name) => write!(out, "UNWRAP {}", name.as_str()),
    }
}

/// Puts what a step does with what stands under it.
fn put_step(alloc: Global, out: &mut String, step: &Step) -> Result<(), AllocError> {
    match step {
        Step::Constant(value) => out.push_str(value.literal(alloc)?.as_str()),
        Step::Refused(cause) => write!(out, "REFUSED {}", cause.name()),
        Step::Attribute { slot, place } => write!(out, "ATTRIBUTE {slot} {place}"),
        Step::Relvar(name) => write!(out, "RELVAR {}", name.as_str()),
        Step::LookUp(name, ..) => write!(out, "LOOKUP {}", name.as_str()),
        Step::Monadic(Monadic::Prefix(Prefix::Not), _) => out.push_str("NOT"),
        Step::Monadic(Monadic::Prefix(Prefix::Negate), _) => out.push_str("NEGATION"),
        Step::Monadic(Monadic::Prefix(Prefix::TransitiveClosure), _) => out.push_str("TCLOSE"),
        Step::Monadic(Monadic::Prefix(Prefix::TupleFrom), _) => out.push_str("TUPLE FROM"),
        Step::Monadic(Monadic::Extract(name), _) => write!(out, "FROM {}", name.as_str()),
        Step::Monadic(Monadic::Postfix(op), _) => put_postfix(out, op),
        Step::Monadic(Monadic::Component(rest), _) => write!(out, "COMPONENT {}", rest.as_str()),
        Step::Monadic(Monadic::Measure(op), _) => out.push_str(op.keyword().word()),
        Step::Dyadic(_, op, _) => out.push_str(dyadic_word(*op)),
        Step::Select(Selector::User(name), _) => out.push_str(name.as_str()),
        Step::Select(Selector::Relation, _) => out.push_str("RELATION"),
        Step::Select(Selector::HeadedRelation(_), _) => out.push_str("RELATION OF HEADING"),
        Step::Select(Selector::Tuple(names), _) => put_names(out, "TUPLE ", names),
        Step::Restriction(_, _, _, Origin::Written) => out.push_str("RESTRICTION"),
        Step::Restriction(_, _, _, Origin::Pushed) => out.push_str("RESTRICTION BY PUSH"),
        Step::Extend(_, columns, ..) => put_columns(out, "EXTEND ", columns),
        Step::Aggregate(op, ..) => out.push_str(op.keyword().word()),
        Step::SummarizePer(_, _, columns, ..) => put_columns(out, "SUMMARIZE ", columns),
        Step::SummarizeBy(_, _, columns, ..) => put_columns(out, "SUMMARIZE ", columns),
        Step::If(..) => out.push_str("IF"),
        Step::Bound { .. } => out.push_str("WITH"),
        Step::Once { .. } => out.push_str("ONCE"),
    }
}

/// Lines, one below the other.
#[derive(Drop)]
struct Outline {
    alloc: Global,
    text: String,
}

impl Outline {
    /// Begins a line with its blanks.
    fn begin(&mut self, indent: usize) -> Result<(), AllocError> {
        if !self.text.is_empty() {
            self.text.push_str("\n")?;
        }
        for _ in 0..indent {
            self.text.push_str("  ")?;
        }
        Ok(())
    }

    /// A step, and below it what it is made of.
    #[cycle(explain)]
    fn step(&mut self, indent: usize, step: &Step) -> Result<(), AllocError> {
        self.begin(indent)?;
        put_step(self.alloc, &mut self.text, step)?;
        self.parts(indent.saturating_add(1), step)
    }

    /// What a step is made of.
    #[cycle(explain)]
    fn parts(&mut self, indent: usize, step: &Step) -> Result<(), AllocError> {
        match step {
            Step::Constant(_) | Step::Refused(_) | Step::Attribute { .. } | Step::Relvar(_) => {
                Ok(())
            }
            Step::LookUp(_, _, part) | Step::Monadic(_, part) | Step::Once { part, .. } => {
                self.step(indent, part)
            }
            Step::Dyadic(left, _, right) => {
                self.step(indent, left)?;
                self.step(indent, right)
            }
            Step::Select(_, parts) => self.steps(indent, parts),
            Step::Restriction(operand, _, condition, _) => {
                self.step(indent, operand)?;
                self.one(indent, "CONDITION", condition)
            }
            Step::Extend(operand, _, _, values) => {
                self.step(indent, operand)?;
                self.values(indent, values)
            }
            Step::Aggregate(_, operand, _, value) => {
                self.step(indent, operand)?;
                self.one(indent, "VALUE", value)
            }
            Step::SummarizePer(operand, per, _, aggregates, _, values) => {
                self.step(indent, operand)?;
                self.one(indent, "PER", per)?;
                self.aggregates(indent, aggregates, values)
            }
            Step::SummarizeBy(operand, by, _, aggregates, _, values) => {
                self.step(indent, operand)?;
                self.begin(indent)?;
                put_attributes(&mut self.text, "BY ", by)?;
                self.aggregates(indent, aggregates, values)
            }
            Step::If(condition, consequent, alternative) => {
                self.step(indent, condition)?;
                self.one(indent, "THEN", consequent)?;
                self.one(indent, "ELSE", alternative)
            }
            Step::Bound { items, value, .. } => {
                self.steps(indent, items)?;
                self.one(indent, "VALUE", value)
            }
        }
    }

    /// A word, and a step below it.
    #[cycle(explain)]
    fn one(&mut self, indent: usize, word: &str, step: &Step) -> Result<(), AllocError> {
        self.begin(indent)?;
        self.text.push_str(word)?;
        self.step(indent.saturating_add(1), step)
    }

    /// Steps, one below the other.
    #[cycle(explain)]
    fn steps(&mut self, indent: usize, steps: &[Step]) -> Result<(), AllocError> {
        for step in steps {
            self.step(indent, step)?;
        }
        Ok(())
    }

    /// The steps of the values of attributes.
    #[cycle(explain)]
    fn values(&mut self, indent: usize, values: &[Step]) -> Result<(), AllocError> {
        self.begin(indent)?;
        self.text.push_str("VALUES")?;
        self.steps(indent.saturating_add(1), values)
    }

    /// The aggregates of a summary, and the steps of what they are of.
    #[cycle(explain)]
    fn aggregates(
        &mut self,
        indent: usize,
        aggregates: &[Agg],
        values: &[Step],
    ) -> Result<(), AllocError> {
        self.begin(indent)?;
        put_items(
            &mut self.text,
            "AGGREGATES ",
            aggregates,
            |out, aggregate| { out.push_str(aggregate_word(*aggregate)) },
        )?;
        self.values(indent, values)
    }
}

/// What a step between operands does. Partners in a join are found by a hash of the common
/// attributes.
fn dyadic_word(op: Dyadic) -> &'static str {
    match op {
        Dyadic::Operator(Operator::Or) => "OR",
        Dyadic::Operator(Operator::And) => "AND",
        Dyadic::Operator(Operator::Union) => "UNION",
        Dyadic::Operator(Operator::Intersect) => "INTERSECT",
        Dyadic::Operator(Operator::Minus) => "MINUS",
        Dyadic::Operator(Operator::Join) => "HASHJOIN",
        Dyadic::Operator(Operator::Times) => "TIMES",
        Dyadic::Operator(Operator::Compose) => "COMPOSE BY HASHJOIN",
        Dyadic::Operator(Operator::Matching) => "MATCHING BY HASHJOIN",
        Dyadic::Operator(Operator::NotMatching) => "NOT MATCHING BY HASHJOIN",
        Dyadic::Operator(Operator::DisjointUnion) => "D_UNION",
        Dyadic::Operator(Operator::IncludedMinus) => "I_MINUS",
        Dyadic::Operator(Operator::Add) => "+",
        Dyadic::Operator(Operator::Subtract) => "-",
        Dyadic::Operator(Operator::Concatenate) => "||",
        Dyadic::Operator(Operator::Multiply) => "*",
        Dyadic::Operator(Operator::Divide) => "/",
        Dyadic::Comparison(Comparison::Equal) => "=",
        Dyadic::Comparison(Comparison::NotEqual) => "<>",
        Dyadic::Comparison(Comparison::Less) => "<",
        Dyadic::Comparison(Comparison::LessOrEqual) => "<=",
        Dyadic::Comparison(Comparison::Greater) => ">",
        Dyadic::Comparison(Comparison::GreaterOrEqual) => ">=",
        Dyadic::Comparison(Comparison::In) => "IN",
    }
}

/// What an aggregate of a summary is called.
fn aggregate_word(aggregate: Agg) -> &'static str {
    match aggregate {
        Agg::Count => "COUNT",
        Agg::Sum => "SUM",
        Agg::Max => "MAX",
        Agg::Min => "MIN",
    }
}
