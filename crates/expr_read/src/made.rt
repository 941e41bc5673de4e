//! Expressions made of parts that were read, or the first reason why a part was not.

ghost use Rattle.std.specs.Prelude.{◌≡◌, List, ℕ, Option, Some};
ghost use Rattle.std.specs.Option.{option_map, option_and_then};
ghost use Rattle.bson_value.specs.View.{tree_of};
ghost use Rattle.expr_tree.specs.Node.{Node, choose, each, filter, reduce, date_part, date_add, date_diff, date_trunc, node, nodes_of};
ghost use Rattle.expr_tree.specs.View.{node_of};
ghost use Rattle.expr_read.specs.Reading.{literal_of, one_part, two_parts, three_parts, bare, is_few, branch_parts, with_operands, with_bindings, with_branches, with_fields, with_items};
ghost use Rattle.expr_read.specs.Reads.{Reads};
ghost use Rattle.expr_read.specs.Rows.{head_of};

use crate::errors::FormError;
use crate::row::Kind;
use crate::texts::name_text;
use bson_value::{Part, Unit, Value};
use expr_tree::{Bindings, Branches, Expr, Exprs, NamedExprs, Operand};
use std::alloc::Global;

/// An expression, or why there is none.
pub type Read = Result<Expr, FormError>;

/// The value itself.
pub fn literal(alloc: Global, value: &Value) -> Read
    ensures { Reads node_of result (Some (literal_of (tree_of value.now))) }
{
    Ok(Expr::Literal(value.copy(alloc)?))
}

fn operand(alloc: Global, expr: Read) -> Result<Operand, FormError>
    ensures { (a : Option Node) → Reads node_of expr a → Reads (λ o. o) result a }
{
    match expr {
        Ok(expr) => Ok(Operand::new(alloc, expr)?),
        Err(e) => Err(e),
    }
}

/// A made document.
pub fn document_of(fields: Result<NamedExprs, FormError>) -> Read
    ensures { (fs : Option (List (List ℕ) × List Node)) → Reads (λ f. f) fields fs → Reads node_of result (with_fields fs) }
{
    Ok(Expr::Make(fields?))
}

/// A made array.
pub fn array_of(items: Result<Exprs, FormError>) -> Read
    ensures { (es : Option (List Node)) → Reads (λ e. e) items es → Reads node_of result (with_items es) }
{
    Ok(Expr::MakeList(items?))
}

/// One bare operand.
pub fn bare(alloc: Global, expr: Read) -> Result<Exprs, FormError>
    ensures { (a : Option Node) → Reads node_of expr a → Reads (λ es. es) result (bare a) }
{
    let mut exprs = Exprs::new(alloc);
    exprs.add(expr?)?;
    Ok(exprs)
}

fn of_kind(kind: Kind, operands: Exprs) -> Expr
    ensures { node_of result ≡ node (head_of kind) (nodes_of operands) }
{
    match kind {
        Kind::Apply(op) => Expr::Apply(op, operands),
        Kind::And => Expr::And(operands),
        Kind::Or => Expr::Or(operands),
        Kind::IfNull => Expr::IfNull(operands),
    }
}

fn is_few(most: Option<usize>, count: usize) -> bool
    ensures { result ≡ is_few most count }
{
    match most {
        Some(most) => count <= most,
        None => true,
    }
}

fn counted(kind: Kind, least: usize, most: Option<usize>, operands: Exprs) -> Read
    ensures { Reads node_of result (with_operands (head_of kind) least most operands) }
{
    let count = operands.len();
    if least <= count && is_few(most, count) {
        Ok(of_kind(kind, operands))
    } else {
        Err(FormError::Form)
    }
}

/// An operator with its operands, where these are so many.
pub fn operator_of(
    kind: Kind,
    least: usize,
    most: Option<usize>,
    operands: Result<Exprs, FormError>,
) -> Read
    ensures { (es : Option (List Node)) → Reads (λ e. e) operands es → Reads node_of result (option_and_then (with_operands (head_of kind) least most) es) }
{
    match operands {
        Ok(operands) => counted(kind, least, most, operands),
        Err(e) => Err(e),
    }
}

/// `$cond`
pub fn condition_of(alloc: Global, cond: Read, yes: Read, no: Read) -> Read
    ensures { (a b c : Option Node) → Reads node_of cond a → Reads node_of yes b → Reads node_of no c → Reads node_of result (three_parts choose a b c) }
{
    let cond = operand(alloc, cond)?;
    let yes = operand(alloc, yes)?;
    let no = operand(alloc, no)?;
    Ok(Expr::Cond(cond, yes, no))
}

/// A branch of a `$switch`.
pub fn branch_of(case: Read, value: Read) -> Result<(Expr, Expr), FormError>
    ensures { (a b : Option Node) → Reads node_of case a → Reads node_of value b → Reads (λ p. (node_of p.0, node_of p.1)) result (branch_parts a b) }
{
    Ok((case?, value?))
}

/// `$switch`
pub fn switch_of(
    alloc: Global,
    branches: Result<Branches, FormError>,
    default: Result<Option<Expr>, FormError>,
) -> Read
    ensures { (bs : Option (List (Node × Node))) (d : Option (Option Node)) → Reads (λ b. b) branches bs → Reads (option_map node_of) default d → Reads node_of result (with_branches bs d) }
{
    let branches = branches?;
    match default? {
        Some(expr) => Ok(Expr::Switch(branches, Some(Operand::new(alloc, expr)?))),
        None => Ok(Expr::Switch(branches, None)),
    }
}

/// The expression, which is there.
pub fn given(expr: Read) -> Result<Option<Expr>, FormError>
    ensures { (a : Option Node) → Reads node_of expr a → Reads (option_map node_of) result (option_map (λ n. Some n) a) }
{
    Ok(Some(expr?))
}

/// `$let`
pub fn let_of(alloc: Global, bindings: Result<Bindings, FormError>, body: Read) -> Read
    ensures { (bs : Option (List (List ℕ) × List Node)) (a : Option Node) → Reads (λ b. b) bindings bs → Reads node_of body a → Reads node_of result (with_bindings bs a) }
{
    let bindings = bindings?;
    let body = operand(alloc, body)?;
    Ok(Expr::Let(bindings, body))
}

/// `$map`
pub fn map_of(alloc: Global, name: &[u8], input: Read, body: Read) -> Read
    ensures { (a b : Option Node) → Reads node_of input a → Reads node_of body b → Reads node_of result (two_parts (each name.now) a b) }
{
    let input = operand(alloc, input)?;
    let body = operand(alloc, body)?;
    Ok(Expr::Map(input, name_text(alloc, name)?, body))
}

/// `$filter`
pub fn filter_of(alloc: Global, name: &[u8], input: Read, body: Read) -> Read
    ensures { (a b : Option Node) → Reads node_of input a → Reads node_of body b → Reads node_of result (two_parts (filter name.now) a b) }
{
    let input = operand(alloc, input)?;
    let body = operand(alloc, body)?;
    Ok(Expr::Filter(input, name_text(alloc, name)?, body))
}

/// `$reduce`
pub fn reduce_of(alloc: Global, input: Read, first: Read, body: Read) -> Read
    ensures { (a b c : Option Node) → Reads node_of input a → Reads node_of first b → Reads node_of body c → Reads node_of result (three_parts reduce a b c) }
{
    let input = operand(alloc, input)?;
    let first = operand(alloc, first)?;
    let body = operand(alloc, body)?;
    Ok(Expr::Reduce(input, first, body))
}

/// A part of a date.
pub fn part_of(alloc: Global, part: Part, date: Read) -> Read
    ensures { (a : Option Node) → Reads node_of date a → Reads node_of result (one_part (date_part part) a) }
{
    Ok(Expr::DatePart(part, operand(alloc, date)?))
}

/// `$dateAdd`, or `$dateSubtract` where the flag is true.
pub fn moved_of(alloc: Global, unit: Unit, back: bool, start: Read, amount: Read) -> Read
    ensures { (a b : Option Node) → Reads node_of start a → Reads node_of amount b → Reads node_of result (two_parts (date_add unit back) a b) }
{
    let start = operand(alloc, start)?;
    let amount = operand(alloc, amount)?;
    Ok(Expr::DateAdd(start, unit, amount, back))
}

/// `$dateDiff`
pub fn between_of(alloc: Global, unit: Unit, start: Read, end: Read) -> Read
    ensures { (a b : Option Node) → Reads node_of start a → Reads node_of end b → Reads node_of result (two_parts (date_diff unit) a b) }
{
    let start = operand(alloc, start)?;
    let end = operand(alloc, end)?;
    Ok(Expr::DateDiff(start, end, unit))
}

/// `$dateTrunc`
pub fn cut_of(alloc: Global, unit: Unit, date: Read) -> Read
    ensures { (a : Option Node) → Reads node_of date a → Reads node_of result (one_part (date_trunc unit) a) }
{
    Ok(Expr::DateTrunc(operand(alloc, date)?, unit))
}
