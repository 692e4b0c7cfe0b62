//! The tree of an expression with its names found, its numbers read and its operands sized.

ghost use Rattle.std.specs.Prelude.{◌≡◌, ◌∷◌, map, IfOk, option_map};
ghost use Rattle.vlog_const.specs.Literals as literals;
ghost use Rattle.vlog_const.specs.Names.{found};
ghost use Rattle.vlog_const.specs.Sized as spec;

use crate::literal::literal_of;
use crate::names::{Named, Scope};
use crate::operators::{function_named, infix_of, prefix_of};
use crate::size::{
    bit_node, call_node, choice_node, group_node, infix_node, join_node, missing_node, name_node,
    number_node, prefix_node, range_node, repeat_node, upward_node,
};
use bit_base::place::Place;
use sqlite_items::Items;
use std::alloc::{AllocError, Global};
use vlog_tree::token::VToken;
use vlog_tree::tree_expressions::{VExpr, VNextExpr, VPrim, VSelect};
use vlog_values::sized::{Signal, SizedExpr};

/// The expression with its names found in the scope, its numbers read and its operands sized.
#[cycle(read)]
pub fn sized_of(alloc: Global, expr: &VExpr, scope: &Scope) -> Result<SizedExpr, AllocError>
    ensures { IfOk result (λ e. e ≡ spec.sized_of scope.now expr.now) }
{
    match expr {
        VExpr::Prim(prim) => sized_prim(alloc, prim.get(), scope),
        VExpr::Unary(operator, operand) => {
            let operand = sized_of(alloc, operand.get(), scope)?;
            let op = prefix_of(operator.text.as_bytes());
            prefix_node(alloc, op, operator.place, operand)
        }
        VExpr::Binary(left, operator, right) => {
            let left = sized_of(alloc, left.get(), scope)?;
            let right = sized_of(alloc, right.get(), scope)?;
            infix_node(alloc, infix_of(operator), left, right)
        }
        VExpr::Choice(test, _, yes_value, _, no_value) => {
            let test = sized_of(alloc, test.get(), scope)?;
            let yes_value = sized_of(alloc, yes_value.get(), scope)?;
            let no_value = sized_of(alloc, no_value.get(), scope)?;
            choice_node(alloc, test, yes_value, no_value)
        }
    }
}

fn number(alloc: Global, token: &VToken) -> Result<SizedExpr, AllocError>
    ensures { IfOk result (λ e. e ≡ spec.number_node token.now.place (literals.literal_of token.now.text)) }
{
    let literal = literal_of(alloc, token.text.as_bytes())?;
    Ok(number_node(token.place, literal))
}

fn name(alloc: Global, token: &VToken, scope: &Scope) -> Result<SizedExpr, AllocError>
    ensures { IfOk result (λ e. e ≡ spec.name_node token.now.place (found token.now.text scope.now)) }
{
    name_node(alloc, token.place, scope.find(&token.text))
}

/// The net that a name means.
fn signal_named(token: &VToken, scope: &Scope) -> Option<Signal>
    ensures { result ≡ spec.signal_in (found token.now.text scope.now) }
{
    match scope.find(&token.text) {
        Some(Named::Signal { net, shape, lsb }) => Some(Signal {
            net: *net,
            width: shape.size,
            lsb: *lsb,
        }),
        _ => None,
    }
}

#[cycle(read)]
fn sized_prim(alloc: Global, prim: &VPrim, scope: &Scope) -> Result<SizedExpr, AllocError>
    ensures { IfOk result (λ e. e ≡ spec.sized_prim scope.now prim.now) }
{
    match prim {
        VPrim::Number(token) => number(alloc, token),
        VPrim::Name(token, select) => named(alloc, select, token, scope),
        VPrim::Group(open, expr, _) => {
            let whole = sized_of(alloc, expr.get(), scope)?;
            group_node(alloc, open.place, whole)
        }
        VPrim::Join(open, first, more, _) => {
            let first = sized_of(alloc, first.get(), scope)?;
            let parts = sized_more(alloc, more.as_slice(), first, scope)?;
            Ok(join_node(open.place, parts))
        }
        VPrim::Repeat(open, count, _, first, more, _, _) => {
            let count = sized_of(alloc, count.get(), scope)?;
            let first = sized_of(alloc, first.get(), scope)?;
            let parts = sized_more(alloc, more.as_slice(), first, scope)?;
            repeat_node(alloc, open.place, count, parts)
        }
        VPrim::Call(function, _, expr, _) => {
            let argument = sized_of(alloc, expr.get(), scope)?;
            let named = function_named(function.text.as_bytes());
            call_node(alloc, named, function.place, argument)
        }
    }
}

/// A name, with or without a select.
#[cycle(read)]
fn named(
    alloc: Global,
    select: &Option<VSelect>,
    token: &VToken,
    scope: &Scope,
) -> Result<SizedExpr, AllocError>
    ensures { IfOk result (λ e. e ≡ spec.named_node token.now.place (found token.now.text scope.now) (option_map (spec.sized_select scope.now) select.now)) }
{
    match select {
        None => name(alloc, token, scope),
        Some(select) => selected(alloc, select, token, scope),
    }
}

/// A select of a name: of a net alone bits can be selected.
#[cycle(read)]
fn selected(
    alloc: Global,
    select: &VSelect,
    token: &VToken,
    scope: &Scope,
) -> Result<SizedExpr, AllocError>
    ensures { IfOk result (λ e. e ≡ spec.selected_node token.now.place (spec.signal_in (found token.now.text scope.now)) (spec.sized_select scope.now select.now)) }
{
    match signal_named(token, scope) {
        None => Ok(missing_node(token.place)),
        Some(signal) => sized_select(alloc, select, scope, token.place, signal),
    }
}

#[cycle(read)]
fn sized_select(
    alloc: Global,
    select: &VSelect,
    scope: &Scope,
    place: Place,
    signal: Signal,
) -> Result<SizedExpr, AllocError>
    ensures { IfOk result (λ e. e ≡ spec.sized_select scope.now select.now place signal) }
{
    match select {
        VSelect::Bit(open, index, _) => {
            let index = sized_of(alloc, index.get(), scope)?;
            bit_node(alloc, open.place, index, place, signal)
        }
        VSelect::Range(open, high, _, low, _) => {
            let high = sized_of(alloc, high.get(), scope)?;
            let low = sized_of(alloc, low.get(), scope)?;
            range_node(alloc, open.place, high, low, place, signal)
        }
        VSelect::Upward(open, low, _, width, _) => {
            let low = sized_of(alloc, low.get(), scope)?;
            let width = sized_of(alloc, width.get(), scope)?;
            upward_node(alloc, open.place, low, width, place, signal)
        }
    }
}

/// The first part, and the expressions behind commas.
#[cycle(read)]
fn sized_more(
    alloc: Global,
    more: &[VNextExpr],
    first: SizedExpr,
    scope: &Scope,
) -> Result<Items<SizedExpr>, AllocError>
    ensures { IfOk result (λ parts. parts ≡ first ∷ map (spec.sized_next scope.now) more.now) }
{
    let mut parts = Items::new(alloc);
    parts.push(first)?;
    for next in more {
        let part = sized_of(alloc, &next.expr, scope)?;
        parts.push(part)?;
    }
    Ok(parts)
}
