//! Expressions and left sides.

ghost use Rattle.std.specs.Prelude.{◌<◌, ◌≤◌, ◌-◌, codes};
ghost use Rattle.parsing.specs.Parser.{seq};
ghost use Rattle.parsing.specs.Reads.{Reads};
ghost use Rattle.vlog_tree.specs.ReadExpressions as spec;

use crate::cursor::Cursor;
use parsing::stop::Stop;
use sqlite_items::{Boxed, Items};
use std::alloc::Global;
use vlog_tree::token::VToken;
use vlog_tree::tree_expressions::{VExpr, VLval, VNextExpr, VNextLval, VPrim, VSelect};

/// The level of the binary operators that bind least.
const LOOSEST: u8 = 11;

/// An expression that nests down to so many levels, in a box.
#[cycle(expr)]
#[tactic(auto, using(crate::proofs::Rooms::expr_none, crate::proofs::Rooms::expr_down))]
pub fn boxed(alloc: Global, tokens: &mut Cursor<'_>, room: usize) -> Result<Boxed<VExpr>, Stop>
    ensures { Reads (spec.expr room tokens.old) result tokens.new }
{
    if room == 0 {
        return Err(Stop::Sunk);
    }
    choice(alloc, tokens, room - 1)
}

/// An expression that nests down to so many levels.
#[cycle(expr)]
pub fn expression(alloc: Global, tokens: &mut Cursor<'_>, room: usize) -> Result<VExpr, Stop>
    ensures { Reads (spec.expr room tokens.old) result tokens.new }
{
    Ok(boxed(alloc, tokens, room)?.into_inner())
}

/// `"," expr`
#[cycle(expr)]
#[tactic(auto, unfolding(vlog_tree::specs::ReadExpressions::next_expr))]
fn next_expr(alloc: Global, tokens: &mut Cursor<'_>, room: usize) -> Result<VNextExpr, Stop>
    ensures { Reads (spec.next_expr (spec.expr room) tokens.old) result tokens.new }
{
    let comma = tokens.mark(alloc, b",")?;
    let expr = expression(alloc, tokens, room)?;
    Ok(VNextExpr { comma, expr })
}

/// `{"," expr}`
#[cycle(expr)]
#[tactic(auto, using(parsing::proofs::Turns::many_start, parsing::proofs::Turns::many_ends, parsing::proofs::Turns::many_over, parsing::proofs::Turns::many_turns, parsing::proofs::Turns::many_fails), unfolding(vlog_tree::specs::ReadExpressions::next_exprs))]
pub fn next_exprs(
    alloc: Global,
    tokens: &mut Cursor<'_>,
    room: usize,
) -> Result<Items<VNextExpr>, Stop>
    ensures { Reads (spec.next_exprs (spec.expr room) tokens.old) result tokens.new }
{
    let mut found = Items::new(alloc);
    for _turn in 0..tokens.len() {
        if !tokens.sees_mark(b",") {
            return Ok(found);
        }
        found.push(next_expr(alloc, tokens, room)?)?;
    }
    Ok(found)
}

/// This mark, an expression and `]`
#[cycle(expr)]
fn select_more(
    alloc: Global,
    tokens: &mut Cursor<'_>,
    mark: &[u8],
    room: usize,
) -> Result<(VToken, (Boxed<VExpr>, VToken)), Stop>
    ensures { Reads (seq (spec.mark mark.now) (λ _. seq (spec.expr room) (λ _. spec.mark (codes "]"))) tokens.old) result tokens.new }
{
    let mark = tokens.mark(alloc, mark)?;
    let second = boxed(alloc, tokens, room)?;
    let close = tokens.mark(alloc, b"]")?;
    Ok((mark, (second, close)))
}

/// `"[" expr "]" | "[" expr ":" expr "]" | "[" expr "+:" expr "]"`
#[cycle(expr)]
#[tactic(auto, unfolding(vlog_tree::specs::ReadExpressions::select, vlog_tree::specs::ReadExpressions::select_end))]
fn select(alloc: Global, tokens: &mut Cursor<'_>, room: usize) -> Result<VSelect, Stop>
    ensures { Reads (spec.select (spec.expr room) tokens.old) result tokens.new }
{
    let open = tokens.mark(alloc, b"[")?;
    let first = boxed(alloc, tokens, room)?;
    if tokens.sees_mark(b":") {
        let (colon, (low, close)) = select_more(alloc, tokens, b":", room)?;
        return Ok(VSelect::Range(open, first, colon, low, close));
    }
    if tokens.sees_mark(b"+:") {
        let (upward, (width, close)) = select_more(alloc, tokens, b"+:", room)?;
        return Ok(VSelect::Upward(open, first, upward, width, close));
    }
    let close = tokens.mark(alloc, b"]")?;
    Ok(VSelect::Bit(open, first, close))
}

/// `[select]`
#[cycle(expr)]
#[tactic(auto, unfolding(vlog_tree::specs::ReadExpressions::any_select))]
fn any_select(alloc: Global, tokens: &mut Cursor<'_>, room: usize) -> Result<Option<VSelect>, Stop>
    ensures { Reads (spec.any_select (spec.expr room) tokens.old) result tokens.new }
{
    if !tokens.sees_mark(b"[") {
        return Ok(None);
    }
    Ok(Some(select(alloc, tokens, room)?))
}

/// `expr {"," expr} "}"`, where these are parts of a join after the first.
#[cycle(expr)]
fn joined(
    alloc: Global,
    tokens: &mut Cursor<'_>,
    room: usize,
) -> Result<(Items<VNextExpr>, VToken), Stop>
    ensures { Reads (seq (spec.next_exprs (spec.expr room)) (λ _. spec.mark (codes "}")) tokens.old) result tokens.new }
{
    let more = next_exprs(alloc, tokens, room)?;
    let close = tokens.mark(alloc, b"}")?;
    Ok((more, close))
}

/// The parts of a replication.
type Repeated = (VToken, (Boxed<VExpr>, (Items<VNextExpr>, (VToken, VToken))));

/// `"{" expr {"," expr} "}" "}"`
#[cycle(expr)]
fn repeated(alloc: Global, tokens: &mut Cursor<'_>, room: usize) -> Result<Repeated, Stop>
    ensures { Reads (seq (spec.mark (codes "{")) (λ _. seq (spec.expr room) (λ _. seq (spec.next_exprs (spec.expr room)) (λ _. seq (spec.mark (codes "}")) (λ _. spec.mark (codes "}"))))) tokens.old) result tokens.new }
{
    let open = tokens.mark(alloc, b"{")?;
    let first = boxed(alloc, tokens, room)?;
    let more = next_exprs(alloc, tokens, room)?;
    let inner_close = tokens.mark(alloc, b"}")?;
    let close = tokens.mark(alloc, b"}")?;
    Ok((open, (first, (more, (inner_close, close)))))
}

/// `"{" expr {"," expr} "}" | "{" expr "{" expr {"," expr} "}" "}"`
#[cycle(expr)]
#[tactic(auto, unfolding(vlog_tree::specs::ReadExpressions::braced, vlog_tree::specs::ReadExpressions::braced_end))]
fn braced(alloc: Global, tokens: &mut Cursor<'_>, room: usize) -> Result<VPrim, Stop>
    ensures { Reads (spec.braced (spec.expr room) tokens.old) result tokens.new }
{
    let open = tokens.mark(alloc, b"{")?;
    let first = boxed(alloc, tokens, room)?;
    if tokens.sees_mark(b"{") {
        let (inner_open, (part, (more, (inner_close, close)))) = repeated(alloc, tokens, room)?;
        return Ok(VPrim::Repeat(open, first, inner_open, part, more, inner_close, close));
    }
    let (more, close) = joined(alloc, tokens, room)?;
    Ok(VPrim::Join(open, first, more, close))
}

/// `NAME [select]`
#[cycle(expr)]
#[tactic(auto, unfolding(vlog_tree::specs::ReadExpressions::named))]
fn named(alloc: Global, tokens: &mut Cursor<'_>, room: usize) -> Result<VPrim, Stop>
    ensures { Reads (spec.named (spec.expr room) tokens.old) result tokens.new }
{
    let name = tokens.name(alloc)?;
    let select = any_select(alloc, tokens, room)?;
    Ok(VPrim::Name(name, select))
}

/// `"(" expr ")"`
#[cycle(expr)]
#[tactic(auto, unfolding(vlog_tree::specs::ReadExpressions::group))]
fn group(alloc: Global, tokens: &mut Cursor<'_>, room: usize) -> Result<VPrim, Stop>
    ensures { Reads (spec.group (spec.expr room) tokens.old) result tokens.new }
{
    let open = tokens.mark(alloc, b"(")?;
    let inner = boxed(alloc, tokens, room)?;
    let close = tokens.mark(alloc, b")")?;
    Ok(VPrim::Group(open, inner, close))
}

/// `SYSCALL "(" expr ")"`
#[cycle(expr)]
#[tactic(auto, unfolding(vlog_tree::specs::ReadExpressions::call))]
fn call(alloc: Global, tokens: &mut Cursor<'_>, room: usize) -> Result<VPrim, Stop>
    ensures { Reads (spec.call (spec.expr room) tokens.old) result tokens.new }
{
    let function = tokens.function(alloc)?;
    let open = tokens.mark(alloc, b"(")?;
    let argument = boxed(alloc, tokens, room)?;
    let close = tokens.mark(alloc, b")")?;
    Ok(VPrim::Call(function, open, argument, close))
}

/// `NUMBER | NAME [select] | "(" expr ")" | "{" .. "}" | SYSCALL "(" expr ")"`
#[cycle(expr)]
#[tactic(auto, unfolding(vlog_tree::specs::ReadExpressions::prim))]
fn prim(alloc: Global, tokens: &mut Cursor<'_>, room: usize) -> Result<VPrim, Stop>
    ensures { Reads (spec.prim (spec.expr room) tokens.old) result tokens.new }
{
    if tokens.sees_number() {
        return Ok(VPrim::Number(tokens.number(alloc)?));
    }
    if tokens.sees_name() {
        return named(alloc, tokens, room);
    }
    if tokens.sees_mark(b"(") {
        return group(alloc, tokens, room);
    }
    if tokens.sees_mark(b"{") {
        return braced(alloc, tokens, room);
    }
    call(alloc, tokens, room)
}

/// A primary in a box.
#[cycle(expr)]
#[inline(never)]
fn boxed_prim(alloc: Global, tokens: &mut Cursor<'_>, room: usize) -> Result<Boxed<VPrim>, Stop>
    ensures { Reads (spec.prim (spec.expr room) tokens.old) result tokens.new }
{
    Ok(Boxed::new(alloc, prim(alloc, tokens, room)?)?)
}

/// `prim | unop expr`, the operand of a unary operator being another such one, in a box.
#[cycle(expr)]
#[tactic(auto, unfolding(vlog_tree::specs::ReadExpressions::operand_of))]
fn operand_of(alloc: Global, tokens: &mut Cursor<'_>, room: usize) -> Result<Boxed<VExpr>, Stop>
    ensures { Reads (spec.operand_of (spec.operand room) (spec.expr room) tokens.old) result tokens.new }
{
    if tokens.sees_unary() {
        let operator = tokens.unary(alloc)?;
        let again = operand(alloc, tokens, room)?;
        return Ok(Boxed::new(alloc, VExpr::Unary(operator, again))?);
    }
    let prim = boxed_prim(alloc, tokens, room)?;
    Ok(Boxed::new(alloc, VExpr::Prim(prim))?)
}

/// An operand in a box, down to so many levels.
#[cycle(expr)]
#[tactic(auto, using(crate::proofs::Rooms::operand_none, crate::proofs::Rooms::operand_down))]
fn operand(alloc: Global, tokens: &mut Cursor<'_>, room: usize) -> Result<Boxed<VExpr>, Stop>
    ensures { Reads (spec.operand room tokens.old) result tokens.new }
{
    if room == 0 {
        return Err(Stop::Sunk);
    }
    operand_of(alloc, tokens, room - 1)
}

/// A binary operator of this level and the operand after it.
#[cycle(expr)]
#[tactic(auto, unfolding(vlog_tree::specs::ReadExpressions::step))]
fn step(
    alloc: Global,
    tokens: &mut Cursor<'_>,
    room: usize,
    level: u8,
) -> Result<(VToken, Boxed<VExpr>), Stop>
    requires some { 0 < level }
    requires known { level ≤ 11 }
    ensures { Reads (spec.step level (spec.upto (spec.operand_of (spec.operand room) (spec.expr room)) (level - 1)) tokens.old) result tokens.new }
{
    let operator = tokens.level(alloc, level)?;
    let right = upto(alloc, tokens, room, level - 1)?;
    Ok((operator, right))
}

/// Operands with binary operators of this level between them, to the left.
#[cycle(expr)]
#[tactic(auto, using(crate::proofs::Chains::chain_start, crate::proofs::Chains::chain_first_fails, crate::proofs::Chains::chain_ends, crate::proofs::Chains::chain_over, crate::proofs::Chains::chain_turns, crate::proofs::Chains::chain_fails))]
fn chained(
    alloc: Global,
    tokens: &mut Cursor<'_>,
    room: usize,
    level: u8,
) -> Result<Boxed<VExpr>, Stop>
    requires some { 0 < level }
    requires known { level ≤ 11 }
    ensures { Reads (spec.chained level (spec.upto (spec.operand_of (spec.operand room) (spec.expr room)) (level - 1)) tokens.old) result tokens.new }
{
    let mut left = upto(alloc, tokens, room, level - 1)?;
    for _turn in 0..tokens.len() {
        if !tokens.sees_level(level) {
            return Ok(left);
        }
        let (operator, right) = step(alloc, tokens, room, level)?;
        left = Boxed::new(alloc, VExpr::Binary(left, operator, right))?;
    }
    Ok(left)
}

/// An expression whose binary operators are of this level and tighter ones.
#[cycle(expr)]
#[tactic(auto, using(crate::proofs::Rooms::upto_none, crate::proofs::Rooms::upto_down))]
fn upto(
    alloc: Global,
    tokens: &mut Cursor<'_>,
    room: usize,
    level: u8,
) -> Result<Boxed<VExpr>, Stop>
    requires known { level ≤ 11 }
    ensures { Reads (spec.upto (spec.operand_of (spec.operand room) (spec.expr room)) level tokens.old) result tokens.new }
{
    if level == 0 {
        return operand_of(alloc, tokens, room);
    }
    chained(alloc, tokens, room, level)
}

/// The two values of a choice and the marks before them.
type Arms = (VToken, (Boxed<VExpr>, (VToken, Boxed<VExpr>)));

/// `"?" expr ":" expr`
#[cycle(expr)]
fn arms(alloc: Global, tokens: &mut Cursor<'_>, room: usize) -> Result<Arms, Stop>
    ensures { Reads (seq (spec.mark (codes "?")) (λ _. seq (spec.expr room) (λ _. seq (spec.mark (codes ":")) (λ _. spec.expr room))) tokens.old) result tokens.new }
{
    let query = tokens.mark(alloc, b"?")?;
    let yes_value = boxed(alloc, tokens, room)?;
    let colon = tokens.mark(alloc, b":")?;
    let no_value = boxed(alloc, tokens, room)?;
    Ok((query, (yes_value, (colon, no_value))))
}

/// `expr ["?" expr ":" expr]`, the test being no choice of its own.
#[cycle(expr)]
#[tactic(auto, unfolding(vlog_tree::specs::ReadExpressions::choice))]
fn choice(alloc: Global, tokens: &mut Cursor<'_>, room: usize) -> Result<Boxed<VExpr>, Stop>
    ensures { Reads (spec.choice (spec.upto (spec.operand_of (spec.operand room) (spec.expr room)) 11) (spec.expr room) tokens.old) result tokens.new }
{
    let test = upto(alloc, tokens, room, LOOSEST)?;
    if !tokens.sees_mark(b"?") {
        return Ok(test);
    }
    let (query, (yes_value, (colon, no_value))) = arms(alloc, tokens, room)?;
    let whole = VExpr::Choice(test, query, yes_value, colon, no_value);
    Ok(Boxed::new(alloc, whole)?)
}

/// `"," lval`
#[cycle(lval)]
#[tactic(auto, unfolding(vlog_tree::specs::ReadExpressions::next_lval))]
fn next_lval(alloc: Global, tokens: &mut Cursor<'_>, room: usize) -> Result<VNextLval, Stop>
    ensures { Reads (spec.next_lval (spec.lval room) tokens.old) result tokens.new }
{
    let comma = tokens.mark(alloc, b",")?;
    let lval = left_side(alloc, tokens, room)?;
    Ok(VNextLval { comma, lval })
}

/// `{"," lval}`
#[cycle(lval)]
#[tactic(auto, using(parsing::proofs::Turns::many_start, parsing::proofs::Turns::many_ends, parsing::proofs::Turns::many_over, parsing::proofs::Turns::many_turns, parsing::proofs::Turns::many_fails), unfolding(vlog_tree::specs::ReadExpressions::next_lvals))]
fn next_lvals(alloc: Global, tokens: &mut Cursor<'_>, room: usize) -> Result<Items<VNextLval>, Stop>
    ensures { Reads (spec.next_lvals (spec.lval room) tokens.old) result tokens.new }
{
    let mut found = Items::new(alloc);
    for _turn in 0..tokens.len() {
        if !tokens.sees_mark(b",") {
            return Ok(found);
        }
        found.push(next_lval(alloc, tokens, room)?)?;
    }
    Ok(found)
}

/// `"{" lval {"," lval} "}"`
#[cycle(lval)]
#[tactic(auto, unfolding(vlog_tree::specs::ReadExpressions::lval_join))]
fn lval_join(alloc: Global, tokens: &mut Cursor<'_>, room: usize) -> Result<VLval, Stop>
    ensures { Reads (spec.lval_join (spec.lval room) tokens.old) result tokens.new }
{
    let open = tokens.mark(alloc, b"{")?;
    let first = boxed_left(alloc, tokens, room)?;
    let more = next_lvals(alloc, tokens, room)?;
    let close = tokens.mark(alloc, b"}")?;
    Ok(VLval::Join(open, first, more, close))
}

/// `NAME [select]`
#[tactic(auto, unfolding(vlog_tree::specs::ReadExpressions::lval_name))]
fn lval_name(alloc: Global, tokens: &mut Cursor<'_>, room: usize) -> Result<VLval, Stop>
    ensures { Reads (spec.lval_name (spec.expr room) tokens.old) result tokens.new }
{
    let name = tokens.name(alloc)?;
    let select = any_select(alloc, tokens, room)?;
    Ok(VLval::Name(name, select))
}

/// A left side that nests down to so many levels.
#[cycle(lval)]
#[tactic(auto, using(crate::proofs::Rooms::lval_none, crate::proofs::Rooms::lval_down))]
pub fn left_side(alloc: Global, tokens: &mut Cursor<'_>, room: usize) -> Result<VLval, Stop>
    ensures { Reads (spec.lval room tokens.old) result tokens.new }
{
    if room == 0 {
        return Err(Stop::Sunk);
    }
    if tokens.sees_name() {
        return lval_name(alloc, tokens, room - 1);
    }
    lval_join(alloc, tokens, room - 1)
}

/// A left side in a box.
#[cycle(lval)]
pub fn boxed_left(alloc: Global, tokens: &mut Cursor<'_>, room: usize) -> Result<Boxed<VLval>, Stop>
    ensures { Reads (spec.lval room tokens.old) result tokens.new }
{
    Ok(Boxed::new(alloc, left_side(alloc, tokens, room)?)?)
}
