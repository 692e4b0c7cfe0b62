//! Events and statements.

ghost use Rattle.std.specs.Prelude.{◌≡◌, codes};
ghost use Rattle.parsing.specs.Parser.{sees, seq, form, expect, optional};
ghost use Rattle.parsing.specs.Reads.{Reads};
ghost use Rattle.vlog_tree.specs.ReadExpressions.{mark, word};
ghost use Rattle.vlog_tree.specs.ReadStatements as spec;
ghost use Rattle.vlog_tree.specs.Statements as trees;
ghost use Rattle.vlog_parse.specs.Nesting as nesting;
ghost use Rattle.vlog_tree.specs.declared.tree_statements.VStmt.TheVariants as the_stmt;
ghost use Rattle.vlog_tree.specs.Terminals.{is_mark, is_edge};

use crate::cursor::Cursor;
use crate::expressions::{boxed, boxed_left, next_exprs};
use crate::levels::level_below;
use parsing::stop::Stop;
use sqlite_items::{Boxed, Items};
use std::alloc::Global;
use vlog_tree::token::VToken;
use vlog_tree::tree_statements::{VCitem, VElse, VEv, VEvent, VIfHead, VLabel, VNextEv, VStmt};

/// `["posedge" | "negedge"]`
fn any_edge(alloc: Global, tokens: &mut Cursor<'_>) -> Result<Option<VToken>, Stop>
    ensures { Reads (optional is_edge (expect is_edge) tokens.old) result tokens.new }
{
    if !tokens.sees_edge() {
        return Ok(None);
    }
    Ok(Some(tokens.edge(alloc)?))
}

/// `["posedge" | "negedge"] NAME`
#[tactic(auto, unfolding(vlog_tree::specs::ReadStatements::ev))]
fn ev(alloc: Global, tokens: &mut Cursor<'_>) -> Result<VEv, Stop>
    ensures { Reads (spec.ev tokens.old) result tokens.new }
{
    let edge = any_edge(alloc, tokens)?;
    let name = tokens.name(alloc)?;
    Ok(VEv { edge, name })
}

/// `("or" | ",") ev`
#[tactic(auto, unfolding(vlog_tree::specs::ReadStatements::next_ev))]
fn next_ev(alloc: Global, tokens: &mut Cursor<'_>) -> Result<VNextEv, Stop>
    ensures { Reads (spec.next_ev tokens.old) result tokens.new }
{
    let separator = tokens.separator(alloc)?;
    let event = ev(alloc, tokens)?;
    Ok(VNextEv { separator, event })
}

/// `{("or" | ",") ev}`
#[tactic(auto, using(parsing::proofs::Turns::many_start, parsing::proofs::Turns::many_ends, parsing::proofs::Turns::many_over, parsing::proofs::Turns::many_turns, parsing::proofs::Turns::many_fails), unfolding(vlog_tree::specs::ReadStatements::next_evs))]
fn next_evs(alloc: Global, tokens: &mut Cursor<'_>) -> Result<Items<VNextEv>, Stop>
    ensures { Reads (spec.next_evs tokens.old) result tokens.new }
{
    let mut found = Items::new(alloc);
    for _turn in 0..tokens.len() {
        if !tokens.sees_separator() {
            return Ok(found);
        }
        found.push(next_ev(alloc, tokens)?)?;
    }
    Ok(found)
}

/// `"(" "*" ")" | "(" ev {("or" | ",") ev} ")"`
#[tactic(auto, unfolding(vlog_tree::specs::ReadStatements::event_end))]
fn listed(alloc: Global, tokens: &mut Cursor<'_>) -> Result<VEvent, Stop>
    ensures { Reads (form spec.event_from (seq (mark (codes "(")) (λ _. spec.event_end)) tokens.old) result tokens.new }
{
    let open = tokens.mark(alloc, b"(")?;
    if tokens.sees_mark(b"*") {
        let star = tokens.mark(alloc, b"*")?;
        let close = tokens.mark(alloc, b")")?;
        return Ok(VEvent::AnyInBrackets(open, star, close));
    }
    let first = ev(alloc, tokens)?;
    let more = next_evs(alloc, tokens)?;
    let close = tokens.mark(alloc, b")")?;
    Ok(VEvent::Listed(open, first, more, close))
}

/// `"*" | "(" "*" ")" | "(" ev {("or" | ",") ev} ")"`
#[tactic(auto, unfolding(vlog_tree::specs::ReadStatements::event))]
pub fn event(alloc: Global, tokens: &mut Cursor<'_>) -> Result<VEvent, Stop>
    ensures { Reads (spec.event tokens.old) result tokens.new }
{
    if tokens.sees_mark(b"*") {
        return Ok(VEvent::Any(tokens.mark(alloc, b"*")?));
    }
    listed(alloc, tokens)
}

/// `":" NAME`
#[tactic(auto, unfolding(vlog_tree::specs::ReadStatements::label))]
pub fn label(alloc: Global, tokens: &mut Cursor<'_>) -> Result<VLabel, Stop>
    ensures { Reads (spec.label tokens.old) result tokens.new }
{
    let colon = tokens.mark(alloc, b":")?;
    let name = tokens.name(alloc)?;
    Ok(VLabel { colon, name })
}

/// `[":" NAME]`
#[tactic(auto, unfolding(vlog_tree::specs::ReadStatements::any_label))]
pub fn any_label(alloc: Global, tokens: &mut Cursor<'_>) -> Result<Option<VLabel>, Stop>
    ensures { Reads (spec.any_label tokens.old) result tokens.new }
{
    if !tokens.sees_mark(b":") {
        return Ok(None);
    }
    Ok(Some(label(alloc, tokens)?))
}

/// `"if" "(" expr ")"`, in a box.
#[inline(never)]
#[tactic(auto, unfolding(vlog_tree::specs::ReadStatements::if_head))]
pub fn if_head(alloc: Global, tokens: &mut Cursor<'_>, room: usize) -> Result<Boxed<VIfHead>, Stop>
    ensures { Reads (spec.if_head room tokens.old) result tokens.new }
{
    let word = tokens.word(alloc, b"if")?;
    let open = tokens.mark(alloc, b"(")?;
    let test = boxed(alloc, tokens, room)?;
    let close = tokens.mark(alloc, b")")?;
    let head = VIfHead {
        word,
        open,
        test,
        close,
    };
    Ok(Boxed::new(alloc, head)?)
}

/// A token that a statement begins with.
#[tactic(auto, unfolding(vlog_tree::specs::ReadStatements::begins_stmt))]
fn sees_stmt(tokens: &Cursor<'_>) -> bool
    ensures { result ≡ sees spec.begins_stmt tokens.now }
{
    tokens.sees_mark(b";")
        || tokens.sees_word(b"begin")
        || tokens.sees_lval()
        || tokens.sees_word(b"if")
        || tokens.sees_case_word()
}

/// The statement ends in an `if` without an `else`: the next `else` would be that one's.
#[tactic(auto, using(crate::proofs::Ends::open_empty, crate::proofs::Ends::open_block, crate::proofs::Ends::open_assign, crate::proofs::Ends::open_case, crate::proofs::Ends::open_if, crate::proofs::Ends::open_else))]
pub fn ends_open(stmt: &VStmt) -> bool
    ensures { result ≡ trees.ends_open stmt.now }
{
    match stmt {
        VStmt::If(_, _, None) => true,
        VStmt::If(_, _, Some(other)) => ends_open(other.stmt.get()),
        VStmt::Empty(_) => false,
        VStmt::Block(..) => false,
        VStmt::Assign(..) => false,
        VStmt::Case(..) => false,
    }
}

/// `{stmt}`
#[cycle(stmt)]
#[tactic(auto, using(parsing::proofs::Turns::many_start, parsing::proofs::Turns::many_ends, parsing::proofs::Turns::many_over, parsing::proofs::Turns::many_turns, parsing::proofs::Turns::many_fails), unfolding(vlog_tree::specs::ReadStatements::stmts))]
fn stmts(
    alloc: Global,
    tokens: &mut Cursor<'_>,
    inner: usize,
    levels: usize,
) -> Result<Items<VStmt>, Stop>
    ensures { Reads (spec.stmts (nesting.stmt_in inner levels) tokens.old) result tokens.new }
{
    let mut found = Items::new(alloc);
    for _turn in 0..tokens.len() {
        if !sees_stmt(tokens) {
            return Ok(found);
        }
        found.push(stmt(alloc, tokens, inner, levels)?.into_inner())?;
    }
    Ok(found)
}

/// `";"`
#[inline(never)]
fn empty(alloc: Global, tokens: &mut Cursor<'_>) -> Result<Boxed<VStmt>, Stop>
    ensures { Reads (form the_stmt.Empty (mark (codes ";")) tokens.old) result tokens.new }
{
    let semi = tokens.mark(alloc, b";")?;
    Ok(Boxed::new(alloc, VStmt::Empty(semi))?)
}

/// `"begin" [":" NAME] {stmt} "end"`
#[cycle(stmt)]
#[inline(never)]
#[tactic(auto, unfolding(vlog_tree::specs::ReadStatements::block))]
fn block(
    alloc: Global,
    tokens: &mut Cursor<'_>,
    inner: usize,
    levels: usize,
) -> Result<Boxed<VStmt>, Stop>
    ensures { Reads (spec.block (nesting.stmt_in inner levels) tokens.old) result tokens.new }
{
    let word = tokens.word(alloc, b"begin")?;
    let label = any_label(alloc, tokens)?;
    let stmts = stmts(alloc, tokens, inner, levels)?;
    let end = tokens.word(alloc, b"end")?;
    Ok(Boxed::new(alloc, VStmt::Block(word, label, stmts, end))?)
}

/// `lval ("=" | "<=") expr ";"`
#[inline(never)]
#[tactic(auto, unfolding(vlog_tree::specs::ReadStatements::assign))]
fn assign(alloc: Global, tokens: &mut Cursor<'_>, room: usize) -> Result<Boxed<VStmt>, Stop>
    ensures { Reads (spec.assign room tokens.old) result tokens.new }
{
    let left = boxed_left(alloc, tokens, room)?;
    let mark = tokens.assigning(alloc)?;
    let value = boxed(alloc, tokens, room)?;
    let semi = tokens.mark(alloc, b";")?;
    Ok(Boxed::new(alloc, VStmt::Assign(left, mark, value, semi))?)
}

/// `"else" stmt`
#[cycle(stmt)]
#[tactic(auto, unfolding(vlog_tree::specs::ReadStatements::else_part))]
fn else_part(
    alloc: Global,
    tokens: &mut Cursor<'_>,
    inner: usize,
    levels: usize,
) -> Result<VElse, Stop>
    ensures { Reads (spec.else_part (nesting.stmt_in inner levels) tokens.old) result tokens.new }
{
    let word = tokens.word(alloc, b"else")?;
    let stmt = stmt(alloc, tokens, inner, levels)?;
    Ok(VElse { word, stmt })
}

/// `["else" stmt]`, after this branch.
#[cycle(stmt)]
#[tactic(auto, unfolding(vlog_tree::specs::ReadStatements::any_else))]
fn any_else(
    alloc: Global,
    tokens: &mut Cursor<'_>,
    inner: usize,
    levels: usize,
    branch: &VStmt,
) -> Result<Option<VElse>, Stop>
    ensures { Reads (spec.any_else (nesting.stmt_in inner levels) branch.now tokens.old) result tokens.new }
{
    if ends_open(branch) || !tokens.sees_word(b"else") {
        return Ok(None);
    }
    Ok(Some(else_part(alloc, tokens, inner, levels)?))
}

/// `"if" "(" expr ")" stmt ["else" stmt]`
#[cycle(stmt)]
#[tactic(auto, unfolding(vlog_tree::specs::ReadStatements::conditional, vlog_tree::specs::ReadStatements::branches))]
fn conditional(
    alloc: Global,
    tokens: &mut Cursor<'_>,
    room: usize,
    inner: usize,
    levels: usize,
) -> Result<Boxed<VStmt>, Stop>
    ensures { Reads (spec.conditional room (nesting.stmt_in inner levels) tokens.old) result tokens.new }
{
    let head = if_head(alloc, tokens, room)?;
    let branch = stmt(alloc, tokens, inner, levels)?;
    let other = any_else(alloc, tokens, inner, levels, branch.get())?;
    Ok(Boxed::new(alloc, VStmt::If(head, branch, other))?)
}

/// `expr {"," expr} ":" stmt`
#[cycle(stmt)]
#[tactic(auto, unfolding(vlog_tree::specs::ReadStatements::labelled))]
fn labelled(
    alloc: Global,
    tokens: &mut Cursor<'_>,
    room: usize,
    inner: usize,
    levels: usize,
) -> Result<VCitem, Stop>
    ensures { Reads (spec.labelled room (nesting.stmt_in inner levels) tokens.old) result tokens.new }
{
    let first = boxed(alloc, tokens, room)?;
    let more = next_exprs(alloc, tokens, room)?;
    let colon = tokens.mark(alloc, b":")?;
    let stmt = stmt(alloc, tokens, inner, levels)?;
    let (first, stmt) = (first.into_inner(), stmt.into_inner());
    Ok(VCitem::Labels(first, more, colon, stmt))
}

/// `{expr {"," expr} ":" stmt}`
#[cycle(stmt)]
#[tactic(auto, using(parsing::proofs::Turns::many_start, parsing::proofs::Turns::many_ends, parsing::proofs::Turns::many_over, parsing::proofs::Turns::many_turns, parsing::proofs::Turns::many_fails), unfolding(vlog_tree::specs::ReadStatements::all_labelled))]
fn all_labelled(
    alloc: Global,
    tokens: &mut Cursor<'_>,
    room: usize,
    inner: usize,
    levels: usize,
) -> Result<Items<VCitem>, Stop>
    ensures { Reads (spec.all_labelled room (nesting.stmt_in inner levels) tokens.old) result tokens.new }
{
    let mut found = Items::new(alloc);
    for _turn in 0..tokens.len() {
        if !tokens.sees_expr() {
            return Ok(found);
        }
        found.push(labelled(alloc, tokens, room, inner, levels)?)?;
    }
    Ok(found)
}

/// `[":"]`
fn any_colon(alloc: Global, tokens: &mut Cursor<'_>) -> Result<Option<VToken>, Stop>
    ensures { Reads (optional (is_mark (codes ":")) (mark (codes ":")) tokens.old) result tokens.new }
{
    if !tokens.sees_mark(b":") {
        return Ok(None);
    }
    Ok(Some(tokens.mark(alloc, b":")?))
}

/// `"default" [":"] stmt`
#[cycle(stmt)]
#[tactic(auto, unfolding(vlog_tree::specs::ReadStatements::default_item))]
fn default_item(
    alloc: Global,
    tokens: &mut Cursor<'_>,
    inner: usize,
    levels: usize,
) -> Result<VCitem, Stop>
    ensures { Reads (spec.default_item (nesting.stmt_in inner levels) tokens.old) result tokens.new }
{
    let word = tokens.word(alloc, b"default")?;
    let colon = any_colon(alloc, tokens)?;
    let stmt = stmt(alloc, tokens, inner, levels)?;
    Ok(VCitem::Default(word, colon, stmt.into_inner()))
}

/// `"default" [":"] stmt {expr {"," expr} ":" stmt}`
#[cycle(stmt)]
#[tactic(auto, unfolding(vlog_tree::specs::ReadStatements::default_and_more))]
fn default_and_more(
    alloc: Global,
    tokens: &mut Cursor<'_>,
    room: usize,
    inner: usize,
    levels: usize,
) -> Result<(Boxed<VCitem>, Items<VCitem>), Stop>
    ensures { Reads (spec.default_and_more room (nesting.stmt_in inner levels) tokens.old) result tokens.new }
{
    let item = Boxed::new(alloc, default_item(alloc, tokens, inner, levels)?)?;
    let after = all_labelled(alloc, tokens, room, inner, levels)?;
    Ok((item, after))
}

/// `{citem}`, with at most one default.
#[cycle(stmt)]
#[tactic(auto, unfolding(vlog_tree::specs::ReadStatements::citems))]
fn citems(
    alloc: Global,
    tokens: &mut Cursor<'_>,
    room: usize,
    inner: usize,
    levels: usize,
) -> Result<Items<VCitem>, Stop>
    ensures { Reads (spec.citems room (nesting.stmt_in inner levels) tokens.old) result tokens.new }
{
    let mut found = all_labelled(alloc, tokens, room, inner, levels)?;
    if !tokens.sees_word(b"default") {
        return Ok(found);
    }
    let (item, after) = default_and_more(alloc, tokens, room, inner, levels)?;
    found.push(item.into_inner())?;
    found.append(after)?;
    Ok(found)
}

/// `")" {citem} "endcase"`
#[cycle(stmt)]
fn cases_end(
    alloc: Global,
    tokens: &mut Cursor<'_>,
    room: usize,
    inner: usize,
    levels: usize,
) -> Result<(VToken, (Items<VCitem>, VToken)), Stop>
    ensures { Reads (seq (mark (codes ")")) (λ _. seq (spec.citems room (nesting.stmt_in inner levels)) (λ _. word (codes "endcase"))) tokens.old) result tokens.new }
{
    let close = tokens.mark(alloc, b")")?;
    let items = citems(alloc, tokens, room, inner, levels)?;
    let end = tokens.word(alloc, b"endcase")?;
    Ok((close, (items, end)))
}

/// `("case" | "casez") "(" expr ")" {citem} "endcase"`
#[cycle(stmt)]
#[inline(never)]
#[tactic(auto, unfolding(vlog_tree::specs::ReadStatements::cases))]
fn cases(
    alloc: Global,
    tokens: &mut Cursor<'_>,
    room: usize,
    inner: usize,
    levels: usize,
) -> Result<Boxed<VStmt>, Stop>
    ensures { Reads (spec.cases room (nesting.stmt_in inner levels) tokens.old) result tokens.new }
{
    let word = tokens.case_word(alloc)?;
    let open = tokens.mark(alloc, b"(")?;
    let selector = boxed(alloc, tokens, room)?;
    let (close, (items, end)) = cases_end(alloc, tokens, room, inner, levels)?;
    let whole = VStmt::Case(word, open, selector, close, items, end);
    Ok(Boxed::new(alloc, whole)?)
}

/// A statement with so much room for its expressions and for the statements in it.
#[cycle(stmt)]
#[tactic(auto, unfolding(vlog_tree::specs::ReadStatements::stmt_of))]
fn stmt_of(
    alloc: Global,
    tokens: &mut Cursor<'_>,
    room: usize,
    inner: usize,
    levels: usize,
) -> Result<Boxed<VStmt>, Stop>
    ensures { Reads (spec.stmt_of room (nesting.stmt_in inner levels) tokens.old) result tokens.new }
{
    if tokens.sees_mark(b";") {
        return empty(alloc, tokens);
    }
    if tokens.sees_word(b"begin") {
        return block(alloc, tokens, inner, levels);
    }
    if tokens.sees_word(b"if") {
        return conditional(alloc, tokens, room, inner, levels);
    }
    if tokens.sees_case_word() {
        return cases(alloc, tokens, room, inner, levels);
    }
    assign(alloc, tokens, room)
}

/// A statement where it and those in it may stand in one another so many levels deep, in a box.
#[cycle(stmt)]
#[tactic(auto, using(crate::proofs::Rooms::stmt_none))]
pub fn stmt(
    alloc: Global,
    tokens: &mut Cursor<'_>,
    room: usize,
    levels: usize,
) -> Result<Boxed<VStmt>, Stop>
    ensures { Reads (nesting.stmt_in room levels tokens.old) result tokens.new }
{
    if room == 0 {
        return Err(Stop::Sunk);
    }
    match level_below(levels, 0) {
        Ok(inner) => stmt_of(alloc, tokens, room, room - 1, inner),
        Err(stop) => Err(stop),
    }
}
