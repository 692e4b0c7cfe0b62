//! Modules and their items, which hold items.

ghost use Rattle.std.specs.Prelude.{◌≡◌, IfOk, IfErr, codes};
ghost use Rattle.parsing.specs.Parser.{sees, seq, form};
ghost use Rattle.parsing.specs.Reads.{Reads};
ghost use Rattle.parsing.specs.declared.stop.Stop.TheVariants.{Memory};
ghost use Rattle.vlog_tree.specs.Modules as trees;
ghost use Rattle.vlog_tree.specs.declared.tree_modules.VGbody.TheVariants as the_body;
ghost use Rattle.vlog_tree.specs.declared.tree_modules.VMitem.TheVariants as the_item;
ghost use Rattle.vlog_tree.specs.ReadExpressions.{mark, word};
ghost use Rattle.vlog_tree.specs.ReadModules as spec;
ghost use Rattle.vlog_parse.specs.Nesting as nesting;

use crate::cursor::Cursor;
use crate::declarations::{
    any_pdecs, any_port_list, constant, driver, for_head, instance, kind, net, next_constants,
    next_drivers, next_names, next_nets, port_head, sees_dir, sees_net_kind, shape,
};
use crate::levels::{STATEMENT_LEVELS, level_below};
use crate::statements::{any_label, ends_open, event, if_head, label, stmt};
use parsing::stop::Stop;
use sqlite_items::{Boxed, Items};
use std::alloc::Global;
use vlog_tree::token::VToken;
use vlog_tree::tree_modules::{VGbody, VGelse, VMitem, VModule};
use vlog_tree::tree_statements::VIfHead;

/// `dir [kind] type NAME {"," NAME} ";"`
#[inline(never)]
#[tactic(auto, unfolding(vlog_tree::specs::ReadModules::port_item))]
fn port_item(alloc: Global, tokens: &mut Cursor<'_>, room: usize) -> Result<Boxed<VMitem>, Stop>
    ensures { Reads (spec.port_item room tokens.old) result tokens.new }
{
    let head = Boxed::new(alloc, port_head(alloc, tokens, room)?)?;
    let first = tokens.name(alloc)?;
    let more = next_names(alloc, tokens)?;
    let semi = tokens.mark(alloc, b";")?;
    let whole = VMitem::Ports(head.into_inner(), first, more, semi);
    Ok(Boxed::new(alloc, whole)?)
}

/// `kind type NAME ["=" expr] {"," NAME ["=" expr]} ";"`
#[inline(never)]
#[tactic(auto, unfolding(vlog_tree::specs::ReadModules::net_item))]
fn net_item(alloc: Global, tokens: &mut Cursor<'_>, room: usize) -> Result<Boxed<VMitem>, Stop>
    ensures { Reads (spec.net_item room tokens.old) result tokens.new }
{
    let kind = kind(alloc, tokens)?;
    let shape = Boxed::new(alloc, shape(alloc, tokens, room)?)?;
    let first = Boxed::new(alloc, net(alloc, tokens, room)?)?;
    let more = next_nets(alloc, tokens, room)?;
    let semi = tokens.mark(alloc, b";")?;
    let (shape, first) = (shape.into_inner(), first.into_inner());
    let whole = VMitem::Nets(kind, shape, first, more, semi);
    Ok(Boxed::new(alloc, whole)?)
}

/// `("parameter" | "localparam") type NAME "=" expr {"," NAME "=" expr} ";"`
#[inline(never)]
#[tactic(auto, unfolding(vlog_tree::specs::ReadModules::constant_item))]
fn constant_item(alloc: Global, tokens: &mut Cursor<'_>, room: usize) -> Result<Boxed<VMitem>, Stop>
    ensures { Reads (spec.constant_item room tokens.old) result tokens.new }
{
    let word = tokens.constant_word(alloc)?;
    let shape = Boxed::new(alloc, shape(alloc, tokens, room)?)?;
    let first = Boxed::new(alloc, constant(alloc, tokens, room)?)?;
    let more = next_constants(alloc, tokens, room)?;
    let semi = tokens.mark(alloc, b";")?;
    let (shape, first) = (shape.into_inner(), first.into_inner());
    let whole = VMitem::Constants(word, shape, first, more, semi);
    Ok(Boxed::new(alloc, whole)?)
}

/// `"genvar" NAME {"," NAME} ";"`
#[inline(never)]
#[tactic(auto, unfolding(vlog_tree::specs::ReadModules::genvar_item))]
fn genvar_item(alloc: Global, tokens: &mut Cursor<'_>) -> Result<Boxed<VMitem>, Stop>
    ensures { Reads (spec.genvar_item tokens.old) result tokens.new }
{
    let word = tokens.word(alloc, b"genvar")?;
    let first = tokens.name(alloc)?;
    let more = next_names(alloc, tokens)?;
    let semi = tokens.mark(alloc, b";")?;
    Ok(Boxed::new(alloc, VMitem::Genvars(word, first, more, semi))?)
}

/// `"assign" lval "=" expr {"," lval "=" expr} ";"`
#[inline(never)]
#[tactic(auto, unfolding(vlog_tree::specs::ReadModules::assign_item))]
fn assign_item(alloc: Global, tokens: &mut Cursor<'_>, room: usize) -> Result<Boxed<VMitem>, Stop>
    ensures { Reads (spec.assign_item room tokens.old) result tokens.new }
{
    let word = tokens.word(alloc, b"assign")?;
    let first = Boxed::new(alloc, driver(alloc, tokens, room)?)?;
    let more = next_drivers(alloc, tokens, room)?;
    let semi = tokens.mark(alloc, b";")?;
    let whole = VMitem::Assigns(word, first.into_inner(), more, semi);
    Ok(Boxed::new(alloc, whole)?)
}

/// `"always" "@" event stmt`
#[inline(never)]
#[tactic(auto, unfolding(crate::specs::Nesting::always_in))]
fn always_item(
    alloc: Global,
    tokens: &mut Cursor<'_>,
    room: usize,
    levels: usize,
) -> Result<Boxed<VMitem>, Stop>
    ensures { Reads (nesting.always_in (nesting.stmt_in room levels) tokens.old) result tokens.new }
{
    let word = tokens.word(alloc, b"always")?;
    let at = tokens.mark(alloc, b"@")?;
    let event = Boxed::new(alloc, event(alloc, tokens)?)?;
    let stmt = stmt(alloc, tokens, room, levels)?;
    let whole = VMitem::Always(word, at, event.into_inner(), stmt);
    Ok(Boxed::new(alloc, whole)?)
}

/// `"initial" stmt`
#[inline(never)]
#[tactic(auto, unfolding(crate::specs::Nesting::initial_in))]
fn initial_item(
    alloc: Global,
    tokens: &mut Cursor<'_>,
    room: usize,
    levels: usize,
) -> Result<Boxed<VMitem>, Stop>
    ensures { Reads (nesting.initial_in (nesting.stmt_in room levels) tokens.old) result tokens.new }
{
    let word = tokens.word(alloc, b"initial")?;
    let stmt = stmt(alloc, tokens, room, levels)?;
    Ok(Boxed::new(alloc, VMitem::Initial(word, stmt))?)
}

/// An instance, as an item.
#[inline(never)]
fn instance_item(alloc: Global, tokens: &mut Cursor<'_>, room: usize) -> Result<Boxed<VMitem>, Stop>
    ensures { Reads (form the_item.Instance (spec.instance room) tokens.old) result tokens.new }
{
    let instance = instance(alloc, tokens, room)?;
    Ok(Boxed::new(alloc, VMitem::Instance(instance))?)
}

/// A token that an item begins with.
#[tactic(auto, using(crate::proofs::Begins::begins_any))]
fn sees_mitem(tokens: &Cursor<'_>) -> bool
    ensures { result ≡ sees spec.begins_mitem tokens.now }
{
    sees_dir(tokens)
        | sees_net_kind(tokens)
        | tokens.sees_constant_word()
        | tokens.sees_word(b"genvar")
        | tokens.sees_word(b"assign")
        | tokens.sees_word(b"always")
        | tokens.sees_word(b"initial")
        | tokens.sees_word(b"generate")
        | tokens.sees_name()
        | tokens.sees_word(b"for")
        | tokens.sees_word(b"if")
}

/// The item ends in an `if` without an `else`: the next `else` would be that one's.
#[cycle(ends)]
#[tactic(auto, using(crate::proofs::Ends::open_ports, crate::proofs::Ends::open_nets, crate::proofs::Ends::open_constants, crate::proofs::Ends::open_genvars, crate::proofs::Ends::open_assigns, crate::proofs::Ends::open_always, crate::proofs::Ends::open_initial, crate::proofs::Ends::open_generate, crate::proofs::Ends::open_instance, crate::proofs::Ends::open_for, crate::proofs::Ends::open_item_if, crate::proofs::Ends::open_item_else))]
fn item_ends_open(item: &VMitem) -> bool
    ensures { result ≡ trees.item_ends_open item.now }
{
    match item {
        VMitem::If(_, _, None) => true,
        VMitem::If(_, _, Some(other)) => body_ends_open(other.body.get()),
        VMitem::Always(_, _, _, stmt) => ends_open(stmt.get()),
        VMitem::Initial(_, stmt) => ends_open(stmt.get()),
        VMitem::Ports(..) => false,
        VMitem::Nets(..) => false,
        VMitem::Constants(..) => false,
        VMitem::Genvars(..) => false,
        VMitem::Assigns(..) => false,
        VMitem::Generate(..) => false,
        VMitem::Instance(_) => false,
        VMitem::For(..) => false,
    }
}

/// The body ends in an `if` without an `else`: the next `else` would be that one's.
#[cycle(ends)]
#[tactic(auto, using(crate::proofs::Ends::open_body_item, crate::proofs::Ends::open_body_block))]
fn body_ends_open(body: &VGbody) -> bool
    ensures { result ≡ trees.body_ends_open body.now }
{
    match body {
        VGbody::Item(item) => item_ends_open(item),
        VGbody::Block(..) => false,
    }
}

/// `{mitem}`
#[cycle(mitem)]
#[tactic(auto, using(parsing::proofs::Turns::many_start, parsing::proofs::Turns::many_ends, parsing::proofs::Turns::many_over, parsing::proofs::Turns::many_turns, parsing::proofs::Turns::many_fails), unfolding(vlog_tree::specs::ReadModules::mitems))]
fn mitems(
    alloc: Global,
    tokens: &mut Cursor<'_>,
    inner: usize,
    levels: usize,
) -> Result<Items<VMitem>, Stop>
    ensures { Reads (spec.mitems (nesting.mitem_in inner levels) tokens.old) result tokens.new }
{
    let mut found = Items::new(alloc);
    for _turn in 0..tokens.len() {
        if !sees_mitem(tokens) {
            return Ok(found);
        }
        found.push(mitem(alloc, tokens, inner, levels)?.into_inner())?;
    }
    Ok(found)
}

/// `"generate" {mitem} "endgenerate"`
#[cycle(mitem)]
#[inline(never)]
#[tactic(auto, unfolding(vlog_tree::specs::ReadModules::region))]
fn region(
    alloc: Global,
    tokens: &mut Cursor<'_>,
    inner: usize,
    levels: usize,
) -> Result<Boxed<VMitem>, Stop>
    ensures { Reads (spec.region (nesting.mitem_in inner levels) tokens.old) result tokens.new }
{
    let word = tokens.word(alloc, b"generate")?;
    let items = mitems(alloc, tokens, inner, levels)?;
    let end = tokens.word(alloc, b"endgenerate")?;
    Ok(Boxed::new(alloc, VMitem::Generate(word, items, end))?)
}

/// `"begin" [":" NAME] {mitem} "end"`
#[cycle(mitem)]
#[inline(never)]
#[tactic(auto, unfolding(vlog_tree::specs::ReadModules::body_block))]
fn body_block(
    alloc: Global,
    tokens: &mut Cursor<'_>,
    inner: usize,
    levels: usize,
) -> Result<Boxed<VGbody>, Stop>
    ensures { Reads (spec.body_block (nesting.mitem_in inner levels) tokens.old) result tokens.new }
{
    let word = tokens.word(alloc, b"begin")?;
    let label = any_label(alloc, tokens)?;
    let items = mitems(alloc, tokens, inner, levels)?;
    let end = tokens.word(alloc, b"end")?;
    Ok(Boxed::new(alloc, VGbody::Block(word, label, items, end))?)
}

/// `"begin" ":" NAME {mitem} "end"`
#[cycle(mitem)]
#[inline(never)]
#[tactic(auto, unfolding(vlog_tree::specs::ReadModules::named_block))]
fn named_block(
    alloc: Global,
    tokens: &mut Cursor<'_>,
    inner: usize,
    levels: usize,
) -> Result<Boxed<VGbody>, Stop>
    ensures { Reads (spec.named_block (nesting.mitem_in inner levels) tokens.old) result tokens.new }
{
    let word = tokens.word(alloc, b"begin")?;
    let label = label(alloc, tokens)?;
    let items = mitems(alloc, tokens, inner, levels)?;
    let end = tokens.word(alloc, b"end")?;
    let whole = VGbody::Block(word, Some(label), items, end);
    Ok(Boxed::new(alloc, whole)?)
}

/// `"for" "(" NAME "=" expr ";" expr ";" NAME "=" expr ")" "begin" ":" NAME {mitem} "end"`
#[cycle(mitem)]
#[inline(never)]
#[tactic(auto, unfolding(vlog_tree::specs::ReadModules::for_item))]
fn for_item(
    alloc: Global,
    tokens: &mut Cursor<'_>,
    room: usize,
    inner: usize,
    levels: usize,
) -> Result<Boxed<VMitem>, Stop>
    ensures { Reads (spec.for_item room (nesting.mitem_in inner levels) tokens.old) result tokens.new }
{
    let head = Boxed::new(alloc, for_head(alloc, tokens, room)?)?;
    let body = named_block(alloc, tokens, inner, levels)?;
    Ok(Boxed::new(alloc, VMitem::For(head.into_inner(), body))?)
}

/// The conditional item of these parts, made outside the frames that nest.
#[inline(never)]
fn conditional_of(
    alloc: Global,
    head: Boxed<VIfHead>,
    branch: Boxed<VGbody>,
    other: Option<VGelse>,
) -> Result<Boxed<VMitem>, Stop>
    ensures gives { IfOk result (λ item. item ≡ the_item.If head branch other) }
    ensures stops { IfErr result (λ stop. stop ≡ Memory) }
{
    let whole = VMitem::If(head.into_inner(), branch, other);
    Ok(Boxed::new(alloc, whole)?)
}

/// The body that is this item, made outside the frames that nest.
#[inline(never)]
fn body_of(alloc: Global, item: Boxed<VMitem>) -> Result<Boxed<VGbody>, Stop>
    ensures gives { IfOk result (λ body. body ≡ the_body.Item item) }
    ensures stops { IfErr result (λ stop. stop ≡ Memory) }
{
    Ok(Boxed::new(alloc, VGbody::Item(item.into_inner()))?)
}

/// `mitem | "begin" [":" NAME] {mitem} "end"`
#[cycle(mitem)]
#[tactic(auto, unfolding(vlog_tree::specs::ReadModules::gbody))]
fn gbody(
    alloc: Global,
    tokens: &mut Cursor<'_>,
    inner: usize,
    levels: usize,
) -> Result<Boxed<VGbody>, Stop>
    ensures { Reads (spec.gbody (nesting.mitem_in inner levels) tokens.old) result tokens.new }
{
    if tokens.sees_word(b"begin") {
        return body_block(alloc, tokens, inner, levels);
    }
    let item = mitem(alloc, tokens, inner, levels)?;
    body_of(alloc, item)
}

/// `"else" gbody`
#[cycle(mitem)]
#[tactic(auto, unfolding(vlog_tree::specs::ReadModules::gelse))]
fn gelse(
    alloc: Global,
    tokens: &mut Cursor<'_>,
    inner: usize,
    levels: usize,
) -> Result<VGelse, Stop>
    ensures { Reads (spec.gelse (nesting.mitem_in inner levels) tokens.old) result tokens.new }
{
    let word = tokens.word(alloc, b"else")?;
    let body = gbody(alloc, tokens, inner, levels)?;
    Ok(VGelse { word, body })
}

/// `["else" gbody]`, after this branch.
#[cycle(mitem)]
#[tactic(auto, unfolding(vlog_tree::specs::ReadModules::any_gelse))]
fn any_gelse(
    alloc: Global,
    tokens: &mut Cursor<'_>,
    inner: usize,
    levels: usize,
    branch: &VGbody,
) -> Result<Option<VGelse>, Stop>
    ensures { Reads (spec.any_gelse (nesting.mitem_in inner levels) branch.now tokens.old) result tokens.new }
{
    if body_ends_open(branch) || !tokens.sees_word(b"else") {
        return Ok(None);
    }
    Ok(Some(gelse(alloc, tokens, inner, levels)?))
}

/// `"if" "(" expr ")" gbody ["else" gbody]`
#[cycle(mitem)]
#[tactic(auto, unfolding(vlog_tree::specs::ReadModules::gconditional, vlog_tree::specs::ReadModules::gbranches))]
fn gconditional(
    alloc: Global,
    tokens: &mut Cursor<'_>,
    room: usize,
    inner: usize,
    levels: usize,
) -> Result<Boxed<VMitem>, Stop>
    ensures { Reads (spec.gconditional room (nesting.mitem_in inner levels) tokens.old) result tokens.new }
{
    let head = if_head(alloc, tokens, room)?;
    let branch = gbody(alloc, tokens, inner, levels)?;
    let other = any_gelse(alloc, tokens, inner, levels, branch.get())?;
    conditional_of(alloc, head, branch, other)
}

/// An item with so much room for its expressions and statements and for the items in it.
#[cycle(mitem)]
#[tactic(auto, unfolding(crate::specs::Nesting::mitem_with))]
fn mitem_of(
    alloc: Global,
    tokens: &mut Cursor<'_>,
    room: usize,
    inner: usize,
    levels: usize,
) -> Result<Boxed<VMitem>, Stop>
    ensures { Reads (nesting.mitem_with room (nesting.stmt_in room levels) (nesting.mitem_in inner levels) tokens.old) result tokens.new }
{
    if sees_dir(tokens) {
        return port_item(alloc, tokens, room);
    }
    if sees_net_kind(tokens) {
        return net_item(alloc, tokens, room);
    }
    if tokens.sees_constant_word() {
        return constant_item(alloc, tokens, room);
    }
    if tokens.sees_word(b"genvar") {
        return genvar_item(alloc, tokens);
    }
    if tokens.sees_word(b"assign") {
        return assign_item(alloc, tokens, room);
    }
    if tokens.sees_word(b"always") {
        return always_item(alloc, tokens, room, levels);
    }
    if tokens.sees_word(b"initial") {
        return initial_item(alloc, tokens, room, levels);
    }
    if tokens.sees_word(b"generate") {
        return region(alloc, tokens, inner, levels);
    }
    if tokens.sees_word(b"for") {
        return for_item(alloc, tokens, room, inner, levels);
    }
    if tokens.sees_word(b"if") {
        return gconditional(alloc, tokens, room, inner, levels);
    }
    instance_item(alloc, tokens, room)
}

/// An item where it and the items and statements in it may stand in one another so many levels deep, in a box.
#[cycle(mitem)]
#[tactic(auto, using(crate::proofs::Rooms::mitem_none))]
fn mitem(
    alloc: Global,
    tokens: &mut Cursor<'_>,
    room: usize,
    levels: usize,
) -> Result<Boxed<VMitem>, Stop>
    ensures { Reads (nesting.mitem_in room levels tokens.old) result tokens.new }
{
    if room == 0 {
        return Err(Stop::Sunk);
    }
    match level_below(levels, STATEMENT_LEVELS) {
        Ok(inner) => mitem_of(alloc, tokens, room, room - 1, inner),
        Err(stop) => Err(stop),
    }
}

/// What stands behind the ports of a module.
type ModuleEnd = (VToken, (Items<VMitem>, VToken));

/// `";" {mitem} "endmodule"`
fn module_end(
    alloc: Global,
    tokens: &mut Cursor<'_>,
    room: usize,
    levels: usize,
) -> Result<ModuleEnd, Stop>
    ensures { Reads (seq (mark (codes ";")) (λ _. seq (spec.mitems (nesting.mitem_in room levels)) (λ _. word (codes "endmodule"))) tokens.old) result tokens.new }
{
    let semi = tokens.mark(alloc, b";")?;
    let items = mitems(alloc, tokens, room, levels)?;
    let end = tokens.word(alloc, b"endmodule")?;
    Ok((semi, (items, end)))
}

/// `"module" NAME ["#" "(" pdec {"," pdec} ")"] ["(" [ports] ")"] ";" {mitem} "endmodule"`
#[tactic(auto, unfolding(crate::specs::Nesting::module_in))]
fn module(
    alloc: Global,
    tokens: &mut Cursor<'_>,
    room: usize,
    levels: usize,
) -> Result<VModule, Stop>
    ensures { Reads (nesting.module_in room levels tokens.old) result tokens.new }
{
    let word = tokens.word(alloc, b"module")?;
    let name = tokens.name(alloc)?;
    let parameters = Boxed::new(alloc, any_pdecs(alloc, tokens, room)?)?;
    let ports = Boxed::new(alloc, any_port_list(alloc, tokens, room)?)?;
    let (semi, (items, end)) = module_end(alloc, tokens, room, levels)?;
    let (parameters, ports) = (parameters.into_inner(), ports.into_inner());
    Ok(VModule {
        word,
        name,
        parameters,
        ports,
        semi,
        items,
        end,
    })
}

/// `{module}`
#[tactic(auto, using(parsing::proofs::Turns::many_start, parsing::proofs::Turns::many_ends, parsing::proofs::Turns::many_over, parsing::proofs::Turns::many_turns, parsing::proofs::Turns::many_fails), unfolding(crate::specs::Nesting::modules_in))]
fn modules(
    alloc: Global,
    tokens: &mut Cursor<'_>,
    room: usize,
    levels: usize,
) -> Result<Items<VModule>, Stop>
    ensures { Reads (nesting.modules_in room levels tokens.old) result tokens.new }
{
    let mut found = Items::new(alloc);
    for _turn in 0..tokens.len() {
        if !tokens.sees_word(b"module") {
            return Ok(found);
        }
        found.push(module(alloc, tokens, room, levels)?)?;
    }
    Ok(found)
}

/// `{module}` and the end, down to so many levels.
#[tactic(auto, unfolding(crate::specs::Nesting::source_in))]
pub fn source(
    alloc: Global,
    tokens: &mut Cursor<'_>,
    room: usize,
    levels: usize,
) -> Result<Items<VModule>, Stop>
    ensures { Reads (nesting.source_in room levels tokens.old) result tokens.new }
{
    let found = modules(alloc, tokens, room, levels)?;
    tokens.finish()?;
    Ok(found)
}
