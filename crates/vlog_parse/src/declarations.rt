//! The parts of modules that hold no items: declarations, ports, connections.

ghost use Rattle.std.specs.Prelude.{◌≡◌, codes};
ghost use Rattle.parsing.specs.Parser.{sees, seq, optional, many};
ghost use Rattle.parsing.specs.Reads.{Reads};
ghost use Rattle.vlog_tree.specs.ReadExpressions.{mark, word, expr, begins_expr};
ghost use Rattle.vlog_tree.specs.ReadModules as spec;
ghost use Rattle.vlog_tree.specs.Terminals.{is_mark, is_word};

use crate::cursor::Cursor;
use crate::expressions::{boxed, boxed_left, expression, next_exprs};
use parsing::stop::Stop;
use sqlite_items::{Boxed, Items};
use std::alloc::Global;
use vlog_tree::token::VToken;
use vlog_tree::tree_expressions::VExpr;
use vlog_tree::tree_modules::{
    VAssigned, VConn, VConns, VConstant, VDir, VDriver, VForHead, VInstance, VKind, VNet,
    VNextConn, VNextConstant, VNextDriver, VNextName, VNextNet, VNextPdec, VNextPort, VOverrides,
    VPdec, VPdecs, VPortHead, VPortList, VPorts, VRange, VType,
};

/// `"input" | "output"`
#[tactic(auto, unfolding(vlog_tree::specs::ReadModules::dir))]
fn dir(alloc: Global, tokens: &mut Cursor<'_>) -> Result<VDir, Stop>
    ensures { Reads (spec.dir tokens.old) result tokens.new }
{
    if tokens.sees_word(b"input") {
        return Ok(VDir::Input(tokens.word(alloc, b"input")?));
    }
    Ok(VDir::Output(tokens.word(alloc, b"output")?))
}

/// `"wire" | "reg"`
#[tactic(auto, unfolding(vlog_tree::specs::ReadModules::kind))]
pub fn kind(alloc: Global, tokens: &mut Cursor<'_>) -> Result<VKind, Stop>
    ensures { Reads (spec.kind tokens.old) result tokens.new }
{
    if tokens.sees_word(b"wire") {
        return Ok(VKind::Wire(tokens.word(alloc, b"wire")?));
    }
    Ok(VKind::Reg(tokens.word(alloc, b"reg")?))
}

/// `"[" expr ":" expr "]"`
#[tactic(auto, unfolding(vlog_tree::specs::ReadModules::range))]
fn range(alloc: Global, tokens: &mut Cursor<'_>, room: usize) -> Result<VRange, Stop>
    ensures { Reads (spec.range room tokens.old) result tokens.new }
{
    let open = tokens.mark(alloc, b"[")?;
    let high = boxed(alloc, tokens, room)?;
    let colon = tokens.mark(alloc, b":")?;
    let low = boxed(alloc, tokens, room)?;
    let close = tokens.mark(alloc, b"]")?;
    Ok(VRange {
        open,
        high: high.into_inner(),
        colon,
        low: low.into_inner(),
        close,
    })
}

/// `["[" expr ":" expr "]"]`
fn any_range(
    alloc: Global,
    tokens: &mut Cursor<'_>,
    room: usize,
) -> Result<Option<Boxed<VRange>>, Stop>
    ensures { Reads (optional (is_mark (codes "[")) (spec.range room) tokens.old) result tokens.new }
{
    if !tokens.sees_mark(b"[") {
        return Ok(None);
    }
    Ok(Some(Boxed::new(alloc, range(alloc, tokens, room)?)?))
}

/// `["signed"]`
fn any_signed(alloc: Global, tokens: &mut Cursor<'_>) -> Result<Option<VToken>, Stop>
    ensures { Reads (optional (is_word (codes "signed")) (word (codes "signed")) tokens.old) result tokens.new }
{
    if !tokens.sees_word(b"signed") {
        return Ok(None);
    }
    Ok(Some(tokens.word(alloc, b"signed")?))
}

/// `["signed"] [range]`
#[tactic(auto, unfolding(vlog_tree::specs::ReadModules::shape))]
pub fn shape(alloc: Global, tokens: &mut Cursor<'_>, room: usize) -> Result<VType, Stop>
    ensures { Reads (spec.shape room tokens.old) result tokens.new }
{
    let signed = any_signed(alloc, tokens)?;
    let range = any_range(alloc, tokens, room)?;
    Ok(VType { signed, range })
}

/// `"=" expr`
#[tactic(auto, unfolding(vlog_tree::specs::ReadModules::assigned))]
fn assigned(alloc: Global, tokens: &mut Cursor<'_>, room: usize) -> Result<VAssigned, Stop>
    ensures { Reads (spec.assigned room tokens.old) result tokens.new }
{
    let equals = tokens.mark(alloc, b"=")?;
    let value = boxed(alloc, tokens, room)?;
    Ok(VAssigned { equals, value })
}

/// `["=" expr]`
fn any_assigned(
    alloc: Global,
    tokens: &mut Cursor<'_>,
    room: usize,
) -> Result<Option<VAssigned>, Stop>
    ensures { Reads (optional (is_mark (codes "=")) (spec.assigned room) tokens.old) result tokens.new }
{
    if !tokens.sees_mark(b"=") {
        return Ok(None);
    }
    Ok(Some(assigned(alloc, tokens, room)?))
}

/// `NAME ["=" expr]`
#[tactic(auto, unfolding(vlog_tree::specs::ReadModules::net))]
pub fn net(alloc: Global, tokens: &mut Cursor<'_>, room: usize) -> Result<VNet, Stop>
    ensures { Reads (spec.net room tokens.old) result tokens.new }
{
    let name = tokens.name(alloc)?;
    let value = any_assigned(alloc, tokens, room)?;
    Ok(VNet { name, value })
}

/// `"," NAME ["=" expr]`
#[tactic(auto, unfolding(vlog_tree::specs::ReadModules::next_net))]
fn next_net(alloc: Global, tokens: &mut Cursor<'_>, room: usize) -> Result<VNextNet, Stop>
    ensures { Reads (spec.next_net room tokens.old) result tokens.new }
{
    let comma = tokens.mark(alloc, b",")?;
    let net = net(alloc, tokens, room)?;
    Ok(VNextNet { comma, net })
}

/// `{"," NAME ["=" expr]}`
#[tactic(auto, using(parsing::proofs::Turns::many_start, parsing::proofs::Turns::many_ends, parsing::proofs::Turns::many_over, parsing::proofs::Turns::many_turns, parsing::proofs::Turns::many_fails))]
pub fn next_nets(
    alloc: Global,
    tokens: &mut Cursor<'_>,
    room: usize,
) -> Result<Items<VNextNet>, Stop>
    ensures { Reads (many (is_mark (codes ",")) (spec.next_net room) tokens.old) result tokens.new }
{
    let mut found = Items::new(alloc);
    for _turn in 0..tokens.len() {
        if !tokens.sees_mark(b",") {
            return Ok(found);
        }
        found.push(next_net(alloc, tokens, room)?)?;
    }
    Ok(found)
}

/// `NAME "=" expr`
#[tactic(auto, unfolding(vlog_tree::specs::ReadModules::constant))]
pub fn constant(alloc: Global, tokens: &mut Cursor<'_>, room: usize) -> Result<VConstant, Stop>
    ensures { Reads (spec.constant room tokens.old) result tokens.new }
{
    let name = tokens.name(alloc)?;
    let equals = tokens.mark(alloc, b"=")?;
    let value = boxed(alloc, tokens, room)?;
    Ok(VConstant {
        name,
        equals,
        value,
    })
}

/// `"," NAME "=" expr`
#[tactic(auto, unfolding(vlog_tree::specs::ReadModules::next_constant))]
fn next_constant(alloc: Global, tokens: &mut Cursor<'_>, room: usize) -> Result<VNextConstant, Stop>
    ensures { Reads (spec.next_constant room tokens.old) result tokens.new }
{
    let comma = tokens.mark(alloc, b",")?;
    let constant = constant(alloc, tokens, room)?;
    Ok(VNextConstant { comma, constant })
}

/// `{"," NAME "=" expr}`
#[tactic(auto, using(parsing::proofs::Turns::many_start, parsing::proofs::Turns::many_ends, parsing::proofs::Turns::many_over, parsing::proofs::Turns::many_turns, parsing::proofs::Turns::many_fails))]
pub fn next_constants(
    alloc: Global,
    tokens: &mut Cursor<'_>,
    room: usize,
) -> Result<Items<VNextConstant>, Stop>
    ensures { Reads (many (is_mark (codes ",")) (spec.next_constant room) tokens.old) result tokens.new }
{
    let mut found = Items::new(alloc);
    for _turn in 0..tokens.len() {
        if !tokens.sees_mark(b",") {
            return Ok(found);
        }
        found.push(next_constant(alloc, tokens, room)?)?;
    }
    Ok(found)
}

/// `lval "=" expr`
#[tactic(auto, unfolding(vlog_tree::specs::ReadModules::driver))]
pub fn driver(alloc: Global, tokens: &mut Cursor<'_>, room: usize) -> Result<VDriver, Stop>
    ensures { Reads (spec.driver room tokens.old) result tokens.new }
{
    let left = boxed_left(alloc, tokens, room)?;
    let equals = tokens.mark(alloc, b"=")?;
    let value = boxed(alloc, tokens, room)?;
    Ok(VDriver {
        left,
        equals,
        value,
    })
}

/// `"," lval "=" expr`
#[tactic(auto, unfolding(vlog_tree::specs::ReadModules::next_driver))]
fn next_driver(alloc: Global, tokens: &mut Cursor<'_>, room: usize) -> Result<VNextDriver, Stop>
    ensures { Reads (spec.next_driver room tokens.old) result tokens.new }
{
    let comma = tokens.mark(alloc, b",")?;
    let driver = driver(alloc, tokens, room)?;
    Ok(VNextDriver { comma, driver })
}

/// `{"," lval "=" expr}`
#[tactic(auto, using(parsing::proofs::Turns::many_start, parsing::proofs::Turns::many_ends, parsing::proofs::Turns::many_over, parsing::proofs::Turns::many_turns, parsing::proofs::Turns::many_fails))]
pub fn next_drivers(
    alloc: Global,
    tokens: &mut Cursor<'_>,
    room: usize,
) -> Result<Items<VNextDriver>, Stop>
    ensures { Reads (many (is_mark (codes ",")) (spec.next_driver room) tokens.old) result tokens.new }
{
    let mut found = Items::new(alloc);
    for _turn in 0..tokens.len() {
        if !tokens.sees_mark(b",") {
            return Ok(found);
        }
        found.push(next_driver(alloc, tokens, room)?)?;
    }
    Ok(found)
}

/// `"," NAME`
#[tactic(auto, unfolding(vlog_tree::specs::ReadModules::next_name))]
fn next_name(alloc: Global, tokens: &mut Cursor<'_>) -> Result<VNextName, Stop>
    ensures { Reads (spec.next_name tokens.old) result tokens.new }
{
    let comma = tokens.mark(alloc, b",")?;
    let name = tokens.name(alloc)?;
    Ok(VNextName { comma, name })
}

/// `{"," NAME}`
#[tactic(auto, using(parsing::proofs::Turns::many_start, parsing::proofs::Turns::many_ends, parsing::proofs::Turns::many_over, parsing::proofs::Turns::many_turns, parsing::proofs::Turns::many_fails))]
pub fn next_names(alloc: Global, tokens: &mut Cursor<'_>) -> Result<Items<VNextName>, Stop>
    ensures { Reads (many (is_mark (codes ",")) spec.next_name tokens.old) result tokens.new }
{
    let mut found = Items::new(alloc);
    for _turn in 0..tokens.len() {
        if !tokens.sees_mark(b",") {
            return Ok(found);
        }
        found.push(next_name(alloc, tokens)?)?;
    }
    Ok(found)
}

/// `["parameter"]`
fn any_parameter(alloc: Global, tokens: &mut Cursor<'_>) -> Result<Option<VToken>, Stop>
    ensures { Reads (optional (is_word (codes "parameter")) (word (codes "parameter")) tokens.old) result tokens.new }
{
    if !tokens.sees_word(b"parameter") {
        return Ok(None);
    }
    Ok(Some(tokens.word(alloc, b"parameter")?))
}

/// `["parameter"] type NAME "=" expr`
#[tactic(auto, unfolding(vlog_tree::specs::ReadModules::pdec))]
fn pdec(alloc: Global, tokens: &mut Cursor<'_>, room: usize) -> Result<VPdec, Stop>
    ensures { Reads (spec.pdec room tokens.old) result tokens.new }
{
    let word = any_parameter(alloc, tokens)?;
    let shape = Boxed::new(alloc, shape(alloc, tokens, room)?)?;
    let constant = constant(alloc, tokens, room)?;
    Ok(VPdec {
        word,
        shape: shape.into_inner(),
        constant,
    })
}

/// `"," pdec`
#[tactic(auto, unfolding(vlog_tree::specs::ReadModules::next_pdec))]
fn next_pdec(alloc: Global, tokens: &mut Cursor<'_>, room: usize) -> Result<VNextPdec, Stop>
    ensures { Reads (spec.next_pdec room tokens.old) result tokens.new }
{
    let comma = tokens.mark(alloc, b",")?;
    let pdec = pdec(alloc, tokens, room)?;
    Ok(VNextPdec { comma, pdec })
}

/// `{"," pdec}`
#[tactic(auto, using(parsing::proofs::Turns::many_start, parsing::proofs::Turns::many_ends, parsing::proofs::Turns::many_over, parsing::proofs::Turns::many_turns, parsing::proofs::Turns::many_fails))]
fn next_pdecs(alloc: Global, tokens: &mut Cursor<'_>, room: usize) -> Result<Items<VNextPdec>, Stop>
    ensures { Reads (many (is_mark (codes ",")) (spec.next_pdec room) tokens.old) result tokens.new }
{
    let mut found = Items::new(alloc);
    for _turn in 0..tokens.len() {
        if !tokens.sees_mark(b",") {
            return Ok(found);
        }
        found.push(next_pdec(alloc, tokens, room)?)?;
    }
    Ok(found)
}

/// `"#" "(" pdec {"," pdec} ")"`
#[tactic(auto, unfolding(vlog_tree::specs::ReadModules::pdecs))]
fn pdecs(alloc: Global, tokens: &mut Cursor<'_>, room: usize) -> Result<VPdecs, Stop>
    ensures { Reads (spec.pdecs room tokens.old) result tokens.new }
{
    let hash = tokens.mark(alloc, b"#")?;
    let open = tokens.mark(alloc, b"(")?;
    let first = Boxed::new(alloc, pdec(alloc, tokens, room)?)?;
    let more = next_pdecs(alloc, tokens, room)?;
    let close = tokens.mark(alloc, b")")?;
    Ok(VPdecs {
        hash,
        open,
        first: first.into_inner(),
        more,
        close,
    })
}

/// `["#" "(" pdec {"," pdec} ")"]`
pub fn any_pdecs(
    alloc: Global,
    tokens: &mut Cursor<'_>,
    room: usize,
) -> Result<Option<VPdecs>, Stop>
    ensures { Reads (optional (is_mark (codes "#")) (spec.pdecs room) tokens.old) result tokens.new }
{
    if !tokens.sees_mark(b"#") {
        return Ok(None);
    }
    Ok(Some(pdecs(alloc, tokens, room)?))
}

/// `wire` or `reg`.
#[tactic(auto, unfolding(vlog_tree::specs::ReadModules::is_net_kind))]
pub fn sees_net_kind(tokens: &Cursor<'_>) -> bool
    ensures { result ≡ sees spec.is_net_kind tokens.now }
{
    tokens.sees_word(b"wire") || tokens.sees_word(b"reg")
}

/// `input` or `output`.
#[tactic(auto, unfolding(vlog_tree::specs::ReadModules::is_dir))]
pub fn sees_dir(tokens: &Cursor<'_>) -> bool
    ensures { result ≡ sees spec.is_dir tokens.now }
{
    tokens.sees_word(b"input") || tokens.sees_word(b"output")
}

/// A token that the ports of a module begin with.
#[tactic(auto, unfolding(vlog_tree::specs::ReadModules::begins_ports))]
fn sees_ports(tokens: &Cursor<'_>) -> bool
    ensures { result ≡ sees spec.begins_ports tokens.now }
{
    tokens.sees_name() || sees_dir(tokens)
}

/// A token that connections begin with.
#[tactic(auto, unfolding(vlog_tree::specs::ReadModules::begins_conns))]
fn sees_conns(tokens: &Cursor<'_>) -> bool
    ensures { result ≡ sees spec.begins_conns tokens.now }
{
    tokens.sees_expr() || tokens.sees_mark(b".")
}

/// `["wire" | "reg"]`
fn any_kind(alloc: Global, tokens: &mut Cursor<'_>) -> Result<Option<VKind>, Stop>
    ensures { Reads (optional spec.is_net_kind spec.kind tokens.old) result tokens.new }
{
    if !sees_net_kind(tokens) {
        return Ok(None);
    }
    Ok(Some(kind(alloc, tokens)?))
}

/// `dir [kind] type`
#[tactic(auto, unfolding(vlog_tree::specs::ReadModules::port_head))]
pub fn port_head(alloc: Global, tokens: &mut Cursor<'_>, room: usize) -> Result<VPortHead, Stop>
    ensures { Reads (spec.port_head room tokens.old) result tokens.new }
{
    let dir = dir(alloc, tokens)?;
    let kind = any_kind(alloc, tokens)?;
    let shape = shape(alloc, tokens, room)?;
    Ok(VPortHead { dir, kind, shape })
}

/// `[dir [kind] type]`
fn any_head(alloc: Global, tokens: &mut Cursor<'_>, room: usize) -> Result<Option<VPortHead>, Stop>
    ensures { Reads (optional spec.is_dir (spec.port_head room) tokens.old) result tokens.new }
{
    if !sees_dir(tokens) {
        return Ok(None);
    }
    Ok(Some(port_head(alloc, tokens, room)?))
}

/// `"," [dir [kind] type] NAME`
#[tactic(auto, unfolding(vlog_tree::specs::ReadModules::next_port))]
fn next_port(alloc: Global, tokens: &mut Cursor<'_>, room: usize) -> Result<VNextPort, Stop>
    ensures { Reads (spec.next_port room tokens.old) result tokens.new }
{
    let comma = tokens.mark(alloc, b",")?;
    let head = Boxed::new(alloc, any_head(alloc, tokens, room)?)?;
    let name = tokens.name(alloc)?;
    Ok(VNextPort {
        comma,
        head: head.into_inner(),
        name,
    })
}

/// `{"," [dir [kind] type] NAME}`
#[tactic(auto, using(parsing::proofs::Turns::many_start, parsing::proofs::Turns::many_ends, parsing::proofs::Turns::many_over, parsing::proofs::Turns::many_turns, parsing::proofs::Turns::many_fails))]
fn next_ports(alloc: Global, tokens: &mut Cursor<'_>, room: usize) -> Result<Items<VNextPort>, Stop>
    ensures { Reads (many (is_mark (codes ",")) (spec.next_port room) tokens.old) result tokens.new }
{
    let mut found = Items::new(alloc);
    for _turn in 0..tokens.len() {
        if !tokens.sees_mark(b",") {
            return Ok(found);
        }
        found.push(next_port(alloc, tokens, room)?)?;
    }
    Ok(found)
}

/// `NAME {"," NAME} | dir [kind] type NAME {"," [dir [kind] type] NAME}`
#[tactic(auto, unfolding(vlog_tree::specs::ReadModules::ports))]
fn ports(alloc: Global, tokens: &mut Cursor<'_>, room: usize) -> Result<VPorts, Stop>
    ensures { Reads (spec.ports room tokens.old) result tokens.new }
{
    if tokens.sees_name() {
        let first = tokens.name(alloc)?;
        let more = next_names(alloc, tokens)?;
        return Ok(VPorts::Names(first, more));
    }
    let head = Boxed::new(alloc, port_head(alloc, tokens, room)?)?;
    let first = tokens.name(alloc)?;
    let more = next_ports(alloc, tokens, room)?;
    Ok(VPorts::Declared(head.into_inner(), first, more))
}

/// `[ports]`
fn any_ports(alloc: Global, tokens: &mut Cursor<'_>, room: usize) -> Result<Option<VPorts>, Stop>
    ensures { Reads (optional spec.begins_ports (spec.ports room) tokens.old) result tokens.new }
{
    if !sees_ports(tokens) {
        return Ok(None);
    }
    Ok(Some(ports(alloc, tokens, room)?))
}

/// `"(" [ports] ")"`
#[tactic(auto, unfolding(vlog_tree::specs::ReadModules::port_list))]
fn port_list(alloc: Global, tokens: &mut Cursor<'_>, room: usize) -> Result<VPortList, Stop>
    ensures { Reads (spec.port_list room tokens.old) result tokens.new }
{
    let open = tokens.mark(alloc, b"(")?;
    let ports = Boxed::new(alloc, any_ports(alloc, tokens, room)?)?;
    let close = tokens.mark(alloc, b")")?;
    Ok(VPortList {
        open,
        ports: ports.into_inner(),
        close,
    })
}

/// `["(" [ports] ")"]`
pub fn any_port_list(
    alloc: Global,
    tokens: &mut Cursor<'_>,
    room: usize,
) -> Result<Option<VPortList>, Stop>
    ensures { Reads (optional (is_mark (codes "(")) (spec.port_list room) tokens.old) result tokens.new }
{
    if !tokens.sees_mark(b"(") {
        return Ok(None);
    }
    Ok(Some(port_list(alloc, tokens, room)?))
}

/// `[expr]`
fn any_expr(alloc: Global, tokens: &mut Cursor<'_>, room: usize) -> Result<Option<VExpr>, Stop>
    ensures { Reads (optional begins_expr (expr room) tokens.old) result tokens.new }
{
    if !tokens.sees_expr() {
        return Ok(None);
    }
    Ok(Some(expression(alloc, tokens, room)?))
}

/// `"." NAME "(" [expr] ")"`
#[tactic(auto, unfolding(vlog_tree::specs::ReadModules::conn))]
fn conn(alloc: Global, tokens: &mut Cursor<'_>, room: usize) -> Result<VConn, Stop>
    ensures { Reads (spec.conn room tokens.old) result tokens.new }
{
    let dot = tokens.mark(alloc, b".")?;
    let name = tokens.name(alloc)?;
    let open = tokens.mark(alloc, b"(")?;
    let value = Boxed::new(alloc, any_expr(alloc, tokens, room)?)?;
    let close = tokens.mark(alloc, b")")?;
    Ok(VConn {
        dot,
        name,
        open,
        value: value.into_inner(),
        close,
    })
}

/// `"," "." NAME "(" [expr] ")"`
#[tactic(auto, unfolding(vlog_tree::specs::ReadModules::next_conn))]
fn next_conn(alloc: Global, tokens: &mut Cursor<'_>, room: usize) -> Result<VNextConn, Stop>
    ensures { Reads (spec.next_conn room tokens.old) result tokens.new }
{
    let comma = tokens.mark(alloc, b",")?;
    let conn = conn(alloc, tokens, room)?;
    Ok(VNextConn { comma, conn })
}

/// `{"," "." NAME "(" [expr] ")"}`
#[tactic(auto, using(parsing::proofs::Turns::many_start, parsing::proofs::Turns::many_ends, parsing::proofs::Turns::many_over, parsing::proofs::Turns::many_turns, parsing::proofs::Turns::many_fails))]
fn next_conns(alloc: Global, tokens: &mut Cursor<'_>, room: usize) -> Result<Items<VNextConn>, Stop>
    ensures { Reads (many (is_mark (codes ",")) (spec.next_conn room) tokens.old) result tokens.new }
{
    let mut found = Items::new(alloc);
    for _turn in 0..tokens.len() {
        if !tokens.sees_mark(b",") {
            return Ok(found);
        }
        found.push(next_conn(alloc, tokens, room)?)?;
    }
    Ok(found)
}

/// `expr {"," expr} | "." NAME "(" [expr] ")" {"," "." NAME "(" [expr] ")"}`
#[tactic(auto, unfolding(vlog_tree::specs::ReadModules::conns))]
fn conns(alloc: Global, tokens: &mut Cursor<'_>, room: usize) -> Result<VConns, Stop>
    ensures { Reads (spec.conns room tokens.old) result tokens.new }
{
    if tokens.sees_expr() {
        let first = boxed(alloc, tokens, room)?;
        let more = next_exprs(alloc, tokens, room)?;
        return Ok(VConns::Ordered(first.into_inner(), more));
    }
    let first = Boxed::new(alloc, conn(alloc, tokens, room)?)?;
    let more = next_conns(alloc, tokens, room)?;
    Ok(VConns::Named(first.into_inner(), more))
}

/// `[conns]`
fn any_conns(
    alloc: Global,
    tokens: &mut Cursor<'_>,
    room: usize,
) -> Result<Option<Boxed<VConns>>, Stop>
    ensures { Reads (optional spec.begins_conns (spec.conns room) tokens.old) result tokens.new }
{
    if !sees_conns(tokens) {
        return Ok(None);
    }
    Ok(Some(Boxed::new(alloc, conns(alloc, tokens, room)?)?))
}

/// `"#" "(" conns ")"`
#[tactic(auto, unfolding(vlog_tree::specs::ReadModules::overrides))]
fn overrides(alloc: Global, tokens: &mut Cursor<'_>, room: usize) -> Result<VOverrides, Stop>
    ensures { Reads (spec.overrides room tokens.old) result tokens.new }
{
    let hash = tokens.mark(alloc, b"#")?;
    let open = tokens.mark(alloc, b"(")?;
    let conns = Boxed::new(alloc, conns(alloc, tokens, room)?)?;
    let close = tokens.mark(alloc, b")")?;
    Ok(VOverrides {
        hash,
        open,
        conns: conns.into_inner(),
        close,
    })
}

/// `["#" "(" conns ")"]`
fn any_overrides(
    alloc: Global,
    tokens: &mut Cursor<'_>,
    room: usize,
) -> Result<Option<Boxed<VOverrides>>, Stop>
    ensures { Reads (optional (is_mark (codes "#")) (spec.overrides room) tokens.old) result tokens.new }
{
    if !tokens.sees_mark(b"#") {
        return Ok(None);
    }
    Ok(Some(Boxed::new(alloc, overrides(alloc, tokens, room)?)?))
}

/// What stands behind the name of an instance.
type InstanceEnd = (VToken, (Option<Boxed<VConns>>, (VToken, VToken)));

/// `"(" [conns] ")" ";"`
fn instance_end(alloc: Global, tokens: &mut Cursor<'_>, room: usize) -> Result<InstanceEnd, Stop>
    ensures { Reads (seq (mark (codes "(")) (λ _. seq (optional spec.begins_conns (spec.conns room)) (λ _. seq (mark (codes ")")) (λ _. mark (codes ";")))) tokens.old) result tokens.new }
{
    let open = tokens.mark(alloc, b"(")?;
    let conns = any_conns(alloc, tokens, room)?;
    let close = tokens.mark(alloc, b")")?;
    let semi = tokens.mark(alloc, b";")?;
    Ok((open, (conns, (close, semi))))
}

/// `NAME ["#" "(" conns ")"] NAME "(" [conns] ")" ";"`
#[tactic(auto, unfolding(vlog_tree::specs::ReadModules::instance))]
pub fn instance(alloc: Global, tokens: &mut Cursor<'_>, room: usize) -> Result<VInstance, Stop>
    ensures { Reads (spec.instance room tokens.old) result tokens.new }
{
    let module_name = tokens.name(alloc)?;
    let overrides = any_overrides(alloc, tokens, room)?;
    let name = tokens.name(alloc)?;
    let (open, (conns, (close, semi))) = instance_end(alloc, tokens, room)?;
    Ok(VInstance {
        module_name,
        overrides,
        name,
        open,
        conns,
        close,
        semi,
    })
}

/// The test and the step of a loop.
type ForEnd = (Boxed<VExpr>, (VToken, (Boxed<VConstant>, VToken)));

/// `expr ";" NAME "=" expr ")"`
fn for_end(alloc: Global, tokens: &mut Cursor<'_>, room: usize) -> Result<ForEnd, Stop>
    ensures { Reads (seq (expr room) (λ _. seq (mark (codes ";")) (λ _. seq (spec.constant room) (λ _. mark (codes ")")))) tokens.old) result tokens.new }
{
    let test = boxed(alloc, tokens, room)?;
    let semi = tokens.mark(alloc, b";")?;
    let step = Boxed::new(alloc, constant(alloc, tokens, room)?)?;
    let close = tokens.mark(alloc, b")")?;
    Ok((test, (semi, (step, close))))
}

/// `"for" "(" NAME "=" expr ";" expr ";" NAME "=" expr ")"`
#[tactic(auto, unfolding(vlog_tree::specs::ReadModules::for_head))]
pub fn for_head(alloc: Global, tokens: &mut Cursor<'_>, room: usize) -> Result<VForHead, Stop>
    ensures { Reads (spec.for_head room tokens.old) result tokens.new }
{
    let word = tokens.word(alloc, b"for")?;
    let open = tokens.mark(alloc, b"(")?;
    let start = Boxed::new(alloc, constant(alloc, tokens, room)?)?;
    let first_semi = tokens.mark(alloc, b";")?;
    let (test, (second_semi, (step, close))) = for_end(alloc, tokens, room)?;
    Ok(VForHead {
        word,
        open,
        start,
        first_semi,
        test,
        second_semi,
        step,
        close,
    })
}
