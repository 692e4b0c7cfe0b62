//! Expressions that are the whole of a net, or the inversion of one.

ghost use Rattle.std.specs.Prelude.{◌≡◌, None, if◌then◌else◌};
ghost use Rattle.flat_ties.specs.Shapes as spec;

use flat_design::expr::{FlatExpr, FlatNode, FlatUnary};

/// The net that an expression is the whole of.
pub fn whole_net(e: &FlatExpr) -> Option<u32>
    ensures { result ≡ spec.whole_net e.now }
{
    match &e.node {
        FlatNode::Net(net) => Some(*net),
        _ => None,
    }
}

fn is_inversion(op: FlatUnary) -> bool
    ensures { result ≡ spec.is_inversion op }
{
    match op {
        FlatUnary::LogicalNot | FlatUnary::Not => true,
        _ => false,
    }
}

/// The net that an operand is the whole of, if the operator before it inverts.
fn inverted(op: FlatUnary, arg: &FlatExpr) -> Option<u32>
    ensures { result ≡ (if spec.is_inversion op then spec.whole_net arg.now else None) }
{
    if is_inversion(op) {
        whole_net(arg)
    } else {
        None
    }
}

/// The net that an expression inverts the whole of, by `!` or `~`.
pub fn inverted_net(e: &FlatExpr) -> Option<u32>
    ensures { result ≡ spec.inverted_net e.now }
{
    match &e.node {
        FlatNode::Unary { op, arg } => inverted(*op, arg.get()),
        _ => None,
    }
}
