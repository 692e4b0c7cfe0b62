//! Which event of a process is its clock, and which its reset.

ghost use Rattle.std.specs.Prelude.{◌≡◌, ◌∷◌, [], map};
ghost use Rattle.flat_clocks.specs.Roles as spec;

use flat_design::expr::FlatExpr;
use flat_design::item::{FlatEdge, FlatEvent, FlatItem};
use flat_design::stmt::FlatStmt;
use flat_ties::shape::{inverted_net, whole_net};

/// The clock and the asynchronous reset among the events of a process, as far as they can be told.
#[derive(Clone, Copy, Debug, PartialEq, Eq, Drop)]
pub struct Roles {
    pub clock: Option<FlatEvent>,
    pub reset: Option<FlatEvent>,
}

/// Whether a net that was found is this one.
fn is_net(net: u32, found: Option<u32>) -> bool
    ensures { result ≡ spec.is_net net found }
{
    match found {
        None => false,
        Some(other) => other == net,
    }
}

/// Whether an expression tests an event.
fn tests(event: FlatEvent, test: &FlatExpr) -> bool
    ensures { result ≡ spec.tests_edge event.edge event.net test.now }
{
    match event.edge {
        FlatEdge::Rising => is_net(event.net, whole_net(test)),
        FlatEdge::Falling => is_net(event.net, inverted_net(test)),
        FlatEdge::Either => false,
    }
}

/// Whether the outermost `if` of a block's only statement tests an event.
#[cycle(outermost)]
fn only_tests(body: &[FlatStmt], event: FlatEvent) -> bool
    ensures { result ≡ spec.only_test (map spec.outermost_tests body.now) event }
{
    let [only] = body else {
        return false;
    };
    outermost_tests(only, event)
}

/// Whether the outermost `if` of a body tests an event: the body is that `if`, or a block that has it alone.
#[cycle(outermost)]
fn outermost_tests(body: &FlatStmt, event: FlatEvent) -> bool
    ensures { result ≡ spec.outermost_tests body.now event }
{
    match body {
        FlatStmt::Block(body) => {
            let body = body.as_slice();
            only_tests(body, event)
        }
        FlatStmt::If {
            test,
            yes: _,
            no: _,
        } => tests(event, test),
        _ => false,
    }
}

/// The roles of two events.
fn roles_of_two(first: FlatEvent, second: FlatEvent, body: &FlatStmt) -> Roles
    ensures { result ≡ spec.roles_of (first ∷ second ∷ []) body.now }
{
    if outermost_tests(body, first) {
        return Roles {
            clock: Some(second),
            reset: Some(first),
        };
    }
    if outermost_tests(body, second) {
        return Roles {
            clock: Some(first),
            reset: Some(second),
        };
    }
    Roles {
        clock: None,
        reset: None,
    }
}

/// The roles of the events of a process.
fn roles_of(events: &[FlatEvent], body: &FlatStmt) -> Roles
    ensures { result ≡ spec.roles_of events.now body.now }
{
    match events {
        [only] => Roles {
            clock: Some(*only),
            reset: None,
        },
        [first, second] => roles_of_two(*first, *second, body),
        _ => Roles {
            clock: None,
            reset: None,
        },
    }
}

/// The roles of the events of an item; none where no clock starts it.
pub fn item_roles(item: &FlatItem) -> Roles
    ensures { result ≡ spec.item_roles item.now }
{
    match item {
        FlatItem::Clocked {
            place: _,
            targets: _,
            events,
            body,
        } => roles_of(events.as_slice(), body),
        FlatItem::Comb {
            place: _,
            targets: _,
            body: _,
        } => Roles {
            clock: None,
            reset: None,
        },
        FlatItem::Assign {
            place: _,
            targets: _,
            left: _,
            value: _,
            connection: _,
        } => Roles {
            clock: None,
            reset: None,
        },
    }
}
