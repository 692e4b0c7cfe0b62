//! The laws of orders, as functions that do nothing: each one's contract is the law.

ghost use Rattle.flat_orders.specs.Settled.{OrderSettles, OneSettles, SettlesAlike};
ghost use Rattle.flat_orders.specs.Cycles.{OrderExcludesCycle, ClosedExcludesCycle, OneMore, ClosedIsOrder};

/// A design without latches whose items can be ordered has exactly one settled valuation over each base: that which the items give, each
/// run once in this order. Two orders give the same.
pub fn one_valuation_settles()
    ensures order_settles { OrderSettles }
    ensures one_settles { OneSettles }
    ensures settles_alike { SettlesAlike }
{}

/// What excludes a cycle of items, and how an order is made: an order excludes every cycle, a closed set those that begin at an item,
/// and an order grows by an item whose drivers it has.
pub fn cycles_and_orders()
    ensures order_excludes_cycle { OrderExcludesCycle }
    ensures closed_excludes_cycle { ClosedExcludesCycle }
    ensures one_more { OneMore }
    ensures closed_is_order { ClosedIsOrder }
{}
