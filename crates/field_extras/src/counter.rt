//! The step of a counter.

ghost use Rattle.std.specs.Prelude.{◌≡◌, false, if◌then◌else◌, ◌≤◌, ◌<◌, ◌-◌, ◌^◌, pos, neg_ℤ, ◌+ℤ◌, ◌≤ℤ◌};
ghost use Rattle.field_extras.specs.Counters.{count, held, counted};

use field_policies::extra::Counter;

/// What one edge makes of a counter: its next value, whether the count passed the greatest value,
/// and whether it fell below 0.
#[derive(Clone, Copy, Debug, PartialEq, Eq, Drop)]
pub struct Counted {
    pub value: u32,
    pub over: bool,
    pub under: bool,
}

/// The step of a counter of `width` bits, 1 to 32, with this value before the edge, where `incr`
/// says that it counts up and `decr` that it counts down.
pub fn count_next(counter: &Counter, width: u32, value: u32, incr: bool, decr: bool) -> Counted
    requires width_from { 1 ≤ width }
    requires width_to { width ≤ 32 }
    requires value { value < 2 ^ width }
    requires up { counter.now.up < 2 ^ width }
    requires down { counter.now.down < 2 ^ width }
    ensures exact { result ≡ counted counter.now width value incr decr }
    ensures in_range { result.value < 2 ^ width }
    // where it stops at neither end, it goes round whole
    ensures round { counter.now.up_stops ≡ false → counter.now.down_stops ≡ false
        → (pos result.value +ℤ pos (if result.over then 2 ^ width else 0))
        ≡ (count counter.now value incr decr +ℤ pos (if result.under then 2 ^ width else 0)) }
{
    let top = top_of(width);
    let sum = sum_of(counter, value, incr, decr);
    let next = kept(counter, top, sum);
    Counted {
        value: next as u32,
        over: sum > top,
        under: sum < 0,
    }
}

// The greatest value of so many bits.
fn top_of(width: u32) -> i64
    requires { width ≤ 32 }
    ensures value { result ≡ pos (2 ^ width - 1) }
    ensures bound { 2 ^ width ≤ 4294967296 }
{
    (1_i64 << width) - 1
}

// The value with what it counts up and down.
fn sum_of(counter: &Counter, value: u32, incr: bool, decr: bool) -> i64
    ensures { result ≡ count counter.now value incr decr }
{
    let up = if incr { i64::from(counter.up) } else { 0 };
    let down = if decr { i64::from(counter.down) } else { 0 };
    i64::from(value) + up - down
}

// The next value for this sum, where none is more than one round away.
fn kept(counter: &Counter, top: i64, sum: i64) -> i64
    requires top_from { pos 0 ≤ℤ top }
    requires top_to { top ≤ℤ pos 4294967295 }
    requires from { neg_ℤ top ≤ℤ sum }
    requires to { sum ≤ℤ (top +ℤ top) }
    ensures exact { result ≡ held counter.now top sum }
    ensures from { pos 0 ≤ℤ result }
    ensures to { result ≤ℤ top }
{
    if sum > top {
        if counter.up_stops { top } else { sum - top - 1 }
    } else if sum < 0 {
        if counter.down_stops { 0 } else { sum + top + 1 }
    } else {
        sum
    }
}
