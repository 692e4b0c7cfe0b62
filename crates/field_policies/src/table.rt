//! The table of the policies, and what each name does.

ghost use Rattle.std.specs.Prelude.{◌≡◌, ◌<◌, ◌≤◌, ◌^◌, ◌↔◌, Some, IsNone, IsTrue, slice_get};
ghost use Rattle.field_policies.specs.Bits.{bit, AreBitsOf};
ghost use Rattle.field_policies.specs.Policies.{HasPolicy, HasRow, NamesDiffer, after_read_bit, all_rows, row_of, written_bit};

use crate::effect::{read_result, write_result};
use crate::field::Field;
use crate::policy::{Policy, PolicyRow, ReadEffect, WriteEffect};

// A row: the policy, what software may do, and the effects of a write and of a read.
macro_rules! policy_row {
    ($policy:ident, read_only, $write:ident, $read:ident) => {
        policy_row!($policy, true false false, $write, $read)
    };
    ($policy:ident, read_write, $write:ident, $read:ident) => {
        policy_row!($policy, true true false, $write, $read)
    };
    ($policy:ident, write_only, $write:ident, $read:ident) => {
        policy_row!($policy, false true false, $write, $read)
    };
    ($policy:ident, read_write_once, $write:ident, $read:ident) => {
        policy_row!($policy, true true true, $write, $read)
    };
    ($policy:ident, write_once, $write:ident, $read:ident) => {
        policy_row!($policy, false true true, $write, $read)
    };
    ($policy:ident, $readable:literal $writable:literal $once:literal, $write:ident, $read:ident) => {
        PolicyRow {
            policy: Policy::$policy,
            readable: $readable,
            writable: $writable,
            once: $once,
            read: ReadEffect::$read,
            write: WriteEffect::$write,
        }
    };
}

/// How many policies have a name.
pub const POLICIES: usize = 25;

/// A table of `N` rows.
#[derive(Clone, Copy, Debug, Drop)]
pub struct CaseTable<const N: usize> {
    pub rows: [PolicyRow; N],
}

impl<const N: usize> CaseTable<N> {
    /// Row `i`, counted from 0.
    pub fn row(&self, i: usize) -> PolicyRow
        requires { i < N }
        ensures { slice_get self.now.rows i ≡ Some result }
    {
        self.rows[i]
    }
}

/// The table of the 25 policies, each once.
pub fn policy_table() -> CaseTable<POLICIES>
    ensures { result.rows ≡ all_rows }
{
    CaseTable {
        rows: [
            policy_row!(RO, read_only, AsIs, Keep),
            policy_row!(RC, read_only, AsIs, Clear),
            policy_row!(RS, read_only, AsIs, Set),
            policy_row!(RW, read_write, AsIs, Keep),
            policy_row!(WRC, read_write, AsIs, Clear),
            policy_row!(WRS, read_write, AsIs, Set),
            policy_row!(WC, read_write, Clear, Keep),
            policy_row!(WCRS, read_write, Clear, Set),
            policy_row!(WS, read_write, Set, Keep),
            policy_row!(WSRC, read_write, Set, Clear),
            policy_row!(W1C, read_write, OneClear, Keep),
            policy_row!(W1CRS, read_write, OneClear, Set),
            policy_row!(W1S, read_write, OneSet, Keep),
            policy_row!(W1SRC, read_write, OneSet, Clear),
            policy_row!(W1T, read_write, OneToggle, Keep),
            policy_row!(W0C, read_write, ZeroClear, Keep),
            policy_row!(W0CRS, read_write, ZeroClear, Set),
            policy_row!(W0S, read_write, ZeroSet, Keep),
            policy_row!(W0SRC, read_write, ZeroSet, Clear),
            policy_row!(W0T, read_write, ZeroToggle, Keep),
            policy_row!(W1, read_write_once, AsIs, Keep),
            policy_row!(WO, write_only, AsIs, Keep),
            policy_row!(WOC, write_only, Clear, Keep),
            policy_row!(WOS, write_only, Set, Keep),
            policy_row!(WO1, write_once, AsIs, Keep),
        ],
    }
}

// The row of a policy: the table has them in the order of the names.
fn row_of(policy: Policy) -> PolicyRow
    ensures { result ≡ row_of policy }
{
    policy_table().row(policy as usize)
}

/// The value of a field of `width` bits, 1 to 32, after a write of `payload` under the policy. One
/// that software can't write stays; W1 and WO1 give the first write's effect.
pub fn written(policy: Policy, width: u32, value: u32, payload: u32) -> u32
    requires some { 1 ≤ width }
    requires word { width ≤ 32 }
    requires value { value < 2 ^ width }
    requires payload { payload < 2 ^ width }
    ensures { AreBitsOf width (λ i. written_bit policy (bit value i) (bit payload i)) result }
{
    let row = row_of(policy);
    if row.writable {
        write_result(row.write, width, value, payload)
    } else {
        value
    }
}

/// The value of a field of `width` bits, 1 to 32, after a read under the policy.
pub fn after_read(policy: Policy, width: u32, value: u32) -> u32
    requires some { 1 ≤ width }
    requires word { width ≤ 32 }
    requires value { value < 2 ^ width }
    ensures { AreBitsOf width (λ i. after_read_bit policy (bit value i)) result }
{
    read_result(row_of(policy).read, width, value)
}

/// The name of the field's policy, where its accesses and effects have one.
pub fn policy_of(field: &Field) -> Option<Policy>
    ensures named { (p : Policy) → (result ≡ Some p) ↔ HasPolicy field.now p }
    ensures unnamed { IsNone result ↔ ((p : Policy) → ¬ HasPolicy field.now p) }
{
    let table = policy_table();
    for i in 0..POLICIES {
        let row = table.row(i);
        if has_row(field, &row) {
            return Some(row.policy);
        }
    }
    None
}

// Whether the field has the row: what can't happen to the field isn't compared.
fn has_row(field: &Field, row: &PolicyRow) -> bool
    ensures { IsTrue result ↔ HasRow field.now row.now }
{
    field.readable == row.readable
        && field.writable == row.writable
        && (!field.writable || (field.once == row.once && field.write == row.write))
        && (!field.readable || field.read == row.read)
}

/// A law: two policies that agree in what software may do, and in their effects on a field of one
/// bit, are the same.
pub fn names_differ()
    ensures { NamesDiffer }
{}
