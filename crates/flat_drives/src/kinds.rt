//! The bits of inputs, of outputs, and those that need no driver.

ghost use Rattle.std.specs.Prelude.{◌≡◌, ◌||◌, ℕ, OnOk, IfOk};
ghost use Rattle.flat_design.specs.Bits.{of_net};
ghost use Rattle.flat_flows.specs.Ranges.{in_range};
ghost use Rattle.flat_flows.specs.Tables.{in_table};
ghost use Rattle.flat_drives.specs.Drives as spec;

use flat_design::net::{Net, NetKind};
use flat_flows::marks::Marks;
use flat_flows::range::BitRange;
use std::alloc::{AllocError, Global};

/// The bits of a net.
pub fn row_of(net: &Net) -> BitRange
    ensures { (i : ℕ) → in_range result i ≡ of_net net.now i }
{
    let first = net.first as usize;
    BitRange {
        first,
        end: first + net.width as usize,
    }
}

/// Adds the bits of a row.
pub fn mark_row(marks: &mut Marks, range: BitRange) -> Result<(), AllocError>
    ensures { OnOk result ((i : ℕ) → in_table marks.new i ≡ (in_table marks.old i || in_range range i)) }
{
    for i in range.first..range.end {
        marks.add(i)?;
    }
    Ok(())
}

fn is_input(net: &Net) -> bool
    ensures { result ≡ spec.is_input net.now.kind }
{
    match net.kind {
        NetKind::Clock | NetKind::Input => true,
        _ => false,
    }
}

fn is_given(net: &Net) -> bool
    ensures { result ≡ spec.is_given net.now.kind }
{
    match net.kind {
        NetKind::Clock | NetKind::Input | NetKind::Hidden => true,
        _ => false,
    }
}

/// The bits of the inputs of the top.
pub fn input_bits(alloc: Global, nets: &[Net]) -> Result<Marks, AllocError>
    ensures { IfOk result (λ marks. (i : ℕ) → in_table marks i ≡ spec.input_bits nets.now i) }
{
    let mut marks = Marks::new(alloc);
    for net in nets {
        if is_input(net) {
            mark_row(&mut marks, row_of(net))?;
        }
    }
    Ok(marks)
}

/// The bits that need no driver.
pub fn given_bits(alloc: Global, nets: &[Net]) -> Result<Marks, AllocError>
    ensures { IfOk result (λ marks. (i : ℕ) → in_table marks i ≡ spec.given_bits nets.now i) }
{
    let mut marks = Marks::new(alloc);
    for net in nets {
        if is_given(net) {
            mark_row(&mut marks, row_of(net))?;
        }
    }
    Ok(marks)
}
