//! Nets that fit their design.

ghost use Rattle.std.specs.Prelude.{◌≡◌, ◌<◌, ◌+◌, ◌↔◌, ◌&&◌, ◌==◌, nat_lt, ℕ, true, Some, slice_get, slice_index_or, false, length, IsTrue};
ghost use Rattle.std.specs.List.{list_all};
ghost use Rattle.flat_design.specs.Bits.{bits_in};
ghost use Rattle.flat_design.specs.declared.net.Net.{Net as NetOf};
ghost use Rattle.flat_raw.specs.Nets as spec;

use flat_design::net::{Net, NetKind};

fn has_width(net: &Net) -> bool
    ensures { result ≡ spec.has_width net.now }
{
    net.width >= 1 && net.width <= 1024
}

fn has_places(net: &Net) -> bool
    ensures { result ≡ spec.has_places net.now }
{
    net.lsb as u64 + net.width as u64 <= 0x1_0000_0000
}

/// All nets have 1 to 1,024 bits.
pub fn have_widths(nets: &[Net]) -> bool
    ensures { result ≡ list_all spec.has_width nets.now }
{
    nets.iter().all(|net| has_width(net))
}

/// The places of all nets are below 2^32.
pub fn have_places(nets: &[Net]) -> bool
    ensures { result ≡ list_all spec.has_places nets.now }
{
    nets.iter().all(|net| has_places(net))
}

/// A net stands where so many bits end, and its bits are below 2^32.
fn stands_at(net: &Net, bits: u64) -> bool
    requires { bits < 4294967296 }
    ensures { result ≡ ((net.now.first == bits) && nat_lt (bits + net.now.width) 4294967296) }
{
    net.first as u64 == bits && bits + (net.width as u64) < 0x1_0000_0000
}

/// The nets stand one after the other, with fewer than 2^32 bits in all.
pub fn are_in_row(nets: &[Net]) -> bool
    ensures row { IsTrue result → spec.AreInRow nets.now }
    ensures few { IsTrue result → bits_in nets.now < 4294967296 }
    ensures all { spec.AreInRow nets.now → bits_in nets.now < 4294967296 → IsTrue result }
{
    let mut bits: u64 = 0;
    for net in nets {
        if !stands_at(net, bits) {
            return false;
        }
        bits += net.width as u64;
    }
    true
}

/// A net of this kind fits the items that assign it, or not, and the clocked ones.
fn kind_fits(kind: NetKind, assigned: bool, clocked: bool) -> bool
    ensures { result ≡ spec.kind_fits kind assigned clocked }
{
    match kind {
        NetKind::Clock => false,
        NetKind::Input => true,
        NetKind::Hidden => !assigned,
        NetKind::Wire => !clocked,
        NetKind::Register => clocked,
    }
}

/// Each net has the kind that fits the items that assign it.
pub fn kinds_fit(nets: &[Net], assigned: &[bool], clocked: &[bool]) -> bool
    requires assigned { length assigned.now ≡ length nets.now }
    requires clocked { length clocked.now ≡ length nets.now }
    ensures { IsTrue result ↔ ((k : ℕ) (n : NetOf) → slice_get nets.now k ≡ Some n → spec.kind_fits n.kind (slice_index_or assigned.now k false) (slice_index_or clocked.now k false) ≡ true) }
{
    for k in 0..nets.len() {
        if !kind_fits(nets[k].kind, assigned[k], clocked[k]) {
            return false;
        }
    }
    true
}
