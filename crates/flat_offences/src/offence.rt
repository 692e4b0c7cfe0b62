//! The first of several offences.

ghost use Rattle.std.specs.Prelude.{◌≡◌, ◌≤◌, ℕ, Some, if◌then◌else◌, length, IfSome, IfNone};
ghost use Rattle.flat_design.specs.Systems.{place_of};
ghost use Rattle.flat_offences.specs.Offences as spec;

use bit_base::place::Place;
use flat_design::item::FlatItem;

/// An offence: its place, and the net that it is about.
#[derive(Clone, Copy, Debug, PartialEq, Eq, Drop)]
pub struct Offence {
    pub place: Place,
    pub net: u32,
}

/// The place of an item.
pub fn place_of(item: &FlatItem) -> Place
    ensures { result ≡ place_of item.now }
{
    match item {
        FlatItem::Assign {
            place,
            targets: _,
            left: _,
            value: _,
            connection: _,
        } => *place,
        FlatItem::Comb {
            place,
            targets: _,
            body: _,
        } => *place,
        FlatItem::Clocked {
            place,
            targets: _,
            events: _,
            body: _,
        } => *place,
    }
}

/// An offence stands at an earlier place, or at the same one and is about an earlier net.
fn comes_first(a: Offence, b: Offence) -> bool
    ensures { result ≡ spec.comes_first a b }
{
    a.place.is_before(b.place) || (!b.place.is_before(a.place) && a.net < b.net)
}

/// The one of two offences that comes first.
fn first_of(a: Offence, b: Offence) -> Offence
    ensures { result ≡ (if spec.comes_first b a then b else a) }
{
    if comes_first(b, a) { b } else { a }
}

/// The first of the offences so far and that of an item, if it has one.
fn more(best: Option<Offence>, item: &FlatItem, found: Option<u32>) -> Option<Offence>
    ensures { result ≡ spec.more best item.now found }
{
    let Some(net) = found else {
        return best;
    };
    let next = Offence {
        place: place_of(item),
        net,
    };
    match best {
        None => Some(next),
        Some(best) => Some(first_of(best, next)),
    }
}

/// The first of the offences that were found, a net at most for each item.
pub fn first_offence(items: &[FlatItem], found: &[Option<u32>]) -> Option<Offence>
    requires { length found.now ≡ length items.now }
    ensures first { IfSome result (λ o. spec.IsFirstOffence items.now (spec.Found found.now) o) }
    ensures none { IfNone result ((k n : ℕ) → spec.Found found.now k n → ⊥) }
{
    let mut best = None;
    for k in 0..items.len() {
        best = more(best, &items[k], found[k]);
    }
    best
}
