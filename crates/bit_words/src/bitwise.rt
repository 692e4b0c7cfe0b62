//! Operators that go place by place, reductions and choices (IEEE 1364-2005, 5.1.8 to 5.1.13).

ghost use Rattle.std.specs.Prelude.{◌≡◌, [], ◌∷◌, length, map, not, IfOk, ◌&&◌, ◌||◌};
ghost use Rattle.std.specs.List.{zip};
ghost use Rattle.bit_base.specs.Operators as spec;
ghost use Rattle.bit_base.specs.Numbers.{sign_of as sign};

use bit_base::bits::Bits;
use std::alloc::{AllocError, Global};
use std::convert::From;
use std::vec::Vec;

/// Whether two bits differ.
fn differ(x: bool, y: bool) -> bool
    ensures { result ≡ spec.differ x y }
{
    if x { !y } else { y }
}

/// `a & b`, place by place as far as both reach.
pub fn and_of(alloc: Global, a: &[bool], b: &[bool]) -> Result<Bits, AllocError>
    ensures value { IfOk result (λ bits. bits ≡ spec.and_of a.now b.now) }
    ensures long { length a.now ≡ length b.now → IfOk result (λ bits. length bits ≡ length a.now) }
{
    let places = and_places(alloc, a, b)?;
    Ok(Bits::from(places))
}

fn and_places(alloc: Global, a: &[bool], b: &[bool]) -> Result<Vec<bool>, AllocError>
    ensures { IfOk result (λ places. places.items ≡ map (λ p. p.0 && p.1) (zip a.now b.now)) }
{
    a.iter().zip(b).map(|(x, y)| *x && *y).collect(alloc)
}

/// `a | b`, place by place as far as both reach.
pub fn or_of(alloc: Global, a: &[bool], b: &[bool]) -> Result<Bits, AllocError>
    ensures value { IfOk result (λ bits. bits ≡ spec.or_of a.now b.now) }
    ensures long { length a.now ≡ length b.now → IfOk result (λ bits. length bits ≡ length a.now) }
{
    let places = or_places(alloc, a, b)?;
    Ok(Bits::from(places))
}

fn or_places(alloc: Global, a: &[bool], b: &[bool]) -> Result<Vec<bool>, AllocError>
    ensures { IfOk result (λ places. places.items ≡ map (λ p. p.0 || p.1) (zip a.now b.now)) }
{
    a.iter().zip(b).map(|(x, y)| *x || *y).collect(alloc)
}

/// `a ^ b`, place by place as far as both reach.
pub fn xor_of(alloc: Global, a: &[bool], b: &[bool]) -> Result<Bits, AllocError>
    ensures value { IfOk result (λ bits. bits ≡ spec.xor_of a.now b.now) }
    ensures long { length a.now ≡ length b.now → IfOk result (λ bits. length bits ≡ length a.now) }
{
    let places = xor_places(alloc, a, b)?;
    Ok(Bits::from(places))
}

fn xor_places(alloc: Global, a: &[bool], b: &[bool]) -> Result<Vec<bool>, AllocError>
    ensures { IfOk result (λ places. places.items ≡ map (λ p. spec.differ p.0 p.1) (zip a.now b.now)) }
{
    a.iter().zip(b).map(|(x, y)| differ(*x, *y)).collect(alloc)
}

/// `a ~^ b`, place by place as far as both reach.
pub fn xnor_of(alloc: Global, a: &[bool], b: &[bool]) -> Result<Bits, AllocError>
    ensures value { IfOk result (λ bits. bits ≡ spec.xnor_of a.now b.now) }
    ensures long { length a.now ≡ length b.now → IfOk result (λ bits. length bits ≡ length a.now) }
{
    let places = xnor_places(alloc, a, b)?;
    Ok(Bits::from(places))
}

fn xnor_places(alloc: Global, a: &[bool], b: &[bool]) -> Result<Vec<bool>, AllocError>
    ensures { IfOk result (λ places. places.items ≡ map (λ p. not (spec.differ p.0 p.1)) (zip a.now b.now)) }
{
    a.iter().zip(b).map(|(x, y)| !differ(*x, *y)).collect(alloc)
}

/// `~a`.
pub fn not_of(alloc: Global, a: &[bool]) -> Result<Bits, AllocError>
    ensures value { IfOk result (λ bits. bits ≡ map not a.now) }
    ensures long { IfOk result (λ bits. length bits ≡ length a.now) }
{
    let places = not_places(alloc, a)?;
    Ok(Bits::from(places))
}

fn not_places(alloc: Global, a: &[bool]) -> Result<Vec<bool>, AllocError>
    ensures { IfOk result (λ places. places.items ≡ map not a.now) }
{
    a.iter().map(|x| !*x).collect(alloc)
}

/// `&a`: whether every bit is true.
pub fn are_all(a: &[bool]) -> bool
    ensures { result ≡ spec.are_all a.now }
{
    a.iter().all(|x| *x)
}

/// `|a`: whether some bit is true.
pub fn is_any(a: &[bool]) -> bool
    ensures { result ≡ spec.is_any a.now }
{
    a.iter().any(|x| *x)
}

/// `^a`: whether an odd number of bits is true.
pub fn is_odd(a: &[bool]) -> bool
    ensures { result ≡ spec.is_odd a.now }
{
    let mut odd = false;
    for x in a {
        odd = differ(odd, *x);
    }
    odd
}

/// The sign: the last bit, false where there is none.
pub fn sign_of(a: &[bool]) -> bool
    ensures { result ≡ sign a.now }
{
    match a.last() {
        None => false,
        Some(x) => *x,
    }
}

/// `a == b`, of words of one length.
pub fn is_equal(a: &[bool], b: &[bool]) -> bool
    requires { length a.now ≡ length b.now }
    ensures { result ≡ spec.is_equal a.now b.now }
{
    a == b
}

/// One word of one bit.
pub fn bit_of(alloc: Global, x: bool) -> Result<Bits, AllocError>
    ensures { IfOk result (λ bits. bits ≡ x ∷ []) }
{
    let mut places = Vec::new(alloc);
    places.push(x)?;
    Ok(Bits::from(places))
}
