//! Registers with unlike accesses.

ghost use Rattle.std.specs.Prelude.{◌≡◌, ◌++◌, [], IfSome, IfNone, IfOk};
ghost use Rattle.rdl_elab.specs.Firsts.{IsFirstOf};
ghost use Rattle.rdl_elab.specs.Unlike as spec;

use bit_base::place::{Place, first_of};
use rdl_layout::register::Register;
use rdl_text::names::note_if;
use std::alloc::{AllocError, Global};
use std::vec::Vec;

fn earlier_register(a: Register, b: Register) -> Register
    ensures { result ≡ spec.earlier_register a b }
{
    if b.place.is_before(a.place) { b } else { a }
}

// A register before which none stands in the text.
fn first_register(registers: &[Register]) -> Option<Register>
    ensures some { IfSome result (λ r. spec.IsFirstRegister r registers.now) }
    ensures none { IfNone result (registers.now ≡ []) }
{
    let mut found = *registers.first()?;
    for register in registers {
        found = earlier_register(found, *register);
    }
    Some(found)
}

// The places of registers with another access.
fn others(alloc: Global, registers: &[Register], access: u64) -> Result<Vec<Place>, AllocError>
    ensures { IfOk result (λ places. places.items ≡ spec.others access registers.now) }
{
    let mut out = Vec::new(alloc);
    for register in registers {
        note_if(&mut out, register.access != access, register.place)?;
    }
    Ok(out)
}

/// The first place of two registers with unlike accesses: of each two, the later.
pub fn first_unlike(alloc: Global, registers: &[Register]) -> Result<Option<Place>, AllocError>
    ensures { IfOk result (λ found. IsFirstOf (spec.IsUnlike registers.now) found) }
{
    match first_register(registers) {
        None => Ok(None),
        Some(first) => {
            let places = others(alloc, registers, first.access)?;
            Ok(first_of(places.as_slice()))
        }
    }
}
