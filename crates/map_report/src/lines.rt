//! The report of a register map.

ghost use Rattle.std.specs.Prelude.{◌≡◌, ◌+◌, ◌++◌, [], ◌∷◌, ◌<◌, ◌≤◌, IfOk, OnOk, length};
ghost use Rattle.std.specs.Fmt.{decimal};
ghost use Rattle.map_report.specs.Names.{name_text};
ghost use Rattle.map_report.specs.Reports.{bits_text, reset_text, place_text, field_line, Reports};

use crate::digits::push_hex;
use crate::name::name_text;
use field_policies::field::Field;
use field_policies::map::RegMap;
use field_policies::policy::Policy;
use field_policies::table::policy_of;
use itoa::Buffer;
use std::alloc::{AllocError, Global};
use std::vec::Vec;

/// Appends a number.
fn push_number(text: &mut Vec<u8>, number: u32) -> Result<(), AllocError>
    ensures { OnOk result (text.new.items ≡ text.old.items ++ decimal number) }
{
    let mut buffer = Buffer::new();
    text.extend_from_slice(buffer.format(number).as_bytes())?;
    Ok(())
}

/// Appends the bits of a field within its word, the highest first.
#[tactic(auto, unfolding(crate::specs::Reports::bits_text))]
fn push_bits(text: &mut Vec<u8>, field: &Field) -> Result<(), AllocError>
    requires some { 1 ≤ field.now.width }
    requires inside { field.now.lsb + field.now.width ≤ 32 }
    ensures { OnOk result (text.new.items ≡ text.old.items ++ bits_text field.now) }
{
    text.push(b'[')?;
    push_number(text, field.lsb + field.width - 1)?;
    text.push(b':')?;
    push_number(text, field.lsb)?;
    text.push(b']')?;
    Ok(())
}

/// Appends what a field is after reset.
#[tactic(auto, unfolding(crate::specs::Reports::reset_text))]
fn push_reset(text: &mut Vec<u8>, field: &Field) -> Result<(), AllocError>
    requires word { field.now.width ≤ 32 }
    ensures { OnOk result (text.new.items ≡ text.old.items ++ reset_text field.now) }
{
    if field.starts_known {
        push_hex(text, field.width.div_ceil(4), field.reset)?;
    } else {
        text.push(b'-')?;
    }
    Ok(())
}

/// Appends where a field stands: the address of its word, its path, and its bits.
#[tactic(auto, unfolding(crate::specs::Reports::place_text))]
fn push_place(text: &mut Vec<u8>, words: &[u32], field: &Field) -> Result<(), AllocError>
    requires there { field.now.word < length words.now }
    requires some { 1 ≤ field.now.width }
    requires inside { field.now.lsb + field.now.width ≤ 32 }
    ensures { OnOk result (text.new.items ≡ text.old.items ++ place_text words.now field.now) }
{
    push_hex(text, 8, words[field.word as usize])?;
    text.push(b' ')?;
    text.extend_from_slice(field.path.as_bytes())?;
    text.push(b' ')?;
    push_bits(text, field)?;
    Ok(())
}

/// Appends the line of a field whose policy is this.
#[tactic(auto, unfolding(crate::specs::Reports::field_line))]
fn push_line(
    text: &mut Vec<u8>,
    words: &[u32],
    field: &Field,
    policy: Option<Policy>,
) -> Result<(), AllocError>
    requires there { field.now.word < length words.now }
    requires some { 1 ≤ field.now.width }
    requires inside { field.now.lsb + field.now.width ≤ 32 }
    ensures { OnOk result (text.new.items ≡ text.old.items ++ (field_line words.now field.now policy ++ 10 ∷ [])) }
{
    push_place(text, words, field)?;
    text.push(b' ')?;
    text.extend_from_slice(name_text(policy))?;
    text.push(b' ')?;
    push_reset(text, field)?;
    text.push(b'\n')?;
    Ok(())
}

/// The report of a register map: for each field the address of its word in eight hexadecimal digits, its
/// path, its bits within the word, its policy's name or `-`, and its reset in hexadecimal digits or `-`.
pub fn map_report(alloc: Global, map: &RegMap) -> Result<Vec<u8>, AllocError>
    ensures { IfOk result (λ text. Reports map.now text.items) }
{
    let mut text = Vec::new(alloc);
    let words = map.words.as_slice();
    for field in &map.fields {
        let policy = policy_of(field);
        push_line(&mut text, words, field, policy)?;
    }
    Ok(text)
}
