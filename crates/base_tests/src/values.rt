use bit_base::bits::{Bits, bits_of, extend, number_of, slice};
use bit_base::place::{Place, first_of};
use bit_base::text::{Text, text_of};
use std::collections::HashMap;
use std::test::Fail;
use std::vec::Vec;

/// A value's lowest bits at a width, brought to another width, stand for the last number of the row;
/// the numbers are worked out by hand from the places' weights and the sign.
#[test]
fn bits_and_extensions_stand_for_numbers(rt: HostRuntime) -> Result<(), Fail> {
    let rows: [(u128, u32, u32, bool, u128); 7] = [
        (6, 3, 3, false, 6),
        (6, 2, 2, false, 2),
        (0x1_ff, 8, 8, true, 0xff),
        (u128::MAX, 128, 128, false, u128::MAX),
        (3, 2, 4, true, 15),
        (3, 2, 4, false, 3),
        (3, 2, 1, true, 1),
    ];
    for (value, width, wide, signed, number) in rows {
        let bits = bits_of(rt.alloc(), value, width.min(128))?;
        assert!(rt; !bits.is_empty());
        let extended = extend(rt.alloc(), &bits, wide, signed)?;
        assert!(rt; extended.len() <= 128);
        assert_eq!(rt; number_of(&extended), number);
    }
    Ok(())
}

#[test]
fn slices_are_cut_in_order(rt: HostRuntime) -> Result<(), Fail> {
    let bits = Bits::from(Vec::from_slice(rt.alloc(), &[false, true, true])?);
    assert_eq!(rt; bits.len(), 3);
    let part = slice(rt.alloc(), &bits, 1, 2)?;
    assert_eq!(rt; part.as_slice(), [true, true].as_slice());
    Ok(())
}

#[test]
fn texts_are_their_bytes(rt: HostRuntime) -> Result<(), Fail> {
    let text = text_of(rt.alloc(), b"a.rdl")?;
    assert_eq!(rt; text.copy(rt.alloc())?.as_bytes(), b"a.rdl".as_slice());
    let moved = Text::from(Vec::from_slice(rt.alloc(), b"v")?);
    assert_eq!(rt; moved.as_bytes(), b"v".as_slice());
    Ok(())
}

/// Texts are keys by their bytes.
#[test]
fn texts_with_the_same_bytes_are_one_key(rt: HostRuntime) -> Result<(), Fail> {
    let mut numbers = HashMap::new(rt.alloc());
    numbers.insert(text_of(rt.alloc(), b"a")?, 1)?;
    numbers.insert(text_of(rt.alloc(), b"ab")?, 2)?;
    assert_eq!(rt; numbers.insert(text_of(rt.alloc(), b"a")?, 3)?, Some(1));
    assert_eq!(rt; numbers.get(&text_of(rt.alloc(), b"ab")?).copied(), Some(2));
    Ok(())
}

/// By file, then by line, then by column.
#[test]
fn the_first_of_several_places_is_found(rt: HostRuntime) -> Result<(), Fail> {
    let at = |file, line, column| Place { file, line, column };
    let rows = [
        [at(0, 2, 9), at(0, 2, 3), at(1, 1, 1)],
        [at(1, 1, 1), at(0, 2, 3), at(0, 9, 1)],
    ];
    for (number, row) in rows.iter().enumerate() {
        assert_eq!(rt; first_of(row), Some(at(0, 2, 3)), "row {number}");
    }
    assert_eq!(rt; first_of(&[]), None);
    Ok(())
}
