//! Tests of single bytes.

ghost use Rattle.std.specs.Prelude.{◌≡◌, ◌≤◌};
ghost use Rattle.rdl_tree.specs.Spelling.{is_letter, digit_of, is_digit, is_word_byte, base_of, is_mark_byte, is_mark_pair, is_blank};

/// A letter or `_`.
pub fn is_letter(byte: u8) -> bool
    ensures { result ≡ is_letter byte }
{
    matches!(byte, b'A'..=b'Z' | b'a'..=b'z' | b'_')
}

/// The value of a hexadecimal digit, in either case; 16 of other bytes.
pub fn digit_of(byte: u8) -> u8
    ensures value { result ≡ digit_of byte }
    ensures small { result ≤ 16 }
{
    match byte {
        b'0'..=b'9' => byte - b'0',
        b'a'..=b'f' => byte - b'a' + 10,
        b'A'..=b'F' => byte - b'A' + 10,
        _ => 16,
    }
}

/// A digit of the base, which is at most 16.
pub fn is_digit(base: u8, byte: u8) -> bool
    ensures { result ≡ is_digit base byte }
{
    digit_of(byte) < base
}

/// A letter, a digit or `_`.
pub fn is_word_byte(byte: u8) -> bool
    ensures { result ≡ is_word_byte byte }
{
    is_letter(byte) || is_digit(10, byte)
}

/// The base that stands behind the size of a number: `d`, `h`, `b` or `o`; 0 of other bytes.
pub fn base_of(letter: u8) -> u8
    ensures value { result ≡ base_of letter }
    ensures small { result ≤ 16 }
{
    match letter {
        b'd' => 10,
        b'h' => 16,
        b'b' => 2,
        b'o' => 8,
        _ => 0,
    }
}

/// A mark of one byte.
pub fn is_mark_byte(byte: u8) -> bool
    ensures { result ≡ is_mark_byte byte }
{
    matches!(
        byte,
        b'{' | b'}' | b'[' | b']' | b';' | b',' | b'=' | b':' | b'@' | b'.'
    )
}

/// A mark of two bytes.
pub fn is_mark_pair(first: u8, second: u8) -> bool
    ensures { result ≡ is_mark_pair first second }
{
    matches!((first, second), (b'-', b'>') | (b'+', b'=') | (b'%', b'='))
}

/// Space, tab, carriage return or line feed.
pub fn is_blank(byte: u8) -> bool
    ensures { result ≡ is_blank byte }
{
    matches!(byte, b' ' | b'\t' | b'\r' | b'\n')
}
