//! Tests of single bytes.

ghost use Rattle.std.specs.Prelude.{◌≡◌, ◌≤◌};
ghost use Rattle.vlog_tree.specs.Spelling.{is_letter, is_name_byte, digit_of, is_digit, base_of, is_mark_byte, is_mark_pair, is_mark_triple};
ghost use Rattle.vlog_prep.specs.Lexemes.{is_blank};

/// A letter or `_`.
pub fn is_letter(byte: u8) -> bool
    ensures { result ≡ is_letter byte }
{
    matches!(byte, b'A'..=b'Z' | b'a'..=b'z' | b'_')
}

/// A letter, a digit, `_` or `$`.
pub fn is_name_byte(byte: u8) -> bool
    ensures { result ≡ is_name_byte byte }
{
    matches!(byte, b'A'..=b'Z' | b'a'..=b'z' | b'_' | b'0'..=b'9' | b'$')
}

/// The value of a hexadecimal digit, in either case; 16 of other bytes.
fn digit_of(byte: u8) -> u8
    ensures value { result ≡ digit_of byte }
    ensures small { result ≤ 16 }
{
    match byte {
        b'0'..=b'9' => byte - b'0',
        b'a'..=b'f' => byte - b'a' + 10,
        b'A'..=b'F' => byte - b'A' + 10,
        _ => 16,
    }
}

/// A digit of the base, in bases other than ten an unknown one too.
pub fn is_digit(base: u8, byte: u8) -> bool
    ensures { result ≡ is_digit base byte }
{
    digit_of(byte) < base
        || (matches!(base, 2 | 8 | 16) && matches!(byte, b'x' | b'X' | b'z' | b'Z' | b'?'))
}

/// The base that a letter stands for; 0 of other bytes.
pub fn base_of(letter: u8) -> u8
    ensures value { result ≡ base_of letter }
    ensures small { result ≤ 16 }
{
    match letter {
        b'b' | b'B' => 2,
        b'o' | b'O' => 8,
        b'd' | b'D' => 10,
        b'h' | b'H' => 16,
        _ => 0,
    }
}

/// A mark of one byte.
pub fn is_mark_byte(byte: u8) -> bool
    ensures { result ≡ is_mark_byte byte }
{
    matches!(
        byte,
        b'#' | b'('
            | b')'
            | b','
            | b';'
            | b'='
            | b'['
            | b']'
            | b':'
            | b'@'
            | b'*'
            | b'.'
            | b'{'
            | b'}'
            | b'?'
            | b'+'
            | b'-'
            | b'!'
            | b'~'
            | b'&'
            | b'|'
            | b'^'
            | b'/'
            | b'%'
            | b'<'
            | b'>'
    )
}

/// A mark of two bytes.
pub fn is_mark_pair(first: u8, second: u8) -> bool
    ensures { result ≡ is_mark_pair first second }
{
    (first == second && matches!(first, b'*' | b'<' | b'>' | b'=' | b'&' | b'|'))
        || (second == b'=' && matches!(first, b'<' | b'>' | b'!'))
        || (first == b'~' && matches!(second, b'&' | b'|' | b'^'))
        || (first == b'^' && second == b'~')
        || (first == b'+' && second == b':')
}

/// A mark of three bytes.
pub fn is_mark_triple(first: u8, second: u8, third: u8) -> bool
    ensures { result ≡ is_mark_triple first second third }
{
    second == third
        && ((first == second && matches!(first, b'<' | b'>' | b'='))
            || (first == b'!' && second == b'='))
}

/// Space, tab, carriage return or line feed.
pub fn is_blank(byte: u8) -> bool
    ensures { result ≡ is_blank byte }
{
    matches!(byte, b' ' | b'\t' | b'\r' | b'\n')
}
