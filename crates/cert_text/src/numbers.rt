//! Plain decimal numbers.

ghost use Rattle.std.specs.Prelude.{◌≡◌, ◌-◌, ◌^◌, ◌==◌, ◌&&◌, nat_lt, length, min, slice_index};
ghost use Rattle.std.specs.List.{list_all};
ghost use Rattle.cert_text.specs.Numbers.{value_from, is_digit, is_plain, number_of};

/// Whether all bytes are decimal digits.
fn are_digits(word: &[u8]) -> bool
    ensures { result ≡ list_all is_digit word.now }
{
    word.iter().all(|byte| 48 <= *byte && *byte <= 57)
}

/// Whether a zero stands before other bytes.
fn is_zero_first(word: &[u8]) -> bool
    ensures { result ≡ (nat_lt 1 (length word.now) && slice_index word.now 0 == 48) }
{
    word.len() > 1 && word[0] == b'0'
}

/// Whether the word is digits, at least one, and no zero before others.
fn is_plain(word: &[u8]) -> bool
    ensures { result ≡ is_plain word.now }
{
    !word.is_empty() && !is_zero_first(word) && are_digits(word)
}

/// The value of the digits; `u32::MAX` stands for it and for all numbers past it.
fn value_of(digits: &[u8]) -> u32
    ensures { result ≡ min (value_from 0 digits.now) (2 ^ 32 - 1) }
{
    let mut value: u32 = 0;
    for digit in digits {
        let last = u32::from(digit.saturating_sub(b'0'));
        value = value.saturating_mul(10).saturating_add(last);
    }
    value
}

/// The number that the word is, if it is one.
#[tactic(auto, unfolding(crate::specs::Numbers::number_of))]
pub(crate) fn number_of(word: &[u8]) -> Option<u32>
    ensures { result ≡ number_of word.now }
{
    if is_plain(word) {
        Some(value_of(word))
    } else {
        None
    }
}
