// Levels that are written as texts.
ghost use Rattle.std.specs.Prelude.{◌≡◌, ◌+◌, ◌^◌, IsTrue, ℕ, pos, neg_ℤ, min, option_and_then, option_map};
ghost use Rattle.std.specs.Char.{is_ascii_digit};
ghost use Rattle.std.specs.List.{list_all};
ghost use Rattle.mx_ident.specs.Identifier.{decimal_value};
ghost use Rattle.mx_levels.specs.Level as definition;

use mx_canon::LARGEST;
use mx_ident::has_only_digits;

// The level that a text holds.
pub fn level_in_text(text: &str) -> Option<i64>
    ensures { result ≡ definition.text_level text.now }
{
    signed_level(without_last_spaces(without_first_spaces(text.as_bytes())))
}

// Of at most one sign, and digits.
fn signed_level(text: &[u8]) -> Option<i64>
    ensures { result ≡ option_and_then definition.if_in_range (definition.signed_value text.now) }
{
    match text {
        [b'+', digits @ ..] => positive(digits),
        [b'-', digits @ ..] => negative(digits),
        digits => positive(digits),
    }
}

// The number that digits write, where it is in range.
fn positive(digits: &[u8]) -> Option<i64>
    ensures { result ≡ option_and_then definition.if_in_range (option_map pos (definition.unsigned_value digits.now)) }
{
    if digits.is_empty() || !has_only_digits(digits) {
        return None;
    }
    let value = capped_value(digits);
    if value > LARGEST {
        None
    } else {
        Some(value as i64)
    }
}

// The negation of that number.
fn negative(digits: &[u8]) -> Option<i64>
    ensures { result ≡ option_and_then definition.if_in_range (option_map (λ (n : ℕ). neg_ℤ (pos n)) (definition.unsigned_value digits.now)) }
{
    let level = positive(digits)?;
    Some(-level)
}

// The number that digits write, or one above the largest level where it is beyond.
fn capped_value(digits: &[u8]) -> u64
    requires { IsTrue (list_all is_ascii_digit digits.now) }
    ensures { result ≡ min (decimal_value digits.now) (LARGEST + 1) }
{
    let mut value = 0;
    for digit in digits {
        value = (value * 10 + (*digit - b'0') as u64).min(LARGEST + 1);
    }
    value
}

fn without_first_spaces(text: &[u8]) -> &[u8]
    ensures { result.now ≡ definition.skip_spaces text.now }
{
    let mut rest = text;
    while let [first, others @ ..] = rest {
        if !is_space(*first) {
            break;
        }
        rest = others;
    }
    rest
}

fn without_last_spaces(text: &[u8]) -> &[u8]
    ensures { result.now ≡ definition.skip_last_spaces text.now }
{
    let mut rest = text;
    while let [others @ .., last] = rest {
        if !is_space(*last) {
            break;
        }
        rest = others;
    }
    rest
}

// ASCII white space, the vertical tab too.
fn is_space(byte: u8) -> bool
    ensures { result ≡ definition.is_space byte }
{
    matches!(byte, 9..=13 | b' ')
}
