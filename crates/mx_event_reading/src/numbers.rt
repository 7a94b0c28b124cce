// Integers that canonical JSON has.
ghost use Rattle.std.specs.Prelude.{◌≡◌, ◌<◌, ◌==◌, IfSome, IsTrue, Some, false, length, slice_index, true};
ghost use Rattle.serde_json.specs.Find.{of_integer};
ghost use Rattle.serde_json.specs.Read.{number_of, number_from};
ghost use Rattle.mx_canon.specs.Canonical.{is_exact};
ghost use Rattle.mx_body.specs.Readable.{IsInRange};

use fast_float::Numeral;
use mx_canon::LARGEST;

/// The integer that a number's text stands for, where canonical JSON has it.
pub(crate) fn exact_integer(text: &str) -> Option<i64>
    ensures number { IfSome result (λ integer. number_of text.now ≡ Some (of_integer integer)) }
    ensures exact { IfSome result (λ integer. is_exact (of_integer integer) ≡ true) }
    ensures range { IfSome result (λ integer. IsInRange (of_integer integer)) }
{
    let bytes = text.as_bytes();
    if has_minus(bytes) {
        below_zero(&Numeral::scan(&bytes[1..]))
    } else {
        natural(&Numeral::scan(bytes))
    }
}

fn has_minus(bytes: &[u8]) -> bool
    ensures value { result ≡ (slice_index bytes.now 0 == 45) }
    ensures len { IsTrue result → 0 < length bytes.now }
{
    !bytes.is_empty() && bytes[0] == b'-'
}

fn natural(numeral: &Numeral<'_>) -> Option<i64>
    ensures number { IfSome result (λ integer. number_from false numeral.now ≡ Some (of_integer integer)) }
    ensures exact { IfSome result (λ integer. is_exact (of_integer integer) ≡ true) }
    ensures range { IfSome result (λ integer. IsInRange (of_integer integer)) }
{
    match numeral.to_u64() {
        Some(integer) if integer <= LARGEST => Some(integer as i64),
        _ => None,
    }
}

fn below_zero(numeral: &Numeral<'_>) -> Option<i64>
    ensures number { IfSome result (λ integer. number_from true numeral.now ≡ Some (of_integer integer)) }
    ensures exact { IfSome result (λ integer. is_exact (of_integer integer) ≡ true) }
    ensures range { IfSome result (λ integer. IsInRange (of_integer integer)) }
{
    match numeral.to_i64(true) {
        Some(integer) if integer < 0 && integer.unsigned_abs() <= LARGEST => Some(integer),
        _ => None,
    }
}
