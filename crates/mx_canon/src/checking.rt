// Whether a value has canonical JSON.
ghost use Rattle.std.specs.Prelude.{◌≡◌, MatchResult, None, Some};
ghost use Rattle.serde_json.specs.View.{view, number_view, items_view, members_view};
ghost use Rattle.serde_json.specs.Data.{object};
ghost use Rattle.mx_canon.specs.Canonical.{numbers, item_numbers, member_numbers, canonical_error};
ghost use Rattle.mx_canon.specs.KeyOrder.{KeysRise, KeysRiseInItems, KeysRiseInMembers};
ghost use Rattle.mx_canon.specs.Faults.{fault_of, number_fault, graver};

use serde_json::{Map, Number, Value};
use thiserror::Error;

/// The largest integer that canonical JSON has, 2^53 - 1, and the smallest is its negation.
pub const LARGEST: u64 = (1 << 53) - 1;

/// Why a value has no canonical JSON.
#[derive(Clone, Copy, Debug, PartialEq, Eq, Drop, Error)]
pub enum NotCanonical {
    // A number is held as no 64-bit integer, as 1.0, 1e2 and -0 are.
    #[error("a number is not a 64-bit integer")]
    Float,
    // No number is a float, and an integer is beyond 2^53 - 1 or below its negation.
    #[error("an integer is out of range")]
    Range,
}

/// Whether the value has canonical JSON, and if not, why. It takes no memory.
///
/// Of a value with both faults the answer is `Float`. Source: the appendix "Canonical JSON" of the Matrix
/// specification.
pub fn check(value: &Value) -> Result<(), NotCanonical>
    ensures answer { MatchResult result
        (λ _. canonical_error (view value.now) ≡ None)
        (λ cause. canonical_error (view value.now) ≡ Some cause) }
    // Every value has its keys in order.
    ensures keys { KeysRise (view value.now) }
{
    match fault(value) {
        None => Ok(()),
        Some(cause) => Err(cause),
    }
}

// The gravest fault of the value's numbers.
#[cycle(fault)]
fn fault(value: &Value) -> Option<NotCanonical>
    ensures cause { result ≡ fault_of (numbers (view value.now)) }
    ensures keys { KeysRise (view value.now) }
{
    match value {
        Value::Null | Value::Bool(_) | Value::String(_) => None,
        Value::Number(number) => fault_of_number(number),
        Value::Array(items) => fault_of_items(items),
        Value::Object(members) => fault_of_members(members),
    }
}

#[cycle(fault)]
fn fault_of_items(items: &Vec<Value>) -> Option<NotCanonical>
    ensures cause { result ≡ fault_of (item_numbers (items_view items.now.items)) }
    ensures keys { KeysRiseInItems (items_view items.now.items) }
{
    let mut found = None;
    for item in items {
        found = NotCanonical::gravest(found, fault(item));
    }
    found
}

#[cycle(fault)]
fn fault_of_members(members: &Map<String, Value>) -> Option<NotCanonical>
    ensures cause { result ≡ fault_of (member_numbers (members_view members.now.entries)) }
    ensures keys { KeysRise (object (members_view members.now.entries)) }
{
    let mut found = None;
    for (_, member) in members.iter() {
        found = NotCanonical::gravest(found, fault(member));
    }
    found
}

fn fault_of_number(number: &Number) -> Option<NotCanonical>
    ensures { result ≡ number_fault (number_view number.now) }
{
    if number.is_f64() {
        return Some(NotCanonical::Float);
    }
    match number.as_i64() {
        Some(integer) if integer.unsigned_abs() <= LARGEST => None,
        _ => Some(NotCanonical::Range),
    }
}

impl NotCanonical {
    ghost use Rattle.std.specs.Prelude.{◌≡◌};
    ghost use Rattle.mx_canon.specs.Faults.{graver};

    /// Of two answers, for two parts of one value, the answer for both: a float goes before an integer out of range.
    pub fn gravest(a: Option<NotCanonical>, b: Option<NotCanonical>) -> Option<NotCanonical>
        ensures { result ≡ graver a b }
    {
        match (a, b) {
            (Some(NotCanonical::Float), _) | (_, Some(NotCanonical::Float)) => {
                Some(NotCanonical::Float)
            }
            (Some(NotCanonical::Range), _) | (_, Some(NotCanonical::Range)) => {
                Some(NotCanonical::Range)
            }
            (None, None) => None,
        }
    }
}
