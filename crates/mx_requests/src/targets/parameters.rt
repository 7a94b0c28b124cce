// The parameters of a query.
ghost use Rattle.std.specs.Prelude.{◌≡◌, IfOk, map, option_map, string_bytes};
ghost use Rattle.mx_requests.specs.Targets as definition;
ghost use Rattle.mx_requests.specs.Parameters.{parameter_shown};

use form_urlencoded::{decode, raw_pairs};
use std::alloc::{AllocError, Global};

/// One `name=value` of a query, decoded.
#[derive(Drop)]
pub(crate) struct Parameter {
    pub name: String,
    pub value: String,
}

impl Parameter {
    ghost use Rattle.std.specs.Prelude.{◌≡◌, bytes_eq, string_bytes};

    // Whether this is its name.
    pub(crate) fn is_named(&self, name: &str) -> bool
        ensures { result ≡ bytes_eq (string_bytes self.now.name) name.now }
    {
        self.name.as_str() == name
    }
}

/// The parameters of a query, which is form-encoded, in their order. Bytes that are not UTF-8 read as U+FFFD.
///
/// `AllocError` where no memory was left. Source: `application/x-www-form-urlencoded` of the URL Standard.
pub(crate) fn parameters_of(alloc: Global, query: &str) -> Result<Vec<Parameter>, AllocError>
    ensures { IfOk result (λ found. map parameter_shown found.items ≡ definition.parameters query.now) }
{
    let mut found = Vec::new(alloc);
    for (name, value) in raw_pairs(query.as_bytes()) {
        let name = decoded_text(alloc, name)?;
        let value = decoded_text(alloc, value)?;
        found.push(Parameter { name, value })?;
    }
    Ok(found)
}

fn decoded_text(alloc: Global, bytes: &[u8]) -> Result<String, AllocError>
    ensures { IfOk result (λ text. string_bytes text ≡ definition.decoded_text bytes.now) }
{
    let text = decode(alloc, bytes)?;
    let text = text.into_owned(alloc)?;
    Ok(text)
}

/// The value of the first parameter with this name, if there is one. It takes no memory.
pub(crate) fn first_named<'p>(parameters: &'p [Parameter], name: &str) -> Option<&'p str>
    ensures { definition.first_named name.now (map parameter_shown parameters.now) ≡ option_map (λ v. v.now) result }
{
    for parameter in parameters {
        if parameter.is_named(name) {
            return Some(&parameter.value);
        }
    }
    None
}

/// Each value under this name, in the order of the parameters.
pub(crate) fn all_named<'p>(
    alloc: Global,
    parameters: &'p [Parameter],
    name: &str,
) -> Result<Vec<&'p str>, AllocError>
    ensures { IfOk result (λ values.
        map (λ v. v.now) values.items ≡ definition.all_named name.now (map parameter_shown parameters.now)) }
{
    let mut values = Vec::new(alloc);
    for parameter in parameters {
        if parameter.is_named(name) {
            values.push(parameter.value.as_str())?;
        }
    }
    Ok(values)
}
