// What the parameters of a query say, route by route.
ghost use Rattle.std.specs.Prelude.{◌≡◌, ◌⊎◌, Ok, Err, IfErr, IfOk, IsOk, codes, map, min, string_bytes, true};
ghost use Rattle.std.specs.List.{list_all};
ghost use Rattle.mx_ident.specs.Identifier.{decimal_value, is_event_id};
ghost use Rattle.mx_requests.specs.Requests as definition;
ghost use Rattle.mx_requests.specs.Parameters.{parameter_shown};
ghost use Rattle.mx_requests.specs.Targets.{all_named as all_named_of};

use crate::faults::{Fault, InvalidPart, MissingParameter};
use crate::targets::parameters::{Parameter, all_named, first_named};
use mx_ident::{EventId, IdError, has_only_digits};
use mx_room::VersionList;
use std::alloc::{AllocError, Global};

/// How many events a backfill gives at most.
pub(crate) const MOST_BACKFILLED: u64 = 100;

/// The event id that the first parameter `event_id` is.
///
/// `Missing` where there is none, `Invalid` where it is no event id; `Memory` where it is one, and none was left. Source:
/// the Matrix specification, Server-Server API, `GET /_matrix/federation/v1/state/{roomId}`.
pub(crate) fn event_id_parameter(alloc: Global, parameters: &[Parameter]) -> Result<EventId, Fault>
    ensures ok { IfOk result (λ id.
        definition.event_id_parameter (map parameter_shown parameters.now) ≡ Ok id) }
    ensures err { IfErr result (λ fault.
        ((fault ≡ Fault.Memory) × IsOk (definition.event_id_parameter (map parameter_shown parameters.now)))
        ⊎ (definition.event_id_parameter (map parameter_shown parameters.now) ≡ Err fault)) }
{
    let Some(text) = first_named(parameters, "event_id") else {
        return Err(Fault::Missing(MissingParameter::EventId));
    };
    if !EventId::is(text) {
        return Err(Fault::Invalid(InvalidPart::EventId));
    }
    let id = parsed_id(alloc, text)?;
    Ok(id)
}

/// The event ids that the parameters `v` are, in their order.
///
/// `Missing` where there is none, `Invalid` where one is no event id; `Memory` where all are, and none was left. Source:
/// the Matrix specification, Server-Server API, `GET /_matrix/federation/v1/backfill/{roomId}`.
pub(crate) fn v_parameters(alloc: Global, parameters: &[Parameter]) -> Result<Vec<EventId>, Fault>
    ensures ok { IfOk result (λ ids.
        definition.v_parameters (map parameter_shown parameters.now) ≡ Ok ids.items) }
    ensures err { IfErr result (λ fault.
        ((fault ≡ Fault.Memory) × IsOk (definition.v_parameters (map parameter_shown parameters.now)))
        ⊎ (definition.v_parameters (map parameter_shown parameters.now) ≡ Err fault)) }
{
    if first_named(parameters, "v").is_none() {
        return Err(Fault::Missing(MissingParameter::V));
    }
    if !are_event_ids(parameters, "v") {
        return Err(Fault::Invalid(InvalidPart::EventId));
    }
    let texts = all_named(alloc, parameters, "v")?;
    let ids = parsed_ids(alloc, &texts)?;
    Ok(ids)
}

// Whether each value under this name is an event id.
fn are_event_ids(parameters: &[Parameter], name: &str) -> bool
    ensures { result ≡ list_all is_event_id (all_named_of name.now (map parameter_shown parameters.now)) }
{
    for parameter in parameters {
        if parameter.is_named(name) && !EventId::is(&parameter.value) {
            return false;
        }
    }
    true
}

fn parsed_ids(alloc: Global, texts: &[&str]) -> Result<Vec<EventId>, AllocError>
    requires { list_all is_event_id (map (λ t. t.now) texts.now) ≡ true }
    ensures { IfOk result (λ ids. ids.items ≡ map (λ t. t.now) texts.now) }
{
    let mut ids = Vec::with_capacity(alloc, texts.len())?;
    for text in texts {
        let id = parsed_id(alloc, text)?;
        ids.push(id)?;
    }
    Ok(ids)
}

// The event id that a text is.
fn parsed_id(alloc: Global, text: &str) -> Result<EventId, AllocError>
    requires { is_event_id text.now ≡ true }
    ensures { IfOk result (λ id. id ≡ text.now) }
{
    match EventId::parse(alloc, text) {
        Ok(id) => Ok(id),
        Err(IdError::Memory) => Err(AllocError),
        Err(IdError::NotAnId(_)) => unreachable!(),
    }
}

/// The number that the first parameter `limit` is, and 100 where it is more. It takes no memory.
///
/// `Missing` where there is none, `Invalid` where it is not decimal digits alone. Source: the Matrix specification,
/// Server-Server API, `GET /_matrix/federation/v1/backfill/{roomId}`.
pub(crate) fn limit_parameter(parameters: &[Parameter]) -> Result<u64, Fault>
    ensures { result ≡ definition.limit_parameter (map parameter_shown parameters.now) }
{
    let Some(text) = first_named(parameters, "limit") else {
        return Err(Fault::Missing(MissingParameter::Limit));
    };
    if !is_number(text) {
        return Err(Fault::Invalid(InvalidPart::Limit));
    }
    Ok(number_up_to_most(text))
}

fn is_number(text: &str) -> bool
    ensures { result ≡ definition.is_number text.now }
{
    !text.is_empty() && has_only_digits(text.as_bytes())
}

// The number that decimal digits are, where it is not over the most that a backfill gives.
fn number_up_to_most(text: &str) -> u64
    requires { definition.is_number text.now ≡ true }
    ensures { result ≡ min (decimal_value text.now) 100 }
{
    match text.parse::<u64>() {
        Ok(number) => number.min(MOST_BACKFILLED),
        Err(_) => MOST_BACKFILLED,
    }
}

/// The versions of rooms that the parameters `ver` are, in their order, each of them any text; none where there is none.
///
/// `AllocError` where no memory was left. Source: the Matrix specification, Server-Server API,
/// `GET /_matrix/federation/v1/make_join/{roomId}/{userId}`.
pub(crate) fn version_parameters(
    alloc: Global,
    parameters: &[Parameter],
) -> Result<VersionList, AllocError>
    ensures { IfOk result (λ versions.
        versions ≡ all_named_of (codes "ver") (map parameter_shown parameters.now)) }
{
    let texts = all_named(alloc, parameters, "ver")?;
    let versions = copies_of(alloc, &texts)?;
    Ok(VersionList::new(versions))
}

fn copies_of(alloc: Global, texts: &[&str]) -> Result<Vec<String>, AllocError>
    ensures { IfOk result (λ copies. map string_bytes copies.items ≡ map (λ t. t.now) texts.now) }
{
    let mut copies = Vec::with_capacity(alloc, texts.len())?;
    for text in texts {
        let copy = String::from_str(alloc, text)?;
        copies.push(copy)?;
    }
    Ok(copies)
}
