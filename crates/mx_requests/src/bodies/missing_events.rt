// What the body of a query for missing events says.
ghost use Rattle.std.specs.Prelude.{◌≡◌, ◌⊎◌, Err, IfErr, IfOk, None, Ok, Some};
ghost use Rattle.serde_json.specs.Data.{Data};
ghost use Rattle.mx_requests.specs.Requests as definition;

use crate::faults::Fault;
use json::Scratch;
use mx_body::{BodyError, missing_question};
use mx_ident::RoomId;
use mx_room::{EventIdList, Query};
use std::alloc::Global;

/// What a body asks of a room about missing events. No value is made of the body. The scratch is kept from body to body.
///
/// An absent list is empty, an absent `limit` 10, an absent `min_depth` 0. `NotJson` where it is not UTF-8, or no JSON, or
/// nested deeper than 127; `WrongForm` where it is no object, or a value of it is of a wrong kind; `Memory`. Source: the
/// Matrix specification, Server-Server API, `POST /_matrix/federation/v1/get_missing_events/{roomId}`.
pub(crate) fn missing_query(
    alloc: Global,
    scratch: &mut Scratch,
    room: RoomId,
    body: &[u8],
) -> Result<Query, Fault>
    ensures ok { IfOk result (λ query. (d : Data) × (definition.body_value body.now ≡ Ok d)
        × (definition.missing_query room d ≡ Some query)) }
    ensures err { IfErr result (λ fault. (fault ≡ Fault.Memory) ⊎ ((definition.body_value body.now ≡ Err fault)
        ⊎ ((fault ≡ Fault.WrongForm) × (d : Data) × (definition.body_value body.now ≡ Ok d)
        × (definition.missing_query room d ≡ None)))) }
{
    match missing_question(alloc, scratch, body) {
        Ok(Some(question)) => Ok(Query::Missing {
            room,
            earliest: EventIdList::new(question.earliest),
            latest: EventIdList::new(question.latest),
            limit: question.limit,
            min_depth: question.min_depth,
        }),
        Ok(None) => Err(Fault::WrongForm),
        Err(BodyError::Memory) => Err(Fault::Memory),
        Err(BodyError::NotJson) => Err(Fault::NotJson),
    }
}
