// Rows of graphs, and numbers that look random.
ghost use Rattle.std.specs.Prelude.{◌<◌, IfSome, length};

use mx_graph::{EventNo, Graph, GraphRow};
use mx_ident::EventId;
use mx_pdu::Pdu;
use serde_json::Value;
use std::alloc::Global;
use std::test::Fail;

// What a state event has, with its content and its auth events as JSON.
#[derive(Clone, Copy)]
pub(crate) struct Written<'e> {
    pub kind: &'e str,
    pub state_key: &'e str,
    pub sender: &'e str,
    pub time: u64,
    pub content: &'e str,
    pub auth_events: &'e str,
}

// The row of an event, whose id is a number.
pub(crate) fn row(alloc: Global, number: u32, written: &Written<'_>) -> Result<GraphRow, Fail> {
    let Written {
        kind,
        state_key,
        sender,
        time,
        content,
        auth_events,
    } = *written;
    let json = format!(in alloc;
        "{{\"auth_events\":{auth_events},\"content\":{content},\"depth\":1,\"hashes\":{{}},\"origin_server_ts\":{time},\"prev_events\":[],\"room_id\":\"!r:a.example\",\"sender\":\"{sender}\",\"signatures\":{{}},\"state_key\":\"{state_key}\",\"type\":\"{kind}\"}}"
    )?;
    let value = Value::from_str(alloc, json.as_str())?;
    let event = Pdu::from_value(alloc, value)?;
    let id = format!(in alloc; "${number}")?;
    let id = EventId::parse(alloc, id.as_str())?;
    Ok(GraphRow {
        id,
        event,
        rejected: false,
    })
}

// The event whose id is this number, or nothing where it is not there or no memory is left.
pub(crate) fn event_at(alloc: Global, graph: &Graph, number: u32) -> Option<EventNo>
    ensures { IfSome result (λ event. event < length graph.now) }
{
    let id = format!(in alloc; "${number}").ok()?;
    let id = EventId::parse(alloc, id.as_str()).ok()?;
    graph.find(&id)
}

// The next number of a sequence that looks random.
pub(crate) fn next(seed: u64) -> u64 {
    seed.wrapping_mul(6_364_136_223_846_793_005)
        .wrapping_add(1_442_695_040_888_963_407)
}
