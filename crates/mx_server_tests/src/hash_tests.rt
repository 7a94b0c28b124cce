use crate::values::refused;
use mx_canon::text;
use mx_redact::{content_digest, event_digests, redact, reference_digest, signing_bytes};
use serde_json::{Map, Value};
use sha2::{Digest, Sha256};
use std::alloc::{AllocError, Global};
use std::test::Fail;

const POWER_LEVELS: &str =
    "{\"auth_events\":[],\"content\":{\"ban\":50,\"invite\":50,\"notifications\":{\"room\":50},\"users\":{\"@a:a.example\":100}},\"depth\":4,\"hashes\":{\"sha256\":\"x\"},\"origin_server_ts\":40,\"prev_events\":[],\"room_id\":\"!r:a.example\",\"sender\":\"@a:a.example\",\"signatures\":{\"a.example\":{\"ed25519:1\":\"s\"}},\"state_key\":\"\",\"type\":\"m.room.power_levels\",\"unsigned\":{\"age\":5}}";

// Its two texts begin alike for 141 bytes.
const MESSAGE: &str =
    "{\"auth_events\":[\"$RBNvo1WzZ4oRRq0W9-hknpT7T8If536DEMBg9hyq_4o\",\"$T88qUID58cSwgtjrzS_C35dNVOdZei7Dk6AJtTNbu9U\"],\"content\":{\"body\":\"a\"},\"depth\":5,\"hashes\":{\"sha256\":\"x\"},\"type\":\"m.room.message\"}";

fn object(alloc: Global, json: &str) -> Result<Map<String, Value>, AllocError> {
    match Value::from_str(alloc, json).map_err(refused)? {
        Value::Object(members) => Ok(members),
        _ => Err(AllocError),
    }
}

// The text of an event without some of its keys, by a copy of the rest.
fn text_without(
    alloc: Global,
    event: &Map<String, Value>,
    keys: &[&str],
) -> Result<Vec<u8>, AllocError> {
    let mut rest = Map::new(alloc);
    for (key, value) in event.iter() {
        if keys.iter().all(|other| *other != key.as_str()) {
            rest.insert(key.clone()?, value.clone()?)?;
        }
    }
    text(alloc, &Value::Object(rest)).map_err(refused)
}

// The content hash, the reference hash and the text that is signed of an event, by texts that are written whole.
#[derive(Drop)]
struct PlainHashes {
    content: [u8; 32],
    reference: [u8; 32],
    signed: Vec<u8>,
}

fn plain_hashes(alloc: Global, event: &Map<String, Value>) -> Result<PlainHashes, AllocError> {
    let hashed = text_without(alloc, event, &["unsigned", "signatures", "hashes"])?;
    let redacted = redact(alloc, event)?;
    let signed = text_without(alloc, &redacted, &["signatures", "unsigned"])?;
    Ok(PlainHashes {
        content: Sha256::digest(&hashed),
        reference: Sha256::digest(&signed),
        signed,
    })
}

// Whether the hashes and the text that are made in one walk are these.
fn is_one_walk_right(
    alloc: Global,
    event: &Map<String, Value>,
    plain: &PlainHashes,
) -> Result<bool, AllocError> {
    let both = event_digests(alloc, event)?;
    let are_hashes_right = both.content == plain.content && both.reference == plain.reference;
    Ok(are_hashes_right && both.signing_text.as_slice() == plain.signed.as_slice())
}

// The first call whose answer about the event is another one than that of the plain bodies; none where all agree.
fn first_unlike(alloc: Global, json: &str) -> Result<&'static str, AllocError> {
    let event = object(alloc, json)?;
    let plain = plain_hashes(alloc, &event)?;
    if content_digest(&event) != plain.content {
        return Ok("content_digest");
    }
    if reference_digest(&event) != plain.reference {
        return Ok("reference_digest");
    }
    if !is_one_walk_right(alloc, &event, &plain)? {
        return Ok("event_digests");
    }
    let bytes = signing_bytes(alloc, &event).map_err(refused)?;
    if bytes.as_slice() != plain.signed.as_slice() {
        return Ok("signing_bytes");
    }
    Ok("")
}

// The hashes that are fed in pieces are those of a text that is written whole.
#[test]
fn walks_agree_with_the_plain_bodies(rt: HostRuntime) -> Result<(), Fail> {
    let alloc = rt.alloc();
    for json in [
        "{}",
        POWER_LEVELS,
        MESSAGE,
        "{\"content\":{\"membership\":\"join\",\"a\\\"\\u0001\":[1,-2,[],{}]},\"type\":\"m.room.member\"}",
        "{\"content\":7,\"type\":\"m.room.create\",\"unsigned\":{\"x\":9007199254740992}}",
    ] {
        assert_eq!(rt; first_unlike(alloc, json)?, "", "at {json}");
    }
    Ok(())
}
