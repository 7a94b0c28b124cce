// Events for the tests: two rooms, and what is sent to them. Hashes and ids are by tests/matrix_events.py.
use crate::values::{event, key, refused};
use base64::engine::general_purpose::STANDARD_NO_PAD;
use mx_book::TransactionKey;
use mx_pdu::Pdu;
use mx_redact::content_hash;
use serde_json::Value;
use std::alloc::{AllocError, Global};

// The two rooms of the tests.
#[derive(Clone, Copy)]
pub enum TestRoom {
    First,
    Second,
}

impl TestRoom {
    // The room's id.
    pub fn id(self) -> &'static str {
        let RoomEvents { room, .. } = self.events();
        room
    }

    // The id of the room's last event.
    pub fn last_id(self) -> &'static str {
        let RoomEvents { ids, .. } = self.events();
        let [_, _, _, _, _, last] = ids;
        last
    }

    fn events(self) -> RoomEvents {
        match self {
            TestRoom::First => FIRST_ROOM,
            TestRoom::Second => SECOND_ROOM,
        }
    }
}

// The events of a room: A creates it and joins, gives B and C level 50 and lets everybody join, and they join.
#[derive(Drop)]
struct RoomEvents {
    room: &'static str,
    create: &'static str,
    others: [&'static str; 5],
    ids: [&'static str; 6],
}

const FIRST_ROOM: RoomEvents = RoomEvents {
    room: "!r:a.example",
    create: "{\"auth_events\":[],\"content\":{\"creator\":\"@a:a.example\",\"room_version\":\"6\"},\"depth\":1,\"hashes\":{\"sha256\":\"zibTlrvpTSp/W5vkL4NdWNTuf4IhaqcyDIAshZlSXI4\"},\"origin_server_ts\":10,\"prev_events\":[],\"room_id\":\"!r:a.example\",\"sender\":\"@a:a.example\",\"signatures\":{\"a.example\":{\"ed25519:1\":\"s\"}},\"state_key\":\"\",\"type\":\"m.room.create\"}",
    others: [
        "{\"auth_events\":[\"$qLRaZ6LK0EzM7N0QAK7zbj4nIEs8YGhE5HTIHgR9EG8\"],\"content\":{\"membership\":\"join\"},\"depth\":2,\"hashes\":{\"sha256\":\"PgKCWnxd5iHIdY7+Ygt/CeyIitDgPOkYs0ZbxWbUR3k\"},\"origin_server_ts\":20,\"prev_events\":[\"$qLRaZ6LK0EzM7N0QAK7zbj4nIEs8YGhE5HTIHgR9EG8\"],\"room_id\":\"!r:a.example\",\"sender\":\"@a:a.example\",\"signatures\":{\"a.example\":{\"ed25519:1\":\"s\"}},\"state_key\":\"@a:a.example\",\"type\":\"m.room.member\"}",
        "{\"auth_events\":[\"$qLRaZ6LK0EzM7N0QAK7zbj4nIEs8YGhE5HTIHgR9EG8\",\"$w5oFWCoXM5r12liOySpumqFyyCcft_HlBTfvR4_TmJ0\"],\"content\":{\"users\":{\"@a:a.example\":100,\"@b:b.example\":50,\"@c:c.example\":50}},\"depth\":3,\"hashes\":{\"sha256\":\"s64xvfk7x5OuqaGKFQR10Ljn1T/IFtmc+HVrfhKnR7k\"},\"origin_server_ts\":30,\"prev_events\":[\"$w5oFWCoXM5r12liOySpumqFyyCcft_HlBTfvR4_TmJ0\"],\"room_id\":\"!r:a.example\",\"sender\":\"@a:a.example\",\"signatures\":{\"a.example\":{\"ed25519:1\":\"s\"}},\"state_key\":\"\",\"type\":\"m.room.power_levels\"}",
        "{\"auth_events\":[\"$qLRaZ6LK0EzM7N0QAK7zbj4nIEs8YGhE5HTIHgR9EG8\",\"$w5oFWCoXM5r12liOySpumqFyyCcft_HlBTfvR4_TmJ0\",\"$1LEN92gsYmlzXoE_cqCPy5a5VjO2c1gh7MBh-DVPZI4\"],\"content\":{\"join_rule\":\"public\"},\"depth\":4,\"hashes\":{\"sha256\":\"MjvhksSN0Vtp9fK12LcARFkThvgQI1mJ/EcG+z8p2Jo\"},\"origin_server_ts\":40,\"prev_events\":[\"$1LEN92gsYmlzXoE_cqCPy5a5VjO2c1gh7MBh-DVPZI4\"],\"room_id\":\"!r:a.example\",\"sender\":\"@a:a.example\",\"signatures\":{\"a.example\":{\"ed25519:1\":\"s\"}},\"state_key\":\"\",\"type\":\"m.room.join_rules\"}",
        "{\"auth_events\":[\"$qLRaZ6LK0EzM7N0QAK7zbj4nIEs8YGhE5HTIHgR9EG8\",\"$1LEN92gsYmlzXoE_cqCPy5a5VjO2c1gh7MBh-DVPZI4\",\"$jUANv09wA0BOVqzOH-5iB7Uz_7qtm3meEWnRoZ0fpYU\"],\"content\":{\"membership\":\"join\"},\"depth\":5,\"hashes\":{\"sha256\":\"0gZCT36E2J7C4mqx+STKOUoefbbzhqCcYhUrx3mrjGM\"},\"origin_server_ts\":50,\"prev_events\":[\"$jUANv09wA0BOVqzOH-5iB7Uz_7qtm3meEWnRoZ0fpYU\"],\"room_id\":\"!r:a.example\",\"sender\":\"@b:b.example\",\"signatures\":{\"b.example\":{\"ed25519:1\":\"s\"}},\"state_key\":\"@b:b.example\",\"type\":\"m.room.member\"}",
        "{\"auth_events\":[\"$qLRaZ6LK0EzM7N0QAK7zbj4nIEs8YGhE5HTIHgR9EG8\",\"$1LEN92gsYmlzXoE_cqCPy5a5VjO2c1gh7MBh-DVPZI4\",\"$jUANv09wA0BOVqzOH-5iB7Uz_7qtm3meEWnRoZ0fpYU\"],\"content\":{\"membership\":\"join\"},\"depth\":6,\"hashes\":{\"sha256\":\"ThGuoJVuJH7svGnl0DqYbkxn3BZ0j899yIXbyQSMhuw\"},\"origin_server_ts\":60,\"prev_events\":[\"$cPPf7czzvsc2bvSrh_bbY6SEK6SZBvb9QUYtQrHHtr0\"],\"room_id\":\"!r:a.example\",\"sender\":\"@c:c.example\",\"signatures\":{\"c.example\":{\"ed25519:1\":\"s\"}},\"state_key\":\"@c:c.example\",\"type\":\"m.room.member\"}",
    ],
    ids: [
        "$qLRaZ6LK0EzM7N0QAK7zbj4nIEs8YGhE5HTIHgR9EG8",
        "$w5oFWCoXM5r12liOySpumqFyyCcft_HlBTfvR4_TmJ0",
        "$1LEN92gsYmlzXoE_cqCPy5a5VjO2c1gh7MBh-DVPZI4",
        "$jUANv09wA0BOVqzOH-5iB7Uz_7qtm3meEWnRoZ0fpYU",
        "$cPPf7czzvsc2bvSrh_bbY6SEK6SZBvb9QUYtQrHHtr0",
        "$1brV-WBZindaj3lrhUS0tumu0XX2Q2ivUCaLElTbItE",
    ],
};

// The reply to the transaction of the events behind the first room's create event.
pub const REPLY_TO_FIRST_ROOM: &str =
    "{\"pdus\":{\"$1LEN92gsYmlzXoE_cqCPy5a5VjO2c1gh7MBh-DVPZI4\":{},\"$1brV-WBZindaj3lrhUS0tumu0XX2Q2ivUCaLElTbItE\":{},\"$cPPf7czzvsc2bvSrh_bbY6SEK6SZBvb9QUYtQrHHtr0\":{},\"$jUANv09wA0BOVqzOH-5iB7Uz_7qtm3meEWnRoZ0fpYU\":{},\"$w5oFWCoXM5r12liOySpumqFyyCcft_HlBTfvR4_TmJ0\":{}}}";

// D joins the first room.
pub const JOIN_OF_D: &str =
    "{\"auth_events\":[\"$qLRaZ6LK0EzM7N0QAK7zbj4nIEs8YGhE5HTIHgR9EG8\",\"$1LEN92gsYmlzXoE_cqCPy5a5VjO2c1gh7MBh-DVPZI4\",\"$jUANv09wA0BOVqzOH-5iB7Uz_7qtm3meEWnRoZ0fpYU\"],\"content\":{\"membership\":\"join\"},\"depth\":7,\"hashes\":{\"sha256\":\"wIcNusjooP9ogSCOBi7fpr1q1nAJXfQiKL2WwXMBnpI\"},\"origin_server_ts\":70,\"prev_events\":[\"$1brV-WBZindaj3lrhUS0tumu0XX2Q2ivUCaLElTbItE\"],\"room_id\":\"!r:a.example\",\"sender\":\"@d:d.example\",\"signatures\":{\"d.example\":{\"ed25519:1\":\"s\"}},\"state_key\":\"@d:d.example\",\"type\":\"m.room.member\"}";

pub const ID_OF_JOIN_OF_D: &str = "$asOKoHHX7MvnGcMLhdDchoFmQtvw5UVvg5B0POS_N7I";

const SECOND_ROOM: RoomEvents = RoomEvents {
    room: "!s:a.example",
    create: "{\"auth_events\":[],\"content\":{\"creator\":\"@a:a.example\",\"room_version\":\"6\"},\"depth\":1,\"hashes\":{\"sha256\":\"qUcbb2K7v6tk7bOZ65STR7ZgqiOokz4i3BGo6dyzVtc\"},\"origin_server_ts\":10,\"prev_events\":[],\"room_id\":\"!s:a.example\",\"sender\":\"@a:a.example\",\"signatures\":{\"a.example\":{\"ed25519:1\":\"s\"}},\"state_key\":\"\",\"type\":\"m.room.create\"}",
    others: [
        "{\"auth_events\":[\"$R-Svq2F0icCWW3zqIC8-rGGe2pvc28BYmywNZEUdRzA\"],\"content\":{\"membership\":\"join\"},\"depth\":2,\"hashes\":{\"sha256\":\"RNx4V2q9wV5OtPVOdWDQ96+ndPs9spjuaoE1H/lcgsU\"},\"origin_server_ts\":20,\"prev_events\":[\"$R-Svq2F0icCWW3zqIC8-rGGe2pvc28BYmywNZEUdRzA\"],\"room_id\":\"!s:a.example\",\"sender\":\"@a:a.example\",\"signatures\":{\"a.example\":{\"ed25519:1\":\"s\"}},\"state_key\":\"@a:a.example\",\"type\":\"m.room.member\"}",
        "{\"auth_events\":[\"$R-Svq2F0icCWW3zqIC8-rGGe2pvc28BYmywNZEUdRzA\",\"$1VAxI9-w6nt2kOfQt058W99ne06QbVCIz55ZZ9XbzSg\"],\"content\":{\"users\":{\"@a:a.example\":100,\"@b:b.example\":50,\"@c:c.example\":50}},\"depth\":3,\"hashes\":{\"sha256\":\"Uzbk2IduHgGmf3vqV5MqByl/BCycMU5FNKQ6+NAShl8\"},\"origin_server_ts\":30,\"prev_events\":[\"$1VAxI9-w6nt2kOfQt058W99ne06QbVCIz55ZZ9XbzSg\"],\"room_id\":\"!s:a.example\",\"sender\":\"@a:a.example\",\"signatures\":{\"a.example\":{\"ed25519:1\":\"s\"}},\"state_key\":\"\",\"type\":\"m.room.power_levels\"}",
        "{\"auth_events\":[\"$R-Svq2F0icCWW3zqIC8-rGGe2pvc28BYmywNZEUdRzA\",\"$1VAxI9-w6nt2kOfQt058W99ne06QbVCIz55ZZ9XbzSg\",\"$wAX5F34_XhnZRDjHLsii5uTjPDGu7Xv2ugsRMZkt2_c\"],\"content\":{\"join_rule\":\"public\"},\"depth\":4,\"hashes\":{\"sha256\":\"4XGqneP4s4rXsa1DHqre/DYI4Fyc7NXdOOlpYP36dQg\"},\"origin_server_ts\":40,\"prev_events\":[\"$wAX5F34_XhnZRDjHLsii5uTjPDGu7Xv2ugsRMZkt2_c\"],\"room_id\":\"!s:a.example\",\"sender\":\"@a:a.example\",\"signatures\":{\"a.example\":{\"ed25519:1\":\"s\"}},\"state_key\":\"\",\"type\":\"m.room.join_rules\"}",
        "{\"auth_events\":[\"$R-Svq2F0icCWW3zqIC8-rGGe2pvc28BYmywNZEUdRzA\",\"$wAX5F34_XhnZRDjHLsii5uTjPDGu7Xv2ugsRMZkt2_c\",\"$yAEiNXBlhhC8R4RMXZr_9H0enD98OVRkUcWyoIgRwI0\"],\"content\":{\"membership\":\"join\"},\"depth\":5,\"hashes\":{\"sha256\":\"y4B8KKnNiq9yeV5L2pZACQ7OB0qpCcNiTwy2jlX0pAY\"},\"origin_server_ts\":50,\"prev_events\":[\"$yAEiNXBlhhC8R4RMXZr_9H0enD98OVRkUcWyoIgRwI0\"],\"room_id\":\"!s:a.example\",\"sender\":\"@b:b.example\",\"signatures\":{\"b.example\":{\"ed25519:1\":\"s\"}},\"state_key\":\"@b:b.example\",\"type\":\"m.room.member\"}",
        "{\"auth_events\":[\"$R-Svq2F0icCWW3zqIC8-rGGe2pvc28BYmywNZEUdRzA\",\"$wAX5F34_XhnZRDjHLsii5uTjPDGu7Xv2ugsRMZkt2_c\",\"$yAEiNXBlhhC8R4RMXZr_9H0enD98OVRkUcWyoIgRwI0\"],\"content\":{\"membership\":\"join\"},\"depth\":6,\"hashes\":{\"sha256\":\"9Dp79BpJFxYu1ysAZn23ASFJb6sU5k/ApskKShh3nwY\"},\"origin_server_ts\":60,\"prev_events\":[\"$Bdogj0PpQBrw-TJEEHPLD_MZyPvugsb1R2_vYvygBig\"],\"room_id\":\"!s:a.example\",\"sender\":\"@c:c.example\",\"signatures\":{\"c.example\":{\"ed25519:1\":\"s\"}},\"state_key\":\"@c:c.example\",\"type\":\"m.room.member\"}",
    ],
    ids: [
        "$R-Svq2F0icCWW3zqIC8-rGGe2pvc28BYmywNZEUdRzA",
        "$1VAxI9-w6nt2kOfQt058W99ne06QbVCIz55ZZ9XbzSg",
        "$wAX5F34_XhnZRDjHLsii5uTjPDGu7Xv2ugsRMZkt2_c",
        "$yAEiNXBlhhC8R4RMXZr_9H0enD98OVRkUcWyoIgRwI0",
        "$Bdogj0PpQBrw-TJEEHPLD_MZyPvugsb1R2_vYvygBig",
        "$H1KoKaFehYnDbF0vZ_ToMisTCedpYG946ZIik5zZXEw",
    ],
};

// The room's events behind its create event.
pub fn others_of(alloc: Global, room: TestRoom) -> Result<Vec<Pdu>, AllocError> {
    let RoomEvents { others, .. } = room.events();
    events(alloc, &others)
}

pub fn create_of(alloc: Global, room: TestRoom) -> Result<Pdu, AllocError> {
    let RoomEvents { create, .. } = room.events();
    event(alloc, create)
}

pub fn events(alloc: Global, texts: &[&str]) -> Result<Vec<Pdu>, AllocError> {
    let mut events = Vec::new(alloc);
    for text in texts {
        events.push(event(alloc, text)?)?;
    }
    Ok(events)
}

// The transaction of a.example with this number.
pub fn key_of(alloc: Global, txn: &str) -> Result<TransactionKey, AllocError> {
    key(alloc, "a.example", txn)
}

// A message of A behind the room's last event.
pub fn message(alloc: Global, of: TestRoom, body: &str) -> Result<Pdu, AllocError> {
    let hash = hash_of_message(alloc, of, body)?;
    event(alloc, &message_text(alloc, of, body, &hash)?)
}

fn hash_of_message(alloc: Global, of: TestRoom, body: &str) -> Result<String, AllocError> {
    let unhashed = message_text(alloc, of, body, "")?;
    let value = Value::from_str(alloc, &unhashed).map_err(refused)?;
    let members = value.as_object().ok_or(AllocError)?;
    let hash = content_hash(members).map_err(refused)?;
    STANDARD_NO_PAD.encode(alloc, &hash)
}

fn message_text(alloc: Global, of: TestRoom, body: &str, hash: &str) -> Result<String, AllocError> {
    let RoomEvents { room, ids, .. } = of.events();
    let [create, join, levels, _, _, last] = ids;
    format!(in alloc;
        "{{\"auth_events\":[\"{create}\",\"{join}\",\"{levels}\"],\"content\":{{\"body\":\"{body}\"}},\"depth\":7,\"hashes\":{{\"sha256\":\"{hash}\"}},\"origin_server_ts\":70,\"prev_events\":[\"{last}\"],\"room_id\":\"{room}\",\"sender\":\"@a:a.example\",\"signatures\":{{\"a.example\":{{\"ed25519:1\":\"s\"}}}},\"type\":\"m.room.message\"}}"
    )
}
