ghost use Rattle.std.specs.Prelude.{◌<◌, All, IfOk, OnOk, length};
ghost use Rattle.mx_state_res.specs.Numbered.{AreKnown};

use crate::rows::{Written, event_at, next, row};
use mx_auth::RoomVersion;
use mx_graph::{Graph, GraphRow};
use mx_state_res::{resolve, resolve_numbered};
use mx_states::{StateMap, StateNo, States};
use std::alloc::Global;
use std::test::Fail;

const A: &str = "@a:a.example";

const B: &str = "@b:a.example";

fn add_row(
    alloc: Global,
    graph: &mut Graph,
    number: u32,
    written: &Written<'_>,
) -> Result<(), Fail> {
    let row = row(alloc, number, written)?;
    graph.add(row)?;
    Ok(())
}

// A room of two users, in which the second one may set a topic where the power levels are those of `$5`.
fn room(alloc: Global) -> Result<Graph, Fail> {
    let mut graph = Graph::new(alloc);
    for (number, key, sender, content, auth_events) in [
        (
            0,
            ("m.room.create", ""),
            A,
            "{\"creator\":\"@a:a.example\"}",
            "[]",
        ),
        (
            1,
            ("m.room.member", A),
            A,
            "{\"membership\":\"join\"}",
            "[\"$0\"]",
        ),
        (
            2,
            ("m.room.power_levels", ""),
            A,
            "{\"users\":{\"@a:a.example\":100}}",
            "[\"$0\",\"$1\"]",
        ),
        (
            3,
            ("m.room.join_rules", ""),
            A,
            "{\"join_rule\":\"public\"}",
            "[\"$0\",\"$1\",\"$2\"]",
        ),
        (
            4,
            ("m.room.member", B),
            B,
            "{\"membership\":\"join\"}",
            "[\"$0\",\"$2\",\"$3\"]",
        ),
        (
            5,
            ("m.room.power_levels", ""),
            A,
            "{\"users\":{\"@a:a.example\":100,\"@b:a.example\":50}}",
            "[\"$0\",\"$1\",\"$2\"]",
        ),
    ] {
        let (kind, state_key) = key;
        let written = Written {
            kind,
            state_key,
            sender,
            time: 5,
            content,
            auth_events,
        };
        add_row(alloc, &mut graph, number, &written)?;
    }
    Ok(graph)
}

// That room with some further events: topics of both users, power levels, and bans of the second one.
fn random_room(alloc: Global, first: u64) -> Result<Graph, Fail> {
    let mut graph = room(alloc)?;
    let mut seed = first;
    for number in 6..14 {
        seed = next(seed);
        let row = random_row(alloc, number, seed / 65_536)?;
        graph.add(row)?;
    }
    Ok(graph)
}

fn random_row(alloc: Global, number: u32, digits: u64) -> Result<GraphRow, Fail> {
    let levels = if digits % 2 == 0 { 2 } else { 5 };
    let level = digits / 16 % 3 * 50;
    let topic = format!(in alloc; "{{\"topic\":\"{number}\"}}")?;
    let users = format!(in alloc;
        "{{\"users\":{{\"@a:a.example\":100,\"@b:a.example\":{level}}}}}"
    )?;
    let (key, sender, content) = match digits / 2 % 5 {
        0 => (("m.room.topic", ""), A, topic.as_str()),
        1 => (("m.room.topic", ""), B, topic.as_str()),
        2 => (("m.room.power_levels", ""), A, users.as_str()),
        3 => (("m.room.member", B), A, "{\"membership\":\"ban\"}"),
        _ => (("m.room.name", ""), B, "{\"name\":\"n\"}"),
    };
    let member = if sender == A { 1 } else { 4 };
    let other = if key.0 == "m.room.member" {
        ",\"$4\""
    } else {
        ""
    };
    let auth_events = format!(in alloc; "[\"$0\",\"${member}\",\"${levels}\"{other}]")?;
    let (kind, state_key) = key;
    let written = Written {
        kind,
        state_key,
        sender,
        time: 5,
        content,
        auth_events: auth_events.as_str(),
    };
    row(alloc, number, &written)
}

// A state of the first events, and of some of the further ones.
fn random_state(alloc: Global, graph: &Graph, first: u64) -> Result<StateMap, Fail>
    ensures { IfOk result (λ state. All (λ e. e.1 < length graph.now) state) }
{
    let mut state = StateMap::new(alloc);
    let mut digits = first / 65_536;
    for number in 0..14 {
        if number < 5 || digits % 3 == 0 {
            put_event(alloc, &mut state, graph, number)?;
        }
        digits /= 3;
    }
    Ok(state)
}

fn put_event(alloc: Global, state: &mut StateMap, graph: &Graph, number: u32) -> Result<(), Fail>
    requires { All (λ e. e.1 < length graph.now) state.old }
    ensures { OnOk result (All (λ e. e.1 < length graph.now) state.new) }
{
    let number = event_at(alloc, graph, number).ok_or("no event")?;
    let event = &graph.row(number).event;
    let state_key = event.state_key().ok_or("no state event")?;
    state.insert(event.kind(), state_key, number)?;
    Ok(())
}

fn add(states: &mut States, graph: &Graph, state: &StateMap) -> Result<StateNo, Fail>
    requires states { AreKnown graph.now states.old }
    requires state { All (λ e. e.1 < length graph.now) state.now }
    ensures known { OnOk result (AreKnown graph.now states.new) }
    ensures more { OnOk result (length states.old < length states.new) }
    ensures number { IfOk result (λ number. number < length states.new) }
{
    let number = states.add(state)?;
    Ok(number)
}

fn are_same(first: &StateMap, second: &StateMap) -> bool {
    for entry in first.entries() {
        if second.get(entry.kind(), entry.state_key()) != Some(entry.event()) {
            return false;
        }
    }
    first.entries().len() == second.entries().len()
}

// What three random states resolve to, by both bodies, and how many states are added.
fn compare(alloc: Global, first: u64) -> Result<(bool, usize), Fail> {
    let graph = random_room(alloc, first)?;
    let one = random_state(alloc, &graph, next(first))?;
    let two = random_state(alloc, &graph, next(next(first)))?;
    let three = random_state(alloc, &graph, next(next(next(first))))?;
    let plain = resolve(RoomVersion::V6, alloc, &graph, &[&one, &two, &three])?;
    let mut states = States::new(alloc);
    let one = add(&mut states, &graph, &one)?;
    let two = add(&mut states, &graph, &two)?;
    let three = add(&mut states, &graph, &three)?;
    let number = resolve_numbered(
        RoomVersion::V6,
        alloc,
        &graph,
        &mut states,
        &[two, one, three, one],
    )?;
    let found = states.state(number).map(alloc)?;
    Ok((are_same(&plain, &found), states.len()))
}

#[test]
fn one_state_by_both_bodies(rt: HostRuntime) -> Result<(), Fail> {
    let alloc = rt.alloc();
    let mut is_kept = false;
    let mut is_added = false;
    let mut seed = 7;
    for _ in 0..150 {
        let (are_same, count) = compare(alloc, seed)?;
        assert!(rt; are_same);
        if count == 3 {
            is_kept = true;
        } else {
            is_added = true;
        }
        seed = next(seed);
    }
    assert!(rt; is_kept);
    assert!(rt; is_added);
    Ok(())
}
