// Which of the open connections gives way to a new one.
ghost use Rattle.std.specs.Prelude.{◌≡◌};
ghost use Rattle.mx_http.specs.Places.{longer, longest_from, gives_way};

use crate::places::activities::{Activity, Waiting};

/// A connection's place among those that are open, and since when it waits for its client.
#[derive(Clone, Copy)]
pub struct Wait {
    pub place: usize,
    pub since: u64,
}

// The longer of the wait in this place, which may be none, and the longest in the places behind it.
pub(crate) fn longer(since: Option<u64>, place: usize, behind: Option<Wait>) -> Option<Wait>
    ensures { result ≡ longer since place behind }
{
    let Some(since) = since else {
        return behind;
    };
    match behind {
        Some(wait) if wait.since < since => Some(wait),
        _ => Some(Wait { place, since }),
    }
}

// Which has waited so for longest.
fn longest(waiting: Waiting, activities: &[Activity]) -> Option<Wait>
    ensures { result ≡ longest_from waiting 0 activities.now }
{
    let mut found = None;
    for place in (0..activities.len()).rev() {
        found = longer(activities[place].since(waiting), place, found);
    }
    found
}

/// The place of the connection that gives way: of the one that has been idle longest, and where none is idle of the one
/// whose client has been waited for longest otherwise; of two as long, the first. None where none waits for its client.
pub fn gives_way(activities: &[Activity]) -> Option<usize>
    ensures { result ≡ gives_way activities.now }
{
    let idle = longest(Waiting::Idle, activities);
    let wait = idle.or(longest(Waiting::Slow, activities))?;
    Some(wait.place)
}
