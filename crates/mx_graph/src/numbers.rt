// Numbers of events.
ghost use Rattle.std.specs.Prelude.{◌≡◌, ◌≤◌, ◌<◌, ◌^◌, ◌↔◌, All, IsTrue, [], length, min, ℕ};
ghost use Rattle.mx_graph.specs.Record.{is_in};

use std::marker::Model;

/// The number of an event in a graph: its row's place, from 0. A number is of the one graph that gave it.
#[derive(Clone, Copy, Debug, PartialEq, Eq, PartialOrd, Ord, Hash)]
pub struct EventNo {
    place: u32,
}

impl Model for EventNo {
    ghost Value = { ℕ };

    ghost view = { λ e. e.place };

    ghost inverse = { λ n. record { place = n } };
}

impl EventNo {
    /// The number of the row at a place.
    pub fn at(place: u32) -> EventNo
        ensures { result ≡ place }
    {
        EventNo { place }
    }

    /// The place of its row.
    pub fn index(self) -> usize
        ensures index { result ≡ self }
        ensures small { result < 2 ^ 32 }
    {
        self.place as usize
    }
}

/// The least of these numbers; of none, the first number of all.
pub fn least_of(numbers: &[EventNo]) -> EventNo
    ensures least { All (λ number. result ≤ number) numbers.now }
    ensures one { IsTrue (is_in numbers.now result) ↔ (0 < length numbers.now) }
    ensures none { numbers.now ≡ [] → result ≡ 0 }
{
    let mut least = match numbers.first() {
        Some(number) => *number,
        None => EventNo::at(0),
    };
    for number in numbers {
        least = lesser(least, *number);
    }
    least
}

fn lesser(a: EventNo, b: EventNo) -> EventNo
    ensures { result ≡ min a b }
{
    if a.place <= b.place { a } else { b }
}
