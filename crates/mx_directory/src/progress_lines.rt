// How far the program is, told on standard error where that is a terminal.
ghost use Rattle.std.specs.Prelude.{◌≡◌, ◌*◌, ◌/◌, if◌then◌else◌, nat_le};

use std::io::IsTerminal;
use std::time::{Clock, Duration};

/// Tells each second how much is done, where standard error is a terminal; else nothing.
#[derive(Drop)]
pub struct ProgressLine<'a> {
    host: &'a HostRuntime,
    // When it was told last. None where nothing is to be told.
    told: Option<Duration>,
    // Whether a share was told, whose line has no end yet.
    is_begun: bool,
}

impl<'a> ProgressLine<'a> {
    /// One that has told nothing yet.
    pub fn new(host: &'a HostRuntime) -> ProgressLine<'a> {
        let told = if host.stderr().is_terminal() {
            host.monotonic().ok()
        } else {
            None
        };
        ProgressLine {
            host,
            told,
            is_begun: false,
        }
    }

    /// Tells that so many of these are done, at most once in each second of the clock.
    pub fn tell(&mut self, count: u64, unit: &str) {
        if self.is_time() {
            let _ = eprintln!(self.host; "{count} {unit}");
        }
    }

    /// Tells which share of all is done, at most once in each second of the clock, each time in place of what was told before.
    /// [`end_share`](ProgressLine::end_share) ends that line.
    pub fn tell_share(&mut self, count: u64, all: u64, unit: &str) {
        if self.is_time() {
            let share = share_of(count, all);
            let _ = eprint!(self.host; "\r{share} % of {all} {unit}");
            self.is_begun = true;
        }
    }

    /// Tells at last which share of all is done, and ends the line, if one was begun.
    pub fn end_share(&mut self, count: u64, all: u64, unit: &str) {
        if self.is_begun {
            let share = share_of(count, all);
            let _ = eprintln!(self.host; "\r{share} % of {all} {unit}");
            self.is_begun = false;
        }
    }

    // Whether it is to be told again. That is noted.
    fn is_time(&mut self) -> bool {
        let Some(told) = self.told else {
            return false;
        };
        let Ok(now) = self.host.monotonic() else {
            return false;
        };
        if now.as_secs() <= told.as_secs() {
            return false;
        }
        self.told = Some(now);
        true
    }

    /// Tells that so many of these are done, whenever it was told last.
    pub fn tell_now(&self, count: u64, unit: &str) {
        if self.told.is_some() {
            let _ = eprintln!(self.host; "{count} {unit}");
        }
    }
}

// How many hundredths of all that is there are done, rounded down.
fn share_of(count: u64, all: u64) -> u128
    ensures { result ≡ (if nat_le all count then 100 else count * 100 / all) }
{
    if all <= count {
        return 100;
    }
    u128::from(count) * 100 / u128::from(all)
}
