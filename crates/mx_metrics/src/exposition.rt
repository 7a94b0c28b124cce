// All figures of a server, as Prometheus reads them.
use crate::counts::Counts;
use crate::labels::{EventResult, RouteLabel, StatusLabel};
use crate::latencies::{BOUNDS, Latencies};
use crate::samples::{Family, FamilyKind, Label, Labels, write_family, write_sample};
use crate::server_counts::{ServerCounts, place_of};
use std::alloc::{AllocError, Global};

// The bounds of the ranges of time, in seconds.
const SECONDS: [&str; 11] = [
    "0.0005", "0.001", "0.0025", "0.005", "0.01", "0.025", "0.05", "0.1", "0.5", "1", "10",
];

const REPLIES: Family<'static> = Family {
    name: "mx_federd_requests_total",
    help: "Requests that were answered, by route and status.",
    kind: FamilyKind::Counter,
};

const TIMES: Family<'static> = Family {
    name: "mx_federd_request_seconds",
    help: "How long a reply took, from the whole request to the whole reply.",
    kind: FamilyKind::Histogram,
};

const EVENTS: Family<'static> = Family {
    name: "mx_federd_events_total",
    help: "Events that were offered, by what became of them. Soft-failed ones count as accepted.",
    kind: FamilyKind::Counter,
};

/// One figure that stands alone.
#[derive(Clone, Copy, Debug)]
pub struct Figure<'a> {
    pub family: Family<'a>,
    pub value: u64,
}

/// What a server counted, and figures that stand alone, as Prometheus reads them. Of routes and statuses those stand there
/// that some reply had.
///
/// `AllocError` where no memory is left. Source: Prometheus, "Exposition formats", "Text-based format".
pub fn metrics_text(
    alloc: Global,
    counts: &ServerCounts,
    figures: &[Figure<'_>],
) -> Result<String, AllocError> {
    let mut text = String::new(alloc);
    write_replies(&mut text, &counts.replies)?;
    write_times(&mut text, &counts.latencies)?;
    write_events(&mut text, &counts.events)?;
    for figure in figures {
        write_family(&mut text, &figure.family)?;
        write_sample(&mut text, figure.family.name, &Labels::None, figure.value)?;
    }
    Ok(text)
}

fn write_replies(text: &mut String, replies: &Counts) -> Result<(), AllocError> {
    write_family(text, &REPLIES)?;
    for route in RouteLabel::ALL {
        write_statuses(text, replies, route)?;
    }
    Ok(())
}

fn write_statuses(
    text: &mut String,
    replies: &Counts,
    route: RouteLabel,
) -> Result<(), AllocError> {
    let first = Label {
        name: "route",
        value: route.name(),
    };
    for status in StatusLabel::ALL {
        let count = replies.at(place_of(route, status));
        if count > 0 {
            let second = Label {
                name: "status",
                value: status.name(),
            };
            write_sample(text, REPLIES.name, &Labels::Two(first, second), count)?;
        }
    }
    Ok(())
}

// How many replies took at most each time, and how long all took.
fn write_times(text: &mut String, latencies: &Latencies) -> Result<(), AllocError> {
    write_family(text, &TIMES)?;
    let name = "mx_federd_request_seconds_bucket";
    let mut count = 0u64;
    for (place, seconds) in SECONDS.iter().enumerate() {
        count = count.saturating_add(latencies.counts.at(place));
        write_bucket(text, name, seconds, count)?;
    }
    count = count.saturating_add(latencies.counts.at(BOUNDS.len()));
    write_bucket(text, name, "+Inf", count)?;
    let seconds = latencies.microseconds / 1_000_000;
    let rest = latencies.microseconds % 1_000_000;
    writeln!(text, "mx_federd_request_seconds_sum {seconds}.{rest:06}")?;
    write_sample(
        text,
        "mx_federd_request_seconds_count",
        &Labels::None,
        count,
    )
}

fn write_bucket(
    text: &mut String,
    name: &str,
    seconds: &str,
    count: u64,
) -> Result<(), AllocError> {
    let most = Label {
        name: "le",
        value: seconds,
    };
    write_sample(text, name, &Labels::One(most), count)
}

fn write_events(text: &mut String, events: &Counts) -> Result<(), AllocError> {
    write_family(text, &EVENTS)?;
    for became in EventResult::ALL {
        let label = Label {
            name: "result",
            value: became.name(),
        };
        let count = events.at(became.number());
        write_sample(text, EVENTS.name, &Labels::One(label), count)?;
    }
    Ok(())
}
