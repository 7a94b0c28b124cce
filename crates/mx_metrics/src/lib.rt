//! What a server counts of its work, and the text of it that [Prometheus](https://prometheus.io/docs/instrumenting/exposition_formats/)
//! reads.
#![tactic(auto)]

mod counts;
mod exposition;
mod labels;
mod latencies;
mod samples;
mod server_counts;
mod shard_counts;

pub use counts::Counts;
pub use exposition::{Figure, metrics_text};
pub use labels::{EventResult, RouteLabel, StatusLabel};
pub use latencies::Latencies;
pub use samples::{Family, FamilyKind, Label, Labels, write_family, write_sample};
pub use server_counts::ServerCounts;
pub use shard_counts::{ShardCounts, write_shards};
