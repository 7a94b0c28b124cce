// What a move to the current layout is told when it starts.
use mx_keeper::ShardCount;

/// What `migrate` is asked.
#[derive(Debug, Drop)]
pub struct MigrateOptions {
    // The directory of the files of a server that is stopped.
    pub data: String,
    pub shards: ShardCount,
}
