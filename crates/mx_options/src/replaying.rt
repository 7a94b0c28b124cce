// What `replay` is told when it starts.
use mx_ident::ServerName;
use mx_keeper::ShardCount;

/// How a log is to be answered.
#[derive(Debug, Drop)]
pub struct ReplayOptions {
    // The server that answers it.
    pub name: ServerName,
    pub shards: ShardCount,
    // Whether it ends at the first bad line.
    pub is_strict: bool,
}
