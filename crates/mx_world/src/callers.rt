// The caller of a server on one thread.

/// The number that a server on one thread gives to its shards and books as that of the caller.
pub const SOLE_CALLER: u32 = 0;
