//! What the words may ask for at most.

/// How many states, or obligations of a search for a certificate, may be asked for: as many as have numbers.
pub const MOST_COUNT: u32 = 4_294_967_295;

/// How many megabytes the tables may be allowed.
pub const MOST_MEMORY: u32 = 1_048_576;
