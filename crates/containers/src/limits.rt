//! How long a file may be.

/// How many bytes a domain, a problem or a plan may have.
pub const MOST_BYTES: usize = 1_048_576;

/// How many bytes a certificate may have.
pub const CERTIFICATE_BYTES: u64 = 16_777_216;
