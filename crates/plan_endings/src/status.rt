//! Exit statuses.

/// An exit status.
///
/// | Status | When |
/// |---|---|
/// | 0 | a plan was found; a task, its order, a generated text or a certificate is told; the checked calls are a plan; the certificate is accepted |
/// | 1 | the last horizon is refuted; the checked calls are none; the horizon of `prove` has a plan; the certificate is rejected |
/// | 2 | the budget is spent |
/// | 3 | an input file is refused |
/// | 4 | a file has more bytes than it may have, or the task or a formula is past a limit |
/// | 5 | a file could not be read |
/// | 6 | the report could not be written |
/// | 7 | the words are none that are taken |
/// | 8 | want of memory; nothing was written |
#[derive(Clone, Copy, PartialEq, Eq)]
pub struct Status(pub u8);
