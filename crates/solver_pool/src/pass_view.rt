// What a pass knows of its ring. Contracts alone speak of it: no value of these types is made.
use std::collections::LinkedList;

/// A job with which a ring was opened.
pub struct BookEntry<R> {
    /// The key of its run.
    pub key: u32,
    /// How many units its run is to be granted in all.
    pub target: u64,
    /// Its run before any unit.
    pub origin: R,
}

/// One put or one take: of the job of which key, and how many units its run had been granted by then.
pub struct Note {
    /// The key of the job's run.
    pub key: u32,
    /// How many units the run had been granted by then.
    pub granted: u64,
}

/// The view of a pass.
pub struct PassView<R> {
    /// Whether it is the pass that the ring was opened with.
    pub owner: bool,
    /// Whether it was taken in again.
    pub ended: bool,
    /// How many passes the owner gave out and did not take in again.
    pub out: u64,
    /// The jobs with which the ring was opened.
    pub book: LinkedList<BookEntry<R>>,
    /// Its puts, in their order.
    pub put: LinkedList<Note>,
    /// Its takes, in their order.
    pub took: LinkedList<Note>,
}
