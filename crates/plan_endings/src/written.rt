//! Writing the text of an ending.
ghost use Rattle.std.specs.Prelude.{◌≡◌, ◌≢◌, ◌≤◌, ◌∷◌, [], Contains, IsTrue, Some};
ghost use Rattle.pl_io.specs.Outside.{appended, TakesFront, Rose};
ghost use Rattle.plan_endings.specs.Ending.{bytes_of};
ghost use Rattle.plan_endings.specs.Ends.{end_in};

use crate::run_end::RunEnd;
use crate::stop::Stop;
use crate::{Due, Status};
use pl_io::{Sink, put_all};
use std::alloc::Global;

/// Writes the text of an ending, answered or handed on: the ending's status, 6 where the sink failed, or 8 for want of memory.
pub fn finish<E: RunEnd, K: Sink>(alloc: Global, decided: Result<E, Stop>, sink: &mut K) -> Status
    requires { (end : E) → end_in E.plain decided ≡ Some end → (E.status_of end ≢ 6) × (E.status_of end ≢ 8) }
    ensures due { result.0 ≢ 6 → result.0 ≢ 8 → (end : E) × (result.0 ≡ E.status_of end) × (end_in E.plain decided ≡ Some end) × (K.taken sink.new ≡ appended (K.taken sink.old) (E.text_of end)) }
    ensures write_fault { result.0 ≡ 6 → Rose (K.faults sink.old) (K.faults sink.new) }
    ensures front { result.0 ≢ 8 → (end : E) × (end_in E.plain decided ≡ Some end) × E.is_small end × TakesFront (K.taken sink.old) (K.taken sink.new) (E.text_of end) }
    ensures nothing { result.0 ≡ 8 → sink.new ≡ sink.old }
    // A text that was made before, or is always the same, takes no memory.
    ensures there { (end : E) → end_in E.plain decided ≡ Some end → IsTrue (E.is_there end) → result.0 ≢ 8 }
    ensures faults { K.faults sink.old ≤ K.faults sink.new }
{
    let Some(end) = end_of(decided) else {
        return Status(8);
    };
    written(alloc, end, sink)
}

// The ending, answered or handed on; none for want of memory.
fn end_of<E: RunEnd>(decided: Result<E, Stop>) -> Option<E>
    ensures { result ≡ end_in E.plain decided }
{
    match decided {
        Ok(end) => Some(end),
        Err(Stop::Ends(end)) => Some(E::of_plain(end)),
        Err(Stop::Memory) => None,
    }
}

/// Makes the text of an ending whole and writes it: the ending's status, 6 where the sink failed, or 8 for want of memory.
fn written<E: RunEnd, K: Sink>(alloc: Global, ending: E, sink: &mut K) -> Status
    requires not_six { E.status_of ending ≢ 6 }
    requires not_eight { E.status_of ending ≢ 8 }
    ensures due { result.0 ≢ 6 → result.0 ≢ 8 → (result.0 ≡ E.status_of ending) × (K.taken sink.new ≡ appended (K.taken sink.old) (E.text_of ending)) }
    ensures write_fault { result.0 ≡ 6 → Rose (K.faults sink.old) (K.faults sink.new) }
    ensures front { result.0 ≢ 8 → E.is_small ending × TakesFront (K.taken sink.old) (K.taken sink.new) (E.text_of ending) }
    ensures nothing { result.0 ≡ 8 → sink.new ≡ sink.old }
    ensures there { IsTrue (E.is_there ending) → result.0 ≢ 8 }
    ensures faults { K.faults sink.old ≤ K.faults sink.new }
{
    let status = ending.status();
    let Ok(due) = ending.text(alloc) else {
        return Status(8);
    };
    put_due(status, &due, sink)
}

// Writes a text that is due: the status that is handed in, or 6 where the sink failed.
fn put_due<K: Sink>(status: u8, due: &Due, sink: &mut K) -> Status
    requires { status ≢ 6 }
    ensures due { result.0 ≢ 6 → (result.0 ≡ status) × (K.taken sink.new ≡ appended (K.taken sink.old) (bytes_of due.now)) }
    ensures write_fault { result.0 ≡ 6 → Rose (K.faults sink.old) (K.faults sink.new) }
    ensures cases { Contains (6 ∷ status ∷ []) result.0 }
    ensures front { TakesFront (K.taken sink.old) (K.taken sink.new) (bytes_of due.now) }
    ensures faults { K.faults sink.old ≤ K.faults sink.new }
{
    let Ok(()) = put_all(sink, due.as_slice()) else {
        return Status(6);
    };
    Status(status)
}
