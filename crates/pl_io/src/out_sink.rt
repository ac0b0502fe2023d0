// The sink of the running program: the standard output. It tells the bytes that the system took by its own count.
ghost use Rattle.std.specs.Prelude.{◌≡◌, ◌<◌, ◌≤◌, ◌+◌, ℕ, length, [], Some, IfSome};

use crate::{PutFailed, Sent, Sink};
use std::io::{self, ErrorKind, Write};

/// The standard output. Each error is a fault, and so is a write that takes nothing.
#[derive(Drop)]
pub struct OutSink<'a, H> {
    rt: &'a H,
    faults: u64,
    sent: Sent,
}

impl<'a, H: Print> OutSink<'a, H> {
    /// The standard output of the runtime `rt`. It takes no memory.
    pub fn new(rt: &'a H) -> OutSink<'a, H>
        ensures faults { ⟦<OutSink<'a, H> as Sink>⟧.faults result ≡ 0 }
        ensures taken { ⟦<OutSink<'a, H> as Sink>⟧.taken result ≡ Some [] }
    {
        OutSink {
            rt,
            faults: 0,
            sent: Sent::new(),
        }
    }

    /// How many faults the sink had.
    pub fn faults(&self) -> u64
        ensures { result ≡ ⟦<OutSink<'a, H> as Sink>⟧.faults self.now }
    {
        self.faults
    }
}

/// Writes some of the text, and answers how many bytes. A write that a signal interrupted is made again.
fn write_some<W: Write>(out: &mut W, text: &[u8]) -> Option<usize>
    ensures { IfSome result (λ count. (0 < count) × (count ≤ length text.now)) }
{
    for _ in 0..u64::MAX {
        match out.write(text) {
            Ok(0) => return None,
            Ok(count) => return Some(count),
            Err(error) => {
                if error.kind() != ErrorKind::Interrupted {
                    return None;
                }
            }
        }
    }
    None
}

impl<'a, H: Print> Sink for OutSink<'a, H> {
    ghost taken = { λ sink. Some sink.sent.bytes };

    ghost faults = { λ sink. sink.faults };

    fn put(&mut self, text: &[u8]) -> Result<usize, PutFailed> {
        match write_some(&mut io::writer(self.rt), text) {
            Some(count) => {
                self.sent.note(&text[..count]);
                Ok(count)
            }
            None => {
                self.faults = self.faults.saturating_add(1);
                Err(PutFailed)
            }
        }
    }
}
