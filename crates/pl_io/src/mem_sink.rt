// A sink in memory, for runs without a standard output: it tells what it took, and fails where it was told to.
ghost use Rattle.std.specs.Prelude.{◌≡◌, ◌↔◌, ◌<◌, ◌≤◌, ◌+◌, ◌++◌, ◌-◌, ◌^◌, ℕ, List, [], length, take, Some, IsTrue, IsOk, IsErr, OnErr, OnOk, IfOk, vec_capacity};
ghost use Rattle.pl_io.specs.Outside.{HasCause, appended};
ghost use Rattle.pl_io.specs.own.Calls.{next_call, NextFails};
ghost use Rattle.pl_io.specs.own.MemSink.{part_taken};

use crate::{Memory, Numbers, PutFailed, Sink};
use std::alloc::Global;
use std::marker::Model;

/// Bytes in memory. A call of `put` takes at most so many bytes, and never more than there is room for; the calls whose
/// numbers, counted from 1, are listed as failing fail, and so does one that finds no room.
#[derive(Drop)]
pub struct MemSink {
    most: u32,
    failing: Numbers,
    room: u32,
    calls: u32,
    faults: u64,
    taken: Vec<u8>,
}

impl Model for MemSink {
    ghost use Rattle.std.specs.Prelude.{◌<◌, ◌≤◌, length, vec_capacity};
    ghost use Rattle.pl_io.specs.own.MemSink.{SinkInMemory};

    ghost Value = { SinkInMemory };

    ghost view = { λ sink. record { most = sink.most; failing = sink.failing; room = sink.room; calls = sink.calls; faults = sink.faults; taken = sink.taken.items } };

    ghost invariant = { λ sink. (0 < sink.most) × (length sink.taken.items ≤ sink.room) × (sink.room ≤ vec_capacity sink.taken) };
}

impl MemSink {
    /// A sink with room for `room` bytes, which takes at most `most` bytes a call and whose calls with the numbers of
    /// `failing` fail. No later call takes memory. `Memory` where there is no such room to be had.
    pub fn new(alloc: Global, most: u32, failing: Numbers, room: u32) -> Result<MemSink, Memory>
        requires { 0 < most }
        ensures { IfOk result (λ sink. sink ≡ record { most = most; failing = failing; room = room; calls = 0; faults = 0; taken = [] }) }
    {
        let taken = Vec::with_capacity(alloc, room as usize)?;
        Ok(MemSink {
            most,
            failing,
            room,
            calls: 0,
            faults: 0,
            taken,
        })
    }

    /// The bytes taken, in their order.
    pub fn taken(&self) -> &[u8]
        ensures { result.now ≡ self.now.taken }
    {
        &self.taken
    }

    /// How many faults the sink had.
    pub fn faults(&self) -> u64
        ensures { result ≡ self.now.faults }
    {
        self.faults
    }

    /// Counts a call, and answers whether it is one of those that fail.
    fn next_fails(&mut self) -> bool
        ensures count { self.new ≡ record self.old { calls = next_call self.old.calls } }
        ensures fails { IsTrue result ↔ NextFails self.old.failing self.old.calls }
    {
        self.calls = self.calls.saturating_add(1);
        self.failing.as_slice().contains(&self.calls)
    }

    /// How many bytes of a text of this length a call takes: 0 where there is no room.
    fn part_of(&self, count: usize) -> usize
        ensures part { result ≡ part_taken self.now count }
        ensures fits { length self.now.taken + result ≤ self.now.room }
        ensures some { 0 < count → length self.now.taken < self.now.room → 0 < result }
    {
        let room = self.room as usize - self.taken.len();
        count.min(self.most as usize).min(room)
    }

    /// Keeps these bytes, for which there is room.
    fn keep(&mut self, bytes: &[u8])
        requires { length self.old.taken + length bytes.now ≤ self.old.room }
        ensures { self.new ≡ record self.old { taken = self.old.taken ++ bytes.now } }
    {
        let _ = self.taken.extend_from_slice(bytes);
    }
}

impl Sink for MemSink {
    ghost taken = { λ sink. Some sink.taken };

    ghost faults = { λ sink. sink.faults };

    fn put(&mut self, text: &[u8]) -> Result<usize, PutFailed>
        requires { 0 < length text.now }

        // As of every sink.
        ensures some { IfOk result (λ count. (0 < count) × (count ≤ length text.now)) }
        ensures taken { IfOk result (λ count. Some self.new.taken ≡ appended (Some self.old.taken) (take count text.now)) }
        ensures err { OnErr result (Some self.new.taken ≡ Some self.old.taken) }
        ensures cause { HasCause self.old.faults self.new.faults result }

        // The listed calls fail, and those that find no room; any other takes as much as it may.
        ensures listed { NextFails self.old.failing self.old.calls → IsErr result }
        ensures full { self.old.room ≤ length self.old.taken → IsErr result }
        ensures only_these { ¬ NextFails self.old.failing self.old.calls → length self.old.taken < self.old.room → IsOk result }
        ensures part { IfOk result (λ count. count ≡ part_taken self.old (length text.now)) }

        // But for the count of calls, the bytes taken and the faults the sink stays as it was.
        ensures quiet { OnOk result (self.new.faults ≡ self.old.faults) }
        ensures kept { self.new ≡ record self.old { calls = next_call self.old.calls; faults = self.new.faults; taken = self.new.taken } }
    {
        let fails = self.next_fails();
        let count = self.part_of(text.len());
        if fails || count == 0 {
            self.faults = self.faults.saturating_add(1);
            return Err(PutFailed);
        }
        self.keep(&text[..count]);
        Ok(count)
    }
}
