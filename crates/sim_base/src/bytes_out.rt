ghost use Rattle.std.specs.Prelude.{◌≡◌, ◌<◌, [], None, Some, length, IfOk};
ghost use Rattle.sim_base.specs.Outside.{PutCause, PutsAtMost, PutsTo};

use crate::calls::Calls;
use crate::{Items, Memory, Put, Sink};
use std::alloc::Global;
use std::marker::Model;

/// A sink in memory. It takes as many bytes a call as the least of `cut`, the room that is left and
/// the piece. A call fails if its number stands among those that fail, or if the room is full.
#[derive(Drop)]
pub struct BytesOut {
    place: Vec<u8>,
    len: usize,
    cut: u32,
    calls: Calls,
}

impl Model for BytesOut {
    ghost use Rattle.std.specs.Prelude.{◌<◌, ◌≤◌, take, vec_len};
    ghost use Rattle.sim_base.specs.Ends.{Hold};

    ghost Value = { Hold };

    ghost view = { λ b. record { bytes = take b.len b.place.items; room = vec_len b.place; cut = b.cut; calls = b.calls } };

    ghost invariant = { λ b. (b.len ≤ vec_len b.place) × (0 < b.cut) };
}

impl BytesOut {
    /// A sink with this room, which fails at the calls with these numbers, counted from 1. It takes
    /// no memory later.
    pub fn new(alloc: Global, room: usize, cut: u32, fails: Items<u32>) -> Result<BytesOut, Memory>
        requires { 0 < cut }
        ensures { IfOk result (λ out. out ≡ record { bytes = []; room = room; cut = cut; calls = record { made = 0; failing = fails; failed = 0 } }) }
    {
        Ok(BytesOut {
            place: vec![in alloc; 0; room]?,
            len: 0,
            cut,
            calls: Calls::new(fails),
        })
    }

    /// The bytes that were written.
    pub fn as_slice(&self) -> &[u8]
        ensures { result.now ≡ self.now.bytes }
    {
        &self.place.as_slice()[..self.len]
    }
}

impl Sink for BytesOut {
    ghost use Rattle.sim_base.specs.Ends.{next_call, put_of};

    ghost written = { λ b. Some b.bytes };

    ghost faults = { λ b. b.calls.failed };

    fn put(&mut self, piece: &[u8]) -> Put
        requires { 0 < length piece.now }
        ensures count { PutsAtMost result piece.now }
        ensures bytes { PutsTo (Some self.old.bytes) (Some self.new.bytes) result piece.now }
        ensures cause { PutCause self.old.calls.failed self.new.calls.failed result }
        ensures exact { result ≡ put_of self.old (length piece.now) }
        ensures room { self.new.room ≡ self.old.room }
        ensures cut { self.new.cut ≡ self.old.cut }
        ensures called { self.new.calls.made ≡ next_call self.old.calls }
        ensures failing { self.new.calls.failing ≡ self.old.calls.failing }
    {
        if self.calls.next_fails() || self.len == self.place.len() {
            self.calls.count_failure();
            return Put::Failed;
        }
        let room = self.place.len() - self.len;
        let count = room.min(self.cut as usize).min(piece.len());
        let at = self.len;
        self.place.as_mut_slice()[at..at + count].copy_from_slice(&piece[..count]);
        self.len = at + count;
        Put::Bytes(count)
    }
}

/// A sink that takes every piece whole and tells nothing of it. It never fails.
#[derive(Clone, Copy, Debug, PartialEq, Eq)]
pub struct NullOut;

impl Sink for NullOut {
    ghost written = { λ _. None };

    ghost faults = { λ _. 0 };

    fn put(&mut self, piece: &[u8]) -> Put
        requires { 0 < length piece.now }
        ensures count { PutsAtMost result piece.now }
        ensures bytes { PutsTo None None result piece.now }
        ensures cause { PutCause 0 0 result }
        ensures exact { result ≡ Put.Bytes (length piece.now) }
    {
        Put::Bytes(piece.len())
    }
}
