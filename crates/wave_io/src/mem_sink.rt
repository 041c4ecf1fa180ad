// A sink in memory, which fails at the calls that it was given.
ghost use Rattle.std.specs.Prelude.{◌≡◌, ◌<◌, ◌≤◌, ◌↔◌, [], length, IsErr, IfOk, OnErr};
ghost use Rattle.wave_io.specs.Tape.{Refuses, taken, after_put, after_fault};

use crate::failed::Failed;
use crate::sink::Sink;
use std::alloc::Global;
use std::marker::Model;
use wave_base::types::Memory;

/// A sink that keeps what it takes, in room that it reserved when it was made.
#[derive(Drop)]
pub struct MemSink {
    bytes: Vec<u8>,
    room: usize,
    piece: usize,
    fail: Vec<u64>,
    calls: u64,
    faults: u64,
}

impl Model for MemSink {
    ghost use Rattle.std.specs.Prelude.{◌<◌, ◌≤◌, vec_len, vec_capacity};
    ghost use Rattle.wave_io.specs.Tape.{Tape as Seen};

    ghost Value = { Seen };

    ghost view = { λ s. record {
      bytes = s.bytes.items;
      room = s.room;
      piece = s.piece;
      fail = s.fail.items;
      calls = s.calls;
      faults = s.faults;
    } };

    ghost invariant = { λ s. (vec_len s.bytes ≤ s.room) × (s.room ≤ vec_capacity s.bytes) × (0 < s.piece) };
}

impl MemSink {
    /// An empty sink with room for `room` bytes, which takes at most `piece` bytes a call. The
    /// calls of `put` are counted from 1, and those whose numbers stand in `fail` are to fail.
    pub fn new(alloc: Global, room: usize, piece: usize, fail: Vec<u64>) -> Result<MemSink, Memory>
        requires { 0 < piece }
        ensures { IfOk result (λ sink. sink ≡ record {
          bytes = [];
          room = room;
          piece = piece;
          fail = fail.items;
          calls = 0;
          faults = 0;
        }) }
    {
        let bytes = Vec::with_capacity(alloc, room)?;
        Ok(MemSink {
            bytes,
            room,
            piece,
            fail,
            calls: 0,
            faults: 0,
        })
    }

    /// What it has taken so far.
    pub fn bytes(&self) -> &[u8]
        ensures { result.now ≡ self.now.bytes }
    {
        &self.bytes
    }

    /// How many calls have failed.
    pub fn faults(&self) -> u64
        ensures { result ≡ self.now.faults }
    {
        self.faults
    }
}

impl Sink for MemSink {
    ghost use Rattle.std.specs.Prelude.{Some};

    ghost written = { λ s. Some s.bytes };

    ghost faults = { λ s. s.faults };

    fn put(&mut self, bytes: &[u8]) -> Result<usize, Failed>
        ensures fails { IsErr result ↔ Refuses self.old bytes.now }
        ensures ok { IfOk result (λ k. (k ≡ taken self.old bytes.now)
            × (self.new ≡ after_put self.old bytes.now)) }
        ensures err { OnErr result (self.new ≡ after_fault self.old) }
        ensures some { 0 < length bytes.now → IfOk result (λ k. 0 < k) }
        ensures never_falls { self.old.faults ≤ self.new.faults }
    {
        self.calls = self.calls.saturating_add(1);
        let left = self.room - self.bytes.len();
        if !bytes.is_empty() && (left == 0 || self.fail.contains(&self.calls)) {
            self.faults = self.faults.saturating_add(1);
            return Err(Failed);
        }
        let count = bytes.len().min(self.piece).min(left);
        self.bytes.extend_from_slice(&bytes[..count]).unwrap();
        Ok(count)
    }
}
