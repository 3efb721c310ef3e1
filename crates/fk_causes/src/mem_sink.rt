//! A sink in memory, whose chosen calls fail.
ghost use Rattle.std.specs.Prelude.{◌≡◌, ◌↔◌, ◌<◌, ◌≤◌, ◌-◌, ◌⊎◌, IsErr, IfOk, Contains, Some, [], min, length};
ghost use Rattle.std.specs.Io.{WritesAtMost};
ghost use Rattle.std.specs.Io.KnownBytes.{WriteAppends};
ghost use Rattle.fk_causes.specs.Causes.{HasCause, counted, CountsFault};

use crate::traits::{Failed, Sink};
use fk_model::NoMemory;
use std::alloc::Global;
use std::marker::Model;

/// A sink into memory. It tells all that was written, and its room is taken when it is made.
#[derive(Drop)]
pub struct MemSink {
    bytes: Vec<u8>,
    room: usize,
    calls: u64,
    fails: Vec<u64>,
    faults: u64,
}

impl Model for MemSink {
    ghost use Rattle.std.specs.Prelude.{◌≤◌, vec_len, vec_capacity};
    ghost use Rattle.fk_causes.specs.Memory.{SinkMemory};

    ghost Value = { SinkMemory };

    ghost view = { λ s. record {
      bytes = s.bytes.items;
      room = s.room;
      calls = s.calls;
      fails = s.fails.items;
      faults = s.faults;
    } };

    ghost invariant = { λ s. (vec_len s.bytes ≤ s.room) × (s.room ≤ vec_capacity s.bytes) };
}

impl MemSink {
    /// An empty sink with room for so many bytes. Its calls are counted from 1, and those whose
    /// numbers are among `fails` fail.
    ///
    /// # Errors
    ///
    /// `NoMemory` where the room can't be had.
    pub fn new(alloc: Global, room: u32, fails: Vec<u64>) -> Result<MemSink, NoMemory>
        ensures { IfOk result (λ sink. sink ≡ record { bytes = []; room = room; calls = 0; fails = fails.items; faults = 0 }) }
    {
        let room = room as usize;
        Ok(MemSink {
            bytes: Vec::with_capacity(alloc, room)?,
            room,
            calls: 0,
            fails,
            faults: 0,
        })
    }

    /// All that was written.
    pub fn bytes(&self) -> &[u8]
        ensures { result.now ≡ self.now.bytes }
    {
        &self.bytes
    }
}

impl Sink for MemSink {
    ghost written = { λ s. Some s.bytes };

    ghost faults = { λ s. s.faults };

    /// Takes no more bytes than room is left. With none left, a piece that isn't empty is a fault.
    fn write(&mut self, piece: &[u8]) -> Result<usize, Failed>
        ensures bound { WritesAtMost result piece.now }
        ensures bytes { WriteAppends (Some self.old.bytes) (Some self.new.bytes) result piece.now }
        ensures cause { HasCause self.old.faults self.new.faults result }
        ensures some { IfOk result (λ count. 0 < length piece.now → 0 < count) }

        ensures calls { self.new.calls ≡ counted self.old.calls }
        ensures fails { IsErr result ↔ (Contains self.old.fails self.new.calls
            ⊎ ((self.old.room ≤ length self.old.bytes) × (0 < length piece.now))) }
        ensures same_fails { self.new.fails ≡ self.old.fails }
        ensures same_room { self.new.room ≡ self.old.room }
        ensures count { IfOk result (λ count. count ≡ min (length piece.now) (self.old.room - length self.old.bytes)) }
        ensures faults { CountsFault self.old.faults self.new.faults result }
    {
        self.calls = self.calls.saturating_add(1);
        let count = piece.len().min(self.room - self.bytes.len());
        if self.fails.contains(&self.calls) || (count == 0 && !piece.is_empty()) {
            self.faults = self.faults.saturating_add(1);
            return Err(Failed);
        }
        self.bytes.extend_from_slice(&piece[..count]).unwrap();
        Ok(count)
    }
}
