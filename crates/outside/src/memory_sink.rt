// A sink in memory.
ghost use Rattle.std.specs.Prelude.{◌≡◌, ◌+◌, ◌≤◌, ◌<◌, ◌++◌, [], ◌∷◌, Some, IfOk, OnOk, OnErr, length};
ghost use Rattle.std.specs.Io.KnownBytes.{WriteAppends};
ghost use Rattle.outside.specs.Causes.{Rose};
ghost use Rattle.outside.specs.Memory.{sure_room, AnswersWrite, after_write};
ghost use Rattle.outside.specs.Sink.{TakesSure};

use crate::scripted::is_set_to_fail;
use crate::{Sink, SinkFault};
use std::alloc::Global;
use std::marker::Model;
use tomo_base::NoMemory;

/// A sink of fixed room, which takes at most so many bytes at a time, with writes that are set to
/// fail. It tells what it took, and is sure of the room that is left as long as no write is set to
/// fail.
#[derive(Drop)]
pub struct MemSink {
    bytes: Vec<u8>,
    used: usize,
    piece: usize,
    failing: Vec<u32>,
    writes: u64,
    faults: u64,
}

impl Model for MemSink {
    ghost use Rattle.std.specs.Prelude.{◌-◌, ◌≤◌, ◌<◌, take, vec_len};
    ghost use Rattle.outside.specs.Memory.{MemoryBytes};

    ghost Value = { MemoryBytes };

    ghost view = { λ a. record {
      taken = take a.used a.bytes.items;
      room = vec_len a.bytes - a.used;
      piece = a.piece;
      writes = a.writes;
      failing = a.failing.items;
      faults = a.faults;
    } };

    ghost invariant = { λ a. (a.used ≤ vec_len a.bytes) × (0 < a.piece) };
}

impl MemSink {
    /// Room for `room` bytes, taken at once, of which a write takes at most `piece`; no writes so
    /// far, and none set to fail.
    pub fn new(alloc: Global, room: u32, piece: u32) -> Result<Self, NoMemory>
        requires { 0 < piece }
        ensures { IfOk result (λ s. s ≡ record {
          taken = [];
          room = room;
          piece = piece;
          writes = 0;
          failing = [];
          faults = 0;
        }) }
    {
        Ok(MemSink {
            bytes: vec![in alloc; 0; room as usize]?,
            used: 0,
            piece: piece as usize,
            failing: Vec::new(alloc),
            writes: 0,
            faults: 0,
        })
    }

    /// The write with this number is to fail. Writes are counted from 1, from `new` on.
    pub fn fail_at(&mut self, call: u32) -> Result<(), NoMemory>
        ensures ok { OnOk result (self.new ≡ record self.old { failing = self.old.failing ++ call ∷ [] }) }
        ensures err { OnErr result (self.new ≡ self.old) }
    {
        self.failing.push(call)?;
        Ok(())
    }

    /// What was taken. It takes no memory.
    pub fn bytes(&self) -> &[u8]
        ensures { result.now ≡ self.now.taken }
    {
        &self.bytes[..self.used]
    }
}

impl Sink for MemSink {
    ghost taken = { λ s. Some s.taken };

    ghost sure = { sure_room };

    ghost faults = { λ s. s.faults };

    fn write(&mut self, bytes: &[u8]) -> Result<usize, SinkFault>
        requires { 0 < length bytes.now }
        ensures count { IfOk result (λ k. (0 < k) × (k ≤ length bytes.now)) }
        ensures taken { WriteAppends (Some self.old.taken) (Some self.new.taken) result bytes.now }
        ensures later { self.old.faults ≤ self.new.faults }
        ensures cause { OnErr result (Rose self.old.faults self.new.faults) }
        ensures sure { TakesSure (sure_room self.old) (sure_room self.new) self.old.faults self.new.faults
            bytes.now result }

        // What it does exactly, which the clauses above leave open.
        ensures answers { AnswersWrite self.old bytes.now result }
        ensures after { self.new ≡ after_write self.old bytes.now result }
    {
        self.writes = self.writes.saturating_add(1);
        let room = self.bytes.len() - self.used;
        let count = bytes.len().min(self.piece).min(room);
        if is_set_to_fail(&self.failing, self.writes) || count == 0 {
            self.faults = self.faults.saturating_add(1);
            return Err(SinkFault);
        }
        self.bytes[self.used..self.used + count].copy_from_slice(&bytes[..count]);
        self.used += count;
        Ok(count)
    }
}
