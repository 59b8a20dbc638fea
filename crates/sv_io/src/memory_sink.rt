// A sink in memory, of which chosen calls fail.
ghost use Rattle.std.specs.Prelude.{◌<◌, ◌≤◌, vec_len, vec_capacity};

use crate::{Sink, SinkFault};
use std::alloc::{AllocError, Global};

/// Takes up to `room` bytes, at most `step` at a time. The writes in `fails` fail, numbered from 0.
#[derive(Drop)]
pub struct MemSink {
    step: usize,
    room: usize,
    fails: Vec<u64>,
    calls: u64,
    bytes: Vec<u8>,
    faults: u64,
    ghost steps: { 0 < step },
    ghost within: { vec_len bytes ≤ room },
    ghost reserved: { room ≤ vec_capacity bytes },
}

impl MemSink {
    ghost use Rattle.std.specs.Prelude.{◌≡◌, IfOk};
    ghost use Rattle.sv_io.specs.MemSink.{sink_bytes, IsNewSink};

    /// An empty sink, which takes the memory of its room at once.
    pub fn new(
        alloc: Global,
        step: usize,
        room: usize,
        fails: Vec<u64>,
    ) -> Result<MemSink, AllocError>
        requires step { 0 < step }
        ensures new { IfOk result (λ sink. IsNewSink sink step room fails.items) }
    {
        Ok(MemSink {
            step,
            room,
            fails,
            calls: 0,
            bytes: Vec::with_capacity(alloc, room)?,
            faults: 0,
        })
    }

    /// All bytes that were taken, in order.
    pub fn bytes(&self) -> &[u8]
        ensures bytes { result.now ≡ sink_bytes self.now }
    {
        &self.bytes
    }
}

impl Sink for MemSink {
    ghost use Rattle.std.specs.Prelude.{◌≡◌, ◌||◌, ◌==◌, ◌-◌, min, is_err, IfOk, OnOk, OnErr, length, take};
    ghost use Rattle.sv_io.specs.Counts.{Rose, one_more, faults_after};
    ghost use Rattle.sv_io.specs.Files.{is_listed};
    ghost use Rattle.sv_io.specs.Sink.{SinkState, SentAll};
    ghost use Rattle.sv_io.specs.MemSink.{sink_bytes, sink_step, sink_room, sink_calls, sink_fails, sink_state};

    ghost seen = { sink_state };

    fn write(&mut self, piece: &[u8]) -> Result<usize, SinkFault>
        requires some { 0 < length piece.now }
        ensures count { IfOk result (λ n. (0 < n) × (n ≤ length piece.now)) }
        ensures wrote { IfOk result (λ n. SentAll (sink_state self.old).wrote (sink_state self.new).wrote (take n piece.now)) }
        ensures err { OnErr result ((sink_state self.new).wrote ≡ (sink_state self.old).wrote) }
        ensures cause { OnErr result (Rose (sink_state self.old).faults (sink_state self.new).faults) }
        ensures later { (sink_state self.old).faults ≤ (sink_state self.new).faults }
        // It fails exactly where its number is listed or no room is left, and takes what fits.
        ensures fails { is_err result ≡ (is_listed (sink_calls self.old) (sink_fails self.old) || (length (sink_bytes self.old) == sink_room self.old)) }
        ensures takes { IfOk result (λ n. n ≡ min (min (length piece.now) (sink_step self.old)) (sink_room self.old - length (sink_bytes self.old))) }
        ensures faults { (sink_state self.new).faults ≡ faults_after (is_err result) (sink_state self.old).faults }
        ensures calls { sink_calls self.new ≡ one_more (sink_calls self.old) }
        ensures listed { sink_fails self.new ≡ sink_fails self.old }
        ensures step { sink_step self.new ≡ sink_step self.old }
        ensures room { sink_room self.new ≡ sink_room self.old }
    {
        let fails = self.fails.contains(&self.calls);
        self.calls = self.calls.saturating_add(1);
        let n = piece.len().min(self.step).min(self.room - self.bytes.len());
        if fails || n == 0 || self.bytes.extend_from_slice(&piece[..n]).is_err() {
            self.faults = self.faults.saturating_add(1);
            return Err(SinkFault::Failed);
        }
        Ok(n)
    }
}
