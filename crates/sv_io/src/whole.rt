// Whole files and whole texts, by as many reads and writes as they take.
ghost use Rattle.std.specs.Prelude.{◌≡◌, ◌+◌, ◌-◌, ◌<◌, ◌≤◌, ◌^◌, ◌↔◌, false, true, length, IfOk, IfErr, OnOk, OnErr, Some, string_bytes};
ghost use Rattle.sv_io.specs.declared.whole.ReadStop.TheVariants.{OutOfMemory, Failed};
ghost use Rattle.sv_io.specs.Whole.{Stopped};
ghost use Rattle.sv_io.specs.Counts.{Rose, WhenTold};
ghost use Rattle.sv_io.specs.Sink.{SentAll, SentPart};

use crate::{Shelf, ShelfFault, Sink, SinkFault};
use std::alloc::{AllocError, Global};

/// Why a file wasn't read to its end.
#[derive(Clone, Copy, Debug, PartialEq, Eq)]
pub enum ReadStop {
    /// Memory ran out.
    OutOfMemory,
    /// A call of the shelf failed.
    Failed,
    /// The file has more bytes than the limit: so many were taken, one more than the limit.
    TooLong { taken: u64 },
}

impl From<AllocError> for ReadStop {
    ghost from_gives = { λ _ e. e ≡ OutOfMemory };

    fn from(_: AllocError) -> Self {
        ReadStop::OutOfMemory
    }
}

impl From<ShelfFault> for ReadStop {
    ghost from_gives = { λ _ e. e ≡ Failed };

    fn from(_: ShelfFault) -> Self {
        ReadStop::Failed
    }
}

// The most that one read takes.
const CHUNK: u64 = 65536;

/// The bytes of the file of this name, of which there may be up to `limit`. A longer file is read
/// one byte further than that, and is `TooLong`.
pub fn read_whole<F: Shelf>(
    alloc: Global,
    shelf: &mut F,
    name: String,
    limit: u64,
) -> Result<Vec<u8>, ReadStop>
    requires { limit < 2 ^ 64 - 1 }
    ensures holds { (F.seen shelf.new).holds ≡ (F.seen shelf.old).holds }
    ensures asked { (F.seen shelf.new).asked ≡ string_bytes name }
    ensures later { (F.seen shelf.old).faults ≤ (F.seen shelf.new).faults }
    ensures count { IfOk result (λ bytes. ((F.seen shelf.new).offset ≡ length bytes.items) × (length bytes.items ≤ limit)) }
    ensures bytes { IfOk result (λ bytes. WhenTold (F.seen shelf.old).holds (λ files. files (string_bytes name) ≡ Some bytes.items)) }
    ensures stop { IfErr result (λ stop. Stopped stop (F.seen shelf.old) (F.seen shelf.new) (string_bytes name) limit) }
    // One byte past the limit is taken, and never a second.
    ensures most { (F.seen shelf.new).offset ≤ limit + 1 }
    ensures too_long { (result ≡ Err (ReadStop.TooLong (limit + 1))) ↔ (((F.seen shelf.new).asked ≡ string_bytes name) × ((F.seen shelf.new).offset ≡ limit + 1)) }
{
    shelf.choose(name)?;
    let mut bytes = Vec::new(alloc);
    let mut buf = [0u8; CHUNK as usize];
    let mut taken = 0;
    while taken <= limit {
        let want = CHUNK.min(limit + 1 - taken) as usize;
        let n = shelf.read(&mut buf[..want])?;
        if n == 0 {
            return Ok(bytes);
        }
        taken += n as u64;
        if taken <= limit {
            bytes.extend_from_slice(&buf[..n])?;
        }
    }
    Err(ReadStop::TooLong { taken })
}

/// Writes all of the bytes. Where a write fails no other is tried, and a first part of the bytes
/// went out.
pub fn write_whole<O: Sink>(sink: &mut O, bytes: &[u8]) -> Result<(), SinkFault>
    ensures ok { OnOk result (SentAll (O.seen sink.old).wrote (O.seen sink.new).wrote bytes.now) }
    ensures err { OnErr result (SentPart (O.seen sink.old).wrote (O.seen sink.new).wrote bytes.now) }
    ensures cause { OnErr result (Rose (O.seen sink.old).faults (O.seen sink.new).faults) }
    ensures later { (O.seen sink.old).faults ≤ (O.seen sink.new).faults }
{
    let mut rest = bytes;
    while !rest.is_empty() {
        let n = sink.write(rest)?;
        rest = &rest[n..];
    }
    Ok(())
}
