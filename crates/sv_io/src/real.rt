// The trusted edge: real files and real streams. They tell nothing of content.
ghost use Rattle.std.specs.Prelude.{◌≡◌, ◌+◌, ◌<◌, ◌≤◌, ◌^◌, ℕ, true, false, is_some, is_err, option_and_then, None, IfOk, OnOk, OnErr, IsSome, length, take, string_bytes};
ghost use Rattle.sv_io.specs.Counts.{Rose, WhenTold, faults_after};
ghost use Rattle.sv_io.specs.Shelf.{ShelfState, IsNewShelf, content, NextPiece};
ghost use Rattle.sv_io.specs.Sink.{SinkState, SentAll};
ghost use Rattle.sv_io.specs.Real.{FilesSeen, StreamSeen, files_state, stream_state};
ghost use Rattle.std.specs.Io.KnownBytes.{ReadConsumes, WriteAppends};

use crate::{Shelf, ShelfFault, Sink, SinkFault};
use std::alloc::Global;
use std::fs;
use std::io::{Read, Write};
use std::marker::Model;
use std::rt::Files;

/// The files of a runtime, by their paths. What can't be opened or read is a fault: an absent
/// file, and a folder.
#[derive(Drop)]
pub struct FileShelf<R: Files + Drop> {
    rt: R,
    file: Option<R::File>,
    asked: String,
    offset: u64,
    failed: bool,
    faults: u64,
}

impl<R: Files + Drop> Model for FileShelf<R> {
    ghost Value = { FilesSeen };

    ghost view = { λ s. record {
      asked = string_bytes s.asked;
      chosen = is_some s.file;
      left = option_and_then (λ f. R.File.remaining f) s.file;
      offset = s.offset;
      failed = s.failed;
      faults = s.faults;
    } };
}

impl<R: Files + Drop> FileShelf<R> {
    /// The files of this runtime, from which none is chosen yet.
    pub fn new(alloc: Global, rt: R) -> FileShelf<R>
        ensures new { IsNewShelf None (files_state result) }
    {
        FileShelf {
            rt,
            file: None,
            asked: String::new(alloc),
            offset: 0,
            failed: false,
            faults: 0,
        }
    }
}

impl<R: Files + Drop> Shelf for FileShelf<R> {
    ghost seen = { files_state };

    fn choose(&mut self, name: String) -> Result<(), ShelfFault>
        ensures holds { (files_state self.new).holds ≡ (files_state self.old).holds }
        ensures asked { (files_state self.new).asked ≡ string_bytes name }
        ensures offset { (files_state self.new).offset ≡ 0 }
        ensures ok { OnOk result (((files_state self.new).chosen ≡ true) × ((files_state self.new).failed ≡ false)) }
        ensures present { OnOk result (WhenTold (files_state self.old).holds (λ files. IsSome (files (string_bytes name)))) }
        ensures err { OnErr result (((files_state self.new).chosen ≡ false) × ((files_state self.new).failed ≡ true)) }
        ensures cause { OnErr result (Rose (files_state self.old).faults (files_state self.new).faults) }
        ensures later { (files_state self.old).faults ≤ (files_state self.new).faults }
        ensures faults { self.new.faults ≡ faults_after (is_err result) self.old.faults }
    {
        self.offset = 0;
        match fs::open(&self.rt, name.as_str()) {
            Ok(file) => {
                self.file = Some(file);
                self.asked = name;
                self.failed = false;
                Ok(())
            }
            Err(_) => {
                self.file = None;
                self.asked = name;
                self.failed = true;
                self.faults = self.faults.saturating_add(1);
                Err(ShelfFault::Failed)
            }
        }
    }

    fn read(&mut self, buf: &mut [u8]) -> Result<usize, ShelfFault>
        requires chosen { (files_state self.old).chosen ≡ true }
        requires room { 0 < length buf.old }
        requires fits { (files_state self.old).offset + length buf.old < 2 ^ 64 }
        ensures holds { (files_state self.new).holds ≡ (files_state self.old).holds }
        ensures asked { (files_state self.new).asked ≡ (files_state self.old).asked }
        ensures chosen { (files_state self.new).chosen ≡ true }
        ensures count { IfOk result (λ n. (n ≤ length buf.old) × ((files_state self.new).offset ≡ (files_state self.old).offset + n)) }
        ensures bytes { IfOk result (λ n. WhenTold (content (files_state self.old).holds (files_state self.old).asked)
            (λ file. NextPiece file (files_state self.old).offset (take n buf.new))) }
        ensures ok { OnOk result ((files_state self.new).failed ≡ false) }
        ensures err { OnErr result (((files_state self.new).failed ≡ true) × ((files_state self.new).offset ≡ (files_state self.old).offset)) }
        ensures cause { OnErr result (Rose (files_state self.old).faults (files_state self.new).faults) }
        ensures later { (files_state self.old).faults ≤ (files_state self.new).faults }
        ensures faults { self.new.faults ≡ faults_after (is_err result) self.old.faults }
        // The open file gave what is answered, and nothing at a fault.
        ensures file { ReadConsumes self.old.left self.new.left result buf.new }
    {
        let Some(file) = &mut self.file else {
            unreachable!()
        };
        match file.read(buf) {
            Ok(n) => {
                self.offset += n as u64;
                self.failed = false;
                Ok(n)
            }
            Err(_) => {
                self.failed = true;
                self.faults = self.faults.saturating_add(1);
                Err(ShelfFault::Failed)
            }
        }
    }
}

/// A stream of the process. A write that takes nothing is a fault.
#[derive(Drop)]
pub struct OutSink<W: Write + Drop> {
    to: W,
    faults: u64,
}

impl<W: Write + Drop> Model for OutSink<W> {
    ghost Value = { StreamSeen };

    ghost view = { λ s. record { took = W.contents s.to; faults = s.faults } };
}

impl<W: Write + Drop> OutSink<W> {
    /// This stream, to which nothing was written yet.
    pub fn new(to: W) -> OutSink<W>
        ensures none { result.faults ≡ 0 }
        ensures stream { result.took ≡ W.contents to }
    {
        OutSink { to, faults: 0 }
    }
}

impl<W: Write + Drop> Sink for OutSink<W> {
    ghost seen = { stream_state };

    fn write(&mut self, piece: &[u8]) -> Result<usize, SinkFault>
        requires some { 0 < length piece.now }
        ensures count { IfOk result (λ n. (0 < n) × (n ≤ length piece.now)) }
        ensures wrote { IfOk result (λ n. SentAll (stream_state self.old).wrote (stream_state self.new).wrote (take n piece.now)) }
        ensures err { OnErr result ((stream_state self.new).wrote ≡ (stream_state self.old).wrote) }
        ensures cause { OnErr result (Rose (stream_state self.old).faults (stream_state self.new).faults) }
        ensures later { (stream_state self.old).faults ≤ (stream_state self.new).faults }
        ensures faults { self.new.faults ≡ faults_after (is_err result) self.old.faults }
        // The stream took what is answered, and nothing at a fault.
        ensures stream { WriteAppends self.old.took self.new.took result piece.now }
    {
        match self.to.write(piece) {
            Ok(n) if n > 0 => Ok(n),
            _ => {
                self.faults = self.faults.saturating_add(1);
                Err(SinkFault::Failed)
            }
        }
    }
}
