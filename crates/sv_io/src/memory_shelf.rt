// A shelf in memory, of which chosen calls fail.
ghost use Rattle.std.specs.Prelude.{◌≡◌, ◌<◌, ◌≤◌, Some, None, true, List, ℕ, length, is_some, string_bytes, MatchOption};
ghost use Rattle.sv_io.specs.Files.{file_in};

use crate::{Shelf, ShelfFault};
use std::alloc::Global;

/// Files in memory. The calls in `fails` fail: those of `choose` and `read` are numbered
/// together, from 0.
#[derive(Drop)]
pub struct MemShelf {
    files: Vec<(String, Vec<u8>)>,
    fails: Vec<u64>,
    calls: u64,
    asked: String,
    chosen: bool,
    offset: usize,
    failed: bool,
    faults: u64,
    ghost present: { chosen ≡ true → is_some (file_in (λ f. string_bytes f.0) (λ f. f.1.items) files.items (string_bytes asked)) ≡ true },
    ghost within: { (bytes : List ℕ) → file_in (λ f. string_bytes f.0) (λ f. f.1.items) files.items (string_bytes asked) ≡ Some bytes → offset ≤ length bytes },
}

/// The bytes of the file of this name.
fn bytes_of<'a>(files: &'a [(String, Vec<u8>)], name: &String) -> Option<&'a [u8]>
    ensures { MatchOption result (file_in (λ f. string_bytes f.0) (λ f. f.1.items) files.now (string_bytes name.now) ≡ None)
        (λ bytes. file_in (λ f. string_bytes f.0) (λ f. f.1.items) files.now (string_bytes name.now) ≡ Some bytes.now) }
{
    for file in files {
        if file.0 == *name {
            return Some(file.1.as_slice());
        }
    }
    None
}

impl MemShelf {
    ghost use Rattle.sv_io.specs.Files.{NamesDiffer};
    ghost use Rattle.sv_io.specs.Shelf.{IsNewShelf};
    ghost use Rattle.sv_io.specs.MemShelf.{calls_of, fails_of, shelf_state};

    /// A shelf of these files, from which none is chosen yet.
    pub fn new(alloc: Global, files: Vec<(String, Vec<u8>)>, fails: Vec<u64>) -> MemShelf
        requires differ { NamesDiffer (λ f. string_bytes f.0) files.items }
        ensures new { IsNewShelf (Some (file_in (λ f. string_bytes f.0) (λ f. f.1.items) files.items)) (shelf_state result) }
        ensures listed { fails_of result ≡ fails.items }
        ensures calls { calls_of result ≡ 0 }
    {
        MemShelf {
            files,
            fails,
            calls: 0,
            asked: String::new(alloc),
            chosen: false,
            offset: 0,
            failed: false,
            faults: 0,
        }
    }
}

impl Shelf for MemShelf {
    ghost use Rattle.std.specs.Prelude.{◌+◌, ◌-◌, ◌^◌, ◌||◌, false, min, take, IfOk, OnOk, OnErr, IsSome, is_err, is_none};
    ghost use Rattle.sv_io.specs.Counts.{Rose, WhenTold, one_more, faults_after};
    ghost use Rattle.sv_io.specs.Files.{is_listed};
    ghost use Rattle.sv_io.specs.Shelf.{ShelfState, content, NextPiece};
    ghost use Rattle.sv_io.specs.MemShelf.{files_of, calls_of, fails_of, shelf_state};

    ghost seen = { shelf_state };

    fn choose(&mut self, name: String) -> Result<(), ShelfFault>
        ensures holds { (shelf_state self.new).holds ≡ (shelf_state self.old).holds }
        ensures asked { (shelf_state self.new).asked ≡ string_bytes name }
        ensures offset { (shelf_state self.new).offset ≡ 0 }
        ensures ok { OnOk result (((shelf_state self.new).chosen ≡ true) × ((shelf_state self.new).failed ≡ false)) }
        ensures present { OnOk result (WhenTold (shelf_state self.old).holds (λ files. IsSome (files (string_bytes name)))) }
        ensures err { OnErr result (((shelf_state self.new).chosen ≡ false) × ((shelf_state self.new).failed ≡ true)) }
        ensures cause { OnErr result (Rose (shelf_state self.old).faults (shelf_state self.new).faults) }
        ensures later { (shelf_state self.old).faults ≤ (shelf_state self.new).faults }
        // It fails exactly where its number is listed or the name is absent.
        ensures fails { is_err result ≡ (is_listed (calls_of self.old) (fails_of self.old) || is_none (files_of self.old (string_bytes name))) }
        ensures faults { (shelf_state self.new).faults ≡ faults_after (is_err result) (shelf_state self.old).faults }
        ensures calls { calls_of self.new ≡ one_more (calls_of self.old) }
        ensures listed { fails_of self.new ≡ fails_of self.old }
    {
        let fails = self.fails.contains(&self.calls);
        self.calls = self.calls.saturating_add(1);
        let found = bytes_of(&self.files, &name).is_some();
        self.chosen = false;
        self.offset = 0;
        self.asked = name;
        if fails || !found {
            self.failed = true;
            self.faults = self.faults.saturating_add(1);
            return Err(ShelfFault::Failed);
        }
        self.chosen = true;
        self.failed = false;
        Ok(())
    }

    fn read(&mut self, buf: &mut [u8]) -> Result<usize, ShelfFault>
        requires chosen { (shelf_state self.old).chosen ≡ true }
        requires room { 0 < length buf.old }
        requires fits { (shelf_state self.old).offset + length buf.old < 2 ^ 64 }
        ensures holds { (shelf_state self.new).holds ≡ (shelf_state self.old).holds }
        ensures asked { (shelf_state self.new).asked ≡ (shelf_state self.old).asked }
        ensures chosen { (shelf_state self.new).chosen ≡ true }
        ensures count { IfOk result (λ n. (n ≤ length buf.old) × ((shelf_state self.new).offset ≡ (shelf_state self.old).offset + n)) }
        ensures bytes { IfOk result (λ n. WhenTold (content (shelf_state self.old).holds (shelf_state self.old).asked)
            (λ file. NextPiece file (shelf_state self.old).offset (take n buf.new))) }
        ensures ok { OnOk result ((shelf_state self.new).failed ≡ false) }
        ensures err { OnErr result (((shelf_state self.new).failed ≡ true) × ((shelf_state self.new).offset ≡ (shelf_state self.old).offset)) }
        ensures cause { OnErr result (Rose (shelf_state self.old).faults (shelf_state self.new).faults) }
        ensures later { (shelf_state self.old).faults ≤ (shelf_state self.new).faults }
        // It fails exactly where its number is listed, and takes what fits.
        ensures fails { is_err result ≡ is_listed (calls_of self.old) (fails_of self.old) }
        ensures takes { IfOk result (λ n. WhenTold (files_of self.old (shelf_state self.old).asked)
            (λ file. n ≡ min (length buf.old) (length file - (shelf_state self.old).offset))) }
        ensures faults { (shelf_state self.new).faults ≡ faults_after (is_err result) (shelf_state self.old).faults }
        ensures calls { calls_of self.new ≡ one_more (calls_of self.old) }
        ensures listed { fails_of self.new ≡ fails_of self.old }
    {
        let fails = self.fails.contains(&self.calls);
        self.calls = self.calls.saturating_add(1);
        if fails {
            self.failed = true;
            self.faults = self.faults.saturating_add(1);
            return Err(ShelfFault::Failed);
        }
        let Some(bytes) = bytes_of(&self.files, &self.asked) else {
            unreachable!()
        };
        let rest = &bytes[self.offset..];
        let n = rest.len().min(buf.len());
        buf[..n].copy_from_slice(&rest[..n]);
        self.offset += n;
        self.failed = false;
        Ok(n)
    }
}
