// A shelf of files, of which one at a time is chosen and read.
ghost use Rattle.std.specs.Prelude.{◌≡◌, ℕ, ◌+◌, ◌<◌, ◌≤◌, ◌^◌, ◌↔◌, true, false, length, take, IfOk, OnOk, OnErr, IsSome, IsTrue, string_bytes};
ghost use Rattle.sv_io.specs.Counts.{Rose, WhenTold};
ghost use Rattle.sv_io.specs.Shelf.{ShelfState, content, NextPiece};

/// Why a file wasn't chosen or read.
#[derive(Clone, Copy, Debug, PartialEq, Eq)]
pub enum ShelfFault {
    /// The name is absent, or the call failed. The shelf counts it.
    Failed,
}

/// Files by their names, of which one at a time is chosen and read from its beginning on.
pub trait Shelf {
    /// What a contract sees: the files (where the shelf tells them), the name asked for last,
    /// whether a file is chosen, the bytes taken of it, whether the last call failed, and how
    /// many failed.
    ghost seen: { Self → ShelfState };

    /// Chooses the file of this name, of which no byte is taken then. An absent name is a fault,
    /// and after a fault no file is chosen.
    fn choose(&mut self, name: String) -> Result<(), ShelfFault>
        ensures holds { (seen self.new).holds ≡ (seen self.old).holds }
        ensures asked { (seen self.new).asked ≡ string_bytes name }
        ensures offset { (seen self.new).offset ≡ 0 }
        ensures ok { OnOk result (((seen self.new).chosen ≡ true) × ((seen self.new).failed ≡ false)) }
        ensures present { OnOk result (WhenTold (seen self.old).holds (λ files. IsSome (files (string_bytes name)))) }
        ensures err { OnErr result (((seen self.new).chosen ≡ false) × ((seen self.new).failed ≡ true)) }
        ensures cause { OnErr result (Rose (seen self.old).faults (seen self.new).faults) }
        ensures later { (seen self.old).faults ≤ (seen self.new).faults };

    /// Takes the next bytes of the chosen file to the beginning of `buf`, and answers how many.
    /// 0 is the file's end.
    fn read(&mut self, buf: &mut [u8]) -> Result<usize, ShelfFault>
        requires chosen { (seen self.old).chosen ≡ true }
        requires room { 0 < length buf.old }
        requires fits { (seen self.old).offset + length buf.old < 2 ^ 64 }
        ensures holds { (seen self.new).holds ≡ (seen self.old).holds }
        ensures asked { (seen self.new).asked ≡ (seen self.old).asked }
        ensures chosen { (seen self.new).chosen ≡ true }
        ensures count { IfOk result (λ n. (n ≤ length buf.old) × ((seen self.new).offset ≡ (seen self.old).offset + n)) }
        ensures bytes { IfOk result (λ n. WhenTold (content (seen self.old).holds (seen self.old).asked)
            (λ file. NextPiece file (seen self.old).offset (take n buf.new))) }
        ensures ok { OnOk result ((seen self.new).failed ≡ false) }
        ensures err { OnErr result (((seen self.new).failed ≡ true) × ((seen self.new).offset ≡ (seen self.old).offset)) }
        ensures cause { OnErr result (Rose (seen self.old).faults (seen self.new).faults) }
        ensures later { (seen self.old).faults ≤ (seen self.new).faults };
}
