ghost use Rattle.std.specs.Prelude.{◌≡◌, ◌↔◌, Some, IsSome, IfOk, IsTrue};
ghost use Rattle.std.specs.Option.{option_copied};
ghost use Rattle.swift_core.specs.Codes.{code_at, member_at, owner_at, block_id};
ghost use Rattle.swift_core.specs.Programs.{IsProgram, Reaches};
ghost use Rattle.swift_core.specs.Writers.{AreWriters, mark_at};

use crate::code::{Code, CoreMember};
use crate::code_index::{CodeIndex, code_of, index_of, member_of, number_of};
use crate::ids::{BlockId, CodeId};
use crate::table::Table;
use std::alloc::{AllocError, Global};
use std::marker::Model;
use sv_items::Items;

/// A checked program: its declarations, and the code of the built-in environment key and of each member in text order.
/// Contracts see the two as a record.
#[derive(Drop)]
pub struct Program {
    table: Table,
    members: Items<CoreMember>,
    index: CodeIndex,
    /// For each member whether it reaches a write.
    writers: Items<bool>,
}

impl Model for Program {
    ghost use Rattle.std.specs.Prelude.{◌≡◌};
    ghost use Rattle.swift_core.specs.Codes.{Parts, parts_code, homes_from};
    ghost use Rattle.swift_core.specs.Firsts.{firsts_from};
    ghost use Rattle.swift_core.specs.Programs.{IsProgram};
    ghost use Rattle.swift_core.specs.Writers.{AreWriters};

    ghost Value = { Parts };

    ghost coded = { parts_code };

    ghost view = { λ p. record { table = p.table; members = p.members } };

    ghost invariant = { λ p. IsProgram p.table p.members × ((p.index.homes ≡ homes_from 0 p.members) × (p.index.firsts ≡ firsts_from 0 p.members)) × AreWriters p.members p.writers };
}

impl Program {
    /// The program of these declarations and members: that of the built-in environment key first, then those of the table
    /// in order. `writers` has a mark for each member that reaches a write.
    pub fn new(
        alloc: Global,
        table: Table,
        members: Items<CoreMember>,
        writers: Items<bool>,
    ) -> Result<Program, AllocError>
        requires program { IsProgram table members }
        requires writers { AreWriters members writers }
        ensures table { IfOk result (λ p. p.table ≡ table) }
        ensures members { IfOk result (λ p. p.members ≡ members) }
    {
        let index = index_of(alloc, members.as_slice())?;
        Ok(Program {
            table,
            members,
            index,
            writers,
        })
    }

    /// Does nothing: its clause says what is known of every program.
    pub fn rules(&self)
        ensures program { IsProgram self.now.table self.now.members }
    {
        let _index = &self.index;
    }

    /// The declarations.
    pub fn table(&self) -> &Table
        ensures value { result.now ≡ self.now.table }
    {
        &self.table
    }

    /// The code of the built-in environment key, and then that of each member in text order.
    pub fn members(&self) -> &Items<CoreMember>
        ensures value { result.now ≡ self.now.members }
    {
        &self.members
    }

    /// A piece of code by its number, or None where the member has no code or there is no such number.
    pub fn code(&self, id: CodeId) -> Option<&Code>
        ensures value { option_copied result ≡ code_at self.now id.number }
    {
        code_of(&self.index, &self.members, id.number)
    }

    /// The place among the members of the one that a piece of code is of.
    pub fn member(&self, code: CodeId) -> Option<usize>
        ensures value { result ≡ member_at self.now code.number }
    {
        member_of(&self.index, &self.members, code.number)
    }

    /// The number of a block of the member that a piece of code is of.
    pub fn block(&self, code: CodeId, block: BlockId) -> CodeId
        requires held { IsSome (block_id self.now code.number block.number) }
        ensures value { block_id self.now code.number block.number ≡ Some result.number }
    {
        match member_of(&self.index, &self.members, code.number) {
            Some(member) => CodeId {
                number: number_of(&self.index, &self.members, member, block.number),
            },
            None => unreachable!(),
        }
    }

    /// The declaration whose member a piece of code is of. None for the default of an environment key.
    pub fn owner(&self, code: CodeId) -> Option<u32>
        ensures value { result ≡ owner_at self.now code.number }
    {
        let member = member_of(&self.index, &self.members, code.number)?;
        if member == 0 {
            None
        } else {
            self.table.members.get(member - 1)?.declaration
        }
    }

    /// Whether a piece of code reaches a write of a state slot or through a binding, outside action blocks. Only members do:
    /// what a block writes is written in an action, or is among what its member writes.
    #[tactic(auto, using(crate::proofs::Writers::marked))]
    pub fn writes(&self, code: CodeId) -> bool
        ensures value { IsTrue result ↔ Reaches self.now.members code.number }
    {
        mark_at(&self.writers, code.number)
    }
}

/// The mark of this number, and false where there is none.
fn mark_at(marks: &Items<bool>, at: usize) -> bool
    ensures value { result ≡ mark_at marks.now at }
{
    match marks.get(at) {
        Some(mark) => *mark,
        None => false,
    }
}
