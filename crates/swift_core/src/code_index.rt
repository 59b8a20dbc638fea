ghost use Rattle.std.specs.Prelude.{◌≡◌, ◌++◌, slice_get, Some, IsSome, IfOk, OnOk};
ghost use Rattle.std.specs.Option.{option_copied};
ghost use Rattle.std.proofs.Math.ListN.{replicate};
ghost use Rattle.swift_core.specs.Codes.{homes_from, blocks_of, code_in, member_in, block_in};
ghost use Rattle.swift_core.specs.Firsts.{firsts_from};

use crate::code::{Code, CoreMember};
use std::alloc::{AllocError, Global};
use sv_items::Items;

/// Where the blocks of the members stand.
#[derive(Drop)]
pub struct CodeIndex {
    /// For each block the place of its member.
    pub homes: Items<usize>,
    /// For each member the number of blocks before its own.
    pub firsts: Items<usize>,
}

/// The index of the blocks of these members.
pub fn index_of(alloc: Global, members: &[CoreMember]) -> Result<CodeIndex, AllocError>
    ensures homes { IfOk result (λ x. x.homes ≡ homes_from 0 members.now) }
    ensures firsts { IfOk result (λ x. x.firsts ≡ firsts_from 0 members.now) }
{
    let mut homes = Items::new(alloc);
    let mut firsts = Items::new(alloc);
    for at in 0..members.len() {
        firsts.push(homes.len())?;
        push_all(&mut homes, at, members[at].blocks.len())?;
    }
    Ok(CodeIndex { homes, firsts })
}

/// Adds the number so many times.
fn push_all(homes: &mut Items<usize>, home: usize, count: usize) -> Result<(), AllocError>
    ensures ok { OnOk result (homes.new ≡ homes.old ++ replicate count home) }
{
    for _ in 0..count {
        homes.push(home)?;
    }
    Ok(())
}

/// The piece of code with this number.
pub fn code_of<'a>(
    index: &CodeIndex,
    members: &'a Items<CoreMember>,
    number: usize,
) -> Option<&'a Code>
    requires homes { index.now.homes ≡ homes_from 0 members.now }
    requires firsts { index.now.firsts ≡ firsts_from 0 members.now }
    ensures value { option_copied result ≡ code_in members.now number }
{
    match members.get(number) {
        Some(member) => member.code.as_ref(),
        None => block_of(index, members, number - members.len()),
    }
}

/// The block with this number among all blocks.
fn block_of<'a>(
    index: &CodeIndex,
    members: &'a Items<CoreMember>,
    number: usize,
) -> Option<&'a Code>
    requires homes { index.now.homes ≡ homes_from 0 members.now }
    requires firsts { index.now.firsts ≡ firsts_from 0 members.now }
    ensures value { option_copied result ≡ slice_get (blocks_of members.now) number }
{
    let home = *index.homes.get(number)?;
    let first = *index.firsts.get(home)?;
    members.get(home)?.blocks.get(number - first)
}

/// The number of the member that a piece of code is of.
pub fn member_of(index: &CodeIndex, members: &Items<CoreMember>, number: usize) -> Option<usize>
    requires homes { index.now.homes ≡ homes_from 0 members.now }
    ensures value { result ≡ member_in members.now number }
{
    if number < members.len() {
        Some(number)
    } else {
        index.homes.get(number - members.len()).copied()
    }
}

/// The number of a block of a member.
pub fn number_of(
    index: &CodeIndex,
    members: &Items<CoreMember>,
    member: usize,
    block: usize,
) -> usize
    requires homes { index.now.homes ≡ homes_from 0 members.now }
    requires firsts { index.now.firsts ≡ firsts_from 0 members.now }
    requires held { IsSome (block_in members.now block (Some member)) }
    ensures value { block_in members.now block (Some member) ≡ Some result }
{
    let all = members.as_slice();
    let homes = index.homes.as_slice();
    match index.firsts.get(member) {
        Some(first) => all.len() + (*first + block),
        None => unreachable!(),
    }
}
