//! Who calls whom, the other way round.
ghost use Rattle.std.specs.Prelude.{◌≡◌, ◌++◌, map, IfOk, OnOk};
ghost use Rattle.call_reach.specs.Callers as spec;

use crate::search::Conduct;
use std::alloc::{AllocError, Global};
use sv_items::Items;

/// Adds a caller of a member.
#[tactic(auto, using(crate::proofs::Turns::caller_put, crate::proofs::Turns::caller_past))]
fn add_caller(
    alloc: Global,
    callers: &mut Items<Items<usize>>,
    call: usize,
    caller: usize,
) -> Result<(), AllocError>
    ensures added { OnOk result (callers.new ≡ spec.with_caller caller callers.old call) }
{
    if call >= callers.len() {
        return Ok(());
    }
    let mut list = callers.replace(call, Items::new(alloc));
    list.push(caller)?;
    callers.set(call, list);
    Ok(())
}

/// Adds a caller of each of these members.
fn add_calls(
    alloc: Global,
    callers: &mut Items<Items<usize>>,
    calls: &[usize],
    caller: usize,
) -> Result<(), AllocError>
    ensures added { OnOk result (callers.new ≡ spec.with_calls caller callers.old calls.now) }
{
    for call in calls {
        add_caller(alloc, callers, *call, caller)?;
    }
    Ok(())
}

/// An empty list for each member.
fn no_callers(alloc: Global, members: &[Conduct]) -> Result<Items<Items<usize>>, AllocError>
    ensures value { IfOk result (λ cs. cs ≡ map spec.none_yet members.now) }
{
    let mut callers = Items::new(alloc);
    for _member in members {
        callers.push(Items::new(alloc))?;
    }
    Ok(callers)
}

/// For each member those that call it.
#[tactic(auto, using(crate::proofs::Turns::callers_turn, crate::proofs::Turns::callers_end))]
pub fn callers_of(alloc: Global, members: &[Conduct]) -> Result<Items<Items<usize>>, AllocError>
    ensures value { IfOk result (λ cs. cs ≡ spec.callers_of members.now) }
{
    let mut callers = no_callers(alloc, members)?;
    for (at, member) in members.iter().enumerate() {
        add_calls(alloc, &mut callers, member.calls.as_slice(), at)?;
    }
    Ok(callers)
}

/// Those that call a member.
pub fn callers_at(callers: &[Items<usize>], at: usize) -> &[usize]
    ensures value { result.now ≡ spec.row callers.now at }
{
    match callers.get(at) {
        Some(list) => list.as_slice(),
        None => &[],
    }
}

/// Adds the number of a member that writes.
fn add_writer(writers: &mut Vec<usize>, member: &Conduct, at: usize) -> Result<(), AllocError>
    ensures added { OnOk result (writers.new.items ≡ writers.old.items ++ spec.itself_if member.now at) }
{
    if member.writes {
        writers.push(at)?;
    }
    Ok(())
}

/// The numbers of the members that write.
#[tactic(auto, using(crate::proofs::Turns::writers_turn, crate::proofs::Turns::writers_end))]
pub fn writers_of(alloc: Global, members: &[Conduct]) -> Result<Vec<usize>, AllocError>
    ensures value { IfOk result (λ ws. ws.items ≡ spec.writers_from 0 members.now) }
{
    let mut writers = Vec::new(alloc);
    for (at, member) in members.iter().enumerate() {
        add_writer(&mut writers, member, at)?;
    }
    Ok(writers)
}
