ghost use Rattle.std.specs.Prelude.{◌≡◌, ◌++◌, map, OnOk};
ghost use Rattle.local_changes.specs.Parts.{call_alters, change_alters, invocation_alters, piece_alters};
ghost use Rattle.swift_core.specs.Alters.{all_of, core_alters, filling_alters, root_alters, target_alters};

use std::alloc::AllocError;
use sv_items::Items;
use swift_core::{
    Change, ChangeCall, Core, CoreHop, Filling, Invocation, Piece, Receiver, Root, Target,
};

/// Adds the locals that the term alters.
#[cycle(alters)]
pub fn of_core(term: &Core, out: &mut Items<usize>) -> Result<(), AllocError>
    ensures ok { OnOk result (out.new ≡ out.old ++ core_alters term.now) }
{
    match term {
        Core::Literal(_) => Ok(()),
        Core::Look(_) => Ok(()),
        Core::Text(pieces) => of_pieces(pieces.as_slice(), out),
        Core::List(parts) => of_cores(parts.as_slice(), out),
        Core::Promote(part) => of_core(part.get(), out),
        Core::Unary(_, part) => of_core(part.get(), out),
        Core::Binary(_, left, right) => {
            of_core(left.get(), out)?;
            of_core(right.get(), out)
        }
        Core::Choose(condition, first, second) => {
            of_core(condition.get(), out)?;
            of_core(first.get(), out)?;
            of_core(second.get(), out)
        }
        Core::Make(_, fillings) => of_fillings(fillings.as_slice(), out),
        Core::Static(_) => Ok(()),
        Core::Invoke(invocation) => of_invocation(invocation.get(), out),
        Core::Change(change) => of_change(change.get(), out),
    }
}

/// Adds the local that a place begins with, if it is one that holds a value.
fn of_root(root: &Root, out: &mut Items<usize>) -> Result<(), AllocError>
    ensures ok { OnOk result (out.new ≡ out.old ++ root_alters root.now) }
{
    match root {
        Root::Local(at) => out.push(*at),
        _ => Ok(()),
    }
}

/// Adds what each term alters.
#[cycle(alters)]
pub fn of_cores(terms: &[Core], out: &mut Items<usize>) -> Result<(), AllocError>
    ensures ok { OnOk result (out.new ≡ out.old ++ all_of (map core_alters terms.now)) }
{
    for term in terms {
        of_core(term, out)?;
    }
    Ok(())
}

/// Adds what the holes of a string alter.
#[cycle(alters)]
fn of_pieces(pieces: &[Piece], out: &mut Items<usize>) -> Result<(), AllocError>
    ensures ok { OnOk result (out.new ≡ out.old ++ all_of (map piece_alters pieces.now)) }
{
    for piece in pieces {
        match piece {
            Piece::Text(_) => {}
            Piece::Hole(term) => of_core(term, out)?,
        }
    }
    Ok(())
}

/// Adds what each filling alters.
#[cycle(alters)]
pub fn of_fillings(fillings: &[Filling], out: &mut Items<usize>) -> Result<(), AllocError>
    ensures ok { OnOk result (out.new ≡ out.old ++ all_of (map filling_alters fillings.now)) }
{
    for filling in fillings {
        match filling {
            Filling::Given(term) => of_core(term, out)?,
            Filling::Place(target) => of_indexes(target, out)?,
            Filling::Initial(_) => {}
            Filling::Nil => {}
        }
    }
    Ok(())
}

/// Adds what the receiver and the arguments alter.
#[cycle(alters)]
fn of_invocation(invocation: &Invocation, out: &mut Items<usize>) -> Result<(), AllocError>
    ensures ok { OnOk result (out.new ≡ out.old ++ invocation_alters invocation.now) }
{
    match &invocation.receiver {
        Receiver::Same => {}
        Receiver::Value(term) => of_core(term, out)?,
    }
    of_cores(invocation.arguments.as_slice(), out)
}

/// Adds what the indexes of a place alter.
#[cycle(alters)]
pub fn of_indexes(target: &Target, out: &mut Items<usize>) -> Result<(), AllocError>
    ensures ok { OnOk result (out.new ≡ out.old ++ (target_alters target.now).indexes) }
{
    for hop in target.hops.as_slice() {
        match hop {
            CoreHop::Field(_) => {}
            CoreHop::Index(term) => of_core(term, out)?,
        }
    }
    Ok(())
}

/// Adds the local that a changing call stands on, and what its parts alter.
#[cycle(alters)]
fn of_change(change: &Change, out: &mut Items<usize>) -> Result<(), AllocError>
    ensures ok { OnOk result (out.new ≡ out.old ++ change_alters change.now) }
{
    of_root(&change.target.root, out)?;
    of_indexes(&change.target, out)?;
    of_call(&change.call, out)
}

/// Adds what the arguments of a changing call alter.
#[cycle(alters)]
fn of_call(call: &ChangeCall, out: &mut Items<usize>) -> Result<(), AllocError>
    ensures ok { OnOk result (out.new ≡ out.old ++ call_alters call.now) }
{
    match call {
        ChangeCall::Toggle
        | ChangeCall::RemoveFirst
        | ChangeCall::RemoveLast
        | ChangeCall::RemoveAll => Ok(()),
        ChangeCall::Append(term) | ChangeCall::AppendAll(term) | ChangeCall::Remove(term) => {
            of_core(term, out)
        }
        ChangeCall::Insert(first, second) | ChangeCall::SwapAt(first, second) => {
            of_core(first, out)?;
            of_core(second, out)
        }
        ChangeCall::Mutate(_, arguments) => of_cores(arguments.as_slice(), out),
    }
}
