ghost use Rattle.std.specs.Prelude.{◌≡◌, ◌++◌, map, OnOk};
ghost use Rattle.core_uses.specs.Parts.{piece_mentions, call_mentions, hop_mentions};
ghost use Rattle.swift_core.specs.Mentions.{core_mentions, filling_mentions, invocation_mentions, change_mentions, target_mentions, look_mentions, root_mentions, write_mentions, is_among_cells, joined};

use std::alloc::AllocError;
use sv_items::Items;
use swift_core::{
    Change, ChangeCall, Core, CoreHop, Filling, Invocation, Lookup, Mention, Piece, Receiver, Root,
    Target,
};

/// Adds what the term mentions.
#[cycle(mentions)]
pub fn of_core(term: &Core, out: &mut Items<Mention>) -> Result<(), AllocError>
    ensures ok { OnOk result (out.new ≡ out.old ++ core_mentions term.now) }
{
    match term {
        Core::Literal(_) => Ok(()),
        Core::Look(lookup) => of_lookup(lookup, out),
        Core::Text(pieces) => of_pieces(pieces.as_slice(), out),
        Core::List(parts) => of_cores(parts.as_slice(), out),
        Core::Promote(part) => of_core(part.get(), out),
        Core::Unary(_, part) => of_core(part.get(), out),
        Core::Binary(_, left, right) => {
            of_core(left.get(), out)?;
            of_core(right.get(), out)
        }
        Core::Choose(condition, first, second) => {
            of_core(condition.get(), out)?;
            of_core(first.get(), out)?;
            of_core(second.get(), out)
        }
        Core::Make(_, fillings) => of_fillings(fillings.as_slice(), out),
        Core::Static(code) => out.push(Mention::Code(*code)),
        Core::Invoke(invocation) => of_invocation(invocation.get(), out),
        Core::Change(change) => of_change(change.get(), out),
    }
}

/// Adds what a name stands for, where it is a local.
fn of_lookup(lookup: &Lookup, out: &mut Items<Mention>) -> Result<(), AllocError>
    ensures ok { OnOk result (out.new ≡ out.old ++ look_mentions lookup.now) }
{
    match lookup {
        Lookup::Local(at) => out.push(Mention::Local(*at)),
        Lookup::BoundLocal(at) => out.push(Mention::Local(*at)),
        _ => Ok(()),
    }
}

/// Adds the local that a place begins with, if it is one.
fn of_root(root: &Root, out: &mut Items<Mention>) -> Result<(), AllocError>
    ensures ok { OnOk result (out.new ≡ out.old ++ root_mentions root.now) }
{
    match root {
        Root::Local(at) => out.push(Mention::Local(*at)),
        Root::BoundLocal(at) => out.push(Mention::Local(*at)),
        _ => Ok(()),
    }
}

/// Adds what each term mentions.
#[cycle(mentions)]
pub fn of_cores(terms: &[Core], out: &mut Items<Mention>) -> Result<(), AllocError>
    ensures ok { OnOk result (out.new ≡ out.old ++ joined (map core_mentions terms.now)) }
{
    for term in terms {
        of_core(term, out)?;
    }
    Ok(())
}

/// Adds what the holes of a string mention.
#[cycle(mentions)]
fn of_pieces(pieces: &[Piece], out: &mut Items<Mention>) -> Result<(), AllocError>
    ensures ok { OnOk result (out.new ≡ out.old ++ joined (map piece_mentions pieces.now)) }
{
    for piece in pieces {
        match piece {
            Piece::Text(_) => {}
            Piece::Hole(term) => of_core(term, out)?,
        }
    }
    Ok(())
}

/// Adds what each filling mentions.
#[cycle(mentions)]
pub fn of_fillings(fillings: &[Filling], out: &mut Items<Mention>) -> Result<(), AllocError>
    ensures ok { OnOk result (out.new ≡ out.old ++ joined (map filling_mentions fillings.now)) }
{
    for filling in fillings {
        match filling {
            Filling::Given(term) => of_core(term, out)?,
            Filling::Place(target) => of_target(target, out)?,
            Filling::Initial(_) => {}
            Filling::Nil => {}
        }
    }
    Ok(())
}

/// Adds the code that is used, and what the receiver and the arguments mention.
#[cycle(mentions)]
pub fn of_invocation(invocation: &Invocation, out: &mut Items<Mention>) -> Result<(), AllocError>
    ensures ok { OnOk result (out.new ≡ out.old ++ invocation_mentions invocation.now) }
{
    out.push(Mention::Code(invocation.code))?;
    match &invocation.receiver {
        Receiver::Same => {}
        Receiver::Value(term) => of_core(term, out)?,
    }
    of_cores(invocation.arguments.as_slice(), out)
}

/// Adds what a place mentions.
#[cycle(mentions)]
pub fn of_target(target: &Target, out: &mut Items<Mention>) -> Result<(), AllocError>
    ensures ok { OnOk result (out.new ≡ out.old ++ (target_mentions target.now).mentions) }
{
    of_root(&target.root, out)?;
    for hop in target.hops.as_slice() {
        match hop {
            CoreHop::Field(_) => {}
            CoreHop::Index(term) => of_core(term, out)?,
        }
    }
    Ok(())
}

/// Adds what a changing call mentions, and the write, where its place is among the cells.
#[cycle(mentions)]
pub fn of_change(change: &Change, out: &mut Items<Mention>) -> Result<(), AllocError>
    ensures ok { OnOk result (out.new ≡ out.old ++ change_mentions change.now) }
{
    of_target(&change.target, out)?;
    of_call(&change.call, out)?;
    of_write(&change.target.root, out)
}

/// Adds the write to a place that begins so, where it is among the cells.
pub fn of_write(root: &Root, out: &mut Items<Mention>) -> Result<(), AllocError>
    ensures ok { OnOk result (out.new ≡ out.old ++ write_mentions (is_among_cells root.now)) }
{
    match root {
        Root::Local(_) | Root::Itself => Ok(()),
        _ => out.push(Mention::Write),
    }
}

/// Adds what the arguments of a changing call mention, and the code of a `mutating` function.
#[cycle(mentions)]
fn of_call(call: &ChangeCall, out: &mut Items<Mention>) -> Result<(), AllocError>
    ensures ok { OnOk result (out.new ≡ out.old ++ call_mentions call.now) }
{
    match call {
        ChangeCall::Toggle
        | ChangeCall::RemoveFirst
        | ChangeCall::RemoveLast
        | ChangeCall::RemoveAll => Ok(()),
        ChangeCall::Append(term) | ChangeCall::AppendAll(term) | ChangeCall::Remove(term) => {
            of_core(term, out)
        }
        ChangeCall::Insert(first, second) | ChangeCall::SwapAt(first, second) => {
            of_core(first, out)?;
            of_core(second, out)
        }
        ChangeCall::Mutate(code, arguments) => {
            out.push(Mention::Code(*code))?;
            of_cores(arguments.as_slice(), out)
        }
    }
}
