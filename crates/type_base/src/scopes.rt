ghost use Rattle.std.specs.Prelude.{◌≡◌, length, take, OnOk, OnErr};
ghost use Rattle.type_base.specs.Scopes.{pushed, opened, Declares};

use crate::fault::Fault;
use crate::lookup::is_new;
use crate::scope::{Local, Scope};
use std::alloc::AllocError;
use sv_items::Items;

/// Where a scope was entered: how many locals there were, and where those of the scope around it begin.
#[derive(Clone, Copy, Debug, PartialEq, Eq)]
pub struct Mark {
    pub locals: usize,
    pub floor: usize,
}

/// Adds a local, whatever its name.
pub fn push_local(scope: &mut Scope<'_>, local: Local) -> Result<(), AllocError>
    ensures ok { OnOk result (scope.new ≡ pushed scope.old local) }
    ensures err { OnErr result (scope.new ≡ scope.old) }
{
    scope.locals.push(local)
}

/// Adds a local where no other of the innermost scope has its name, and else answers `NotTyped`. `_` may stand several
/// times.
pub fn declare(scope: &mut Scope<'_>, local: Local) -> Result<(), Fault>
    ensures declared { Declares result scope.old scope.new local }
    ensures err { OnErr result (scope.new ≡ scope.old) }
{
    if !is_new(scope, local.name.as_bytes()) {
        return Err(Fault::NotTyped);
    }
    push_local(scope, local)?;
    Ok(())
}

/// Begins a scope within the innermost one.
pub fn enter(scope: &mut Scope<'_>) -> Mark
    ensures locals { result.locals ≡ length scope.old.locals }
    ensures floor { result.floor ≡ scope.old.floor }
    ensures entered { scope.new ≡ opened scope.old }
{
    let mark = Mark {
        locals: scope.locals.len(),
        floor: scope.floor,
    };
    scope.floor = mark.locals;
    mark
}

/// Takes away all but the first `count` locals.
fn cut(locals: &mut Items<Local>, count: usize)
    ensures value { locals.new ≡ take count locals.old }
{
    while locals.len() > count {
        locals.pop();
    }
}

/// Ends the scope that was entered at the mark: its locals are gone.
pub fn leave(scope: &mut Scope<'_>, mark: Mark)
    ensures left { scope.new ≡ record scope.old { locals = take mark.locals scope.old.locals; floor = mark.floor } }
{
    cut(&mut scope.locals, mark.locals);
    scope.floor = mark.floor;
}
