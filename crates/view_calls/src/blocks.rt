//! Action blocks, the builders of preference readers, and content in a scope of its own.
ghost use Rattle.std.specs.Prelude.{◌≡◌, ◌++◌, ◌∷◌, [], length, map, drop, IfOk};
ghost use Rattle.swift_core.specs.Readers.{reader_keeps};
ghost use Rattle.swift_core.specs.Uses.{locals_used};
ghost use Rattle.type_base.specs.Context.{seen};
ghost use Rattle.type_base.specs.LocalTypes.{local_type, types_at};
ghost use Rattle.view_rules.specs.Builds.{Builds, block_of, next_block, action, acts_two, reader, reader_block, with_item};
ghost use Rattle.view_calls.specs.Checks.{Runs};
ghost use Rattle.view_rules.specs.Items.{items_to};
ghost use Rattle.view_rules.specs.Views.{acts};

use core_uses::locals_used;
use local_changes::reader_keeps;
use std::alloc::{AllocError, Global};
use sv_items::Items;
use swift_ast::Stmt;
use swift_core::{BlockId, Code, CodeForm, CoreItem, LocalType};
use type_base::{
    Fault, Inner, Local, Scope, declare, enter, leave, push_local, types_at, types_from,
};
use type_stmt::check_block;

/// The items of a builder in braces.
pub fn content<F>(
    inner: &Inner<F>,
    scope: &mut Scope<'_>,
    statements: &[Stmt],
    blocks: &mut Items<Code>,
) -> Result<Items<CoreItem>, Fault>
where
    F: Fn(Global, u32, &mut Scope<'_>, &[Stmt], &mut Items<Code>) -> Result<Items<CoreItem>, Fault>,
    requires runs { Runs inner.now.room (F.pre inner.now.check) (F.post inner.now.check) }
    ensures found { Builds result scope.old scope.new blocks.new (items_to inner.now.room statements.now (seen scope.old) blocks.old) }
{
    (inner.check)(inner.alloc, inner.room, scope, statements, blocks)
}

/// The items of a closure with this parameter.
pub fn content_on<F>(
    inner: &Inner<F>,
    scope: &mut Scope<'_>,
    statements: &[Stmt],
    parameter: Local,
    blocks: &mut Items<Code>,
) -> Result<Items<CoreItem>, Fault>
where
    F: Fn(Global, u32, &mut Scope<'_>, &[Stmt], &mut Items<Code>) -> Result<Items<CoreItem>, Fault>,
    requires runs { Runs inner.now.room (F.pre inner.now.check) (F.post inner.now.check) }
    ensures found { Builds result scope.old scope.new blocks.new (items_to inner.now.room statements.now (with_item (seen scope.old) parameter) blocks.old) }
{
    let mark = enter(scope);
    push_local(scope, parameter)?;
    let items = content(inner, scope, statements, blocks)?;
    leave(scope, mark);
    Ok(items)
}

/// What the locals at these places have, and then those from the first parameter on.
fn types_of(
    alloc: Global,
    locals: &[Local],
    kept: &[usize],
    outer: usize,
) -> Result<Items<LocalType>, AllocError>
    ensures value { IfOk result (λ ts. ts ≡ types_at locals.now kept.now ++ map local_type (drop outer locals.now)) }
{
    let mut types = types_at(alloc, locals, kept)?;
    let parameters = types_from(alloc, locals, outer)?;
    types.append(parameters)?;
    Ok(types)
}

/// The places of the locals that a piece of code uses of those where it stands, and what these have and its parameters.
fn uses_of(
    alloc: Global,
    locals: &[Local],
    blocks: &[Code],
    outer: usize,
    form: &CodeForm,
) -> Result<(Items<usize>, Items<LocalType>), AllocError>
    ensures kept { IfOk result (λ u. u.0 ≡ locals_used blocks.now outer form.now) }
    ensures types { IfOk result (λ u. u.1 ≡ types_at locals.now (locals_used blocks.now outer form.now) ++ map local_type (drop outer locals.now)) }
{
    let kept = locals_used(alloc, blocks, outer, form)?;
    let types = types_of(alloc, locals, kept.as_slice(), outer)?;
    Ok((kept, types))
}

/// Puts a piece of code behind the blocks so far. It begins with these locals, of which so many stand where it is written.
fn add_block(
    alloc: Global,
    locals: &[Local],
    blocks: &mut Items<Code>,
    outer: usize,
    parameters: usize,
    form: CodeForm,
) -> Result<BlockId, AllocError>
    ensures place { IfOk result (λ b. b ≡ next_block blocks.old) }
    ensures blocks { IfOk result (λ b. blocks.new ≡ blocks.old ++ block_of blocks.old locals.now outer parameters form ∷ []) }
{
    let number = blocks.len();
    let (kept, types) = uses_of(alloc, locals, blocks.as_slice(), outer, &form)?;
    blocks.push(Code {
        outer,
        kept,
        types,
        parameters,
        form,
    })?;
    Ok(BlockId { number })
}

/// An action block whose parameters are the last locals. So many locals stand where it is written.
#[tactic(auto, unfolding(type_base::specs::Claims::and_then, view_rules::specs::Builds::action))]
fn action(
    alloc: Global,
    scope: &mut Scope<'_>,
    statements: &[Stmt],
    outer: usize,
    parameters: usize,
    blocks: &mut Items<Code>,
) -> Result<BlockId, Fault>
    ensures found { Builds result scope.old scope.new blocks.new (action parameters statements.now outer (seen scope.old) blocks.old) }
{
    let body = check_block(alloc, scope, statements)?;
    let form = CodeForm::Statements(body);
    let locals = scope.locals.as_slice();
    let block = add_block(alloc, locals, blocks, outer, parameters, form)?;
    Ok(block)
}

/// An action block without parameters.
pub fn acts(
    alloc: Global,
    scope: &mut Scope<'_>,
    statements: &[Stmt],
    blocks: &mut Items<Code>,
) -> Result<BlockId, Fault>
    ensures found { Builds result scope.old scope.new blocks.new (acts statements.now (seen scope.old) blocks.old) }
{
    let mark = enter(scope);
    let block = action(alloc, scope, statements, mark.locals, 0, blocks)?;
    leave(scope, mark);
    Ok(block)
}

/// An action block with one parameter.
pub fn acts_on(
    alloc: Global,
    scope: &mut Scope<'_>,
    statements: &[Stmt],
    parameter: Local,
    blocks: &mut Items<Code>,
) -> Result<BlockId, Fault>
    ensures found { Builds result scope.old scope.new blocks.new (action 1 statements.now (length scope.old.locals) (with_item (seen scope.old) parameter) blocks.old) }
{
    let mark = enter(scope);
    push_local(scope, parameter)?;
    let block = action(alloc, scope, statements, mark.locals, 1, blocks)?;
    leave(scope, mark);
    Ok(block)
}

/// An action block with two parameters, whose names differ.
#[tactic(auto, unfolding(view_rules::specs::Builds::acts_two))]
pub fn acts_on_two(
    alloc: Global,
    scope: &mut Scope<'_>,
    statements: &[Stmt],
    first: Local,
    second: Local,
    blocks: &mut Items<Code>,
) -> Result<BlockId, Fault>
    ensures found { Builds result scope.old scope.new blocks.new (acts_two statements.now first second (seen scope.old) blocks.old) }
{
    let mark = enter(scope);
    push_local(scope, first)?;
    declare(scope, second)?;
    let block = action(alloc, scope, statements, mark.locals, 2, blocks)?;
    leave(scope, mark);
    Ok(block)
}

/// Whether the code behind these blocks, the builder of a preference reader, alters nothing of what it sees.
fn keeps(
    alloc: Global,
    outer: usize,
    blocks: &Items<Code>,
    form: &CodeForm,
) -> Result<bool, AllocError>
    ensures value { IfOk result (λ b. b ≡ reader_keeps outer (length blocks.now) form.now) }
{
    reader_keeps(alloc, outer, blocks.len(), form)
}

/// The builder of a preference reader whose parameter is the last local. So many locals stand where it is written, and it
/// alters none of these.
#[tactic(auto, unfolding(type_base::specs::Claims::and_then, view_rules::specs::Builds::reader_block), using(crate::proofs::Around::reader_built, crate::proofs::Around::reader_refused))]
fn reader_block<F>(
    inner: &Inner<F>,
    scope: &mut Scope<'_>,
    statements: &[Stmt],
    outer: usize,
    blocks: &mut Items<Code>,
) -> Result<BlockId, Fault>
where
    F: Fn(Global, u32, &mut Scope<'_>, &[Stmt], &mut Items<Code>) -> Result<Items<CoreItem>, Fault>,
    requires runs { Runs inner.now.room (F.pre inner.now.check) (F.post inner.now.check) }
    ensures found { Builds result scope.old scope.new blocks.new (reader_block (items_to inner.now.room) statements.now outer (seen scope.old) blocks.old) }
{
    let items = content(inner, scope, statements, blocks)?;
    let form = CodeForm::Builder(items);
    if keeps(inner.alloc, outer, blocks, &form)? {
        let locals = scope.locals.as_slice();
        let block = add_block(inner.alloc, locals, blocks, outer, 1, form)?;
        Ok(block)
    } else {
        drop(form);
        Err(Fault::NotTyped)
    }
}

/// The builder of a preference reader, whose parameter is the value.
pub fn reader<F>(
    inner: &Inner<F>,
    scope: &mut Scope<'_>,
    statements: &[Stmt],
    parameter: Local,
    blocks: &mut Items<Code>,
) -> Result<BlockId, Fault>
where
    F: Fn(Global, u32, &mut Scope<'_>, &[Stmt], &mut Items<Code>) -> Result<Items<CoreItem>, Fault>,
    requires runs { Runs inner.now.room (F.pre inner.now.check) (F.post inner.now.check) }
    ensures found { Builds result scope.old scope.new blocks.new (reader (items_to inner.now.room) statements.now parameter (seen scope.old) blocks.old) }
{
    let mark = enter(scope);
    push_local(scope, parameter)?;
    let block = reader_block(inner, scope, statements, mark.locals, blocks)?;
    leave(scope, mark);
    Ok(block)
}
