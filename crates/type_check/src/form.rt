//! The dispatch by the form of a member.
ghost use Rattle.std.specs.Prelude.{◌≡◌};
ghost use Rattle.type_base.specs.Context.{seen};
ghost use Rattle.type_base.specs.Rules.{Answers};
ghost use Rattle.member_rules.specs.Shapes as shape;
ghost use Rattle.member_rules.specs.Search.{property_of, statements_of, call_of, member_of};

use crate::functions::{function, reduce};
use crate::properties::{computed, initial, reads_key};
use crate::shapes::{function_stance, inside, stance_of};
use crate::views::{builder, builder_function};
use std::alloc::Global;
use swift_ast::{Expr, MemberForm, Param, ResultName, Stmt, TypeName};
use swift_core::{CoreMember, Kind, SignatureForm, Table};
use type_base::{Fault, Scope, Stance};

/// A property that is written with its type or its initial value, or with both.
fn property_of(
    alloc: Global,
    scope: &Scope<'_>,
    signature: &SignatureForm,
    declared: &Option<TypeName>,
    value: &Option<Expr>,
) -> Result<CoreMember, Fault>
    ensures found { Answers result (property_of (seen scope.now) signature.now declared.now value.now) }
{
    match signature {
        SignatureForm::Stored(_, _, ty, _) => initial(alloc, scope, ty, value),
        SignatureForm::State(_, ty, _) => initial(alloc, scope, ty, value),
        SignatureForm::Binding(_, ty) => match value {
            None => initial(alloc, scope, ty, value),
            Some(_) => Err(Fault::NotTyped),
        },
        SignatureForm::Environment(key) => match value {
            None => reads_key(alloc, scope, *key, declared),
            Some(_) => Err(Fault::NotTyped),
        },
        SignatureForm::Static(ty) => match value {
            None => Err(Fault::NotTyped),
            Some(_) => initial(alloc, scope, ty, value),
        },
        _ => Err(Fault::NotTyped),
    }
}

/// A property that is written with statements.
fn statements_of(
    alloc: Global,
    table: &Table,
    owner: Option<u32>,
    kind: Kind,
    signature: &SignatureForm,
    statements: &[Stmt],
) -> Result<CoreMember, Fault>
    ensures found { Answers result (statements_of (shape.inside table.now owner) kind signature.now statements.now) }
{
    match signature {
        SignatureForm::Static(ty) => {
            let mut scope = inside(alloc, table, owner, Stance::Key);
            computed(alloc, &mut scope, ty, statements)
        }
        SignatureForm::Computed(ty) => {
            let mut scope = inside(alloc, table, owner, stance_of(kind));
            computed(alloc, &mut scope, ty, statements)
        }
        SignatureForm::BuilderProperty => {
            let mut scope = inside(alloc, table, owner, stance_of(kind));
            builder(alloc, &mut scope, kind, statements)
        }
        _ => Err(Fault::NotTyped),
    }
}

/// A function.
fn call_of(
    alloc: Global,
    table: &Table,
    owner: Option<u32>,
    kind: Kind,
    signature: &SignatureForm,
    params: &[Param],
    written: &Option<ResultName>,
    statements: &[Stmt],
) -> Result<CoreMember, Fault>
    ensures found { Answers result (call_of (shape.inside table.now owner) kind signature.now params.now written.now statements.now) }
{
    match signature {
        SignatureForm::Function(signatures, ty, mutating) => {
            let mut scope = inside(alloc, table, owner, function_stance(*mutating, kind));
            function(
                alloc,
                &mut scope,
                signatures.as_slice(),
                ty,
                params,
                written,
                statements,
            )
        }
        SignatureForm::BuilderFunction(signatures) => {
            let mut scope = inside(alloc, table, owner, stance_of(kind));
            builder_function(alloc, &mut scope, signatures.as_slice(), params, statements)
        }
        SignatureForm::Reduce => {
            let mut scope = inside(alloc, table, owner, Stance::Key);
            reduce(alloc, &mut scope, kind, params, statements)
        }
        _ => Err(Fault::NotTyped),
    }
}

/// The core of a member of what its declaration says that it is, by what is written.
pub fn member_of(
    alloc: Global,
    table: &Table,
    owner: Option<u32>,
    kind: Kind,
    signature: &SignatureForm,
    form: &MemberForm,
) -> Result<CoreMember, Fault>
    ensures found { Answers result (member_of table.now owner kind signature.now form.now) }
{
    match form {
        MemberForm::Stored(_, _, declared, value) => {
            let scope = inside(alloc, table, owner, Stance::Initial);
            property_of(alloc, &scope, signature, declared, value)
        }
        MemberForm::Computed(_, _, statements) => {
            statements_of(alloc, table, owner, kind, signature, statements.as_slice())
        }
        MemberForm::Function(_, params, written, statements) => call_of(
            alloc,
            table,
            owner,
            kind,
            signature,
            params.as_slice(),
            written,
            statements.as_slice(),
        ),
    }
}
