ghost use Rattle.std.specs.Prelude.{◌≡◌, ◌+◌, ◌++◌, ◌∷◌, [], length, IfOk, OnOk};
ghost use Rattle.member_forms.specs.Marks.{environment_key as key_name};
ghost use Rattle.type_table.specs.Signatures as spec;

use member_forms::{Role, environment_key, is_private, label_of};
use std::alloc::{AllocError, Global};
use sv_items::Items;
use swift_ast::{
    Binder, Expr, Member, MemberForm, Modifier, Param, ParamForm, ResultName, TypeName,
};
use swift_core::{Argument, Initial, ParamSignature, SignatureForm, Table, Ty};
use type_base::type_of;

/// The type that is written, if one is written and it is one.
pub fn declared_type(
    alloc: Global,
    heads: &Table,
    declared: &Option<TypeName>,
) -> Result<Option<Ty>, AllocError>
    ensures { IfOk result (λ t. t ≡ spec.declared_type heads.now declared.now) }
{
    match declared {
        Some(name) => type_of(alloc, heads, name),
        None => Ok(None),
    }
}

/// The initial value of a property: the written one, or nil for a `var` of a type that is written with a `?`.
fn initial_of(binder: Binder, declared: &Option<TypeName>, value: &Option<Expr>) -> Option<Initial>
    ensures { result ≡ spec.initial_of binder declared.now value.now }
{
    match (value, binder, declared) {
        (Some(_), _, _) => Some(Initial::Written),
        (None, Binder::Var, Some(TypeName::Optional(_, _))) => Some(Initial::Nil),
        _ => None,
    }
}

fn is_let(binder: Binder) -> bool
    ensures { result ≡ spec.is_let binder }
{
    match binder {
        Binder::Let => true,
        Binder::Var => false,
    }
}

/// Whether a property is an argument of the initialiser.
pub fn argument_of(
    private: bool,
    binder: Binder,
    declared: &Option<TypeName>,
    value: &Option<Expr>,
) -> Argument
    ensures { result ≡ spec.argument_of private binder declared.now value.now }
{
    match initial_of(binder, declared, value) {
        None => Argument::Required,
        Some(initial) => {
            if private || is_let(binder) {
                Argument::Never(initial)
            } else {
                Argument::Optional(initial)
            }
        }
    }
}

fn param_signature(
    alloc: Global,
    heads: &Table,
    param: &Param,
) -> Result<ParamSignature, AllocError>
    ensures { IfOk result (λ p. p ≡ spec.param_signature heads.now param.now) }
{
    let ty = match &param.form {
        ParamForm::Plain(name) => type_of(alloc, heads, name)?,
        _ => None,
    };
    let label = label_of(param);
    if label.is(b"_") {
        return Ok(ParamSignature { label: None, ty });
    }
    Ok(ParamSignature {
        label: Some(label.copy(alloc)?),
        ty,
    })
}

/// The signatures of the parameters of a function.
fn params_of(
    alloc: Global,
    heads: &Table,
    params: &[Param],
) -> Result<Items<ParamSignature>, AllocError>
    ensures { IfOk result (λ ps. ps ≡ spec.params_of heads.now params.now) }
{
    let mut out = Items::new(alloc);
    for param in params {
        out.push(param_signature(alloc, heads, param)?)?;
    }
    Ok(out)
}

/// A property that is read from an environment key.
fn key_form(heads: &Table, modifiers: &[Modifier]) -> SignatureForm
    ensures { result ≡ spec.key_at heads.now (key_name modifiers.now) }
{
    match environment_key(modifiers) {
        Some(name) => match heads.keys.get(name.as_bytes()) {
            Some(key) => SignatureForm::Environment(key),
            None => SignatureForm::Unfit,
        },
        None => SignatureForm::Unfit,
    }
}

/// The numbers of the next input and of the next slot.
#[derive(Clone, Copy)]
pub struct Next {
    pub inputs: u32,
    pub slots: u32,
}

/// A stored property, a slot, a binding, an environment property or a static one.
pub fn stored_form(
    alloc: Global,
    heads: &Table,
    next: Next,
    role: Role,
    member: &Member,
    binder: Binder,
    declared: &Option<TypeName>,
    value: &Option<Expr>,
) -> Result<SignatureForm, AllocError>
    ensures { IfOk result (λ f. f ≡ spec.stored_form heads.now next.inputs next.slots role member.now.modifiers binder declared.now value.now) }
{
    let modifiers = member.modifiers.as_slice();
    match role {
        Role::Stored => {
            let ty = declared_type(alloc, heads, declared)?;
            let argument = argument_of(is_private(modifiers), binder, declared, value);
            Ok(SignatureForm::Stored(next.inputs, binder, ty, argument))
        }
        Role::State => {
            let ty = declared_type(alloc, heads, declared)?;
            let argument = argument_of(is_private(modifiers), binder, declared, value);
            Ok(SignatureForm::State(next.slots, ty, argument))
        }
        Role::Binding => Ok(SignatureForm::Binding(
            next.inputs,
            declared_type(alloc, heads, declared)?,
        )),
        Role::Environment => Ok(key_form(heads, modifiers)),
        Role::Static => Ok(SignatureForm::Static(declared_type(alloc, heads, declared)?)),
        _ => Ok(SignatureForm::Unfit),
    }
}

/// A computed property.
pub fn computed_form(
    alloc: Global,
    heads: &Table,
    role: Role,
    written: &ResultName,
) -> Result<SignatureForm, AllocError>
    ensures { IfOk result (λ f. f ≡ spec.computed_form heads.now role written.now) }
{
    match (role, written) {
        (Role::Computed, ResultName::Plain(name)) => Ok(SignatureForm::Computed(type_of(
            alloc, heads, name,
        )?)),
        (Role::Static, ResultName::Plain(name)) => Ok(SignatureForm::Static(type_of(
            alloc, heads, name,
        )?)),
        (Role::BuilderProperty, _) => Ok(SignatureForm::BuilderProperty),
        _ => Ok(SignatureForm::Unfit),
    }
}

/// A function that gives a value or nothing. One whose written result is no type has no signature.
fn valued_form(
    alloc: Global,
    heads: &Table,
    params: &[Param],
    mutating: bool,
    written: &Option<ResultName>,
) -> Result<SignatureForm, AllocError>
    ensures { IfOk result (λ f. f ≡ spec.valued_form heads.now params.now mutating written.now) }
{
    match written {
        None => Ok(SignatureForm::Function(params_of(alloc, heads, params)?, None, mutating)),
        Some(ResultName::Plain(name)) => match type_of(alloc, heads, name)? {
            Some(ty) => Ok(SignatureForm::Function(
                params_of(alloc, heads, params)?,
                Some(ty),
                mutating,
            )),
            None => Ok(SignatureForm::Unfit),
        },
        Some(ResultName::Opaque(_)) => Ok(SignatureForm::Unfit),
    }
}

/// A function.
pub fn function_form(
    alloc: Global,
    heads: &Table,
    role: Role,
    params: &[Param],
    written: &Option<ResultName>,
) -> Result<SignatureForm, AllocError>
    ensures { IfOk result (λ f. f ≡ spec.function_form heads.now role params.now written.now) }
{
    match role {
        Role::Function => valued_form(alloc, heads, params, false, written),
        Role::Mutating => valued_form(alloc, heads, params, true, written),
        Role::BuilderFunction => Ok(SignatureForm::BuilderFunction(params_of(
            alloc, heads, params,
        )?)),
        Role::Reduce => Ok(SignatureForm::Reduce),
        _ => Ok(SignatureForm::Unfit),
    }
}

/// What a member of this role is.
pub fn member_form(
    alloc: Global,
    heads: &Table,
    next: Next,
    role: Role,
    member: &Member,
) -> Result<SignatureForm, AllocError>
    ensures { IfOk result (λ f. f ≡ spec.member_form heads.now next.inputs next.slots role member.now.modifiers member.now.form) }
{
    match &member.form {
        MemberForm::Stored(binder, _, declared, value) => {
            stored_form(alloc, heads, next, role, member, *binder, declared, value)
        }
        MemberForm::Computed(_, written, _) => computed_form(alloc, heads, role, written),
        MemberForm::Function(_, params, written, _) => function_form(
            alloc,
            heads,
            role,
            params.as_slice(),
            written,
        ),
    }
}
