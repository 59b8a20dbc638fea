ghost use Rattle.std.specs.Prelude.{◌≡◌, Some, IfOk, option_copied};
ghost use Rattle.type_base.specs.Claims.{and_then};
ghost use Rattle.type_base.specs.Context.{seen};
ghost use Rattle.type_base.specs.Rules.{Answers};
ghost use Rattle.expr_rules.specs.Ops.{local_value, own_value, view_value, data_value, key_value, typed_core, computed, named_within, has_self};
ghost use Rattle.expr_rules.specs.OpsSearch.{nil, named, own_named, myself, implicit};

use std::alloc::{AllocError, Global};
use sv_items::{Boxed, Items};
use sv_value::Value;
use swift_core::{
    CodeId, Core, EnvironmentKey, Invocation, Lookup, PlaceRule, Receiver, SignatureForm, Ty,
};
use type_base::{Fault, Local, LocalKind, Scope, Stance, find_local, find_member, find_own, owner};

/// `nil`, where an optional is expected.
#[inline(never)]
#[tactic(auto, unfolding(type_base::specs::Claims::and_then, expr_rules::specs::OpsSearch::nil))]
pub fn nil(alloc: Global, scope: &Scope<'_>, want: Option<&Ty>) -> Result<(Core, Ty), Fault>
    ensures found { Answers result (nil (seen scope.now) (option_copied want.entry)) }
{
    match want {
        Some(ty) => match ty.inside() {
            Some(_) => {
                let ty = ty.copy(alloc)?;
                Ok((Core::Literal(Value::Opt(None)), ty))
            }
            None => Err(Fault::NotTyped),
        },
        None => Err(Fault::NotTyped),
    }
}

/// `self` where a member of a data struct or of an enum is written.
#[inline(never)]
#[tactic(auto, unfolding(type_base::specs::Claims::and_then, expr_rules::specs::OpsSearch::myself))]
pub fn myself(scope: &Scope<'_>, want: Option<&Ty>) -> Result<(Core, Ty), Fault>
    ensures found { Answers result (myself (seen scope.now) (option_copied want.entry)) }
{
    if !has_self(scope.stance) {
        return Err(Fault::NotTyped);
    }
    match owner(scope) {
        Some((number, _)) => Ok((Core::Look(Lookup::Itself), Ty::Named(number))),
        None => Err(Fault::NotTyped),
    }
}

fn has_self(stance: Stance) -> bool
    ensures value { result ≡ has_self stance }
{
    match stance {
        Stance::Data | Stance::Mutating => true,
        Stance::Outside | Stance::Initial | Stance::View | Stance::Key => false,
    }
}

/// The value of a name: a local, and else a member of `self`.
#[inline(never)]
#[tactic(auto, unfolding(type_base::specs::Claims::given, expr_rules::specs::OpsSearch::named))]
pub fn named(
    alloc: Global,
    scope: &Scope<'_>,
    want: Option<&Ty>,
    name: &[u8],
) -> Result<(Core, Ty), Fault>
    ensures found { Answers result (named name.now (seen scope.now) (option_copied want.entry)) }
{
    match find_local(scope, name) {
        Some((at, local)) => local_named(alloc, at, local),
        None => own_named(alloc, scope, name),
    }
}

/// The value of the local at a place.
#[tactic(auto, unfolding(type_base::specs::Claims::and_then))]
fn local_named(alloc: Global, at: usize, local: &Local) -> Result<(Core, Ty), Fault>
    ensures found { Answers result (and_then (local_value at local.now.kind) (λ c. Some (c, local.now.ty))) }
{
    let core = match local.kind {
        LocalKind::Let | LocalKind::Var => Core::Look(Lookup::Local(at)),
        LocalKind::Place => Core::Look(Lookup::BoundLocal(at)),
        LocalKind::Next => return Err(Fault::NotTyped),
    };
    Ok((core, local.ty.copy(alloc)?))
}

/// The value of the member of `self` of this name.
#[tactic(auto, unfolding(type_base::specs::Claims::and_then, type_base::specs::Names::underscore))]
fn own_named(alloc: Global, scope: &Scope<'_>, name: &[u8]) -> Result<(Core, Ty), Fault>
    ensures found { Answers result (own_named name.now (seen scope.now)) }
{
    if name == b"_".as_slice() {
        return Err(Fault::NotTyped);
    }
    match find_own(scope, name) {
        Some((_, member)) => {
            let keys = scope.table.environment.as_slice();
            own_value(alloc, scope.stance, keys, member.code, &member.form)
        }
        None => Err(Fault::NotTyped),
    }
}

/// The value of a member of `self`, where code of this stance names it.
#[tactic(auto, unfolding(expr_rules::specs::Ops::own_value))]
fn own_value(
    alloc: Global,
    stance: Stance,
    keys: &[EnvironmentKey],
    code: CodeId,
    form: &SignatureForm,
) -> Result<(Core, Ty), Fault>
    ensures found { Answers result (own_value stance keys.now code form.now) }
{
    match stance {
        Stance::View => value_in_view(alloc, keys, code, form),
        Stance::Data | Stance::Mutating => value_in_data(alloc, code, form),
        Stance::Key => value_in_key(alloc, code, form),
        Stance::Outside | Stance::Initial => Err(Fault::NotTyped),
    }
}

fn value_in_view(
    alloc: Global,
    keys: &[EnvironmentKey],
    code: CodeId,
    form: &SignatureForm,
) -> Result<(Core, Ty), Fault>
    ensures found { Answers result (view_value keys.now code form.now) }
{
    match form {
        SignatureForm::Stored(at, _, ty, _) => of_type(alloc, Core::Look(Lookup::Input(*at)), ty),
        SignatureForm::State(at, ty, _) => {
            of_type(alloc, Core::Look(Lookup::Slot(PlaceRule::Own(*at))), ty)
        }
        SignatureForm::Binding(at, ty) => of_type(alloc, Core::Look(Lookup::BoundInput(*at)), ty),
        SignatureForm::Environment(key) => match keys.get(*key as usize) {
            Some(held) => of_type(alloc, Core::Look(Lookup::Environment(*key)), &held.ty),
            None => Err(Fault::NotTyped),
        },
        SignatureForm::Computed(ty) => of_type(alloc, computed(alloc, code)?, ty),
        _ => Err(Fault::NotTyped),
    }
}

fn value_in_data(alloc: Global, code: CodeId, form: &SignatureForm) -> Result<(Core, Ty), Fault>
    ensures found { Answers result (data_value code form.now) }
{
    match form {
        SignatureForm::Stored(at, _, ty, _) => {
            of_type(alloc, Core::Look(Lookup::OwnField(*at)), ty)
        }
        SignatureForm::Computed(ty) => of_type(alloc, computed(alloc, code)?, ty),
        _ => Err(Fault::NotTyped),
    }
}

fn value_in_key(alloc: Global, code: CodeId, form: &SignatureForm) -> Result<(Core, Ty), Fault>
    ensures found { Answers result (key_value code form.now) }
{
    match form {
        SignatureForm::Static(ty) => of_type(alloc, Core::Static(code), ty),
        _ => Err(Fault::NotTyped),
    }
}

/// The core with its type, if that is known.
fn of_type(alloc: Global, core: Core, ty: &Option<Ty>) -> Result<(Core, Ty), Fault>
    ensures found { Answers result (typed_core core ty.now) }
{
    match ty {
        Some(ty) => Ok((core, ty.copy(alloc)?)),
        None => Err(Fault::NotTyped),
    }
}

/// The use of a computed property of `self`.
fn computed(alloc: Global, code: CodeId) -> Result<Core, AllocError>
    ensures value { IfOk result (λ c. c ≡ computed code) }
{
    let invocation = Invocation {
        code,
        receiver: Receiver::Same,
        arguments: Items::new(alloc),
    };
    Ok(Core::Invoke(Boxed::new(alloc, invocation)?))
}

/// The declaration that a type names, behind any number of `?`.
#[cycle(named_within)]
#[tactic(auto, unfolding(expr_rules::specs::Ops::named_within))]
fn named_within(ty: &Ty) -> Option<u32>
    ensures value { result ≡ named_within ty.now }
{
    match ty {
        Ty::Named(number) => Some(*number),
        Ty::Optional(inside) => named_within(inside.get()),
        _ => None,
    }
}

/// `.name`, where an enum is expected that has the case.
#[inline(never)]
#[tactic(auto, unfolding(type_base::specs::Claims::and_then, expr_rules::specs::OpsSearch::implicit))]
pub fn implicit(scope: &Scope<'_>, want: Option<&Ty>, name: &[u8]) -> Result<(Core, Ty), Fault>
    ensures found { Answers result (implicit name.now (seen scope.now) (option_copied want.entry)) }
{
    let ty = match want {
        Some(ty) => ty,
        None => return Err(Fault::NotTyped),
    };
    let number = match named_within(ty) {
        Some(number) => number,
        None => return Err(Fault::NotTyped),
    };
    let declaration = match scope.table.declarations.get(number as usize) {
        Some(declaration) => declaration,
        None => return Err(Fault::NotTyped),
    };
    match find_member(declaration, name) {
        Some((_, member)) => match &member.form {
            SignatureForm::Case(place) => Ok((
                Core::Literal(Value::Case {
                    kind: number,
                    place: *place,
                }),
                Ty::Named(number),
            )),
            _ => Err(Fault::NotTyped),
        },
        None => Err(Fault::NotTyped),
    }
}
