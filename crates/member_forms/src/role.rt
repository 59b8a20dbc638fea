ghost use Rattle.std.specs.Prelude.{◌≡◌, option_copied};
ghost use Rattle.member_forms.specs.Roles as roles;

use crate::marks::{Mark, is_bare, is_marked, is_private};
use swift_ast::{
    Binder, Expr, Member, MemberForm, Modifier, Param, ParamForm, ResultName, TypeName,
};
use swift_lex::Word;

/// What a declaration is by its names.
#[derive(Clone, Copy, Debug, PartialEq, Eq)]
pub enum Sort {
    Data,
    Enum,
    View,
    App,
    /// A preference key.
    Key,
}

/// What a member is by its form.
#[derive(Clone, Copy, Debug, PartialEq, Eq)]
pub enum Role {
    /// A stored property.
    Stored,
    /// A state slot.
    State,
    Binding,
    /// A property read from an environment key.
    Environment,
    /// A static property, stored or computed.
    Static,
    /// A computed property of a type.
    Computed,
    /// A function that gives a value or nothing.
    Function,
    /// A `mutating` function.
    Mutating,
    /// A computed property that gives views, or the body of an app.
    BuilderProperty,
    /// A function that gives views.
    BuilderFunction,
    /// `reduce` of a preference key.
    Reduce,
    /// None of these: the form is not one that its declaration may have.
    Unfit,
}

/// This role where the form fits.
fn when(fits: bool, role: Role) -> Role
    ensures { result ≡ roles.when_fits fits role }
{
    if fits { role } else { Role::Unfit }
}

/// Whether a property has an initial value: a written one, or nil for a `var` whose type is written with a `?`.
pub fn starts(binder: Binder, declared: &Option<TypeName>, value: &Option<Expr>) -> bool
    ensures { result ≡ roles.starts binder declared.now value.now }
{
    match (value, binder, declared) {
        (Some(_), _, _) => true,
        (None, Binder::Var, Some(TypeName::Optional(_, _))) => true,
        _ => false,
    }
}

/// Whether it has an initial value, if it is `private`.
fn may_start(
    modifiers: &[Modifier],
    binder: Binder,
    declared: &Option<TypeName>,
    value: &Option<Expr>,
) -> bool
    ensures { result ≡ roles.may_start modifiers.now binder declared.now value.now }
{
    !is_private(modifiers) || starts(binder, declared, value)
}

/// A stored member of a view.
fn stored_in_view(
    modifiers: &[Modifier],
    binder: Binder,
    declared: &Option<TypeName>,
    value: &Option<Expr>,
) -> Role
    ensures { result ≡ roles.stored_in_view modifiers.now binder declared.now value.now }
{
    let is_var = binder == Binder::Var;
    if is_bare(modifiers) {
        when(may_start(modifiers, binder, declared, value), Role::Stored)
    } else if is_marked(modifiers, Mark::State) {
        when(
            is_var && may_start(modifiers, binder, declared, value),
            Role::State,
        )
    } else if is_marked(modifiers, Mark::Binding) {
        when(
            is_var && value.is_none() && !is_private(modifiers),
            Role::Binding,
        )
    } else if is_marked(modifiers, Mark::Environment) {
        when(is_var && value.is_none(), Role::Environment)
    } else if is_marked(modifiers, Mark::Static) {
        when(!is_var && value.is_some(), Role::Static)
    } else {
        Role::Unfit
    }
}

/// A computed property or a function that gives views.
fn builder(modifiers: &[Modifier], role: Role) -> Role
    ensures { result ≡ roles.builder modifiers.now role }
{
    when(
        is_bare(modifiers) || is_marked(modifiers, Mark::ViewBuilder),
        role,
    )
}

fn in_view(member: &Member) -> Role
    ensures { result ≡ roles.in_view member.now }
{
    let modifiers = member.modifiers.as_slice();
    match &member.form {
        MemberForm::Stored(binder, _, declared, value) => stored_in_view(
            modifiers, *binder, declared, value,
        ),
        MemberForm::Computed(_, ResultName::Plain(_), _) => when(
            is_bare(modifiers),
            Role::Computed,
        ),
        MemberForm::Computed(_, ResultName::Opaque(name), _) => {
            if name.is(b"View") {
                builder(modifiers, Role::BuilderProperty)
            } else {
                Role::Unfit
            }
        }
        MemberForm::Function(_, _, Some(ResultName::Opaque(name)), _) => {
            if name.is(b"View") {
                builder(modifiers, Role::BuilderFunction)
            } else {
                Role::Unfit
            }
        }
        MemberForm::Function(_, _, _, _) => when(is_bare(modifiers), Role::Function),
    }
}

/// A function of a data struct or an enum.
fn function_in_data(modifiers: &[Modifier]) -> Role
    ensures { result ≡ roles.function_in_data modifiers.now }
{
    if is_bare(modifiers) {
        Role::Function
    } else {
        when(is_marked(modifiers, Mark::Mutating), Role::Mutating)
    }
}

fn in_data(member: &Member) -> Role
    ensures { result ≡ roles.in_data member.now }
{
    let modifiers = member.modifiers.as_slice();
    match &member.form {
        MemberForm::Stored(binder, _, declared, value) => {
            when(
                is_bare(modifiers) && may_start(modifiers, *binder, declared, value),
                Role::Stored,
            )
        }
        MemberForm::Computed(_, ResultName::Plain(_), _) => when(
            is_bare(modifiers),
            Role::Computed,
        ),
        MemberForm::Function(_, _, Some(ResultName::Opaque(_)), _) => Role::Unfit,
        MemberForm::Function(_, _, _, _) => function_in_data(modifiers),
        _ => Role::Unfit,
    }
}

fn in_enum(member: &Member) -> Role
    ensures { result ≡ roles.in_enum member.now }
{
    let modifiers = member.modifiers.as_slice();
    match &member.form {
        MemberForm::Computed(_, ResultName::Plain(_), _) => when(
            is_bare(modifiers),
            Role::Computed,
        ),
        MemberForm::Function(_, _, Some(ResultName::Opaque(_)), _) => Role::Unfit,
        MemberForm::Function(_, _, _, _) => when(is_bare(modifiers), Role::Function),
        _ => Role::Unfit,
    }
}

fn in_app(member: &Member) -> Role
    ensures { result ≡ roles.in_app member.now }
{
    let modifiers = member.modifiers.as_slice();
    match &member.form {
        MemberForm::Computed(name, ResultName::Opaque(scene), _) => {
            when(
                name.is(b"body") && scene.is(b"Scene") && is_bare(modifiers),
                Role::BuilderProperty,
            )
        }
        _ => Role::Unfit,
    }
}

/// The label of a parameter, which is its name where one name stands.
pub fn label_of(param: &Param) -> &Word
    ensures { result.now ≡ roles.label_of param.now }
{
    match &param.label {
        Some(label) => label,
        None => &param.name,
    }
}

fn is_value_param(param: &Param) -> bool
    ensures { result ≡ roles.is_value_param param.now }
{
    match &param.form {
        ParamForm::Inout(_) => label_of(param).is(b"value"),
        _ => false,
    }
}

fn is_next_param(param: &Param) -> bool
    ensures { result ≡ roles.is_next_param param.now }
{
    match &param.form {
        ParamForm::Function(_) => label_of(param).is(b"nextValue"),
        _ => false,
    }
}

fn are_reduce_params(params: &[Param]) -> bool
    ensures { result ≡ roles.reduce_params params.now }
{
    match params {
        [value, next] => is_value_param(value) && is_next_param(next),
        _ => false,
    }
}

fn in_key(member: &Member) -> Role
    ensures { result ≡ roles.in_key member.now }
{
    let is_static = is_marked(member.modifiers.as_slice(), Mark::Static);
    match &member.form {
        MemberForm::Stored(_, name, _, value) => {
            when(
                is_static && name.is(b"defaultValue") && value.is_some(),
                Role::Static,
            )
        }
        MemberForm::Computed(name, ResultName::Plain(_), _) => when(
            is_static && name.is(b"defaultValue"),
            Role::Static,
        ),
        MemberForm::Function(name, params, None, _) => {
            when(
                is_static && name.is(b"reduce") && are_reduce_params(params.as_slice()),
                Role::Reduce,
            )
        }
        _ => Role::Unfit,
    }
}

/// What a member is in a declaration of this sort.
pub fn role_of(sort: Sort, member: &Member) -> Role
    ensures { result ≡ roles.role_of sort member.now }
{
    match sort {
        Sort::Data => in_data(member),
        Sort::Enum => in_enum(member),
        Sort::View => in_view(member),
        Sort::App => in_app(member),
        Sort::Key => in_key(member),
    }
}
