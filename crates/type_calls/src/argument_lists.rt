ghost use Rattle.std.specs.Prelude.{◌≡◌, Some, option_copied};
ghost use Rattle.expr_rules.specs.Checks.{Checks};
ghost use Rattle.expr_rules.specs.Levels.{infer_to};
ghost use Rattle.post_rules.specs.Calls.{find_arguments};
ghost use Rattle.post_rules.specs.Syntax as syntax;
ghost use Rattle.post_rules.specs.Syntax.{label_of};
ghost use Rattle.type_base.specs.Context.{seen};
ghost use Rattle.type_base.specs.Rules.{Answers};
ghost use Rattle.type_calls.specs.Passed.{given_core, passed};

use expr_rules::wanted;
use std::alloc::Global;
use sv_items::Items;
use swift_ast::{Arg, ArgValue, Expr};
use swift_core::{Core, ParamSignature, Ty};
use swift_lex::Word;
use type_base::{Fault, Inner, Scope};

/// The expression that an argument is.
pub fn expr_of<'a>(argument: &'a Arg) -> Option<&'a Expr>
    ensures value { option_copied result ≡ syntax.expr_of argument.now }
{
    match &argument.value {
        ArgValue::Expr(expr) => Some(expr.get()),
        _ => None,
    }
}

/// Whether the argument has this label, or none where there is none.
fn same_label(argument: &Arg, label: &Option<Word>) -> bool
    ensures value { result ≡ syntax.same_label (label_of argument.now) label.now }
{
    match &argument.label {
        Some(own) => match label {
            Some(label) => own.is(label.as_bytes()),
            None => false,
        },
        None => match label {
            Some(_) => false,
            None => true,
        },
    }
}

/// Whether the argument has this label.
pub fn is_labelled(argument: &Arg, label: &Word) -> bool
    ensures value { result ≡ syntax.same_label (label_of argument.now) (Some label.now) }
{
    match &argument.label {
        Some(own) => own.is(label.as_bytes()),
        None => false,
    }
}

/// Whether the first argument has a label.
#[tactic(auto, using(std::proofs::lemmas::List::nil_from_length))]
pub fn begins_labelled(arguments: &[Arg]) -> bool
    ensures value { result ≡ syntax.is_labelled arguments.now }
{
    match arguments.split_first() {
        Some((first, _)) => match &first.label {
            Some(_) => true,
            None => false,
        },
        None => false,
    }
}

/// The value of an argument where this type is expected.
#[tactic(auto, unfolding(type_base::specs::Claims::and_then, crate::specs::Passed::given_core))]
pub fn given_core<F>(
    inner: &Inner<F>,
    scope: &Scope<'_>,
    ty: &Option<Ty>,
    argument: &Arg,
) -> Result<Core, Fault>
where
    F: Fn(Global, u32, &Scope<'_>, Option<&Ty>, &Expr) -> Result<(Core, Ty), Fault>,
    requires { Checks inner.now.room (F.pre inner.now.check) (F.post inner.now.check) }
    ensures found { Answers result (given_core (infer_to inner.now.room) ty.now argument.now (seen scope.now)) }
{
    match ty {
        Some(ty) => match expr_of(argument) {
            Some(expr) => wanted(inner, scope, ty, expr),
            None => Err(Fault::NotTyped),
        },
        None => Err(Fault::NotTyped),
    }
}

/// The value of an argument for this parameter.
#[tactic(auto, unfolding(crate::specs::Passed::passed))]
fn passed<F>(
    inner: &Inner<F>,
    scope: &Scope<'_>,
    parameter: &ParamSignature,
    argument: &Arg,
) -> Result<Core, Fault>
where
    F: Fn(Global, u32, &Scope<'_>, Option<&Ty>, &Expr) -> Result<(Core, Ty), Fault>,
    requires { Checks inner.now.room (F.pre inner.now.check) (F.post inner.now.check) }
    ensures found { Answers result (passed (infer_to inner.now.room) parameter.now argument.now (seen scope.now)) }
{
    if same_label(argument, &parameter.label) {
        return given_core(inner, scope, &parameter.ty, argument);
    }
    Err(Fault::NotTyped)
}

/// The arguments of a function with these parameters: the labels are the same, and each value has the type of its parameter.
#[tactic(auto, using(crate::proofs::Turns::arguments_start, crate::proofs::Turns::arguments_turn, crate::proofs::Turns::arguments_none, crate::proofs::Turns::arguments_missing, crate::proofs::Turns::arguments_extra, crate::proofs::Turns::arguments_end))]
pub fn arguments<F>(
    inner: &Inner<F>,
    scope: &Scope<'_>,
    parameters: &[ParamSignature],
    arguments: &[Arg],
) -> Result<Items<Core>, Fault>
where
    F: Fn(Global, u32, &Scope<'_>, Option<&Ty>, &Expr) -> Result<(Core, Ty), Fault>,
    requires { Checks inner.now.room (F.pre inner.now.check) (F.post inner.now.check) }
    ensures found { Answers result (find_arguments (infer_to inner.now.room) parameters.now arguments.now (seen scope.now)) }
{
    let mut cores = Items::new(inner.alloc);
    let mut rest = arguments;
    for parameter in parameters {
        match rest.split_first() {
            Some((argument, others)) => {
                let core = passed(inner, scope, parameter, argument)?;
                cores.push(core)?;
                rest = others;
            }
            None => return Err(Fault::NotTyped),
        }
    }
    match rest.split_first() {
        Some(_) => Err(Fault::NotTyped),
        None => Ok(cores),
    }
}
