ghost use Rattle.std.specs.Prelude.{option_copied};
ghost use Rattle.type_base.specs.Context.{seen};
ghost use Rattle.type_base.specs.Rules.{Answers, Decides};
ghost use Rattle.value_rules.specs.Values.{infer, Typed, infer_wanted, TypedWanted, infer_target, TypedTarget, infer_binding, TypedBinding, infer_effect, TypedEffect, infer_fillings, TypedFillings, infer_arguments, TypedArguments, infer_indices, TypedIndices};

use crate::knot::check_to;
use expr_rules::wanted;
use post_rules::Effect;
use std::alloc::Global;
use sv_items::Items;
use swift_ast::{Arg, Expr};
use swift_core::{Core, Filling, ParamSignature, Target, Ty};
use type_base::{Fault, Inner, Scope};
use type_calls::arguments;
use type_places::{binding, fillings, target};
use type_post::{effect, indices};

/// How deep the forms of an expression may nest. What the parser reads nests less.
const LEVELS: u32 = 5000;

/// The core and the type of an expression that gives a value, under an expected type, if there is one.
pub fn check_value(
    alloc: Global,
    scope: &Scope<'_>,
    want: Option<&Ty>,
    expr: &Expr,
) -> Result<(Core, Ty), Fault>
    ensures found { Answers result (infer expr.now (seen scope.now) (option_copied want.entry)) }
    ensures typed { Decides result (Typed expr.now (seen scope.now) (option_copied want.entry)) }
{
    check_to(alloc, LEVELS, scope, want, expr)
}

/// The core of an expression where a value of this type is expected: a value that comes out as what an optional holds
/// is promoted.
pub fn check_wanted(alloc: Global, scope: &Scope<'_>, want: &Ty, expr: &Expr) -> Result<Core, Fault>
    ensures found { Answers result (infer_wanted expr.now want.now (seen scope.now)) }
    ensures typed { Decides result (TypedWanted expr.now want.now (seen scope.now)) }
{
    let inner = Inner {
        alloc,
        room: LEVELS,
        check: check_to,
    };
    wanted(&inner, scope, want, expr)
}

/// The place that is written by an assignment to this expression, and the type of the value there.
pub fn check_target(alloc: Global, scope: &Scope<'_>, expr: &Expr) -> Result<(Target, Ty), Fault>
    ensures found { Answers result (infer_target expr.now (seen scope.now)) }
    ensures typed { Decides result (TypedTarget expr.now (seen scope.now)) }
{
    let inner = Inner {
        alloc,
        room: LEVELS,
        check: check_to,
    };
    target(&inner, scope, expr)
}

/// The place that a binding as `$x.f[i]` stands for, and the type of the value there.
pub fn check_binding(alloc: Global, scope: &Scope<'_>, expr: &Expr) -> Result<(Target, Ty), Fault>
    ensures found { Answers result (infer_binding expr.now (seen scope.now)) }
    ensures typed { Decides result (TypedBinding expr.now (seen scope.now)) }
{
    let inner = Inner {
        alloc,
        room: LEVELS,
        check: check_to,
    };
    binding(&inner, scope, expr)
}

/// What an expression does that stands as a statement.
pub fn check_effect(alloc: Global, scope: &Scope<'_>, expr: &Expr) -> Result<Effect, Fault>
    ensures found { Answers result (infer_effect expr.now (seen scope.now)) }
    ensures typed { Decides result (TypedEffect expr.now (seen scope.now)) }
{
    let inner = Inner {
        alloc,
        room: LEVELS,
        check: check_to,
    };
    effect(&inner, scope, expr)
}

/// What fills the stored properties, slots and bindings of this declaration, by the arguments of its initialiser.
pub fn check_fillings(
    alloc: Global,
    scope: &Scope<'_>,
    declaration: u32,
    args: &[Arg],
) -> Result<Items<Filling>, Fault>
    ensures found { Answers result (infer_fillings declaration args.now (seen scope.now)) }
    ensures typed { Decides result (TypedFillings declaration args.now (seen scope.now)) }
{
    let inner = Inner {
        alloc,
        room: LEVELS,
        check: check_to,
    };
    fillings(&inner, scope, declaration, args)
}

/// The arguments of a function of the program with these parameters.
pub fn check_arguments(
    alloc: Global,
    scope: &Scope<'_>,
    parameters: &[ParamSignature],
    args: &[Arg],
) -> Result<Items<Core>, Fault>
    ensures found { Answers result (infer_arguments parameters.now args.now (seen scope.now)) }
    ensures typed { Decides result (TypedArguments parameters.now args.now (seen scope.now)) }
{
    let inner = Inner {
        alloc,
        room: LEVELS,
        check: check_to,
    };
    arguments(&inner, scope, parameters, args)
}

/// The list whose indices an expression is.
pub fn check_indices(alloc: Global, scope: &Scope<'_>, expr: &Expr) -> Result<Core, Fault>
    ensures found { Answers result (infer_indices expr.now (seen scope.now)) }
    ensures typed { Decides result (TypedIndices expr.now (seen scope.now)) }
{
    let inner = Inner {
        alloc,
        room: LEVELS,
        check: check_to,
    };
    indices(&inner, scope, expr)
}
