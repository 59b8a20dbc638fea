//! The modifiers whose arguments are lengths, numbers and truth values.
#![tactic(auto, unfolding(type_base::specs::Claims::and_then))]

ghost use Rattle.std.specs.Prelude.{◌≡◌, ◌∷◌, [], codes, option_copied, is_some, IfOk};
ghost use Rattle.type_base.specs.Context.{seen};
ghost use Rattle.type_base.specs.Rules.{Answers};
ghost use Rattle.modifier_rules.specs.Arguments as arguments;
ghost use Rattle.modifier_rules.specs.Arguments.{Leaves, call};

use crate::lengths::check_length;
use modifier_parts::{centre, expr_at, is_plain, label_is, last_alignment, take_edges};
use modifier_rules::{Plain, Slot};
use std::alloc::{AllocError, Global};
use sv_items::Items;
use swift_ast::{Arg, Expr};
use swift_core::{Alignment, Core, Edges, ModifierCall, ModifierKind, Ty};
use type_base::{Fault, Scope};
use type_expr::check_wanted;

/// Whether the argument is the one that the slot is for, by its label.
fn fits(slot: Slot, arg: &Arg) -> bool
    ensures value { result ≡ arguments.fits slot arg.now }
{
    match slot {
        Slot::Width => label_is(arg, b"width"),
        Slot::Height => label_is(arg, b"height"),
        Slot::MinWidth => label_is(arg, b"minWidth"),
        Slot::IdealWidth => label_is(arg, b"idealWidth"),
        Slot::MaxWidth => label_is(arg, b"maxWidth"),
        Slot::MinHeight => label_is(arg, b"minHeight"),
        Slot::IdealHeight => label_is(arg, b"idealHeight"),
        Slot::MaxHeight => label_is(arg, b"maxHeight"),
        Slot::X => label_is(arg, b"x"),
        Slot::Y => label_is(arg, b"y"),
        Slot::Spacing => label_is(arg, b"spacing"),
        Slot::MinLength => label_is(arg, b"minLength"),
        Slot::Horizontal => label_is(arg, b"horizontal"),
        Slot::Vertical => label_is(arg, b"vertical"),
        Slot::Amount | Slot::Number | Slot::Truth => is_plain(arg),
    }
}

fn slot_value(alloc: Global, scope: &Scope<'_>, slot: Slot, e: &Expr) -> Result<Core, Fault>
    ensures found { Answers result (arguments.slot_value slot e.now (seen scope.now)) }
{
    match slot {
        Slot::Horizontal | Slot::Vertical | Slot::Truth => {
            check_wanted(alloc, scope, &Ty::Bool, e)
        }
        Slot::Number => check_wanted(alloc, scope, &Ty::Int, e),
        _ => check_length(alloc, scope, e),
    }
}

/// The core of the first argument, where it is the one that the slot is for, and the arguments behind it.
#[tactic(auto, unfolding(type_base::specs::Claims::and_then, modifier_rules::specs::Arguments::slotted))]
pub fn check_slot<'t>(
    alloc: Global,
    scope: &Scope<'_>,
    slot: Slot,
    args: &'t [Arg],
) -> Result<(Option<Core>, &'t [Arg]), Fault>
    ensures found { Leaves result (arguments.slotted slot args.now (seen scope.now)) }
{
    match args {
        [] => Ok((None, args)),
        [arg, rest @ ..] => {
            if fits(slot, arg) {
                match expr_at(&arg.value) {
                    Some(e) => Ok((Some(slot_value(alloc, scope, slot, e)?), rest)),
                    None => Err(Fault::NotTyped),
                }
            } else {
                Ok((None, args))
            }
        }
    }
}

fn put_first(
    alloc: Global,
    first: Option<Core>,
    more: Items<Option<Core>>,
) -> Result<Items<Option<Core>>, AllocError>
    ensures value { IfOk result (λ all. all ≡ first ∷ more) }
{
    let mut all = Items::new(alloc);
    all.push(first)?;
    all.append(more)?;
    Ok(all)
}

/// The arguments of the slots in order, each given or left out, and the arguments that are left over.
#[tactic(auto, unfolding(type_base::specs::Claims::and_then, modifier_rules::specs::Arguments::all_slotted))]
fn all_slotted<'t>(
    alloc: Global,
    scope: &Scope<'_>,
    slots: &[Slot],
    args: &'t [Arg],
) -> Result<(Items<Option<Core>>, &'t [Arg]), Fault>
    ensures found { Leaves result (arguments.all_slotted slots.now args.now (seen scope.now)) }
{
    match slots {
        [] => Ok((Items::new(alloc), args)),
        [slot, rest @ ..] => {
            let first = check_slot(alloc, scope, *slot, args)?;
            let more = all_slotted(alloc, scope, rest, first.1)?;
            Ok((put_first(alloc, first.0, more.0)?, more.1))
        }
    }
}

fn slots_of(plain: Plain) -> &'static [Slot]
    ensures value { result.now ≡ arguments.slots_of plain }
{
    match plain {
        Plain::FixedFrame => &[Slot::Width, Slot::Height],
        Plain::FlexibleFrame => &[
            Slot::MinWidth,
            Slot::IdealWidth,
            Slot::MaxWidth,
            Slot::MinHeight,
            Slot::IdealHeight,
            Slot::MaxHeight,
        ],
        Plain::Padding => &[Slot::Amount],
        Plain::FixedSize => &[Slot::Horizontal, Slot::Vertical],
        Plain::Offset => &[Slot::X, Slot::Y],
        Plain::LayoutPriority | Plain::LineLimit => &[Slot::Number],
        Plain::Disabled | Plain::AllowsHitTesting => &[Slot::Truth],
    }
}

fn all_given(given: &[Option<Core>]) -> bool
    ensures value { result ≡ arguments.all_given given.now }
{
    match given {
        [] => true,
        [first, rest @ ..] => first.is_some() && all_given(rest),
    }
}

fn none_given(given: &[Option<Core>]) -> bool
    ensures value { result ≡ arguments.none_given given.now }
{
    match given {
        [] => true,
        [first, rest @ ..] => !first.is_some() && none_given(rest),
    }
}

fn is_complete(plain: Plain, given: &[Option<Core>]) -> bool
    ensures value { result ≡ arguments.is_complete plain given.now }
{
    match plain {
        Plain::FixedFrame | Plain::FlexibleFrame | Plain::Padding | Plain::Offset => true,
        Plain::FixedSize => all_given(given) || none_given(given),
        _ => all_given(given),
    }
}

fn front_of(plain: Plain, args: &[Arg]) -> (Edges, &[Arg])
    ensures edges { result.0 ≡ (arguments.front_of plain args.now).0 }
    ensures rest { result.1.now ≡ (arguments.front_of plain args.now).1 }
{
    match plain {
        Plain::Padding => take_edges(args),
        _ => (every_edge(), args),
    }
}

fn every_edge() -> Edges
    ensures value { result ≡ arguments.all_edges }
{
    Edges {
        top: true,
        leading: true,
        bottom: true,
        trailing: true,
    }
}

fn back_of(plain: Plain, args: &[Arg]) -> Option<Alignment>
    ensures value { result ≡ arguments.back_of plain args.now }
{
    match plain {
        Plain::FixedFrame | Plain::FlexibleFrame => last_alignment(args),
        _ => match args {
            [] => Some(centre()),
            _ => None,
        },
    }
}

fn kind_of(plain: Plain, edges: Edges, alignment: Alignment) -> ModifierKind
    ensures value { result ≡ arguments.kind_of plain edges alignment }
{
    match plain {
        Plain::FixedFrame => ModifierKind::FixedFrame(alignment),
        Plain::FlexibleFrame => ModifierKind::FlexibleFrame(alignment),
        Plain::Padding => ModifierKind::Padding(edges),
        Plain::FixedSize => ModifierKind::FixedSize,
        Plain::Offset => ModifierKind::Offset,
        Plain::LayoutPriority => ModifierKind::LayoutPriority,
        Plain::LineLimit => ModifierKind::LineLimit,
        Plain::Disabled => ModifierKind::Disabled,
        Plain::AllowsHitTesting => ModifierKind::AllowsHitTesting,
    }
}

/// A modifier without views.
pub fn bare_call(alloc: Global, kind: ModifierKind, arguments: Items<Option<Core>>) -> ModifierCall
    ensures value { result ≡ call kind arguments [] }
{
    ModifierCall {
        kind,
        arguments,
        content: Items::new(alloc),
    }
}

/// A modifier whose arguments are lengths, numbers or truth values.
#[tactic(auto, unfolding(type_base::specs::Claims::and_then, modifier_rules::specs::Arguments::plain_call))]
pub fn check_plain(
    alloc: Global,
    scope: &Scope<'_>,
    plain: Plain,
    args: &[Arg],
) -> Result<ModifierCall, Fault>
    ensures found { Answers result (arguments.plain_call plain args.now (seen scope.now)) }
{
    let front = front_of(plain, args);
    let given = all_slotted(alloc, scope, slots_of(plain), front.1)?;
    match back_of(plain, given.1) {
        Some(alignment) => {
            if is_complete(plain, given.0.as_slice()) {
                Ok(bare_call(alloc, kind_of(plain, front.0, alignment), given.0))
            } else {
                Err(Fault::NotTyped)
            }
        }
        None => Err(Fault::NotTyped),
    }
}
