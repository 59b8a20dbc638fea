//! Properties and functions that give views.
ghost use Rattle.std.specs.Prelude.{◌≡◌, []};
ghost use Rattle.type_base.specs.Context.{seen};
ghost use Rattle.type_base.specs.Rules.{Answers};
ghost use Rattle.view_rules.specs.Builds.{Builds};
ghost use Rattle.view_rules.specs.Items.{find_built};
ghost use Rattle.member_rules.specs.Search.{builder_in, builder_of, builder_function_of};

use crate::functions::{parameters, types_here};
use crate::shapes::of_builder;
use std::alloc::Global;
use sv_items::Items;
use swift_ast::{Param, Stmt};
use swift_core::{Code, CoreItem, CoreMember, Kind, ParamSignature};
use type_base::{Fault, Scope, enter};
use type_view::{check_builder, check_scene};

/// The builder of a property: that of an app is its scene.
fn builder_in(
    alloc: Global,
    scope: &mut Scope<'_>,
    kind: Kind,
    statements: &[Stmt],
    blocks: &mut Items<Code>,
) -> Result<Items<CoreItem>, Fault>
    ensures found { Builds result scope.old scope.new blocks.new (builder_in kind statements.now (seen scope.old) blocks.old) }
{
    match kind {
        Kind::App => check_scene(alloc, scope, statements, blocks),
        Kind::Data(_) | Kind::Enum(_, _) | Kind::View | Kind::Key(_) => {
            check_builder(alloc, scope, statements, blocks)
        }
    }
}

/// A property that gives views.
#[tactic(auto, unfolding(type_base::specs::Claims::and_then, member_rules::specs::Search::builder_of))]
pub fn builder(
    alloc: Global,
    scope: &mut Scope<'_>,
    kind: Kind,
    statements: &[Stmt],
) -> Result<CoreMember, Fault>
    ensures found { Answers result (builder_of (builder_in kind statements.now) (seen scope.old)) }
{
    let mut blocks = Items::new(alloc);
    let items = builder_in(alloc, scope, kind, statements, &mut blocks)?;
    Ok(of_builder(alloc, Items::new(alloc), items, blocks))
}

/// A function that gives views.
#[tactic(auto, unfolding(type_base::specs::Claims::and_then, member_rules::specs::Search::builder_function_of))]
pub fn builder_function(
    alloc: Global,
    scope: &mut Scope<'_>,
    signatures: &[ParamSignature],
    params: &[Param],
    statements: &[Stmt],
) -> Result<CoreMember, Fault>
    ensures found { Answers result (builder_function_of signatures.now params.now (find_built statements.now) (seen scope.old)) }
{
    parameters(alloc, scope, signatures, params)?;
    let types = types_here(alloc, scope)?;
    let _mark = enter(scope);
    let mut blocks = Items::new(alloc);
    let items = check_builder(alloc, scope, statements, &mut blocks)?;
    Ok(of_builder(alloc, types, items, blocks))
}
