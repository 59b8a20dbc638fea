//! The public calls.
#![tactic(auto, unfolding(type_base::specs::Claims::and_then))]

ghost use Rattle.std.specs.Prelude.{◌≡◌, codes, option_copied, OnOk};
ghost use Rattle.type_base.specs.Context.{seen};
ghost use Rattle.view_rules.specs.Builds.{Builds, DecidesBuild};
ghost use Rattle.view_rules.specs.Items.{Built, find_built};
ghost use Rattle.view_rules.specs.Scenes as scenes;
ghost use Rattle.view_rules.specs.Scenes.{Scene, find_scene};

use crate::items::built;
use modifier_parts::{called_at, name_with, sole_statement};
use std::alloc::Global;
use sv_items::Items;
use swift_ast::{Arg, Part, Stmt, Tail};
use swift_core::{Code, CoreItem};
use swift_lex::Word;
use type_base::{Fault, Scope};
use type_leaves::tail_body;

/// The items of a builder. Its action blocks and the builders of its preference readers are put behind `blocks`, each
/// after those within it. The scope is as before; after `NotTyped` nothing is said of it, nor of `blocks`.
pub fn check_builder(
    alloc: Global,
    scope: &mut Scope<'_>,
    statements: &[Stmt],
    blocks: &mut Items<Code>,
) -> Result<Items<CoreItem>, Fault>
    ensures found { Builds result scope.old scope.new blocks.new (find_built statements.now (seen scope.old) blocks.old) }
    ensures typed { DecidesBuild result blocks.new (Built statements.now (seen scope.old) blocks.old) }
{
    built(alloc, scope, statements, blocks)
}

/// What stands behind a call without arguments in brackets.
fn empty_call<'t>(args: &[Arg], tail: Option<&'t Tail>) -> Option<&'t Tail>
    ensures value { option_copied result ≡ scenes.empty_call (args.now, option_copied tail.entry) }
{
    match args {
        [] => tail,
        _ => None,
    }
}

/// The closures of `WindowGroup { B }`.
fn window_part<'t>(w: &Word, part: &'t Part) -> Option<&'t Tail>
    ensures value { option_copied result ≡ scenes.window_part w.now part.now }
{
    if !w.is(b"WindowGroup") {
        return None;
    }
    match called_at(part) {
        Some((args, tail)) => empty_call(args, tail),
        None => None,
    }
}

/// The statements of `WindowGroup { B }`, the one statement.
fn window_of(statements: &[Stmt]) -> Option<&[Stmt]>
    ensures value { option_copied result ≡ scenes.window_of statements.now }
{
    match sole_statement(statements) {
        Some(e) => match name_with(e) {
            Some((w, part)) => match window_part(w, part) {
                Some(tail) => tail_body(tail),
                None => None,
            },
            None => None,
        },
        None => None,
    }
}

#[tactic(auto, unfolding(type_base::specs::Claims::and_then, view_rules::specs::Scenes::find_scene))]
fn scene(
    alloc: Global,
    scope: &mut Scope<'_>,
    statements: &[Stmt],
    blocks: &mut Items<Code>,
) -> Result<Items<CoreItem>, Fault>
    ensures found { Builds result scope.old scope.new blocks.new (find_scene statements.now (seen scope.old) blocks.old) }
{
    match window_of(statements) {
        Some(inside) => built(alloc, scope, inside, blocks),
        None => Err(Fault::NotTyped),
    }
}

/// The items of the window that is the body of the app. Otherwise as `check_builder`.
pub fn check_scene(
    alloc: Global,
    scope: &mut Scope<'_>,
    statements: &[Stmt],
    blocks: &mut Items<Code>,
) -> Result<Items<CoreItem>, Fault>
    ensures found { Builds result scope.old scope.new blocks.new (find_scene statements.now (seen scope.old) blocks.old) }
    ensures typed { DecidesBuild result blocks.new (Scene statements.now (seen scope.old) blocks.old) }
{
    scene(alloc, scope, statements, blocks)
}
