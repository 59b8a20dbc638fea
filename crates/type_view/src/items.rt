//! The items of a builder.
#![tactic(auto, unfolding(type_base::specs::Claims::and_then))]

ghost use Rattle.std.specs.Prelude.{◌≡◌, ◌++◌, ◌∷◌, [], ◌-◌, Some, None, option_copied, IfOk, OnOk};
ghost use Rattle.type_base.specs.Context.{seen};
ghost use Rattle.type_base.specs.Rules.{Answers};
ghost use Rattle.type_base.specs.Scopes.{entered};
ghost use Rattle.view_rules.specs.Builds.{Builds, every_build};
ghost use Rattle.view_calls.specs.Checks.{Runs};
ghost use Rattle.view_rules.specs.Items as items;
ghost use Rattle.view_rules.specs.Items.{items_to};
ghost use Rattle.case_rules.specs.Scopes.{any_pushed};
ghost use Rattle.type_view.specs.Turns.{Adds, arm_in, arm_within};

use modifier_parts::called_at;
use std::alloc::{AllocError, Global};
use sv_items::Items;
use sv_value::Value;
use swift_ast::{Arm, Binder, Condition, Expr, Part, Stmt, StmtForm, SwitchCase, TypeName};
use swift_core::{Code, Core, CoreItem, ItemArm, ItemCase, ModifierCall, Ty, ViewCall};
use swift_lex::Word;
use type_base::{Fault, Inner, Local, LocalKind, Scope, enter, is_new, leave, push_local, type_of};
use type_cases::{check_conditions, check_subject};
use type_expr::{check_value, check_wanted};
use type_leaves::{Headed, head_of, named_use};
use view_calls::{content, modified, named_call};

/// How deep brackets and braces nest at most.
const LEVELS: u32 = 128;

/// A name that is called, and the modifiers behind it.
#[tactic(auto, unfolding(type_base::specs::Claims::and_then, view_rules::specs::Items::named_view))]
fn called_view<F>(
    inner: &Inner<F>,
    scope: &mut Scope<'_>,
    own: bool,
    w: &Word,
    parts: &[Part],
    blocks: &mut Items<Code>,
) -> Result<(ViewCall, Items<ModifierCall>), Fault>
where
    F: Fn(Global, u32, &mut Scope<'_>, &[Stmt], &mut Items<Code>) -> Result<Items<CoreItem>, Fault>,
    requires runs { Runs inner.now.room (F.pre inner.now.check) (F.post inner.now.check) }
    ensures found { Builds result scope.old scope.new blocks.new (items.headed_view (items_to inner.now.room) own w.now parts.now (seen scope.old) blocks.old) }
{
    match parts {
        [] => used_view(inner, scope, own, w, parts, blocks),
        [part, rest @ ..] => match called_at(part) {
            Some((args, tail)) => {
                let call = named_call(inner, scope, own, w, args, tail, blocks)?;
                match modified(inner, scope, Items::new(inner.alloc), rest, blocks) {
                    Ok(modifiers) => Ok((call, modifiers)),
                    Err(fault) => {
                        drop(call);
                        Err(fault)
                    }
                }
            }
            None => used_view(inner, scope, own, w, parts, blocks),
        },
    }
}

/// A name that is not called, and the modifiers behind it.
#[tactic(auto, unfolding(type_base::specs::Claims::and_then, view_rules::specs::Items::named_view))]
fn used_view<F>(
    inner: &Inner<F>,
    scope: &mut Scope<'_>,
    own: bool,
    w: &Word,
    parts: &[Part],
    blocks: &mut Items<Code>,
) -> Result<(ViewCall, Items<ModifierCall>), Fault>
where
    F: Fn(Global, u32, &mut Scope<'_>, &[Stmt], &mut Items<Code>) -> Result<Items<CoreItem>, Fault>,
    requires runs { Runs inner.now.room (F.pre inner.now.check) (F.post inner.now.check) }
    ensures found { Builds result scope.old scope.new blocks.new (items.named_view (items_to inner.now.room) own w.now parts.now None (seen scope.old) blocks.old) }
{
    let call = named_use(inner.alloc, scope, own, w)?;
    match modified(inner, scope, Items::new(inner.alloc), parts, blocks) {
        Ok(modifiers) => Ok((call, modifiers)),
        Err(fault) => {
            drop(call);
            Err(fault)
        }
    }
}

/// A view expression by its head, where those in brackets have one level less.
#[cycle(view)]
#[tactic(auto, unfolding(type_base::specs::Claims::and_then, view_rules::specs::Items::find_head))]
fn view_at<F>(
    inner: &Inner<F>,
    room: u32,
    scope: &mut Scope<'_>,
    e: &Expr,
    blocks: &mut Items<Code>,
) -> Result<(ViewCall, Items<ModifierCall>), Fault>
where
    F: Fn(Global, u32, &mut Scope<'_>, &[Stmt], &mut Items<Code>) -> Result<Items<CoreItem>, Fault>,
    requires runs { Runs inner.now.room (F.pre inner.now.check) (F.post inner.now.check) }
    ensures found { Builds result scope.old scope.new blocks.new (items.find_head (items_to inner.now.room) (items.view_to (items_to inner.now.room) room) (items.head_in e.now) (seen scope.old) blocks.old) }
{
    match head_of(e) {
        Headed::Named(own, w, parts) => called_view(inner, scope, own, w, parts, blocks),
        Headed::Inside(operand, parts) => {
            let (call, done) = view_to(inner, room, scope, operand, blocks)?;
            match modified(inner, scope, done, parts, blocks) {
                Ok(modifiers) => Ok((call, modifiers)),
                Err(fault) => {
                    drop(call);
                    Err(fault)
                }
            }
        }
        Headed::Nothing => Err(Fault::NotTyped),
    }
}

#[cycle(view)]
#[tactic(auto, using(view_rules::specs::Items::view_empty, view_rules::specs::Items::view_level))]
fn view_to<F>(
    inner: &Inner<F>,
    room: u32,
    scope: &mut Scope<'_>,
    e: &Expr,
    blocks: &mut Items<Code>,
) -> Result<(ViewCall, Items<ModifierCall>), Fault>
where
    F: Fn(Global, u32, &mut Scope<'_>, &[Stmt], &mut Items<Code>) -> Result<Items<CoreItem>, Fault>,
    requires runs { Runs inner.now.room (F.pre inner.now.check) (F.post inner.now.check) }
    ensures found { Builds result scope.old scope.new blocks.new (items.view_to (items_to inner.now.room) room e.now (seen scope.old) blocks.old) }
{
    if room == 0 {
        return Err(Fault::NotTyped);
    }
    view_at(inner, room - 1, scope, e, blocks)
}

/// A view expression.
#[tactic(auto, unfolding(type_base::specs::Claims::and_then, view_rules::specs::Items::view_item, view_rules::specs::Items::levels))]
fn view_item<F>(
    inner: &Inner<F>,
    scope: &mut Scope<'_>,
    e: &Expr,
    blocks: &mut Items<Code>,
) -> Result<(CoreItem, Option<Local>), Fault>
where
    F: Fn(Global, u32, &mut Scope<'_>, &[Stmt], &mut Items<Code>) -> Result<Items<CoreItem>, Fault>,
    requires runs { Runs inner.now.room (F.pre inner.now.check) (F.post inner.now.check) }
    ensures found { Builds result scope.old scope.new blocks.new (items.view_item (items_to inner.now.room) e.now (seen scope.old) blocks.old) }
{
    let (call, modifiers) = view_to(inner, LEVELS, scope, e, blocks)?;
    Ok((CoreItem::View(call, modifiers), None))
}

/// The value of a `let`, whose type may be written, and its type.
#[tactic(auto, unfolding(type_base::specs::Claims::and_then, view_rules::specs::Items::let_value))]
fn let_value(
    alloc: Global,
    scope: &Scope<'_>,
    written: &Option<TypeName>,
    e: &Expr,
) -> Result<(Core, Ty), Fault>
    ensures found { Answers result (items.let_value written.now e.now (seen scope.now)) }
{
    match written {
        None => check_value(alloc, scope, None, e),
        Some(name) => match type_of(alloc, scope.table, name)? {
            Some(ty) => {
                let core = check_wanted(alloc, scope, &ty, e)?;
                Ok((core, ty))
            }
            None => Err(Fault::NotTyped),
        },
    }
}

/// `let w = e`
#[tactic(auto, unfolding(type_base::specs::Claims::and_then, view_rules::specs::Items::let_item))]
fn let_item(
    alloc: Global,
    scope: &Scope<'_>,
    w: &Word,
    written: &Option<TypeName>,
    e: &Expr,
) -> Result<(CoreItem, Option<Local>), Fault>
    ensures found { Answers result (items.let_item w.now written.now e.now (seen scope.now)) }
{
    let (core, ty) = let_value(alloc, scope, written, e)?;
    if !is_new(scope, w.as_bytes()) {
        return Err(Fault::NotTyped);
    }
    let local = Local {
        name: w.copy(alloc)?,
        ty,
        kind: LocalKind::Let,
    };
    Ok((CoreItem::Local(core), Some(local)))
}

/// The conditions of an arm and its items. What the conditions bind stays in the scope.
#[tactic(auto, using(crate::specs::Turns::arm_none), unfolding(type_base::specs::Claims::and_then))]
fn guarded<F>(
    inner: &Inner<F>,
    scope: &mut Scope<'_>,
    written: &[Condition],
    statements: &[Stmt],
    blocks: &mut Items<Code>,
) -> Result<ItemArm, Fault>
where
    F: Fn(Global, u32, &mut Scope<'_>, &[Stmt], &mut Items<Code>) -> Result<Items<CoreItem>, Fault>,
    requires runs { Runs inner.now.room (F.pre inner.now.check) (F.post inner.now.check) }
    ensures found { Adds result scope.old scope.new blocks.new (arm_in (items_to inner.now.room) written.now statements.now (seen scope.old) blocks.old) }
{
    let conditions = check_conditions(inner.alloc, scope, written)?;
    let body = content(inner, scope, statements, blocks)?;
    Ok(ItemArm { conditions, body })
}

/// The conditions of an arm and its items, in a scope of their own.
fn enclosed<F>(
    inner: &Inner<F>,
    scope: &mut Scope<'_>,
    written: &[Condition],
    statements: &[Stmt],
    blocks: &mut Items<Code>,
) -> Result<ItemArm, Fault>
where
    F: Fn(Global, u32, &mut Scope<'_>, &[Stmt], &mut Items<Code>) -> Result<Items<CoreItem>, Fault>,
    requires runs { Runs inner.now.room (F.pre inner.now.check) (F.post inner.now.check) }
    ensures found { Builds result scope.old scope.new blocks.new (arm_within (items_to inner.now.room) written.now statements.now (seen scope.old) blocks.old) }
{
    let mark = enter(scope);
    let made = guarded(inner, scope, written, statements, blocks)?;
    leave(scope, mark);
    Ok(made)
}

/// An arm.
#[tactic(auto, unfolding(view_rules::specs::Items::find_arm))]
fn arm<F>(
    inner: &Inner<F>,
    scope: &mut Scope<'_>,
    written: &Arm,
    blocks: &mut Items<Code>,
) -> Result<ItemArm, Fault>
where
    F: Fn(Global, u32, &mut Scope<'_>, &[Stmt], &mut Items<Code>) -> Result<Items<CoreItem>, Fault>,
    requires runs { Runs inner.now.room (F.pre inner.now.check) (F.post inner.now.check) }
    ensures found { Builds result scope.old scope.new blocks.new (items.find_arm (items_to inner.now.room) written.now (seen scope.old) blocks.old) }
{
    enclosed(
        inner,
        scope,
        written.conditions.as_slice(),
        written.body.as_slice(),
        blocks,
    )
}

#[tactic(auto, using(crate::specs::Turns::every_none, crate::specs::Turns::every_end))]
fn arms<F>(
    inner: &Inner<F>,
    scope: &mut Scope<'_>,
    arms: &[Arm],
    blocks: &mut Items<Code>,
) -> Result<Items<ItemArm>, Fault>
where
    F: Fn(Global, u32, &mut Scope<'_>, &[Stmt], &mut Items<Code>) -> Result<Items<CoreItem>, Fault>,
    requires runs { Runs inner.now.room (F.pre inner.now.check) (F.post inner.now.check) }
    ensures found { Builds result scope.old scope.new blocks.new (every_build (items.find_arm (items_to inner.now.room)) arms.now (seen scope.old) blocks.old) }
{
    let mut done = Items::new(inner.alloc);
    for each in arms {
        let made = arm(inner, scope, each, blocks)?;
        done.push(made)?;
    }
    Ok(done)
}

#[tactic(auto, unfolding(type_base::specs::Claims::and_then, view_rules::specs::Items::find_else))]
fn last_else<F>(
    inner: &Inner<F>,
    scope: &mut Scope<'_>,
    last: &Option<Items<Stmt>>,
    blocks: &mut Items<Code>,
) -> Result<Option<Items<CoreItem>>, Fault>
where
    F: Fn(Global, u32, &mut Scope<'_>, &[Stmt], &mut Items<Code>) -> Result<Items<CoreItem>, Fault>,
    requires runs { Runs inner.now.room (F.pre inner.now.check) (F.post inner.now.check) }
    ensures found { Builds result scope.old scope.new blocks.new (items.find_else (items_to inner.now.room) last.now (seen scope.old) blocks.old) }
{
    match last {
        None => Ok(None),
        Some(statements) => Ok(Some(content(inner, scope, statements.as_slice(), blocks)?)),
    }
}

#[tactic(auto, unfolding(type_base::specs::Claims::and_then, view_rules::specs::Items::if_item))]
fn if_item<F>(
    inner: &Inner<F>,
    scope: &mut Scope<'_>,
    written: &[Arm],
    last: &Option<Items<Stmt>>,
    blocks: &mut Items<Code>,
) -> Result<(CoreItem, Option<Local>), Fault>
where
    F: Fn(Global, u32, &mut Scope<'_>, &[Stmt], &mut Items<Code>) -> Result<Items<CoreItem>, Fault>,
    requires runs { Runs inner.now.room (F.pre inner.now.check) (F.post inner.now.check) }
    ensures found { Builds result scope.old scope.new blocks.new (items.if_item (items_to inner.now.room) written.now last.now (seen scope.old) blocks.old) }
{
    let first = arms(inner, scope, written, blocks)?;
    let last = last_else(inner, scope, last, blocks)?;
    Ok((CoreItem::If(first, last), None))
}

#[tactic(auto, using(crate::specs::Turns::every_none, crate::specs::Turns::every_end))]
fn bodies<F>(
    inner: &Inner<F>,
    scope: &mut Scope<'_>,
    cases: &[SwitchCase],
    blocks: &mut Items<Code>,
) -> Result<Items<Items<CoreItem>>, Fault>
where
    F: Fn(Global, u32, &mut Scope<'_>, &[Stmt], &mut Items<Code>) -> Result<Items<CoreItem>, Fault>,
    requires runs { Runs inner.now.room (F.pre inner.now.check) (F.post inner.now.check) }
    ensures found { Builds result scope.old scope.new blocks.new (every_build (items.case_items (items_to inner.now.room)) cases.now (seen scope.old) blocks.old) }
{
    let mut done = Items::new(inner.alloc);
    for case in cases {
        let body = content(inner, scope, case.body.as_slice(), blocks)?;
        done.push(body)?;
    }
    Ok(done)
}

/// Each label with its items.
#[tactic(auto, using(crate::proofs::Pairs::cases_found))]
fn cases_of(
    alloc: Global,
    mut labels: Items<Option<Items<Value>>>,
    mut bodies: Items<Items<CoreItem>>,
) -> Result<Items<ItemCase>, Fault>
    ensures found { Answers result (items.cases_of labels bodies) }
{
    if labels.len() != bodies.len() {
        return Err(Fault::NotTyped);
    }
    let mut done = Items::new(alloc);
    for at in 0..labels.len() {
        let patterns = labels.replace(at, None);
        let none = Items::new(alloc);
        let body = bodies.replace(at, none);
        done.push(ItemCase { patterns, body })?;
    }
    Ok(done)
}

#[tactic(auto, unfolding(type_base::specs::Claims::and_then, view_rules::specs::Items::switch_item))]
fn switch_item<F>(
    inner: &Inner<F>,
    scope: &mut Scope<'_>,
    e: &Expr,
    cases: &[SwitchCase],
    blocks: &mut Items<Code>,
) -> Result<(CoreItem, Option<Local>), Fault>
where
    F: Fn(Global, u32, &mut Scope<'_>, &[Stmt], &mut Items<Code>) -> Result<Items<CoreItem>, Fault>,
    requires runs { Runs inner.now.room (F.pre inner.now.check) (F.post inner.now.check) }
    ensures found { Builds result scope.old scope.new blocks.new (items.switch_item (items_to inner.now.room) e.now cases.now (seen scope.old) blocks.old) }
{
    let (core, labels) = check_subject(inner.alloc, scope, e, cases)?;
    let found = bodies(inner, scope, cases, blocks)?;
    let made = cases_of(inner.alloc, labels, found)?;
    Ok((CoreItem::Switch(core, made), None))
}

/// An item, and the local that it adds.
#[tactic(auto, unfolding(type_base::specs::Claims::and_then, view_rules::specs::Items::find_item))]
fn item<F>(
    inner: &Inner<F>,
    scope: &mut Scope<'_>,
    statement: &Stmt,
    blocks: &mut Items<Code>,
) -> Result<(CoreItem, Option<Local>), Fault>
where
    F: Fn(Global, u32, &mut Scope<'_>, &[Stmt], &mut Items<Code>) -> Result<Items<CoreItem>, Fault>,
    requires runs { Runs inner.now.room (F.pre inner.now.check) (F.post inner.now.check) }
    ensures found { Builds result scope.old scope.new blocks.new (items.find_item (items_to inner.now.room) (items.item_form statement.now) (seen scope.old) blocks.old) }
{
    match &statement.form {
        StmtForm::Local(binder, w, written, e) => match binder {
            Binder::Let => Ok(let_item(inner.alloc, scope, w, written, e)?),
            Binder::Var => Err(Fault::NotTyped),
        },
        StmtForm::If(arms, last) => if_item(inner, scope, arms.as_slice(), last, blocks),
        StmtForm::Switch(e, cases) => switch_item(inner, scope, e, cases.as_slice(), blocks),
        StmtForm::Expr(e) => view_item(inner, scope, e, blocks),
        _ => Err(Fault::NotTyped),
    }
}

/// Adds the local of an item to the scope, and gives the item.
fn placed(scope: &mut Scope<'_>, made: (CoreItem, Option<Local>)) -> Result<CoreItem, AllocError>
    ensures item { IfOk result (λ c. c ≡ made.0) }
    ensures scope { OnOk result (scope.new ≡ any_pushed scope.old made.1) }
{
    let (core, declared) = made;
    match declared {
        Some(local) => match push_local(scope, local) {
            Ok(()) => Ok(core),
            Err(fault) => {
                drop(core);
                Err(fault)
            }
        },
        None => Ok(core),
    }
}

/// Items in order, each in the scope of those before it. Their locals stay in the scope.
#[tactic(auto, using(crate::specs::Turns::list_none, crate::specs::Turns::list_end))]
fn list<F>(
    inner: &Inner<F>,
    scope: &mut Scope<'_>,
    statements: &[Stmt],
    blocks: &mut Items<Code>,
) -> Result<Items<CoreItem>, Fault>
where
    F: Fn(Global, u32, &mut Scope<'_>, &[Stmt], &mut Items<Code>) -> Result<Items<CoreItem>, Fault>,
    requires runs { Runs inner.now.room (F.pre inner.now.check) (F.post inner.now.check) }
    ensures found { Adds result scope.old scope.new blocks.new (items.find_list (items_to inner.now.room) statements.now (seen scope.old) blocks.old) }
{
    let mut done = Items::new(inner.alloc);
    for statement in statements {
        let made = item(inner, scope, statement, blocks)?;
        let core = placed(scope, made)?;
        done.push(core)?;
    }
    Ok(done)
}

/// The items of a builder in braces, which are a scope.
#[tactic(auto, using(type_base::specs::Scopes::left_is))]
fn block<F>(
    inner: &Inner<F>,
    scope: &mut Scope<'_>,
    statements: &[Stmt],
    blocks: &mut Items<Code>,
) -> Result<Items<CoreItem>, Fault>
where
    F: Fn(Global, u32, &mut Scope<'_>, &[Stmt], &mut Items<Code>) -> Result<Items<CoreItem>, Fault>,
    requires runs { Runs inner.now.room (F.pre inner.now.check) (F.post inner.now.check) }
    ensures found { Builds result scope.old scope.new blocks.new (items.find_list (items_to inner.now.room) statements.now (entered (seen scope.old)) blocks.old) }
{
    let mark = enter(scope);
    let items = list(inner, scope, statements, blocks)?;
    leave(scope, mark);
    Ok(items)
}

#[tactic(auto, using(view_rules::specs::Items::items_empty, view_rules::specs::Items::items_level))]
fn items_to(
    alloc: Global,
    room: u32,
    scope: &mut Scope<'_>,
    statements: &[Stmt],
    blocks: &mut Items<Code>,
) -> Result<Items<CoreItem>, Fault>
    ensures found { Builds result scope.old scope.new blocks.new (items_to room statements.now (seen scope.old) blocks.old) }
{
    if room == 0 {
        return Err(Fault::NotTyped);
    }
    let inner = Inner {
        alloc,
        room: room - 1,
        check: items_to,
    };
    block(&inner, scope, statements, blocks)
}

/// The items of a builder.
#[tactic(auto, unfolding(view_rules::specs::Items::find_built, view_rules::specs::Items::levels))]
pub fn built(
    alloc: Global,
    scope: &mut Scope<'_>,
    statements: &[Stmt],
    blocks: &mut Items<Code>,
) -> Result<Items<CoreItem>, Fault>
    ensures found { Builds result scope.old scope.new blocks.new (items.find_built statements.now (seen scope.old) blocks.old) }
{
    items_to(alloc, LEVELS, scope, statements, blocks)
}
