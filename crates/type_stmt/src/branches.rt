//! `if` and `switch`.
ghost use Rattle.std.specs.Prelude.{◌≡◌, List, map, IfOk, OnOk, option_copied};
ghost use Rattle.std.specs.List.{zip};
ghost use Rattle.case_rules.specs.Cases.{Label};
ghost use Rattle.swift_core.specs.declared.stmt.CoreStmt.{CoreStmt as ACoreStmt};
ghost use Rattle.type_base.specs.Context.{seen};
ghost use Rattle.stmt_rules.specs.Finds.{Finds, FindsAdding, Runs};
ghost use Rattle.stmt_rules.specs.Rules.{stmt_case, stmt_cases, in_switch};
ghost use Rattle.stmt_rules.specs.Search.{find_stmt_to, guarded, find_arms, if_of, if_else, if_at, find_bodies, switch_of};
ghost use Rattle.type_stmt.specs.Parts.{more_arms, one_arm, more_bodies, one_of, guarded_in};

use crate::blocks::{both, braces, either};
use crate::within::Within;
use std::alloc::{AllocError, Global};
use stmt_rules::{Arms, Bodies, Body, Done, Exits};
use sv_items::Items;
use sv_value::Value;
use swift_ast::{Arm, Condition, Expr, Stmt, SwitchCase};
use swift_core::{CoreStmt, StmtArm, StmtCase, Ty};
use type_base::{Fault, Scope, enter, leave};
use type_cases::{check_conditions, check_subject};

/// Conditions and the statements that run where they hold, in the scope of the conditions.
#[tactic(auto, unfolding(type_base::specs::Claims::and_then), using(crate::proofs::Turns::guarded_none))]
fn under_conditions<G>(
    within: &Within<'_, G>,
    scope: &mut Scope<'_>,
    exits: Exits,
    conditions: &[Condition],
    list: &[Stmt],
) -> Result<(Items<swift_core::Condition>, Body), Fault>
where
    G: Fn(Global, u32, &mut Scope<'_>, Option<&Ty>, Exits, &Stmt) -> Result<Done, Fault>,
    requires { Runs within.now.room (G.pre within.now.run) (G.post within.now.run) }
    ensures found { FindsAdding result scope.old scope.new (guarded_in (λ s. find_stmt_to within.now.room s (option_copied within.now.result) exits) conditions.now list.now (seen scope.old)) }
{
    let checked = check_conditions(within.alloc, scope, conditions)?;
    let body = braces(within, scope, exits, list)?;
    Ok((checked, body))
}

/// Conditions and the statements that run where they hold.
#[tactic(auto, unfolding(stmt_rules::specs::Search::guarded), using(type_base::specs::Scopes::left_is))]
pub fn guarded<G>(
    within: &Within<'_, G>,
    scope: &mut Scope<'_>,
    exits: Exits,
    conditions: &[Condition],
    list: &[Stmt],
) -> Result<(Items<swift_core::Condition>, Body), Fault>
where
    G: Fn(Global, u32, &mut Scope<'_>, Option<&Ty>, Exits, &Stmt) -> Result<Done, Fault>,
    requires { Runs within.now.room (G.pre within.now.run) (G.post within.now.run) }
    ensures found { Finds result scope.old scope.new (guarded (λ s. find_stmt_to within.now.room s (option_copied within.now.result) exits) conditions.now list.now (seen scope.old)) }
{
    let mark = enter(scope);
    let found = under_conditions(within, scope, exits, conditions, list)?;
    leave(scope, mark);
    Ok(found)
}

/// Adds an arm to those before it.
fn add_arm(
    arms: &mut Arms,
    conditions: Items<swift_core::Condition>,
    body: Body,
) -> Result<(), AllocError>
    ensures added { OnOk result (arms.new ≡ more_arms arms.old (one_arm (conditions, body))) }
{
    let Body { core, ends, breaks } = body;
    arms.ends = both(arms.ends, ends);
    arms.breaks = either(arms.breaks, breaks);
    arms.arms.push(StmtArm {
        conditions,
        body: core,
    })
}

/// The arms of an `if`.
#[tactic(auto, using(crate::proofs::Turns::arms_turn, crate::proofs::Turns::arms_none, crate::proofs::Turns::arms_end, crate::proofs::Turns::arms_start))]
fn arms<G>(
    within: &Within<'_, G>,
    scope: &mut Scope<'_>,
    exits: Exits,
    list: &[Arm],
) -> Result<Arms, Fault>
where
    G: Fn(Global, u32, &mut Scope<'_>, Option<&Ty>, Exits, &Stmt) -> Result<Done, Fault>,
    requires { Runs within.now.room (G.pre within.now.run) (G.post within.now.run) }
    ensures found { Finds result scope.old scope.new (find_arms (λ s. find_stmt_to within.now.room s (option_copied within.now.result) exits) list.now (seen scope.old)) }
{
    let first = Items::new(within.alloc);
    let mut arms = Arms {
        arms: first,
        ends: true,
        breaks: false,
    };
    for arm in list {
        let (conditions, body) = guarded(
            within,
            scope,
            exits,
            arm.conditions.as_slice(),
            arm.body.as_slice(),
        )?;
        add_arm(&mut arms, conditions, body)?;
    }
    Ok(arms)
}

/// `if` without a last `else`.
#[tactic(auto, unfolding(stmt_rules::specs::Search::if_of, type_base::specs::Claims::and_then))]
fn if_of<G>(
    within: &Within<'_, G>,
    scope: &mut Scope<'_>,
    exits: Exits,
    list: &[Arm],
) -> Result<Done, Fault>
where
    G: Fn(Global, u32, &mut Scope<'_>, Option<&Ty>, Exits, &Stmt) -> Result<Done, Fault>,
    requires { Runs within.now.room (G.pre within.now.run) (G.post within.now.run) }
    ensures found { Finds result scope.old scope.new (if_of (λ s. find_stmt_to within.now.room s (option_copied within.now.result) exits) list.now (seen scope.old)) }
{
    let arms = arms(within, scope, exits, list)?;
    Ok(Done {
        core: CoreStmt::If(arms.arms, None),
        declared: None,
        ends: false,
        breaks: arms.breaks,
    })
}

/// `if` with a last `else`.
#[tactic(auto, unfolding(stmt_rules::specs::Search::if_else, type_base::specs::Claims::and_then))]
fn if_else<G>(
    within: &Within<'_, G>,
    scope: &mut Scope<'_>,
    exits: Exits,
    list: &[Arm],
    last: &[Stmt],
) -> Result<Done, Fault>
where
    G: Fn(Global, u32, &mut Scope<'_>, Option<&Ty>, Exits, &Stmt) -> Result<Done, Fault>,
    requires { Runs within.now.room (G.pre within.now.run) (G.post within.now.run) }
    ensures found { Finds result scope.old scope.new (if_else (λ s. find_stmt_to within.now.room s (option_copied within.now.result) exits) list.now last.now (seen scope.old)) }
{
    let arms = arms(within, scope, exits, list)?;
    let body = braces(within, scope, exits, last)?;
    Ok(Done {
        core: CoreStmt::If(arms.arms, Some(body.core)),
        declared: None,
        ends: both(arms.ends, body.ends),
        breaks: either(arms.breaks, body.breaks),
    })
}

/// `if`
pub fn if_chain<G>(
    within: &Within<'_, G>,
    scope: &mut Scope<'_>,
    exits: Exits,
    list: &[Arm],
    last: &Option<Items<Stmt>>,
) -> Result<Done, Fault>
where
    G: Fn(Global, u32, &mut Scope<'_>, Option<&Ty>, Exits, &Stmt) -> Result<Done, Fault>,
    requires { Runs within.now.room (G.pre within.now.run) (G.post within.now.run) }
    ensures found { Finds result scope.old scope.new (if_at (λ s. find_stmt_to within.now.room s (option_copied within.now.result) exits) list.now last.now (seen scope.old)) }
{
    match last {
        Some(last) => if_else(within, scope, exits, list, last.as_slice()),
        None => if_of(within, scope, exits, list),
    }
}

/// Adds the statements of a case to those before it.
fn add_body(bodies: &mut Bodies, body: Body) -> Result<(), AllocError>
    ensures added { OnOk result (bodies.new ≡ more_bodies bodies.old (one_of body)) }
{
    let Body { core, ends, breaks } = body;
    bodies.ends = both(bodies.ends, ends);
    bodies.breaks = either(bodies.breaks, breaks);
    bodies.bodies.push(core)
}

/// The statements of each case.
#[tactic(auto, using(crate::proofs::Turns::bodies_turn, crate::proofs::Turns::bodies_none, crate::proofs::Turns::bodies_end, crate::proofs::Turns::bodies_start))]
fn bodies<G>(
    within: &Within<'_, G>,
    scope: &mut Scope<'_>,
    exits: Exits,
    cases: &[SwitchCase],
) -> Result<Bodies, Fault>
where
    G: Fn(Global, u32, &mut Scope<'_>, Option<&Ty>, Exits, &Stmt) -> Result<Done, Fault>,
    requires { Runs within.now.room (G.pre within.now.run) (G.post within.now.run) }
    ensures found { Finds result scope.old scope.new (find_bodies (λ s. find_stmt_to within.now.room s (option_copied within.now.result) exits) cases.now (seen scope.old)) }
{
    let first = Items::new(within.alloc);
    let mut bodies = Bodies {
        bodies: first,
        ends: true,
        breaks: false,
    };
    for case in cases {
        let body = braces(within, scope, exits, case.body.as_slice())?;
        add_body(&mut bodies, body)?;
    }
    Ok(bodies)
}

/// Each label with its statements.
fn paired(
    alloc: Global,
    labels: Vec<Option<Items<Value>>>,
    bodies: Vec<Items<CoreStmt>>,
) -> Result<Vec<StmtCase>, AllocError>
    ensures value { IfOk result (λ cases. cases.items ≡ map (λ (p : Label × List ACoreStmt). stmt_case p.0 p.1) (zip labels.items bodies.items)) }
{
    labels
        .into_iter()
        .zip(bodies)
        .map(|(patterns, body)| StmtCase { patterns, body })
        .collect(alloc)
}

/// The cases, of their labels and their statements.
#[tactic(auto, using(crate::proofs::Turns::zipped))]
fn cases_of(
    alloc: Global,
    labels: Items<Option<Items<Value>>>,
    bodies: Items<Items<CoreStmt>>,
) -> Result<Items<StmtCase>, AllocError>
    ensures value { IfOk result (λ cases. cases ≡ stmt_cases labels bodies) }
{
    let cases = paired(alloc, labels.into_vec(), bodies.into_vec())?;
    Ok(Items::from_vec(cases))
}

/// What may stand within a `switch`: a `break` leaves it.
pub fn in_switch(exits: Exits) -> Exits
    ensures value { result ≡ in_switch exits }
{
    match exits {
        Exits::Neither => Exits::Break,
        Exits::Break => Exits::Break,
        Exits::Both => Exits::Both,
    }
}

/// `switch`, within whose cases these exits may stand.
#[tactic(auto, unfolding(stmt_rules::specs::Search::switch_of, type_base::specs::Claims::and_then))]
pub fn switch_of<G>(
    within: &Within<'_, G>,
    scope: &mut Scope<'_>,
    exits: Exits,
    subject: &Expr,
    cases: &[SwitchCase],
) -> Result<Done, Fault>
where
    G: Fn(Global, u32, &mut Scope<'_>, Option<&Ty>, Exits, &Stmt) -> Result<Done, Fault>,
    requires { Runs within.now.room (G.pre within.now.run) (G.post within.now.run) }
    ensures found { Finds result scope.old scope.new (switch_of (λ s. find_stmt_to within.now.room s (option_copied within.now.result) exits) subject.now cases.now (seen scope.old)) }
{
    let (core, labels) = check_subject(within.alloc, scope, subject, cases)?;
    let bodies = bodies(within, scope, exits, cases)?;
    let ends = both(bodies.ends, !bodies.breaks);
    let cases = cases_of(within.alloc, labels, bodies.bodies)?;
    Ok(Done {
        core: CoreStmt::Switch(core, cases),
        declared: None,
        ends,
        breaks: false,
    })
}
