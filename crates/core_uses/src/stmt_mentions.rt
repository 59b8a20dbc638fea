ghost use Rattle.std.specs.Prelude.{◌≡◌, ◌++◌, map, OnOk};
ghost use Rattle.std.specs.List.{flat_map};
ghost use Rattle.std.specs.Option.{option_copied};
ghost use Rattle.core_uses.specs.Parts.{arm_mentions, case_mentions};
ghost use Rattle.swift_core.specs.Mentions.{stmt_mentions, condition_mentions, over_mentions, optional_core_mentions, joined};

use crate::core_mentions::{of_change, of_core, of_invocation, of_target, of_write};
use std::alloc::AllocError;
use sv_items::Items;
use swift_core::{Condition, Core, CoreStmt, Mention, Over, StmtArm, StmtCase};

/// Adds what each statement mentions.
#[cycle(statements)]
pub fn of_statements(statements: &[CoreStmt], out: &mut Items<Mention>) -> Result<(), AllocError>
    ensures ok { OnOk result (out.new ≡ out.old ++ joined (map stmt_mentions statements.now)) }
{
    for statement in statements {
        of_statement(statement, out)?;
    }
    Ok(())
}

/// Adds what the statement mentions.
#[cycle(statements)]
fn of_statement(statement: &CoreStmt, out: &mut Items<Mention>) -> Result<(), AllocError>
    ensures ok { OnOk result (out.new ≡ out.old ++ stmt_mentions statement.now) }
{
    match statement {
        CoreStmt::Local(term) => of_core(term, out),
        CoreStmt::Assign(target, term) => {
            of_target(target, out)?;
            of_core(term, out)?;
            of_write(&target.root, out)
        }
        CoreStmt::Update(_, target, term) => {
            of_target(target, out)?;
            of_core(term, out)?;
            of_write(&target.root, out)
        }
        CoreStmt::If(arms, last) => {
            of_arms(arms.as_slice(), out)?;
            match last {
                None => Ok(()),
                Some(body) => of_statements(body.as_slice(), out),
            }
        }
        CoreStmt::Switch(term, cases) => {
            of_core(term, out)?;
            of_cases(cases.as_slice(), out)
        }
        CoreStmt::For(over, body) => {
            of_over(over, out)?;
            of_statements(body.as_slice(), out)
        }
        CoreStmt::While(conditions, body) => {
            of_conditions(conditions.as_slice(), out)?;
            of_statements(body.as_slice(), out)
        }
        CoreStmt::Return(term) => of_optional(term.as_ref(), out),
        CoreStmt::Break => Ok(()),
        CoreStmt::Continue => Ok(()),
        CoreStmt::Invoke(invocation) => of_invocation(invocation, out),
        CoreStmt::Change(change) => of_change(change, out),
    }
}

/// Adds what the arms of an `if` mention.
#[cycle(statements)]
fn of_arms(arms: &[StmtArm], out: &mut Items<Mention>) -> Result<(), AllocError>
    ensures ok { OnOk result (out.new ≡ out.old ++ joined (map arm_mentions arms.now)) }
{
    for arm in arms {
        of_conditions(arm.conditions.as_slice(), out)?;
        of_statements(arm.body.as_slice(), out)?;
    }
    Ok(())
}

/// Adds what the cases of a `switch` mention.
#[cycle(statements)]
fn of_cases(cases: &[StmtCase], out: &mut Items<Mention>) -> Result<(), AllocError>
    ensures ok { OnOk result (out.new ≡ out.old ++ joined (map case_mentions cases.now)) }
{
    for case in cases {
        of_statements(case.body.as_slice(), out)?;
    }
    Ok(())
}

/// Adds what the conditions mention.
pub fn of_conditions(conditions: &[Condition], out: &mut Items<Mention>) -> Result<(), AllocError>
    ensures ok { OnOk result (out.new ≡ out.old ++ flat_map condition_mentions conditions.now) }
{
    for condition in conditions {
        match condition {
            Condition::Test(term) => of_core(term, out)?,
            Condition::Bind(term) => of_core(term, out)?,
        }
    }
    Ok(())
}

/// Adds what a range or a list mentions.
pub fn of_over(over: &Over, out: &mut Items<Mention>) -> Result<(), AllocError>
    ensures ok { OnOk result (out.new ≡ out.old ++ over_mentions over.now) }
{
    match over {
        Over::UpTo(first, last) => {
            of_core(first, out)?;
            of_core(last, out)
        }
        Over::Through(first, last) => {
            of_core(first, out)?;
            of_core(last, out)
        }
        Over::Indices(term) => of_core(term, out),
        Over::List(term) => of_core(term, out),
    }
}

/// Adds what the term mentions, where there is one.
pub fn of_optional(term: Option<&Core>, out: &mut Items<Mention>) -> Result<(), AllocError>
    ensures ok { OnOk result (out.new ≡ out.old ++ optional_core_mentions (option_copied term.entry)) }
{
    match term {
        None => Ok(()),
        Some(term) => of_core(term, out),
    }
}
