ghost use Rattle.type_base.specs.Context.{seen};
ghost use Rattle.type_base.specs.Rules.{Answers, Decides};
ghost use Rattle.case_rules.specs.Cases.{find_subject, SubjectRule};

use crate::complete::are_cases;
use crate::labels::{Label, labels, subject};
use std::alloc::Global;
use sv_items::Items;
use sv_value::Value;
use swift_ast::{Expr, SwitchCase};
use swift_core::Core;
use type_base::{Fault, Scope};
use type_expr::check_value;

/// What a `switch` is over, and the labels of its cases.
#[tactic(auto, unfolding(case_rules::specs::Cases::find_subject, type_base::specs::Claims::and_then))]
fn head(
    alloc: Global,
    scope: &Scope<'_>,
    expr: &Expr,
    cases: &[SwitchCase],
) -> Result<(Core, Items<Label>), Fault>
    ensures found { Answers result (find_subject expr.now cases.now (seen scope.now)) }
{
    let (core, ty) = check_value(alloc, scope, None, expr)?;
    match subject(scope.table, &ty) {
        Some(subject) => {
            let list = labels(alloc, scope, &ty, cases)?;
            if are_cases(alloc, subject, list.as_slice())? {
                Ok((core, list))
            } else {
                Err(Fault::NotTyped)
            }
        }
        None => Err(Fault::NotTyped),
    }
}

/// The head of a `switch` with these cases: the core of what it is over, and for each case the values of its patterns,
/// or None for `default`. Each case has a statement, no pattern stands twice, and every case is named or a `default` is
/// the last.
pub fn check_subject(
    alloc: Global,
    scope: &Scope<'_>,
    subject: &Expr,
    cases: &[SwitchCase],
) -> Result<(Core, Items<Option<Items<Value>>>), Fault>
    ensures found { Answers result (find_subject subject.now cases.now (seen scope.now)) }
    ensures typed { Decides result (SubjectRule subject.now cases.now (seen scope.now)) }
{
    head(alloc, scope, subject, cases)
}
