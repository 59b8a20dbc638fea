ghost use Rattle.std.specs.Prelude.{◌≡◌, ◌&&◌, ◌||◌, IfOk};
ghost use Rattle.swift_core.specs.declared.ty.Ty.{out-Ty};
ghost use Rattle.sv_value.specs.declared.value.Value.{out-Value};
ghost use Rattle.std.specs.List.{list_all};
ghost use Rattle.type_base.specs.Context.{seen};
ghost use Rattle.type_base.specs.Rules.{Answers};
ghost use Rattle.case_rules.specs.Cases.{subject_at, belongs, all_patterns, default_last, has_default, label_at, find_case, find_labels};

use crate::patterns::patterns;
use case_rules::Subject;
use std::alloc::{AllocError, Global};
use sv_items::Items;
use sv_value::Value;
use swift_ast::{SwitchCase, SwitchLabel};
use swift_core::{Kind, Table, Ty};
use type_base::{Fault, Scope};

/// The values of the patterns of a case, or None for `default`.
pub type Label = Option<Items<Value>>;

/// What a `switch` over a value of this type is over.
#[tactic(auto, unfolding(type_base::specs::Claims::and_then))]
pub fn subject(table: &Table, ty: &Ty) -> Option<Subject>
    ensures value { result ≡ subject_at table.now (out-Ty ty.now) }
{
    match ty {
        Ty::Int => Some(Subject::Numbers),
        Ty::Bool => Some(Subject::Truths),
        Ty::Text => Some(Subject::Texts),
        Ty::Named(number) => match table.declarations.get(*number as usize) {
            Some(declaration) => match declaration.kind {
                Kind::Enum(_, cases) => Some(Subject::Cases(*number, cases)),
                _ => None,
            },
            None => None,
        },
        _ => None,
    }
}

/// The label of a case.
#[tactic(auto, unfolding(type_base::specs::Claims::and_then))]
fn label(alloc: Global, scope: &Scope<'_>, ty: &Ty, label: &SwitchLabel) -> Result<Label, Fault>
    ensures found { Answers result (label_at ty.now label.now (seen scope.now)) }
{
    match label {
        SwitchLabel::Case(list) => {
            let values = patterns(alloc, scope, ty, list.as_slice())?;
            Ok(Some(values))
        }
        SwitchLabel::Default => Ok(None),
    }
}

/// The label of a case, which has a statement.
#[tactic(auto, unfolding(case_rules::specs::Cases::find_case), using(crate::proofs::Turns::some_empty, crate::proofs::Turns::some_full))]
fn case(alloc: Global, scope: &Scope<'_>, ty: &Ty, case: &SwitchCase) -> Result<Label, Fault>
    ensures found { Answers result (find_case ty.now case.now (seen scope.now)) }
{
    if case.body.is_empty() {
        return Err(Fault::NotTyped);
    }
    label(alloc, scope, ty, &case.label)
}

/// The labels of some cases.
#[tactic(auto, using(crate::proofs::Turns::labels_turn, crate::proofs::Turns::labels_none, crate::proofs::Turns::labels_end, crate::proofs::Turns::labels_start))]
pub fn labels(
    alloc: Global,
    scope: &Scope<'_>,
    ty: &Ty,
    cases: &[SwitchCase],
) -> Result<Items<Label>, Fault>
    ensures found { Answers result (find_labels ty.now cases.now (seen scope.now)) }
{
    let mut list = Items::new(alloc);
    for each in cases {
        let label = case(alloc, scope, ty, each)?;
        list.push(label)?;
    }
    Ok(list)
}

/// Whether the value is of the subject's type.
fn belongs(subject: Subject, value: &Value) -> bool
    ensures value { result ≡ belongs subject (out-Value value.now) }
{
    match subject {
        Subject::Numbers => match value {
            Value::Int(_) => true,
            _ => false,
        },
        Subject::Truths => match value {
            Value::Bool(_) => true,
            _ => false,
        },
        Subject::Texts => match value {
            Value::Str(_) => true,
            _ => false,
        },
        Subject::Cases(declaration, _) => match value {
            Value::Case { kind, .. } => *kind == declaration,
            _ => false,
        },
    }
}

/// Whether all values are of the subject's type.
pub fn all_belong(subject: Subject, values: &[Value]) -> bool
    ensures value { result ≡ list_all (λ v. belongs subject (out-Value v)) values.now }
{
    values.iter().all(|value| belongs(subject, value))
}
