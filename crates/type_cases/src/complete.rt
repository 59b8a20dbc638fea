//! Whether the labels of a `switch` are those of a subject.
ghost use Rattle.std.specs.Prelude.{◌≡◌, ◌||◌, true, IfOk};
ghost use Rattle.std.specs.List.{list_all};
ghost use Rattle.sv_value.specs.declared.value.Value.{out-Value};
ghost use Rattle.case_rules.specs.Cases.{all_patterns, default_last, has_default, belongs, all_named, are_cases};

use crate::apart::{apart, named};
use crate::labels::{Label, all_belong};
use case_rules::Subject;
use std::alloc::{AllocError, Global};
use sv_items::Items;
use sv_value::{Value, copy_of_all};

/// The values of all patterns, in order.
#[tactic(auto, using(crate::proofs::PatternLaws::patterns_more))]
fn all_patterns(alloc: Global, labels: &[Label]) -> Result<Items<Value>, AllocError>
    ensures value { IfOk result (λ vs. vs ≡ all_patterns labels.now) }
{
    let mut values = Items::new(alloc);
    let mut left = labels;
    while let Some((label, rest)) = left.split_first() {
        if let Some(list) = label {
            values.append(copy_of_all(list)?)?;
        }
        left = rest;
    }
    Ok(values)
}

/// Whether nothing stands behind a `default`.
fn default_last(labels: &[Label]) -> bool
    ensures value { result ≡ default_last labels.now }
{
    let mut left = labels;
    while let Some((label, rest)) = left.split_first() {
        if label.is_none() {
            return rest.is_empty();
        }
        left = rest;
    }
    true
}

/// Whether there is a `default`.
fn has_default(labels: &[Label]) -> bool
    ensures value { result ≡ has_default labels.now }
{
    let mut left = labels;
    while let Some((label, rest)) = left.split_first() {
        if label.is_none() {
            return true;
        }
        left = rest;
    }
    false
}

/// Whether there is a `default`, or each value of the subject's type is named.
fn complete(
    alloc: Global,
    subject: Subject,
    labels: &[Label],
    values: &[Value],
) -> Result<bool, AllocError>
    ensures value { IfOk result (λ b. list_all (λ v. belongs subject (out-Value v)) values.now ≡ true → b ≡ (has_default labels.now || all_named subject values.now)) }
{
    if has_default(labels) {
        return Ok(true);
    }
    named(alloc, subject, values)
}

/// Whether these are the labels of a `switch` over the subject.
#[tactic(auto, using(crate::proofs::PatternLaws::cases_foreign, crate::proofs::PatternLaws::cases_twice, crate::proofs::PatternLaws::cases_behind, crate::proofs::PatternLaws::cases_complete))]
pub fn are_cases(alloc: Global, subject: Subject, labels: &[Label]) -> Result<bool, AllocError>
    ensures value { IfOk result (λ b. b ≡ are_cases subject labels.now) }
{
    let values = all_patterns(alloc, labels)?;
    if !all_belong(subject, values.as_slice()) {
        return Ok(false);
    }
    if !apart(alloc, subject, values.as_slice())? {
        return Ok(false);
    }
    if !default_last(labels) {
        return Ok(false);
    }
    complete(alloc, subject, labels, values.as_slice())
}
