//! Whether no value stands twice, and whether all values of a type are there: by ordered sets of their keys.
ghost use Rattle.std.specs.Prelude.{◌≡◌, ◌&&◌, length, true, false, nat_eq, IfOk};
ghost use Rattle.std.specs.BTreeSet.{IsFromIterResult, contains};
ghost use Rattle.std.specs.List.{list_all};
ghost use Rattle.std.specs.Ordering.{eq_by_cmp, bool_cmp, nat_cmp};
ghost use Rattle.std.specs.Set.{distinct_count};
ghost use Rattle.sv_value.specs.declared.value.Value.{out-Value};
ghost use Rattle.case_rules.specs.declared.subject.Subject.TheVariants as of;
ghost use Rattle.case_rules.specs.Cases.{belongs, all_apart, all_named};
ghost use Rattle.type_cases.specs.Keys.{all_below};

use crate::keys::{numbers, places, texts, truths};
use case_rules::Subject;
use std::alloc::{AllocError, Global};
use std::collections::BTreeSet;
use sv_value::Value;

/// The set of these keys.
fn set_of<K: Ord + Drop>(alloc: Global, keys: Vec<K>) -> Result<BTreeSet<K>, AllocError>
    ensures value { IfOk result (IsFromIterResult K.cmp keys.items) }
{
    keys.into_iter().collect(alloc)
}

/// Whether no key stands twice.
fn distinct<K: Ord + Drop>(alloc: Global, keys: Vec<K>) -> Result<bool, AllocError>
    ensures value { IfOk result (λ b. b ≡ nat_eq (distinct_count (eq_by_cmp K.cmp) keys.items) (length keys.items)) }
{
    let count = keys.len();
    let set = set_of(alloc, keys)?;
    Ok(set.len() == count)
}

/// Whether no number stands twice among values that are numbers.
fn numbers_apart(alloc: Global, values: &[Value]) -> Result<bool, AllocError>
    ensures value { IfOk result (λ b. list_all (λ v. belongs of.Numbers (out-Value v)) values.now ≡ true → b ≡ all_apart values.now) }
{
    let keys = numbers(alloc, values)?;
    distinct(alloc, keys)
}

/// Whether no truth stands twice among values that are truths.
fn truths_apart(alloc: Global, values: &[Value]) -> Result<bool, AllocError>
    ensures value { IfOk result (λ b. list_all (λ v. belongs of.Truths (out-Value v)) values.now ≡ true → b ≡ all_apart values.now) }
{
    let keys = truths(alloc, values)?;
    distinct(alloc, keys)
}

/// Whether no text stands twice among values that are texts.
fn texts_apart(alloc: Global, values: &[Value]) -> Result<bool, AllocError>
    ensures value { IfOk result (λ b. list_all (λ v. belongs of.Texts (out-Value v)) values.now ≡ true → b ≡ all_apart values.now) }
{
    let keys = texts(alloc, values)?;
    distinct(alloc, keys)
}

/// Whether no case stands twice among values that are cases of this enum.
fn cases_apart(
    alloc: Global,
    declaration: u32,
    cases: u32,
    values: &[Value],
) -> Result<bool, AllocError>
    ensures value { IfOk result (λ b. list_all (λ v. belongs (of.Cases declaration cases) (out-Value v)) values.now ≡ true → b ≡ all_apart values.now) }
{
    let keys = places(alloc, values)?;
    distinct(alloc, keys)
}

/// Whether no value stands twice among values of the subject's type.
pub fn apart(alloc: Global, subject: Subject, values: &[Value]) -> Result<bool, AllocError>
    ensures value { IfOk result (λ b. list_all (λ v. belongs subject (out-Value v)) values.now ≡ true → b ≡ all_apart values.now) }
{
    match subject {
        Subject::Numbers => numbers_apart(alloc, values),
        Subject::Truths => truths_apart(alloc, values),
        Subject::Texts => texts_apart(alloc, values),
        Subject::Cases(declaration, cases) => cases_apart(alloc, declaration, cases, values),
    }
}

/// Whether both truths are in the set.
fn has_both(set: &BTreeSet<bool>) -> bool
    ensures value { result ≡ (contains bool_cmp set.now true && contains bool_cmp set.now false) }
{
    set.contains(&true) && set.contains(&false)
}

/// Whether both truths are among values that are truths.
fn truths_named(alloc: Global, values: &[Value]) -> Result<bool, AllocError>
    ensures value { IfOk result (λ b. list_all (λ v. belongs of.Truths (out-Value v)) values.now ≡ true → b ≡ all_named of.Truths values.now) }
{
    let keys = truths(alloc, values)?;
    let set = set_of(alloc, keys)?;
    Ok(has_both(&set))
}

/// Whether each number below `count` is in the set.
#[tactic(auto, using(crate::proofs::KeyLaws::below_more))]
fn has_all_below(set: &BTreeSet<u32>, count: u32) -> bool
    ensures value { result ≡ all_below (λ p. contains nat_cmp set.now p) count }
{
    for place in 0..count {
        if !set.contains(&place) {
            return false;
        }
    }
    true
}

/// Whether each case of the enum is among values that are cases of it.
fn cases_named(
    alloc: Global,
    declaration: u32,
    cases: u32,
    values: &[Value],
) -> Result<bool, AllocError>
    ensures value { IfOk result (λ b. list_all (λ v. belongs (of.Cases declaration cases) (out-Value v)) values.now ≡ true → b ≡ all_named (of.Cases declaration cases) values.now) }
{
    let keys = places(alloc, values)?;
    let set = set_of(alloc, keys)?;
    Ok(has_all_below(&set, cases))
}

/// Whether each value of the subject's type is among values of that type.
#[tactic(auto, unfolding(case_rules::specs::Cases::all_named))]
pub fn named(alloc: Global, subject: Subject, values: &[Value]) -> Result<bool, AllocError>
    ensures value { IfOk result (λ b. list_all (λ v. belongs subject (out-Value v)) values.now ≡ true → b ≡ all_named subject values.now) }
{
    match subject {
        Subject::Numbers => Ok(false),
        Subject::Truths => truths_named(alloc, values),
        Subject::Texts => Ok(false),
        Subject::Cases(declaration, cases) => cases_named(alloc, declaration, cases, values),
    }
}
