//! Marks that are set.
ghost use Rattle.std.specs.Prelude.{◌≡◌, ◌<◌, true, length, OnOk};
ghost use Rattle.call_reach.specs.Visits as spec;

use std::alloc::AllocError;

/// Whether there is a mark of this number that is not set.
fn is_open(marks: &[bool], at: usize) -> bool
    ensures value { result ≡ spec.is_open marks.now at }
    ensures within { result ≡ true → at < length marks.now }
{
    match marks.get(at) {
        Some(mark) => !*mark,
        None => false,
    }
}

/// Sets a mark, and adds its number to those to be followed, if it was not set.
fn visit_one(marks: &mut Vec<bool>, work: &mut Vec<usize>, at: usize) -> Result<(), AllocError>
    ensures marks { OnOk result (marks.new.items ≡ spec.marks_with marks.old.items at) }
    ensures work { OnOk result (work.new.items ≡ spec.work_with marks.old.items work.old.items at) }
{
    if is_open(marks, at) {
        marks[at] = true;
        work.push(at)?;
    }
    Ok(())
}

/// Sets these marks, and adds the numbers of those that were not set to those to be followed.
pub fn visit(marks: &mut Vec<bool>, work: &mut Vec<usize>, all: &[usize]) -> Result<(), AllocError>
    ensures marks { OnOk result (marks.new.items ≡ spec.visit_marks marks.old.items all.now) }
    ensures work { OnOk result (work.new.items ≡ spec.visit_work marks.old.items work.old.items all.now) }
{
    for at in all {
        visit_one(marks, work, *at)?;
    }
    Ok(())
}
