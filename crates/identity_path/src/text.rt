ghost use Rattle.std.specs.Prelude.{◌≡◌, ◌++◌, string_bytes, OnOk, IfOk, IsTrue};
ghost use Rattle.identity_path.specs.Text as spec;

use crate::path::Path;
use crate::step::Step;
use std::alloc::{AllocError, Global};
use sv_value::{Names, Text, push_separator};

fn push_again(again: u32, out: &mut String) -> Result<(), AllocError>
    ensures { OnOk result (string_bytes out.new ≡ string_bytes out.old ++ spec.again_text again) }
{
    if again == 0 {
        Ok(())
    } else {
        write!(out, ";{again}")
    }
}

fn push_step(step: &Step, names: &Names, out: &mut String) -> Result<(), AllocError>
    requires { IsTrue (spec.is_named_step names.now step.now) }
    ensures { OnOk result (string_bytes out.new ≡ string_bytes out.old ++ spec.step_text names.now step.now) }
{
    match step {
        Step::Child(i) => write!(out, "{i}"),
        Step::Branch(k) => write!(out, "?{k}"),
        Step::Item(id, again) => {
            out.push_str("[")?;
            id.print_into(names, out)?;
            push_again(*again, out)?;
            out.push_str("]")
        }
        Step::Id(id) => {
            out.push_str("=")?;
            id.print_into(names, out)
        }
        Step::View(view) => out.push_str(names.views.as_slice()[*view as usize].as_str()),
        Step::Overlay(n) => write!(out, "+{n}"),
        Step::Background(n) => write!(out, "-{n}"),
        Step::Pref(n) => write!(out, "^{n}"),
    }
}

/// The text of a path: its steps, joined by `/`, and `/` for the empty path.
pub fn text_of(alloc: Global, path: &Path, names: &Names) -> Result<Text, AllocError>
    requires { IsTrue (spec.is_named_path names.now path.now) }
    ensures { IfOk result (λ text. text ≡ spec.path_text names.now path.now) }
{
    let mut out = String::new(alloc);
    let steps = path.as_slice();
    if steps.is_empty() {
        out.push_str("/")?;
    }
    for i in 0..steps.len() {
        push_separator(i, "/", &mut out)?;
        push_step(&steps[i], names, &mut out)?;
    }
    Ok(Text::from_string(out))
}
