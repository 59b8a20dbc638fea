ghost use Rattle.std.specs.Prelude.{◌≡◌, [], ◌++◌, ◌<◌, ◌≤◌, length, map, IfOk, OnOk, IsTrue, string_bytes, slice_index_or};
ghost use Rattle.std.specs.List.{list_all};
ghost use Rattle.sv_value.specs.Names.{is_named, fields_of};
ghost use Rattle.sv_value.specs.Joined.{before};
ghost use Rattle.sv_value.specs.Print as spec;

use crate::names::Names;
use crate::text::Text;
use crate::value::Value;
use std::alloc::{AllocError, Global};
use sv_items::Items;

fn push_escaped(c: char, out: &mut String) -> Result<(), AllocError>
    ensures { OnOk result (string_bytes out.new ≡ string_bytes out.old ++ spec.escaped c) }
{
    match c {
        '"' => out.push_str("\\\""),
        '\\' => out.push_str("\\\\"),
        '\n' => out.push_str("\\n"),
        '\r' => out.push_str("\\r"),
        '\t' => out.push_str("\\t"),
        '\0' => out.push_str("\\0"),
        _ => {
            if c.is_control() {
                let code = c as u32;
                write!(out, "\\u{{{code:x}}}")
            } else {
                out.push(c)
            }
        }
    }
}

fn push_quoted(text: &str, out: &mut String) -> Result<(), AllocError>
    ensures { OnOk result (string_bytes out.new ≡ string_bytes out.old ++ spec.quoted text.now) }
{
    out.push_str("\"")?;
    for c in text.chars() {
        push_escaped(c, out)?;
    }
    out.push_str("\"")
}

fn name_at(names: &Items<Text>, at: usize) -> &str
    requires { at < length names.now }
    ensures { result.now ≡ slice_index_or names.now at [] }
{
    names.as_slice()[at].as_str()
}

fn name_in(lists: &Items<Items<Text>>, kind: usize, at: usize) -> &str
    requires { at < length (slice_index_or lists.now kind []) }
    ensures { result.now ≡ slice_index_or (slice_index_or lists.now kind []) at [] }
{
    name_at(&lists.as_slice()[kind], at)
}

/// Writes what stands before the piece number `at` of a row of pieces that `separator` joins.
pub fn push_separator(at: usize, separator: &str, out: &mut String) -> Result<(), AllocError>
    ensures { OnOk result (string_bytes out.new ≡ string_bytes out.old ++ before separator.now at) }
{
    if at == 0 {
        Ok(())
    } else {
        out.push_str(separator)
    }
}

impl Value {
    /// Writes the value's text at the end of `out`.
    #[cycle(print)]
    pub fn print_into(&self, names: &Names, out: &mut String) -> Result<(), AllocError>
        requires { IsTrue (is_named names.now self.now) }
        ensures { OnOk result (string_bytes out.new ≡ string_bytes out.old ++ spec.print names.now self.now) }
    {
        match self {
            Value::Int(number) => write!(out, "{number}"),
            Value::Bool(true) => out.push_str("true"),
            Value::Bool(false) => out.push_str("false"),
            Value::Str(text) => push_quoted(text.as_str(), out),
            Value::List(parts) => {
                out.push_str("[")?;
                print_all(parts.as_slice(), names, out)?;
                out.push_str("]")
            }
            Value::Opt(None) => out.push_str("nil"),
            Value::Opt(Some(part)) => part.get().print_into(names, out),
            Value::Struct { kind, fields } => {
                let kind = *kind as usize;
                out.push_str(name_at(&names.kinds, kind))?;
                out.push_str("(")?;
                print_fields(fields.as_slice(), kind, names, out)?;
                out.push_str(")")
            }
            Value::Case { kind, place } => {
                out.push_str(".")?;
                out.push_str(name_in(&names.cases, *kind as usize, *place as usize))
            }
        }
    }

    /// The value's text.
    pub fn print(&self, alloc: Global, names: &Names) -> Result<Text, AllocError>
        requires { IsTrue (is_named names.now self.now) }
        ensures { IfOk result (λ text. text ≡ spec.print names.now self.now) }
    {
        let mut out = String::new(alloc);
        self.print_into(names, &mut out)?;
        Ok(Text::from_string(out))
    }
}

#[cycle(print)]
fn print_all(parts: &[Value], names: &Names, out: &mut String) -> Result<(), AllocError>
    requires { IsTrue (list_all (λ b. b) (map (is_named names.now) parts.now)) }
    ensures { OnOk result (string_bytes out.new ≡ string_bytes out.old ++ spec.listed (map (spec.print names.now) parts.now)) }
{
    for i in 0..parts.len() {
        push_separator(i, ", ", out)?;
        parts[i].print_into(names, out)?;
    }
    Ok(())
}

#[cycle(print)]
fn print_fields(
    parts: &[Value],
    kind: usize,
    names: &Names,
    out: &mut String,
) -> Result<(), AllocError>
    requires named { IsTrue (list_all (λ b. b) (map (is_named names.now) parts.now)) }
    requires labels { length parts.now ≤ length (fields_of names.now kind) }
    ensures { OnOk result (string_bytes out.new ≡ string_bytes out.old ++ spec.listed (spec.labelled (fields_of names.now kind) (map (spec.print names.now) parts.now))) }
{
    for i in 0..parts.len() {
        push_separator(i, ", ", out)?;
        out.push_str(name_in(&names.fields, kind, i))?;
        out.push_str(": ")?;
        parts[i].print_into(names, out)?;
    }
    Ok(())
}
