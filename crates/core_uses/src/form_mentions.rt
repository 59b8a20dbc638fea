ghost use Rattle.std.specs.Prelude.{◌≡◌, ◌++◌, OnOk};
ghost use Rattle.std.specs.List.{flat_map};
ghost use Rattle.std.specs.Option.{option_copied};
ghost use Rattle.core_uses.specs.Runs.{run_mentions, readers_mention};
ghost use Rattle.swift_core.specs.Mentions.{form_mentions, stmt_mentions, item_mentions};
ghost use Rattle.swift_core.specs.Uses.{body_forms, reader_forms};

use crate::core_mentions::of_core;
use crate::item_mentions::of_items;
use crate::stmt_mentions::of_statements;
use std::alloc::AllocError;
use sv_items::Items;
use swift_core::{Code, CodeForm, CoreItem, CoreMember, CoreStmt, Mention};

/// Adds what the statements mention, one after another.
fn of_all_statements(statements: &[CoreStmt], out: &mut Items<Mention>) -> Result<(), AllocError>
    ensures ok { OnOk result (out.new ≡ out.old ++ flat_map stmt_mentions statements.now) }
{
    of_statements(statements, out)
}

/// Adds what the items mention, one after another.
fn of_all_items(items: &[CoreItem], out: &mut Items<Mention>) -> Result<(), AllocError>
    ensures ok { OnOk result (out.new ≡ out.old ++ flat_map item_mentions items.now) }
{
    of_items(items, out)
}

/// Adds what a piece of code mentions.
pub fn of_form(form: &CodeForm, out: &mut Items<Mention>) -> Result<(), AllocError>
    ensures ok { OnOk result (out.new ≡ out.old ++ form_mentions form.now) }
{
    match form {
        CodeForm::Value(term) => of_core(term, out),
        CodeForm::Statements(statements) => of_all_statements(statements.as_slice(), out),
        CodeForm::Builder(items) => of_all_items(items.as_slice(), out),
    }
}

/// Adds what the code of a member mentions, where it has any.
fn of_body(code: Option<&Code>, out: &mut Items<Mention>) -> Result<(), AllocError>
    ensures ok { OnOk result (out.new ≡ out.old ++ flat_map form_mentions (body_forms (option_copied code.entry))) }
{
    match code {
        None => Ok(()),
        Some(code) => of_form(&code.form, out),
    }
}

/// Adds what a block mentions, where it is the builder of a preference reader.
fn of_reader(form: &CodeForm, out: &mut Items<Mention>) -> Result<(), AllocError>
    ensures ok { OnOk result (out.new ≡ out.old ++ flat_map form_mentions (reader_forms form.now)) }
{
    match form {
        CodeForm::Builder(_) => of_form(form, out),
        _ => Ok(()),
    }
}

/// Adds what the builders of preference readers among the blocks mention.
fn of_readers(blocks: &[Code], out: &mut Items<Mention>) -> Result<(), AllocError>
    ensures ok { OnOk result (out.new ≡ out.old ++ readers_mention blocks.now) }
{
    for block in blocks {
        of_reader(&block.form, out)?;
    }
    Ok(())
}

/// Adds what a member mentions outside action blocks.
pub fn of_member(member: &CoreMember, out: &mut Items<Mention>) -> Result<(), AllocError>
    ensures ok { OnOk result (out.new ≡ out.old ++ run_mentions member.now) }
{
    of_body(member.code.as_ref(), out)?;
    of_readers(member.blocks.as_slice(), out)
}
