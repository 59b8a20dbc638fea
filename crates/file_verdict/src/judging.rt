//! The questions about a source file, in order.
ghost use Rattle.std.specs.Prelude.{◌≡◌, IfOk};
ghost use Rattle.source_parts.specs.Parts.{parts_at};
ghost use Rattle.type_twice.specs.Twice.{twice};
ghost use Rattle.verdict_rules.specs.Verdict.{ByCores, ByTable, ByTwice, ByWriter, Unless, has_main, members_of};
ghost use Rattle.verdict_rules.specs.Verdict as verdict;

use known_types::complete_table;
use program_parts::{check_parts, find_writer};
use source_parts::{PartRef, parts};
use std::alloc::{AllocError, Global};
use sv_items::Items;
use sv_value::Value;
use swift_ast::Source;
use swift_core::{Code, CodeForm, Core, CoreMember, Table};
use type_check::MemberFault;
use type_table::build_table;
use type_twice::{find_recursive, find_twice};
use verdict_rules::{Program, Refusal};

/// The default of the environment key that is built in.
fn built_in(alloc: Global) -> CoreMember
    ensures value { result ≡ verdict.built_in }
{
    CoreMember {
        code: Some(Code {
            outer: 0,
            kept: Items::new(alloc),
            types: Items::new(alloc),
            parameters: 0,
            form: CodeForm::Value(Core::Literal(Value::Bool(true))),
        }),
        blocks: Items::new(alloc),
    }
}

/// The members of a program.
fn members_of(alloc: Global, cores: Items<CoreMember>) -> Result<Items<CoreMember>, AllocError>
    ensures value { IfOk result (λ ms. ms ≡ members_of cores) }
{
    let mut members = Items::new(alloc);
    members.push(built_in(alloc))?;
    members.append(cores)?;
    Ok(members)
}

/// Whether a declaration carries `@main`.
fn has_main(table: &Table) -> bool
    ensures value { result ≡ has_main table.now }
{
    table
        .declarations
        .as_slice()
        .iter()
        .any(|declaration| declaration.is_main)
}

/// The program, where no member writes in its body.
fn by_writer(found: Option<u32>, program: Program) -> Result<Program, Refusal>
    ensures answer { ByWriter found program result }
{
    match found {
        Some(line) => Err(Refusal::WritesInBody { line }),
        None => {
            if has_main(&program.table) {
                Ok(program)
            } else {
                Err(Refusal::NoMain)
            }
        }
    }
}

/// Asks who writes in a body, where all parts are typed.
#[tactic(auto, using(crate::proofs::Steps::writer_known))]
fn by_cores(
    alloc: Global,
    table: Table,
    cores: Items<CoreMember>,
    parts: &[PartRef<'_>],
) -> Result<Program, Refusal>
    ensures answer { Unless result (ByCores table (parts_at parts.now) (Ok cores)) }
{
    let members = members_of(alloc, cores)?;
    let found = find_writer(alloc, &table, members.as_slice(), parts)?;
    by_writer(found, Program { table, members })
}

/// Asks which part is not typed.
#[tactic(auto, using(crate::proofs::Steps::cores_known, crate::proofs::Steps::line_known))]
fn by_table(alloc: Global, table: Table, parts: &[PartRef<'_>]) -> Result<Program, Refusal>
    ensures answer { Unless result (ByTable table (parts_at parts.now)) }
{
    match check_parts(alloc, &table, parts) {
        Ok(cores) => by_cores(alloc, table, cores, parts),
        Err(MemberFault::NotTyped { line }) => Err(Refusal::NotTyped { line }),
        Err(MemberFault::OutOfMemory) => Err(Refusal::OutOfMemory),
    }
}

/// The table of a source file.
fn table_for(alloc: Global, source: &Source) -> Result<Table, AllocError>
    ensures value { IfOk result (λ t. t ≡ verdict.table_for source.now) }
{
    let table = build_table(alloc, source)?;
    complete_table(alloc, source, table)
}

/// Asks which data struct holds itself.
#[tactic(auto, using(crate::proofs::Steps::recursive_known, crate::proofs::Steps::table_known))]
fn by_recursive(alloc: Global, source: &Source) -> Result<Program, Refusal>
    ensures answer { Unless result (verdict.ByTwice None source.now) }
{
    let table = table_for(alloc, source)?;
    if let Some(line) = find_recursive(alloc, source, &table)? {
        return Err(Refusal::Recursive { line });
    }
    let parts = parts(alloc, source)?;
    by_table(alloc, table, &parts)
}

/// The program of a source file, or the first question that finds something.
#[tactic(auto, using(crate::proofs::Steps::twice_known, crate::proofs::Steps::once_known))]
pub fn judge(alloc: Global, source: &Source) -> Result<Program, Refusal>
    ensures answer { Unless result (ByTwice (twice source.now) source.now) }
{
    match find_twice(alloc, source)? {
        Some(line) => Err(Refusal::Twice { line }),
        None => by_recursive(alloc, source),
    }
}
