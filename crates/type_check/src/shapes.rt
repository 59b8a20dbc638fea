ghost use Rattle.std.specs.Prelude.{◌≡◌};
ghost use Rattle.type_base.specs.Context.{seen};
ghost use Rattle.member_rules.specs.Shapes as shape;

use std::alloc::Global;
use sv_items::Items;
use swift_core::{Code, CodeForm, Core, CoreItem, CoreMember, CoreStmt, Kind, LocalType, Table};
use type_base::{Scope, Stance};

/// The code of a member with parameters of these types.
fn code(alloc: Global, types: Items<LocalType>, form: CodeForm) -> Code
    ensures value { result ≡ shape.code_of types form }
{
    let parameters = types.len();
    Code {
        outer: 0,
        kept: Items::new(alloc),
        types,
        parameters,
        form,
    }
}

pub fn without_code(alloc: Global) -> CoreMember
    ensures value { result ≡ shape.without_code }
{
    CoreMember {
        code: None,
        blocks: Items::new(alloc),
    }
}

pub fn of_value(alloc: Global, core: Core) -> CoreMember
    ensures value { result ≡ shape.of_value core }
{
    CoreMember {
        code: Some(code(alloc, Items::new(alloc), CodeForm::Value(core))),
        blocks: Items::new(alloc),
    }
}

pub fn of_statements(
    alloc: Global,
    types: Items<LocalType>,
    statements: Items<CoreStmt>,
) -> CoreMember
    ensures value { result ≡ shape.of_statements types statements }
{
    CoreMember {
        code: Some(code(alloc, types, CodeForm::Statements(statements))),
        blocks: Items::new(alloc),
    }
}

pub fn of_builder(
    alloc: Global,
    types: Items<LocalType>,
    items: Items<CoreItem>,
    blocks: Items<Code>,
) -> CoreMember
    ensures value { result ≡ shape.of_builder types items blocks }
{
    CoreMember {
        code: Some(code(alloc, types, CodeForm::Builder(items))),
        blocks,
    }
}

/// Where the code of a member stands: there are no locals.
pub fn inside(alloc: Global, table: &Table, owner: Option<u32>, stance: Stance) -> Scope<'_>
    ensures value { seen result ≡ shape.inside table.now owner stance }
{
    Scope {
        table,
        owner,
        stance,
        locals: Items::new(alloc),
        floor: 0,
    }
}

/// What `self` is in a computed property or a function.
pub fn stance_of(kind: Kind) -> Stance
    ensures value { result ≡ shape.stance_of kind }
{
    match kind {
        Kind::Data(_) | Kind::Enum(_, _) => Stance::Data,
        Kind::View => Stance::View,
        Kind::App => Stance::Initial,
        Kind::Key(_) => Stance::Key,
    }
}

/// What `self` is in a function that may be `mutating`.
pub fn function_stance(mutating: bool, kind: Kind) -> Stance
    ensures value { result ≡ shape.function_stance mutating kind }
{
    if mutating {
        Stance::Mutating
    } else {
        stance_of(kind)
    }
}
