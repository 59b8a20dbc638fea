ghost use Rattle.std.specs.Prelude.{◌≡◌, ◌++◌, map, IfOk, OnOk};
ghost use Rattle.std.specs.Str.Lossy.{utf8_lossy};
ghost use Rattle.core_names.specs.Spelled.{name_if, names_in, names_of};

use crate::kind::{NameKind, is_of};
use std::alloc::{AllocError, Global};
use sv_items::Items;
use sv_value::{Names, Text};
use swift_core::{Declaration, Signature, Table};
use swift_lex::Word;

/// The names that the values and the paths of a program are printed with, each list by the number of the declaration:
/// its name, and the names of its stored properties, of its cases and of its state slots, in the order of the text.
/// Data structs, enums, views, the app and preference keys are all declarations; one without members of a kind has no
/// names there.
pub fn names_of(alloc: Global, table: &Table) -> Result<Names, AllocError>
    ensures value { IfOk result (λ n. n ≡ names_of table.now) }
{
    let declarations = table.declarations.as_slice();
    Ok(Names {
        views: declaration_names(alloc, declarations)?,
        kinds: declaration_names(alloc, declarations)?,
        fields: member_names(alloc, NameKind::Field, declarations)?,
        cases: member_names(alloc, NameKind::Case, declarations)?,
        slots: member_names(alloc, NameKind::Slot, declarations)?,
    })
}

/// A word as a text.
fn text_of(alloc: Global, word: &Word) -> Result<Text, AllocError>
    ensures value { IfOk result (λ t. t ≡ utf8_lossy word.now) }
{
    Ok(Text::from_string(String::from_utf8_lossy(alloc, word.as_bytes())?))
}

/// The name of each declaration.
fn declaration_names(alloc: Global, declarations: &[Declaration]) -> Result<Items<Text>, AllocError>
    ensures value { IfOk result (λ n. n ≡ map (λ d. utf8_lossy d.name) declarations.now) }
{
    let mut names = Items::new(alloc);
    for declaration in declarations {
        names.push(text_of(alloc, &declaration.name)?)?;
    }
    Ok(names)
}

/// The names of the members of a kind of each declaration.
fn member_names(
    alloc: Global,
    kind: NameKind,
    declarations: &[Declaration],
) -> Result<Items<Items<Text>>, AllocError>
    ensures value { IfOk result (λ n. n ≡ map (λ d. names_in kind d.members) declarations.now) }
{
    let mut names = Items::new(alloc);
    for declaration in declarations {
        names.push(names_of_kind(alloc, kind, declaration.members.as_slice())?)?;
    }
    Ok(names)
}

/// The names of the members of a kind.
fn names_of_kind(
    alloc: Global,
    kind: NameKind,
    members: &[Signature],
) -> Result<Items<Text>, AllocError>
    ensures value { IfOk result (λ n. n ≡ names_in kind members.now) }
{
    let mut names = Items::new(alloc);
    for member in members {
        push_name(alloc, kind, member, &mut names)?;
    }
    Ok(names)
}

/// Adds the name of a member, if it is of the kind.
fn push_name(
    alloc: Global,
    kind: NameKind,
    member: &Signature,
    names: &mut Items<Text>,
) -> Result<(), AllocError>
    ensures ok { OnOk result (names.new ≡ names.old ++ name_if kind member.now) }
{
    if is_of(kind, &member.form) {
        names.push(text_of(alloc, &member.name)?)
    } else {
        Ok(())
    }
}
