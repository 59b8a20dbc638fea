ghost use Rattle.std.specs.Prelude.{◌≡◌};
ghost use Rattle.std.specs.List.{sum_by};
ghost use Rattle.type_table.specs.Along as along;
ghost use Rattle.type_table.specs.Tables as spec;

use crate::number::wide_after;
use swift_ast::{EnumItem, Piece, PieceForm, StructBody};

fn item_size(item: &EnumItem) -> usize
    ensures { result ≡ spec.item_size item.now }
{
    match item {
        EnumItem::Cases(names) => names.len(),
        EnumItem::Member(_) => 1,
    }
}

#[tactic(auto, using(crate::proofs::Parts::size_turn))]
fn items_size(items: &[EnumItem]) -> usize
    ensures { result ≡ along.wide (sum_by spec.item_size items.now) }
{
    let mut size = 0;
    for item in items {
        size = wide_after(size, item_size(item));
    }
    size
}

/// How many members, cases and keys a piece has.
#[tactic(auto, using(crate::proofs::Turns::wide_plus))]
pub fn piece_size(piece: &Piece) -> usize
    ensures { result ≡ along.wide (spec.codes_in piece.now) }
{
    match &piece.form {
        PieceForm::Struct(piece) => match &piece.body {
            StructBody::LeftAside => wide_after(0, 0),
            StructBody::Members(members) => wide_after(0, members.len()),
        },
        PieceForm::Enum(piece) => items_size(piece.items.as_slice()),
        PieceForm::Environment(entries) => wide_after(0, entries.len()),
        _ => wide_after(0, 0),
    }
}
