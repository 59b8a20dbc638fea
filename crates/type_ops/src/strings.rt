ghost use Rattle.std.specs.Prelude.{◌≡◌, IfOk, Some, option_copied, option_map};
ghost use Rattle.std.specs.Str.{is_utf8};
ghost use Rattle.swift_ast.specs.declared.tree.StringPart.{out-StringPart};
ghost use Rattle.type_base.specs.Claims.{when};
ghost use Rattle.type_base.specs.Context.{seen};
ghost use Rattle.type_base.specs.Rules.{Answers};
ghost use Rattle.expr_rules.specs.Checks.{Checks};
ghost use Rattle.expr_rules.specs.Levels.{infer_to};
ghost use Rattle.expr_rules.specs.Ops.{text_at, text_of, is_shown};
ghost use Rattle.expr_rules.specs.OpsSearch.{piece_of, pieces, text};
ghost use Rattle.swift_core.specs.declared.ty.Ty.{out-Ty};

use expr_rules::check;
use std::alloc::{AllocError, Global};
use sv_items::Items;
use sv_value::{Text, Value};
use swift_ast::{Expr, StringPart};
use swift_core::{Core, Piece, Ty};
use type_base::{Fault, Inner, Scope};

/// The bytes as a text, where they are UTF-8.
#[tactic(auto, using(crate::proofs::Texts::utf8_yes, crate::proofs::Texts::utf8_no))]
fn text_from(alloc: Global, bytes: &[u8]) -> Result<Text, Fault>
    ensures found { Answers result (when (is_utf8 bytes.now) (Some bytes.now)) }
{
    match str::from_utf8(bytes) {
        Ok(text) => Ok(Text::from_str(alloc, text)?),
        Err(_) => Err(Fault::NotTyped),
    }
}

/// The bytes of a part that is a run of text.
fn text_at(part: &StringPart) -> Option<&[u8]>
    ensures value { option_copied result ≡ text_at (out-StringPart part.now) }
{
    match part {
        StringPart::Text(word) => Some(word.as_bytes()),
        StringPart::Hole(_) => None,
    }
}

/// The bytes of a string that has no holes, or None where it has one.
#[tactic(auto, using(crate::proofs::Texts::text_start, crate::proofs::Texts::text_turn, crate::proofs::Texts::text_none, crate::proofs::Texts::text_end))]
fn whole_text(alloc: Global, parts: &[StringPart]) -> Result<Option<Vec<u8>>, AllocError>
    ensures value { IfOk result (λ w. option_map (λ v. v.items) w ≡ text_of parts.now) }
{
    let mut bytes = Vec::new(alloc);
    for part in parts {
        match text_at(part) {
            Some(more) => bytes.extend_from_slice(more)?,
            None => return Ok(None),
        }
    }
    Ok(Some(bytes))
}

/// Whether values of the type may stand in `\( )`.
fn is_shown(ty: &Ty) -> bool
    ensures value { result ≡ is_shown (out-Ty ty.now) }
{
    match ty {
        Ty::Int | Ty::Bool | Ty::Text => true,
        Ty::List(_) | Ty::Optional(_) | Ty::Named(_) => false,
    }
}

/// A part of a string with holes.
#[tactic(auto, unfolding(type_base::specs::Claims::and_then, expr_rules::specs::OpsSearch::piece_of))]
fn piece_of<F>(inner: &Inner<F>, scope: &Scope<'_>, part: &StringPart) -> Result<Piece, Fault>
where
    F: Fn(Global, u32, &Scope<'_>, Option<&Ty>, &Expr) -> Result<(Core, Ty), Fault>,
    requires { Checks inner.now.room (F.pre inner.now.check) (F.post inner.now.check) }
    ensures found { Answers result (piece_of (infer_to inner.now.room) (out-StringPart part.now) (seen scope.now)) }
{
    match part {
        StringPart::Text(word) => Ok(Piece::Text(text_from(inner.alloc, word.as_bytes())?)),
        StringPart::Hole(expr) => {
            let found = check(inner, scope, None, expr.get())?;
            if !is_shown(&found.1) {
                return Err(Fault::NotTyped);
            }
            Ok(Piece::Hole(found.0))
        }
    }
}

/// The parts of a string with holes.
#[tactic(auto, using(crate::proofs::Turns::pieces_start, crate::proofs::Turns::pieces_turn, crate::proofs::Turns::pieces_end, crate::proofs::Turns::pieces_none))]
fn pieces<F>(
    inner: &Inner<F>,
    scope: &Scope<'_>,
    parts: &[StringPart],
) -> Result<Items<Piece>, Fault>
where
    F: Fn(Global, u32, &Scope<'_>, Option<&Ty>, &Expr) -> Result<(Core, Ty), Fault>,
    requires { Checks inner.now.room (F.pre inner.now.check) (F.post inner.now.check) }
    ensures found { Answers result (pieces (infer_to inner.now.room) parts.now (seen scope.now)) }
{
    let mut pieces = Items::new(inner.alloc);
    for part in parts {
        let piece = piece_of(inner, scope, part)?;
        pieces.push(piece)?;
    }
    Ok(pieces)
}

/// A string: a literal where it has no holes, and else its parts put together.
#[inline(never)]
#[tactic(auto, unfolding(type_base::specs::Claims::and_then, type_base::specs::Claims::given, expr_rules::specs::OpsSearch::text))]
pub fn text<F>(
    inner: &Inner<F>,
    scope: &Scope<'_>,
    want: Option<&Ty>,
    parts: &[StringPart],
) -> Result<(Core, Ty), Fault>
where
    F: Fn(Global, u32, &Scope<'_>, Option<&Ty>, &Expr) -> Result<(Core, Ty), Fault>,
    requires { Checks inner.now.room (F.pre inner.now.check) (F.post inner.now.check) }
    ensures found { Answers result (text (infer_to inner.now.room) parts.now (seen scope.now) (option_copied want.entry)) }
{
    match whole_text(inner.alloc, parts)? {
        Some(bytes) => {
            let text = text_from(inner.alloc, bytes.as_slice())?;
            Ok((Core::Literal(Value::Str(text)), Ty::Text))
        }
        None => Ok((Core::Text(pieces(inner, scope, parts)?), Ty::Text)),
    }
}
