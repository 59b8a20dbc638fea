//! The expressions of `.alignmentGuide`.
#![tactic(auto, unfolding(type_base::specs::Claims::and_then, type_base::specs::Claims::or_else))]

ghost use Rattle.std.specs.Prelude.{◌≡◌, codes, IfOk};
ghost use Rattle.type_base.specs.Rules.{Answers};
ghost use Rattle.modifier_rules.specs.Guides as guides;

use align_guides::GuideExpr;
use modifier_parts::{guide_of, indexed, qualified};
use std::alloc::{AllocError, Global};
use sv_items::Boxed;
use swift_ast::{BinarySign, Expr, ExprForm, Link, PrefixSign};
use swift_lex::Word;
use type_base::Fault;

/// How deep expressions nest at most.
const LEVELS: u32 = 5000;

fn negative_of(e: &Expr) -> Option<i64>
    ensures value { result ≡ guides.negative_by (guides.guide_form e.now) }
{
    match &e.form {
        ExprForm::Int(n) => { if *n > 0 { Some(0 - *n) } else { None } }
        _ => None,
    }
}

/// The number that a literal divides by, which is not zero.
fn divisor_of(e: &Expr) -> Option<i64>
    ensures value { result ≡ guides.divisor_of e.now }
{
    match &e.form {
        ExprForm::Int(n) => { if *n == 0 { None } else { Some(*n) } }
        ExprForm::Prefix(signs, operand) => match signs.as_slice() {
            [PrefixSign::Minus] => negative_of(operand.get()),
            _ => None,
        },
        _ => None,
    }
}

fn side_named(d: &[u8], w: &Word, v: &Word) -> Option<GuideExpr>
    ensures value { result ≡ guides.side_named d.now w.now v.now }
{
    if w.is(d) {
        if v.is(b"width") {
            Some(GuideExpr::Width)
        } else if v.is(b"height") {
            Some(GuideExpr::Height)
        } else {
            None
        }
    } else {
        None
    }
}

fn indexed_guide(d: &[u8], w: &Word, index: &Expr) -> Option<GuideExpr>
    ensures value { result ≡ guides.guide_at d.now w.now index.now }
{
    if w.is(d) {
        match guide_of(index) {
            Some(kind) => Some(GuideExpr::Guide(kind)),
            None => None,
        }
    } else {
        None
    }
}

fn side_of(d: &[u8], e: &Expr) -> Option<GuideExpr>
    ensures value { result ≡ guides.side_of d.now e.now }
{
    match qualified(e) {
        Some((w, v)) => side_named(d, w, v),
        None => None,
    }
}

/// What is read of the size and the guides, which are called `d`.
fn look_of(d: &[u8], e: &Expr) -> Option<GuideExpr>
    ensures value { result ≡ guides.look_of d.now e.now }
{
    if d == b"_".as_slice() {
        return None;
    }
    match side_of(d, e) {
        Some(side) => Some(side),
        None => match indexed(e) {
            Some((w, index)) => indexed_guide(d, w, index),
            None => None,
        },
    }
}

/// Zero less the part.
fn minus(alloc: Global, part: GuideExpr) -> Result<GuideExpr, AllocError>
    ensures value { IfOk result (λ g. g ≡ guides.minus part) }
{
    let zero = Boxed::new(alloc, GuideExpr::Literal(0))?;
    Ok(GuideExpr::Difference(zero, Boxed::new(alloc, part)?))
}

fn negated(alloc: Global, signs: &[PrefixSign], part: GuideExpr) -> Result<GuideExpr, Fault>
    ensures found { Answers result (guides.negated signs.now part) }
{
    match signs {
        [] => Ok(part),
        [PrefixSign::Minus, rest @ ..] => {
            let part = negated(alloc, rest, part)?;
            Ok(minus(alloc, part)?)
        }
        [PrefixSign::Not, ..] => Err(Fault::NotTyped),
    }
}

/// The sum, the difference or the product.
fn joined(
    alloc: Global,
    sign: BinarySign,
    left: GuideExpr,
    right: GuideExpr,
) -> Result<GuideExpr, Fault>
    ensures found { Answers result (guides.joined sign left right) }
{
    let left = Boxed::new(alloc, left)?;
    let right = Boxed::new(alloc, right)?;
    match sign {
        BinarySign::Plus => Ok(GuideExpr::Sum(left, right)),
        BinarySign::Minus => Ok(GuideExpr::Difference(left, right)),
        BinarySign::Times => Ok(GuideExpr::Product(left, right)),
        _ => Err(Fault::NotTyped),
    }
}

fn quotient(alloc: Global, left: GuideExpr, right: &Expr) -> Result<GuideExpr, Fault>
    ensures found { Answers result (guides.quotient left right.now) }
{
    match divisor_of(right) {
        Some(n) => Ok(GuideExpr::Quotient(Boxed::new(alloc, left)?, n)),
        None => Err(Fault::NotTyped),
    }
}

/// One operator and its right operand.
#[cycle(guide)]
#[tactic(auto, unfolding(type_base::specs::Claims::and_then, modifier_rules::specs::Guides::link_by))]
fn link_to(
    alloc: Global,
    room: u32,
    d: &[u8],
    left: GuideExpr,
    link: &Link,
) -> Result<GuideExpr, Fault>
    ensures found { Answers result (guides.link_by (guides.guide_to room d.now) left (guides.sign_of link.now) (guides.right_of link.now)) }
{
    match link.sign {
        BinarySign::Divide => quotient(alloc, left, &link.right),
        sign => {
            let right = guide_to(alloc, room, d, &link.right)?;
            joined(alloc, sign, left, right)
        }
    }
}

/// The operators, from left to right.
#[cycle(guide)]
#[tactic(auto, using(modifier_rules::specs::Guides::links_turn, modifier_rules::specs::Guides::links_none, modifier_rules::specs::Guides::links_end))]
fn links_to(
    alloc: Global,
    room: u32,
    d: &[u8],
    left: GuideExpr,
    links: &[Link],
) -> Result<GuideExpr, Fault>
    ensures found { Answers result (guides.links_by (guides.guide_to room d.now) left links.now) }
{
    let mut left = left;
    for link in links {
        left = link_to(alloc, room, d, left, link)?;
    }
    Ok(left)
}

/// An expression by its form, whose parts have one level less.
#[cycle(guide)]
#[tactic(auto, unfolding(type_base::specs::Claims::and_then, modifier_rules::specs::Guides::guide_by))]
fn guide_at(alloc: Global, room: u32, d: &[u8], e: &Expr) -> Result<GuideExpr, Fault>
    ensures found { Answers result (guides.guide_by (guides.guide_to room d.now) d.now e.now (guides.guide_form e.now)) }
{
    match &e.form {
        ExprForm::Int(n) => Ok(GuideExpr::Literal(*n)),
        ExprForm::Prefix(signs, operand) => {
            let part = guide_to(alloc, room, d, operand.get())?;
            negated(alloc, signs.as_slice(), part)
        }
        ExprForm::Chain(first, links) => {
            let left = guide_to(alloc, room, d, first.get())?;
            links_to(alloc, room, d, left, links.as_slice())
        }
        _ => match look_of(d, e) {
            Some(guide) => Ok(guide),
            None => Err(Fault::NotTyped),
        },
    }
}

#[cycle(guide)]
#[tactic(auto, using(modifier_rules::specs::Guides::answers_none, modifier_rules::specs::Guides::answers_level))]
fn guide_to(alloc: Global, room: u32, d: &[u8], e: &Expr) -> Result<GuideExpr, Fault>
    ensures found { Answers result (guides.guide_to room d.now e.now) }
{
    if room == 0 {
        return Err(Fault::NotTyped);
    }
    guide_at(alloc, room - 1, d, e)
}

/// What the closure of `.alignmentGuide` computes of the size and the guides, which it calls `d`.
#[tactic(auto, unfolding(modifier_rules::specs::Guides::find_guide, modifier_rules::specs::Lengths::levels))]
pub fn check_guide(alloc: Global, d: &[u8], e: &Expr) -> Result<GuideExpr, Fault>
    ensures found { Answers result (guides.find_guide d.now e.now) }
{
    guide_to(alloc, LEVELS, d, e)
}
