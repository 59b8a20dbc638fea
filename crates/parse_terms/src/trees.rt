ghost use Rattle.std.specs.Prelude.{◌≡◌, ◌∷◌, IfOk};
ghost use Rattle.parse_terms.specs.Trees.{chain_by, node, optional_by, post_by, prefix_of, stmt_node, ternary_by};
ghost use Rattle.parse_terms.specs.Words as words;

use crate::words::MAX_LINKS;
use std::alloc::{AllocError, Global};
use sv_items::{Boxed, Items};
use swift_ast::{Expr, ExprForm, Link, Part, PrefixSign, Span, Stmt, StmtForm, TypeName};

/// A type with so many `?` behind it.
pub fn with_marks(alloc: Global, first: TypeName, marks: usize) -> Result<TypeName, AllocError>
    ensures { IfOk result (λ t. t ≡ optional_by first marks) }
{
    if marks == 0 {
        return Ok(first);
    }
    Ok(TypeName::Optional(Boxed::new(alloc, first)?, marks))
}

/// An operand with its postfix parts.
pub fn with_parts(
    alloc: Global,
    span: Span,
    first: Expr,
    parts: Items<Part>,
) -> Result<Expr, AllocError>
    ensures { IfOk result (λ e. e ≡ post_by span first parts) }
{
    if parts.is_empty() {
        return Ok(first);
    }
    let form = ExprForm::Post(Boxed::new(alloc, first)?, parts);
    Ok(Expr { span, form })
}

/// An operand with the links behind it.
pub fn with_links(
    alloc: Global,
    span: Span,
    first: Expr,
    links: Items<Link>,
) -> Result<Expr, AllocError>
    ensures { IfOk result (λ e. e ≡ chain_by span first links) }
{
    if links.is_empty() {
        return Ok(first);
    }
    let form = ExprForm::Chain(Boxed::new(alloc, first)?, links);
    Ok(Expr { span, form })
}

/// An operand behind its prefix operators.
pub fn with_prefixes(
    alloc: Global,
    span: Span,
    prefixes: Items<PrefixSign>,
    operand: Expr,
) -> Result<Expr, AllocError>
    ensures { IfOk result (λ e. e ≡ prefix_of span prefixes operand) }
{
    if prefixes.is_empty() {
        return Ok(operand);
    }
    let form = ExprForm::Prefix(prefixes, Boxed::new(alloc, operand)?);
    Ok(Expr { span, form })
}

/// A condition with its branches, and the links that are left for ternaries.
pub fn with_branches(
    alloc: Global,
    span: Span,
    links: usize,
    first: Expr,
    branches: Option<((Expr, Expr), usize)>,
) -> Result<(Expr, usize), AllocError>
    ensures { IfOk result (λ e. e ≡ ternary_by span links first branches) }
{
    match branches {
        None => Ok((first, links)),
        Some(((then, other), left)) => {
            let form = ExprForm::Ternary(
                Boxed::new(alloc, first)?,
                Boxed::new(alloc, then)?,
                Boxed::new(alloc, other)?,
            );
            Ok((Expr { span, form }, left))
        }
    }
}

/// The list with one more item before it.
pub fn with_front<T: Drop>(first: T, more: Items<T>) -> Result<Items<T>, AllocError>
    ensures { IfOk result (λ all. all ≡ first ∷ more) }
{
    let mut all = more;
    all.insert(0, first)?;
    Ok(all)
}

/// An expression of this form.
pub fn expr_node(span: Span, form: ExprForm) -> Expr
    ensures { result ≡ node span form }
{
    Expr { span, form }
}

/// A statement of this form.
pub fn stmt_node(span: Span, form: StmtForm) -> Stmt
    ensures { result ≡ stmt_node span form }
{
    Stmt { span, form }
}

/// The most links of a chain of this rule: comparisons and ranges do not associate.
pub fn limit(level: u8) -> usize
    ensures { result ≡ words.limit level }
{
    if level == 3 {
        1
    } else if level == 5 {
        1
    } else {
        MAX_LINKS
    }
}
