ghost use Rattle.std.specs.Prelude.{◌≡◌, IfOk};
ghost use Rattle.case_rules.specs.Conditions.{name_alone};
ghost use Rattle.case_rules.specs.Patterns.{implicit_alone, member_alone};

use std::alloc::{AllocError, Global};
use sv_items::{Boxed, Items};
use swift_ast::{Expr, ExprForm, Part, Selector, Span};
use swift_lex::Word;

/// No place in the source.
const NOWHERE: Span = Span {
    first: 0,
    last: 0,
    line: 0,
};

/// The expression that is this name.
pub fn name_alone(alloc: Global, name: &Word) -> Result<Expr, AllocError>
    ensures value { IfOk result (λ e. e ≡ name_alone name.now) }
{
    Ok(Expr {
        span: NOWHERE,
        form: ExprForm::Name(name.copy(alloc)?),
    })
}

/// The expression `.name`.
pub fn implicit_alone(alloc: Global, name: &Word) -> Result<Expr, AllocError>
    ensures value { IfOk result (λ e. e ≡ implicit_alone name.now) }
{
    Ok(Expr {
        span: NOWHERE,
        form: ExprForm::Implicit(name.copy(alloc)?),
    })
}

/// The expression `kind.name`.
pub fn member_alone(alloc: Global, kind: &Word, name: &Word) -> Result<Expr, AllocError>
    ensures value { IfOk result (λ e. e ≡ member_alone kind.now name.now) }
{
    let kind = Boxed::new(alloc, name_alone(alloc, kind)?)?;
    let mut parts = Items::new(alloc);
    parts.push(Part::Member(Selector::Name(name.copy(alloc)?)))?;
    Ok(Expr {
        span: NOWHERE,
        form: ExprForm::Post(kind, parts),
    })
}
