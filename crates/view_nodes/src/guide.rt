ghost use Rattle.std.specs.Prelude.{◌≡◌, IsTrue, IfOk};
ghost use Rattle.align_guides.specs.Guides.{divides};
ghost use Rattle.view_nodes.specs.Guides.{checked};

use align_guides::{GuideExpr, has_divisors};
use std::alloc::{AllocError, Global};
use std::marker::Model;

/// A guide expression in which no divisor is 0, which contracts see as the expression.
#[derive(Drop)]
pub struct Guide {
    expr: GuideExpr,
}

impl Model for Guide {
    ghost use Rattle.std.specs.Prelude.{IsTrue};
    ghost use Rattle.align_guides.specs.Guides.{divides};
    ghost use Rattle.align_guides.specs.declared.GuideExpr.{GuideExpr};
    ghost use Rattle.align_guides.specs.contracts.GuideExpr as one;

    ghost Value = { GuideExpr };

    ghost coded = { one.the_row.coded };

    ghost view = { λ g. g.expr };

    ghost invariant = { λ g. IsTrue (divides g.expr) };
}

impl Guide {
    /// The guide of an expression. None exactly where one of its divisors is 0.
    pub fn new(expr: GuideExpr) -> Option<Guide>
        ensures value { result ≡ checked expr }
    {
        if has_divisors(&expr) {
            Some(Guide { expr })
        } else {
            None
        }
    }

    /// The expression, which may be handed to `guide_value`.
    pub fn expr(&self) -> &GuideExpr
        ensures value { result.now ≡ self.now }
        ensures divisors { IsTrue (divides self.now) }
    {
        &self.expr
    }

    /// An equal guide.
    pub fn copy(&self, alloc: Global) -> Result<Guide, AllocError>
        ensures value { IfOk result (λ g. g ≡ self.now) }
    {
        let expr = self.expr.copy(alloc)?;
        Ok(Guide { expr })
    }
}
