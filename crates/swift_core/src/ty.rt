ghost use Rattle.std.specs.Prelude.{◌≡◌, ◌↔◌, IsTrue, IfOk, option_copied};
ghost use Rattle.swift_core.specs.declared.ty.Ty.{out-Ty};
ghost use Rattle.swift_core.specs.Types.{inside_at, element_at, named_at, same_ty};

use std::alloc::{AllocError, Global};
use sv_items::Boxed;

/// A type of values.
#[derive(Drop)]
pub enum Ty {
    Int,
    Bool,
    /// `String`
    Text,
    List(Boxed<Ty>),
    Optional(Boxed<Ty>),
    /// The data struct or the enum that is this declaration, by its place among the declarations.
    Named(u32),
}

impl Ty {
    /// Whether both are the same type.
    #[cycle(same)]
    fn is(&self, other: &Ty) -> bool
        ensures value { IsTrue result ↔ (self.now ≡ other.now) }
    {
        match (self, other) {
            (Ty::Int, Ty::Int) => true,
            (Ty::Bool, Ty::Bool) => true,
            (Ty::Text, Ty::Text) => true,
            (Ty::List(a), Ty::List(b)) => a.get().is(b.get()),
            (Ty::Optional(a), Ty::Optional(b)) => a.get().is(b.get()),
            (Ty::Named(a), Ty::Named(b)) => *a == *b,
            _ => false,
        }
    }

    /// Whether both are the same type.
    pub fn same(&self, other: &Ty) -> bool
        ensures value { result ≡ same_ty self.now other.now }
    {
        self.is(other)
    }

    /// An equal type.
    #[cycle(copy)]
    pub fn copy(&self, alloc: Global) -> Result<Ty, AllocError>
        ensures value { IfOk result (λ t. t ≡ self.now) }
    {
        match self {
            Ty::Int => Ok(Ty::Int),
            Ty::Bool => Ok(Ty::Bool),
            Ty::Text => Ok(Ty::Text),
            Ty::List(t) => {
                let t = t.get().copy(alloc)?;
                Ok(Ty::List(Boxed::new(alloc, t)?))
            }
            Ty::Optional(t) => {
                let t = t.get().copy(alloc)?;
                Ok(Ty::Optional(Boxed::new(alloc, t)?))
            }
            Ty::Named(declaration) => Ok(Ty::Named(*declaration)),
        }
    }

    /// The type inside an optional type.
    pub fn inside(&self) -> Option<&Ty>
        ensures value { option_copied result ≡ inside_at (out-Ty self.now) }
    {
        match self {
            Ty::Optional(t) => Some(t.get()),
            _ => None,
        }
    }

    /// The type of the elements of a list type.
    pub fn element(&self) -> Option<&Ty>
        ensures value { option_copied result ≡ element_at (out-Ty self.now) }
    {
        match self {
            Ty::List(t) => Some(t.get()),
            _ => None,
        }
    }

    /// The declaration that the type names.
    pub fn named(&self) -> Option<u32>
        ensures value { result ≡ named_at (out-Ty self.now) }
    {
        match self {
            Ty::Named(declaration) => Some(*declaration),
            _ => None,
        }
    }
}
