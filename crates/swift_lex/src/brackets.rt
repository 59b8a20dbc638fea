ghost use Rattle.std.specs.Prelude.{◌≡◌, ◌∷◌, ◌+◌, [], ℕ, List, Bool, IfOk, false, true, reverse, is_none};
ghost use Rattle.swift_lex.specs.Brackets as spec;

use std::alloc::{AllocError, Global};
use std::marker::Model;

/// The brackets that are open within the holes of strings.
/// A clause sees them as a list, the innermost first: true for the `\(` of a hole, false for a `(` within one.
#[derive(Drop)]
pub struct Brackets {
    open: Vec<bool>,
}

impl Model for Brackets {
    ghost Value = { List Bool };

    ghost view = { λ b. reverse b.open.items };
}

impl Brackets {
    /// None is open.
    pub fn new(alloc: Global) -> Brackets
        ensures { result ≡ [] }
    {
        Brackets {
            open: Vec::new(alloc),
        }
    }

    /// Whether no hole is open.
    pub fn is_empty(&self) -> bool
        ensures { result ≡ spec.is_empty self.now }
    {
        self.open.is_empty()
    }

    /// A hole begins.
    #[tactic(auto, using(crate::proofs::BracketLemmas::reverse_push))]
    pub fn begin_hole(&mut self) -> Result<(), AllocError>
        ensures { IfOk result (λ _. self.new ≡ true ∷ self.old) }
    {
        self.open.push(true)?;
        Ok(())
    }

    /// A `(` stands here, which counts within a hole.
    #[tactic(auto, using(crate::proofs::BracketLemmas::reverse_push))]
    pub fn begin(&mut self) -> Result<(), AllocError>
        ensures { IfOk result (λ _. self.new ≡ spec.begun self.old) }
    {
        if !self.open.is_empty() {
            self.open.push(false)?;
        }
        Ok(())
    }

    /// A `)` stands here, which closes the innermost bracket within a hole. Answers whether it ends the hole.
    #[tactic(auto, using(crate::proofs::BracketLemmas::reverse_push))]
    pub fn end(&mut self) -> bool
        ensures { (self.new, result) ≡ spec.ended self.old }
    {
        match self.open.pop() {
            None => false,
            Some(is_hole) => is_hole,
        }
    }
}
