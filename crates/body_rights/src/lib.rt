//! The body of a well typed program always has a meaning: where its frame and the cells have what the types say, it gives a
//! description, or traps. And what the description holds is typed.
#![tactic(auto)]

ghost use Rattle.body_rights.specs.Bodies.{BodiesAreRight, BodiesGive};

/// The app, a custom view or a preference reader gives a description, or traps, where the condition of its run holds.
pub fn bodies_are_right()
    ensures law { BodiesAreRight }
{}

/// What the blocks of such a description keep, what its readers captured, and what its custom views are given has the types
/// that their code asks for.
pub fn bodies_give()
    ensures law { BodiesGive }
{}
