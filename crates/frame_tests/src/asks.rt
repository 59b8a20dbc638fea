ghost use Rattle.std.specs.Prelude.{◌≡◌, map};
ghost use Rattle.std.specs.Option.{option_copied};
ghost use Rattle.swift_core.specs.Context.{local_of};
ghost use Rattle.place_tests.specs.Asked.{asked};
ghost use Rattle.frame_tests.specs.Demands.{demands_of, form_demand, local_demand, place_demand};

use core_means::Frame;
use identity_path::Input;
use place_tests::{Asked, Asks};
use swift_core::{LocalType, Signature, SignatureForm, Ty};

/// A frame, the members of the view whose frame the code may use (none where it may use none), and what the code says of its
/// locals.
#[derive(Clone, Copy)]
pub struct FrameAsks<'a> {
    pub members: &'a [Signature],
    pub types: &'a [LocalType],
    pub frame: &'a Frame,
}

/// What is asked of an input that is to be a place.
fn place_demand<'a>(ty: &'a Ty, input: Option<&'a Input>) -> Option<Asked<'a>>
    ensures value { asked result ≡ place_demand ty.now (option_copied input.entry) }
{
    match input {
        Some(Input::Place(place)) => Some(Asked {
            path: &place.path,
            slot: place.slot,
            hops: place.hops.as_slice(),
            ty,
        }),
        _ => None,
    }
}

/// What is asked of the slot of a state, or of the place of a binding.
fn form_demand<'a>(frame: &'a Frame, form: &'a SignatureForm) -> Option<Asked<'a>>
    ensures value { asked result ≡ form_demand frame.now form.now }
{
    match form {
        SignatureForm::State(slot, Some(ty), _) => Some(Asked {
            path: &frame.path,
            slot: *slot,
            hops: &[],
            ty,
        }),
        SignatureForm::Binding(at, Some(ty)) => place_demand(ty, frame.inputs.get(*at as usize)),
        _ => None,
    }
}

/// What is asked of a local.
fn local_demand<'a>(ty: &'a LocalType, input: &'a Input) -> Option<Asked<'a>>
    ensures value { asked result ≡ local_demand (local_of ty.now) input.now }
{
    match ty {
        LocalType::Place(ty) => place_demand(ty, Some(input)),
        LocalType::Value(_) => None,
    }
}

impl<'a> Asks for FrameAsks<'a> {
    ghost demands = { λ a. demands_of a.frame.now a.members.now (map local_of a.types.now) };

    #[tactic(auto, using(crate::proofs::Asking::as_many))]
    fn count(&self) -> usize {
        self.members.len() + self.types.len().min(self.frame.locals.len())
    }

    #[tactic(auto, using(crate::proofs::Asking::of_member, crate::proofs::Asking::of_local, crate::proofs::Asking::in_types, crate::proofs::Asking::in_locals))]
    fn demand(&self, at: usize) -> Option<Asked<'_>> {
        if at < self.members.len() {
            return form_demand(self.frame, &self.members[at].form);
        }
        let place = at - self.members.len();
        local_demand(&self.types[place], &self.frame.locals.as_slice()[place])
    }
}
