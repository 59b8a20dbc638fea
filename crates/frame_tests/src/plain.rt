ghost use Rattle.std.specs.Prelude.{◌<◌, ◌≤◌, ◌↔◌, IsTrue, length, map};
ghost use Rattle.std.specs.Option.{option_copied};
ghost use Rattle.swift_core.specs.Context.{local_of};
ghost use Rattle.swift_core.specs.Values.{HasValue};
ghost use Rattle.world_fits.specs.Frames.{HasAt};
ghost use Rattle.frame_tests.specs.Demands.{
  FormPlain,
  IsPlace,
  IsValue,
  KeyPlain,
  KeysOf,
  KeysPlain,
  LocalPlain,
  LocalsPlain,
  MembersPlain,
};

use core_means::Frame;
use identity_path::Input;
use swift_core::{EnvironmentKey, LocalType, Signature, SignatureForm, Table, Ty};
use value_tests::has_value;

/// Whether an input is a value of the type.
fn is_value(table: &Table, ty: &Ty, input: Option<&Input>) -> bool
    ensures value { IsTrue result ↔ IsValue table.now ty.now (option_copied input.entry) }
{
    match input {
        Some(Input::Value(value)) => has_value(table, ty, value),
        _ => false,
    }
}

/// Whether an input is a place.
fn is_place(input: Option<&Input>) -> bool
    ensures value { IsTrue result ↔ IsPlace (option_copied input.entry) }
{
    match input {
        Some(Input::Place(_)) => true,
        _ => false,
    }
}

/// Whether what a member of the view asks without places holds.
fn form_plain(table: &Table, frame: &Frame, form: &SignatureForm) -> bool
    ensures value { IsTrue result ↔ FormPlain table.now frame.now form.now }
{
    match form {
        SignatureForm::Stored(at, _, Some(ty), _) => {
            is_value(table, ty, frame.inputs.get(*at as usize))
        }
        SignatureForm::Binding(at, Some(_)) => is_place(frame.inputs.get(*at as usize)),
        _ => true,
    }
}

/// The same of each member.
#[tactic(auto, using(crate::proofs::Runs::members_start, crate::proofs::Runs::members_turn, crate::proofs::Runs::members_fail, crate::proofs::Runs::members_end))]
pub fn members_plain(table: &Table, frame: &Frame, members: &[Signature]) -> bool
    ensures value { IsTrue result ↔ MembersPlain table.now frame.now members.now }
{
    for i in 0..members.len() {
        if !form_plain(table, frame, &members[i].form) {
            return false;
        }
    }
    true
}

/// Whether the environment has a value of the type for the key of this number.
#[tactic(auto, using(crate::proofs::Runs::key_there, crate::proofs::Runs::key_past))]
fn has_key(table: &Table, frame: &Frame, at: usize, ty: &Ty) -> bool
    requires few { at < 1048576 }
    ensures value { IsTrue result ↔ HasAt (HasValue table.now ty.now) frame.now.env at }
{
    if at >= frame.env.len() {
        return false;
    }
    has_value(table, ty, frame.env.value(at as u32))
}

/// Whether the environment has a value for a key, if the key has a type.
#[tactic(auto, using(crate::proofs::Runs::key_typed, crate::proofs::Runs::key_untyped))]
fn key_plain(table: &Table, frame: &Frame, at: usize, key: &EnvironmentKey) -> bool
    requires few { at < 1048576 }
    ensures value { IsTrue result ↔ KeyPlain table.now frame.now at key.now }
{
    match &key.ty {
        Some(ty) => has_key(table, frame, at, ty),
        None => true,
    }
}

/// The same of each key.
#[tactic(auto, using(crate::proofs::Runs::keys_start, crate::proofs::Runs::keys_turn, crate::proofs::Runs::keys_fail, crate::proofs::Runs::keys_end))]
fn all_keys_plain(table: &Table, frame: &Frame, keys: &[EnvironmentKey]) -> bool
    requires few { length keys.now ≤ 1048576 }
    ensures value { IsTrue result ↔ KeysPlain table.now frame.now keys.now }
{
    for i in 0..keys.len() {
        if !key_plain(table, frame, i, &keys[i]) {
            return false;
        }
    }
    true
}

/// The same of the declared keys, where the code may use the frame of a view.
pub fn keys_plain(table: &Table, view: Option<u32>, frame: &Frame) -> bool
    requires few { length table.now.environment ≤ 1048576 }
    ensures value { IsTrue result ↔ KeysOf table.now view frame.now }
{
    match view {
        Some(_) => all_keys_plain(table, frame, table.environment.as_slice()),
        None => true,
    }
}

/// Whether a local is a value of its type, or a place where it is to be one.
fn local_plain(table: &Table, ty: &LocalType, input: &Input) -> bool
    ensures value { IsTrue result ↔ LocalPlain table.now (local_of ty.now) input.now }
{
    match ty {
        LocalType::Value(ty) => is_value(table, ty, Some(input)),
        LocalType::Place(_) => is_place(Some(input)),
    }
}

/// The same of each local. There are as many as the code says.
#[tactic(auto, using(crate::proofs::Runs::other_length, crate::proofs::Runs::locals_start, crate::proofs::Runs::locals_turn, crate::proofs::Runs::locals_fail, crate::proofs::Runs::locals_end))]
pub fn locals_plain(table: &Table, types: &[LocalType], locals: &[Input]) -> bool
    ensures value { IsTrue result ↔ LocalsPlain table.now (map local_of types.now) locals.now }
{
    if types.len() != locals.len() {
        return false;
    }
    for i in 0..types.len() {
        if !local_plain(table, &types[i], &locals[i]) {
            return false;
        }
    }
    true
}
