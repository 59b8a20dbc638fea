// A script of taps.
ghost use Rattle.std.specs.Prelude.{◌≡◌, ◌≤◌, List, ℕ, IfOk, IfErr, MatchOption, length};
ghost use Rattle.view_engine.specs.declared.form.Event.{Event};
ghost use Rattle.counter_form.specs.Script.{SpellsTap, SpellsTaps, SpellsScript};
ghost use Rattle.counter_form.specs.Faults.{ScriptFault, NoScript};
ghost use Rattle.counter_form.specs.declared.app.FormFault.TheVariants.{OutOfMemory};

use crate::app::FormFault;
use crate::pieces::{Piece, cut, number};
use std::alloc::{AllocFailed, Global};
use view_engine::Event;

/// The taps that a script may have.
const MOST: usize = 10_000;

impl From<AllocFailed<Event>> for FormFault {
    ghost from_gives = { λ _ e. e ≡ OutOfMemory };

    fn from(_: AllocFailed<Event>) -> Self {
        FormFault::OutOfMemory
    }
}

/// A line `tap X Y` at the front: its event, and what stands behind it.
fn tap(bytes: &[u8]) -> Option<(Event, &[u8])>
    ensures { MatchOption result ((event : Event) (rest : List ℕ) → SpellsTap event bytes.now rest → ⊥) (λ found. SpellsTap found.0 bytes.now found.1.now) }
{
    let (_, rest) = cut(bytes, Piece::Tap)?;
    let (x, rest) = cut(rest, Piece::Gap)?;
    let (y, rest) = cut(rest, Piece::TapEnd)?;
    let event = Event::Tap {
        x: number(x) as u32,
        y: number(y) as u32,
    };
    Some((event, rest))
}

/// The events that the bytes spell.
pub fn read_script(alloc: Global, bytes: &[u8]) -> Result<Vec<Event>, FormFault>
    ensures spelt { IfOk result (λ events. SpellsScript bytes.now events.items) }
    ensures only { IfOk result (λ events. (others : List Event) → SpellsScript bytes.now others → others ≡ events.items) }
    ensures fault { IfErr result (λ fault. ScriptFault fault bytes.now) }
{
    let mut events = Vec::new(alloc);
    let mut rest = bytes;
    while !rest.is_empty() {
        let Some((event, behind)) = tap(rest) else {
            return Err(FormFault::NotInThisForm);
        };
        if events.len() == MOST {
            return Err(FormFault::NotInThisForm);
        }
        events.push(event)?;
        rest = behind;
    }
    Ok(events)
}
