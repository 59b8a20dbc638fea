// The frames of a run, one after another.
ghost use Rattle.std.specs.Prelude.{◌≡◌, ◌+◌, ◌<◌, ◌≤◌, ◌*◌, ◌++◌, [], ◌∷◌, ℕ, length, take, drop, false, codes, decimal, IfOk, IsErrOf, OnOk, OnErr};
ghost use Rattle.app_top.specs.declared.frames.PlayStop.TheVariants.{OutOfMemory, WriteFailed};
ghost use Rattle.sv_io.specs.Counts.{Rose};
ghost use Rattle.sv_io.specs.Sink.{SentAll, SentPart};
ghost use Rattle.app_top.specs.Output.{frame_text, frames, bodies_run};
ghost use Rattle.view_engine.specs.Joined.{joined};
ghost use Rattle.view_engine.specs.Counter.{shape_of, runs_at, IsInLimits};
ghost use Rattle.view_engine.specs.Moments.{delivered, first_of};

use std::alloc::{AllocError, Global};
use std::sync::ledger::Ledger;
use sv_io::{Sink, SinkFault, write_whole};
use sv_meter::Steps;
use view_engine::{Engine, Event, Form, Halt, Size};

/// Adds the rows of a canvas, each a line.
fn push_rows(text: &mut Vec<u8>, cells: &[u8]) -> Result<(), AllocError>
    requires { 1920 ≤ length cells.now }
    ensures { OnOk result (text.new.items ≡ text.old.items ++ joined (λ y. take 80 (drop (80 * y) cells.now) ++ 10 ∷ []) 24) }
{
    for y in 0..24 {
        let row = &cells[80 * y..80 * y + 80];
        text.extend_from_slice(row)?;
        text.push(b'\n')?;
    }
    Ok(())
}

/// The text of a frame.
#[tactic(auto, using(std::proofs::Common::append_assoc))]
fn frame(alloc: Global, k: u64, cells: &[u8]) -> Result<Vec<u8>, AllocError>
    requires { 1920 ≤ length cells.now }
    ensures { IfOk result (λ text. text.items ≡ codes "frame " ++ decimal k ++ 10 ∷ [] ++ joined (λ y. take 80 (drop (80 * y) cells.now) ++ 10 ∷ []) 24) }
{
    let mut text = Vec::with_capacity(alloc, 2000)?;
    text.extend_from_slice(format!(in alloc; "frame {k}\n")?.as_bytes())?;
    push_rows(&mut text, cells)?;
    Ok(text)
}

/// Why the frames didn't go out whole.
#[derive(Clone, Copy, Debug, PartialEq, Eq)]
pub enum PlayStop {
    OutOfMemory,
    WriteFailed,
}

impl From<AllocError> for PlayStop {
    ghost from_gives = { λ _ e. e ≡ OutOfMemory };

    fn from(_: AllocError) -> Self {
        PlayStop::OutOfMemory
    }
}

impl From<SinkFault> for PlayStop {
    ghost from_gives = { λ _ e. e ≡ WriteFailed };

    fn from(_: SinkFault) -> Self {
        PlayStop::WriteFailed
    }
}

/// Writes the frame of the last settled moment.
fn send<O: Sink>(alloc: Global, k: u64, engine: &Engine, out: &mut O) -> Result<(), PlayStop>
    ensures sent { OnOk result (SentAll (O.seen out.old).wrote (O.seen out.new).wrote (frame_text k engine.now.shape engine.now.number)) }
    ensures part { OnErr result (SentPart (O.seen out.old).wrote (O.seen out.new).wrote (frame_text k engine.now.shape engine.now.number)) }
    ensures cause { IsErrOf result PlayStop.WriteFailed → Rose (O.seen out.old).faults (O.seen out.new).faults }
    ensures later { (O.seen out.old).faults ≤ (O.seen out.new).faults }
{
    let canvas = engine.frame();
    let text = frame(alloc, k, &canvas.cells)?;
    write_whole(out, &text)?;
    Ok(())
}

/// Launches the program. Only memory can stop it.
fn start<B: Ledger, V: Ledger>(
    alloc: Global,
    form: Form,
    bodies: &mut Steps<B>,
    visits: &mut Steps<V>,
) -> Result<Engine, AllocError>
    requires { IsInLimits (shape_of form) }
    ensures first { IfOk result (λ engine. engine ≡ first_of (shape_of form)) }
    ensures ran { OnOk result (bodies.new ≡ bodies.old + 2) }
    ensures visits { visits.new ≡ visits.old }
{
    match Engine::launch(alloc, form, Size { w: 80, h: 24 }, bodies, visits) {
        Ok(engine) => Ok(engine),
        Err(_) => Err(AllocError),
    }
}

/// Delivers one event. Only memory can stop it.
fn advance<B: Ledger, V: Ledger>(
    engine: &mut Engine,
    event: &Event,
    bodies: &mut Steps<B>,
    visits: &mut Steps<V>,
) -> Result<(), AllocError>
    requires live { engine.old.halted ≡ false }
    requires left { engine.old.deliveries < 1000000 }
    ensures next { OnOk result (engine.new ≡ delivered engine.old event.now) }
    ensures ran { OnOk result (bodies.new ≡ bodies.old + runs_at engine.old.shape event.now) }
    ensures visits { visits.new ≡ visits.old }
{
    match engine.deliver(event, bodies, visits) {
        Ok(_) => Ok(()),
        Err(Halt::OutOfMemory) => Err(AllocError),
        Err(Halt::Ended) => unreachable!(),
        Err(Halt::Spent { .. }) => unreachable!(),
    }
}

/// Writes a frame after launch and one after each event.
pub fn play<O: Sink, B: Ledger, V: Ledger>(
    alloc: Global,
    form: Form,
    events: &[Event],
    out: &mut O,
    bodies: &mut Steps<B>,
    visits: &mut Steps<V>,
) -> Result<(), PlayStop>
    requires limits { IsInLimits (shape_of form) }
    requires few { length events.now ≤ 10000 }
    ensures sent { OnOk result (SentAll (O.seen out.old).wrote (O.seen out.new).wrote (frames (shape_of form) events.now)) }
    ensures ran { OnOk result (bodies.new ≡ bodies.old + bodies_run (shape_of form) events.now) }
    ensures visits { visits.new ≡ visits.old }
    ensures part { OnErr result (SentPart (O.seen out.old).wrote (O.seen out.new).wrote (frames (shape_of form) events.now)) }
    ensures cause { IsErrOf result PlayStop.WriteFailed → Rose (O.seen out.old).faults (O.seen out.new).faults }
    ensures later { (O.seen out.old).faults ≤ (O.seen out.new).faults }
{
    let mut engine = start(alloc, form, bodies, visits)?;
    send(alloc, 0, &engine, out)?;
    let mut k = 0;
    for event in events {
        advance(&mut engine, event, bodies, visits)?;
        k += 1;
        send(alloc, k, &engine, out)?;
    }
    Ok(())
}
