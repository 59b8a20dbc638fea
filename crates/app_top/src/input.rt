// The two files, read and judged.
ghost use Rattle.std.specs.Prelude.{◌≡◌, ◌≤◌, List, ℕ, length, Some, string_bytes, IfOk, IfErr};
ghost use Rattle.sv_io.specs.Counts.{WhenTold};
ghost use Rattle.view_engine.specs.Counter.{Shape, shape_of, IsInLimits};
ghost use Rattle.counter_form.specs.App.{SpellsApp};
ghost use Rattle.counter_form.specs.Script.{SpellsScript};
ghost use Rattle.app_top.specs.Ends.{limit, ReadEnd, InputEnd, AppJudged, ScriptJudged};
ghost use Rattle.app_top.specs.Output.{Input};

use crate::end::{End, FileOf, ScriptRefusal};
use crate::source::refused;
use counter_form::{FormFault, read_app, read_script};
use std::alloc::Global;
use sv_io::{ReadStop, Shelf, read_whole};
use view_engine::{Event, Form};

/// The bytes that a file may have.
const LIMIT: u64 = 1_048_576;

/// The bytes of a file.
pub fn fetch<F: Shelf>(
    alloc: Global,
    shelf: &mut F,
    name: &String,
    file: FileOf,
) -> Result<Vec<u8>, End>
    ensures holds { (F.seen shelf.new).holds ≡ (F.seen shelf.old).holds }
    ensures later { (F.seen shelf.old).faults ≤ (F.seen shelf.new).faults }
    ensures asked { IfOk result (λ _. (F.seen shelf.new).asked ≡ string_bytes name.now) }
    ensures count { IfOk result (λ bytes. ((F.seen shelf.new).offset ≤ limit) × (length bytes.items ≤ limit)) }
    ensures bytes { IfOk result (λ bytes. WhenTold (F.seen shelf.old).holds (λ files. files (string_bytes name.now) ≡ Some bytes.items)) }
    ensures end { IfErr result (λ end. ReadEnd end file (string_bytes name.now) (F.seen shelf.old) (F.seen shelf.new)) }
{
    let Ok(name) = name.clone() else {
        return Err(End::OutOfMemory);
    };
    match read_whole(alloc, shelf, name, LIMIT) {
        Ok(bytes) => Ok(bytes),
        Err(ReadStop::OutOfMemory) => Err(End::OutOfMemory),
        Err(ReadStop::Failed) => Err(End::CannotRead { file }),
        Err(ReadStop::TooLong { taken }) => Err(End::TooLong { file, taken }),
    }
}

/// The program that the bytes of APP spell.
fn program(alloc: Global, bytes: &[u8]) -> Result<Form, End>
    requires short { length bytes.now ≤ limit }
    ensures spelt { IfOk result (λ form. SpellsApp bytes.now (shape_of form)) }
    ensures limits { IfOk result (λ form. IsInLimits (shape_of form)) }
    ensures end { IfErr result (λ end. AppJudged end bytes.now) }
{
    match read_app(alloc, bytes) {
        Ok(form) => Ok(form),
        Err(FormFault::OutOfMemory) => Err(End::OutOfMemory),
        Err(FormFault::NotInThisForm) => Err(refused(alloc, bytes)),
    }
}

/// The events that the bytes of SCRIPT spell.
fn events(alloc: Global, bytes: &[u8]) -> Result<Vec<Event>, End>
    ensures spelt { IfOk result (λ events. SpellsScript bytes.now events.items) }
    ensures end { IfErr result (λ end. ScriptJudged end bytes.now) }
{
    match read_script(alloc, bytes) {
        Ok(events) => Ok(events),
        Err(FormFault::OutOfMemory) => Err(End::OutOfMemory),
        Err(FormFault::NotInThisForm) => Err(End::ScriptRefused {
            refusal: ScriptRefusal::NotThisScript,
        }),
    }
}

/// The program and the events of the two files. APP is judged before SCRIPT is read.
pub fn inputs<F: Shelf>(
    alloc: Global,
    shelf: &mut F,
    app: &String,
    script: &String,
) -> Result<(Form, Vec<Event>), End>
    ensures asked { IfOk result (λ _. ((F.seen shelf.new).asked ≡ string_bytes script.now) × ((F.seen shelf.new).offset ≤ limit)) }
    ensures limits { IfOk result (λ pair. IsInLimits (shape_of pair.0) × (length pair.1.items ≤ 10000)) }
    ensures input { IfOk result (λ pair. WhenTold (F.seen shelf.old).holds (λ files.
        Input files (record { app = string_bytes app.now; script = string_bytes script.now }) (shape_of pair.0) pair.1.items)) }
    ensures end { IfErr result (λ end. InputEnd end (record { app = string_bytes app.now; script = string_bytes script.now }) (F.seen shelf.old) (F.seen shelf.new)) }
{
    let app_bytes = fetch(alloc, shelf, app, FileOf::App)?;
    let form = program(alloc, &app_bytes)?;
    let script_bytes = fetch(alloc, shelf, script, FileOf::Script)?;
    let events = events(alloc, &script_bytes)?;
    Ok((form, events))
}
