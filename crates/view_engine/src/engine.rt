// The engine: a program, its number and its last settled frame.
ghost use Rattle.std.specs.Prelude.{◌≡◌, ◌+◌, ◌*◌, ◌<◌, ◌≤◌, true, false, length, IfOk, OnOk, IfErr};
ghost use Rattle.view_engine.specs.Counter.{Shape, shape_of, hits, gain, runs_at, IsInLimits};
ghost use Rattle.view_engine.specs.Moments.{Moment, delivered, stopped, HaltedBy, IsRunning, Shows, first_of};

use crate::form::{Canvas, Event, Form, Halt, Settled, Size};
use crate::paint::paint;
use std::alloc::Global;
use std::marker::Model;
use std::sync::ledger::Ledger;
use sv_meter::Steps;

/// The deliveries that an engine makes.
const MOST: u64 = 1_000_000;

/// Whether the event is a tap on the button.
fn is_hit(form: &Form, event: Event) -> bool
    requires { length form.now.label.items ≤ 40 }
    ensures { result ≡ hits (shape_of form.now) event }
{
    let Event::Tap { x, y } = event;
    let width = form.label.len() as u32 + 2;
    let left = 40 - width / 2;
    y == 12 && left <= x && x < left + width
}

/// What the event adds to the number.
fn gain_of(form: &Form, event: Event) -> u64
    requires { length form.now.label.items ≤ 40 }
    ensures gain { result ≡ gain (shape_of form.now) event }
    ensures small { result ≤ form.now.step }
{
    if is_hit(form, event) { form.step } else { 0 }
}

/// A program that runs.
#[derive(Drop)]
pub struct Engine {
    alloc: Global,
    form: Form,
    number: u64,
    canvas: Canvas,
    deliveries: u64,
    halted: bool,
}

impl Model for Engine {
    ghost use Rattle.view_engine.specs.Counter.{shape_of};
    ghost use Rattle.view_engine.specs.Moments.{Moment, IsRunning, Shows};

    ghost Value = { Moment };

    ghost view = { λ e. record { shape = shape_of e.form; number = e.number; deliveries = e.deliveries; halted = e.halted } };

    ghost invariant = { λ e. Shows e.canvas (shape_of e.form) e.number × IsRunning (shape_of e.form) e.number e.deliveries };
}

impl Engine {
    /// Launches a program on a canvas of 80 columns and 24 rows: its first frame shows its first number.
    /// Two bodies run, that of the program and that of its view.
    pub fn launch<B: Ledger, V: Ledger>(
        alloc: Global,
        form: Form,
        canvas: Size,
        bodies: &mut Steps<B>,
        visits: &mut Steps<V>,
    ) -> Result<Engine, Halt>
        requires form { IsInLimits (shape_of form) }
        requires width { canvas.w ≡ 80 }
        requires height { canvas.h ≡ 24 }
        ensures first { IfOk result (λ engine. engine ≡ first_of (shape_of form)) }
        ensures ran { bodies.new ≡ bodies.old + 2 }
        ensures visits { visits.new ≡ visits.old }
        ensures halt { IfErr result (λ halt. halt ≡ Halt.OutOfMemory) }
    {
        bodies.tick();
        bodies.tick();
        let canvas = paint(alloc, &form, form.init)?;
        let number = form.init;
        Ok(Engine {
            alloc,
            form,
            number,
            canvas,
            deliveries: 0,
            halted: false,
        })
    }

    /// Delivers an event. After a halt the last settled frame can still be read, and each further delivery answers `Ended`.
    pub fn deliver<B: Ledger, V: Ledger>(
        &mut self,
        event: &Event,
        bodies: &mut Steps<B>,
        visits: &mut Steps<V>,
    ) -> Result<Settled, Halt>
        ensures next { OnOk result (self.new ≡ delivered self.old event.now) }
        ensures live { OnOk result ((self.old.halted ≡ false) × (self.old.deliveries < 1000000)) }
        ensures rounds { IfOk result (λ settled. settled.rounds ≡ 1) }
        ensures ran { OnOk result (bodies.new ≡ bodies.old + runs_at self.old.shape event.now) }
        ensures visits { visits.new ≡ visits.old }
        ensures halt { IfErr result (λ halt. HaltedBy halt self.old self.new) }
    {
        if self.halted {
            return Err(Halt::Ended);
        }
        self.halted = true;
        if self.deliveries >= MOST {
            return Err(Halt::Spent {
                deliveries: self.deliveries,
            });
        }
        let gain = gain_of(&self.form, *event);
        let canvas = paint(self.alloc, &self.form, self.number + gain)?;
        if gain != 0 {
            bodies.tick();
        }
        self.number += gain;
        self.canvas = canvas;
        self.deliveries += 1;
        self.halted = false;
        Ok(Settled { rounds: 1 })
    }

    /// The frame of the last settled moment.
    pub fn frame(&self) -> &Canvas
        ensures { Shows result.now self.now.shape self.now.number }
    {
        &self.canvas
    }

    /// Whether a delivery halted.
    pub fn halted(&self) -> bool
        ensures { result ≡ self.now.halted }
    {
        self.halted
    }

    /// The deliveries so far.
    pub fn deliveries(&self) -> u64
        ensures { result ≡ self.now.deliveries }
    {
        self.deliveries
    }
}
