//! The machine of a site that has a clock alone.

ghost use Rattle.std.specs.Prelude.{◌≡◌, IfOk, None};
ghost use Rattle.cmh_lab_machine.specs.Clocks.{transitions};

use cmh_machine::{Machine, NotPrepared, Record};
use cmh_runs::{Entry, Outcome, Sendings, SiteId};
use std::alloc::{AllocError, Global};
use std::marker::Model;

/// A frame: the clock of its sender.
#[derive(Clone, Copy, PartialEq, Eq)]
pub struct Frame {
    pub clock: u8,
}

/// What happens at a site.
#[derive(Clone, Copy)]
pub enum Event {
    /// The clock ticks, and is told to a site.
    Tell { to: SiteId },
    /// A frame came, and the clock goes on to what it tells.
    Got { from: SiteId, frame: Frame },
    /// The clock is set forward.
    Turn { clock: u8 },
}

/// Why an event is refused.
#[derive(Clone, Copy)]
pub enum Refusal {
    /// The clock stands at its greatest.
    Spent,
    /// The clock would not go forward.
    Late,
}

/// A clock.
#[derive(Drop)]
pub struct Clock {
    alloc: Global,
    time: u8,
}

impl Model for Clock {
    ghost use Rattle.std.specs.Prelude.{ℕ};

    ghost Value = { ℕ };

    ghost view = { λ c. c.time };
}

impl Clock {
    pub fn new(alloc: Global, time: u8) -> Self
        ensures { result ≡ time }
    {
        Clock { alloc, time }
    }

    pub fn time(&self) -> u8
        ensures { result ≡ self.now }
    {
        self.time
    }

    /// The clock after an event that is accepted.
    fn after(&self, event: &Event) -> u8
        requires { transitions.Accepts self.now event.now }
        ensures { result ≡ transitions.after self.now event.now None }
    {
        match event {
            Event::Tell { .. } => self.time + 1,
            Event::Got { frame, .. } => self.time.max(frame.clock),
            Event::Turn { clock } => *clock,
        }
    }

    /// What an event that is accepted sends.
    fn sent(&self, event: &Event) -> Result<Sendings<Frame>, AllocError>
        requires { transitions.Accepts self.now event.now }
        ensures { IfOk result (λ sent. transitions.Sends self.now event.now sent None) }
    {
        let mut frames = Vec::new(self.alloc);
        if let Event::Tell { to } = event {
            frames.push((
                *to,
                Frame {
                    clock: self.time + 1,
                },
            ))?;
        }
        Ok(Sendings::new(frames))
    }
}

impl Machine<Event, Frame> for Clock {
    ghost use Rattle.std.specs.Prelude.{ℕ, ◌≡◌, None};
    ghost use Rattle.cmh_lab_machine.specs.Clocks.{IsPrepared, clock_meaning};

    type Base = u8;

    type Refusal = Refusal;

    type Outcome = Outcome<Frame>;

    type Prepared = Outcome<Frame>;

    type WayBack = u8;

    ghost State = { ℕ };

    ghost meaning = { clock_meaning };

    ghost outcome = { λ half. half };

    ghost IsBetween = { IsPrepared };

    ghost LeadsBack = { λ v entry way. way ≡ v };

    fn check(&self, event: &Event) -> Result<(), Refusal> {
        match event {
            Event::Tell { .. } if self.time == u8::MAX => Err(Refusal::Spent),
            Event::Turn { clock } if *clock <= self.time => Err(Refusal::Late),
            _ => Ok(()),
        }
    }

    fn prepare(&mut self, event: &Event) -> Result<Outcome<Frame>, NotPrepared<Refusal>> {
        match self.check(event) {
            Ok(()) => {}
            Err(refusal) => return Err(NotPrepared::Rule(refusal)),
        }
        let Ok(sent) = self.sent(event) else {
            return Err(NotPrepared::Memory);
        };
        Ok(Outcome {
            sent,
            declared: None,
        })
    }

    fn carry_out(&mut self, event: &Event, _half: &Outcome<Frame>) {
        self.time = self.after(event);
    }

    fn take_back(&mut self, _event: &Event, _half: Outcome<Frame>) {}

    fn way_back(
        &self,
        _alloc: Global,
        _event: &Event,
        _half: &Outcome<Frame>,
    ) -> Result<u8, AllocError> {
        Ok(self.time)
    }

    fn undo(&mut self, _entry: &Entry<Event, Frame>, way: u8) {
        self.time = way;
    }

    fn into_outcome(half: Outcome<Frame>) -> Outcome<Frame> {
        half
    }

    fn entry(
        &self,
        alloc: Global,
        event: &Event,
        half: &Outcome<Frame>,
    ) -> Result<Entry<Event, Frame>, AllocError> {
        Ok(Entry {
            event: *event,
            sent: half.sent.copy(alloc)?,
            declared: half.declared,
        })
    }

    fn spell(
        &self,
        alloc: Global,
        event: &Event,
        _half: &Outcome<Frame>,
    ) -> Result<Record, AllocError> {
        let mut bytes = Vec::new(alloc);
        bytes.push(self.after(event))?;
        Ok(Record::new(bytes))
    }
}
