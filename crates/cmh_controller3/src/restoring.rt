//! Putting a state into a controller, one fact at a time.
//!
//! What a controller keeps is lawful after each of them. So the facts go in by this order: the clock, stamps, waits, and then
//! the others.

ghost use Rattle.std.specs.Prelude.{◌≡◌, ◌↔◌, ◌≤◌, true, IfErr, IfOk, IsTrue, OnErr};
ghost use Rattle.cmh_model3.specs.State.{is_blocked};
ghost use Rattle.cmh_controller3.specs.Controller.{home_of, state_of};
ghost use Rattle.cmh_controller3.specs.Restoring.{ForbidsFact, MayLeave, MayOwe, MayStamp, MayWait, RefusesFact, Takes, with_clock, with_declared, with_leaving, with_mark, with_owed, with_stamp, with_wait};

use crate::changes::stamp_at;
use crate::controller::{Controller, MOST_WAITS};
use crate::refusal::Refusal;
use cmh_model3::{ProcId, Stamp};

impl Controller {
    /// Sets the clock, but not back. It takes no memory.
    pub fn put_clock(&mut self, clock: Stamp) -> Result<(), Refusal>
        ensures ok { IfOk result (λ _. Takes ((state_of self.old).clock ≤ clock)
            (with_clock (state_of self.old) clock) self.old self.new) }
        ensures refused { IfErr result (ForbidsFact ((state_of self.old).clock ≤ clock)) }
        ensures err { OnErr result (self.new ≡ self.old) }
    {
        if clock < self.clock {
            return Err(Refusal::Unlawful);
        }
        self.clock = clock;
        Ok(())
    }

    /// The stamp of the newest ask of a process. It takes no memory.
    pub fn put_stamp(&mut self, process: ProcId, stamp: Stamp) -> Result<(), Refusal>
        ensures ok { IfOk result (λ _. Takes
            (MayStamp (home_of self.old) self.old.site (state_of self.old) process stamp)
            (with_stamp (state_of self.old) process stamp) self.old self.new) }
        ensures refused { IfErr result (ForbidsFact
            (MayStamp (home_of self.old) self.old.site (state_of self.old) process stamp)) }
        ensures err { OnErr result (self.new ≡ self.old) }
    {
        if !self.may_stamp(process, stamp) {
            return Err(Refusal::Unlawful);
        }
        self.stamps[process.get() as usize] = stamp;
        Ok(())
    }

    /// That a process waits for another, since the ask with this stamp.
    pub fn put_wait(&mut self, asker: ProcId, target: ProcId, since: Stamp) -> Result<(), Refusal>
        ensures ok { IfOk result (λ _. Takes
            (MayWait (home_of self.old) self.old.site (state_of self.old) asker target since)
            (with_wait (home_of self.old) self.old.site (state_of self.old) asker target since) self.old self.new) }
        ensures refused { IfErr result (RefusesFact
            (MayWait (home_of self.old) self.old.site (state_of self.old) asker target since)) }
        ensures err { OnErr result (self.new ≡ self.old) }
    {
        if !self.may_wait(asker, target, since) {
            return Err(Refusal::Unlawful);
        }
        let Ok(()) = self.waits.begin(asker, &[target], since) else {
            return Err(Refusal::Memory);
        };
        Ok(())
    }

    /// That a process has given up its wait for one of another site, which has not answered yet.
    pub fn put_leaving(&mut self, asker: ProcId, target: ProcId) -> Result<(), Refusal>
        ensures ok { IfOk result (λ _. Takes (MayLeave (home_of self.old) self.old.site asker target)
            (with_leaving (state_of self.old) asker target) self.old self.new) }
        ensures refused { IfErr result (RefusesFact (MayLeave (home_of self.old) self.old.site asker target)) }
        ensures err { OnErr result (self.new ≡ self.old) }
    {
        if !self.may_leave(asker, target) {
            return Err(Refusal::Unlawful);
        }
        let Ok(()) = self.leaving.add(asker, target) else {
            return Err(Refusal::Memory);
        };
        Ok(())
    }

    /// That a process owes another a reply. Between two processes of the site the wait is what is owed, so it must be there.
    pub fn put_owed(&mut self, holder: ProcId, asker: ProcId) -> Result<(), Refusal>
        ensures ok { IfOk result (λ _. Takes
            (MayOwe (home_of self.old) self.old.site (state_of self.old) holder asker)
            (with_owed (state_of self.old) holder asker) self.old self.new) }
        ensures refused { IfErr result (RefusesFact
            (MayOwe (home_of self.old) self.old.site (state_of self.old) holder asker)) }
        ensures err { OnErr result (self.new ≡ self.old) }
    {
        if !self.may_owe(holder, asker) {
            return Err(Refusal::Unlawful);
        }
        if self.is_here(asker) {
            return Ok(());
        }
        let Ok(()) = self.owed.add(holder, asker) else {
            return Err(Refusal::Memory);
        };
        Ok(())
    }

    /// The greatest stamp of a probe of the origin that went on at a process, which is blocked.
    pub fn put_mark(&mut self, at: ProcId, origin: ProcId, stamp: Stamp) -> Result<(), Refusal>
        ensures ok { IfOk result (λ _. Takes (is_blocked (state_of self.old) at ≡ true)
            (with_mark (state_of self.old) at origin stamp) self.old self.new) }
        ensures refused { IfErr result (RefusesFact (is_blocked (state_of self.old) at ≡ true)) }
        ensures err { OnErr result (self.new ≡ self.old) }
    {
        if !self.waits.is_blocked(at) {
            return Err(Refusal::Unlawful);
        }
        let Ok(()) = self.marks.put(at, origin, stamp) else {
            return Err(Refusal::Memory);
        };
        Ok(())
    }

    /// That a process, which is blocked, is declared deadlocked. It takes no memory.
    pub fn put_declared(&mut self, process: ProcId) -> Result<(), Refusal>
        ensures ok { IfOk result (λ _. Takes (is_blocked (state_of self.old) process ≡ true)
            (with_declared (state_of self.old) process) self.old self.new) }
        ensures refused { IfErr result (ForbidsFact (is_blocked (state_of self.old) process ≡ true)) }
        ensures err { OnErr result (self.new ≡ self.old) }
    {
        if !self.waits.is_blocked(process) {
            return Err(Refusal::Unlawful);
        }
        self.declared[process.get() as usize] = true;
        Ok(())
    }

    // ---- which facts it takes

    fn may_stamp(&self, process: ProcId, stamp: Stamp) -> bool
        ensures { IsTrue result ↔ MayStamp (home_of self.now) self.now.site (state_of self.now) process stamp }
    {
        self.is_here(process) && stamp_at(&self.stamps, process) <= stamp && stamp <= self.clock
    }

    fn may_wait(&self, asker: ProcId, target: ProcId, since: Stamp) -> bool
        ensures { IsTrue result ↔ MayWait (home_of self.now) self.now.site (state_of self.now) asker target since }
    {
        self.is_here(asker)
            && self.topology.is_known(target)
            && target != asker
            && !self.waits_for(asker, target)
            && self.waits.waits_of(asker).len() < MOST_WAITS
            && since <= stamp_at(&self.stamps, asker)
    }

    fn may_leave(&self, asker: ProcId, target: ProcId) -> bool
        ensures { IsTrue result ↔ MayLeave (home_of self.now) self.now.site asker target }
    {
        self.is_here(asker) && self.topology.is_known(target) && !self.is_here(target)
    }

    fn may_owe(&self, holder: ProcId, asker: ProcId) -> bool
        ensures { IsTrue result ↔ MayOwe (home_of self.now) self.now.site (state_of self.now) holder asker }
    {
        self.is_here(holder)
            && self.topology.is_known(asker)
            && (!self.is_here(asker) || self.waits_for(asker, holder))
    }
}
