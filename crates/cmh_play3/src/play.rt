//! The command `play --edition 3`: all sites of a world in memory, driven by a script.

ghost use Rattle.std.specs.Prelude.{◌≡◌, ◌≢◌, ◌⊎◌, ℕ, List, [], false, true, IfOk, IfErr, IfSome, MatchOption, OnOk, OnErr};
ghost use Rattle.std.specs.Io.KnownBytes.{Keeps};
ghost use Rattle.cmh_console.specs.Dialogue.{IsDialogueFault, line_of};
ghost use Rattle.cmh_console.specs.Faults.{NamesFault};
ghost use Rattle.cmh_console.specs.Status.{IsStatus};
ghost use Rattle.cmh_model3.specs.Entries as model;
ghost use Rattle.cmh_play3.specs.Held.{IsPlayed, IsShown, Leads, LeadsTo, ShowsSome, shown};
ghost use Rattle.cmh_play3.specs.Inner.Shown.{GetsNothing, IsHeld, IsNewHeld, LeadsOn};
ghost use Rattle.cmh_play3.specs.Play.{Answered, IsWorldOf, PlayedTo, Replies, as_fault, status_after};
ghost use Rattle.cmh_play3.specs.World.{CarriesOut};
ghost use Rattle.cmh_script3.specs.Script.{Says};

use crate::answer::write_reply;
use crate::draft::Draft;
use crate::playground::Playground;
use crate::reply::Reply;
use cmh_console::{Ahead, DialogueFault, Fault, Input, NextLine, Output, WriteFault};
use cmh_script3::{Command, Line, parse, read_line};
use cmh_topology3::SiteRow;
use std::alloc::{AllocError, Global};
use std::io::{BufRead, Write};

/// Plays a script of edition 3, and answers the status of the program: 0 at the script's end, 1 where memory ran out, 3
/// where the script can't be read or the answers can't be written. A fault is named on `err`, and a write to it that
/// fails is ignored. Each answer is flushed before the command waits for more of the script.
pub fn run_play3<R: BufRead + Ahead, W: Write, E: Write>(
    alloc: Global,
    input: &mut Input<R>,
    out: &mut Output<W>,
    err: &mut Output<E>,
) -> u8
    ensures status { IsStatus result }

    // What is written answers the script line by line. Where the status is 0, all answers were written, and no write failed.
    ensures answers { IfSome input.old.left (λ bytes. Answered bytes out.old.written
        out.new.written out.new.has_failed result) }
    ensures silent { result ≡ 0 → err.new ≡ err.old }

    // What was written is flushed, also before a fault.
    ensures flushed { result ≡ 0 → out.new.is_flushed ≡ true }
    ensures unfailed { result ≡ 0 → out.new.has_failed ≡ out.old.has_failed }
    ensures left { out.new.has_failed ≡ false → (out.new.is_flushed ≡ true) ⊎ (out.new ≡ out.old) }
    ensures fault { result ≢ 0 → NamesFault as_fault (IsDialogueFault input.old.left input.new.has_failed
        out.new.has_failed) result err.old err.new }
{
    match play_script(alloc, input, out) {
        Ok(_) => 0,
        Err(fault) => fault_of(fault).name_on(err),
    }
}

/// The fault that ends the command.
pub fn fault_of(fault: DialogueFault) -> Fault
    ensures { result ≡ as_fault fault }
{
    match fault {
        DialogueFault::Input => Fault::Input,
        DialogueFault::Output => Fault::Output,
        DialogueFault::Memory => Fault::Memory,
    }
}

/// Plays a script to its end, and answers the state to which it leads. What was written is flushed, also before a fault.
pub fn play_script<R: BufRead + Ahead, W: Write>(
    alloc: Global,
    input: &mut Input<R>,
    out: &mut Output<W>,
) -> Result<PlayState, DialogueFault>
    ensures answers { IfSome input.old.left (λ bytes. Answered bytes out.old.written
        out.new.written out.new.has_failed (status_after result)) }
    ensures played { IfOk result (λ state. ShowsSome state (λ last. IfSome input.old.left (λ bytes.
        PlayedTo bytes out.old.written out.new.written last))) }
    ensures fault { IfErr result (IsDialogueFault input.old.left input.new.has_failed out.new.has_failed) }
    ensures flushed { OnOk result (out.new.is_flushed ≡ true) }
    ensures unfailed { OnOk result (out.new.has_failed ≡ out.old.has_failed) }
    ensures left { out.new.has_failed ≡ false → (out.new.is_flushed ≡ true) ⊎ (out.new ≡ out.old) }
{
    let draft = Draft::new(alloc)?;
    let mut state = PlayState::Named(draft);
    let played = answer_all(alloc, &mut state, input, out);
    let flushed = out.flush();
    played?;
    flushed?;
    Ok(state)
}

/// Reads and answers line after line.
fn answer_all<R: BufRead + Ahead, W: Write>(
    alloc: Global,
    state: &mut PlayState,
    input: &mut Input<R>,
    out: &mut Output<W>,
) -> Result<(), DialogueFault>
    requires { IsNewHeld state.old }
    ensures answers { IfSome input.old.left (λ bytes. Answered bytes out.old.written
        out.new.written out.new.has_failed 1) }
    ensures all { OnOk result (ShowsSome state.new (λ last. IfSome input.old.left (λ bytes.
        PlayedTo bytes out.old.written out.new.written last))) }
    ensures unfailed { OnOk result (out.new.has_failed ≡ out.old.has_failed) }
    ensures fault { IfErr result (IsDialogueFault input.old.left input.new.has_failed out.new.has_failed) }
{
    let mut buffer = Vec::new(alloc);
    for turn in 0..u64::MAX {
        let next = read_line(input, &mut buffer)?;
        if next.is_end() {
            return Ok(());
        }
        let said = said_by(alloc, next)?;
        let reply = state.answer(alloc, said)?;
        write_reply(out, &reply)?;
        flush_awaited(out, input.has_line())?;
    }
    Err(DialogueFault::Input)
}

/// Flushes the answers so far, but where a whole line is at hand: its answer is flushed with them.
fn flush_awaited<W: Write>(out: &mut Output<W>, has_line: bool) -> Result<(), WriteFault>
    ensures bytes { Keeps out.old.written out.new.written }
    ensures ok { OnOk result (out.new.has_failed ≡ out.old.has_failed) }
    ensures flushed { has_line ≡ false → OnOk result (out.new.is_flushed ≡ true) }
    ensures err { OnErr result (out.new.has_failed ≡ true) }
{
    if has_line { Ok(()) } else { out.flush() }
}

/// What a line says; one that is too long is a bad one.
fn said_by(alloc: Global, next: NextLine<'_>) -> Result<Line, AllocError>
    ensures said { IfOk result (λ said. MatchOption (line_of next.entry) (said ≡ Line.Bad) (λ bytes. Says bytes said)) }
    ensures own { IfOk result GetsNothing }
{
    match next {
        NextLine::Line(line) => parse(alloc, line),
        NextLine::TooLong | NextLine::End => Ok(Line::Bad),
    }
}

/// A world that a script names and then plays: the first command closes the draft.
#[derive(Drop)]
pub enum PlayState {
    Named(Draft),
    Played(Playground),
}

impl PlayState {
    /// The world that is played; where there was no command, one in which nothing has happened yet. The only error is out
    /// of memory.
    pub fn into_world(self, alloc: Global) -> Result<Playground, AllocError>
        ensures { IfOk result (λ held. (events : List model.WorldEvent) → IsShown events self
            → LeadsTo held (IsWorldOf (shown self events))) }
    {
        match self {
            PlayState::Played(world) => Ok(world),
            PlayState::Named(draft) => Playground::new(alloc, draft.topology()),
        }
    }

    /// What a line does, and its reply.
    fn answer(&mut self, alloc: Global, line: Line) -> Result<Reply, AllocError>
        requires shown { IsHeld self.old }
        requires own { GetsNothing line }
        ensures { IfOk result (λ reply. LeadsOn (λ old new. Replies old new line reply) self.old self.new) }
    {
        match line {
            Line::Silent => Ok(Reply::Silent),
            Line::Bad => Ok(Reply::BadLine),
            Line::Edition => Ok(self.edition()),
            Line::Site(row) => self.add(row),
            Line::Command(command) => self.command(alloc, command),
        }
    }

    /// The edition is named while no site is.
    fn edition(&self) -> Reply
        ensures { LeadsOn (λ old new. Replies old new Line.Edition result) self.now self.now }
    {
        match self {
            PlayState::Named(draft) => {
                if draft.is_empty() {
                    Reply::Ok
                } else {
                    Reply::Late
                }
            }
            PlayState::Played(_) => Reply::Late,
        }
    }

    fn add(&mut self, row: SiteRow) -> Result<Reply, AllocError>
        requires { IsHeld self.old }
        ensures { IfOk result (λ reply. LeadsOn (λ old new. Replies old new (Line.Site row) reply) self.old self.new) }
    {
        match self {
            PlayState::Named(draft) => match draft.add(row)? {
                None => Ok(Reply::Ok),
                Some(fault) => Ok(Reply::Topology(fault)),
            },
            PlayState::Played(_) => Ok(Reply::Late),
        }
    }

    /// The first command makes the world of the sites that were named.
    fn command(&mut self, alloc: Global, command: Command) -> Result<Reply, AllocError>
        requires shown { IsHeld self.old }
        requires own { GetsNothing (Line.Command command) }
        ensures { IfOk result (λ reply. LeadsOn (λ old new. Replies old new (Line.Command command) reply) self.old self.new) }
    {
        match self {
            PlayState::Played(world) => carry_out(alloc, world, command),
            PlayState::Named(draft) => {
                let mut world = Playground::new(alloc, draft.topology())?;
                let reply = carry_out(alloc, &mut world, command)?;
                *self = PlayState::Played(world);
                Ok(reply)
            }
        }
    }
}

fn carry_out(alloc: Global, world: &mut Playground, command: Command) -> Result<Reply, AllocError>
    requires played { IsPlayed world.old }
    requires own { GetsNothing (Line.Command command) }
    ensures { IfOk result (λ reply. Leads (λ old new. CarriesOut old new command reply) world.old world.new) }
{
    match command {
        Command::Act { process, event } => world.act(process, event),
        Command::WithdrawAll { process } => world.withdraw_all(alloc, process),
        Command::Deliver { from, to } => world.deliver(from, to),
        Command::Cut { from, to } => world.cut(from, to),
        Command::Report => world.report(alloc),
    }
}
