//! The command `play`: all sites of a world in memory, driven by a script.

ghost use Rattle.std.specs.Prelude.{◌≡◌, ◌≢◌, ◌⊎◌, Bool, true, false, IfOk, IfErr, IfSome, MatchOption, OnOk, OnErr, Some, Err};
ghost use Rattle.std.specs.Io.KnownBytes.{Keeps};
ghost use Rattle.cmh_console.specs.Dialogue.{Conversed, line_of};
ghost use Rattle.cmh_console.specs.Faults.{NamesFault};
ghost use Rattle.cmh_play.specs.PlayStates as states;
ghost use Rattle.cmh_play.specs.Keeping.{AnsweredAndKept, AnswersAndKeeps, KeepsAt, KeepsWorld, PlayedToEnd};
ghost use Rattle.cmh_play.specs.Play.{Answered, IsTurnOfScript, Replies, new_state, status_after};
ghost use Rattle.cmh_play.specs.PlayFaults.{IsPlayFault, as_fault};
ghost use Rattle.cmh_play.specs.World.{CarriesOut};
ghost use Rattle.cmh_console.specs.Script.{Says};
ghost use Rattle.cmh_play.specs.Showing.{HasWorld, IsNewHeld, IsShown, LeadsOn, LeadsPlayed, ShowsSome};
ghost use Rattle.cmh_console.specs.Status.{IsStatus};

use crate::answer::write_reply;
use crate::keeper::{Keeper, NoKeeper};
use crate::play_fault::PlayFault;
use crate::reply::Reply;
use crate::{Draft, Playground};
use cmh_console::{
    Ahead, Command, DialogueFault, Fault, Input, Line, NextLine, NoFile, Output, WriteFault,
    parse_into, read_line,
};
use cmh_frames::{Edition, Event, ProcId, SiteRow};
use std::alloc::{AllocError, Global};
use std::io::{BufRead, Write};

/// Plays a script, and answers the status of the program: 0 at the script's end, 1 where memory ran out, 3 where the
/// script can't be read or the answers can't be written. A fault is named on `err`, and a write to it that fails is
/// ignored. Each answer is flushed before the command waits for more of the script. The lines before a fault are answered, of which the
/// contract says no more than that nothing else is written.
pub fn run_play<R: BufRead + Ahead, W: Write, E: Write>(
    alloc: Global,
    input: &mut Input<R>,
    out: &mut Output<W>,
    err: &mut Output<E>,
) -> u8
    ensures status { IsStatus result }

    // What is written answers the script line by line. Where the status is 0, all answers were written, and no write failed.
    ensures answers { IfSome input.old.left (λ bytes. Answered bytes out.old.written
        out.new.written out.new.has_failed result) }
    ensures silent { result ≡ 0 → err.new ≡ err.old }

    // What was written is flushed, also before a fault.
    ensures flushed { result ≡ 0 → out.new.is_flushed ≡ true }
    ensures unfailed { result ≡ 0 → out.new.has_failed ≡ out.old.has_failed }
    ensures left { out.new.has_failed ≡ false → (out.new.is_flushed ≡ true) ⊎ (out.new ≡ out.old) }
    ensures fault { result ≢ 0 → NamesFault as_fault (IsPlayFault (λ _. ⊥) input.old.left input.new.has_failed
        out.new.has_failed) result err.old err.new }
{
    run_play_keeping(alloc, input, out, err, &mut NoKeeper)
}

/// The same, where the journals of all sites are kept: before each report is written, and at the script's end, once all
/// answers are flushed. A keeper that fails ends the command with its fault.
pub fn run_play_keeping<R: BufRead + Ahead, W: Write, E: Write, K: Keeper>(
    alloc: Global,
    input: &mut Input<R>,
    out: &mut Output<W>,
    err: &mut Output<E>,
    keeper: &mut K,
) -> u8
    ensures status { IsStatus result }

    // What is written answers the script line by line, and the journals of the world that it leads to are kept.
    ensures answers { IfSome input.old.left (λ bytes. AnsweredAndKept K.keeps bytes
        out.old.written out.new.written out.new.has_failed result keeper.new) }
    ensures silent { result ≡ 0 → err.new ≡ err.old }

    // What was written is flushed, also before a fault.
    ensures flushed { result ≡ 0 → out.new.is_flushed ≡ true }
    ensures unfailed { result ≡ 0 → out.new.has_failed ≡ out.old.has_failed }
    ensures left { out.new.has_failed ≡ false → (out.new.is_flushed ≡ true) ⊎ (out.new ≡ out.old) }
    ensures fault { result ≢ 0 → NamesFault as_fault (IsPlayFault K.fails input.old.left input.new.has_failed
        out.new.has_failed) result err.old err.new }
{
    match play(alloc, input, out, keeper) {
        Ok(()) => 0,
        Err(fault) => Fault::from(fault).name_on(err),
    }
}

fn play<R: BufRead + Ahead, W: Write, K: Keeper>(
    alloc: Global,
    input: &mut Input<R>,
    out: &mut Output<W>,
    keeper: &mut K,
) -> Result<(), PlayFault>
    ensures answers { IfSome input.old.left (λ bytes. AnsweredAndKept K.keeps bytes
        out.old.written out.new.written out.new.has_failed (status_after result) keeper.new) }
    ensures fault { IfErr result (IsPlayFault K.fails input.old.left input.new.has_failed out.new.has_failed) }
    ensures flushed { OnOk result (out.new.is_flushed ≡ true) }
    ensures unfailed { OnOk result (out.new.has_failed ≡ out.old.has_failed) }
    ensures left { out.new.has_failed ≡ false → (out.new.is_flushed ≡ true) ⊎ (out.new ≡ out.old) }
{
    let mut state = PlayState::new(alloc)?;
    let played = answer_all(alloc, &mut state, input, out, keeper);
    let flushed = out.flush();
    played?;
    flushed?;
    state.keep_wanted(alloc, keeper)?;
    Ok(())
}

/// Reads and answers line after line.
fn answer_all<R: BufRead + Ahead, W: Write, K: Keeper>(
    alloc: Global,
    state: &mut PlayState,
    input: &mut Input<R>,
    out: &mut Output<W>,
    keeper: &mut K,
) -> Result<(), PlayFault>
    requires { IsNewHeld state.old }
    ensures answers { IfSome input.old.left (λ bytes. Conversed IsTurnOfScript new_state bytes
        out.old.written out.new.written out.new.has_failed (Err DialogueFault.Input)) }
    ensures all { OnOk result (ShowsSome K.wants state.new (λ shown. IfSome input.old.left
        (λ bytes. PlayedToEnd bytes out.old.written out.new.written shown))) }
    ensures unfailed { OnOk result (out.new.has_failed ≡ out.old.has_failed) }
    ensures fault { IfErr result (IsPlayFault K.fails input.old.left input.new.has_failed out.new.has_failed) }
{
    let mut buffer = Vec::new(alloc);
    let mut spare = Vec::new(alloc);
    for turn in 0..u64::MAX {
        let next = read_line(input, &mut buffer)?;
        if next.is_end() {
            return Ok(());
        }
        let reply = state.answer_line(alloc, next, &mut spare, keeper)?;
        write_reply(out, &reply)?;
        flush_awaited(out, input.has_line())?;
    }
    Err(PlayFault::Input)
}

/// Flushes the answers so far, but where a whole line is at hand: its answer is flushed with them.
fn flush_awaited<W: Write>(out: &mut Output<W>, has_line: bool) -> Result<(), WriteFault>
    ensures bytes { Keeps out.old.written out.new.written }
    ensures ok { OnOk result (out.new.has_failed ≡ out.old.has_failed) }
    ensures flushed { has_line ≡ false → OnOk result (out.new.is_flushed ≡ true) }
    ensures err { OnErr result (out.new.has_failed ≡ true) }
{
    if has_line { Ok(()) } else { out.flush() }
}

/// What a line says; one that is too long is a bad one.
#[inline(always)]
fn said_by(alloc: Global, next: NextLine<'_>, spare: &mut Vec<ProcId>) -> Result<Line, AllocError>
    ensures { IfOk result (λ said. MatchOption (line_of next.entry) (said ≡ Line.Bad) (λ bytes. Says bytes said)) }
{
    match next {
        NextLine::Line(line) => parse_into(alloc, line, spare),
        NextLine::TooLong | NextLine::End => Ok(Line::Bad),
    }
}

/// A world that a script names and then plays: the first command closes the draft.
#[derive(Drop)]
enum PlayState {
    Named(Draft),
    Played(Playground),
}

impl PlayState {
    fn new(alloc: Global) -> Result<PlayState, AllocError>
        ensures { IfOk result IsNewHeld }
    {
        Ok(PlayState::Named(Draft::new(alloc)?))
    }

    /// Keeps the journals of the world, where they are wanted.
    fn keep_wanted<K: Keeper>(&self, alloc: Global, keeper: &mut K) -> Result<(), NoFile>
        ensures kept { OnOk result ((state : states.PlayState) → IsShown K.wants state self.now
            → KeepsWorld K.keeps state keeper.old keeper.new) }
        ensures fault { IfErr result (λ fault. (fault ≡ NoFile.Memory) ⊎ K.fails fault) }
    {
        if !keeper.wants_journals() {
            self.world_law();
            return Ok(());
        }
        self.keep(alloc, keeper)
    }

    /// Each state has a world, which is new while it is named.
    fn world_law(&self)
        ensures { (keeps : Bool) (state : states.PlayState) → IsShown keeps state self.now → HasWorld state }
    {
        if let PlayState::Named(draft) = self {
            let _ = draft.topology();
        }
    }

    /// Keeps the journals of the world; of a draft those of its sites, which are empty.
    #[cold]
    #[inline(never)]
    fn keep<K: Keeper>(&self, alloc: Global, keeper: &mut K) -> Result<(), NoFile>
        ensures kept { OnOk result ((state : states.PlayState) → IsShown true state self.now
            → KeepsWorld K.keeps state keeper.old keeper.new) }
        ensures fault { IfErr result (λ fault. (fault ≡ NoFile.Memory) ⊎ K.fails fault) }
    {
        match self {
            PlayState::Played(world) => keeper.keep(alloc, world.topology(), world.journals()),
            PlayState::Named(draft) => {
                let world = Playground::new(alloc, draft.topology(), true)?;
                keeper.keep(alloc, draft.topology(), world.journals())
            }
        }
    }

    /// Keeps the journals where the reply is a report.
    fn keep_for<K: Keeper>(
        &self,
        alloc: Global,
        reply: &Reply,
        keeper: &mut K,
    ) -> Result<(), NoFile>
        ensures kept { OnOk result ((state : states.PlayState) → IsShown K.wants state self.now
            → KeepsAt K.keeps reply.now state keeper.old keeper.new) }
        ensures fault { IfErr result (λ fault. (fault ≡ NoFile.Memory) ⊎ K.fails fault) }
    {
        match reply {
            Reply::Report(_, _) => self.keep_wanted(alloc, keeper),
            _ => Ok(()),
        }
    }

    /// Carries out what was read of a script, and answers its reply. The journals are kept before a report is answered.
    /// The targets of an ask take the memory of `spare`, which has it back where nobody keeps them.
    #[inline(always)]
    fn answer_line<K: Keeper>(
        &mut self,
        alloc: Global,
        next: NextLine<'_>,
        spare: &mut Vec<ProcId>,
        keeper: &mut K,
    ) -> Result<Reply, NoFile>
        ensures answers { IfOk result (λ reply. LeadsOn K.wants (λ old new. AnswersAndKeeps K.keeps old new
            (line_of next.entry) reply keeper.old keeper.new) self.old self.new) }
        ensures fault { IfErr result (λ fault. (fault ≡ NoFile.Memory) ⊎ K.fails fault) }
    {
        let said = said_by(alloc, next, spare)?;
        let reply = self.answer(alloc, said, spare, keeper.wants_journals())?;
        self.keep_for(alloc, &reply, keeper)?;
        Ok(reply)
    }

    /// What a line does, and its reply. What is done seldom is never inlined: each line would pay for its large values.
    #[inline(always)]
    fn answer(
        &mut self,
        alloc: Global,
        line: Line,
        spare: &mut Vec<ProcId>,
        keeps: bool,
    ) -> Result<Reply, AllocError>
        ensures { IfOk result (λ reply. LeadsOn keeps (λ old new. Replies old new line reply) self.old self.new) }
    {
        match line {
            Line::Silent => Ok(Reply::Silent),
            Line::Bad => Ok(Reply::BadLine),
            Line::Edition(edition) => self.set_edition(edition),
            Line::Site(row) => self.add(row),
            Line::Command(command) => self.command(alloc, command, spare, keeps),
        }
    }

    #[cold]
    #[inline(never)]
    fn set_edition(&mut self, edition: Edition) -> Result<Reply, AllocError>
        ensures { IfOk result (λ reply. (keeps : Bool)
            → LeadsOn keeps (λ old new. Replies old new (Line.Edition edition) reply) self.old self.new) }
    {
        let PlayState::Named(draft) = self else {
            return Ok(Reply::Late);
        };
        if !draft.is_empty() {
            return Ok(Reply::Late);
        }
        draft.set_edition(edition)?;
        Ok(Reply::Ok)
    }

    #[cold]
    #[inline(never)]
    fn add(&mut self, row: SiteRow) -> Result<Reply, AllocError>
        ensures { IfOk result (λ reply. (keeps : Bool)
            → LeadsOn keeps (λ old new. Replies old new (Line.Site row) reply) self.old self.new) }
    {
        match self {
            PlayState::Named(draft) => match draft.add(row)? {
                None => Ok(Reply::Ok),
                Some(fault) => Ok(Reply::Topology(fault)),
            },
            PlayState::Played(_) => Ok(Reply::Late),
        }
    }

    #[inline(always)]
    fn command(
        &mut self,
        alloc: Global,
        command: Command,
        spare: &mut Vec<ProcId>,
        keeps: bool,
    ) -> Result<Reply, AllocError>
        ensures { IfOk result (λ reply. LeadsOn keeps (λ old new. Replies old new (Line.Command command) reply) self.old self.new) }
    {
        match self {
            PlayState::Played(world) => carry_out(alloc, world, command, spare),
            PlayState::Named(_) => self.first_command(alloc, command, spare, keeps),
        }
    }

    /// The first command closes the draft. It stands apart from the others since a new world is large.
    #[cold]
    #[inline(never)]
    fn first_command(
        &mut self,
        alloc: Global,
        command: Command,
        spare: &mut Vec<ProcId>,
        keeps: bool,
    ) -> Result<Reply, AllocError>
        ensures { IfOk result (λ reply. LeadsOn keeps (λ old new. Replies old new (Line.Command command) reply) self.old self.new) }
    {
        match self {
            PlayState::Played(world) => carry_out(alloc, world, command, spare),
            PlayState::Named(draft) => {
                let mut world = Playground::new(alloc, draft.topology(), keeps)?;
                let reply = carry_out(alloc, &mut world, command, spare)?;
                *self = PlayState::Played(world);
                Ok(reply)
            }
        }
    }
}

/// What is usual is inlined whole, from the line that is read to the reply that is written: what a call takes or hands
/// back is copied from place to place.
#[inline(always)]
fn carry_out(
    alloc: Global,
    world: &mut Playground,
    command: Command,
    spare: &mut Vec<ProcId>,
) -> Result<Reply, AllocError>
    ensures { IfOk result (λ reply. LeadsPlayed (λ old new. CarriesOut old new command reply) world.old world.new) }
{
    match command {
        Command::Act { process, event } => act(world, process, event, spare),
        Command::Deliver { from, to } => world.deliver(from, to),
        Command::Cut { from, to } => world.cut(from, to),
        Command::Report => report(alloc, world),
    }
}

#[inline(always)]
fn act(
    world: &mut Playground,
    process: ProcId,
    event: Event,
    spare: &mut Vec<ProcId>,
) -> Result<Reply, AllocError>
    ensures { IfOk result (λ reply. LeadsPlayed (λ old new. CarriesOut old new (Command.Act process event) reply)
        world.old world.new) }
{
    let reply = world.act(process, event)?;
    world.give_spare(spare);
    Ok(reply)
}

/// The report on a world. It stands apart from the other commands since a verdict is large.
#[cold]
#[inline(never)]
fn report(alloc: Global, world: &Playground) -> Result<Reply, AllocError>
    ensures { IfOk result (λ reply. LeadsPlayed (λ old new. CarriesOut old new Command.Report reply)
        world.now world.now) }
{
    let Ok(verdict) = world.audit(alloc) else {
        return Err(AllocError);
    };
    Ok(Reply::Report(world.edition(), Box::new(alloc, verdict)?))
}
