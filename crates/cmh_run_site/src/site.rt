//! The command `site`: one site, driven by the lines of an input.

ghost use Rattle.std.specs.Prelude.{◌≡◌, ◌≢◌, ◌≤◌, ◌⊎◌, [], length, true, false, IfOk, IfErr, IfSome, MatchBool, OnErr, OnOk};
ghost use Rattle.cmh_console.specs.Faults.{NamesFault};
ghost use Rattle.cmh_console.specs.Status.{IsStatus};
ghost use Rattle.cmh_console.specs.Dialogue.{Conversed, IsAnswerFault, IsDialogueFault, line_of};
ghost use Rattle.cmh_links.specs.Threads.{connected_in, failed_in, link_sites};
ghost use Rattle.cmh_run_site.specs.Endings.{EndedEarly, IsSiteFault, Served, Welcomed};
ghost use Rattle.cmh_run_site.specs.SiteTalk.{AnswersSite, CountsLinks, IsConnected, IsTurnOfSite, LeadToOthers, WasSaidToSite};
ghost use Rattle.cmh_talk.specs.Ends.{TellsLinks};
ghost use Rattle.cmh_setting.specs.SiteFaults.{as_fault};
ghost use Rattle.cmh_talk.specs.Together.{WereAnswered};
ghost use Rattle.cmh_run_site.specs.Together.{SaidTurn, SaysEvent};
ghost use Rattle.cmh_station.specs.Journaled.{batch_limit};

use cmh_carriers::{Dial, NoVoice, Noting, TcpDial, Voice};
use cmh_console::{
    Ahead, Command, DialogueFault, Fault, Flow, Input, Line, NextLine, Output, WriteFault,
    read_line,
};
use cmh_frames::{Event, SiteId, Topology};
use cmh_host::{
    JournalSink, Order, Running, RunningSite, SiteFault, SiteHandle, SiteLine, SiteReply,
    SiteSetup, SiteStart, System, answer_events, link_ends, parse_for_site, read_setting,
    start_site,
};
use cmh_journal::Sink;
use cmh_station::{BATCH_LIMIT, KeptBoard, Listing};
use std::alloc::{AllocError, Global};
use std::fs::File;
use std::io::{BufRead, Write};
use std::rt::Files;

/// Runs one site of a topology until `quit` or the end of its input, and answers the status of the program: 0 then, 1 where
/// memory ran out, 3 at any other fault. A fault is named on `err`, and a write to it that fails is ignored.
///
/// Each line is answered, and the answer flushed, before the next one is awaited. Events of lines that are there already
/// share a sync, at most 64. The entry of a step is in the journal's file, and synced, before the step is answered. A file
/// that stands at the journal's path and isn't empty is kept under the path with a number after it, as `.1`, whose name was
/// free.
pub fn run_site<R, I: BufRead + Ahead, W: Write, E: Write>(
    rt: R,
    start: &SiteStart<'_>,
    input: &mut Input<I>,
    out: &mut Output<W>,
    err: &mut Output<E>,
) -> u8
where
    R: System + Files<File = File> + AllocGlobal + Send + 'static,
    ensures status { IsStatus result }

    // At status 0 it said that it listens, answered each line in its order, and said that it stopped.
    ensures served { result ≡ 0 → IfSome input.old.left
        (λ bytes. Served start.now.topology.now start.now.site bytes out.old.written out.new.written) }
    ensures flushed { result ≡ 0 → out.new.is_flushed ≡ true }
    ensures silent { result ≡ 0 → err.new ≡ err.old }

    // Else it wrote a beginning of that, unless a write failed, and a fault is named that has a cause.
    ensures early { result ≢ 0 → IfSome input.old.left (λ bytes. EndedEarly start.now.topology.now start.now.site bytes
        out.old.written out.new.written out.new.has_failed) }
    ensures fault { result ≢ 0 → NamesFault as_fault
        (IsSiteFault start.now.topology.now start.now.site input.old.left input.new.has_failed out.new.has_failed)
        result err.old err.new }
{
    let nobody: Option<NoVoice> = None;
    match run_site_noting(rt, start, input, out, nobody) {
        Ok(()) => 0,
        Err(fault) => Fault::from(fault).name_on(err),
    }
}

/// The same, where a fault is answered, and what the site notices is told by a voice, if there is one, in a thread that
/// nobody waits for.
pub fn run_site_noting<R, I: BufRead + Ahead, W: Write, V>(
    rt: R,
    start: &SiteStart<'_>,
    input: &mut Input<I>,
    out: &mut Output<W>,
    voice: Option<V>,
) -> Result<(), SiteFault>
where
    R: System + Files<File = File> + AllocGlobal + Send + 'static,
    V: Voice + Send + Drop + 'static,
    // It said that it listens, answered each line in its order, and said that it stopped.
    ensures served { OnOk result (IfSome input.old.left
        (λ bytes. Served start.now.topology.now start.now.site bytes out.old.written out.new.written)) }
    ensures flushed { OnOk result (out.new.is_flushed ≡ true) }

    // Else it wrote a beginning of that, unless a write failed, and the fault has a cause.
    ensures early { OnErr result (IfSome input.old.left (λ bytes. EndedEarly start.now.topology.now start.now.site bytes
        out.old.written out.new.written out.new.has_failed)) }
    ensures fault { IfErr result
        (IsSiteFault start.now.topology.now start.now.site input.old.left input.new.has_failed out.new.has_failed) }
{
    let noting = Noting::start(rt, rt.alloc(), voice)?;
    let served = site_into(rt, start, input, out, &noting);
    noting.end(&rt);
    served
}

fn site_into<R, I: BufRead + Ahead, W: Write>(
    rt: R,
    start: &SiteStart<'_>,
    input: &mut Input<I>,
    out: &mut Output<W>,
    noting: &Noting,
) -> Result<(), SiteFault>
where
    R: System + Files<File = File> + AllocGlobal + Send + 'static,
    ensures served { OnOk result (IfSome input.old.left
        (λ bytes. Served start.now.topology.now start.now.site bytes out.old.written out.new.written)) }
    ensures flushed { OnOk result (out.new.is_flushed ≡ true) }
    ensures early { OnErr result (IfSome input.old.left (λ bytes. EndedEarly start.now.topology.now start.now.site bytes
        out.old.written out.new.written out.new.has_failed)) }
    ensures fault { IfErr result
        (IsSiteFault start.now.topology.now start.now.site input.old.left input.new.has_failed out.new.has_failed) }
{
    let setting = read_setting(rt.alloc(), start.topology)?;
    if !setting.world.has_site(start.site) {
        return Err(SiteFault::Site);
    }
    let setup = SiteSetup {
        topology: &setting.world,
        ports: &setting.ports,
        site: start.site,
        journal: start.journal,
        patience: start.patience,
        backlog: start.backlog,
        is_asked: false,
    };
    let mut host = SiteHost::start(rt, rt.alloc(), &setup, noting)?;
    let answered = host.serve(input, out);
    host.stop();
    answered?;
    out.write_line("stopped")?;
    out.flush()?;
    Ok(())
}

/// A running site, as the lines of its input know it.
struct SiteHost<'a, R>
where
    R: System + Send + 'static,
    JournalSink: Sink,
    KeptBoard<R>: Listing,
    TcpDial<R>: Dial,
{
    rt: R,
    alloc: Global,
    topology: &'a Topology,
    handle: SiteHandle<R>,
    threads: Running<R>,
    has_connected: bool,
}

impl<'a, R> SiteHost<'a, R>
where
    R: System + Files<File = File> + Send + 'static,
{
    /// Takes the site's port, makes its journal, and starts its threads.
    fn start(
        rt: R,
        alloc: Global,
        setup: &SiteSetup<'a>,
        noting: &Noting,
    ) -> Result<Self, SiteFault>
        ensures site { IfOk result (λ host. host.handle.site ≡ setup.now.site) }
        ensures topology { IfOk result (λ host. host.topology.now ≡ setup.now.topology.now) }
        ensures to_others { IfOk result (λ host. LeadToOthers host.topology.now host.handle.site
            (link_sites host.threads.places.items host.threads.waiting.items)) }
        ensures unconnected { IfOk result (λ host. host.has_connected ≡ false) }
        ensures fault { IfErr result (λ fault. (fault ≡ SiteFault.Listen) ⊎ (fault ≡ SiteFault.JournalDisk)
            ⊎ (fault ≡ SiteFault.Memory)) }
    {
        let RunningSite { handle, threads } = start_site(rt, alloc, setup, noting)?;
        Ok(SiteHost {
            rt,
            alloc,
            topology: setup.topology,
            handle,
            threads,
            has_connected: false,
        })
    }

    /// Ends the threads.
    fn stop(self) {
        let SiteHost {
            rt: _,
            alloc: _,
            topology: _,
            handle,
            threads,
            has_connected: _,
        } = self;
        RunningSite { handle, threads }.stop();
    }

    /// Says that it listens, and answers line after line.
    fn serve<I: BufRead + Ahead, W: Write>(
        &mut self,
        input: &mut Input<I>,
        out: &mut Output<W>,
    ) -> Result<Flow, DialogueFault>
        requires to_others { LeadToOthers self.old.topology.now self.old.handle.site
            (link_sites self.old.threads.places.items self.old.threads.waiting.items) }
        ensures served { IfSome input.old.left (λ bytes.
            Welcomed self.old.topology.now self.old.handle.site self.old.has_connected bytes
            out.old.written out.new.written out.new.has_failed result) }
        ensures fault { IfErr result (IsDialogueFault input.old.left input.new.has_failed out.new.has_failed) }
    {
        out.write_line("listening")?;
        out.flush()?;
        self.answer_all(input, out)
    }

    /// Answers line after line, until one ends it or none is left. Events of lines that are there already wait for each
    /// other, and share a sync.
    fn answer_all<I: BufRead + Ahead, W: Write>(
        &mut self,
        input: &mut Input<I>,
        out: &mut Output<W>,
    ) -> Result<Flow, DialogueFault>
        requires to_others { LeadToOthers self.old.topology.now self.old.handle.site
            (link_sites self.old.threads.places.items self.old.threads.waiting.items) }
        ensures answers { IfSome input.old.left (λ bytes.
            Conversed (IsTurnOfSite self.old.topology.now self.old.handle.site) self.old.has_connected bytes
            out.old.written out.new.written out.new.has_failed result) }
        ensures fault { IfErr result (IsDialogueFault input.old.left input.new.has_failed out.new.has_failed) }
    {
        let mut buffer = Vec::new(self.alloc);
        let mut events = Vec::new(self.alloc);
        for turn in 0..u64::MAX {
            let next = read_line(input, &mut buffer)?;
            if next.is_end() {
                self.answer_waiting(&mut events, out)?;
                return Ok(Flow::Awaits);
            }
            let said = said_by(self.alloc, next)?;
            match event_of(said) {
                Ok(event) => {
                    events.push(event)?;
                    if events.len() >= BATCH_LIMIT || !input.has_line() {
                        self.answer_waiting(&mut events, out)?;
                    }
                }
                Err(said) => {
                    self.answer_waiting(&mut events, out)?;
                    match self.answer(said, out)? {
                        Flow::Awaits => {}
                        Flow::Ends => return Ok(Flow::Ends),
                    }
                }
            }
        }
        Err(DialogueFault::Input)
    }

    /// Answers the events that wait, of which none is left then.
    fn answer_waiting<W: Write>(
        &self,
        events: &mut Vec<Event>,
        out: &mut Output<W>,
    ) -> Result<(), WriteFault>
        requires { length events.old.items ≤ batch_limit }
        ensures answered { OnOk result (WereAnswered events.old.items out.old.written out.new.written) }
        ensures none { OnOk result (events.new.items ≡ []) }
        ensures fault { OnErr result (out.new.has_failed ≡ true) }
    {
        if events.is_empty() {
            return Ok(());
        }
        let speaker = self.handle.speaker.as_ref();
        answer_events(&self.rt, &self.handle.station, speaker, events, out)?;
        out.flush()?;
        events.clear();
        Ok(())
    }

    /// Answers a line, and flushes the answer.
    fn answer<W: Write>(
        &mut self,
        said: SiteLine,
        out: &mut Output<W>,
    ) -> Result<Flow, DialogueFault>
        requires to_others { LeadToOthers self.old.topology.now self.old.handle.site
            (link_sites self.old.threads.places.items self.old.threads.waiting.items) }
        ensures answers { IfOk result (λ flow. SaidTurn self.old.topology.now self.old.handle.site
            self.old.has_connected self.new.has_connected said flow out.old.written out.new.written) }
        ensures topology { self.new.topology.now ≡ self.old.topology.now }
        ensures site { self.new.handle.site ≡ self.old.handle.site }
        ensures to_others { LeadToOthers self.old.topology.now self.old.handle.site
            (link_sites self.new.threads.places.items self.new.threads.waiting.items) }
        ensures fault { IfErr result (IsAnswerFault out.old.written out.new.written out.new.has_failed) }
    {
        let (reply, flow) = self.reply(said)?;
        out.write_text(&reply)?;
        out.flush()?;
        Ok(flow)
    }

    fn reply(&mut self, said: SiteLine) -> Result<(SiteReply, Flow), AllocError>
        requires to_others { LeadToOthers self.old.topology.now self.old.handle.site
            (link_sites self.old.threads.places.items self.old.threads.waiting.items) }
        ensures replies { IfOk result (λ replied. AnswersSite self.old.topology.now self.old.handle.site
            self.old.has_connected self.new.has_connected said replied.0 replied.1) }
        ensures topology { self.new.topology.now ≡ self.old.topology.now }
        ensures site { self.new.handle.site ≡ self.old.handle.site }
        ensures to_others { LeadToOthers self.old.topology.now self.old.handle.site
            (link_sites self.new.threads.places.items self.new.threads.waiting.items) }
    {
        match said {
            SiteLine::Event(Line::Silent) => Ok((SiteReply::Silent, Flow::Awaits)),
            SiteLine::Event(Line::Command(Command::Act { process: _, event })) => {
                Ok((self.handle.step(&self.rt, &event), Flow::Awaits))
            }
            SiteLine::Event(_) => Ok((SiteReply::BadLine, Flow::Awaits)),
            SiteLine::Order(Order::Declared) => {
                Ok((self.handle.declared(&self.rt)?, Flow::Awaits))
            }
            SiteLine::Order(Order::Connect) => Ok((self.connect(), Flow::Awaits)),
            SiteLine::Order(Order::Links) => Ok((self.links()?, Flow::Awaits)),
            SiteLine::Order(Order::Quit) => Ok((SiteReply::Silent, Flow::Ends)),
        }
    }

    fn links(&self) -> Result<SiteReply, AllocError>
        ensures { IfOk result (TellsLinks self.now.topology.now self.now.handle.site) }
    {
        let links = self.threads.links();
        link_ends(&self.rt, self.alloc, self.topology, self.handle.site, links)
    }

    /// Opens the outgoing links, once.
    fn connect(&mut self) -> SiteReply
        requires to_others { LeadToOthers self.old.topology.now self.old.handle.site
            (link_sites self.old.threads.places.items self.old.threads.waiting.items) }
        ensures replies { MatchBool self.old.has_connected (result ≡ SiteReply.Late)
            (IsConnected self.old.topology.now self.old.handle.site result) }
        ensures counted { self.old.has_connected ≡ false → CountsLinks
            (connected_in self.old.threads.places.items) (connected_in self.new.threads.places.items)
            (failed_in self.old.threads.places.items) (failed_in self.new.threads.places.items) result }
        ensures connected { self.new.has_connected ≡ true }
        ensures topology { self.new.topology.now ≡ self.old.topology.now }
        ensures site { self.new.handle.site ≡ self.old.handle.site }
        ensures to_others { LeadToOthers self.old.topology.now self.old.handle.site
            (link_sites self.new.threads.places.items self.new.threads.waiting.items) }
    {
        if self.has_connected {
            return SiteReply::Late;
        }
        self.has_connected = true;
        let (connected, failed) = self.threads.connect();
        SiteReply::Connected(connected, failed)
    }
}

/// What a line says; one that is too long is a bad one.
fn said_by(alloc: Global, next: NextLine<'_>) -> Result<SiteLine, AllocError>
    ensures { IfOk result (WasSaidToSite (line_of next.entry)) }
{
    match next {
        NextLine::Line(line) => parse_for_site(alloc, line),
        NextLine::TooLong => Ok(SiteLine::Event(Line::Bad)),
        NextLine::End => Ok(SiteLine::Event(Line::Bad)),
    }
}

/// The event that a line says; the line where it says none.
fn event_of(said: SiteLine) -> Result<Event, SiteLine>
    ensures event { IfOk result (SaysEvent said) }
    ensures other { IfErr result (λ other. other ≡ said) }
{
    match said {
        SiteLine::Event(Line::Command(Command::Act { process: _, event })) => Ok(event),
        said => Err(said),
    }
}
