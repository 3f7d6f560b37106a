//! The command `cluster`: all sites of a topology as threads of one program, driven by a script.

ghost use Rattle.std.specs.Prelude.{◌≡◌, ◌<◌, ◌⊎◌, None, true, MatchOption, IfOk, IfErr, IfSome, OnErr, OnOk, codes, length, vec_capacity, vec_len};
ghost use Rattle.std.specs.Io.KnownBytes.{Appends};
ghost use Rattle.cmh_controller.specs.declared.refusal.Refusal.TheVariants.{NotHere, UnknownProcess};
ghost use Rattle.cmh_console.specs.Status.{IsStatus};
ghost use Rattle.cmh_frames.specs.Topology.{home, sites_of};
ghost use Rattle.cmh_console.specs.Dialogue.{Conversed, HasAnswered, IsAnswerFault, IsDialogueFault, line_of};
ghost use Rattle.cmh_cluster.specs.ClusterEndings.{ClusterEnds, ComesTo, EndsInAudit, HasPlayed, IsClusterFault, IsRunFault, IsStartFault, NamesClosed};
ghost use Rattle.cmh_talk.specs.declared.site_reply.SiteReply.TheVariants.{Refused};
ghost use Rattle.cmh_station.specs.declared.refusal.StationRefusal.TheVariants.{Rule};
ghost use Rattle.cmh_talk.specs.Steps.{IsDeclared, WasStepped};
ghost use Rattle.cmh_setting.specs.SiteScript.{SaysToCluster};
ghost use Rattle.cmh_cluster.specs.ClusterTalk.{AnswersCluster, IsTurnOfCluster};

use crate::cluster_fault::ClusterFault;
use crate::settling::{ReceiptLook, SendingLook, Silence, Tally};
use cmh_carriers::{Dial, Listen, NoVoice, Noting, Origin, TcpDial, TcpListen, Voice};
use cmh_console::{
    Command, DialogueFault, Fault, Flow, Input, Line, NextLine, NoFile, Output, WriteFault,
    path_in, read_line,
};
use cmh_controller::Refusal;
use cmh_files::run_audit;
use cmh_frames::{Event, ProcId, SiteId, Topology};
use cmh_host::{
    BacklogLimit, Carriers, ClosedLink, ClusterLine, Disk, JournalFolder, JournalSink, Opened,
    Ports, RunningSite, Setting, SiteReply, Speakers, System, can_be_made, closed_in, closed_out,
    open_station, parse_for_cluster, read_setting, start_threads,
};
use cmh_journal::{Journal, Sink};
use cmh_links::LinkFault;
use cmh_station::{KeptBoard, Listing, StationRefusal};
use std::alloc::{AllocError, Global};
use std::fs::File;
use std::io::{BufRead, ErrorKind, Write};
use std::rt::Files;
use std::{fs, thread};

/// How often it is looked whether all frames have come, before the sites are said not to settle.
const MOST_TURNS: u32 = 1_000_000;

/// How many of these looks come without a pause before the next one.
const BUSY_TURNS: u32 = 1_000;

/// What all sites of a topology are run with.
#[derive(Clone, Copy)]
pub struct ClusterStart<'a> {
    /// The bytes of the topology file.
    pub topology: &'a [u8],
    /// The bytes of the script.
    pub script: &'a [u8],
    /// The path of the folder for the journals.
    pub dir: &'a str,
}

/// Runs all sites of a topology as threads, over TCP on 127.0.0.1, gives each line of the script to its site and waits
/// until all frames have come, and then audits the journals that it wrote into the folder, as it reads them back.
///
/// The answer is the status of the program: 0 where the journals come from one run, 1 where they don't, where the sites
/// don't settle or memory ran out, 3 at any other fault. A fault is named on `err`, and a write to it that fails is ignored.
/// A journal of an earlier run in the folder is replaced.
pub fn run_cluster<R, W: Write, E: Write>(
    rt: R,
    start: &ClusterStart<'_>,
    out: &mut Output<W>,
    err: &mut Output<E>,
) -> u8
where
    R: System + Files<File = File> + AllocGlobal + Send + 'static,
    ensures status { IsStatus result }

    // The audit of what was read back stands after the answers to the script; or the sites did not settle, which is said;
    // or a fault is named that has its cause.
    ensures ends { ClusterEnds start.now.topology.now start.now.script.now out.old out.new err.old err.new result }

    // At status 0 the files that were read back were audited and accepted.
    ensures audit { result ≡ 0
        → EndsInAudit start.now.topology.now start.now.script.now out.old out.new err.old err.new result }
{
    let nobody: Option<NoVoice> = None;
    run_cluster_noting(rt, start, out, err, nobody)
}

/// How a cluster ended, besides what it wrote.
#[derive(Clone, Copy)]
pub struct ClusterEnd {
    /// The status of the program.
    pub status: u8,
    /// How many links could not be opened, for want of a descriptor, of memory or of a thread. Locks alone know it, so no
    /// clause says it.
    pub unopened: usize,
}

/// The same, where what the sites notice is told by a voice, if there is one, in a thread that nobody waits for.
pub fn run_cluster_noting<R, W: Write, E: Write, V>(
    rt: R,
    start: &ClusterStart<'_>,
    out: &mut Output<W>,
    err: &mut Output<E>,
    voice: Option<V>,
) -> u8
where
    R: System + Files<File = File> + AllocGlobal + Send + 'static,
    V: Voice + Send + Drop + 'static,
    ensures status { IsStatus result }

    // The audit of what was read back stands after the answers to the script; or the sites did not settle, which is said;
    // or a fault is named that has its cause.
    ensures ends { ClusterEnds start.now.topology.now start.now.script.now out.old out.new err.old err.new result }

    // At status 0 the files that were read back were audited and accepted.
    ensures audit { result ≡ 0
        → EndsInAudit start.now.topology.now start.now.script.now out.old out.new err.old err.new result }
{
    run_cluster_counting(rt, start, out, err, voice).status
}

/// The same, where it is answered too how many links could not be opened.
pub fn run_cluster_counting<R, W: Write, E: Write, V>(
    rt: R,
    start: &ClusterStart<'_>,
    out: &mut Output<W>,
    err: &mut Output<E>,
    voice: Option<V>,
) -> ClusterEnd
where
    R: System + Files<File = File> + AllocGlobal + Send + 'static,
    V: Voice + Send + Drop + 'static,
    ensures status { IsStatus result.status }

    // The audit of what was read back stands after the answers to the script; or the sites did not settle, which is said;
    // or a fault is named that has its cause.
    ensures ends { ClusterEnds start.now.topology.now start.now.script.now out.old out.new err.old err.new result.status }

    // At status 0 the files that were read back were audited and accepted.
    ensures audit { result.status ≡ 0
        → EndsInAudit start.now.topology.now start.now.script.now out.old out.new err.old err.new result.status }
{
    let noting = match Noting::start(rt, rt.alloc(), voice) {
        Ok(noting) => noting,
        Err(AllocError) => {
            return ClusterEnd {
                status: Fault::Memory.name_on(err),
                unopened: 0,
            };
        }
    };
    let mut watch = Watch {
        noting: &noting,
        unopened: 0,
    };
    let played = cluster_into(rt, start, out, &mut watch);
    let unopened = watch.unopened;
    noting.end(&rt);
    match played {
        Ok(Played::Read(journals)) => ClusterEnd {
            status: run_audit(rt.alloc(), start.topology, &journals, out, err),
            unopened,
        },
        Ok(Played::NotSettled) => ClusterEnd {
            status: 1,
            unopened,
        },
        Err(fault) => ClusterEnd {
            status: Fault::from(fault).name_on(err),
            unopened,
        },
    }
}

/// What is noticed of the sites while a script is played, and no line tells.
#[derive(Drop)]
struct Watch<'a> {
    noting: &'a Noting,
    /// How many links could not be opened.
    unopened: usize,
}

/// What the play of a script left behind.
#[derive(Drop)]
enum Played {
    /// The files of all journals, ascending by site, as they were read back.
    Read(Vec<Vec<u8>>),
    /// After a line frames did not come.
    NotSettled,
}

/// Plays the script, and reads the journals back or says that the sites did not settle.
fn cluster_into<R, W: Write>(
    rt: R,
    start: &ClusterStart<'_>,
    out: &mut Output<W>,
    watch: &mut Watch<'_>,
) -> Result<Played, ClusterFault>
where
    R: System + Files<File = File> + AllocGlobal + Send + 'static,
    ensures played { IfOk result (ComesTo start.now.topology.now start.now.script.now out.old.written out.new.written
        out.new.is_flushed) }
    ensures fault { IfErr result (IsClusterFault start.now.topology.now start.now.script.now out.old.written
        out.new.written out.new.has_failed) }
{
    let setting = read_setting(rt.alloc(), start.topology)?;
    match run_sites(rt, &setting, start, out, watch)? {
        Flow::Awaits => Ok(Played::Read(read_back(&rt, &setting.world, start.dir)?)),
        Flow::Ends => {
            say_not_settled(out)?;
            Ok(Played::NotSettled)
        }
    }
}

fn say_not_settled<W: Write>(out: &mut Output<W>) -> Result<(), WriteFault>
    ensures said { OnOk result (Appends out.old.written out.new.written
        (codes "not settled\n")) }
    ensures flushed { OnOk result (out.new.is_flushed ≡ true) }
    ensures fault { OnErr result (out.new.has_failed ≡ true) }
{
    out.write_line("not settled")?;
    out.flush()?;
    Ok(())
}

/// Plays a script with all sites as threads, which end before the answer. Where a line was not followed by all frames, it
/// is the last one that was answered.
fn run_sites<R, W: Write>(
    rt: R,
    setting: &Setting,
    start: &ClusterStart<'_>,
    out: &mut Output<W>,
    watch: &mut Watch<'_>,
) -> Result<Flow, ClusterFault>
where
    R: System + Files<File = File> + AllocGlobal + Send + 'static,
    ensures played { IfOk result
        (HasPlayed setting.now.world start.now.script.now out.old.written out.new.written) }
    ensures fault { IfErr result (IsRunFault setting.now.world start.now.script.now out.old.written out.new.written
        out.new.has_failed) }
{
    let mut cluster = Cluster::new(rt, rt.alloc(), &setting.world, watch.noting)?;
    let played = cluster.play(&setting.ports, start.dir, start.script, out);
    watch.unopened = cluster.unopened;
    cluster.stop();
    played
}

/// The files of all journals, ascending by site.
fn read_back<R: Files<File = File> + AllocGlobal>(
    rt: &R,
    world: &Topology,
    dir: &str,
) -> Result<Vec<Vec<u8>>, NoFile>
    ensures one_each { IfOk result (λ journals. length journals.items ≡ length (sites_of world.now)) }
{
    let alloc = rt.alloc();
    let mut journals = Vec::with_capacity(alloc, world.sites().len())?;
    for site in world.sites() {
        let path = path_in(alloc, dir, *site)?;
        match fs::read(rt, path.as_str()) {
            Ok(bytes) => journals.push(bytes)?,
            Err(error) if error.kind() == ErrorKind::OutOfMemory => return Err(NoFile::Memory),
            Err(_) => return Err(NoFile::Disk),
        }
    }
    Ok(journals)
}

/// Ends all threads. No frame is under way then on a link that is open, and a peer that is none of the sites is not waited
/// for.
fn stop_all<R>(mut members: Vec<RunningSite<R, Journal>>)
where
    R: System + Send + 'static,
{
    cut_off_all(&members);
    while let Some(member) = members.pop() {
        member.stop();
    }
    members.destroy_empty();
}

fn cut_off_all<R>(members: &[RunningSite<R, Journal>])
where
    R: System + Send + 'static,
{
    for member in members {
        member.threads.cut_off();
    }
}

/// All sites of a topology, in the order of the topology. It isn't `Drop`: its threads have to be stopped.
struct Cluster<'a, R>
where
    R: System + Send + 'static,
    JournalSink: Sink,
    KeptBoard<R>: Listing,
    TcpDial<R>: Dial,
{
    rt: R,
    alloc: Global,
    topology: &'a Topology,
    noting: &'a Noting,
    tally: Tally,
    /// How many links could not be opened.
    unopened: usize,
    members: Vec<RunningSite<R, Journal>>,
}

impl<'a, R> Cluster<'a, R>
where
    R: System + Files<File = File> + Send + 'static,
{
    /// None of the sites runs yet.
    fn new(
        rt: R,
        alloc: Global,
        topology: &'a Topology,
        noting: &'a Noting,
    ) -> Result<Self, AllocError>
        ensures { IfOk result (λ cluster. cluster.topology.now ≡ topology.now) }
    {
        let tally = Tally::new(alloc, topology.sites())?;
        let members = Vec::with_capacity(alloc, topology.sites().len())?;
        Ok(Cluster {
            rt,
            alloc,
            topology,
            noting,
            tally,
            unopened: 0,
            members,
        })
    }

    /// Starts all sites, answers the script, and tells which links closed where all its lines were answered.
    fn play<W: Write>(
        &mut self,
        ports: &Ports,
        dir: &str,
        script: &[u8],
        out: &mut Output<W>,
    ) -> Result<Flow, ClusterFault>
        ensures played { IfOk result (HasPlayed self.old.topology.now script.now out.old.written out.new.written) }
        ensures fault { IfErr result (IsRunFault self.old.topology.now script.now out.old.written
            out.new.written out.new.has_failed) }
    {
        self.start_all(ports, dir)?;
        let mut unopened = 0usize;
        for member in self.members.iter_mut() {
            let (_, failed) = member.threads.connect();
            unopened = unopened.saturating_add(failed);
        }
        self.unopened = unopened;
        let mut input = Input::new(script);
        match self.answer_all(&mut input, out) {
            Ok(Flow::Awaits) => {
                self.write_closed(out)?;
                Ok(Flow::Awaits)
            }
            Ok(Flow::Ends) => Ok(Flow::Ends),
            Err(fault) => Err(ClusterFault::from(fault)),
        }
    }

    /// Ends the threads of all sites.
    fn stop(self) {
        let Cluster {
            rt: _,
            alloc: _,
            topology: _,
            noting: _,
            tally: _tally,
            unopened: _,
            members,
        } = self;
        stop_all(members);
    }

    /// Every port is taken first, so that sites which run already keep their journals; then every journal is made, and
    /// only then does any site start.
    fn start_all(&mut self, ports: &Ports, dir: &str) -> Result<(), ClusterFault>
        ensures topology { self.new.topology ≡ self.old.topology }
        ensures fault { IfErr result IsStartFault }
    {
        let listens = self.listen_all(ports, dir)?;
        let opened = self.open_all(dir)?;
        for (opened, listen) in opened.into_iter().zip(listens) {
            self.start_one(ports, opened, listen)?;
        }
        Ok(())
    }

    /// Starts a site, and keeps its threads, so that they are stopped.
    fn start_one(
        &mut self,
        ports: &Ports,
        opened: Opened<R, Journal>,
        listen: TcpListen<R>,
    ) -> Result<(), ClusterFault>
        ensures topology { self.new.topology ≡ self.old.topology }
        ensures fault { IfErr result IsStartFault }
    {
        let carriers = self.prepare(ports, opened.site(), listen)?;
        let member = start_threads(self.rt, self.alloc, self.topology, opened, carriers)?;
        self.members.push_reserved(member);
        Ok(())
    }

    /// What the threads of a site work with besides its station, and a place for it among the members.
    fn prepare(
        &mut self,
        ports: &Ports,
        site: SiteId,
        listen: TcpListen<R>,
    ) -> Result<Carriers<R>, ClusterFault>
        ensures topology { self.new.topology ≡ self.old.topology }
        ensures place { OnOk result (vec_len self.new.members < vec_capacity self.new.members) }
        ensures listens { IfOk result (λ carriers. carriers.listen.faults ≡ 0) }
        ensures dials { IfOk result (λ carriers. carriers.dial.faults ≡ 0) }
        ensures fault { IfErr result IsStartFault }
    {
        if listen.faults() != 0 {
            // Never so: nothing was asked of it yet.
            return Err(ClusterFault::Listen);
        }
        self.members.reserve(1)?;
        let origin = Origin::Site(site);
        let speakers = Speakers {
            handle: self.noting.speaker(origin)?,
            threads: self.noting.speaker(origin)?,
        };
        let dial = TcpDial::new(self.rt, ports.pairs(self.alloc)?);
        Ok(Carriers {
            listen,
            dial,
            backlog: BacklogLimit::default(),
            speakers,
            is_asked: false,
        })
    }

    /// Listens for all sites. Where a port is taken and a journal can't be made, the journal is named.
    fn listen_all(&self, ports: &Ports, dir: &str) -> Result<Vec<TcpListen<R>>, ClusterFault>
        ensures { IfErr result IsStartFault }
    {
        let mut listens = Vec::with_capacity(self.alloc, self.topology.sites().len())?;
        let mut is_taken = false;
        for site in self.topology.sites() {
            let Some(port) = ports.of(*site) else {
                // Never so: each row has its port.
                return Err(ClusterFault::Listen);
            };
            match TcpListen::bind(&self.rt, self.alloc, port) {
                Ok(listen) => listens.push(listen)?,
                Err(_) => is_taken = true,
            }
        }
        if !is_taken {
            return Ok(listens);
        }
        for site in self.topology.sites() {
            let path = path_in(self.alloc, dir, *site)?;
            if !can_be_made(&mut Disk::new(&self.rt), self.alloc, path.as_str())? {
                return Err(ClusterFault::OutFile);
            }
        }
        Err(ClusterFault::Listen)
    }

    /// Makes all journals anew; none where one of them can't be made, so that a cluster which runs keeps its journals.
    fn open_all(&self, dir: &str) -> Result<Vec<Opened<R, Journal>>, NoFile> {
        let sites = self.topology.sites();
        let folder = JournalFolder::of_sites(&self.rt, self.alloc, dir, sites)?;
        let opened = self.open_in(&folder, dir)?;
        folder.sync()?;
        Ok(opened)
    }

    fn open_in(
        &self,
        folder: &JournalFolder<'_, R>,
        dir: &str,
    ) -> Result<Vec<Opened<R, Journal>>, NoFile> {
        let mut opened = Vec::with_capacity(self.alloc, self.topology.sites().len())?;
        for site in self.topology.sites() {
            opened.push(self.open_one(folder, dir, *site)?)?;
        }
        Ok(opened)
    }

    fn open_one(
        &self,
        folder: &JournalFolder<'_, R>,
        dir: &str,
        site: SiteId,
    ) -> Result<Opened<R, Journal>, NoFile> {
        let sink = folder.replace(self.alloc, dir, site)?;
        open_station(self.rt, self.alloc, self.topology, site, sink)
    }

    /// Gives line after line to `answer`, until one ends it or none is left, and then another would be awaited.
    fn answer_all<I: BufRead, W: Write>(
        &mut self,
        input: &mut Input<I>,
        out: &mut Output<W>,
    ) -> Result<Flow, DialogueFault>
        ensures answers { IfSome input.old.left (λ bytes. Conversed (IsTurnOfCluster self.old.topology.now) tt bytes
            out.old.written out.new.written out.new.has_failed result) }
        ensures fault { IfErr result (IsDialogueFault input.old.left input.new.has_failed out.new.has_failed) }
    {
        let mut buffer = Vec::new(self.alloc);
        for turn in 0..u64::MAX {
            let next = read_line(input, &mut buffer)?;
            if next.is_end() {
                return Ok(Flow::Awaits);
            }
            let flow = self.answer(next, out)?;
            match flow {
                Flow::Awaits => {}
                Flow::Ends => return Ok(Flow::Ends),
            }
        }
        Err(DialogueFault::Input)
    }

    /// Answers a line and waits until all frames have come; where they don't, no other line is read.
    fn answer<W: Write>(
        &mut self,
        next: NextLine<'_>,
        out: &mut Output<W>,
    ) -> Result<Flow, DialogueFault>
        ensures answers { IfOk result (λ flow. HasAnswered (λ said text. IsTurnOfCluster self.old.topology.now tt tt said text flow) (line_of next.entry)
            out.old.written out.new.written) }
        ensures topology { self.new.topology ≡ self.old.topology }
        ensures fault { IfErr result (IsAnswerFault out.old.written out.new.written out.new.has_failed) }
    {
        let said = said_by(self.alloc, next)?;
        let reply = self.reply(&said)?;
        out.write_text(&reply)?;
        out.flush()?;
        Ok(if self.settle() {
            Flow::Awaits
        } else {
            Flow::Ends
        })
    }

    fn reply(&mut self, said: &ClusterLine) -> Result<SiteReply, AllocError>
        ensures replies { IfOk result (AnswersCluster self.old.topology.now said.now) }
        ensures topology { self.new.topology ≡ self.old.topology }
    {
        match said {
            ClusterLine::Event(Line::Silent) => Ok(SiteReply::Silent),
            ClusterLine::Event(Line::Command(Command::Act { process, event })) => {
                Ok(self.act(*process, event))
            }
            ClusterLine::Event(_) => Ok(SiteReply::BadLine),
            ClusterLine::Declared(number) => self.declared(*number),
        }
    }

    /// Gives an event to the site of its process.
    fn act(&self, process: ProcId, event: &Event) -> SiteReply
        ensures { MatchOption (home self.now.topology.now process) (result ≡ Refused (Rule UnknownProcess)) (λ site. WasStepped event.now result ⊎ (result ≡ Refused (Rule NotHere))) }
    {
        match self.topology.home(process) {
            Some(site) => self.step(site, event),
            None => SiteReply::Refused(StationRefusal::Rule(Refusal::UnknownProcess)),
        }
    }

    /// Gives an event to the station of a site.
    fn step(&self, home: SiteId, event: &Event) -> SiteReply
        ensures { WasStepped event.now result ⊎ (result ≡ Refused (Rule NotHere)) }
    {
        for member in &self.members {
            if member.handle.site == home {
                return member.handle.step(&self.rt, event);
            }
        }
        // Never so: each site has its member.
        SiteReply::Refused(StationRefusal::Rule(Refusal::NotHere))
    }

    fn declared(&mut self, number: u16) -> Result<SiteReply, AllocError>
        ensures answered { IfOk result (λ reply. IsDeclared number reply ⊎ (reply ≡ SiteReply.BadLink)) }
        ensures topology { self.new.topology ≡ self.old.topology }
    {
        for member in self.members.iter_mut() {
            if member.handle.site.get() == number {
                return member.handle.declared(&self.rt);
            }
        }
        Ok(SiteReply::BadLink)
    }

    /// Waits until all frames that were sent on open links have come, and answers whether they have. It gives up once none
    /// came for long, and after `MOST_TURNS` looks at the latest.
    fn settle(&mut self) -> bool
        ensures { self.new.topology ≡ self.old.topology }
    {
        let mut silence = Silence::new();
        for turn in 0..MOST_TURNS {
            if self.look() {
                return true;
            }
            if silence.lasts_too_long(&self.rt, self.tally.receipts()) {
                return false;
            }
            if turn < BUSY_TURNS {
                thread::yield_now();
            } else {
                silence.pause(&self.rt);
            }
        }
        false
    }

    /// Whether all frames that were sent on open links have come. It looks at what is new in each journal, one station's
    /// lock at a time: at the receipts of all sites before any sending, so that what has come is counted among what was
    /// sent.
    fn look(&mut self) -> bool
        ensures { self.new.topology ≡ self.old.topology }
    {
        let receipts = look_at_receipts(&self.rt, &self.members, &mut self.tally);
        let sendings = look_at_sendings(&self.rt, &self.members, &mut self.tally, receipts);
        self.have_come(sendings)
    }

    /// Whether, by the tally, all frames have come on the links that are open. All journals were looked at, for receipts
    /// and then for sendings.
    fn have_come(&self, _look: SendingLook) -> bool
        requires received { _look.received ≡ length self.now.members.items }
        requires sent { _look.places ≡ length self.now.members.items }
    {
        for from in 0..self.members.len() {
            if !self.have_come_from(from) {
                return false;
            }
        }
        true
    }

    fn have_come_from(&self, from: usize) -> bool {
        for to in 0..self.members.len() {
            if !self.tally.is_balanced(from, to) && self.fault_of(from, to).is_none() {
                return false;
            }
        }
        true
    }

    /// Why the link between two places is closed, at its sender or else at its receiver.
    fn fault_of(&self, from: usize, to: usize) -> Option<LinkFault> {
        let sender = self.members.get(from)?;
        let receiver = self.members.get(to)?;
        match closed_out(&self.rt, &sender.threads, receiver.handle.site) {
            Some(fault) => Some(fault),
            None => closed_in(&self.rt, &receiver.threads, sender.handle.site),
        }
    }

    /// A line for each link that is closed, ascending.
    #[tactic(auto, using(crate::proofs::ClusterEndings::none_closed))]
    fn write_closed<W: Write>(&self, out: &mut Output<W>) -> Result<(), WriteFault>
        ensures closed { OnOk result (NamesClosed out.old.written out.new.written) }
        ensures fault { OnErr result (out.new.has_failed ≡ true) }
    {
        for (i, from) in self.topology.sites().iter().enumerate() {
            for (k, to) in self.topology.sites().iter().enumerate() {
                if let Some(fault) = self.fault_of(i, k) {
                    out.write_line(ClosedLink {
                        from: *from,
                        to: *to,
                        fault,
                    })?;
                }
            }
        }
        Ok(())
    }
}

/// Counts the receipts that are new in the journals of all sites, whose stations keep all their entries for that.
fn look_at_receipts<R>(
    rt: &R,
    members: &[RunningSite<R, Journal>],
    tally: &mut Tally,
) -> ReceiptLook
where
    R: System + Send + 'static,
    ensures { result.places ≡ length members.now }
{
    let mut look = ReceiptLook::new();
    for member in members {
        let guard = member.handle.station.lock(rt);
        tally.count_receipts(&mut look, guard.journal());
    }
    look
}

/// Counts the sendings that are new in the journals of all sites, after a look at their receipts.
fn look_at_sendings<R>(
    rt: &R,
    members: &[RunningSite<R, Journal>],
    tally: &mut Tally,
    receipts: ReceiptLook,
) -> SendingLook
where
    R: System + Send + 'static,
    ensures received { result.received ≡ receipts.places }
    ensures sent { result.places ≡ length members.now }
{
    let mut look = SendingLook::after(receipts);
    for member in members {
        let guard = member.handle.station.lock(rt);
        tally.count_sendings(&mut look, guard.journal());
    }
    look
}

/// What a line says; one that is too long is a bad one.
fn said_by(alloc: Global, next: NextLine<'_>) -> Result<ClusterLine, AllocError>
    ensures { IfOk result (λ said. MatchOption (line_of next.entry) (said ≡ ClusterLine.Event Line.Bad)
        (λ bytes. SaysToCluster bytes said)) }
{
    match next {
        NextLine::Line(line) => parse_for_cluster(alloc, line),
        NextLine::TooLong => Ok(ClusterLine::Event(Line::Bad)),
        NextLine::End => Ok(ClusterLine::Event(Line::Bad)),
    }
}
