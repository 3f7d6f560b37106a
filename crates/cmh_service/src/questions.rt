//! The site of a service, as questions ask it.

ghost use Rattle.std.specs.Prelude.{◌≡◌, IfOk, IsErr};
ghost use Rattle.cmh_talk.specs.Ends.{TellsLinks};
ghost use Rattle.cmh_talk.specs.Steps.{IsDeclared};
ghost use Rattle.cmh_talk.specs.Replies.{AnswersAs, AnswersOwed, AnswersSaid, AnswersStatus, AnswersWaits};

use cmh_controller::Refusal;
use cmh_frames::{ProcId, SiteId, Topology};
use cmh_host::{FileStation, JournalSink, SiteReply, link_ends};
use cmh_journal::ENTRY_LIMIT;
use cmh_links::{LinkState, LinkView};
use cmh_station::{BoardReader, Declared, KeptBoard, NewestEntries, StationRefusal};
use cmh_talk::{Reply, Said, Status};
use std::alloc::{AllocError, Global};
use std::sync::{Arc, Wait};

/// A running site, as questions ask it. None waits for an event that is being kept.
#[derive(Drop)]
pub(crate) struct Questions<R: Wait + Drop> {
    pub rt: R,
    pub alloc: Global,
    pub topology: Topology,
    pub site: SiteId,
    pub station: Arc<FileStation<R>>,
    pub reader: BoardReader,
    pub links: LinkView<JournalSink, KeptBoard<R>, NewestEntries>,
}

impl<R: Wait + Drop> Questions<R> {
    /// The answer to a line that is no event.
    pub fn answer(&mut self, said: &Said, clients: usize) -> Reply
        ensures { AnswersSaid self.old.topology self.old.site said.now result }
    {
        match said {
            Said::Declared => self.declared(),
            Said::Links => site_reply(self.links()),
            Said::Waits(process) => self.waits_of(*process),
            Said::Owed(process) => self.owed_by(*process),
            Said::Watch => Reply::Watching,
            Said::Status => self.status(clients),
            Said::Event(_) | Said::Quit => Reply::Site(SiteReply::BadLine),
        }
    }

    /// Has what questions are asked take in what was kept meanwhile.
    pub fn catch_up(&self) {
        self.station.catch_up(&self.rt);
    }

    fn declared(&mut self) -> Reply
        ensures { AnswersAs (IsDeclared self.old.site) result }
    {
        match self.declarations() {
            Some(processes) => Reply::Site(SiteReply::Declared(self.site, processes)),
            None => no_memory(),
        }
    }

    /// The list of all that it declared. `None` where memory was refused.
    pub fn declarations(&mut self) -> Option<Declared>
        ensures same { self.new.site ≡ self.old.site }
    {
        let figures = self.station.figures(&self.rt).ok()?;
        let list = self.reader.read()?;
        if list.len() >= figures.declared {
            return Some(list);
        }
        // Memory for showing the newest ones was refused.
        let told = self.station.lock(&self.rt).tell(&self.rt);
        if told.is_err() {
            return None;
        }
        self.reader.read()
    }

    fn links(&self) -> Result<SiteReply, AllocError>
        ensures { IfOk result (TellsLinks self.now.topology self.now.site) }
    {
        link_ends(
            &self.rt,
            self.alloc,
            &self.topology,
            self.site,
            self.links.links(),
        )
    }

    fn waits_of(&self, process: ProcId) -> Reply
        ensures { AnswersWaits process result }
    {
        match self.station.waits_of(&self.rt, process) {
            Ok(others) => Reply::Waits(process, others),
            Err(refusal) => Reply::Site(SiteReply::Refused(refusal)),
        }
    }

    fn owed_by(&self, process: ProcId) -> Reply
        ensures { AnswersOwed process result }
    {
        match self.station.owed_by(&self.rt, process) {
            Ok(others) => Reply::Owed(process, others),
            Err(refusal) => Reply::Site(SiteReply::Refused(refusal)),
        }
    }

    /// The figures of one moment but for the clients and the links.
    fn status(&self, clients: usize) -> Reply
        ensures { AnswersStatus result }
    {
        let (open_out, open_in) = self.open_links();
        let Ok(figures) = self.station.figures(&self.rt) else {
            return no_memory();
        };
        Reply::Status(Status {
            entries: figures.entries,
            room: ENTRY_LIMIT.saturating_sub(figures.entries),
            declared: figures.declared,
            clients,
            open_out,
            open_in,
            is_sealed: figures.is_sealed,
        })
    }

    /// How many links to other sites are open, and how many from them.
    fn open_links(&self) -> (usize, usize) {
        let (mut out, mut into) = (0usize, 0usize);
        let table = self.links.links().lock(&self.rt);
        for site in self.topology.sites() {
            if table.state_out(*site) == Some(LinkState::Running) {
                out = out.saturating_add(1);
            }
            if table.state_in(*site) == Some(LinkState::Running) {
                into = into.saturating_add(1);
            }
        }
        (out, into)
    }
}

/// What a site answers, unless memory was refused.
fn site_reply(reply: Result<SiteReply, AllocError>) -> Reply
    ensures ok { IfOk reply (λ reply. result ≡ Reply.Site reply) }
    ensures err { IsErr reply → result ≡ Reply.Site (SiteReply.Refused (StationRefusal.Rule Refusal.Memory)) }
{
    match reply {
        Ok(reply) => Reply::Site(reply),
        Err(AllocError) => no_memory(),
    }
}

fn no_memory() -> Reply
    ensures { result ≡ Reply.Site (SiteReply.Refused (StationRefusal.Rule Refusal.Memory)) }
{
    Reply::Site(SiteReply::Refused(StationRefusal::Rule(Refusal::Memory)))
}
