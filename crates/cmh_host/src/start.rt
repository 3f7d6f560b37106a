//! How a site starts: its port, its journal, and its threads.

ghost use Rattle.std.specs.Prelude.{◌≡◌, ◌⊎◌, map, IfOk, IfErr};
ghost use Rattle.cmh_talk.specs.Ends.{others_of};
ghost use Rattle.cmh_links.specs.Threads.{link_sites, site_of};

use crate::starting::{Carriers, Opened, RunningSite, Speakers, open_station, start_threads};
use crate::system::System;
use cmh_carriers::{Note, Noting, Origin, Speaker, TcpDial, TcpListen};
use cmh_frames::{SiteId, Topology};
use cmh_links::BacklogLimit;
use cmh_setting::{Disk, NewJournal, Ports, SiteFault, can_be_made, make_journal};
use std::alloc::{AllocError, Global};
use std::fs::File;
use std::net::{Net, TcpListener, TcpStream};
use std::rt::Files;
use std::sync::Wait;
use std::time::{Clock, Duration};

/// What one site is started with.
#[derive(Clone, Copy)]
pub struct SiteStart<'a> {
    /// The bytes of the topology file.
    pub topology: &'a [u8],
    pub site: SiteId,
    /// The path of the journal.
    pub journal: &'a str,
    /// How long sites that can't be connected are tried again, for all together.
    pub patience: Duration,
    /// A link for which more frames wait is closed.
    pub backlog: BacklogLimit,
}

/// The same, where the topology file was read.
#[derive(Clone, Copy)]
pub struct SiteSetup<'a> {
    pub topology: &'a Topology,
    pub ports: &'a Ports,
    pub site: SiteId,
    pub journal: &'a str,
    pub patience: Duration,
    pub backlog: BacklogLimit,
    /// Whether questions are asked of it while it keeps entries.
    pub is_asked: bool,
}

/// Takes the site's port, makes its journal, and starts its threads. What is answered beside them makes its notes.
pub fn start_site<R>(
    rt: R,
    alloc: Global,
    setup: &SiteSetup<'_>,
    noting: &Noting,
) -> Result<RunningSite<R>, SiteFault>
where
    R: System + Files<File = File> + Send + 'static,
    ensures site { IfOk result (λ running. running.handle.site ≡ setup.now.site) }

    // It has a link to each other site.
    ensures links { IfOk result (λ running. link_sites running.threads.places.items running.threads.waiting.items
        ≡ others_of setup.now.topology.now setup.now.site) }
    ensures fault { IfErr result (λ fault. (fault ≡ SiteFault.Listen) ⊎ (fault ≡ SiteFault.JournalDisk)
        ⊎ (fault ≡ SiteFault.Memory)) }
{
    let carriers = make_carriers(rt, alloc, setup, noting)?;
    let opened = open_own(rt, alloc, setup, carriers.speakers.handle.as_ref())?;
    start_own(rt, alloc, setup.topology, opened, carriers)
}

/// Takes the site's port.
fn make_carriers<R>(
    rt: R,
    alloc: Global,
    setup: &SiteSetup<'_>,
    noting: &Noting,
) -> Result<Carriers<R>, SiteFault>
where
    R: System + Files<File = File> + Send + 'static,
    ensures listens { IfOk result (λ carriers. carriers.listen.faults ≡ 0) }
    ensures dials { IfOk result (λ carriers. carriers.dial.faults ≡ 0) }
    ensures fault { IfErr result (λ fault. (fault ≡ SiteFault.Listen) ⊎ (fault ≡ SiteFault.JournalDisk)
        ⊎ (fault ≡ SiteFault.Memory)) }
{
    let Some(port) = setup.ports.of(setup.site) else {
        // Never so: each row has its port.
        return Err(SiteFault::Listen);
    };
    let speakers = make_speakers(noting)?;
    let pairs = setup.ports.pairs(alloc)?;
    let listen = listen_at(&rt, alloc, port, setup.journal)?;
    Ok(Carriers {
        listen,
        dial: TcpDial::new(rt, pairs).with_patience(setup.patience),
        backlog: setup.backlog,
        speakers,
        is_asked: setup.is_asked,
    })
}

/// Who tells what the site notices, where notes are wanted.
fn make_speakers(noting: &Noting) -> Result<Speakers, AllocError> {
    Ok(Speakers {
        handle: noting.speaker(Origin::Alone)?,
        threads: noting.speaker(Origin::Alone)?,
    })
}

/// Makes the site's journal, and its station over it.
fn open_own<R>(
    rt: R,
    alloc: Global,
    setup: &SiteSetup<'_>,
    speaker: Option<&Speaker>,
) -> Result<Opened<R>, SiteFault>
where
    R: System + Files<File = File> + Send + 'static,
    ensures site { IfOk result (λ opened. opened.site ≡ setup.now.site) }
    ensures to { IfOk result (λ opened. map site_of opened.taps.items
        ≡ others_of setup.now.topology.now setup.now.site) }
    ensures fault { IfErr result (λ fault. (fault ≡ SiteFault.JournalDisk) ⊎ (fault ≡ SiteFault.Memory)) }
{
    let journal = make_journal(&rt, alloc, setup.journal)?;
    let NewJournal { sink, kept } = journal;
    let opened = open_station(rt, alloc, setup.topology, setup.site, sink)?;
    note_kept(&rt, speaker, kept);
    Ok(opened)
}

/// Starts the site's threads. It stands apart from [`start_site`], so that its fault is converted where nothing else is held.
fn start_own<R>(
    rt: R,
    alloc: Global,
    topology: &Topology,
    opened: Opened<R>,
    carriers: Carriers<R>,
) -> Result<RunningSite<R>, SiteFault>
where
    R: System + Send + 'static,
    requires listens { carriers.listen.faults ≡ 0 }
    requires dials { carriers.dial.faults ≡ 0 }
    ensures site { IfOk result (λ running. running.handle.site ≡ opened.site) }
    ensures links { IfOk result (λ running. link_sites running.threads.places.items running.threads.waiting.items
        ≡ map site_of opened.taps.items) }
    ensures fault { IfErr result (λ fault. fault ≡ SiteFault.Memory) }
{
    match start_threads(rt, alloc, topology, opened, carriers) {
        Ok(running) => Ok(running),
        Err(AllocError) => Err(SiteFault::Memory),
    }
}

/// Notes the number under which a journal of before was kept.
fn note_kept<R: Wait>(rt: &R, speaker: Option<&Speaker>, kept: Option<u32>) {
    if let (Some(speaker), Some(number)) = (speaker, kept) {
        speaker.note(rt, Note::Kept(number));
    }
}

/// Listens on a port before the journal is made, so that a site which runs already keeps its journal, and one whose port
/// is taken leaves nothing behind. Where both the journal can't be made and the port is taken, the journal is named.
fn listen_at<R>(rt: &R, alloc: Global, port: u16, journal: &str) -> Result<TcpListen<R>, SiteFault>
where
    R: Net<Listener = TcpListener, Stream = TcpStream> + Files<File = File> + Clock + Copy + Drop,
    ensures listens { IfOk result (λ listen. listen.faults ≡ 0) }
    ensures fault { IfErr result (λ fault. (fault ≡ SiteFault.Listen) ⊎ (fault ≡ SiteFault.JournalDisk)
        ⊎ (fault ≡ SiteFault.Memory)) }
{
    if let Ok(listen) = TcpListen::bind(rt, alloc, port) {
        return Ok(listen);
    }
    if can_be_made(&mut Disk::new(rt), alloc, journal)? {
        Err(SiteFault::Listen)
    } else {
        Err(SiteFault::JournalDisk)
    }
}
