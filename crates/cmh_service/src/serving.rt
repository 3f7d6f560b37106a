//! A site as a service: it waits for its clients and for what the site declares.

ghost use Rattle.std.specs.Prelude.{◌≡◌, ◌≢◌, IfErr, IsErr, OnErr, true};
ghost use Rattle.cmh_console.specs.Faults.{NamesFault};
ghost use Rattle.cmh_console.specs.Status.{IsStatus};
ghost use Rattle.cmh_service.specs.ServiceFaults.{IsServiceFault, as_fault};

use crate::clients::MOST_CLIENTS;
use crate::host::Host;
use crate::mailbox::Mailbox;
use crate::questions::Questions;
use crate::rounds::{Asked, Rounds, Wakers};
use crate::server::{MAIL, PAUSE_MILLISECONDS, Server, ServerState, ServerStates};
use crate::service_fault::{ServiceFault, Shortage};
use crate::stand_in::StandIn;
use cmh_carriers::{Noting, Voice};
use cmh_client::Desk;
use cmh_console::{Fault, Output, WriteFault};
use cmh_host::{
    Running, RunningSite, SiteHandle, SiteSetup, SiteStart, System, read_setting, start_site,
};
use cmh_station::BATCH_LIMIT;
use crossbeam_utils::sync::{Parker, Unparker};
use mio::net::TcpListener as Listener;
use mio::{Events, Interest, Poll, Token, Waker};
use std::alloc::{AllocError, Global};
use std::fs::File;
use std::io::{ErrorKind, Write};
use std::net::{Ipv4Addr, Net, SocketAddr, TcpListener, TcpStream};
use std::rt::Files;
use std::sync::{Arc, Mutex, Wait};
use std::thread;
use std::thread::Threads;
use std::time::{Clock, Duration};

/// How many threads serve clients. Their sockets keep several busy where the disk is fast.
const SERVERS: usize = 4;

/// So many clients keep a thread busy. With more, some are answered while the events of others are synced.
const FEW_CLIENTS: usize = BATCH_LIMIT / 2;

/// The port on which clients connect.
const LISTENER: Token = Token(0);

/// A thread can't serve its clients any more.
const ENDED: Token = Token(1);

/// What a site is started with that serves clients.
#[derive(Clone, Copy)]
pub struct ServiceStart<'a> {
    pub site: SiteStart<'a>,
    /// The port of 127.0.0.1 on which clients connect.
    pub port: u16,
}

/// Runs one site of a topology for clients that connect, until the program is ended, and answers the status of the program
/// where it can't go on: 1 where memory ran out, 3 at another fault, which is named on `err`.
///
/// It says `listening` on `out` once both its ports stand, and connects to the other sites by itself. What it and each client
/// say to each other [`service_law`](crate::laws::service_law) says.
pub fn run_service<R, W: Write, E: Write, V>(
    rt: R,
    start: &ServiceStart<'_>,
    out: &mut Output<W>,
    err: &mut Output<E>,
    voice: Option<V>,
) -> u8
where
    R: System + AllocGlobal + Files<File = File> + Send + 'static,
    V: Voice + Send + Drop + 'static,
    ensures status { IsStatus result }

    // It ends at a fault alone, which has a cause.
    ensures ends { result ≢ 0 }
    ensures fault { NamesFault as_fault
        (IsServiceFault start.now.site.topology.now start.now.site.site out.new.has_failed) result err.old err.new }
{
    let Err(fault) = serve_noting(rt, start, out, voice) else {
        unreachable!();
    };
    Fault::from(fault).name_on(err)
}

/// The same, where what the site notices is told by a voice, if there is one, in a thread that nobody waits for.
fn serve_noting<R, W: Write, V>(
    rt: R,
    start: &ServiceStart<'_>,
    out: &mut Output<W>,
    voice: Option<V>,
) -> Result<(), ServiceFault>
where
    R: System + AllocGlobal + Files<File = File> + Send + 'static,
    V: Voice + Send + Drop + 'static,
    ensures ends { IsErr result }
    ensures fault { IfErr result
        (IsServiceFault start.now.site.topology.now start.now.site.site out.new.has_failed) }
{
    let noting = Noting::start(rt, rt.alloc(), voice)?;
    let served = serve_into(rt, rt.alloc(), start, out, &noting);
    noting.end(&rt);
    served
}

fn serve_into<R, W: Write>(
    rt: R,
    alloc: Global,
    start: &ServiceStart<'_>,
    out: &mut Output<W>,
    noting: &Noting,
) -> Result<(), ServiceFault>
where
    R: System + Files<File = File> + Send + 'static,
    ensures ends { IsErr result }
    ensures fault { IfErr result
        (IsServiceFault start.now.site.topology.now start.now.site.site out.new.has_failed) }
{
    let own = &start.site;
    let setting = read_setting(alloc, own.topology)?;
    if !setting.world.has_site(own.site) {
        return Err(ServiceFault::Site);
    }
    let acceptor = Acceptor::open(&rt, start.port)?;
    let setup = SiteSetup {
        topology: &setting.world,
        ports: &setting.ports,
        site: own.site,
        journal: own.journal,
        patience: own.patience,
        backlog: own.backlog,
        is_asked: true,
    };
    let running = start_site(rt, alloc, &setup, noting)?;
    let RunningSite { handle, threads } = running;
    let Ok(links) = threads.view() else {
        end(threads);
        return Err(ServiceFault::Memory);
    };
    let Ok(station) = Arc::try_clone(&handle.station) else {
        end(threads);
        return Err(ServiceFault::Memory);
    };
    let SiteHandle {
        site,
        station: asked,
        reader,
        speaker,
    } = handle;
    let host = Host {
        rt,
        station,
        speaker,
    };
    let questions = Questions {
        rt,
        alloc,
        topology: setting.world,
        site,
        station: asked,
        reader,
        links,
    };
    if say_listening(out).is_err() {
        end(threads);
        return Err(ServiceFault::Output);
    }
    let asked = Asked { host, questions };
    Err(ServiceFault::from(serve_beside(rt, alloc, asked, acceptor, threads)))
}

fn say_listening<W: Write>(out: &mut Output<W>) -> Result<(), WriteFault>
    ensures { OnErr result (out.new.has_failed ≡ true) }
{
    out.write_line("listening")?;
    out.flush()?;
    Ok(())
}

/// Ends the threads of a site that can't go on.
fn end<R>(threads: Running<R>)
where
    R: System + Send + 'static,
{
    threads.cut_off();
    let _ = threads.stop();
}

/// Connects the site to the others while threads serve clients, and answers why that ends.
fn serve_beside<R>(
    rt: R,
    alloc: Global,
    asked: Asked<R>,
    acceptor: Acceptor,
    mut threads: Running<R>,
) -> Shortage
where
    R: Wait
        + Threads
        + Clock
        + Net<Listener = TcpListener, Stream = TcpStream>
        + Copy
        + Send
        + Drop
        + 'static,
{
    let rounds = match start_servers(rt, alloc, asked, &acceptor) {
        Ok(rounds) => rounds,
        Err(shortage) => {
            end(threads);
            return shortage;
        }
    };
    let Ok(accepting) = thread::spawn(&rt, move || acceptor.accept_all(&rt, alloc, &rounds)) else {
        end(threads);
        return Shortage::Memory;
    };
    let _ = threads.connect();
    let shortage = accepting.join(&rt);
    end(threads);
    shortage
}

/// Starts the threads that serve clients, one that stands in for them, and one that wakes them at each declaration. Each
/// thing that can fail stands in a function of its own, which has less to drop then.
fn start_servers<R>(
    rt: R,
    alloc: Global,
    asked: Asked<R>,
    acceptor: &Acceptor,
) -> Result<Arc<Rounds<R>>, Shortage>
where
    R: Wait + Threads + Net + Clock + Copy + Send + Drop + 'static,
{
    let Polled { mailboxes, states } = make_polls(&rt, alloc)?;
    let parker = watch(alloc, &asked.host)?;
    let begun = Parker::new(alloc)?;
    let rounds = make_rounds(alloc, asked, mailboxes, acceptor, begun.unparker().clone()?)?;
    start_passing(rt, parker, &rounds)?;
    start_stand_in(rt, begun, &states, &rounds)?;
    for number in 0..SERVERS {
        start_server(rt, alloc, number, &states, &rounds)?;
    }
    Ok(rounds)
}

/// What each thread that serves clients waits on, and where it is told something.
#[derive(Drop)]
struct Polled {
    mailboxes: Vec<Mailbox>,
    states: ServerStates,
}

fn make_polls<R: Net>(rt: &R, alloc: Global) -> Result<Polled, Shortage> {
    let mut mailboxes = Vec::with_capacity(alloc, SERVERS)?;
    let mut states = Vec::with_capacity(alloc, SERVERS)?;
    for number in 0..SERVERS {
        let Ok(poll) = Poll::new(rt) else {
            return Err(Shortage::Listen);
        };
        mailboxes.push(mailbox_of(alloc, &poll)?)?;
        states.push(Mutex::new(ServerState::new(alloc, number, poll)?))?;
    }
    Ok(Polled {
        mailboxes,
        states: Arc::new(alloc, states)?,
    })
}

/// The mailbox of the thread that waits on this.
fn mailbox_of(alloc: Global, poll: &Poll) -> Result<Mailbox, Shortage> {
    let Ok(waker) = Waker::new(poll.registry(), MAIL) else {
        return Err(Shortage::Listen);
    };
    Ok(Mailbox::new(alloc, waker)?)
}

/// What is woken at each declaration of the site.
fn watch<R: Wait + Drop>(alloc: Global, host: &Host<R>) -> Result<Parker, Shortage> {
    let parker = Parker::new(alloc)?;
    host.station.watch(parker.unparker().clone()?);
    Ok(parker)
}

fn make_rounds<R: Wait + Drop>(
    alloc: Global,
    asked: Asked<R>,
    mailboxes: Vec<Mailbox>,
    acceptor: &Acceptor,
    stand_in: Unparker,
) -> Result<Arc<Rounds<R>>, Shortage> {
    let Ok(waker) = Waker::new(acceptor.poll.registry(), ENDED) else {
        return Err(Shortage::Listen);
    };
    let mailboxes = Arc::new(alloc, mailboxes)?;
    let desk = Desk::new(alloc)?;
    let wakers = Wakers {
        acceptor: waker,
        stand_in,
    };
    let rounds = Rounds::new(asked, desk, mailboxes, wakers);
    Ok(Arc::new(alloc, rounds)?)
}

/// Starts the thread that tells the others each declaration.
fn start_passing<R>(rt: R, parker: Parker, rounds: &Arc<Rounds<R>>) -> Result<(), Shortage>
where
    R: Wait + Threads + Net + Copy + Send + Drop + 'static,
{
    let theirs = Arc::try_clone(rounds)?;
    match thread::spawn(&rt, move || pass_on(rt, &parker, &theirs)) {
        Ok(_) => Ok(()),
        Err(_) => Err(Shortage::Memory),
    }
}

/// Starts the thread that stands in for those that serve clients.
fn start_stand_in<R>(
    rt: R,
    begun: Parker,
    states: &ServerStates,
    rounds: &Arc<Rounds<R>>,
) -> Result<(), Shortage>
where
    R: Wait + Threads + Net + Clock + Copy + Send + Drop + 'static,
{
    let states = Arc::try_clone(states)?;
    let stand_in = StandIn::new(rt, begun, states, Arc::try_clone(rounds)?);
    match thread::spawn(&rt, move || stand_in.watch_all()) {
        Ok(_) => Ok(()),
        Err(_) => Err(Shortage::Memory),
    }
}

/// Starts a thread that serves clients.
fn start_server<R>(
    rt: R,
    alloc: Global,
    number: usize,
    states: &ServerStates,
    rounds: &Arc<Rounds<R>>,
) -> Result<(), Shortage>
where
    R: Wait + Threads + Net + Copy + Send + Drop + 'static,
{
    let states = Arc::try_clone(states)?;
    let mut server = Server::new(rt, alloc, number, states, Arc::try_clone(rounds)?)?;
    match thread::spawn(&rt, move || server.serve_all()) {
        Ok(_) => Ok(()),
        Err(_) => Err(Shortage::Memory),
    }
}

/// Tells the threads that serve clients each declaration.
fn pass_on<R: Wait + Drop>(rt: R, parker: &Parker, rounds: &Rounds<R>) {
    for _ in rt.forever() {
        parker.park(&rt);
        for mailbox in rounds.mailboxes.iter() {
            mailbox.tell_news();
        }
    }
}

/// Where clients come in.
#[derive(Drop)]
struct Acceptor {
    poll: Poll,
    listener: Listener,
}

impl Acceptor {
    fn open<R: Net>(rt: &R, port: u16) -> Result<Acceptor, Shortage> {
        let address = SocketAddr::from((Ipv4Addr::LOCALHOST, port));
        let (Ok(poll), Ok(mut listener)) = (Poll::new(rt), Listener::bind(rt, address)) else {
            return Err(Shortage::Listen);
        };
        let registered = poll
            .registry()
            .register(&mut listener, LISTENER, Interest::READABLE);
        match registered {
            Ok(()) => Ok(Acceptor { poll, listener }),
            Err(_) => Err(Shortage::Listen),
        }
    }

    /// Lets clients in until that can't go on.
    fn accept_all<R: Wait + Drop>(self, rt: &R, alloc: Global, rounds: &Rounds<R>) -> Shortage {
        let mut acceptor = self;
        let Ok(mut events) = Events::with_capacity(alloc, 1) else {
            return Shortage::Memory;
        };
        let mut may_accept = true;
        for _ in rt.forever() {
            let patience = if may_accept {
                Some(Duration::from_millis(PAUSE_MILLISECONDS))
            } else {
                None
            };
            if acceptor.poll.poll(&mut events, patience).is_err() || rounds.has_ended() {
                return Shortage::Listen;
            }
            may_accept = acceptor.accept(rt, rounds);
        }
        unreachable!()
    }

    /// Lets in those that wait. Answers whether some may wait still.
    fn accept<R: Wait + Drop>(&mut self, rt: &R, rounds: &Rounds<R>) -> bool {
        for turn in 0..u64::MAX {
            match self.listener.accept() {
                Ok((stream, _)) => let_in(rt, rounds, stream),
                Err(error) => match error.kind() {
                    ErrorKind::WouldBlock => return false,
                    ErrorKind::Interrupted | ErrorKind::ConnectionAborted => {}
                    _ => return true,
                },
            }
        }
        true
    }
}

/// Gives a client to the first thread that has few, or else to the one that has the fewest. Where there are too many, its
/// connection is closed.
fn let_in<R: Wait + Drop>(rt: &R, rounds: &Rounds<R>, stream: mio::net::TcpStream) {
    if rounds.clients() >= MOST_CLIENTS {
        return;
    }
    let mailboxes = &rounds.mailboxes;
    let first = mailboxes
        .iter()
        .find(|mailbox| mailbox.clients() < FEW_CLIENTS);
    let chosen = match first {
        Some(mailbox) => Some(mailbox),
        None => mailboxes.iter().min_by_key(|mailbox| mailbox.clients()),
    };
    if let Some(mailbox) = chosen {
        mailbox.bring(rt, stream);
    }
}
