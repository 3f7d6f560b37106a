//! The program: it reads its command line and calls a command.
#![tactic(auto)]

ghost use Rattle.std.specs.Prelude.{◌≡◌, ℕ, List, Option, Some, codes};
ghost use Rattle.clap.specs.Matches.{found_of, one_text};
ghost use Rattle.cmh_commands.specs.Files.{IsUnset};
ghost use Rattle.cmh_commands.specs.Numbers.{TellsNumber};
ghost use Rattle.cmh_commands.specs.Paging.{PlaysToPage};
ghost use Rattle.cmh_commands.specs.Playing.{PlaysAlone, PlaysScript};
ghost use Rattle.cmh.specs.CommandLine.{IsEnd, NamesEdition, NamesFolder, NamesNoEdition, NamesNoFolder, NamesNoPageFile, NamesPlay};
ghost use Rattle.cmh.specs.Commands.{Runs};
ghost use Rattle.cmh.specs.Playing.{PlaysEdition3};
ghost use Rattle.cmh_play3.specs.Plays.{PlaysInto};
ghost use Rattle.cmh.specs.Serving.{ServesCluster, ServesCluster3, ServesFile, ServesSite, ServesSome, ServesStrictly, SiteEnds};
ghost use Rattle.cmh_frames.specs.Number.{IsNumber};
ghost use Rattle.cmh_console.specs.Status.{IsStatus};
ghost use Rattle.cmh_cluster.specs.ClusterEndings.{ClusterEnds};
ghost use Rattle.cmh_serve3.specs.Setting.{IsOfEdition3};
ghost use Rattle.cmh_cluster.specs.Descriptors.{StrictlyEnds};

use clap::{ArgMatches, Error, error};
use cmh_archive3::RecordFiles;
use cmh_carriers::{Noted, Voice};
use cmh_clients3::SiteNote;
use cmh_cluster::{
    ClusterEnd, ClusterStart, Shortage, allowed_descriptors, run_cluster_counting,
    run_cluster_strictly, shortage_of,
};
use cmh_cluster3::{ClusterStart3, run_cluster3};
use cmh_commands::{
    ClusterFiles, audit, cluster_files_of, draw_or_page, play_into, play_page, restore,
    run_new_world, segments, show,
};
use cmh_console::{Ahead, Fault, Input, Output};
use cmh_disk3::Start;
use cmh_explain::{Listener, explanation};
use cmh_frames::SiteId;
use cmh_host::{BacklogLimit, SiteStart, System};
use cmh_inputs::{Disk, read_topology};
use cmh_options::{
    AUDIT, BACKLOG, CLUSTER, DRAW, EDITION, EXPLAIN, Help, JOURNAL, JOURNALS, NEW, NEW_WORLD,
    NOTES, OUT, PAGE, PATIENCE, PLAY, PORT, QUIET, RESTORE, SEGMENTS, SERVE, SHOW, SITE, STRICT,
    TO, TOPOLOGY, WAIT_FOR_PEERS, command,
};
use cmh_play::run_play;
use cmh_play3::{run_play3, run_play3_into};
use cmh_restore3::NewFolders;
use cmh_run_site::run_site_noting;
use cmh_serve3::{ServeStart, SiteVoice, is_of_edition3, run_service3, run_site3};
use cmh_service::{ServiceStart, run_service};
use std::alloc::AllocError;
use std::fs::File;
use std::io::{BufRead, BufReader, BufWriter, ErrorKind, IsTerminal, Write};
use std::net::{Net, TcpListener, TcpStream};
use std::process::ExitCode;
use std::rt::{Clock, Env, Files};
use std::sync::Wait;
use std::thread::Threads;
use std::time::Duration;
use std::{env, io};

fn words<R: Env + AllocGlobal>(rt: &R) -> io::Result<Vec<String>> {
    let mut words = Vec::new(rt.alloc());
    for word in env::args(rt)? {
        words.push(word)?;
    }
    Ok(words)
}

/// Whether a person types the input, and whether one reads what is told on standard error.
#[derive(Clone, Copy)]
struct Terminals {
    input: bool,
    error: bool,
}

/// Reads the command line and runs the command; answers the status.
fn run<R, I: BufRead + Ahead, W: Write, E: Write>(
    rt: &R,
    terminals: Terminals,
    input: &mut Input<I>,
    out: &mut Output<W>,
    err: &mut Output<E>,
) -> u8
where
    R: Env
        + Print
        + Eprint
        + AllocGlobal
        + Files<File = File>
        + Clock
        + Wait
        + Threads
        + Net<Listener = TcpListener, Stream = TcpStream>
        + Copy
        + Send
        + Sync
        + Drop
        + 'static,
    ensures { IsEnd result }
{
    match words(rt) {
        Ok(words) => run_words(rt, terminals, words.as_slice(), input, out, err),
        Err(error) if error.kind() == ErrorKind::OutOfMemory => Fault::Memory.name_on(err),
        Err(_) => {
            let _ = eprintln!(rt; "error: a word of the command line is not UTF-8");
            2
        }
    }
}

/// Runs the command that the words of a command line name; answers the status.
fn run_words<R, I: BufRead + Ahead, W: Write, E: Write>(
    rt: &R,
    terminals: Terminals,
    words: &[String],
    input: &mut Input<I>,
    out: &mut Output<W>,
    err: &mut Output<E>,
) -> u8
where
    R: System + AllocGlobal + Env + Print + Eprint + Files<File = File> + Send + Sync + 'static,
    ensures { IsEnd result }
{
    let alloc = rt.alloc();
    let Ok(help) = Help::new(alloc) else {
        return Fault::Memory.name_on(err);
    };
    let Ok(command) = command(alloc, &help) else {
        return Fault::Memory.name_on(err);
    };
    match command.try_get_matches_from(words) {
        Ok(matches) => {
            greet(rt, terminals, &matches);
            run_command(rt, terminals, &matches, input, out, err)
        }
        Err(error) if error.kind() == error::ErrorKind::OutOfMemory => Fault::Memory.name_on(err),
        Err(error) => print_words(rt, &error, err),
    }
}

/// Prints the help or the version that was asked for, or why a command line isn't understood; answers the status.
fn print_words<R: Print + Eprint, E: Write>(rt: &R, error: &Error, err: &mut Output<E>) -> u8
    ensures { IsEnd result }
{
    let printed = error.print(rt);
    if error.use_stderr() {
        // A write to standard error that fails is ignored.
        return 2;
    }
    match printed {
        Ok(()) => 0,
        Err(_) => Fault::Output.name_on(err),
    }
}

/// What a person is told who types a script.
const GREETING: &str =
    "cmh reads the lines of a script from here; Ctrl-D ends it, `report` audits, `cmh --help` has more";

/// Greets the person who types a script.
fn greet<R: Eprint>(rt: &R, terminals: Terminals, matches: &ArgMatches<'_>) {
    if terminals.input && plays(matches) {
        // A write to standard error that fails is ignored.
        let _ = eprintln!(rt; "{GREETING}");
    }
}

/// Whether the words name `play`, or no command.
fn plays(matches: &ArgMatches<'_>) -> bool {
    matches.subcommand().is_none() || matches.subcommand_matches(PLAY).is_some()
}

/// Runs the command that the words name, and explains its fault to people; answers the status.
fn run_command<R, I: BufRead + Ahead, W: Write, E: Write>(
    rt: &R,
    terminals: Terminals,
    matches: &ArgMatches<'_>,
    input: &mut Input<I>,
    out: &mut Output<W>,
    err: &mut Output<E>,
) -> u8
where
    R: System + AllocGlobal + Eprint + Files<File = File> + Send + Sync + 'static,
    ensures { IsStatus result }
{
    let mut listener = Listener::new(rt.alloc(), err);
    let mut heard = Output::new(&mut listener);
    let status = carry_out(rt, terminals, matches, input, out, &mut heard);
    let line = listener.into_heard();
    if !line.is_empty() {
        explain(rt, terminals, words_of(matches), &line, err);
    }
    status
}

/// The words of the command that is named; where none is, those of `cmh` itself.
fn words_of<'m, 'a>(matches: &'m ArgMatches<'a>) -> &'m ArgMatches<'a> {
    if let Some((_, words)) = matches.subcommand() {
        return words;
    }
    matches
}

/// Explains the line of a fault at a terminal, and to whom asks for that.
fn explain<R: AllocGlobal + Files, E: Write>(
    rt: &R,
    terminals: Terminals,
    words: &ArgMatches<'_>,
    line: &[u8],
    err: &mut Output<E>,
) {
    if terminals.error || words.get_flag(EXPLAIN) {
        if let Ok(text) = explanation(rt, words, line) {
            // A write to standard error that fails is ignored.
            let _ = err.write_line(text.as_str());
        }
    }
}

/// Runs the command that the words name; `play` where they name none.
fn carry_out<R, I: BufRead + Ahead, W: Write, E: Write>(
    rt: &R,
    terminals: Terminals,
    matches: &ArgMatches<'_>,
    input: &mut Input<I>,
    out: &mut Output<W>,
    err: &mut Output<E>,
) -> u8
where
    R: System + AllocGlobal + Eprint + Files<File = File> + Send + Sync + 'static,
    ensures { Runs matches.now input.old input.new out.old out.new err.old err.new result }
{
    if let Some(words) = matches.subcommand_matches(AUDIT) {
        let mut records = RecordFiles::new(rt);
        return audit(rt, &Disk::new(rt), words, &mut records, out, err);
    }
    if let Some(words) = matches.subcommand_matches(DRAW) {
        return draw_or_page(rt.alloc(), &Disk::new(rt), words, out, err);
    }
    if let Some(words) = matches.subcommand_matches(SHOW) {
        return show(rt.alloc(), &Disk::new(rt), words, out, err);
    }
    if matches.subcommand_matches(NEW_WORLD).is_some() {
        return run_new_world(rt, out, err);
    }
    if let Some(words) = matches.subcommand_matches(SITE) {
        return serve_site(rt, words, input, out, err);
    }
    if let Some(words) = matches.subcommand_matches(SERVE) {
        return serve_clients(rt, words, out, err);
    }
    if let Some(words) = matches.subcommand_matches(CLUSTER) {
        return serve_cluster(rt, terminals, words, out, err);
    }
    if let Some(words) = matches.subcommand_matches(SEGMENTS) {
        return segments(rt.alloc(), &Disk::new(rt), words, out, err);
    }
    if let Some(words) = matches.subcommand_matches(RESTORE) {
        return restore_into(rt, words, out, err);
    }
    play(rt, matches, input, out, err)
}

/// Sets a world back, into the folder that the words name.
fn restore_into<R, W: Write, E: Write>(
    rt: &R,
    words: &ArgMatches<'_>,
    out: &mut Output<W>,
    err: &mut Output<E>,
) -> u8
where
    R: AllocGlobal + Files<File = File>,
    ensures { IsStatus result }
{
    let mut folders = NewFolders::new(rt, words.get_str(TO).unwrap_or(""));
    restore(rt.alloc(), &Disk::new(rt), words, &mut folders, out, err)
}

/// Plays a script, one of edition 3 where the words of `play` ask for that.
fn play<R, I: BufRead + Ahead, W: Write, E: Write>(
    rt: &R,
    matches: &ArgMatches<'_>,
    input: &mut Input<I>,
    out: &mut Output<W>,
    err: &mut Output<E>,
) -> u8
where
    R: System + AllocGlobal + Eprint + Files<File = File> + Send + 'static,
    ensures status { IsStatus result }
    ensures plays { NamesNoEdition matches.now → NamesNoPageFile matches.now
        → PlaysScript input.old input.new out.old out.new err.old err.new result }
    ensures to_page { NamesNoEdition matches.now
        → PlaysToPage input.old input.new out.old out.new err.old err.new result }
    ensures alone { NamesNoEdition matches.now → NamesNoFolder matches.now → NamesNoPageFile matches.now
        → PlaysAlone input.old input.new out.old out.new err.old err.new result }
    ensures edition3 { NamesPlay matches.now → (edition : List ℕ) → NamesEdition matches.now edition
        → NamesNoFolder matches.now → PlaysEdition3 input.old input.new out.old out.new err.old err.new result }
    ensures edition3_into { NamesPlay matches.now → (edition folder : List ℕ) → NamesEdition matches.now edition
        → NamesFolder matches.now folder → PlaysInto input.old input.new out.old out.new err.old err.new result }
{
    if let Some(words) = matches.subcommand_matches(PLAY) {
        if words.get_str(EDITION).is_some() {
            if let Some(path) = words.get_str(JOURNALS) {
                return run_play3_into(rt, path, input, out, err);
            }
            return run_play3(rt.alloc(), input, out, err);
        }
        if let Some(path) = words.get_str(JOURNALS) {
            return play_into(rt, path, input, out, err);
        }
        if let Some(path) = words.get_str(PAGE) {
            return play_page(rt, path, input, out, err);
        }
    }
    run_play(rt.alloc(), input, out, err)
}

/// Runs the site that the words name.
fn serve_site<R, I: BufRead + Ahead, W: Write, E: Write>(
    rt: &R,
    words: &ArgMatches<'_>,
    input: &mut Input<I>,
    out: &mut Output<W>,
    err: &mut Output<E>,
) -> u8
where
    R: System + AllocGlobal + Eprint + Files<File = File> + Send + 'static,
    ensures status { IsStatus result }
    ensures serves { (site : ℕ) → IsNumber site
        → TellsNumber (one_text (found_of words.now) (codes "site")) site
        → ServesSite site input.old input.new out.old out.new err.old err.new result }
    ensures serves_some { ServesSome input.old input.new out.old out.new err.old err.new result }
{
    let path = words.get_str(TOPOLOGY).unwrap_or("");
    let topology = match read_topology(rt.alloc(), &Disk::new(rt), path) {
        Ok(bytes) => bytes,
        Err(fault) => return Fault::from(fault).name_on(err),
    };
    let Some(site) = SiteId::new(number_of(words)) else {
        // Never so: the command line takes no other number.
        return Fault::Site.name_on(err);
    };
    serve_site_on(rt, words, &topology, site, input, out, err)
}

/// Runs a site of the edition of its topology file.
#[tactic(auto, using(crate::proofs::Serving::in_edition3, crate::proofs::Serving::in_older))]
fn serve_site_on<R, I: BufRead + Ahead, W: Write, E: Write>(
    rt: &R,
    words: &ArgMatches<'_>,
    topology: &[u8],
    site: SiteId,
    input: &mut Input<I>,
    out: &mut Output<W>,
    err: &mut Output<E>,
) -> u8
where
    R: System + AllocGlobal + Eprint + Files<File = File> + Send + 'static,
    ensures status { IsStatus result }
    ensures serves { ServesFile topology.now site input.old input.new out.old out.new err.old err.new result }
{
    match is_of_edition3(rt.alloc(), topology) {
        Ok(true) => serve_site3(rt, words, topology, site, input, out, err),
        Ok(false) => serve_site_of(rt, words, topology, site, input, out, err),
        Err(AllocError) => Fault::Memory.name_on(err),
    }
}

/// Runs a site of edition 3.
fn serve_site3<R, I: BufRead + Ahead, W: Write, E: Write>(
    rt: &R,
    words: &ArgMatches<'_>,
    topology: &[u8],
    site: SiteId,
    input: &mut Input<I>,
    out: &mut Output<W>,
    err: &mut Output<E>,
) -> u8
where
    R: System + AllocGlobal + Eprint + Files<File = File> + Send + 'static,
    ensures { IsStatus result }
{
    let start = ServeStart {
        topology,
        site,
        journal: words.get_str(JOURNAL).unwrap_or(""),
        start: beginning_of(words),
        waits_for_peers: words.get_flag(WAIT_FOR_PEERS),
    };
    run_site3(rt, &start, input, out, err, voice_of(rt, words))
}

/// Runs a site of edition 1 or 2.
fn serve_site_of<R, I: BufRead + Ahead, W: Write, E: Write>(
    rt: &R,
    words: &ArgMatches<'_>,
    topology: &[u8],
    site: SiteId,
    input: &mut Input<I>,
    out: &mut Output<W>,
    err: &mut Output<E>,
) -> u8
where
    R: System + AllocGlobal + Eprint + Files<File = File> + Send + 'static,
    ensures status { IsStatus result }
    ensures ends { SiteEnds topology.now site input.old input.new out.old out.new err.old err.new result }
{
    let start = SiteStart {
        topology,
        site,
        journal: words.get_str(JOURNAL).unwrap_or(""),
        patience: patience_of(words),
        backlog: backlog_of(words),
    };
    let voice = voice_of(rt, words);
    match run_site_noting(*rt, &start, input, out, voice) {
        Ok(()) => 0,
        Err(fault) => Fault::from(fault).name_on(err),
    }
}

/// Runs the site that the words name for clients.
fn serve_clients<R, W: Write, E: Write>(
    rt: &R,
    words: &ArgMatches<'_>,
    out: &mut Output<W>,
    err: &mut Output<E>,
) -> u8
where
    R: System + AllocGlobal + Eprint + Files<File = File> + Send + 'static,
    ensures status { IsStatus result }
{
    let path = words.get_str(TOPOLOGY).unwrap_or("");
    let topology = match read_topology(rt.alloc(), &Disk::new(rt), path) {
        Ok(bytes) => bytes,
        Err(fault) => return Fault::from(fault).name_on(err),
    };
    let Some(own) = SiteId::new(number_of(words)) else {
        // Never so: the command line takes no other number.
        return Fault::Site.name_on(err);
    };
    match is_of_edition3(rt.alloc(), &topology) {
        Ok(true) => return serve_clients3(rt, words, &topology, own, out, err),
        Ok(false) => {}
        Err(AllocError) => return Fault::Memory.name_on(err),
    }
    let start = ServiceStart {
        site: SiteStart {
            topology: &topology,
            site: own,
            journal: words.get_str(JOURNAL).unwrap_or(""),
            patience: patience_of(words),
            backlog: backlog_of(words),
        },
        port: words.get_one(PORT).unwrap_or(0),
    };
    let voice = if words.get_flag(QUIET) {
        None
    } else {
        Some(OnError { rt: *rt })
    };
    run_service(*rt, &start, out, err, voice)
}

/// Runs a site of edition 3 for clients.
fn serve_clients3<R, W: Write, E: Write>(
    rt: &R,
    words: &ArgMatches<'_>,
    topology: &[u8],
    site: SiteId,
    out: &mut Output<W>,
    err: &mut Output<E>,
) -> u8
where
    R: System + AllocGlobal + Eprint + Files<File = File> + Send + 'static,
    ensures { IsStatus result }
{
    let start = ServeStart {
        topology,
        site,
        journal: words.get_str(JOURNAL).unwrap_or(""),
        start: beginning_of(words),
        waits_for_peers: words.get_flag(WAIT_FOR_PEERS),
    };
    let port = words.get_one(PORT).unwrap_or(0);
    run_service3(rt, &start, port, out, err, voice_of(rt, words))
}

/// How a site of edition 3 begins.
fn beginning_of(words: &ArgMatches<'_>) -> Start {
    if words.get_flag(NEW) {
        Start::New
    } else {
        Start::Again
    }
}

/// Tells notes on standard error.
#[derive(Drop)]
struct OnError<R: Eprint + Drop> {
    rt: R,
}

impl<R: Eprint + Drop> Voice for OnError<R> {
    fn tell(&self, noted: &Noted) {
        // A write to standard error that fails is ignored.
        let _ = eprintln!(self.rt; "{noted}");
    }
}

impl<R: Eprint + Drop> SiteVoice for OnError<R> {
    fn tell(&self, note: &SiteNote) {
        // A write to standard error that fails is ignored.
        let _ = eprintln!(self.rt; "{note}");
    }
}

/// What tells the notes of sites, where the words ask for them.
fn voice_of<R: Eprint + Copy + Drop>(rt: &R, words: &ArgMatches<'_>) -> Option<OnError<R>> {
    if words.get_flag(NOTES) {
        Some(OnError { rt: *rt })
    } else {
        None
    }
}

/// How long sites that don't listen yet are tried again.
fn patience_of(words: &ArgMatches<'_>) -> Duration {
    let seconds: u16 = words.get_one(PATIENCE).unwrap_or(0);
    Duration::from_secs(u64::from(seconds))
}

/// How many frames may wait for a link.
fn backlog_of(words: &ArgMatches<'_>) -> BacklogLimit {
    match words.get_one(BACKLOG) {
        Some(megabytes) => BacklogLimit::of_megabytes(megabytes),
        None => BacklogLimit::default(),
    }
}

/// The number of the site that the words name. The command line takes no word that is none.
fn number_of(words: &ArgMatches<'_>) -> u16
    ensures { (site : ℕ) → IsNumber site
        → TellsNumber (one_text (found_of words.now) (codes "site")) site → result ≡ site }
{
    words.get_one(SITE).unwrap_or(0)
}

/// Runs all sites of the topology that the words name.
fn serve_cluster<R, W: Write, E: Write>(
    rt: &R,
    terminals: Terminals,
    words: &ArgMatches<'_>,
    out: &mut Output<W>,
    err: &mut Output<E>,
) -> u8
where
    R: System + AllocGlobal + Eprint + Files<File = File> + Send + 'static,
    ensures status { IsStatus result }
    ensures serves { IsUnset (one_text (found_of words.now) (codes "strict"))
        → ServesCluster out.old out.new err.old err.new result }
    ensures serves_strictly { one_text (found_of words.now) (codes "strict") ≡ Some (codes "true")
        → ServesStrictly out.old out.new err.old err.new result }
{
    let files = match cluster_files_of(rt, words) {
        Ok(files) => files,
        Err(fault) => return Fault::from(fault).name_on(err),
    };
    match is_of_edition3(rt.alloc(), &files.topology) {
        Ok(true) => serve_cluster3(rt, words, &files, out, err),
        Ok(false) => serve_cluster_of(rt, terminals, words, &files, out, err),
        Err(AllocError) => Fault::Memory.name_on(err),
    }
}

/// Runs all sites of a topology file that is not of edition 3.
fn serve_cluster_of<R, W: Write, E: Write>(
    rt: &R,
    terminals: Terminals,
    words: &ArgMatches<'_>,
    files: &ClusterFiles,
    out: &mut Output<W>,
    err: &mut Output<E>,
) -> u8
where
    R: System + AllocGlobal + Eprint + Files<File = File> + Send + 'static,
    ensures status { IsStatus result }
    ensures serves { IsUnset (one_text (found_of words.now) (codes "strict"))
        → ServesCluster out.old out.new err.old err.new result }
    ensures serves_strictly { one_text (found_of words.now) (codes "strict") ≡ Some (codes "true")
        → ServesStrictly out.old out.new err.old err.new result }
{
    let start = ClusterStart {
        topology: &files.topology,
        script: &files.script,
        dir: words.get_str(OUT).unwrap_or(""),
    };
    let end = run_all(rt, words, &start, out, err);
    if end.unopened > 0 && (terminals.error || words.get_flag(EXPLAIN)) {
        warn_of_links(rt, &files.topology, end.unopened);
    }
    end.status
}

/// Runs all sites of a topology of edition 3. They need no descriptors and notice nothing by themselves, so a strict cluster
/// is as any other, and `--notes` tells nothing.
fn serve_cluster3<R, W: Write, E: Write>(
    rt: &R,
    words: &ArgMatches<'_>,
    files: &ClusterFiles,
    out: &mut Output<W>,
    err: &mut Output<E>,
) -> u8
where
    R: AllocGlobal + Files<File = File>,
    requires { IsOfEdition3 files.now.topology.items }
    ensures status { IsStatus result }
    ensures serves { ServesCluster3 out.old out.new err.old err.new result }
{
    let start = ClusterStart3 {
        topology: &files.topology,
        script: &files.script,
        dir: words.get_str(OUT).unwrap_or(""),
    };
    run_cluster3(rt, &start, out, err)
}

/// Runs all sites, strictly where the words ask for it.
fn run_all<R, W: Write, E: Write>(
    rt: &R,
    words: &ArgMatches<'_>,
    start: &ClusterStart<'_>,
    out: &mut Output<W>,
    err: &mut Output<E>,
) -> ClusterEnd
where
    R: System + AllocGlobal + Eprint + Files<File = File> + Send + 'static,
    ensures status { IsStatus result.status }
    ensures ends { IsUnset (one_text (found_of words.now) (codes "strict"))
        → ClusterEnds start.now.topology.now start.now.script.now out.old out.new err.old err.new result.status }
    ensures strictly { one_text (found_of words.now) (codes "strict") ≡ Some (codes "true")
        → StrictlyEnds start.now.topology.now start.now.script.now out.old out.new err.old err.new
        result.status result.unopened }
    ensures opened { one_text (found_of words.now) (codes "strict") ≡ Some (codes "true")
        → result.status ≡ 0 → result.unopened ≡ 0 }
{
    if words.get_flag(STRICT) {
        return run_cluster_strictly(*rt, start, out, err, voice_of(rt, words));
    }
    run_cluster_counting(*rt, start, out, err, voice_of(rt, words))
}

/// Says on standard error how many links could not be opened, and whether that was for want of descriptors.
fn warn_of_links<R: AllocGlobal + Eprint>(rt: &R, topology: &[u8], unopened: usize) {
    let allowed = allowed_descriptors().unwrap_or(u64::MAX);
    // A write to standard error that fails is ignored.
    let _ = match shortage_of(rt.alloc(), topology, allowed) {
        Ok(Some(Shortage { needed, allowed })) => eprintln!(rt;
            "warning: {unopened} of the links could not be opened: all sites need {needed} descriptors, and the limit is {allowed}"
        ),
        _ => eprintln!(rt; "warning: {unopened} of the links could not be opened"),
    };
}

fn main(rt: HostRuntime) -> ExitCode {
    let terminals = Terminals {
        input: rt.stdin().is_terminal(),
        error: rt.stderr().is_terminal(),
    };
    let mut err = Output::new(rt.stderr());
    let Ok(input) = BufReader::new(rt.alloc(), rt.stdin()) else {
        return ExitCode::from(Fault::Memory.name_on(&mut err));
    };
    let Ok(out) = BufWriter::new(rt.alloc(), rt.stdout()) else {
        return ExitCode::from(Fault::Memory.name_on(&mut err));
    };
    let mut input = Input::new(input);
    let mut out = Output::new(out);
    ExitCode::from(run(&rt, terminals, &mut input, &mut out, &mut err))
}
