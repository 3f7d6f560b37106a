//! What `--help` prints after the words of a command: the language, the numbers and the statuses.

use cmh_controller::Refusal;
use cmh_frames::TopologyFault;
use cmh_journal::{JournalFault, SetFault};
use std::alloc::{AllocError, Global};
use std::fmt;

const SCRIPT: &str = "\
Lines of a script, by words; a line that fits none is answered `bad line`:
  # ..           a comment; it and an empty line have no answer
  edition N      the rules, 1 or 2, before the first site
  site S P..     a site and its processes, before the first command
  ask J K..      process J asks for what others hold, and waits for all of them
  reply J K      process J grants what it holds to K, which asked for it
  start J        a computation looks for a deadlock of process J
  deliver A B    hands over the oldest frame from site A to site B
  cut A B        cuts the link from site A to site B; what is under way is lost
  report         audits the journals of all sites as they stand
";

const PLAY_STATUSES: &str = "\
With --edition 3 processes may withdraw, so a deadlock ends and the run goes on. Lines have at most 4096 bytes, and besides:
  withdraw J K.. process J gives up its waits for these, or all of them where none is named
  ask J K..      also of a process that waits; a declaration names the stop at which its cycle stood
with four refusals more: 14 J is leaving one that its ask names, 15 J waits for one already, 16 J withdraws from one for
which it doesn't wait, or waits for nobody, 17 the clock of the site can't rise.
With --journals DIR the journal of each site N is written to DIR/site-N.cmhj, at each report and at the end; of edition 3
to the folder DIR/site-N, at the end. With --page FILE a page is written at the end that steps through the run in a browser,
as by `cmh draw --page`.

Statuses: 0 at the script's end, 1 where memory ran out, 2 for a command line that isn't understood, 3 at another
fault, which is named on standard error: `fault input`, `fault output`, `fault file out` (a journal or the page can't be
written), `fault page` (more than 20000 events).

Example: printf 'site 1 1 2\\nask 1 2\\nask 2 1\\nstart 1\\nreport\\n' | cmh play
";

const SITE_LINES: &str = "\
Lines of standard input; a line that fits none is answered `bad line`, and each is answered before the next is awaited:
  # ..           a comment; it and an empty line have no answer
  ask J K..      process J of this site asks for what others hold, and waits for all of them
  reply J K      process J of this site grants what it holds to K, which asked for it
  start J        a computation looks for a deadlock of process J of this site
  declared       the processes of this site that were found deadlocked
  connect        opens the links to all other sites, which should be listening; once. With `--patience S` it tries those
                 that don't listen yet again, for S seconds in all
  links          the state of each link: `new`, `open` or `closed N`
  quit           ends the site, as the end of the input does

The first line that it prints is `listening`, the last one `stopped`. An answer `ok` comes after its entry is in the
journal and synced, so the journal can be audited whenever and however the site ends. Up to 64 lines that are written
ahead of their answers share a sync. The journal is locked until the site ends: a second site on it, and one whose
journal is no regular file, ends with `fault journal disk`.

Of a topology of edition 3 the lines, the journal and the options are those of `cmh serve --help`, but there is no port for
clients: standard input is the client. `connect` is a bad line then, since links dial by themselves.
";

const SERVE_LINES: &str = "\
Lines that clients send; a line that fits none is answered `bad line`:
  ask J K..      process J of this site asks for what others hold, and waits for all of them
  reply J K      process J of this site grants what it holds to K, which asked for it
  start J        a computation looks for a deadlock of process J of this site
  declared       the processes of this site that were found deadlocked
  links          the state of each link: `new`, `open` or `closed N`
  waits J        `waits J K..`: for whom process J of this site waits
  owed K         `owed K J..`: whose requests process K of this site has not answered
  watch          `ok`, and from then on a line `! declared J` for each declaration, those of before first
  status         the entries of the journal, the room for more, the declarations, the clients, the open links, and whether
                 the journal is sealed
  quit           ends the connection

A client may send lines ahead of its answers; each is answered once, in its order. An answer `ok` comes after its entry
is in the journal and synced. Events of all clients that wait at the same time share a sync, up to 64. At most 256
clients are served at once. The connection of a client that leaves more than 1 MiB of answers unread is closed.

The site connects to the others by itself. It prints `listening` once it listens on both its ports. It ends at SIGTERM
or SIGINT, and its journal can be audited at any time.

Of a topology of edition 3 the journal is a folder. With --new the site begins a journal there, and without it it goes on
with the one that is there; links that were cut resume. --patience, --backlog and --quiet mean nothing then. With
--wait-for-peers each event is `refused 18` until each link has answered once. Lines besides:
  ask J K..      also of a process that waits already
  withdraw J K.. process J gives up these waits, or all of them where none is named
  leaving J      `leaving J K..`: whom J has left and can't ask again yet
  watch          also `! active J`, `! asked K J`, `! free J K`, `! link out S X` and `! link in S X`; a declaration is
                 `! declared J at N`, its cycle stood at stop N
  tail N         the last N entries of the newest segment, 1 to 1000, as lines of `cmh show`, and then `ok`
  turn           the site begins its next epoch, in a new file of its journal: `ok epoch E`
A link is `open`, `down N` (N messages are kept for it), `refused N`, `resting` or `closed 4`.
";

const CLUSTER_LINES: &str = "\
Lines of the script; a line that fits none is answered `bad line`:
  # ..           a comment; it and an empty line have no answer
  ask J K..      process J asks for what others hold, and waits for all of them
  reply J K      process J grants what it holds to K, which asked for it
  start J        a computation looks for a deadlock of process J
  declared S     the processes of site S that were found deadlocked

After the script it prints `link A B closed N` for each link that had closed, and then the audit.
Each link takes two open files, so N sites take 2 N N + 2 N + 3. The usual limit of 1,024 open files is enough for 22
sites, and `ulimit -n 20000` for all 64. A link that can't be opened is closed, and what is sent on it is lost, so that a
deadlock may not be found. With --strict that is no status 0: no site is started where the limit is too low, and the line
`fault descriptors N allowed M` names what they need and the limit.

The journals are made anew in place of those of an earlier run. Where a site still writes to one of them, none is touched:
that is `fault file out`.

Of a topology of edition 3 the sites run in one thread, without ports and open files for links, so that the output of a
script is the same each time. The journals are the folders `site-S` of DIR. Lines besides:
  ask J K..      also of a process that waits already
  withdraw J K.. process J gives up these waits, or all of them where none is named
  kill S         site S stops at once, as at SIGKILL; events for it are answered `down` until it is started again
  restart S      it goes on with its journal: `ok`, `up` where it runs, or the line of a fault
  cut A B        the connection of the link from A to B ends, and none can be made; messages for it are kept
  join A B       it can be made again, and they come
  waits J, owed K, leaving J, links S, status S
                 what `cmh serve` answers, here of the site of the process or of site S
After the script it prints `link A B down N` for each link of a running site that keeps N messages, and then the audit.
--strict and --notes change nothing.
";

const LINK_FAULTS: &str = "\
Why a link is closed, as in `closed 5`:
   1  it could not be connected
   2  a read failed
   3  a write failed
   4  its bytes are no frames, or a frame was unlawful
   5  its other end has ended
   6  memory or a thread was refused
   7  the station takes no more steps
";

const SITE_NOTES: &str = "\
With --notes the site tells on standard error what it notices by itself, in at most ten lines a second:
";

const SERVE_NOTES: &str = "\
The site tells on standard error what it notices by itself, in at most ten lines a second. With --quiet it doesn't. One of
edition 3 tells with --notes, in other words, how its links change, which are refused and why, and why it is sealed:
";

const CLUSTER_NOTES: &str = "\
With --notes the sites tell on standard error what they notice by themselves, in at most ten lines a second. In each
line `note at S` stands for `note`, S being the site:
";

const NOTES: &str =
    "  note out S closed N, note in S closed N            a link closed, for the reason N
  note refused a hello of site S: its link is X      site S connected a second time
  note refused a hello of no other site              somebody connected who is no other site of the topology
  note closed a connection without a hello           none came within 30 seconds, or it made room for the 257th
  note turned a connection away                      256 others are connected, each with a hello
  note shut the link to S: N frames wait             more than `--backlog`, since site S doesn't read them
  note accepting ended                               no connection can come any more
  note no thread for a connection, note no thread for the link to S
  note the journal is sealed                         it can't be written, and no more steps are taken
  note kept the old journal as .N                    under the journal's name with .N behind
  note left out N                                    N more notes were not told in that second
";

const TOPOLOGY_FILE: &str = "\
`fault json`: the topology file is no JSON, or lacks a member, as in {\"edition\":1,\"sites\":[{\"site\":1,\"processes\":[1]}]}.
Of sites that run each also has a `port` of its own, 1 to 65535. With --explain a second line says where it is wrong.
One of edition 3 also has a `world`, which `cmh new-world` draws. `cmh site`, `cmh serve` and `cmh cluster` run sites of it.
";

const SITE_STATUSES: &str = "\
Statuses: 0 at the end, 1 where memory ran out, 2 for a command line that isn't understood, 3 at a fault, which is named
on standard error: `fault file topology`, `fault json`, `fault topology N`, `fault site` (it isn't in the topology),
`fault journal disk`, `fault listen` (its port is taken), `fault input`, `fault output`.

Example: (echo connect; echo ask 1 2; cat) | cmh site --topology world.json --site 1 --journal one.cmhj
";

const SERVE_STATUSES: &str = "\
Statuses: 1 where memory ran out, 2 for a command line that isn't understood, 3 at a fault, which is named on standard
error: `fault file topology`, `fault json`, `fault topology N`, `fault site` (it isn't in the topology),
`fault journal disk`, `fault listen` (one of its ports is taken), `fault output`.

Example: cmh serve --topology world.json --site 1 --journal one.cmhj --port 7100
Then, as a client: printf 'ask 1 2\\nwaits 1\\n' | nc 127.0.0.1 7100
";

const CLUSTER_STATUSES: &str = "\
Statuses: 0 accepted, 1 refused, out of memory, or `not settled` (frames were under way and none came within 10 seconds),
with --strict also where open files are too few or a link could not be opened, 2 for a command line that isn't
understood, 3 at a fault, which is named on standard error: `fault file P` (P is `topology`, `script` or `out`),
`fault json`, `fault topology N`, `fault listen` (a port is taken), `fault journal P N`, `fault output`.

Example: cmh cluster --topology world.json --script asks --out journals
";

const AUDIT_REASONS: &str = "\
With --why a line for each stop follows the stops, `why S at N REASON in ENTRY`, where REASON is
  refused R                     the site's controller refuses the event, with this number
  differs sent P due F to B     the frame that it records as its P-th is not the one that the rules send, or `due nothing`
  differs declared due I        the process that it records as declared is not this one, or `due nobody`
  waits next F from A           the frame that it got is not the next of its link, which is F, or `next nothing`, where
                                site A has sent no more up to its own stop
";

const AUDIT_RUN: &str = "\
With --run a line for each entry follows an accepted report, in the order of one run that the journals come from:
  S N ENTRY                     entry N of site S, in the words of `cmh show`
";

const AUDIT_DECLARATIONS: &str = "\
With --declarations a line for each declaration follows an accepted report of edition 3, in the order of --run:
  declared I at N cycle I .. I stands     process I lay on a cycle at stop N, and the waits of this one stand since
  declared I at N cycle I .. I left by J  no cycle of that stop stands any more: J gave up its wait for the next one
A topology of edition 1 or 2 is `fault json` then. There a declaration stands for ever, and the report has each.
";

const AUDIT_RUNNING: &str = "\
The sites may run: their journals are then read twice, and cut where all sites might have stopped at one moment.
";

const AUDIT_EDITION_3: &str = "\
Where the topology file is of edition 3, as in {\"edition\":3,\"world\":\"32 HEXADECIMAL DIGITS\",\"sites\":[..]}, each journal
is a segment, or a folder whose newest segment is meant. Then the report also says who is leaving whom, and of each
declared process at which stop its cycle stood, and who left it since. In the lines of --why
` clock C`, the clock of the message, follows F, and ` at N`, the stop at which the cycle stood, follows I.
A folder has a segment for each epoch that its site began, and all of them are audited. --from E audits the epochs from E
on, and --epoch E that one alone, from the bases with which it begins and up to those of the next one: no earlier segment
need be there. Their report has `declared I at N` alone of a declared process. With --record an audit that accepts keeps a
record EEEEEEEEEE.audited beside each segment that it read and whose epoch all sites have ended, for `cmh segments`. A
record that can't be kept is `fault file out`, after the report. At a terminal such an audit says on standard error how far
it has come, from a second on.
";

const AUDIT_STATUSES: &str = "\
Statuses: 0 accepted, 1 refused or out of memory, 2 for a command line that isn't understood, 3 at a fault, which is
named on standard error: `fault file P`, `fault json`, `fault topology N`, `fault journal P N`, `fault set N`,
`fault output`. P is `topology`, or the place of a journal in the command, from 1. For a bad entry ` at O`
follows, where O is its byte in the file, from 0.

Example: cmh audit --topology world.json --why one.cmhj two.cmhj
";

const SHOW_LINES: &str = "\
Of each journal it prints a line `site S edition N`, then a line for each entry, numbered from 1: what happened, each
frame that was sent, and who was declared:
  N ask J K..           process J asked, and waits for all of the others
  N reply J K           process J granted what it holds to K
  N start J             a computation was started for process J
  N got F from A        frame F came from site A; F is `request J K`, `reply J K` or `probe I J K`
  .. sent F to B        after each of these: frame F went to site B, once for each frame that was sent
  .. declared I         at the end: process I was declared deadlocked

and after the entries, where the file goes on:
  cut N                 N bytes, less than an entry: a write was cut off
  bad entry at O        at byte O, counted from 0, are bytes that are no entry; what follows isn't read

Where the first journal is a segment of edition 3, all are to be; of a folder the newest segment is meant. The first line
is then `site S edition 3 world W epoch E`, `N withdraw J K..` is an event more, a probe is `probe I AT J K`, and a
declaration is `.. declared I at AT`, with the stop at which the cycle stood.

With --epoch E each journal is a folder of edition 3, and its segment of epoch E is shown in place of the newest: the file
EEEEEEEEEE.cmhj with ten digits. A folder that has none is `fault file P`, and so is a file.
";

const SHOW_STATUSES: &str = "\
Statuses: 0 where each journal was shown to its end, 1 where one has a bad entry or memory ran out, 2 for a command line
that isn't understood, 3 at a fault, which is named on standard error: `fault file P`, `fault journal P N`,
`fault output`. P is the place of a journal in the command, from 1.

Example: cmh show one.cmhj two.cmhj
Example: cmh show --epoch 7 site-1
";

const DRAW_PICTURE: &str = "\
The picture of `waits` has a box for each site with its processes, and an arrow from each process that waits at the end
to each that it waits for; who was declared is drawn as an octagon. That of `run` has a line for each site with its
entries, and an arrow for each frame from the entry that sent it to the one that got it. The arrow of a frame that
nobody got has an open end: it was lost, or waits on its link. Where the journals are refused, the entry at which a site
stops is marked. In edition 3 a diamond is a withdrawal, an empty octagon a declaration that does not stand any more, and
a dotted arrow with a cross a wait that was given up and has no answer yet.

With --from and --to the picture of a run has the entries from one column to another, counted from 1, and the frames
that they sent or got. A picture of a run has at most 20000 lines, entries and frames; of more the fault is
`fault picture`.

Where a site of edition 3 has begun a later epoch, the picture is of all segments of all folders, and `turn` stands where a
site goes on in its next one. With --epoch E it is of the segments up to epoch E: who waits for whom at its end, or the
columns of the run in which its entries stand. Of an epoch that no site has begun the fault is `fault set 6`, and in
editions 1 and 2 `fault json`. A page is of the newest segments alone.

With --page it writes a page in place of a picture: one HTML file that steps through the run in a browser, forward and
back, with who waits for whom, what each controller knows and why each probe acted or was ignored. Of edition 3 it has
withdrawals, clocks and stamps, and what became of each declaration. A page has at most 20000 events; of more the fault
is `fault page`.

Statuses: 0 where a picture or a page was written, 1 where memory ran out, 2 for a command line that isn't understood, 3
at a fault, which is named on standard error as in `cmh audit --help`.

Example: cmh draw --topology world.json --kind run one.cmhj two.cmhj > run.svg
Example: cmh draw --topology world.json --kind run --from 1 --to 40 one.cmhj two.cmhj > beginning.svg
Example: cmh draw --topology world.json --kind run --epoch 7 site-1 site-2 > epoch-7.svg
Example: cmh draw --topology world.json --page one.cmhj two.cmhj > run.html
Example: cmh draw --topology world.json --format dot one.cmhj two.cmhj | dot -Tpng > waits.png
";

const NEW_WORLD: &str = "\
A topology file of edition 3 has the number of its world as `\"world\"`, so that sites and journals of different runs
never meet. Take a new one for each run that begins.

Statuses: 0 where a number was printed, 1 where memory ran out, 2 for a command line that isn't understood, 3 at a fault,
which is named on standard error: `fault random` (the system gives no random bytes), `fault output`.

Example: cmh new-world
";

const SEGMENTS: &str = "\
It prints a line for each segment, sites ascending, and of each site its epochs ascending:
  site S epoch E entries N bytes B mark M STATE [audited] [archive]
STATE is `newest` (the site writes to it), `open` (its site has begun a later epoch, and some other site has not), or
`closed` (all sites have). `audited` stands where `cmh audit --record` has accepted the segment as it is, and `archive`
where it is closed and audited, and so is the one before it, if that is in the folder. Such a segment may be moved away:
its site does not read it any more, and an audit of later epochs does not need it. Nothing is moved or deleted by this.

Statuses: 0 where all segments are listed, 1 where memory ran out, 2 for a command line that isn't understood, 3 at a
fault, which is named on standard error as in `cmh audit --help`. The topology has to be one of edition 3.

Example: cmh audit --topology world.json --epoch 7 --record site-1 site-2
Example: cmh segments --topology world.json site-1 site-2
";

const RESTORE: &str = "\
The folders are those of the journals of all sites, or copies of them. The sites begin epoch E anew as they began it
there: with the same waits, and the same messages under way between them. So the first segments of the new journals are
those of epoch E without their entries. They bear the number of the world that the topology file says, which has to be
another one than the older number: draw it by `cmh new-world`. The file has the sites and processes of the older world.
Before a journal is begun all of this is checked, and that no site has a journal in DIR. Start each site on its folder
DIR/site-N then, without --new.

It prints a line `site N` for each site, and `restored epoch E`. Where the bases of the epoch do not fit together it prints
`base N`, of a site, or `link A B`, of a link, and nothing is begun.

Statuses: 0 where all journals are begun, 1 where the bases do not fit or memory ran out, 2 for a command line that isn't
understood, 3 at a fault, which is named on standard error: as in `cmh audit --help`, and `fault file out` where a journal
can't be begun in DIR, or one is there.

Example: cmh restore --topology new.json --epoch 7 --to restored backup/site-1 backup/site-2
";

const COMMANDS: &str = "\
`cmh play --help` has the language of scripts, `cmh site --help`, `cmh serve --help` and `cmh cluster --help` that of
running sites, `cmh audit --help` the faults of files, `cmh show --help` the lines of a journal,
`cmh draw --help` what stands in its pictures, `cmh segments --help` the segments of a journal of edition 3, and
`cmh restore --help` how a whole world is set back.

Example: cmh play < examples/cycle-over-two-sites.script
";

// Those of every step, but for memory.
const REFUSALS: [Refusal; 8] = [
    Refusal::UnknownProcess,
    Refusal::NotHere,
    Refusal::BadTargets,
    Refusal::Blocked,
    Refusal::NotBlocked,
    Refusal::NotOwed,
    Refusal::AlreadyDeclared,
    Refusal::Unlawful,
];

const STATION_REFUSALS: &str = "   9  the journal could not be written, and no more steps are taken
  10  the journal can't be written
";

// Those of a file; when memory runs out `fault memory` is printed, but for a line of a script.
const TOPOLOGY_FAULTS: [TopologyFault; 4] = [
    TopologyFault::Limit,
    TopologyFault::RepeatedSite,
    TopologyFault::RepeatedProcess,
    TopologyFault::BadNumber,
];

const SET_FAULTS: [SetFault; 4] = [
    SetFault::UnknownSite,
    SetFault::OtherEdition,
    SetFault::RepeatedSite,
    SetFault::MissingSite,
];

/// What follows the words of each command.
#[derive(Drop)]
pub struct Help {
    pub play: String,
    pub site: String,
    pub serve: String,
    pub cluster: String,
    pub audit: String,
    pub show: String,
    pub draw: String,
}

impl Help {
    /// After the words of `cmh` itself.
    pub const COMMANDS: &'static str = COMMANDS;

    /// After the words of `cmh new-world`.
    pub const NEW_WORLD: &'static str = NEW_WORLD;

    /// After the words of `cmh segments`.
    pub const SEGMENTS: &'static str = SEGMENTS;

    /// After the words of `cmh restore`.
    pub const RESTORE: &'static str = RESTORE;

    pub fn new(alloc: Global) -> Result<Help, AllocError> {
        Ok(Help {
            play: play(alloc)?,
            site: running(alloc, SITE_LINES, SITE_NOTES, SITE_STATUSES)?,
            serve: running(alloc, SERVE_LINES, SERVE_NOTES, SERVE_STATUSES)?,
            cluster: running(alloc, CLUSTER_LINES, CLUSTER_NOTES, CLUSTER_STATUSES)?,
            audit: audit(alloc)?,
            show: show(alloc)?,
            draw: String::from_str(alloc, DRAW_PICTURE)?,
        })
    }
}

fn play(alloc: Global) -> Result<String, AllocError> {
    let mut text = String::from_str(alloc, SCRIPT)?;
    text.push_str("\nRefusals, as in `refused 3`:\n")?;
    refusals(&mut text, "")?;
    row(&mut text, 12, JournalFault::Full)?;
    text.push_str("\nFaults of sites, as in `topology 2`:\n")?;
    topology_faults(&mut text)?;
    row(
        &mut text,
        TopologyFault::Memory.number(),
        TopologyFault::Memory,
    )?;
    write!(text, "\n{PLAY_STATUSES}")?;
    Ok(text)
}

/// Of sites that run: the lines that they are given, refusals, faults of links, notes and statuses.
fn running(alloc: Global, lines: &str, notes: &str, statuses: &str) -> Result<String, AllocError> {
    let mut text = String::from_str(alloc, lines)?;
    text.push_str("\nRefusals, as in `refused 3`:\n")?;
    refusals(&mut text, STATION_REFUSALS)?;
    row(&mut text, 12, JournalFault::Full)?;
    write!(
        text,
        "\n{LINK_FAULTS}\n{notes}{NOTES}\n{TOPOLOGY_FILE}\n{statuses}"
    )?;
    Ok(text)
}

/// The refusals of every step, by their numbers; those of a station stand before the last.
fn refusals(text: &mut String, of_station: &str) -> Result<(), AllocError> {
    for refusal in REFUSALS {
        row(text, refusal.number(), refusal)?;
    }
    text.push_str(of_station)?;
    row(text, Refusal::Memory.number(), Refusal::Memory)
}

fn audit(alloc: Global) -> Result<String, AllocError> {
    let mut text = String::from_str(alloc, TOPOLOGY_FILE)?;
    text.push_str("\nFaults of the topology, as in `fault topology 2`:\n")?;
    topology_faults(&mut text)?;
    text.push_str("\nFaults of journal P, as in `fault journal P 2 at 7`:\n")?;
    for fault in [
        JournalFault::BadHeader,
        JournalFault::BadEntry(7),
        JournalFault::Full,
    ] {
        row(&mut text, fault.number(), fault)?;
    }
    text.push_str("\nFaults of the journals together, as in `fault set 4`:\n")?;
    for fault in SET_FAULTS {
        row(&mut text, fault.number(), fault)?;
    }
    row(
        &mut text,
        5,
        "a segment is of another world than the topology",
    )?;
    row(
        &mut text,
        6,
        "a segment is of a later epoch and the one before it is missing, or a site has not begun the epoch that is asked for",
    )?;
    write!(
        text,
        "\n{AUDIT_RUN}\n{AUDIT_DECLARATIONS}\n{AUDIT_REASONS}\nRefusals, as in `refused 3`:\n"
    )?;
    refusals(&mut text, "")?;
    write!(
        text,
        "\n{AUDIT_RUNNING}\n{AUDIT_EDITION_3}\n{AUDIT_STATUSES}"
    )?;
    Ok(text)
}

fn show(alloc: Global) -> Result<String, AllocError> {
    let mut text = String::from_str(alloc, SHOW_LINES)?;
    text.push_str("\nFaults of journal P, as in `fault journal P 1`:\n")?;
    for fault in [JournalFault::BadHeader, JournalFault::Full] {
        row(&mut text, fault.number(), fault)?;
    }
    write!(text, "\n{SHOW_STATUSES}")?;
    Ok(text)
}

fn topology_faults(text: &mut String) -> Result<(), AllocError> {
    for fault in TOPOLOGY_FAULTS {
        row(text, fault.number(), fault)?;
    }
    Ok(())
}

/// A line of a table: a number and what it stands for.
fn row<T: fmt::Display + Drop>(text: &mut String, number: u8, what: T) -> Result<(), AllocError> {
    write!(text, "  {number:>2}  {what}\n")?;
    Ok(())
}
