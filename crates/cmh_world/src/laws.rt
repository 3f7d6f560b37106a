//! The laws of runs, each as a function whose contract is the law. A body is empty, or asks the topology for its sites,
//! by which it is known to be well formed.
//!
//! A list of events is a run where each site's entries are lawful and each link's receipts are at every moment a
//! beginning of its sendings. Frames that a cut link lost count as sent and not got, so a cut needs no case of its own.
//! All laws hold in both editions but where one is named.
//!
//! A law with `of_every_run` in its name is for a caller that knows of a run and does not hold its list, as whoever has
//! journals that were accepted.

ghost use Rattle.std.specs.Prelude.{◌≡◌, ◌↔◌, ◌==◌, true, false, ℕ, List, [], ◌∷◌, ◌++◌, Option};
ghost use Rattle.std.specs.List.{list_any};
ghost use Rattle.std.specs.FinSet as set;
ghost use Rattle.cmh_frames.specs.Edition.{starts_at_ask};
ghost use Rattle.cmh_frames.specs.Topology.{is_site, lookup};
ghost use Rattle.cmh_frames.specs.declared.frame.Frame.{Frame};
ghost use Rattle.cmh_frames.specs.declared.event.Event.{Event};
ghost use Rattle.cmh_frames.specs.declared.event.Event.TheVariants.{Got};
ghost use Rattle.cmh_frames.specs.Entries.{Entry, WorldEvent};
ghost use Rattle.cmh_frames.specs.State.{State};
ghost use Rattle.cmh_frames.specs.Rules.{Accepts, Sends};
ghost use Rattle.cmh_frames.specs.Journals.{IsLawful, frame_from, value};
ghost use Rattle.cmh_frames.specs.Runs.{ComeFromRun, IsBeginningOf, IsDrained, IsRun, entries_of, state_of, under_way};
ghost use Rattle.cmh_frames.specs.Waits.{IsCycle, IsDeclared, OnCycle, Waits};
ghost use Rattle.cmh_frames.specs.Stops.{IsConsistent, stopped};
ghost use Rattle.cmh_frames.specs.Laws.{AsksAndReplies, DarkPath, JournalFacts, StandsUnanswered};
ghost use Rattle.cmh_frames.specs.Declarations.{Declares};
ghost use Rattle.cmh_frames.specs.LastAsker.{AskedLast, LastAskerDeclared};
ghost use Rattle.cmh_frames.specs.Settling.{ComesToRest, GoesOn, IsSettled};

use cmh_frames::{SiteId, Topology, WorldEvent};

/// No false deadlock: in every run each declared process lies on a cycle of waits at the end.
///
/// At each beginning of the run these facts hold, on which it rests:
/// - a process that a site keeps as dependent on another is so, by a path of one or more waits, and the other is
///   blocked;
/// - a probe under way whose wait stands, with no newer request of that wait after it, was sent for a process from
///   which a path leads to the wait;
/// - for each wait that a site keeps, and for no other, just one of three is so, and once: its request is under way, it
///   is owed, its reply is under way;
/// - a process on a cycle is blocked at its site.
///
/// And a cycle of waits stays one from then on, by the same members.
pub fn dark_path_law(topology: &Topology, events: &[WorldEvent])
    requires run { IsRun topology.now events.now }
    ensures dark_path { DarkPath topology.now events.now }
{}

/// The dark path law of every run.
pub fn dark_path_of_every_run(topology: &Topology)
    ensures dark_path { (events : List WorldEvent) → IsRun topology.now events → DarkPath topology.now events }
{}

/// Two runs with the same journals have the same waits at the end, in whatever order their entries stand.
pub fn order_law(topology: &Topology, events: &[WorldEvent], others: &[WorldEvent])
    requires first { IsRun topology.now events.now }
    requires second { IsRun topology.now others.now }
    requires journals { (s : ℕ) → entries_of s events.now ≡ entries_of s others.now }
    ensures waits { (j k : ℕ) → Waits events.now j k ↔ Waits others.now j k }
{}

/// Any two runs with the same journals have the same waits at the end.
pub fn order_law_of_every_run(topology: &Topology)
    ensures waits { (events others : List WorldEvent) → IsRun topology.now events → IsRun topology.now others
        → ((s : ℕ) → entries_of s events ≡ entries_of s others) → (j k : ℕ) → Waits events j k ↔ Waits others j k }
{}

/// Sites may stop anywhere: the entries of a consistent stop of a run come from a run.
///
/// The stop names each site once, with the number of its first entries that are kept; of a site with fewer all are. (Of
/// a site that it names twice the first number counts, and of one that it doesn't name nothing is kept.) It is
/// consistent where nothing was got within it that was not sent within it.
pub fn cut_law(topology: &Topology, events: &[WorldEvent], stop: &[(SiteId, usize)])
    requires run { IsRun topology.now events.now }
    requires consistent { IsConsistent (lookup 0 stop.now) events.now }
    ensures comes { ComeFromRun topology.now (stopped (lookup 0 stop.now) events.now) }
{}

/// The cut law of every run and every stop: here a stop is any function from sites to numbers of entries.
pub fn cut_law_of_every_run(topology: &Topology)
    ensures stops { (events : List WorldEvent) → IsRun topology.now events
        → (stop : ℕ → ℕ) → IsConsistent stop events → ComeFromRun topology.now (stopped stop events) }
{}

/// No silent deadlock: in every run of edition 2 in which every frame that was sent has come, each cycle of waits has a
/// declared process on it.
///
/// It is the process of the cycle that asked last: each cycle has one, and that one is declared.
pub fn drained_law(topology: &Topology, events: &[WorldEvent])
    requires edition { starts_at_ask topology.now.edition ≡ true }
    requires run { IsRun topology.now events.now }
    requires drained { IsDrained events.now }
    ensures on_cycle { (i : ℕ) (members : List ℕ) → IsCycle events.now i members
        → (d : ℕ) × (list_any (λ q. q == d) members ≡ true) × IsDeclared events.now d }
    ensures last_asker { LastAskerDeclared events.now }
{}

/// The drained law of every run, if the edition is one in which an ask starts a computation.
pub fn drained_law_of_every_run(topology: &Topology)
    ensures last_asker { starts_at_ask topology.now.edition ≡ true → (events : List WorldEvent)
        → IsRun topology.now events → IsDrained events → LastAskerDeclared events }
{}

/// How a run grows: nothing is a run, and a run stays one with an entry more, if the site's controller accepts the
/// event and gives the outcome, and if a frame that the event got is the next of its link.
///
/// So whatever controllers do that keep their journals and hand over frames in order is a run.
pub fn growing_law(topology: &Topology)
    ensures empty { IsRun topology.now [] }
    ensures grows { (before : List WorldEvent) (e : WorldEvent) → IsRun topology.now before
        → Accepts topology.now e.site (state_of topology.now e.site before) e.entry.event
        → Sends topology.now e.site (state_of topology.now e.site before) e.entry.event e.entry.sent e.entry.declared
        → ((a : ℕ) → IsBeginningOf (frame_from a e.entry.event) (under_way a e.site before))
        → IsRun topology.now (before ++ e ∷ []) }
{}

/// The rules leave no choice: what a controller sends and declares at an event is determined by its state.
pub fn outcome_law(topology: &Topology)
    ensures one_outcome { (s : ℕ) (v : State) (event : Event)
        (sent others : List (ℕ × Frame)) (declared other : Option ℕ)
        → Sends topology.now s v event sent declared → Sends topology.now s v event others other
        → (sent ≡ others) × (declared ≡ other) }
{}

/// A process waits for another exactly where some ask of it names the other and no reply of the other to it stands
/// after that ask.
pub fn wait_law()
    ensures waits { (events : List WorldEvent) (j k : ℕ) → Waits events j k ↔ StandsUnanswered events j k }
{}

/// Of the state of every lawful journal, whatever the other sites do: waits and owed replies are those of the site's
/// own processes with known ones, a process with dependents is blocked, and a wait between two processes of the site
/// is what is owed between them. The processes that the controller keeps as declared are those that the journal's
/// entries declare.
pub fn journal_law(topology: &Topology)
    ensures states { (s : ℕ) (journal : List Entry) → IsLawful topology.now s journal
        → JournalFacts topology.now s (value topology.now s journal) }
    ensures declared { (s : ℕ) (journal : List Entry) → IsLawful topology.now s journal
        → (i : ℕ) → (set.contains (value topology.now s journal).declared i ≡ true) ↔ Declares journal i }
{}

/// A site outside the topology does nothing: only the empty journal of it is lawful, so a run has no entry of it.
pub fn stranger_law(topology: &Topology)
    ensures silent { (s : ℕ) (journal : List Entry) → is_site topology.now s ≡ false
        → IsLawful topology.now s journal → journal ≡ [] }
{}

/// Asks and replies of two processes take turns: of every run, the asks of one for the other are as many as the
/// replies, and one more where it waits.
///
/// So who waits can be counted from the journals, in whatever order they were merged.
pub fn count_law(topology: &Topology, events: &[WorldEvent])
    requires run { IsRun topology.now events.now }
    ensures counts { AsksAndReplies events.now }
{}

/// The count law of every run.
pub fn count_law_of_every_run(topology: &Topology)
    ensures counts { (events : List WorldEvent) → IsRun topology.now events → AsksAndReplies events }
{}

/// No frame is ever refused: in every run the first frame under way on each link is accepted where the link ends, and
/// the run can go on by it.
///
/// For the rules give an outcome of each event, whatever the state.
pub fn delivery_law(topology: &Topology)
    ensures accepted { (events : List WorldEvent) → IsRun topology.now events
        → (a b : ℕ) (frame : Frame) (behind : List Frame) → under_way a b events ≡ frame ∷ behind
        → Accepts topology.now b (state_of topology.now b events) (Got a frame) }
    ensures deliverable { (events : List WorldEvent) → IsRun topology.now events
        → (a b : ℕ) (frame : Frame) (behind : List Frame) → under_way a b events ≡ frame ∷ behind
        → (e : WorldEvent) × (e.site ≡ b) × (e.entry.event ≡ Got a frame) × IsRun topology.now (events ++ e ∷ []) }
    ensures outcome { (s : ℕ) (v : State) (event : Event)
        → (sent : List (ℕ × Frame)) × (declared : Option ℕ) × Sends topology.now s v event sent declared }
{}

/// Deliveries come to an end. In whatever order they are made, so many can follow a run at most, and the frames under
/// way and the topology alone tell how many; no further one can follow exactly where every frame has come; and some
/// lead there.
pub fn settling_law(topology: &Topology)
    ensures rest { (events : List WorldEvent) → IsRun topology.now events → ComesToRest topology.now events }
{
    let _ = topology.sites();
}

/// Each deadlock is found: in edition 2 deliveries after any run come to an end, and then each cycle of waits that
/// stood before them has a declared process on it, the one that asked last. So where no delivery can follow, there is
/// a deadlock exactly where somebody is declared.
pub fn deadlock_is_found_law(topology: &Topology)
    requires second_edition { starts_at_ask topology.now.edition ≡ true }
    ensures settles { (events : List WorldEvent) → IsRun topology.now events → ComesToRest topology.now events }
    ensures found { (events more : List WorldEvent) → GoesOn topology.now events more
        → IsSettled topology.now (events ++ more) → (i : ℕ) (members : List ℕ) → IsCycle events i members
        → (d : ℕ) × AskedLast events members d × IsDeclared (events ++ more) d }
    ensures tells { (events : List WorldEvent) → IsRun topology.now events → IsSettled topology.now events
        → ((i : ℕ) × OnCycle events i) ↔ ((i : ℕ) × IsDeclared events i) }
{
    let _ = topology.sites();
}
