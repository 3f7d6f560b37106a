//! The laws of runs, each as a function whose contract is the law and whose body does nothing.
//!
//! Each is of all runs, whatever the processes, their sites and the order of the steps. A clause names one definition of
//! `specs/`, in `Laws`, `Endings`, `Victims` or `Rest`; `docs/rules.md` says all of them in words.

ghost use Rattle.cmh_model3.specs.Laws.{ClocksRise, DeadlockHappens, DeliveriesAccepted, EachCycleDeclared, EachWait, ExtendsRun, LawfulStates, NoPhantom, NoPhantomInAnyOrder, NoneMissed, NothingIsRun, OneOutcome, OrdersAgree, RunsGoOn, SomeOutcome, StopIsConsistent, StopIsRun, TurnsGoOn};
ghost use Rattle.cmh_model3.specs.Endings.{DeclaredEndsByWithdrawal, EndsByWithdrawal, EndsByWithdrawalLater, StopIsFixed};
ghost use Rattle.cmh_model3.specs.Victims.{ReleasedAreEnough, VictimsAreEnough, VictimsCanEnd, VictimsEndEachCycle};
ghost use Rattle.cmh_model3.specs.Rest.{EachCycleFound, ProbesAreBounded, RestComes, RestIsBounded};

/// No phantom: whom an entry of a run declares lay on a cycle of waits that stood together at a consistent stop.
///
/// The stop is known to the site that declares: it is the stamp of the ask, or that of the probe that came. It does not
/// come after the newest ask of the process. And the cycle is there in whatever order the entries of the stop are taken.
pub fn no_phantom_law()
    ensures at_its_stop { NoPhantom }
    ensures in_any_order { NoPhantomInAnyOrder }
{}

/// A cycle ends by withdrawal alone: each cycle of each stop of a run stands at the end, or one of its members withdrew
/// from the next past the stop.
///
/// Whom an entry declares lay on one cycle that each longer run has at that stop. Of a stop that some sites have not
/// come to yet a withdrawal after the run counts too; once all sites of a path have, its waits at the stop are fixed.
pub fn withdrawal_law()
    ensures of_a_declaration { DeclaredEndsByWithdrawal }
    ensures of_each_cycle { EndsByWithdrawal }
    ensures later { EndsByWithdrawalLater }
    ensures fixed { StopIsFixed }
{}

/// None missed: in a drained run a process is declared if it lies on a cycle none of whose waits is younger than its
/// newest ask. So the owner of the youngest wait of each cycle is.
pub fn none_missed_law()
    ensures none { NoneMissed }
{}

/// In a drained run each cycle has a declared member.
pub fn each_cycle_law()
    ensures declared { EachCycleDeclared }
{}

/// A victim is enough: from a drained run on, where nobody asks and each declared process on a cycle withdraws all its
/// waits, no cycle is left.
///
/// It is enough that each of them is active at some moment. If others ask meanwhile, some wait of each old cycle ends.
/// And withdrawals by declared processes and deliveries can indeed lead to a drained run without a cycle.
pub fn victim_law()
    ensures none_left { VictimsAreEnough }
    ensures released { ReleasedAreEnough }
    ensures each_ends { VictimsEndEachCycle }
    ensures can { VictimsCanEnd }
{}

/// A wait stands just where its asker's controller keeps it and no reply to it is under way.
pub fn wait_law()
    ensures each { EachWait }
{}

/// Of the state of every lawful journal, whatever the other sites do: waits are those of the site's own processes for known
/// ones, ascending and within the limit; only a wait has a stamp; an active process has no marks and is not declared; owed
/// replies are those of the site's own processes; and a wait between two processes of the site is what is owed.
pub fn journal_law()
    ensures states { LawfulStates }
{}

/// Two runs with the same journals have the same waits at the end, in whatever order their entries stand.
pub fn order_law()
    ensures agree { OrdersAgree }
{}

/// A stop by stamp is a consistent stop: what was got within it was sent within it, and its events are a run.
///
/// So it is a beginning of each site's journal, since clocks never go back.
pub fn stop_law()
    ensures consistent { StopIsConsistent }
    ensures run { StopIsRun }
    ensures clocks { ClocksRise }
{}

/// No message is ever refused: the next of each link is accepted where the link ends.
pub fn delivery_law()
    ensures accepted { DeliveriesAccepted }
{}

/// How a run grows: nothing is a run, and a run stays one with an entry more, if the site's controller accepts the event
/// and gives the outcome, and if a message that the event got is the next of its link.
///
/// Each event of a site's own that is accepted has such an entry, and so has the next message of each link.
pub fn growing_law()
    ensures empty { NothingIsRun }
    ensures grows { ExtendsRun }
    ensures goes_on { RunsGoOn }
{}

/// The rules give an outcome of each event that is accepted in a run, and leave no choice.
pub fn outcome_law()
    ensures some_outcome { SomeOutcome }
    ensures one_outcome { OneOutcome }
{}

/// A turn is accepted at any time, sends nothing, and changes nothing but the clock.
pub fn turn_law()
    ensures goes_on { TurnsGoOn }
{}

/// Deliveries come to an end: what is under way and the waits of blocked processes tell how many can follow a run at
/// most. Some do drain the links, and then each cycle that was there before has a declared member.
///
/// As long as nobody asks, the probes that come are bounded likewise, whatever else happens.
pub fn rest_law()
    ensures bounded { RestIsBounded }
    ensures probes { ProbesAreBounded }
    ensures comes { RestComes }
    ensures found { EachCycleFound }
{}

/// The laws are not of nothing: in some run a deadlock of two processes at two sites is declared.
pub fn witness_law()
    ensures happens { DeadlockHappens }
{}
