//! Worked scripts, as theorems: what the definitions say of short runs, so that a reader sees what they mean and that
//! something meets them.
//!
//! A site with its processes is written `S: P Q`, and the lines of a script are parted by ` / `.

ghost use Rattle.std.specs.Prelude.{◌≡◌, ◌==◌, if◌then◌else◌, true, false, List, [], ◌∷◌, ◌++◌, None, Some, map, take, drop};
ghost use Rattle.cmh_frames.specs.declared.edition.Edition.TheVariants.{One, Two};
ghost use Rattle.cmh_frames.specs.declared.frame.Frame.TheVariants.{Request, Reply as Reply_frame, Probe};
ghost use Rattle.cmh_frames.specs.Topology.{home};
ghost use Rattle.cmh_frames.specs.declared.event.Event.TheVariants.{Ask, Reply, Start, Got};
ghost use Rattle.cmh_frames.specs.Entries.{Entry};
ghost use Rattle.cmh_frames.specs.Relation.{has};
ghost use Rattle.cmh_frames.specs.State.{empty_state, is_blocked};
ghost use Rattle.cmh_frames.specs.Rules.{Accepts, AreTargets, Sends, after, probe_acts};
ghost use Rattle.cmh_frames.specs.Journals.{IsLawful, value};
ghost use Rattle.cmh_frames.specs.Runs.{IsRun, IsDrained, state_of, sendings, receipts};
ghost use Rattle.cmh_frames.specs.Waits.{IsCycle, OnCycle, DependsOn, IsDeclared, wait_after};
ghost use Rattle.cmh_frames.specs.LastAsker.{AskedLast};
ghost use Rattle.cmh_frames.specs.Stops.{IsConsistent};
ghost use Rattle.cmh_frames.specs.Settling.{GoesOn, IsSettled, most_deliveries};
ghost use Rattle.std.specs.List.{range_with_len};
ghost use Rattle.cmh_frames.specs.Scripts.{one_site, two_sites, three_processes, silent, between, state_with, wait_for_each_other, ask_and_reply, declared_at_ask, ask_each_other, probe_goes_round, granted_before_the_probe, marked_by_the_probe, overtaken, lone_process, two_beside_one, two_beside_two, six_processes, crowded_site, at_site, got_before_sent, asked_and_answered, found_beside_it, waits_for_a_cycle};

/// `1: 1 2`, `ask 1 2 / ask 2 1 / start 1`: two processes of one site wait for each other, and the start declares 1.
pub fn deadlock_at_one_site()
    ensures run { IsRun (one_site One) wait_for_each_other }
    ensures state { state_of (one_site One) 1 wait_for_each_other
        ≡ state_with ((2, 1) ∷ (1, 2) ∷ []) ((1, 2) ∷ (2, 1) ∷ []) [] (1 ∷ []) }
    ensures blocked { is_blocked (state_of (one_site One) 1 wait_for_each_other) 1 ≡ true }
    ensures cycle { IsCycle wait_for_each_other 1 (1 ∷ 2 ∷ 1 ∷ []) }
    ensures declared { IsDeclared wait_for_each_other 1 }
{}

/// `1: 1`, `2: 2`, `ask 1 2 / ask 2 1 / deliver 1 2 / deliver 2 1 / start 1 / deliver 1 2 / deliver 2 1`: a probe
/// goes round and declares 1.
pub fn deadlock_found_by_a_probe()
    ensures home { home (two_sites One) 2 ≡ Some 2 }
    ensures run { IsRun (two_sites One) probe_goes_round }
    ensures sent { sendings 1 2 probe_goes_round ≡ Request (1, 2) ∷ Probe (1, 1, 2) ∷ [] }
    ensures got { receipts 1 2 probe_goes_round ≡ Request (1, 2) ∷ Probe (1, 1, 2) ∷ [] }
    ensures under_way { map (between probe_goes_round) (0 ∷ 1 ∷ 2 ∷ 3 ∷ 4 ∷ 5 ∷ 6 ∷ 7 ∷ []) ≡
        ([], []) ∷ (Request (1, 2) ∷ [], []) ∷ (Request (1, 2) ∷ [], Request (2, 1) ∷ []) ∷ ([], Request (2, 1) ∷ [])
        ∷ ([], []) ∷ (Probe (1, 1, 2) ∷ [], []) ∷ ([], Probe (1, 2, 1) ∷ []) ∷ ([], []) ∷ [] }
    ensures state { state_of (two_sites One) 2 probe_goes_round
        ≡ state_with ((2, 1) ∷ []) ((2, 1) ∷ []) ((2, 1) ∷ []) [] }
    ensures cycle { IsCycle probe_goes_round 1 (1 ∷ 2 ∷ 1 ∷ []) }
    ensures declared { IsDeclared probe_goes_round 1 }
{}

/// In edition 2 an ask starts a computation: across sites the request goes out before the probe, and `1: 1 2`,
/// `ask 1 2 / ask 2 1` declares 2. This run is drained and has a cycle.
pub fn ask_starts_a_computation()
    ensures requests_first { Sends (two_sites Two) 1 empty_state (Ask 1 (2 ∷ []))
        ((2, Request (1, 2)) ∷ (2, Probe (1, 1, 2)) ∷ []) None }
    ensures run { IsRun (one_site Two) declared_at_ask }
    ensures drained { IsDrained declared_at_ask }
    ensures cycle { IsCycle declared_at_ask 2 (2 ∷ 1 ∷ 2 ∷ []) }
    ensures declared { IsDeclared declared_at_ask 2 }
{}

/// A wait ends with its reply: `1: 1 2`, `ask 1 2 / reply 2 1`. Then 2 owes 1 nothing.
pub fn reply_ends_a_wait()
    ensures run { IsRun (one_site One) ask_and_reply }
    ensures ended { wait_after false 1 2 ask_and_reply ≡ false }
    ensures not_owed { has (state_of (one_site One) 1 ask_and_reply).owed 2 1 ≡ false }
{}

/// `1: 1`, `2: 2 3`: 1 asked 2 and 3, and 2 granted before the probe of 1 for it came. Though 2 waits again, the
/// probe is ignored, since 2 owes 1 nothing.
pub fn probe_of_an_answered_wait()
    ensures lawful { IsLawful three_processes 2 granted_before_the_probe }
    ensures blocked { is_blocked (value three_processes 2 granted_before_the_probe) 2 ≡ true }
    ensures ignored { probe_acts (value three_processes 2 granted_before_the_probe) 1 1 2 ≡ false }
{}

/// A process that becomes active has no dependents any more: 1 is known to depend on 2 until 3 grants what 2 waited
/// for.
pub fn dependents_are_forgotten()
    ensures marked { has (value three_processes 2 marked_by_the_probe).dependents 2 1 ≡ true }
    ensures forgotten { has (after three_processes 2
        (value three_processes 2 marked_by_the_probe) (Reply 3 2) None).dependents 2 1 ≡ false }
{}

/// A blocked process grants nothing, so no wait of a cycle is ever answered; and it does not ask again.
pub fn blocked_process_waits()
    ensures no_reply { Accepts (one_site One) 1 (state_of (one_site One) 1 wait_for_each_other) (Reply 1 2) → ⊥ }
    ensures no_ask { Accepts (one_site One) 1 (state_of (one_site One) 1 wait_for_each_other) (Ask 1 (2 ∷ [])) → ⊥ }
{}

/// No frame overtakes another of its link.
pub fn frames_come_in_order()
    ensures no_run { IsRun three_processes overtaken → ⊥ }
{}

/// Of `ask 1 2 / ask 2 1 / deliver 1 2 / deliver 2 1`: a stop at which each site has asked is consistent, and one at
/// which site 2 got a request that site 1 has not sent is not.
pub fn stops_of_a_run()
    ensures consistent { IsConsistent (λ s. 1) ask_each_other }
    ensures not_consistent { IsConsistent (λ s. if s == 2 then 2 else 0) ask_each_other → ⊥ }
{}

/// `1: 1`: a lone process may not ask itself or an unknown one, nothing is started for it while it waits for nobody,
/// and it owes nobody a reply.
pub fn lone_process_is_refused()
    ensures unknown_asker { Accepts lone_process 1 empty_state (Ask 9 (1 ∷ [])) → ⊥ }
    ensures asks_itself { Accepts lone_process 1 empty_state (Ask 1 (1 ∷ [])) → ⊥ }
    ensures asks_a_stranger { Accepts lone_process 1 empty_state (Ask 1 (9 ∷ [])) → ⊥ }
    ensures not_blocked { Accepts lone_process 1 empty_state (Start 1) → ⊥ }
    ensures not_owed { Accepts lone_process 1 empty_state (Reply 1 1) → ⊥ }
{}

/// An ask names others in ascending order, each once, at least one, and no more than 16 in edition 1 and 32 in
/// edition 2.
pub fn targets_of_an_ask()
    ensures none { AreTargets (one_site One) 1 [] → ⊥ }
    ensures twice { AreTargets (one_site One) 1 (2 ∷ 2 ∷ []) → ⊥ }
    ensures descending { AreTargets three_processes 1 (3 ∷ 2 ∷ []) → ⊥ }
    ensures sixteen { AreTargets (crowded_site One) 1 (range_with_len 2 16) }
    ensures seventeen { AreTargets (crowded_site One) 1 (range_with_len 2 17) → ⊥ }
    ensures thirty_two { AreTargets (crowded_site Two) 1 (range_with_len 2 32) }
    ensures thirty_three { AreTargets (crowded_site Two) 1 (range_with_len 2 33) → ⊥ }
{}

/// `1: 1`, `2: 2`: of these only the first request fits at site 2. A frame comes from the home of who sent it, which
/// is another site; a reply ends a wait that stands, a request comes once, and a probe is of a known process.
pub fn frames_that_do_not_fit()
    ensures reply_to_nobody { Accepts (two_sites One) 2 empty_state (Got 1 (Reply_frame (1, 2))) → ⊥ }
    ensures from_another_site { Accepts (two_sites One) 2 empty_state (Got 2 (Request (1, 2))) → ⊥ }
    ensures request { Accepts (two_sites One) 2 empty_state (Got 1 (Request (1, 2))) }
    ensures request_again { Accepts (two_sites One) 2
        (after (two_sites One) 2 empty_state (Got 1 (Request (1, 2))) None) (Got 1 (Request (1, 2))) → ⊥ }
    ensures unknown_origin { Accepts (two_sites One) 2 empty_state (Got 1 (Probe (9, 1, 2))) → ⊥ }
    ensures own_request { Accepts three_processes 2 empty_state (Got 2 (Request (2, 3))) → ⊥ }
    ensures own_reply { Accepts three_processes 2 (state_with ((2, 3) ∷ []) ((3, 2) ∷ []) [] [])
        (Got 2 (Reply_frame (3, 2))) → ⊥ }
    ensures own_probe { Accepts three_processes 2 empty_state (Got 2 (Probe (2, 2, 3))) → ⊥ }
{}

/// `1: 1 2`, `ask 1 2 / ask 2 1 / start 1`: a declared process is not started again, and the other one may be.
pub fn declared_process_is_not_started_again()
    ensures refused { Accepts (one_site One) 1 (state_of (one_site One) 1 wait_for_each_other) (Start 1) → ⊥ }
    ensures no_run { (entry : Entry) → entry.event ≡ Start 1
        → IsRun (one_site One) (wait_for_each_other ++ at_site 1 entry ∷ []) → ⊥ }
    ensures other { Accepts (one_site One) 1 (state_of (one_site One) 1 wait_for_each_other) (Start 2) }
{}

/// `1: 1`, `2: 2 3`: a probe acts once. After the first, 2 is known to depend, and the same probe is ignored.
pub fn probe_acts_once()
    ensures first { probe_acts (value three_processes 2 (take 2 marked_by_the_probe)) 1 1 2 ≡ true }
    ensures again { probe_acts (value three_processes 2 marked_by_the_probe) 1 1 2 ≡ false }
{}

/// `1: 1 3`, `2: 2`: `ask 1 2 / ask 3 1 / ask 2 3 / deliver 1 2 / deliver 2 1 / start 1 / deliver 1 2 / deliver 2 1`:
/// the probe comes to 3, which reaches 1 at its site, and it is 1 that is declared. Another probe of 1 that comes to
/// 3 declares nobody.
pub fn deadlock_found_by_local_dependence()
    ensures run { IsRun two_beside_one found_beside_it }
    ensures state { state_of two_beside_one 1 found_beside_it
        ≡ state_with ((3, 1) ∷ (1, 2) ∷ []) ((3, 2) ∷ (1, 3) ∷ []) ((3, 1) ∷ []) (1 ∷ []) }
    ensures cycle { IsCycle found_beside_it 1 (1 ∷ 2 ∷ 3 ∷ 1 ∷ []) }
    ensures declared { IsDeclared found_beside_it 1 }
    ensures declared_before { Sends two_beside_one 1
        (state_with ((3, 1) ∷ (1, 2) ∷ []) ((3, 2) ∷ (1, 3) ∷ []) [] (1 ∷ [])) (Got 2 (Probe (1, 2, 3))) [] None }
{}

/// `1: 1 5`, `2: 11 12`, `ask 5 11 / ask 1 5 12 / start 1`: the probes go along the waits of all that 1 reaches at
/// its site, in the order of the waiting processes. Of `1: 1`, `2: 2 3`, `ask 1 2 3`, the requests go in the order of
/// the targets.
pub fn frames_go_out_in_order()
    ensures probes { Sends two_beside_two 1 (state_with ((1, 5) ∷ (1, 12) ∷ (5, 11) ∷ []) ((5, 1) ∷ []) [] [])
        (Start 1) ((2, Probe (1, 1, 12)) ∷ (2, Probe (1, 5, 11)) ∷ []) None }
    ensures only_what_it_reaches { Sends two_beside_two 1
        (state_with ((1, 5) ∷ (1, 12) ∷ (5, 11) ∷ []) ((5, 1) ∷ []) [] []) (Start 5)
        ((2, Probe (5, 5, 11)) ∷ []) None }
    ensures requests { Sends three_processes 1 empty_state (Ask 1 (2 ∷ 3 ∷ []))
        ((2, Request (1, 2)) ∷ (2, Request (1, 3)) ∷ []) None }
{}

/// `1: 1`, `2: 2 3 4 5 6`: 1 is known to depend on 2, which stays so where another process becomes active, and where
/// one of two that 2 waits for has granted.
pub fn dependents_are_kept()
    ensures of_another { has (after six_processes 2
        (state_with ((2, 3) ∷ (5, 6) ∷ []) ((2, 1) ∷ (3, 2) ∷ (6, 5) ∷ []) ((2, 1) ∷ []) [])
        (Reply 6 5) None).dependents 2 1 ≡ true }
    ensures still_blocked { has (after six_processes 2
        (state_with ((2, 3) ∷ (2, 4) ∷ []) ((2, 1) ∷ (3, 2) ∷ (4, 2) ∷ []) ((2, 1) ∷ []) [])
        (Reply 3 2) None).dependents 2 1 ≡ true }
{}

/// `1: 1`, `2: 2`, `ask 1 2 / deliver 1 2 / reply 2 1 / deliver 2 1`: the wait has ended, 1 is active, and 2 owes it
/// nothing.
pub fn reply_comes_over_a_link()
    ensures run { IsRun (two_sites One) asked_and_answered }
    ensures ended { wait_after false 1 2 asked_and_answered ≡ false }
    ensures active { is_blocked (state_of (two_sites One) 1 asked_and_answered) 1 ≡ false }
    ensures not_owed { has (state_of (two_sites One) 2 asked_and_answered).owed 2 1 ≡ false }
    ensures drained { IsDrained asked_and_answered }
{}

/// No frame comes before it was sent, and while one is under way the list is not drained.
pub fn frames_are_sent_first()
    ensures no_run { IsRun (two_sites One) got_before_sent → ⊥ }
    ensures not_drained { IsDrained (take 1 ask_each_other) → ⊥ }
{}

/// `1: 1 2 3`, `ask 3 1 / ask 1 2 / ask 2 1`: 3 depends on a cycle, and is on none. The last asker of the cycle is 2,
/// and not 1.
pub fn waiting_for_a_cycle()
    ensures depends { DependsOn waits_for_a_cycle 3 1 }
    ensures cycle { IsCycle waits_for_a_cycle 1 (1 ∷ 2 ∷ 1 ∷ []) }
    ensures not_on_cycle { OnCycle waits_for_a_cycle 3 → ⊥ }
    ensures last { AskedLast waits_for_a_cycle (1 ∷ 2 ∷ 1 ∷ []) 2 }
    ensures not_last { AskedLast waits_for_a_cycle (1 ∷ 2 ∷ 1 ∷ []) 1 → ⊥ }
{}

/// `1: 1`, `2: 2`, `ask 1 2 / ask 2 1 / deliver 1 2 / deliver 2 1 / start 1`: one probe is under way, and two
/// deliveries follow, of 65 at most. With two requests under way the bound is 66, and with one reply 129. An ask is
/// no delivery, and while the probe is under way one can follow.
pub fn deliveries_come_to_an_end()
    ensures goes_on { GoesOn (two_sites One) (take 5 probe_goes_round) (drop 5 probe_goes_round) }
    ensures most { most_deliveries (two_sites One) (take 5 probe_goes_round) ≡ 65 }
    ensures most_with_requests { most_deliveries (two_sites One) (take 2 ask_each_other) ≡ 66 }
    ensures most_with_a_reply { most_deliveries (two_sites One) (take 3 asked_and_answered) ≡ 129 }
    ensures drained { IsDrained probe_goes_round }
    ensures not_settled { IsSettled (two_sites One) (take 5 probe_goes_round) → ⊥ }
    ensures no_delivery { GoesOn (two_sites One) [] (take 1 ask_each_other) → ⊥ }
{}
