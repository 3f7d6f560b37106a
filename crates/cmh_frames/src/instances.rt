//! More worked scripts, as theorems: the rules where a peer lies, where an ask or a probe meets what is there
//! already, and runs over links in edition 2, with a lost frame, and with a second ask.
//!
//! A site with its processes is written `S: P Q`, and the lines of a script are parted by ` / `.

ghost use Rattle.std.specs.Prelude.{◌≡◌, true, false, [], ◌∷◌, ◌++◌, None, Some, take};
ghost use Rattle.cmh_frames.specs.declared.edition.Edition.TheVariants.{One, Two};
ghost use Rattle.cmh_frames.specs.declared.frame.Frame.TheVariants.{Request, Reply as Reply_frame, Probe};
ghost use Rattle.cmh_frames.specs.declared.event.Event.TheVariants.{Ask, Reply, Got};
ghost use Rattle.cmh_frames.specs.Relation.{has};
ghost use Rattle.cmh_frames.specs.State.{empty_state, is_blocked};
ghost use Rattle.cmh_frames.specs.Rules.{Accepts, Sends, after, probe_acts};
ghost use Rattle.cmh_frames.specs.Runs.{ComesFrom, IsDrained, IsRun, state_of, under_way};
ghost use Rattle.cmh_frames.specs.Waits.{IsCycle, IsDeclared, wait_after};
ghost use Rattle.cmh_frames.specs.LastAsker.{AskedLast};
ghost use Rattle.cmh_frames.specs.Stops.{IsConsistent, stopped};
ghost use Rattle.cmh_frames.specs.Topology.{lookup};
ghost use Rattle.cmh_frames.specs.Scripts.{asked_and_answered, asked_again, beside_in, lost_request, one_site, probes_cross, probe_goes_round, state_with, three_processes, three_sites, two_sites};

/// `1: 1`, `2: 2`, `3: 3`: a frame comes from the home of who sent it. Site 2 takes from site 1 what 1 sent, and
/// takes none of it from site 3.
pub fn frames_from_another_home()
    ensures request { Accepts three_sites 2 empty_state (Got 1 (Request (1, 2))) }
    ensures reply { Accepts three_sites 2 (state_with ((2, 1) ∷ []) [] [] []) (Got 1 (Reply_frame (1, 2))) }
    ensures probe { Accepts three_sites 2 empty_state (Got 1 (Probe (3, 1, 2))) }
    ensures no_request { Accepts three_sites 2 empty_state (Got 3 (Request (1, 2))) → ⊥ }
    ensures no_reply { Accepts three_sites 2 (state_with ((2, 1) ∷ []) [] [] []) (Got 3 (Reply_frame (1, 2))) → ⊥ }
    ensures no_probe { Accepts three_sites 2 empty_state (Got 3 (Probe (3, 1, 2))) → ⊥ }
{}

/// `1: 1`, `2: 2`, `3: 3`: a frame for the process of a third site is not taken.
pub fn frames_for_a_third_site()
    ensures no_request { Accepts three_sites 2 empty_state (Got 1 (Request (1, 3))) → ⊥ }
    ensures no_reply { Accepts three_sites 2 (state_with ((3, 1) ∷ []) [] [] []) (Got 1 (Reply_frame (1, 3))) → ⊥ }
    ensures no_probe { Accepts three_sites 2 empty_state (Got 1 (Probe (1, 1, 3))) → ⊥ }
{}

/// Edition 2, `1: 1 3`, `2: 2`: a declared process that asks starts a computation like any other: its probe goes out
/// after its request. Where it is locally dependent upon itself it is not declared again, and no probe goes out.
pub fn declared_process_asks()
    ensures probes { Sends (beside_in Two) 1 (state_with [] [] [] (3 ∷ [])) (Ask 3 (2 ∷ []))
        ((2, Request (3, 2)) ∷ (2, Probe (3, 3, 2)) ∷ []) None }
    ensures not_again { Sends (beside_in Two) 1 (state_with ((1, 3) ∷ []) ((3, 1) ∷ []) [] (3 ∷ [])) (Ask 3 (1 ∷ []))
        [] None }
{}

/// After an ask of two the asker waits for both, and those at its site owe it. Where the ask declares, the asker is
/// kept as declared.
pub fn state_after_an_ask()
    ensures both { after three_processes 1 empty_state (Ask 1 (2 ∷ 3 ∷ [])) None
        ≡ state_with ((1, 2) ∷ (1, 3) ∷ []) [] [] [] }
    ensures local { after (beside_in One) 1 empty_state (Ask 1 (2 ∷ 3 ∷ [])) None
        ≡ state_with ((1, 2) ∷ (1, 3) ∷ []) ((3, 1) ∷ []) [] [] }
    ensures declared { after (one_site Two) 1 (state_with ((1, 2) ∷ []) ((2, 1) ∷ []) [] []) (Ask 2 (1 ∷ [])) (Some 2)
        ≡ state_with ((2, 1) ∷ (1, 2) ∷ []) ((1, 2) ∷ (2, 1) ∷ []) [] (2 ∷ []) }
{}

/// `1: 1`, `2: 2 3`: 2 is known to depend on 1, which waits for 2 and 3. As long as one reply is to come it stays so,
/// and with the last it is forgotten.
pub fn received_reply_forgets_dependents()
    ensures kept { has (after three_processes 1 (state_with ((1, 2) ∷ (1, 3) ∷ []) [] ((1, 2) ∷ []) [])
        (Got 2 (Reply_frame (2, 1))) None).dependents 1 2 ≡ true }
    ensures forgotten { has (after three_processes 1 (state_with ((1, 3) ∷ []) [] ((1, 2) ∷ []) [])
        (Got 2 (Reply_frame (3, 1))) None).dependents 1 2 ≡ false }
{}

/// `1: 1`, `2: 2`: 2 owes 1 and waits for nobody, so a probe of 1 is accepted and ignored: nothing changes and
/// nothing is sent. The same probe acts where 2 waits.
pub fn probe_to_an_active_process()
    ensures accepted { Accepts (two_sites One) 2 (state_with [] ((2, 1) ∷ []) [] []) (Got 1 (Probe (1, 1, 2))) }
    ensures ignored { probe_acts (state_with [] ((2, 1) ∷ []) [] []) 1 1 2 ≡ false }
    ensures unchanged { after (two_sites One) 2 (state_with [] ((2, 1) ∷ []) [] []) (Got 1 (Probe (1, 1, 2))) None
        ≡ state_with [] ((2, 1) ∷ []) [] [] }
    ensures silent { Sends (two_sites One) 2 (state_with [] ((2, 1) ∷ []) [] []) (Got 1 (Probe (1, 1, 2))) [] None }
    ensures blocked { probe_acts (state_with ((2, 1) ∷ []) ((2, 1) ∷ []) [] []) 1 1 2 ≡ true }
{}

/// Edition 2, `1: 1`, `2: 2`, `ask 1 2 / ask 2 1`, and then each frame comes in turn: requests first, and then the
/// probes. Each probe goes round, and both processes are declared. The run is drained, and 2 asked last.
pub fn probes_of_both_go_round()
    ensures run { IsRun (two_sites Two) probes_cross }
    ensures under_way { under_way 1 2 (take 2 probes_cross) ≡ Request (1, 2) ∷ Probe (1, 1, 2) ∷ [] }
    ensures drained { IsDrained probes_cross }
    ensures cycle { IsCycle probes_cross 1 (1 ∷ 2 ∷ 1 ∷ []) }
    ensures last { AskedLast probes_cross (1 ∷ 2 ∷ 1 ∷ []) 2 }
    ensures first_declared { IsDeclared probes_cross 1 }
    ensures last_declared { IsDeclared probes_cross 2 }
{}

/// `1: 1`, `2: 2`, `ask 1 2 / cut 1 2 / ask 2 1 / deliver 2 1`: the request of 1 is lost. The list is a run all the
/// same, in which the frame stays under way, each process waits for the other, and 2 owes nothing.
pub fn lost_frame_stays_under_way()
    ensures run { IsRun (two_sites One) lost_request }
    ensures under_way { under_way 1 2 lost_request ≡ Request (1, 2) ∷ [] }
    ensures not_drained { IsDrained lost_request → ⊥ }
    ensures cycle { IsCycle lost_request 1 (1 ∷ 2 ∷ 1 ∷ []) }
    ensures not_owed { has (state_of (two_sites One) 2 lost_request).owed 2 1 ≡ false }
{}

/// `1: 1`, `2: 2`, `ask 1 2 / deliver 1 2 / reply 2 1 / deliver 2 1 / ask 1 2`: the wait has ended, and stands again.
pub fn ask_reply_and_ask()
    ensures run { IsRun (two_sites One) asked_again }
    ensures ended { wait_after false 1 2 (take 4 asked_again) ≡ false }
    ensures waits { wait_after false 1 2 asked_again ≡ true }
    ensures under_way { under_way 1 2 asked_again ≡ Request (1, 2) ∷ [] }
    ensures blocked { is_blocked (state_of (two_sites One) 1 asked_again) 1 ≡ true }
{}

/// Of the run in which a probe goes round, site 1 stops after two entries and site 2 after one. The stop is
/// consistent, though site 2 has not got what site 1 sent, and its entries are those of the run with the lost
/// request.
pub fn stop_cut_out_of_a_run()
    ensures consistent { IsConsistent (lookup 0 ((1, 2) ∷ (2, 1) ∷ [])) probe_goes_round }
    ensures comes { ComesFrom (stopped (lookup 0 ((1, 2) ∷ (2, 1) ∷ [])) probe_goes_round) lost_request }
    ensures not_consistent { IsConsistent (lookup 0 ((1, 2) ∷ [])) probe_goes_round → ⊥ }
{}
