//! Plays and lone steps: what the definitions of the machine make of small traces. The expected
//! entries and audits were not made by these definitions.
#![tactic(auto)]

ghost use Rattle.sem_plays.specs.AckForTheDeadInClear.{ack_for_the_dead_in_clear};
ghost use Rattle.sem_plays.specs.AnswersBeforeOrphan.{answers_before_orphan};
ghost use Rattle.sem_plays.specs.AskedBeforeClear.{asked_before_clear};
ghost use Rattle.sem_plays.specs.AsksOfAllOthers.{asks_of_all_others};
ghost use Rattle.sem_plays.specs.AsksOfAllOthers.{waits as asks_of_all_others_waits};
ghost use Rattle.sem_plays.specs.AsksOfTheEnded.{asks_of_the_ended};
ghost use Rattle.sem_plays.specs.BoundAnewIsEmpty.{bound_anew_is_empty};
ghost use Rattle.sem_plays.specs.ChainByWindowOfOne.{chain_by_window_of_one};
ghost use Rattle.sem_plays.specs.ChainOfFortyOne.{chain_of_forty_one};
ghost use Rattle.sem_plays.specs.ClearAdoptsRevoke.{clear_adopts_revoke};
ghost use Rattle.sem_plays.specs.ClearAdoptsRevoke.{waits as clear_adopts_revoke_waits};
ghost use Rattle.sem_plays.specs.ClearBelowClear.{clear_below_clear};
ghost use Rattle.sem_plays.specs.ClearBelowClear.{waits as clear_below_clear_waits};
ghost use Rattle.sem_plays.specs.ClearCancelsObtain.{clear_cancels_obtain};
ghost use Rattle.sem_plays.specs.ClearIsOneJob.{clear_is_one_job, waits as clear_is_one_job_waits};
ghost use Rattle.sem_plays.specs.ClearMeetsRevoke.{clear_meets_revoke};
ghost use Rattle.sem_plays.specs.ClearOfGate.{clear_of_gate};
ghost use Rattle.sem_plays.specs.ClearOfLocalChild.{clear_of_local_child};
ghost use Rattle.sem_plays.specs.ClearOfLocalChild.{waits as clear_of_local_child_waits};
ghost use Rattle.sem_plays.specs.ClearOfNoChild.{clear_of_no_child};
ghost use Rattle.sem_plays.specs.ClearOfNoChild.{waits as clear_of_no_child_waits};
ghost use Rattle.sem_plays.specs.ClearOfService.{clear_of_service};
ghost use Rattle.sem_plays.specs.ClearTakesBack.{clear_takes_back, waits as clear_takes_back_waits};
ghost use Rattle.sem_plays.specs.ClearUnbinds.{clear_unbinds};
ghost use Rattle.sem_plays.specs.ClearedHasParent.{cleared_has_parent};
ghost use Rattle.sem_plays.specs.ClearedHasRemoteParent.{cleared_has_remote_parent};
ghost use Rattle.sem_plays.specs.ClearedHasRemoteParent.{waits as cleared_has_remote_parent_waits};
ghost use Rattle.sem_plays.specs.ClearedIsUnlinked.{cleared_is_unlinked};
ghost use Rattle.sem_plays.specs.ClearedLocally.{cleared_locally};
ghost use Rattle.sem_plays.specs.ClearedThreeTimes.{cleared_three_times};
ghost use Rattle.sem_plays.specs.ClearerIsKilled.{clearer_is_killed};
ghost use Rattle.sem_plays.specs.ClearingIsNotGiven.{clearing_is_not_given};
ghost use Rattle.sem_plays.specs.ClearingIsToldInTurn.{clearing_is_told_in_turn};
ghost use Rattle.sem_plays.specs.ClearingIsToldInTurn.{waits as clearing_is_told_in_turn_waits};
ghost use Rattle.sem_plays.specs.ClearsMeet.{clears_meet};
ghost use Rattle.sem_plays.specs.DeadIsTold.{dead_is_told};
ghost use Rattle.sem_plays.specs.DeadObtainerSendsOrphan.{dead_obtainer_sends_orphan};
ghost use Rattle.sem_plays.specs.DeadReceiverSendsOrphan.{dead_receiver_sends_orphan};
ghost use Rattle.sem_plays.specs.DeadSourceAnswers.{dead_source_answers};
ghost use Rattle.sem_plays.specs.DelegateAfterClear.{delegate_after_clear};
ghost use Rattle.sem_plays.specs.DelegateInClear.{delegate_in_clear};
ghost use Rattle.sem_plays.specs.DelegateOfMarked.{delegate_of_marked};
ghost use Rattle.sem_plays.specs.DelegateOfRevoked.{delegate_of_revoked};
ghost use Rattle.sem_plays.specs.DelegateRefusedForTheDead.{delegate_refused_for_the_dead};
ghost use Rattle.sem_plays.specs.DelegateToTheDead.{delegate_to_the_dead};
ghost use Rattle.sem_plays.specs.DerivedBaseIsReduced.{derived_base_is_reduced};
ghost use Rattle.sem_plays.specs.DerivedGoesWithRoot.{derived_goes_with_root};
ghost use Rattle.sem_plays.specs.DerivedRightsAreFewer.{derived_rights_are_fewer};
ghost use Rattle.sem_plays.specs.DroppedThoughDenied.{dropped_though_denied};
ghost use Rattle.sem_plays.specs.EndInKeyOrder.{end_in_key_order};
ghost use Rattle.sem_plays.specs.EndTakesATreeOnce.{end_takes_a_tree_once};
ghost use Rattle.sem_plays.specs.EveryTokenComesBack.{every_token_comes_back};
ghost use Rattle.sem_plays.specs.EveryTokenComesBack.{waits as every_token_comes_back_waits};
ghost use Rattle.sem_plays.specs.ExitRevokes.{exit_revokes};
ghost use Rattle.sem_plays.specs.FarEnds.{far_ends};
ghost use Rattle.sem_plays.specs.GateTakesAllSlots.{gate_takes_all_slots};
ghost use Rattle.sem_plays.specs.GivenAfterClear.{given_after_clear};
ghost use Rattle.sem_plays.specs.KillOfChain.{kill_of_chain};
ghost use Rattle.sem_plays.specs.KillTakesClear.{kill_takes_clear};
ghost use Rattle.sem_plays.specs.KilledAfterClear.{killed_after_clear};
ghost use Rattle.sem_plays.specs.KilledBeforeAck.{killed_before_ack};
ghost use Rattle.sem_plays.specs.KilledBeforeInstall.{killed_before_install};
ghost use Rattle.sem_plays.specs.KilledRevoker.{killed_revoker};
ghost use Rattle.sem_plays.specs.KindBeforeDead.{kind_before_dead};
ghost use Rattle.sem_plays.specs.LastVpeOpens.{last_vpe_opens};
ghost use Rattle.sem_plays.specs.LinkHoldsFour.{link_holds_four, waits as link_holds_four_waits};
ghost use Rattle.sem_plays.specs.ListGoesRowByRow.{list_goes_row_by_row};
ghost use Rattle.sem_plays.specs.ListGoesRowByRow.{waits as list_goes_row_by_row_waits};
ghost use Rattle.sem_plays.specs.LocalDelegateOfMarked.{local_delegate_of_marked};
ghost use Rattle.sem_plays.specs.LocalDelegateOfRevoked.{local_delegate_of_revoked};
ghost use Rattle.sem_plays.specs.LocalDelegatesInClear.{local_delegates_in_clear};
ghost use Rattle.sem_plays.specs.MarkedBeforeKind.{marked_before_kind};
ghost use Rattle.sem_plays.specs.MarkedBeforeKind.{waits as marked_before_kind_waits};
ghost use Rattle.sem_plays.specs.MarkedIsUnbound.{marked_is_unbound};
ghost use Rattle.sem_plays.specs.ObtainAcrossKernels.{obtain_across_kernels};
ghost use Rattle.sem_plays.specs.ObtainOfMarked.{obtain_of_marked};
ghost use Rattle.sem_plays.specs.ObtainsCross.{obtains_cross};
ghost use Rattle.sem_plays.specs.OffersByName.{offers_by_name};
ghost use Rattle.sem_plays.specs.OrphanInClear.{orphan_in_clear, waits as orphan_in_clear_waits};
ghost use Rattle.sem_plays.specs.PreparedForTheDead.{prepared_for_the_dead};
ghost use Rattle.sem_plays.specs.PromisedIsOccupied.{promised_is_occupied};
ghost use Rattle.sem_plays.specs.ReceiverOfClearIsKilled.{receiver_of_clear_is_killed};
ghost use Rattle.sem_plays.specs.RefusalForTheDead.{refusal_for_the_dead};
ghost use Rattle.sem_plays.specs.RefusalsByName.{refusals_by_name};
ghost use Rattle.sem_plays.specs.RequestTakesClear.{request_takes_clear};
ghost use Rattle.sem_plays.specs.RequestTakesClear.{waits as request_takes_clear_waits};
ghost use Rattle.sem_plays.specs.RequestsRise.{requests_rise};
ghost use Rattle.sem_plays.specs.ResumeComesBeforeUpcall.{resume_comes_before_upcall};
ghost use Rattle.sem_plays.specs.ResumeComesBeforeUpcall.{waits as resume_comes_before_upcall_waits};
ghost use Rattle.sem_plays.specs.RevokeAdoptsRevoke.{revoke_adopts_revoke};
ghost use Rattle.sem_plays.specs.RevokeAdoptsRevoke.{waits as revoke_adopts_revoke_waits};
ghost use Rattle.sem_plays.specs.RevokeReachesOtherKernel.{revoke_reaches_other_kernel};
ghost use Rattle.sem_plays.specs.RevokeTakesClear.{revoke_takes_clear};
ghost use Rattle.sem_plays.specs.RevokeTakesClear.{waits as revoke_takes_clear_waits};
ghost use Rattle.sem_plays.specs.RevokedSelectorIsFree.{revoked_selector_is_free};
ghost use Rattle.sem_plays.specs.RevokingIsToldInTurn.{revoking_is_told_in_turn};
ghost use Rattle.sem_plays.specs.RevokingIsToldInTurn.{waits as revoking_is_told_in_turn_waits};
ghost use Rattle.sem_plays.specs.SessionsAndOffers.{sessions_and_offers};
ghost use Rattle.sem_plays.specs.TwoRevokesMeet.{two_revokes_meet, waits as two_revokes_meet_waits};
ghost use Rattle.sem_plays.specs.UnlinkInClear.{unlink_in_clear, waits as unlink_in_clear_waits};
ghost use Rattle.sem_plays.specs.WaiterOfClearIsKilled.{waiter_of_clear_is_killed};
ghost use Rattle.sem_plays.specs.WaiterOfClearIsKilled.{waits as waiter_of_clear_is_killed_waits};
ghost use Rattle.sem_plays.specs.WindowHoldsRequests.{window_holds_requests};
ghost use Rattle.sem_plays.specs.WindowHoldsRequests.{waits as window_holds_requests_waits};
ghost use Rattle.sem_plays.specs.WindowLeavesInboxOut.{window_leaves_inbox_out};
ghost use Rattle.sem_plays.specs.WindowLeavesInboxOut.{waits as window_leaves_inbox_out_waits};
ghost use Rattle.sem_plays.specs.WindowOfEachLink.{window_of_each_link};
ghost use Rattle.sem_plays.specs.WindowOfEachLink.{waits as window_of_each_link_waits};
ghost use Rattle.sem_plays.specs.WindowOfFive.{window_of_five, waits as window_of_five_waits};
ghost use Rattle.sem_plays.specs.WindowOfFour.{window_of_four, waits as window_of_four_waits};
ghost use Rattle.sem_plays.specs.WindowOfOne.{window_of_one, waits as window_of_one_waits};
ghost use Rattle.sem_plays.specs.WindowOfThirtyTwo.{window_of_thirty_two};
ghost use Rattle.sem_plays.specs.WindowOfThirtyTwo.{waits as window_of_thirty_two_waits};
ghost use Rattle.sem_plays.specs.Notions.{clear_is_one_job_cut, clear_is_one_job_answered};
ghost use Rattle.sem_plays.specs.Notions.{clear_of_no_child_cut, clear_of_no_child_answered};
ghost use Rattle.sem_plays.specs.Notions.{clear_takes_back_cut, clear_takes_back_answered};
ghost use Rattle.sem_plays.specs.Notions.{cleared_three_times_cut, cleared_three_times_answered};
ghost use Rattle.sem_plays.specs.Notions.{clearer_is_killed_cut, clearer_is_killed_answered};
ghost use Rattle.sem_plays.specs.Notions.{clearing_is_told_in_turn_cut};
ghost use Rattle.sem_plays.specs.Notions.{clearing_is_told_in_turn_answered, given_after_clear_cut};
ghost use Rattle.sem_plays.specs.Notions.{given_after_clear_answered, killed_after_clear_cut};
ghost use Rattle.sem_plays.specs.Notions.{killed_after_clear_answered, killed_revoker_cut};
ghost use Rattle.sem_plays.specs.Notions.{killed_revoker_answered, revoke_takes_clear_cut};
ghost use Rattle.sem_plays.specs.Notions.{revoke_takes_clear_answered, two_revokes_meet_cut};
ghost use Rattle.sem_plays.specs.Notions.{two_revokes_meet_answered, waiter_of_clear_is_killed_cut};
ghost use Rattle.sem_plays.specs.Notions.{waiter_of_clear_is_killed_answered};
ghost use Rattle.sem_plays.specs.LoneSteps.{obtain_of_an_undeclared_vpe};
ghost use Rattle.sem_plays.specs.LoneSteps.{obtain_of_a_vpe_on_another_pe};
ghost use Rattle.sem_plays.specs.LoneSteps.{obtain_from_a_vpe_elsewhere};
ghost use Rattle.sem_plays.specs.LoneSteps.{obtain_from_an_undeclared_vpe};
ghost use Rattle.sem_plays.specs.LoneSteps.{session_of_an_undeclared_service};
ghost use Rattle.sem_plays.specs.LoneSteps.{offer_of_an_undeclared_service};
ghost use Rattle.sem_plays.specs.LoneSteps.{obtain_request_of_a_local_vpe};
ghost use Rattle.sem_plays.specs.LoneSteps.{grant_for_which_nobody_waits, grant_of_another_number};
ghost use Rattle.sem_plays.specs.LoneSteps.{grant_for_a_delegate, grant_by_a_local_vpe};
ghost use Rattle.sem_plays.specs.LoneSteps.{grant_by_an_undeclared_vpe, grant_to_a_vpe_elsewhere};
ghost use Rattle.sem_plays.specs.LoneSteps.{grant_with_an_undeclared_gate};
ghost use Rattle.sem_plays.specs.LoneSteps.{grant_with_an_undeclared_service};
ghost use Rattle.sem_plays.specs.LoneSteps.{refusal_for_which_nobody_waits};
ghost use Rattle.sem_plays.specs.LoneSteps.{refusal_of_another_number, refusal_for_a_vpe_elsewhere};
ghost use Rattle.sem_plays.specs.LoneSteps.{refusal_for_an_undeclared_vpe};
ghost use Rattle.sem_plays.specs.LoneSteps.{delegate_to_a_vpe_elsewhere};
ghost use Rattle.sem_plays.specs.LoneSteps.{delegate_to_an_undeclared_vpe, delegate_of_a_local_vpe};
ghost use Rattle.sem_plays.specs.LoneSteps.{delegate_of_an_undeclared_vpe};
ghost use Rattle.sem_plays.specs.LoneSteps.{delegate_of_an_undeclared_gate};
ghost use Rattle.sem_plays.specs.LoneSteps.{preparation_for_which_nobody_waits};
ghost use Rattle.sem_plays.specs.LoneSteps.{preparation_of_another_parent};
ghost use Rattle.sem_plays.specs.LoneSteps.{preparation_by_a_local_vpe};
ghost use Rattle.sem_plays.specs.LoneSteps.{preparation_by_an_undeclared_vpe};
ghost use Rattle.sem_plays.specs.LoneSteps.{preparation_for_a_vpe_elsewhere};
ghost use Rattle.sem_plays.specs.LoneSteps.{denial_for_which_nobody_waits, denial_for_an_obtain};
ghost use Rattle.sem_plays.specs.LoneSteps.{denial_for_a_vpe_elsewhere, acknowledgement_of_nothing};
ghost use Rattle.sem_plays.specs.LoneSteps.{retraction_of_nothing};
ghost use Rattle.sem_plays.specs.LoneSteps.{acknowledgement_for_a_vpe_elsewhere};
ghost use Rattle.sem_plays.specs.LoneSteps.{orphan_of_a_parent_that_is_gone};
ghost use Rattle.sem_plays.specs.LoneSteps.{orphan_that_is_no_child};
ghost use Rattle.sem_plays.specs.LoneSteps.{unlink_of_a_parent_that_is_gone, unlink_of_no_child};
ghost use Rattle.sem_plays.specs.LoneSteps.{root_after_a_clear, orphan_after_a_clear};
ghost use Rattle.sem_plays.specs.LoneSteps.{unlink_after_a_clear, clear_of_what_is_being_cleared};
ghost use Rattle.sem_plays.specs.LoneSteps.{another_job_keeps_the_root, done_for_no_job};
ghost use Rattle.sem_plays.specs.LoneSteps.{request_for_a_key_that_is_not_held};
ghost use Rattle.sem_plays.specs.LoneSteps.{number_4095_is_the_last, number_4096_is_not_drawn};
ghost use Rattle.sem_plays.specs.LoneSteps.{occupied_comes_before_numbers, the_128th_ask_is_kept};
ghost use Rattle.sem_plays.specs.LoneSteps.{the_129th_ask_is_lost, ask_of_a_dead_service};
ghost use Rattle.sem_plays.specs.LoneSteps.{upcall_of_a_dead_vpe, call_of_a_dead_vpe};
ghost use Rattle.sem_plays.specs.LoneSteps.{call_of_a_vpe_elsewhere, call_while_one_waits};
ghost use Rattle.sem_plays.specs.LoneSteps.{resume_while_it_waits, fetch_from_the_own_kernel};
ghost use Rattle.sem_plays.specs.LoneSteps.{fetch_from_no_kernel, fetch_from_another_kernel};
ghost use Rattle.sem_plays.specs.LoneSteps.{fetch_with_a_full_inbox, flush_to_the_own_kernel};
ghost use Rattle.sem_plays.specs.LoneSteps.{flush_of_nothing, kill_of_the_declared};
ghost use Rattle.sem_plays.specs.LoneSteps.{kill_of_the_undeclared, enabled_at_the_start};

/// Plays of version 1 without `clear`: each schedule is possible, has these entries, and ends with
/// these made, cut, held and left.
pub fn plays_of_version_one()
    ensures answers_before_orphan { answers_before_orphan }
    ensures asks_of_the_ended { asks_of_the_ended }
    ensures bound_anew_is_empty { bound_anew_is_empty }
    ensures chain_of_forty_one { chain_of_forty_one }
    ensures dead_is_told { dead_is_told }
    ensures dead_obtainer_sends_orphan { dead_obtainer_sends_orphan }
    ensures dead_receiver_sends_orphan { dead_receiver_sends_orphan }
    ensures dead_source_answers { dead_source_answers }
    ensures delegate_of_marked { delegate_of_marked }
    ensures delegate_of_revoked { delegate_of_revoked }
    ensures delegate_refused_for_the_dead { delegate_refused_for_the_dead }
    ensures delegate_to_the_dead { delegate_to_the_dead }
    ensures derived_base_is_reduced { derived_base_is_reduced }
    ensures derived_goes_with_root { derived_goes_with_root }
    ensures derived_rights_are_fewer { derived_rights_are_fewer }
    ensures dropped_though_denied { dropped_though_denied }
    ensures end_in_key_order { end_in_key_order }
    ensures end_takes_a_tree_once { end_takes_a_tree_once }
    ensures every_token_comes_back { every_token_comes_back }
    ensures exit_revokes { exit_revokes }
    ensures gate_takes_all_slots { gate_takes_all_slots }
    ensures kill_of_chain { kill_of_chain }
    ensures killed_before_ack { killed_before_ack }
    ensures killed_before_install { killed_before_install }
    ensures killed_revoker { killed_revoker }
    ensures kind_before_dead { kind_before_dead }
    ensures link_holds_four { link_holds_four }
    ensures list_goes_row_by_row { list_goes_row_by_row }
    ensures local_delegate_of_marked { local_delegate_of_marked }
    ensures local_delegate_of_revoked { local_delegate_of_revoked }
    ensures marked_before_kind { marked_before_kind }
    ensures marked_is_unbound { marked_is_unbound }
    ensures obtain_across_kernels { obtain_across_kernels }
    ensures obtain_of_marked { obtain_of_marked }
    ensures obtains_cross { obtains_cross }
    ensures offers_by_name { offers_by_name }
    ensures prepared_for_the_dead { prepared_for_the_dead }
    ensures promised_is_occupied { promised_is_occupied }
    ensures refusal_for_the_dead { refusal_for_the_dead }
    ensures refusals_by_name { refusals_by_name }
    ensures requests_rise { requests_rise }
    ensures resume_comes_before_upcall { resume_comes_before_upcall }
    ensures revoke_adopts_revoke { revoke_adopts_revoke }
    ensures revoke_reaches_other_kernel { revoke_reaches_other_kernel }
    ensures revoked_selector_is_free { revoked_selector_is_free }
    ensures revoking_is_told_in_turn { revoking_is_told_in_turn }
    ensures sessions_and_offers { sessions_and_offers }
    ensures two_revokes_meet { two_revokes_meet }
{}

/// Plays of version 1 with `clear`.
pub fn plays_of_clear()
    ensures ack_for_the_dead_in_clear { ack_for_the_dead_in_clear }
    ensures asked_before_clear { asked_before_clear }
    ensures clear_adopts_revoke { clear_adopts_revoke }
    ensures clear_below_clear { clear_below_clear }
    ensures clear_cancels_obtain { clear_cancels_obtain }
    ensures clear_is_one_job { clear_is_one_job }
    ensures clear_meets_revoke { clear_meets_revoke }
    ensures clear_of_gate { clear_of_gate }
    ensures clear_of_local_child { clear_of_local_child }
    ensures clear_of_no_child { clear_of_no_child }
    ensures clear_of_service { clear_of_service }
    ensures clear_takes_back { clear_takes_back }
    ensures clear_unbinds { clear_unbinds }
    ensures cleared_has_parent { cleared_has_parent }
    ensures cleared_has_remote_parent { cleared_has_remote_parent }
    ensures cleared_is_unlinked { cleared_is_unlinked }
    ensures cleared_locally { cleared_locally }
    ensures cleared_three_times { cleared_three_times }
    ensures clearer_is_killed { clearer_is_killed }
    ensures clearing_is_not_given { clearing_is_not_given }
    ensures clearing_is_told_in_turn { clearing_is_told_in_turn }
    ensures clears_meet { clears_meet }
    ensures delegate_after_clear { delegate_after_clear }
    ensures delegate_in_clear { delegate_in_clear }
    ensures given_after_clear { given_after_clear }
    ensures kill_takes_clear { kill_takes_clear }
    ensures killed_after_clear { killed_after_clear }
    ensures local_delegates_in_clear { local_delegates_in_clear }
    ensures orphan_in_clear { orphan_in_clear }
    ensures receiver_of_clear_is_killed { receiver_of_clear_is_killed }
    ensures request_takes_clear { request_takes_clear }
    ensures revoke_takes_clear { revoke_takes_clear }
    ensures unlink_in_clear { unlink_in_clear }
    ensures waiter_of_clear_is_killed { waiter_of_clear_is_killed }
{}

/// Plays of version 2: windows from 1 to 32, up to 32 kernels, 128 PEs and 128 VPEs.
pub fn plays_of_version_two()
    ensures asks_of_all_others { asks_of_all_others }
    ensures chain_by_window_of_one { chain_by_window_of_one }
    ensures far_ends { far_ends }
    ensures last_vpe_opens { last_vpe_opens }
    ensures window_holds_requests { window_holds_requests }
    ensures window_leaves_inbox_out { window_leaves_inbox_out }
    ensures window_of_each_link { window_of_each_link }
    ensures window_of_five { window_of_five }
    ensures window_of_four { window_of_four }
    ensures window_of_one { window_of_one }
    ensures window_of_thirty_two { window_of_thirty_two }
{}

/// After that many events of a schedule exactly these are enabled.
pub fn waits()
    ensures asks_of_all_others { asks_of_all_others_waits }
    ensures clear_adopts_revoke { clear_adopts_revoke_waits }
    ensures clear_below_clear { clear_below_clear_waits }
    ensures clear_is_one_job { clear_is_one_job_waits }
    ensures clear_of_local_child { clear_of_local_child_waits }
    ensures clear_of_no_child { clear_of_no_child_waits }
    ensures clear_takes_back { clear_takes_back_waits }
    ensures cleared_has_remote_parent { cleared_has_remote_parent_waits }
    ensures clearing_is_told_in_turn { clearing_is_told_in_turn_waits }
    ensures every_token_comes_back { every_token_comes_back_waits }
    ensures link_holds_four { link_holds_four_waits }
    ensures list_goes_row_by_row { list_goes_row_by_row_waits }
    ensures marked_before_kind { marked_before_kind_waits }
    ensures orphan_in_clear { orphan_in_clear_waits }
    ensures request_takes_clear { request_takes_clear_waits }
    ensures resume_comes_before_upcall { resume_comes_before_upcall_waits }
    ensures revoke_adopts_revoke { revoke_adopts_revoke_waits }
    ensures revoke_takes_clear { revoke_takes_clear_waits }
    ensures revoking_is_told_in_turn { revoking_is_told_in_turn_waits }
    ensures two_revokes_meet { two_revokes_meet_waits }
    ensures unlink_in_clear { unlink_in_clear_waits }
    ensures waiter_of_clear_is_killed { waiter_of_clear_is_killed_waits }
    ensures window_holds_requests { window_holds_requests_waits }
    ensures window_leaves_inbox_out { window_leaves_inbox_out_waits }
    ensures window_of_each_link { window_of_each_link_waits }
    ensures window_of_five { window_of_five_waits }
    ensures window_of_four { window_of_four_waits }
    ensures window_of_one { window_of_one_waits }
    ensures window_of_thirty_two { window_of_thirty_two_waits }
{}

/// What the journals of some plays tell: which keys were cut off, and which of them by calls that
/// succeeded.
pub fn notions()
    ensures clear_is_one_job_cut { clear_is_one_job_cut }
    ensures clear_is_one_job_answered { clear_is_one_job_answered }
    ensures clear_of_no_child_cut { clear_of_no_child_cut }
    ensures clear_of_no_child_answered { clear_of_no_child_answered }
    ensures clear_takes_back_cut { clear_takes_back_cut }
    ensures clear_takes_back_answered { clear_takes_back_answered }
    ensures cleared_three_times_cut { cleared_three_times_cut }
    ensures cleared_three_times_answered { cleared_three_times_answered }
    ensures clearer_is_killed_cut { clearer_is_killed_cut }
    ensures clearer_is_killed_answered { clearer_is_killed_answered }
    ensures clearing_is_told_in_turn_cut { clearing_is_told_in_turn_cut }
    ensures clearing_is_told_in_turn_answered { clearing_is_told_in_turn_answered }
    ensures given_after_clear_cut { given_after_clear_cut }
    ensures given_after_clear_answered { given_after_clear_answered }
    ensures killed_after_clear_cut { killed_after_clear_cut }
    ensures killed_after_clear_answered { killed_after_clear_answered }
    ensures killed_revoker_cut { killed_revoker_cut }
    ensures killed_revoker_answered { killed_revoker_answered }
    ensures revoke_takes_clear_cut { revoke_takes_clear_cut }
    ensures revoke_takes_clear_answered { revoke_takes_clear_answered }
    ensures two_revokes_meet_cut { two_revokes_meet_cut }
    ensures two_revokes_meet_answered { two_revokes_meet_answered }
    ensures waiter_of_clear_is_killed_cut { waiter_of_clear_is_killed_cut }
    ensures waiter_of_clear_is_killed_answered { waiter_of_clear_is_killed_answered }
{}

/// Steps that no schedule reaches: messages that no call waits for, and the ends of the ranges.
pub fn lone_steps()
    ensures obtain_of_an_undeclared_vpe { obtain_of_an_undeclared_vpe }
    ensures obtain_of_a_vpe_on_another_pe { obtain_of_a_vpe_on_another_pe }
    ensures obtain_from_a_vpe_elsewhere { obtain_from_a_vpe_elsewhere }
    ensures obtain_from_an_undeclared_vpe { obtain_from_an_undeclared_vpe }
    ensures session_of_an_undeclared_service { session_of_an_undeclared_service }
    ensures offer_of_an_undeclared_service { offer_of_an_undeclared_service }
    ensures obtain_request_of_a_local_vpe { obtain_request_of_a_local_vpe }
    ensures grant_for_which_nobody_waits { grant_for_which_nobody_waits }
    ensures grant_of_another_number { grant_of_another_number }
    ensures grant_for_a_delegate { grant_for_a_delegate }
    ensures grant_by_a_local_vpe { grant_by_a_local_vpe }
    ensures grant_by_an_undeclared_vpe { grant_by_an_undeclared_vpe }
    ensures grant_to_a_vpe_elsewhere { grant_to_a_vpe_elsewhere }
    ensures grant_with_an_undeclared_gate { grant_with_an_undeclared_gate }
    ensures grant_with_an_undeclared_service { grant_with_an_undeclared_service }
    ensures refusal_for_which_nobody_waits { refusal_for_which_nobody_waits }
    ensures refusal_of_another_number { refusal_of_another_number }
    ensures refusal_for_a_vpe_elsewhere { refusal_for_a_vpe_elsewhere }
    ensures refusal_for_an_undeclared_vpe { refusal_for_an_undeclared_vpe }
    ensures delegate_to_a_vpe_elsewhere { delegate_to_a_vpe_elsewhere }
    ensures delegate_to_an_undeclared_vpe { delegate_to_an_undeclared_vpe }
    ensures delegate_of_a_local_vpe { delegate_of_a_local_vpe }
    ensures delegate_of_an_undeclared_vpe { delegate_of_an_undeclared_vpe }
    ensures delegate_of_an_undeclared_gate { delegate_of_an_undeclared_gate }
    ensures preparation_for_which_nobody_waits { preparation_for_which_nobody_waits }
    ensures preparation_of_another_parent { preparation_of_another_parent }
    ensures preparation_by_a_local_vpe { preparation_by_a_local_vpe }
    ensures preparation_by_an_undeclared_vpe { preparation_by_an_undeclared_vpe }
    ensures preparation_for_a_vpe_elsewhere { preparation_for_a_vpe_elsewhere }
    ensures denial_for_which_nobody_waits { denial_for_which_nobody_waits }
    ensures denial_for_an_obtain { denial_for_an_obtain }
    ensures denial_for_a_vpe_elsewhere { denial_for_a_vpe_elsewhere }
    ensures acknowledgement_of_nothing { acknowledgement_of_nothing }
    ensures retraction_of_nothing { retraction_of_nothing }
    ensures acknowledgement_for_a_vpe_elsewhere { acknowledgement_for_a_vpe_elsewhere }
    ensures orphan_of_a_parent_that_is_gone { orphan_of_a_parent_that_is_gone }
    ensures orphan_that_is_no_child { orphan_that_is_no_child }
    ensures unlink_of_a_parent_that_is_gone { unlink_of_a_parent_that_is_gone }
    ensures unlink_of_no_child { unlink_of_no_child }
    ensures root_after_a_clear { root_after_a_clear }
    ensures orphan_after_a_clear { orphan_after_a_clear }
    ensures unlink_after_a_clear { unlink_after_a_clear }
    ensures clear_of_what_is_being_cleared { clear_of_what_is_being_cleared }
    ensures another_job_keeps_the_root { another_job_keeps_the_root }
    ensures done_for_no_job { done_for_no_job }
    ensures request_for_a_key_that_is_not_held { request_for_a_key_that_is_not_held }
    ensures number_4095_is_the_last { number_4095_is_the_last }
    ensures number_4096_is_not_drawn { number_4096_is_not_drawn }
    ensures occupied_comes_before_numbers { occupied_comes_before_numbers }
    ensures the_128th_ask_is_kept { the_128th_ask_is_kept }
    ensures the_129th_ask_is_lost { the_129th_ask_is_lost }
    ensures ask_of_a_dead_service { ask_of_a_dead_service }
    ensures upcall_of_a_dead_vpe { upcall_of_a_dead_vpe }
    ensures call_of_a_dead_vpe { call_of_a_dead_vpe }
    ensures call_of_a_vpe_elsewhere { call_of_a_vpe_elsewhere }
    ensures call_while_one_waits { call_while_one_waits }
    ensures resume_while_it_waits { resume_while_it_waits }
    ensures fetch_from_the_own_kernel { fetch_from_the_own_kernel }
    ensures fetch_from_no_kernel { fetch_from_no_kernel }
    ensures fetch_from_another_kernel { fetch_from_another_kernel }
    ensures fetch_with_a_full_inbox { fetch_with_a_full_inbox }
    ensures flush_to_the_own_kernel { flush_to_the_own_kernel }
    ensures flush_of_nothing { flush_of_nothing }
    ensures kill_of_the_declared { kill_of_the_declared }
    ensures kill_of_the_undeclared { kill_of_the_undeclared }
    ensures enabled_at_the_start { enabled_at_the_start }
{}
