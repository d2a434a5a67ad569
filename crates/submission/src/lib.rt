// `SubmissionBook` by value, one method a call: self in, the next book back beside the answer. No method asks anything of its input.
#![tactic(auto)]

ghost use Rattle.std.specs.Prelude.{◌≡◌, length};
ghost use Rattle.book.specs.Model.{back};
ghost use Rattle.archive_form.specs.Encode.{encode_model};
ghost use Rattle.rules.specs.Calls.AbandonAttempt.{abandon_attempt};
ghost use Rattle.rules.specs.Calls.AbsentOutputsForIds.{absent_outputs_for_ids};
ghost use Rattle.rules.specs.Calls.AcknowledgeAttempt.{acknowledge_attempt};
ghost use Rattle.rules.specs.Calls.ActiveIds.{active_ids};
ghost use Rattle.rules.specs.Calls.Attempt.{attempt};
ghost use Rattle.rules.specs.Calls.CausallyRolledBackIds.{causally_rolled_back_ids};
ghost use Rattle.rules.specs.Calls.ClearLocalArtifacts.{clear_local_artifacts};
ghost use Rattle.rules.specs.Calls.CollectRollbackReplayIds.{collect_rollback_replay_ids};
ghost use Rattle.rules.specs.Calls.Drain.{drain};
ghost use Rattle.rules.specs.Calls.DrainRetirements.{drain_retirements};
ghost use Rattle.rules.specs.Calls.EmitRetirement.{emit_retirement};
ghost use Rattle.rules.specs.Calls.FeeIntentForAttempt.{fee_intent_for_attempt};
ghost use Rattle.rules.specs.Calls.FinalizeAttempt.{finalize_attempt};
ghost use Rattle.rules.specs.Calls.Look.{look_at};
ghost use Rattle.rules.specs.Calls.Queue.{queue};
ghost use Rattle.rules.specs.Calls.QueueFeeReadiness.{queue_fee_readiness};
ghost use Rattle.rules.specs.Calls.QueueRebroadcastEpoch.{queue_rebroadcast_epoch};
ghost use Rattle.rules.specs.Calls.QueueRetainedDelivery.{queue_retained_delivery};
ghost use Rattle.rules.specs.Calls.ReconcileChainTerminality.{reconcile_chain_terminality};
ghost use Rattle.rules.specs.Calls.ReconciliationInputCoins.{reconciliation_input_coins};
ghost use Rattle.rules.specs.Calls.RelinquishCompletedAttempt.{relinquish_completed_attempt};
ghost use Rattle.rules.specs.Calls.Replay.{begin_replay, finish_replay_if_advanced, replay_rollback_height};
ghost use Rattle.rules.specs.Calls.RestoreRuntime.{restore_runtime};
ghost use Rattle.rules.specs.Calls.RetainSubmitted.{retain_submitted};
ghost use Rattle.rules.specs.Calls.StopAttempt.{stop_attempt};
ghost use Rattle.rules.specs.Calls.Summary.{summary};
ghost use Rattle.rules.specs.Calls.WriteArchive.{write_archive};
ghost use Rattle.rules.specs.Opened.{opened};
ghost use Rattle.submission.specs.Book.{book_of, buffer_after};
ghost use Rattle.submission.specs.Answers.{with_book, reply_to, ids_reply_to, attempt_reply_to, written_reply_to, drain_reply_to};

use book::{
    BookData, DeliveryTrigger, Height, Ids, OptionalAttempt, PendingDelivery, SpendBundle,
    SubmissionDeliveryGoal, SubmissionFeeIntent, SubmissionId, Token,
};
use book_answers::{
    BookSummary, DrainedSubmission, FinalizedSubmission, SubmissionAttemptStatus,
    SubmissionDrainFailure, SubmissionFeeSource, SubmissionLook,
};
use part_door::door;
use part_drain_answers::Drained;
use part_replies::{Reply, refused};

#[derive(Clone, Copy)]
pub struct SubmissionBook {
    pub parts: BookData,
}

// A call's reply, with its book as one of ours.
fn answered<T>(r: Reply<T, BookData>) -> Reply<T, SubmissionBook>
    ensures { result ≡ with_book r }
{
    let book = SubmissionBook { parts: r.book };
    Reply {
        answer: r.answer,
        book,
    }
}

// Each method is one call of the interface. What they share is `door` and `answered`; their contracts differ in the rules of the call.
impl SubmissionBook {
    // Any next token and any next submission id; never refused.
    pub fn open(token: Token, id: SubmissionId) -> SubmissionBook
        ensures { result ≡ book_of (back (opened token.0 id.0)) }
    {
        let parts = call_open::open(token, id);
        SubmissionBook { parts }
    }

    pub fn queue(self, d: PendingDelivery) -> Reply<(), SubmissionBook>
        ensures { result ≡ reply_to self (queue d) }
    {
        match door(self.parts) {
            Ok(b) => answered(call_queue::queue_sound(b, d)),
            Err(r) => answered(refused(self.parts, r)),
        }
    }

    pub fn queue_rebroadcast_epoch(
        self,
        ids: &[u64],
        trigger: DeliveryTrigger,
    ) -> Reply<(), SubmissionBook>
        ensures { result ≡ reply_to self (queue_rebroadcast_epoch ids.now trigger) }
    {
        match door(self.parts) {
            Ok(b) => answered(call_queue_rebroadcast_epoch::queue_rebroadcast_epoch_sound(
                b, ids, trigger,
            )),
            Err(r) => answered(refused(self.parts, r)),
        }
    }

    pub fn queue_fee_readiness(self) -> Reply<(), SubmissionBook>
        ensures { result ≡ reply_to self queue_fee_readiness }
    {
        match door(self.parts) {
            Ok(b) => answered(call_queue_fee_readiness::queue_fee_readiness_sound(b)),
            Err(r) => answered(refused(self.parts, r)),
        }
    }

    pub fn queue_retained_delivery(
        self,
        id: SubmissionId,
        trigger: DeliveryTrigger,
        goal: SubmissionDeliveryGoal,
    ) -> Reply<(), SubmissionBook>
        ensures { result ≡ reply_to self (queue_retained_delivery id.0 trigger goal) }
    {
        match door(self.parts) {
            Ok(b) => answered(call_queue_retained_delivery::queue_retained_delivery_sound(
                b, id, trigger, goal,
            )),
            Err(r) => answered(refused(self.parts, r)),
        }
    }

    pub fn drain(self) -> Reply<Drained, SubmissionBook>
        ensures { result ≡ drain_reply_to self drain }
    {
        match door(self.parts) {
            Ok(b) => answered(call_drain::drain_sound(b)),
            Err(r) => answered(refused(self.parts, r)),
        }
    }

    pub fn finalize_attempt(
        self,
        token: Token,
        source: SubmissionFeeSource,
        joined: SpendBundle,
    ) -> Reply<Option<FinalizedSubmission>, SubmissionBook>
        ensures { result ≡ reply_to self (finalize_attempt token.0 source joined) }
    {
        match door(self.parts) {
            Ok(b) => answered(call_finalize_attempt::finalize_attempt_sound(
                b, token, source, joined,
            )),
            Err(r) => answered(refused(self.parts, r)),
        }
    }

    pub fn fee_intent_for_attempt(
        self,
        token: Token,
    ) -> Reply<Option<SubmissionFeeIntent>, SubmissionBook>
        ensures { result ≡ reply_to self (fee_intent_for_attempt token.0) }
    {
        match door(self.parts) {
            Ok(b) => answered(call_fee_intent_for_attempt::fee_intent_for_attempt_sound(b, token)),
            Err(r) => answered(refused(self.parts, r)),
        }
    }

    pub fn acknowledge_attempt(self, token: Token) -> Reply<SubmissionAttemptStatus, SubmissionBook>
        ensures { result ≡ reply_to self (acknowledge_attempt token.0) }
    {
        match door(self.parts) {
            Ok(b) => answered(call_acknowledge_attempt::acknowledge_attempt_sound(b, token)),
            Err(r) => answered(refused(self.parts, r)),
        }
    }

    pub fn stop_attempt(self, token: Token) -> Reply<SubmissionAttemptStatus, SubmissionBook>
        ensures { result ≡ reply_to self (stop_attempt token.0) }
    {
        match door(self.parts) {
            Ok(b) => answered(call_stop_attempt::stop_attempt_sound(b, token)),
            Err(r) => answered(refused(self.parts, r)),
        }
    }

    pub fn abandon_attempt(self, token: Token) -> Reply<SubmissionAttemptStatus, SubmissionBook>
        ensures { result ≡ reply_to self (abandon_attempt token.0) }
    {
        match door(self.parts) {
            Ok(b) => answered(call_abandon_attempt::abandon_attempt_sound(b, token)),
            Err(r) => answered(refused(self.parts, r)),
        }
    }

    pub fn relinquish_completed_attempt(
        self,
        token: Token,
    ) -> Reply<SubmissionAttemptStatus, SubmissionBook>
        ensures { result ≡ reply_to self (relinquish_completed_attempt token.0) }
    {
        match door(self.parts) {
            Ok(b) => answered(
                call_relinquish_completed_attempt::relinquish_completed_attempt_sound(b, token),
            ),
            Err(r) => answered(refused(self.parts, r)),
        }
    }

    pub fn attempt(self, token: Token) -> Reply<OptionalAttempt, SubmissionBook>
        ensures { result ≡ attempt_reply_to self (attempt token.0) }
    {
        match door(self.parts) {
            Ok(b) => answered(call_attempt::attempt_sound(b, token)),
            Err(r) => answered(refused(self.parts, r)),
        }
    }

    pub fn look(self, id: SubmissionId) -> Reply<Option<SubmissionLook>, SubmissionBook>
        ensures { result ≡ reply_to self (look_at id.0) }
    {
        match door(self.parts) {
            Ok(b) => answered(call_look::look_sound(b, id)),
            Err(r) => answered(refused(self.parts, r)),
        }
    }

    pub fn summary(self) -> Reply<BookSummary, SubmissionBook>
        ensures { result ≡ reply_to self summary }
    {
        match door(self.parts) {
            Ok(b) => answered(call_summary::summary_sound(b)),
            Err(r) => answered(refused(self.parts, r)),
        }
    }

    pub fn retain_submitted(self, ids: &[u64]) -> Reply<Ids<64>, SubmissionBook>
        ensures { result ≡ ids_reply_to self (retain_submitted ids.now) }
    {
        match door(self.parts) {
            Ok(b) => answered(call_retain_submitted::retain_submitted_sound(b, ids)),
            Err(r) => answered(refused(self.parts, r)),
        }
    }

    pub fn emit_retirement(self, id: SubmissionId) -> Reply<(), SubmissionBook>
        ensures { result ≡ reply_to self (emit_retirement id.0) }
    {
        match door(self.parts) {
            Ok(b) => answered(call_emit_retirement::emit_retirement_sound(b, id)),
            Err(r) => answered(refused(self.parts, r)),
        }
    }

    pub fn drain_retirements(self) -> Reply<Ids<64>, SubmissionBook>
        ensures { result ≡ ids_reply_to self drain_retirements }
    {
        match door(self.parts) {
            Ok(b) => answered(call_drain_retirements::drain_retirements_sound(b)),
            Err(r) => answered(refused(self.parts, r)),
        }
    }

    pub fn active_ids(self) -> Reply<Ids<64>, SubmissionBook>
        ensures { result ≡ ids_reply_to self active_ids }
    {
        match door(self.parts) {
            Ok(b) => answered(call_active_ids::active_ids_sound(b)),
            Err(r) => answered(refused(self.parts, r)),
        }
    }

    pub fn begin_replay(self, height: Height) -> Reply<bool, SubmissionBook>
        ensures { result ≡ reply_to self (begin_replay height) }
    {
        match door(self.parts) {
            Ok(b) => answered(call_begin_replay::begin_replay_sound(b, height)),
            Err(r) => answered(refused(self.parts, r)),
        }
    }

    pub fn finish_replay_if_advanced(self, height: Height) -> Reply<(), SubmissionBook>
        ensures { result ≡ reply_to self (finish_replay_if_advanced height) }
    {
        match door(self.parts) {
            Ok(b) => answered(
                call_finish_replay_if_advanced::finish_replay_if_advanced_sound(b, height),
            ),
            Err(r) => answered(refused(self.parts, r)),
        }
    }

    pub fn replay_rollback_height(self) -> Reply<Option<Height>, SubmissionBook>
        ensures { result ≡ reply_to self replay_rollback_height }
    {
        match door(self.parts) {
            Ok(b) => answered(call_replay_rollback_height::replay_rollback_height_sound(b)),
            Err(r) => answered(refused(self.parts, r)),
        }
    }

    pub fn reconcile_chain_terminality(
        self,
        observed: &[u8],
        spent: &[u8],
        reorg: bool,
        rolled_back: &[u64],
    ) -> Reply<(), SubmissionBook>
        ensures { result ≡ reply_to self (reconcile_chain_terminality observed.now spent.now reorg rolled_back.now) }
    {
        match door(self.parts) {
            Ok(b) => answered(
                call_reconcile_chain_terminality::reconcile_chain_terminality_sound(
                    b,
                    observed,
                    spent,
                    reorg,
                    rolled_back,
                ),
            ),
            Err(r) => answered(refused(self.parts, r)),
        }
    }

    pub fn causally_rolled_back_ids(
        self,
        absent: &[u8],
        inputs: &[u8],
    ) -> Reply<Ids<64>, SubmissionBook>
        ensures { result ≡ ids_reply_to self (causally_rolled_back_ids absent.now inputs.now) }
    {
        match door(self.parts) {
            Ok(b) => answered(
                call_causally_rolled_back_ids::causally_rolled_back_ids_sound(b, absent, inputs),
            ),
            Err(r) => answered(refused(self.parts, r)),
        }
    }

    pub fn collect_rollback_replay_ids(self, ids: &[u64]) -> Reply<(), SubmissionBook>
        ensures { result ≡ reply_to self (collect_rollback_replay_ids ids.now) }
    {
        match door(self.parts) {
            Ok(b) => answered(
                call_collect_rollback_replay_ids::collect_rollback_replay_ids_sound(b, ids),
            ),
            Err(r) => answered(refused(self.parts, r)),
        }
    }

    pub fn clear_local_artifacts(self) -> Reply<(), SubmissionBook>
        ensures { result ≡ reply_to self clear_local_artifacts }
    {
        match door(self.parts) {
            Ok(b) => answered(call_clear_local_artifacts::clear_local_artifacts_sound(b)),
            Err(r) => answered(refused(self.parts, r)),
        }
    }

    pub fn restore_runtime(self) -> Reply<(), SubmissionBook>
        ensures { result ≡ reply_to self restore_runtime }
    {
        match door(self.parts) {
            Ok(b) => answered(call_restore_runtime::restore_runtime_sound(b)),
            Err(r) => answered(refused(self.parts, r)),
        }
    }

    pub fn reconciliation_input_coins(
        self,
        outputs: &[u8],
        out: &mut [u8],
    ) -> Reply<usize, SubmissionBook>
        ensures { (result ≡ written_reply_to self (reconciliation_input_coins outputs.now (length out.old))) × (out.new ≡ buffer_after self (reconciliation_input_coins outputs.now (length out.old)) out.old) }
    {
        match door(self.parts) {
            Ok(b) => answered(
                call_reconciliation_input_coins::reconciliation_input_coins_sound(b, outputs, out),
            ),
            Err(r) => answered(refused(self.parts, r)),
        }
    }

    pub fn absent_outputs_for_ids(
        self,
        ids: &[u64],
        absent: &[u8],
        out: &mut [u8],
    ) -> Reply<usize, SubmissionBook>
        ensures { (result ≡ written_reply_to self (absent_outputs_for_ids ids.now absent.now (length out.old))) × (out.new ≡ buffer_after self (absent_outputs_for_ids ids.now absent.now (length out.old)) out.old) }
    {
        match door(self.parts) {
            Ok(b) => answered(call_absent_outputs_for_ids::absent_outputs_for_ids_sound(
                b, ids, absent, out,
            )),
            Err(r) => answered(refused(self.parts, r)),
        }
    }

    pub fn write_archive(self, out: &mut [u8]) -> Reply<usize, SubmissionBook>
        ensures { (result ≡ written_reply_to self (write_archive encode_model (length out.old))) × (out.new ≡ buffer_after self (write_archive encode_model (length out.old)) out.old) }
    {
        match door(self.parts) {
            Ok(b) => answered(call_write_archive::write_archive_sound(b, out)),
            Err(r) => answered(refused(self.parts, r)),
        }
    }
}
