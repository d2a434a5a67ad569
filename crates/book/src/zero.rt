// The zero of each part, and the test for it.
ghost use Rattle.std.specs.Prelude.{◌≡◌, Bool, drop};
ghost use Rattle.std.specs.List.{list_all};
ghost use Rattle.base_lists.specs.Lists.{tail_of};
ghost use Rattle.book.specs.Zero.{zero_output, zero_spend, zero_bundle, zero_fee_intent, zero_hash, zero_attempt, no_attempt, no_slots, base_variant, zero_retained_intent, zero_status, zero_state, zero_entry, zero_submitted, zero_intent, zero_delivery, is_zero_output, is_zero_spend, is_zero_bundle, is_zero_fee_intent, is_zero_hash, is_zero_attempt, is_no_attempt, is_no_slots, is_base_variant, is_zero_retained_intent, is_zero_status, is_zero_state, is_zero_entry, is_zero_submitted, is_zero_intent, is_zero_delivery};

use crate::{
    AttemptSlots, CoinSpend, DeliveryAttempt, DeliveryTrigger, FeeIntentKind, FeeResolution,
    OptionalAttempt, OptionalHash, Output, PendingDelivery, PendingSubmissionIntent,
    RetainedIntent, SpendBundle, SubmissionBroadcastVariant, SubmissionChainTerminality,
    SubmissionDeliveryGoal, SubmissionFeeIntent, SubmissionId, SubmissionState, SubmissionStatus,
    SubmittedEntry, SubmittedTx, Token,
};
use base_lists::zero_array;

// The cells from n on pass the test. The caller names the test of one cell; the ghost value is its definition.
// The clause with `IsAlwaysCallable` is std's form for a function that is lent.
pub fn passes_from<T, F: Fn(&T) -> bool>(cells: &[T], n: usize, test: F) -> bool
    ghost form: { T → Bool }
    requires callable { F.IsAlwaysCallable test }
    requires tests { (x : _) (r : _) → F.post test x r → r ≡ form x.now }
    ensures { result ≡ list_all form (drop n cells.now) }
{
    let rest = &cells[n.min(cells.len())..];
    // A loop: `skip(n).all(test)` gets no proof with a test that the caller names.
    for x in rest {
        if !test(x) {
            return false;
        }
    }
    true
}

// `zero` and `is_zero` are methods of each part and no trait, since no function is generic over the parts: `passes_from` is lent the test.
// A derived `==` would first make the zero to compare with.
impl Output {
    #[tactic(auto, unfolding(crate::specs::Zero::zero_output))]
    pub fn zero() -> Output
        ensures { result ≡ zero_output }
    {
        Output {
            puzzle_hash: [0; 32],
            amount: 0,
        }
    }

    #[tactic(auto, unfolding(crate::specs::Zero::is_zero_output))]
    pub fn is_zero(&self) -> bool
        ensures { result ≡ is_zero_output self.now }
    {
        zero_array(&self.puzzle_hash) && self.amount == 0
    }
}

// The outputs from n on are zero.
// One call, as `zero_spends` and the `*_tail` of book_sound are: each names the test, and its contract the length, of one array.
#[tactic(auto, using(base_lists::specs::Laws::tail_of_lem))]
pub fn zero_outputs(a: &[Output; 4], n: usize) -> bool
    ensures { result ≡ tail_of 4 is_zero_output n a.now }
{
    passes_from(a, n, Output::is_zero)
}

impl CoinSpend {
    #[tactic(auto, unfolding(crate::specs::Zero::zero_spend))]
    pub fn zero() -> CoinSpend
        ensures { result ≡ zero_spend }
    {
        CoinSpend {
            coin_len: 0,
            coin: [0; 73],
            digest: [0; 32],
            readable: false,
            output_count: 0,
            outputs: [Output::zero(); 4],
        }
    }

    #[tactic(auto, unfolding(crate::specs::Zero::is_zero_spend))]
    pub fn is_zero(&self) -> bool
        ensures { result ≡ is_zero_spend self.now }
    {
        self.coin_len == 0
            && !self.readable
            && self.output_count == 0
            && zero_array(&self.coin)
            && zero_array(&self.digest)
            && zero_outputs(&self.outputs, 0)
    }
}

// The spends from n on are zero.
#[tactic(auto, using(base_lists::specs::Laws::tail_of_lem))]
pub fn zero_spends(a: &[CoinSpend; 4], n: usize) -> bool
    ensures { result ≡ tail_of 4 is_zero_spend n a.now }
{
    passes_from(a, n, CoinSpend::is_zero)
}

impl SpendBundle {
    #[tactic(auto, unfolding(crate::specs::Zero::zero_bundle))]
    pub fn zero() -> SpendBundle
        ensures { result ≡ zero_bundle }
    {
        SpendBundle {
            count: 0,
            spends: [CoinSpend::zero(); 4],
        }
    }

    #[tactic(auto, unfolding(crate::specs::Zero::is_zero_bundle))]
    pub fn is_zero(&self) -> bool
        ensures { result ≡ is_zero_bundle self.now }
    {
        self.count == 0 && zero_spends(&self.spends, 0)
    }
}

impl SubmissionFeeIntent {
    #[tactic(auto, unfolding(crate::specs::Zero::zero_fee_intent))]
    pub fn zero() -> SubmissionFeeIntent
        ensures { result ≡ zero_fee_intent }
    {
        SubmissionFeeIntent {
            kind: FeeIntentKind::AlreadyPaid,
            target: [0; 32],
            amount: 0,
        }
    }

    #[tactic(auto, unfolding(crate::specs::Zero::is_zero_fee_intent))]
    pub fn is_zero(&self) -> bool
        ensures { result ≡ is_zero_fee_intent self.now }
    {
        self.kind == FeeIntentKind::AlreadyPaid && self.amount == 0 && zero_array(&self.target)
    }
}

impl OptionalHash {
    #[tactic(auto, unfolding(crate::specs::Zero::zero_hash))]
    pub fn zero() -> OptionalHash
        ensures { result ≡ zero_hash }
    {
        OptionalHash {
            present: false,
            hash: [0; 32],
        }
    }

    #[tactic(auto, unfolding(crate::specs::Zero::is_zero_hash))]
    pub fn is_zero(&self) -> bool
        ensures { result ≡ is_zero_hash self.now }
    {
        !self.present && zero_array(&self.hash)
    }
}

impl DeliveryAttempt {
    #[tactic(auto, unfolding(crate::specs::Zero::zero_attempt))]
    pub fn zero() -> DeliveryAttempt
        ensures { result ≡ zero_attempt }
    {
        DeliveryAttempt {
            token: Token(0),
            goal: SubmissionDeliveryGoal::EnsureBroadcast,
            drained_variant_fingerprint: [0; 32],
            finalized_variant_fingerprint: OptionalHash::zero(),
        }
    }

    #[tactic(auto, unfolding(crate::specs::Zero::is_zero_attempt))]
    pub fn is_zero(&self) -> bool
        ensures { result ≡ is_zero_attempt self.now }
    {
        self.token == Token(0)
            && self.goal == SubmissionDeliveryGoal::EnsureBroadcast
            && zero_array(&self.drained_variant_fingerprint)
            && self.finalized_variant_fingerprint.is_zero()
    }
}

impl OptionalAttempt {
    #[tactic(auto, unfolding(crate::specs::Zero::no_attempt))]
    pub fn zero() -> OptionalAttempt
        ensures { result ≡ no_attempt }
    {
        OptionalAttempt {
            present: false,
            attempt: DeliveryAttempt::zero(),
        }
    }

    #[tactic(auto, unfolding(crate::specs::Zero::is_no_attempt))]
    pub fn is_zero(&self) -> bool
        ensures { result ≡ is_no_attempt self.now }
    {
        !self.present && self.attempt.is_zero()
    }
}

impl AttemptSlots {
    #[tactic(auto, unfolding(crate::specs::Zero::no_slots))]
    pub fn zero() -> AttemptSlots
        ensures { result ≡ no_slots }
    {
        AttemptSlots {
            active_attempt: OptionalAttempt::zero(),
            completed_attempt: OptionalAttempt::zero(),
        }
    }

    #[tactic(auto, unfolding(crate::specs::Zero::is_no_slots))]
    pub fn is_zero(&self) -> bool
        ensures { result ≡ is_no_slots self.now }
    {
        self.active_attempt.is_zero() && self.completed_attempt.is_zero()
    }
}

impl SubmissionBroadcastVariant {
    #[tactic(auto, unfolding(crate::specs::Zero::base_variant))]
    pub fn zero() -> SubmissionBroadcastVariant
        ensures { result ≡ base_variant }
    {
        SubmissionBroadcastVariant {
            fee_bearing: false,
            bundle: SpendBundle::zero(),
            applied_fee: 0,
        }
    }

    #[tactic(auto, unfolding(crate::specs::Zero::is_base_variant))]
    pub fn is_zero(&self) -> bool
        ensures { result ≡ is_base_variant self.now }
    {
        !self.fee_bearing && self.applied_fee == 0 && self.bundle.is_zero()
    }
}

impl RetainedIntent {
    #[tactic(auto, unfolding(crate::specs::Zero::zero_retained_intent))]
    pub fn zero() -> RetainedIntent
        ensures { result ≡ zero_retained_intent }
    {
        RetainedIntent {
            intent_fingerprint: [0; 32],
            base_bundle: SpendBundle::zero(),
            fee_intent: SubmissionFeeIntent::zero(),
        }
    }

    #[tactic(auto, unfolding(crate::specs::Zero::is_zero_retained_intent))]
    pub fn is_zero(&self) -> bool
        ensures { result ≡ is_zero_retained_intent self.now }
    {
        zero_array(&self.intent_fingerprint)
            && self.base_bundle.is_zero()
            && self.fee_intent.is_zero()
    }
}

impl SubmissionStatus {
    #[tactic(auto, unfolding(crate::specs::Zero::zero_status))]
    pub fn zero() -> SubmissionStatus
        ensures { result ≡ zero_status }
    {
        SubmissionStatus {
            fee_resolution: FeeResolution::Unresolved,
            chain_terminality: SubmissionChainTerminality::Active,
            expiry: None,
        }
    }

    #[tactic(auto, unfolding(crate::specs::Zero::is_zero_status))]
    pub fn is_zero(&self) -> bool
        ensures { result ≡ is_zero_status self.now }
    {
        self.fee_resolution == FeeResolution::Unresolved
            && self.chain_terminality == SubmissionChainTerminality::Active
            && self.expiry.is_none()
    }
}

impl SubmissionState {
    #[tactic(auto, unfolding(crate::specs::Zero::zero_state))]
    pub fn zero() -> SubmissionState
        ensures { result ≡ zero_state }
    {
        SubmissionState {
            current_variant: SubmissionBroadcastVariant::zero(),
            wallet_acknowledged_variant: OptionalHash::zero(),
            status: SubmissionStatus::zero(),
        }
    }

    #[tactic(auto, unfolding(crate::specs::Zero::is_zero_state))]
    pub fn is_zero(&self) -> bool
        ensures { result ≡ is_zero_state self.now }
    {
        self.current_variant.is_zero()
            && self.wallet_acknowledged_variant.is_zero()
            && self.status.is_zero()
    }
}

impl SubmittedEntry {
    #[tactic(auto, unfolding(crate::specs::Zero::zero_entry))]
    pub fn zero() -> SubmittedEntry
        ensures { result ≡ zero_entry }
    {
        SubmittedEntry {
            id: SubmissionId(0),
            intent: RetainedIntent::zero(),
            state: SubmissionState::zero(),
        }
    }

    #[tactic(auto, unfolding(crate::specs::Zero::is_zero_entry))]
    pub fn is_zero(&self) -> bool
        ensures { result ≡ is_zero_entry self.now }
    {
        self.id == SubmissionId(0) && self.intent.is_zero() && self.state.is_zero()
    }
}

impl SubmittedTx {
    #[tactic(auto, unfolding(crate::specs::Zero::zero_submitted))]
    pub fn zero() -> SubmittedTx
        ensures { result ≡ zero_submitted }
    {
        SubmittedTx {
            slots: AttemptSlots::zero(),
            entry: SubmittedEntry::zero(),
        }
    }

    #[tactic(auto, unfolding(crate::specs::Zero::is_zero_submitted))]
    pub fn is_zero(&self) -> bool
        ensures { result ≡ is_zero_submitted self.now }
    {
        self.slots.is_zero() && self.entry.is_zero()
    }
}

impl PendingSubmissionIntent {
    #[tactic(auto, unfolding(crate::specs::Zero::zero_intent))]
    pub fn zero() -> PendingSubmissionIntent
        ensures { result ≡ zero_intent }
    {
        PendingSubmissionIntent {
            id: None,
            bundle: SpendBundle::zero(),
            expiry: None,
            fee_intent: SubmissionFeeIntent::zero(),
        }
    }

    #[tactic(auto, unfolding(crate::specs::Zero::is_zero_intent))]
    pub fn is_zero(&self) -> bool
        ensures { result ≡ is_zero_intent self.now }
    {
        self.id.is_none()
            && self.bundle.is_zero()
            && self.expiry.is_none()
            && self.fee_intent.is_zero()
    }
}

impl PendingDelivery {
    #[tactic(auto, unfolding(crate::specs::Zero::zero_delivery))]
    pub fn zero() -> PendingDelivery
        ensures { result ≡ zero_delivery }
    {
        PendingDelivery {
            intent: PendingSubmissionIntent::zero(),
            trigger: DeliveryTrigger::Protocol,
            goal: SubmissionDeliveryGoal::EnsureBroadcast,
        }
    }

    #[tactic(auto, unfolding(crate::specs::Zero::is_zero_delivery))]
    pub fn is_zero(&self) -> bool
        ensures { result ≡ is_zero_delivery self.now }
    {
        self.intent.is_zero()
            && self.trigger == DeliveryTrigger::Protocol
            && self.goal == SubmissionDeliveryGoal::EnsureBroadcast
    }
}
