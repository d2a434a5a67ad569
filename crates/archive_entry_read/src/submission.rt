// A retained submission. `ids` and `tokens` have those read so far: they may not come again.
ghost use Rattle.codec_cursor.specs.Cursor.{Reads};
ghost use Rattle.archive_form.specs.Parse.{parse_variant, parse_retired};
ghost use Rattle.archive_entry_read.specs.Entries.{parse_after};

use crate::attempt::read_slots;
use archive_bundle_read::bundle::read_bundle;
use archive_bundle_read::kind::{read_chain, read_resolution};
use archive_bundle_read::part::{read_fee_intent, read_height, read_optional_hash};
use book::{
    RetainedIntent, SubmissionBroadcastVariant, SubmissionId, SubmissionState, SubmissionStatus,
    SubmittedEntry, SubmittedTx, Token,
};
use codec_cursor::{pass, read_count, read_hash, read_number};

// An id that is not listed.
pub fn read_new_id(s: &[u8], at: &mut usize, listed: &[u64]) -> SubmissionId
    ensures { Reads (parse_retired listed.now) s.now at.old result.0 at.new }
{
    let start = *at;
    let id = read_number(s, &mut *at);
    let held = listed.contains(&id);
    *at = pass(!held, start, *at);
    SubmissionId(id)
}

// The fee bundle with its applied fee.
// With a test of the mark of its own, as `read_optional_hash`: what stands behind is no `Option`.
fn read_variant(s: &[u8], at: &mut usize) -> SubmissionBroadcastVariant
    ensures { Reads parse_variant s.now at.old result at.new }
{
    let mark = read_count(s, &mut *at, 1);
    if mark == 0 {
        return SubmissionBroadcastVariant::zero();
    }
    let bundle = read_bundle(s, &mut *at, false);
    let applied_fee = read_number(s, at);
    SubmissionBroadcastVariant {
        fee_bearing: true,
        bundle,
        applied_fee,
    }
}

pub fn read_submitted(
    s: &[u8],
    at: &mut usize,
    next: Token,
    ids: &[u64],
    tokens: &[u64],
) -> SubmittedTx
    ensures { Reads (parse_after next.0 ids.now tokens.now) s.now at.old result at.new }
{
    let id = read_new_id(s, &mut *at, ids);
    let slots = read_slots(s, &mut *at, next, tokens);
    let intent_fingerprint = read_hash(s, &mut *at);
    let base_bundle = read_bundle(s, &mut *at, true);
    let current_variant = read_variant(s, &mut *at);
    let fee_resolution = read_resolution(s, &mut *at);
    let fee_intent = read_fee_intent(s, &mut *at);
    let wallet_acknowledged_variant = read_optional_hash(s, &mut *at);
    let chain_terminality = read_chain(s, &mut *at);
    let expiry = read_height(s, at);
    let status = SubmissionStatus {
        fee_resolution,
        chain_terminality,
        expiry,
    };
    let intent = RetainedIntent {
        intent_fingerprint,
        base_bundle,
        fee_intent,
    };
    let state = SubmissionState {
        current_variant,
        wallet_acknowledged_variant,
        status,
    };
    let entry = SubmittedEntry { id, intent, state };
    SubmittedTx { slots, entry }
}
