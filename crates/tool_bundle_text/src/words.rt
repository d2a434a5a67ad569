// The kinds in words, each up to its line's end, and the optional parts.
ghost use Rattle.std.specs.Prelude.{◌++◌};
ghost use Rattle.codec_append.specs.Fits.{Fits};
ghost use Rattle.tool_text.specs.Numbers.{hex};
ghost use Rattle.tool_bundle_text.specs.Words.{goal_text, trigger_text, chain_text, resolution_text, fee_intent_text, optional_text, height_text, id_text};

use book::{
    DeliveryTrigger, FeeIntentKind, FeeResolution, Height, SubmissionChainTerminality,
    SubmissionDeliveryGoal, SubmissionFeeIntent, SubmissionId,
};
use codec_append::append_bytes;
use tool_text::{append_hex, append_hex_line, append_number_line};

// A function for each kind, here and below: what they share is one line, and the contract names the text of the kind.
#[tactic(auto, unfolding(crate::specs::Words::goal_text))]
pub fn append_goal(out: &mut [u8], at: usize, g: SubmissionDeliveryGoal) -> usize
    ensures { Fits (goal_text g) at out.old out.new result }
{
    let text: &[u8] = match g {
        SubmissionDeliveryGoal::EnsureBroadcast =>
            b"EnsureBroadcast (to have the bundle broadcast)\n",
        SubmissionDeliveryGoal::FeeUpgrade => b"FeeUpgrade (to have a fee attached)\n",
    };
    append_bytes(out, at, text)
}

#[tactic(auto, unfolding(crate::specs::Words::trigger_text))]
pub fn append_trigger(out: &mut [u8], at: usize, t: DeliveryTrigger) -> usize
    ensures { Fits (trigger_text t) at out.old out.new result }
{
    let text: &[u8] = match t {
        DeliveryTrigger::Protocol => b"  trigger: Protocol (the protocol asked for it)\n",
        DeliveryTrigger::FreshChain => b"  trigger: FreshChain (a newer chain was seen)\n",
        DeliveryTrigger::Rollback => b"  trigger: Rollback (the chain was rolled back)\n",
        DeliveryTrigger::ProviderReadiness =>
            b"  trigger: ProviderReadiness (the fee provider became ready)\n",
    };
    append_bytes(out, at, text)
}

#[tactic(auto, unfolding(crate::specs::Words::chain_text))]
pub fn append_chain(out: &mut [u8], at: usize, c: SubmissionChainTerminality) -> usize
    ensures { Fits (chain_text c) at out.old out.new result }
{
    let text: &[u8] = match c {
        SubmissionChainTerminality::Active =>
            b"  chain state: Active (neither landed nor an input spent)\n",
        SubmissionChainTerminality::InputSpent =>
            b"  chain state: InputSpent (an input was spent, no output was seen)\n",
        SubmissionChainTerminality::Landed =>
            b"  chain state: Landed (an output was seen on the chain)\n",
    };
    append_bytes(out, at, text)
}

#[tactic(auto, unfolding(crate::specs::Words::resolution_text))]
pub fn append_resolution(out: &mut [u8], at: usize, f: FeeResolution) -> usize
    ensures { Fits (resolution_text f) at out.old out.new result }
{
    let text: &[u8] = match f {
        FeeResolution::Unresolved =>
            b"  durable fee state: Unresolved (the wallet is still to be asked for the fee)\n",
        FeeResolution::NotRequested =>
            b"  durable fee state: NotRequested (no fee is asked of the wallet)\n",
        FeeResolution::Attached =>
            b"  durable fee state: Attached (the wallet has added the fee)\n",
    };
    append_bytes(out, at, text)
}

pub fn append_fee_intent(out: &mut [u8], at: usize, f: SubmissionFeeIntent) -> usize
    ensures { Fits (fee_intent_text f) at out.old out.new result }
{
    let kind = f.kind;
    let target = f.target;
    match kind {
        FeeIntentKind::AlreadyPaid => append_bytes(
            out,
            at,
            b"  fee intent: AlreadyPaid (the bundle pays its fee itself)\n",
        ),
        FeeIntentKind::NoFeeConfigured => append_bytes(
            out,
            at,
            b"  fee intent: NoFeeConfigured (no fee is to be paid)\n",
        ),
        FeeIntentKind::Attach => {
            let target_end = append_hex_line(
                &mut *out,
                at,
                b"  fee intent: Attach, target ",
                &target,
            );
            append_number_line(out, target_end, b"    amount: ", f.amount)
        }
    }
}

// A number on its line, or the label with the word `none` behind it.
fn append_optional(out: &mut [u8], at: usize, label: &[u8], n: Option<u64>, none: &[u8]) -> usize
    ensures { Fits (optional_text label.now n none.now) at out.old out.new result }
{
    match n {
        None => {
            let label_end = append_bytes(&mut *out, at, label);
            append_bytes(out, label_end, none)
        }
        Some(x) => append_number_line(out, at, label, x),
    }
}

// Two instances of `append_optional`, each naming the form of its type.
#[tactic(auto, unfolding(crate::specs::Words::height_text))]
pub fn append_height(out: &mut [u8], at: usize, label: &[u8], h: Option<Height>) -> usize
    ensures { Fits (height_text label.now h) at out.old out.new result }
{
    append_optional(out, at, label, h.map(|x| x.0), b"none\n")
}

#[tactic(auto, unfolding(crate::specs::Words::id_text))]
pub fn append_id(out: &mut [u8], at: usize, label: &[u8], i: Option<SubmissionId>) -> usize
    ensures { Fits (id_text label.now i) at out.old out.new result }
{
    append_optional(out, at, label, i.map(|x| x.0), b"new\n")
}

// A label and a hash, with the line still open.
pub fn append_hash_part(out: &mut [u8], at: usize, label: &[u8], hash: &[u8; 32]) -> usize
    ensures { Fits (label.now ++ hex hash.now) at out.old out.new result }
{
    let label_end = append_bytes(&mut *out, at, label);
    append_hex(out, label_end, hash)
}
