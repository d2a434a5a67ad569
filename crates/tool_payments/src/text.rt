// A payment as a line, and the totals.
ghost use Rattle.codec_append.specs.Fits.{Fits};
ghost use Rattle.tool_payments.specs.Text.{sum_text, sum_line, id_or_none, readable_text, state_text, fee_text, payment_text, counts_text, totals_text};

use crate::{Payment, PaymentFee, PaymentState, Sum, Totals};
use book::SubmissionId;
use codec_append::append_bytes;
use tool_text::{append_decimal, append_number_line, append_padded};

// Buffer and place are two arguments, here and below, as in `codec_append`, whose law `Fits` speaks of both.
fn append_sum(out: &mut [u8], at: usize, s: Sum) -> usize
    ensures { Fits (sum_text s) at out.old out.new result }
{
    if s.high == 0 {
        return append_decimal(out, at, s.low);
    }
    let high_end = append_decimal(&mut *out, at, s.high);
    append_padded::<18>(out, high_end, s.low)
}

fn append_sum_line(out: &mut [u8], at: usize, label: &[u8], s: Sum) -> usize
    ensures { Fits (sum_line label.now s) at out.old out.new result }
{
    let label_end = append_bytes(&mut *out, at, label);
    let sum_end = append_sum(&mut *out, label_end, s);
    append_bytes(out, sum_end, b"\n")
}

fn append_id_or_none(out: &mut [u8], at: usize, id: Option<SubmissionId>) -> usize
    ensures { Fits (id_or_none id) at out.old out.new result }
{
    match id {
        None => append_bytes(out, at, b"none"),
        Some(i) => append_decimal(out, at, i.0),
    }
}

// Whether the amount is all that is paid.
fn append_readable(out: &mut [u8], at: usize, readable: bool) -> usize
    ensures { Fits (readable_text readable) at out.old out.new result }
{
    let text: &[u8] = if readable {
        b", "
    } else {
        b" and what an unreadable run pays, "
    };
    append_bytes(out, at, text)
}

fn append_state(out: &mut [u8], at: usize, s: PaymentState) -> usize
    ensures { Fits (state_text s) at out.old out.new result }
{
    let text: &[u8] = match s {
        PaymentState::HasLanded => b"landed",
        PaymentState::HasInputSpent => b"input spent",
        PaymentState::Acknowledged => b"acknowledged",
        PaymentState::UnderWay => b"under way",
        PaymentState::Queued => b"queued",
        PaymentState::RetainedOnly => b"retained only",
    };
    append_bytes(out, at, text)
}

fn append_fee(out: &mut [u8], at: usize, f: PaymentFee) -> usize
    ensures { Fits (fee_text f) at out.old out.new result }
{
    match f {
        PaymentFee::Open => append_bytes(out, at, b", fee open\n"),
        PaymentFee::NoFee => append_bytes(out, at, b", fee none\n"),
        PaymentFee::Applied(n) => append_number_line(out, at, b", fee applied ", n),
    }
}

// A payment on one line.
pub fn append_payment(out: &mut [u8], at: usize, p: Payment) -> usize
    ensures { Fits (payment_text p) at out.old out.new result }
{
    let word_end = append_bytes(&mut *out, at, b"  id ");
    let id_end = append_id_or_none(&mut *out, word_end, p.id);
    let label_end = append_bytes(&mut *out, id_end, b": amount out ");
    let sum_end = append_sum(&mut *out, label_end, p.amount);
    let readable_end = append_readable(&mut *out, sum_end, p.readable);
    let state_end = append_state(&mut *out, readable_end, p.state);
    append_fee(out, state_end, p.fee)
}

// How many payments are in each state. Six calls: a loop over labels and counts would name the same six and need an invariant.
fn append_counts(out: &mut [u8], at: usize, c: [u64; 6]) -> usize
    ensures { Fits (counts_text c) at out.old out.new result }
{
    let landed_end = append_number_line(&mut *out, at, b"  landed: ", c[0]);
    let spent_end = append_number_line(&mut *out, landed_end, b"  input spent: ", c[1]);
    let acknowledged_end = append_number_line(&mut *out, spent_end, b"  acknowledged: ", c[2]);
    let under_way_end = append_number_line(&mut *out, acknowledged_end, b"  under way: ", c[3]);
    let queued_end = append_number_line(&mut *out, under_way_end, b"  queued: ", c[4]);
    append_number_line(out, queued_end, b"  retained only: ", c[5])
}

pub fn append_totals(out: &mut [u8], at: usize, t: Totals) -> usize
    ensures { Fits (totals_text t) at out.old out.new result }
{
    let counts_end = append_counts(&mut *out, at, t.counts);
    let amount_end = append_sum_line(&mut *out, counts_end, b"  amount out in all: ", t.amount);
    append_sum_line(out, amount_end, b"  fees applied in all: ", t.fees)
}
