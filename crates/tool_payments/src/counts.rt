// Counts and sums of payments.
ghost use Rattle.std.specs.Prelude.{◌≡◌};
ghost use Rattle.tool_payments.specs.Counts.{applied_fee, one_more, no_totals, add_payment};

use crate::{Payment, PaymentFee, Sum, Totals};

fn applied_fee(f: PaymentFee) -> u64
    ensures { result ≡ applied_fee f }
{
    match f {
        PaymentFee::Open | PaymentFee::NoFee => 0,
        PaymentFee::Applied(n) => n,
    }
}

fn one_more(n: u64) -> u64
    ensures { result ≡ one_more n }
{
    n % 0x1_0000_0000 + 1
}

pub fn no_totals() -> Totals
    ensures { result ≡ no_totals }
{
    Totals {
        counts: [0; 6],
        amount: Sum::from(0),
        fees: Sum::from(0),
    }
}

// One payment more.
pub fn add_payment(t: Totals, p: Payment) -> Totals
    ensures { result ≡ add_payment t p }
{
    let k = p.state as usize;
    let mut counts = t.counts;
    counts[k] = one_more(counts[k]);
    Totals {
        counts,
        amount: t.amount + p.amount,
        fees: t.fees + Sum::from(applied_fee(p.fee)),
    }
}
