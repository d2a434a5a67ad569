// Sums of amounts, which one u64 need not hold, and what a bundle pays out.
ghost use Rattle.std.specs.Prelude.{◌≡◌};
ghost use Rattle.std.specs.List.{fold};
ghost use Rattle.tool_payments.specs.Amount.{sum_of, add_sum, add_amount, add_output, amounts_of, amount_out};

use crate::Sum;
use book::{CoinSpend, Output, SpendBundle};
use std::ops::Add;

impl From<u64> for Sum {
    ghost from_gives = { λ n s. s ≡ sum_of n };

    fn from(n: u64) -> Sum {
        Sum {
            high: n / 1_000_000_000_000_000_000,
            low: n % 1_000_000_000_000_000_000,
        }
    }
}

impl Add for Sum {
    type Output = Sum;

    ghost add_gives = { λ a b s. s ≡ add_sum a b };

    fn add(self, b: Sum) -> Sum {
        let low = self.low % 1_000_000_000_000_000_000 + b.low % 1_000_000_000_000_000_000;
        Sum {
            high: self.high % 0x1_0000_0000
                + b.high % 0x1_0000_0000
                + low / 1_000_000_000_000_000_000,
            low: low % 1_000_000_000_000_000_000,
        }
    }
}

fn add_output(s: Sum, o: Output) -> Sum
    ensures { result ≡ add_output s o }
{
    s + Sum::from(o.amount)
}

fn add_outputs(s: Sum, a: &[Output]) -> Sum
    ensures { result ≡ fold add_output s a.now }
{
    a.iter().fold(s, |sum, o| add_output(sum, *o))
}

fn add_spend(s: Sum, c: CoinSpend) -> Sum
    ensures { result ≡ fold add_amount s (amounts_of c) }
{
    if c.readable {
        let outputs = c.outputs;
        let n = usize::from(c.output_count).min(4);
        return add_outputs(s, &outputs[..n]);
    }
    s
}

// What the readable ones pay out.
fn add_spends(a: &[CoinSpend]) -> Sum
    ensures { result ≡ fold (λ s c. fold add_amount s (amounts_of c)) (sum_of 0) a.now }
{
    a.iter().fold(Sum::from(0), |sum, c| add_spend(sum, *c))
}

// What a bundle pays out, as far as its runs can be read.
pub fn amount_out(b: SpendBundle) -> Sum
    ensures { result ≡ amount_out b }
{
    let spends = b.spends;
    let n = usize::from(b.count).min(4);
    add_spends(&spends[..n])
}
