// How many bytes a bundle, an expiry and a fee intent take in the archive.
#![tactic(auto)]

ghost use Rattle.std.specs.Prelude.{◌≡◌, List, ℕ, ◌*◌, ◌^◌, ◌<◌, take};
ghost use Rattle.codec_forms.specs.Wire.{enc_many};
ghost use Rattle.codec_forms.specs.Puts.{Size};
ghost use Rattle.book.specs.Sound.{outputs_of};
ghost use Rattle.archive_bundle_form.specs.Forms.{encode_output, encode_run, encode_spend, encode_bundle, encode_height, encode_fee_intent};

use book::{CoinSpend, FeeIntentKind, Height, Output, SpendBundle, SubmissionFeeIntent};

// The bytes of the first n of N parts. The ghost value is the form of a part, and how long it is at most.
// The clause with `IsAlwaysCallable` is std's form for a function that is lent.
pub fn size_first<T, const N: usize, F: Fn(&T) -> usize>(parts: &[T; N], n: usize, size: F) -> usize
    ghost form: { (T → List ℕ) × ℕ }
    requires fits { N * form.1 < 2 ^ 64 }
    requires callable { F.IsAlwaysCallable size }
    requires sizes { (x : _) (r : _) → F.post size x r → Size (form.0 x.now) form.1 r }
    ensures { Size (enc_many form.0 (take n parts.now)) (N * form.1) result }
{
    let k = n.min(N);
    let first = &parts[..k];
    let mut sum = 0;
    for x in first {
        sum += size(x);
    }
    sum
}

// By value, since behind a reference that nothing reads the length of the hash is not known.
fn size_output(o: Output) -> usize
    ensures { Size (encode_output o) 40 result }
{
    40
}

fn size_run(s: &CoinSpend) -> usize
    ensures { Size (encode_run s.now.readable (outputs_of s.now)) 162 result }
{
    if s.readable {
        2 + size_first(&s.outputs, s.output_count as usize, |o| size_output(*o))
    } else {
        1
    }
}

fn size_spend(s: &CoinSpend) -> usize
    ensures { Size (encode_spend s.now) 268 result }
{
    let k = (s.coin_len as usize).min(73);
    33 + k + size_run(s)
}

pub fn size_bundle(b: SpendBundle) -> usize
    ensures { Size (encode_bundle b) 1073 result }
{
    1 + size_first(&b.spends, b.count as usize, size_spend)
}

// One line, as `size_id` of archive_size is: a function for both would be told the form, and each would still say which it sizes.
pub fn size_height(h: Option<Height>) -> usize
    ensures { Size (encode_height h) 9 result }
{
    if h.is_none() { 1 } else { 9 }
}

pub fn size_fee_intent(f: SubmissionFeeIntent) -> usize
    ensures { Size (encode_fee_intent f) 41 result }
{
    if f.kind == FeeIntentKind::Attach {
        41
    } else {
        1
    }
}
