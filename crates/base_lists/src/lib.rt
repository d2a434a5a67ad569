// Tests over slices of numbers, each equal to a function of plain lists.
#![tactic(auto)]

ghost use Rattle.std.specs.Prelude.{◌≡◌, ◌&&◌, true, ltb};
ghost use Rattle.base_lists.specs.Lists.{elemb, distinctb, risingb, is_zero, full_of};
ghost use Rattle.std.specs.List.{list_all, fold};

pub fn contains(s: &[u64], x: u64) -> bool
    ensures { result ≡ elemb x s.now }
{
    s.contains(&x)
}

pub fn distinct(s: &[u64]) -> bool
    ensures { result ≡ distinctb s.now }
{
    for (i, x) in s.iter().enumerate() {
        if contains(&s[i + 1..], *x) {
            return false;
        }
    }
    true
}

pub fn all_below(s: &[u64], n: u64) -> bool
    ensures { result ≡ list_all (λ x. ltb x n) s.now }
{
    s.iter().all(|x| *x < n)
}

// Each element is below the next.
pub fn is_rising(s: &[u64]) -> bool
    ensures { result ≡ risingb s.now }
{
    for i in 1..s.len() {
        if s[i] <= s[i - 1] {
            return false;
        }
    }
    true
}

// A fold and no `all`, which leaves at the first byte that fails and so goes byte by byte: this one is compiled to wide steps.
// A function of its own, since the check finds this form alone, and `zero_bytes` what it amounts to by a law.
fn zero_bytes_folded(a: &[u8]) -> bool
    ensures { result ≡ fold (λ ok x. ok && is_zero x) true a.now }
{
    a.iter().fold(true, |ok, x| ok & (*x == 0))
}

pub fn zero_bytes(a: &[u8]) -> bool
    ensures { result ≡ list_all is_zero a.now }
{
    zero_bytes_folded(a)
}

pub fn zero_array<const N: usize>(a: &[u8; N]) -> bool
    ensures { result ≡ full_of N is_zero a.now }
{
    zero_bytes(a)
}
