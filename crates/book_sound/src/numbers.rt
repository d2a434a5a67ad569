// Tests over slices of numbers.
ghost use Rattle.std.specs.Prelude.{◌≡◌, take, drop};
ghost use Rattle.base_lists.specs.Lists.{elemb, is_zero};
ghost use Rattle.std.specs.List.{list_all};

use base_lists::contains;

// The first n numbers, or all.
pub fn first(s: &[u64], n: usize) -> &[u64]
    ensures { result.now ≡ take n s.now }
{
    &s[..n.min(s.len())]
}

// The numbers from n on are zero. A chain, since its caller is generic over N, where `passes_from` finds no ghost value.
pub fn zeros_from(s: &[u64], n: usize) -> bool
    ensures { result ≡ list_all is_zero (drop n s.now) }
{
    s.iter().skip(n).all(|x| *x == 0)
}

// Each number is one of ids.
pub fn all_among(s: &[u64], ids: &[u64]) -> bool
    ensures { result ≡ list_all (λ x. elemb x ids.now) s.now }
{
    s.iter().all(|x| contains(ids, *x))
}
