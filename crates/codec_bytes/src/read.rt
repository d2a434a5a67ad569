// What a reader asks before it reads.
ghost use Rattle.std.specs.Prelude.{◌≡◌, ◌+◌, length, leb};

// Whether n bytes lie from `at` on, which may be any number.
pub fn has(s: &[u8], at: usize, n: usize) -> bool
    ensures { result ≡ leb (at + n) (length s.now) }
{
    at <= s.len() && n <= s.len() - at
}
