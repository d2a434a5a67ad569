// Each function writes one item from place `at` on, and returns the place behind it.
ghost use Rattle.std.specs.Prelude.{◌≡◌};
ghost use Rattle.codec_forms.specs.Wire.{be};
ghost use Rattle.codec_forms.specs.Puts.{Room, Puts};

#[tactic(auto, using(crate::specs::Puts::puts_whole))]
pub fn put_bytes(out: &mut [u8], at: usize, src: &[u8]) -> usize
    requires { Room src.now at out.old }
    ensures { Puts src.now at out.old out.new result }
{
    let end = at + src.len();
    out[at..end].copy_from_slice(src);
    end
}

// A count, a kind or a mark.
#[tactic(auto, using(crate::specs::Overlay::one_byte))]
pub fn put_byte(out: &mut [u8], at: usize, b: u8) -> usize
    requires { Room (be 1 b) at out.old }
    ensures { Puts (be 1 b) at out.old out.new result }
{
    put_bytes(out, at, &[b])
}

// The eight bytes of a number, the highest first.
#[tactic(auto, unfolding(crate::specs::Wire::be))]
pub fn number_bytes(n: u64) -> [u8; 8]
    ensures { result ≡ be 8 n }
{
    n.to_be_bytes()
}

pub fn put_number(out: &mut [u8], at: usize, n: u64) -> usize
    requires { Room (be 8 n) at out.old }
    ensures { Puts (be 8 n) at out.old out.new result }
{
    put_bytes(out, at, &number_bytes(n))
}
