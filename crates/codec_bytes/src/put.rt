// Each function writes one part at the start of the slice that it is lent and answers how many bytes it wrote.
ghost use Rattle.std.specs.Prelude.{◌≤◌, length};
ghost use Rattle.codec_bytes.specs.Writing.{Wrote};

#[tactic(auto, unfolding(codec_forms::specs::Wire::overlay))]
pub fn put(src: &[u8], dst: &mut [u8]) -> usize
    requires { length src.now ≤ length dst.old }
    ensures { Wrote src.now dst.old dst.new result }
{
    let n = src.len();
    dst[..n].copy_from_slice(src);
    n
}
