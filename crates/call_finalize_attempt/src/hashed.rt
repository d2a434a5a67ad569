// A submission with the fingerprint of its current variant, which is hashed once.
ghost use Rattle.std.specs.Prelude.{◌≡◌};
ghost use Rattle.rules.specs.Parts.{current_fingerprint};

use book::SubmittedTx;
use part_submitted::fingerprint::current_variant_fingerprint;

#[derive(Clone, Copy)]
pub struct Hashed {
    pub held: SubmittedTx,
    pub fingerprint: [u8; 32],
    pub ghost current: { fingerprint ≡ current_fingerprint held.entry },
}

pub fn hash_current(held: SubmittedTx) -> Hashed
    ensures { result.held ≡ held }
{
    Hashed {
        held,
        fingerprint: current_variant_fingerprint(held.entry),
    }
}
