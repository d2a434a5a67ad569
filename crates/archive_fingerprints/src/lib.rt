// The two fingerprints: SHA-256 of the archive form of a bundle, and of bundle, expiry and fee intent.
#![tactic(auto)]

ghost use Rattle.std.specs.Prelude.{◌≡◌};
ghost use Rattle.archive_bundle_form.specs.Forms.{variant_fingerprint, intent_fingerprint};

use archive_bundle_size::{size_bundle, size_fee_intent, size_height};
use archive_bundle_write::write::{append_bundle, append_fee_intent, append_height};
use base_sha256::sha256;
use book::{Height, SpendBundle, SubmissionFeeIntent};

// `submission_variant_fingerprint`
pub fn variant_fingerprint(b: SpendBundle) -> [u8; 32]
    ensures { result ≡ variant_fingerprint b }
{
    let mut form = [0u8; 1073];
    let n = size_bundle(b);
    append_bundle(&mut form, 0, b);
    sha256(&form[..n])
}

// `submission_intent_fingerprint`
pub fn intent_fingerprint(
    b: SpendBundle,
    expiry: Option<Height>,
    f: SubmissionFeeIntent,
) -> [u8; 32]
    ensures { result ≡ intent_fingerprint b expiry f }
{
    let mut form = [0u8; 1123];
    let n = size_bundle(b) + size_height(expiry) + size_fee_intent(f);
    let bundle_end = append_bundle(&mut form, 0, b);
    let expiry_end = append_height(&mut form, bundle_end, expiry);
    append_fee_intent(&mut form, expiry_end, f);
    sha256(&form[..n])
}
