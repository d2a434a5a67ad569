// An optional height, an optional id, an optional fingerprint, a fee intent. The first two are one call each, in the type that their
// parser has.
ghost use Rattle.codec_cursor.specs.Cursor.{Reads};
ghost use Rattle.archive_form.specs.Parse.{parse_height, parse_id, parse_hash, parse_fee_intent};

use book::{FeeIntentKind, Height, OptionalHash, SubmissionFeeIntent, SubmissionId};
use codec_cursor::{read_count, read_hash, read_number, read_optional_number};

pub fn read_height(s: &[u8], at: &mut usize) -> Option<Height>
    ensures { Reads parse_height s.now at.old result at.new }
{
    read_optional_number(s, at).map(|n| Height(n))
}

pub fn read_id(s: &[u8], at: &mut usize) -> Option<SubmissionId>
    ensures { Reads parse_id s.now at.old result at.new }
{
    read_optional_number(s, at).map(|n| SubmissionId(n))
}

// A test of the mark in each part of this kind: what stands behind is no `Option`, so a function told how to read it is no shorter.
pub fn read_optional_hash(s: &[u8], at: &mut usize) -> OptionalHash
    ensures { Reads parse_hash s.now at.old result at.new }
{
    let mark = read_count(s, &mut *at, 1);
    if mark == 0 {
        return OptionalHash::zero();
    }
    let hash = read_hash(s, at);
    OptionalHash {
        present: true,
        hash,
    }
}

pub fn read_fee_intent(s: &[u8], at: &mut usize) -> SubmissionFeeIntent
    ensures { Reads parse_fee_intent s.now at.old result at.new }
{
    let kind = match read_count(s, &mut *at, 2) {
        0 => FeeIntentKind::AlreadyPaid,
        1 => FeeIntentKind::NoFeeConfigured,
        _ => {
            let target = read_hash(s, &mut *at);
            let amount = read_number(s, at);
            return SubmissionFeeIntent {
                kind: FeeIntentKind::Attach,
                target,
                amount,
            };
        }
    };
    SubmissionFeeIntent {
        kind,
        target: [0; 32],
        amount: 0,
    }
}
