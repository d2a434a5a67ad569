// A queue entry: id, bundle, expiry, fee intent, trigger, goal.
ghost use Rattle.codec_cursor.specs.Cursor.{Reads};
ghost use Rattle.archive_form.specs.Parse.{parse_delivery};

use archive_bundle_read::bundle::read_bundle;
use archive_bundle_read::kind::{read_goal, read_trigger};
use archive_bundle_read::part::{read_fee_intent, read_height, read_id};
use book::{PendingDelivery, PendingSubmissionIntent};

pub fn read_delivery(s: &[u8], at: &mut usize) -> PendingDelivery
    ensures { Reads parse_delivery s.now at.old result at.new }
{
    let id = read_id(s, &mut *at);
    let bundle = read_bundle(s, &mut *at, false);
    let expiry = read_height(s, &mut *at);
    let fee_intent = read_fee_intent(s, &mut *at);
    let trigger = read_trigger(s, &mut *at);
    let goal = read_goal(s, at);
    let intent = PendingSubmissionIntent {
        id,
        bundle,
        expiry,
        fee_intent,
    };
    PendingDelivery {
        intent,
        trigger,
        goal,
    }
}
