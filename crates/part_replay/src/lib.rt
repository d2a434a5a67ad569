// The methods of `ReplayEpoch` (replay.rs), on the struct by value.
#![tactic(auto)]

ghost use Rattle.std.specs.Prelude.{◌≡◌, [], ◌≤◌, length};
ghost use Rattle.std.specs.Prelude.{None};
ghost use Rattle.part_ids.specs.Ids.{insert_new};
ghost use Rattle.part_replay.specs.Epoch.{Normal, replayed_of, epoch, begun, finished, marked, removed, kept};

use book::{Height, ReplayEpoch, SubmissionId};
use part_ids::{empty, insert, without};

// No plainer as an `Option`: the epoch is there whether or not one has started.
#[derive(Clone, Copy)]
pub struct Begun {
    pub started: bool,
    pub epoch: ReplayEpoch,
}

// No plainer as an `Option`: the epoch is there whether or not the id is new.
#[derive(Clone, Copy)]
pub struct Marked {
    pub added: bool,
    pub epoch: ReplayEpoch,
}

// Functions and no methods: `ReplayEpoch` is of the crate `book`.
// The epoch of a height, with nothing replayed.
fn empty_at(h: Option<Height>) -> ReplayEpoch
    ensures { result ≡ epoch h [] }
{
    ReplayEpoch {
        rollback_height: h,
        replayed_submission_ids: empty(),
    }
}

#[tactic(auto, unfolding(crate::specs::Epoch::begun))]
pub fn begin(e: ReplayEpoch, h: Height) -> Begun
    ensures { result ≡ begun e h }
{
    if e.rollback_height == Some(h) {
        return Begun {
            started: false,
            epoch: e,
        };
    }
    Begun {
        started: true,
        epoch: empty_at(Some(h)),
    }
}

#[tactic(auto, unfolding(crate::specs::Epoch::finished))]
pub fn finish_if_advanced(e: ReplayEpoch, h: Height) -> ReplayEpoch
    ensures { result ≡ finished e h }
{
    if e.rollback_height.is_some_and(|held| held < h) {
        return clear();
    }
    e
}

pub fn clear() -> ReplayEpoch
    ensures { result ≡ epoch None [] }
{
    empty_at(None)
}

pub fn rollback_height(e: ReplayEpoch) -> Option<Height>
    ensures { result ≡ e.rollback_height }
{
    e.rollback_height
}

// `Normal e`, here and below: the epoch is a part of the book, whose fields are public and hold any count.
// There must be room for an id that is new.
pub fn mark_replayed(e: ReplayEpoch, id: SubmissionId) -> Marked
    requires { Normal e × (length (insert_new id.0 (replayed_of e)) ≤ 16) }
    ensures { result ≡ marked e id.0 }
{
    let mut out = e;
    let added = insert(&mut out.replayed_submission_ids, id);
    Marked { added, epoch: out }
}

#[tactic(auto, unfolding(rules::specs::Steps::Notes::unreplayed))]
pub fn remove(e: ReplayEpoch, id: SubmissionId) -> ReplayEpoch
    requires { Normal e }
    ensures { result ≡ removed e id.0 }
{
    ReplayEpoch {
        replayed_submission_ids: part_ids::remove(&e.replayed_submission_ids, id),
        ..e
    }
}

// The Rust's closure is the list of the ids to drop.
pub fn retain(e: ReplayEpoch, gone: &[u64]) -> ReplayEpoch
    requires { Normal e }
    ensures { result ≡ kept e gone.now }
{
    ReplayEpoch {
        replayed_submission_ids: without(&e.replayed_submission_ids, gone),
        ..e
    }
}
