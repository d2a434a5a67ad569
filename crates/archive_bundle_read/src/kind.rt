// Kinds by number. Each reader is one call, told its kinds: its contract has their parser.
ghost use Rattle.std.specs.Prelude.{◌≡◌, ◌-◌, ◌<◌, ◌≤◌, ℕ, length, map};
ghost use Rattle.std.specs.List.{range_with_len};
ghost use Rattle.codec_forms.specs.Wire.{mapped, up_to};
ghost use Rattle.codec_cursor.specs.Cursor.{Reads};
ghost use Rattle.archive_form.specs.Parse.{parse_goal, parse_trigger, parse_chain, parse_resolution};

use book::DeliveryTrigger::{FreshChain, Protocol, ProviderReadiness, Rollback};
use book::FeeResolution::{Attached, NotRequested, Unresolved};
use book::SubmissionChainTerminality::{Active, InputSpent, Landed};
use book::SubmissionDeliveryGoal::{EnsureBroadcast, FeeUpgrade};
use book::{DeliveryTrigger, FeeResolution, SubmissionChainTerminality, SubmissionDeliveryGoal};
use codec_cursor::read_count;

// A kind by its number, which is its place in the list of the kinds. The ghost value tells a number's kind.
// No `TryFrom`: it would stand in book, far from the archive that gives the numbers.
fn read_kind<K: Copy>(s: &[u8], at: &mut usize, kinds: &[K]) -> K
    ghost of: { ℕ → K }
    requires few { (0 < length kinds.now) × (length kinds.now ≤ 256) }
    requires places { kinds.now ≡ map of (range_with_len 0 (length kinds.now)) }
    ensures { Reads (mapped of (up_to (length kinds.now - 1))) s.now at.old result at.new }
{
    let most = kinds.len() - 1;
    let number = read_count(s, at, most as u8);
    kinds[number as usize]
}

#[tactic(auto, unfolding(archive_form::specs::Parse::parse_goal))]
pub fn read_goal(s: &[u8], at: &mut usize) -> SubmissionDeliveryGoal
    ensures { Reads parse_goal s.now at.old result at.new }
{
    read_kind(s, at, &[EnsureBroadcast, FeeUpgrade])
}

#[tactic(auto, unfolding(archive_form::specs::Parse::parse_trigger))]
pub fn read_trigger(s: &[u8], at: &mut usize) -> DeliveryTrigger
    ensures { Reads parse_trigger s.now at.old result at.new }
{
    read_kind(s, at, &[Protocol, FreshChain, Rollback, ProviderReadiness])
}

#[tactic(auto, unfolding(archive_form::specs::Parse::parse_chain))]
pub fn read_chain(s: &[u8], at: &mut usize) -> SubmissionChainTerminality
    ensures { Reads parse_chain s.now at.old result at.new }
{
    read_kind(s, at, &[Active, InputSpent, Landed])
}

#[tactic(auto, unfolding(archive_form::specs::Parse::parse_resolution))]
pub fn read_resolution(s: &[u8], at: &mut usize) -> FeeResolution
    ensures { Reads parse_resolution s.now at.old result at.new }
{
    read_kind(s, at, &[Unresolved, NotRequested, Attached])
}
