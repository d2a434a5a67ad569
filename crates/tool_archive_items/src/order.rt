// Which item follows which: an item's one byte, where it has one, decides what comes next.
use crate::{Form, Item, Nth, Position, Within};

impl Within {
    fn at(self, item: Item) -> Position {
        Position { item, within: self }
    }

    fn in_entry(self, queue: bool, entry: Nth) -> Within {
        Within {
            queue,
            second: false,
            entry,
            ..self
        }
    }

    fn in_second(self, second: bool) -> Within {
        Within { second, ..self }
    }

    fn in_spend(self, spend: Nth) -> Within {
        Within { spend, ..self }
    }

    fn in_output(self, output: Nth) -> Within {
        Within { output, ..self }
    }
}

// Behind a retained submission or a queue entry.
fn after_entry(w: Within) -> Position {
    match (w.entry.next(), w.queue) {
        (Some(entry), true) => w.in_entry(true, entry).at(Item::QueueIdMark),
        (Some(entry), false) => w.in_entry(false, entry).at(Item::Id),
        (None, true) => w.at(Item::RetirementCount),
        (None, false) => w.at(Item::QueueCount),
    }
}

fn after_slot(w: Within) -> Position {
    if w.second {
        w.in_second(false).at(Item::IntentFingerprint)
    } else {
        w.in_second(true).at(Item::AttemptMark)
    }
}

fn after_bundle(w: Within) -> Position {
    if w.queue {
        w.at(Item::ExpiryMark)
    } else if w.second {
        w.at(Item::AppliedFee)
    } else {
        w.at(Item::FeeBundleMark)
    }
}

// One function of this and `after_output` would be told how to step, where to go on and what comes behind: no shorter than the two.
fn after_spend(w: Within) -> Position {
    w.spend.next().map_or_else(
        || after_bundle(w),
        |spend| w.in_spend(spend).at(Item::CoinLength),
    )
}

fn after_output(w: Within) -> Position {
    w.output.next().map_or_else(
        || after_spend(w),
        |output| w.in_output(output).at(Item::PuzzleHash),
    )
}

fn after_fee_intent(w: Within) -> Position {
    w.at(if w.queue {
        Item::Trigger
    } else {
        Item::AcknowledgedMark
    })
}

fn after_expiry(w: Within) -> Position {
    if w.queue {
        w.at(Item::FeeIntentKind)
    } else {
        after_entry(w)
    }
}

// Behind a count of spends or outputs, a coin's length or a run's kind.
fn after_bundle_byte(item: Item, w: Within, v: u8) -> Position {
    match (item, v) {
        (Item::BundleCount, 0) => after_bundle(w),
        (Item::BundleCount, _) => w.in_spend(Nth::first(v)).at(Item::CoinLength),
        (Item::CoinLength, 0) => w.at(Item::Digest),
        (Item::CoinLength, _) => Within { coin_len: v, ..w }.at(Item::Coin),
        (_, 0) => after_spend(w),
        (Item::RunKind, _) => w.at(Item::OutputCount),
        _ => w.in_output(Nth::first(v)).at(Item::PuzzleHash),
    }
}

// Behind the mark of an optional part of an entry, or a fee intent's kind.
fn after_mark(item: Item, w: Within, v: u8) -> Position {
    match (item, v) {
        (Item::AttemptMark | Item::FinalizedMark, 0) => after_slot(w),
        (Item::AttemptMark, _) => w.at(Item::AttemptToken),
        (Item::FinalizedMark, _) => w.at(Item::FinalizedFingerprint),
        (Item::FeeBundleMark, 0) => w.at(Item::DurableMark),
        (Item::FeeBundleMark, _) => w.in_second(true).at(Item::BundleCount),
        (Item::AcknowledgedMark, 0) => w.at(Item::Chain),
        (Item::AcknowledgedMark, _) => w.at(Item::AcknowledgedFingerprint),
        (Item::ExpiryMark, 0) => after_expiry(w),
        (Item::ExpiryMark, _) => w.at(Item::Expiry),
        (Item::QueueIdMark, 0) => w.at(Item::BundleCount),
        (Item::QueueIdMark, _) => w.at(Item::QueueId),
        (_, 2) => w.at(Item::FeeTarget),
        _ => after_fee_intent(w),
    }
}

// Behind a section's count.
fn after_count(item: Item, w: Within, v: u8) -> Position {
    let first = Nth::first(v);
    match (item, v) {
        (Item::RetainedCount, 0) => w.at(Item::QueueCount),
        (Item::RetainedCount, _) => w.in_entry(false, first).at(Item::Id),
        (Item::QueueCount, 0) => w.at(Item::RetirementCount),
        (Item::QueueCount, _) => w.in_entry(true, first).at(Item::QueueIdMark),
        (Item::RetirementCount, 0) => w.at(Item::RollbackMark),
        (Item::RetirementCount, _) => w.in_entry(false, first).at(Item::RetiredId),
        (Item::RollbackMark, 0) => w.at(Item::ReplayedCount),
        (Item::RollbackMark, _) => w.at(Item::RollbackHeight),
        (_, 0) => w.at(Item::End),
        _ => w.in_entry(false, first).at(Item::ReplayedId),
    }
}

// Behind an id of the last sections: the next id, or what comes behind the list.
fn after_listed(item: Item, w: Within, then: Item) -> Position {
    w.entry
        .next()
        .map_or_else(|| w.at(then), |entry| w.in_entry(false, entry).at(item))
}

// Behind the items that leave no choice, or whose place decides.
fn after_plain(item: Item, w: Within) -> Position {
    match item {
        Item::NumbersCount => w.at(Item::NextToken),
        Item::NextToken => w.at(Item::NextId),
        Item::NextId => w.at(Item::RetainedCount),
        Item::Id => w.at(Item::AttemptMark),
        Item::AttemptToken => w.at(Item::AttemptGoal),
        Item::AttemptGoal => w.at(Item::DrainedFingerprint),
        Item::DrainedFingerprint => w.at(Item::FinalizedMark),
        Item::FinalizedFingerprint => after_slot(w),
        Item::IntentFingerprint | Item::QueueId => w.at(Item::BundleCount),
        Item::Coin => w.at(Item::Digest),
        Item::Digest => w.at(Item::RunKind),
        Item::PuzzleHash => w.at(Item::Amount),
        Item::Amount => after_output(w),
        Item::AppliedFee => w.at(Item::DurableMark),
        Item::DurableMark => w.at(Item::FeeIntentKind),
        Item::FeeTarget => w.at(Item::FeeAmount),
        Item::FeeAmount => after_fee_intent(w),
        Item::AcknowledgedFingerprint => w.at(Item::Chain),
        Item::Chain => w.at(Item::ExpiryMark),
        Item::Expiry => after_expiry(w),
        Item::Trigger => w.at(Item::QueueGoal),
        Item::QueueGoal => after_entry(w),
        Item::RetiredId => after_listed(item, w, Item::RollbackMark),
        Item::RollbackHeight => w.at(Item::ReplayedCount),
        _ => after_listed(item, w, Item::End),
    }
}

// The item behind one whose first byte is v.
fn after(p: Position, v: u8) -> Position {
    let w = p.within;
    match p.item {
        Item::RetainedCount
        | Item::QueueCount
        | Item::RetirementCount
        | Item::RollbackMark
        | Item::ReplayedCount => after_count(p.item, w, v),
        Item::AttemptMark
        | Item::FinalizedMark
        | Item::FeeBundleMark
        | Item::AcknowledgedMark
        | Item::ExpiryMark
        | Item::QueueIdMark
        | Item::FeeIntentKind => after_mark(p.item, w, v),
        Item::BundleCount | Item::CoinLength | Item::RunKind | Item::OutputCount => {
            after_bundle_byte(p.item, w, v)
        }
        _ => after_plain(p.item, w),
    }
}

// How many bytes an item has.
pub fn size(p: Position) -> usize {
    match p.item.form() {
        Form::Byte => 1,
        Form::Number => 8,
        Form::Run if p.item == Item::Coin => p.within.coin_len as usize,
        Form::Run => 32,
        Form::Nothing => 0,
    }
}

// The item that starts at a place, in bytes whose items before that place are those of an archive; none where no item starts there.
pub fn item_at(s: &[u8], place: usize) -> Option<Position> {
    let mut position = Within::default().at(Item::NumbersCount);
    let mut at = 0;
    // A `while`: each item says itself how far the place moves on.
    while at < place {
        let n = size(position);
        if n == 0 || s.len().saturating_sub(at) < n {
            return None;
        }
        position = after(position, s[at]);
        at += n;
    }
    if at == place { Some(position) } else { None }
}
