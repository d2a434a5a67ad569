// An item in words: what is expected of it, where it is, and its form.
#![tactic(auto)]

use std::fmt;
use tool_archive_items::order::size;
use tool_archive_items::{Form, Item, Nth, Position, Within};

// What a count must be.
fn count_rule(item: Item) -> &'static str {
    match item {
        Item::NumbersCount => "the count of numbers must be 2",
        Item::RetainedCount => "the count of retained submissions must be 0 to 16",
        Item::BundleCount => "the count of spends must be 0 to 4",
        Item::CoinLength => "the length of the coin string must be 0 to 73",
        Item::OutputCount => "the count of outputs must be 0 to 4",
        Item::QueueCount => "the count of queue entries must be 0 to 16",
        Item::RetirementCount => "the count of retirements must be 0 to 64",
        Item::RollbackMark => "the count of rollback heights must be 0 or 1",
        _ => "the count of replayed ids must be 0 to 16",
    }
}

// What a kind or the mark of an optional part must be, or else a count.
fn byte_rule(item: Item) -> &'static str {
    match item {
        Item::AttemptGoal | Item::QueueGoal => {
            "the goal must be 0 (EnsureBroadcast) or 1 (FeeUpgrade)"
        }
        Item::DurableMark => {
            "the durable mark must be 0 (unresolved), 1 (not requested) or 2 (attached)"
        }
        Item::FeeIntentKind => {
            "the kind of the fee intent must be 0 (AlreadyPaid), 1 (NoFeeConfigured) or 2 (Attach)"
        }
        Item::Chain => "the chain state must be 0 (Active), 1 (InputSpent) or 2 (Landed)",
        Item::Trigger => {
            "the trigger must be 0 (Protocol), 1 (FreshChain), 2 (Rollback) or 3 (ProviderReadiness)"
        }
        Item::AttemptMark => "the mark of the attempt must be 0 (none) or 1",
        Item::FinalizedMark => "the mark of the finalised fingerprint must be 0 (none) or 1",
        Item::FeeBundleMark => "the mark of the fee bundle must be 0 (none) or 1",
        Item::AcknowledgedMark => "the mark of the acknowledged fingerprint must be 0 (none) or 1",
        Item::ExpiryMark => "the mark of the expiry must be 0 (none) or 1",
        Item::QueueIdMark => "the mark of the id must be 0 (none) or 1",
        _ => count_rule(item),
    }
}

// What a number must be.
fn number_rule(item: Item) -> &'static str {
    match item {
        Item::NextToken => "the next token must be a number",
        Item::NextId => "the next submission id must be a number",
        Item::Id => "the id must be a number that no earlier submission has",
        Item::AttemptToken => {
            "the token must be a number below the next token that no earlier slot has"
        }
        Item::Amount => "the amount must be a number",
        Item::AppliedFee => "the applied fee must be a number",
        Item::FeeAmount => "the amount of the fee intent must be a number",
        Item::Expiry => "the expiry height must be a number",
        Item::QueueId => "the id must be a number",
        Item::RetiredId => "the retired id must be a number that is not listed before",
        Item::RollbackHeight => "the rollback height must be a number",
        _ => {
            "the replayed id must be a number above the one before, and the id of a retained submission"
        }
    }
}

// What a run of bytes must be.
fn run_rule(item: Item) -> &'static str {
    match item {
        Item::DrainedFingerprint => "the drained fingerprint must have 32 bytes",
        Item::FinalizedFingerprint => "the finalised fingerprint must have 32 bytes",
        Item::IntentFingerprint => "the intent fingerprint must have 32 bytes",
        Item::Coin => "the coin string must have as many bytes as its length says",
        Item::Digest => "the digest must have 32 bytes",
        Item::PuzzleHash => "the puzzle hash must have 32 bytes",
        Item::FeeTarget => "the target of the fee intent must have 32 bytes",
        _ => "the acknowledged fingerprint must have 32 bytes",
    }
}

// A run's kind: that of a base bundle must be 1.
fn run_kind_rule(w: Within) -> &'static str {
    if w.queue | w.second {
        "the kind of the run must be 0 (unreadable) or 1 (readable)"
    } else {
        "the kind of the run must be 1 (readable) in a base bundle"
    }
}

// What is expected of an item.
pub fn rule(p: Position) -> &'static str {
    match p.item.form() {
        Form::Byte if p.item == Item::RunKind => run_kind_rule(p.within),
        Form::Byte => byte_rule(p.item),
        Form::Number => number_rule(p.item),
        Form::Run => run_rule(p.item),
        Form::Nothing => "the archive must end here",
    }
}

// Where an item is: its section, and its place in it.
#[derive(Clone, Copy)]
pub struct Place(pub Position);

impl fmt::Display for Place {
    fn fmt<W: fmt::Write>(&self, f: &mut fmt::Formatter<W>) -> fmt::Result {
        let w = self.0.within;
        let Nth { place, of } = w.entry;
        match self.0.item {
            Item::NumbersCount | Item::NextToken | Item::NextId => f.write_str("section numbers"),
            Item::RetainedCount => f.write_str("section retained"),
            Item::QueueCount => f.write_str("section queue"),
            Item::RetirementCount => f.write_str("section retirements"),
            Item::RetiredId => write!(f, "section retirements, id {place} of {of}"),
            Item::RollbackMark | Item::RollbackHeight => f.write_str("section rollback height"),
            Item::ReplayedCount => f.write_str("section replayed"),
            Item::ReplayedId => write!(f, "section replayed, id {place} of {of}"),
            Item::End => f.write_str("behind the last section"),
            _ => write_in_entry(f, self.0.item, w),
        }
    }
}

// Within a retained submission or a queue entry.
fn write_in_entry<W: fmt::Write>(f: &mut fmt::Formatter<W>, item: Item, w: Within) -> fmt::Result {
    let Nth { place, of } = w.entry;
    if w.queue {
        write!(f, "section queue, entry {place} of {of}")?;
    } else {
        write!(f, "section retained, submission {place} of {of}")?;
    }
    match item {
        Item::AttemptMark
        | Item::AttemptToken
        | Item::AttemptGoal
        | Item::DrainedFingerprint
        | Item::FinalizedMark
        | Item::FinalizedFingerprint => f.write_str(attempt_words(w)),
        Item::BundleCount => f.write_str(bundle_words(w)),
        Item::CoinLength | Item::Coin | Item::Digest | Item::RunKind | Item::OutputCount => {
            write_spend(f, w)
        }
        Item::PuzzleHash | Item::Amount => {
            write_spend(f, w)?;
            let Nth { place, of } = w.output;
            write!(f, ", output {place} of {of}")
        }
        _ => Ok(()),
    }
}

fn attempt_words(w: Within) -> &'static str {
    if w.second {
        ", set-aside attempt"
    } else {
        ", live attempt"
    }
}

fn bundle_words(w: Within) -> &'static str {
    if w.queue {
        ", bundle"
    } else if w.second {
        ", fee bundle"
    } else {
        ", base bundle"
    }
}

fn write_spend<W: fmt::Write>(f: &mut fmt::Formatter<W>, w: Within) -> fmt::Result {
    let Nth { place, of } = w.spend;
    let bundle = bundle_words(w);
    write!(f, "{bundle}, spend {place} of {of}")
}

// Number, count, kind, mark or run of bytes, and how many bytes that is.
#[derive(Clone, Copy)]
pub struct Shape(pub Position);

impl fmt::Display for Shape {
    fn fmt<W: fmt::Write>(&self, f: &mut fmt::Formatter<W>) -> fmt::Result {
        match self.0.item.form() {
            Form::Byte => f.write_str("count, kind or mark, 1 byte"),
            Form::Number => f.write_str("number, 8 bytes, the highest first"),
            Form::Run => {
                let n = size(self.0);
                write!(f, "run of bytes, {n} bytes")
            }
            Form::Nothing => f.write_str("nothing"),
        }
    }
}
