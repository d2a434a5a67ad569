// Parts that the walk passes without making their values.
ghost use Rattle.codec_forms.specs.Wire.{Parser, run};
ghost use Rattle.archive_form.specs.Parse.{parse_output, parse_run, parse_spend, parse_bundle, parse_variant, parse_fee_intent, parse_facts, parse_delivery};
ghost use Rattle.archive_walk.specs.Skips.{Skips, SkipsOptional, SkipsCells};

use book::{CoinSpend, Output};
use codec_bytes::read::has;
use codec_cursor::{pass, read_count, refused};

// n bytes.
pub fn skip(s: &[u8], at: &mut usize, n: usize)
    ensures { Skips (run n) s.now at.old at.new }
{
    let start = *at;
    let room = has(s, start, n);
    if !room {
        *at = refused(start);
        return;
    }
    *at = start + n;
}

// n bytes behind a mark.
// A test of the mark in each optional part: what stands behind differs, and a function told how to skip it is no shorter.
fn skip_optional(s: &[u8], at: &mut usize, n: usize)
    ensures { SkipsOptional n s.now at.old at.new }
{
    let mark = read_count(s, &mut *at, 1);
    if mark == 0 {
        return;
    }
    skip(s, at, n);
}

fn skip_output(s: &[u8], at: &mut usize)
    ensures { Skips parse_output s.now at.old at.new }
{
    skip(s, &mut *at, 32);
    skip(s, at, 8);
}

// A list of at most `most` items after its count. The caller names the function that skips one; the ghost value is an unused cell of the
// reader and the parser of an item.
// The clause with `IsAlwaysCallable` is std's form for a function that is lent.
fn skip_list<T, F: Fn(&[u8], &mut usize)>(s: &[u8], at: &mut usize, most: u8, skip_one: F)
    ghost of: { T × Parser T }
    requires callable { F.IsAlwaysCallable skip_one }
    requires skips { (b : _) (a : _) (a' : _) → F.post skip_one b a tt a' → Skips of.1 b.now a.now a'.now }
    ensures { SkipsCells most of.0 of.1 s.now at.old at.new }
{
    let n = read_count(s, &mut *at, most);
    for _i in 0..n {
        skip_one(s, &mut *at);
    }
}

// A run; in a base bundle an unreadable one is refused at its first byte.
fn skip_run(s: &[u8], at: &mut usize, base: bool)
    ensures { Skips (parse_run base) s.now at.old at.new }
{
    let start = *at;
    let mark = read_count(s, &mut *at, 1);
    if mark == 0 {
        *at = pass(!base, start, *at);
        return;
    }
    skip_list::<Output, _>(s, at, 4, skip_output);
}

fn skip_spend(s: &[u8], at: &mut usize, base: bool)
    ensures { Skips (parse_spend base) s.now at.old at.new }
{
    let n = read_count(s, &mut *at, 73) as usize;
    skip(s, &mut *at, n);
    skip(s, &mut *at, 32);
    skip_run(s, at, base);
}

pub fn skip_bundle(s: &[u8], at: &mut usize, base: bool)
    ensures { Skips (parse_bundle base) s.now at.old at.new }
{
    skip_list::<CoinSpend, _>(s, at, 4, |s, at| skip_spend(s, at, base));
}

// The fee bundle with its applied fee.
pub fn skip_variant(s: &[u8], at: &mut usize)
    ensures { Skips parse_variant s.now at.old at.new }
{
    let mark = read_count(s, &mut *at, 1);
    if mark == 0 {
        return;
    }
    skip_bundle(s, &mut *at, false);
    skip(s, at, 8);
}

fn skip_fee_intent(s: &[u8], at: &mut usize)
    ensures { Skips parse_fee_intent s.now at.old at.new }
{
    let kind = read_count(s, &mut *at, 2);
    if kind < 2 {
        return;
    }
    skip(s, &mut *at, 32);
    skip(s, at, 8);
}

// Intent and state of a submission: intent fingerprint, base bundle, fee bundle, resolution, fee intent, acknowledged fingerprint, chain
// terminality, expiry.
pub fn skip_facts(s: &[u8], at: &mut usize)
    ensures { Skips parse_facts s.now at.old at.new }
{
    skip(s, &mut *at, 32);
    skip_bundle(s, &mut *at, true);
    skip_variant(s, &mut *at);
    read_count(s, &mut *at, 2);
    skip_fee_intent(s, &mut *at);
    skip_optional(s, &mut *at, 32);
    read_count(s, &mut *at, 2);
    skip_optional(s, at, 8);
}

// A queue entry: id, bundle, expiry, fee intent, trigger, goal.
pub fn skip_delivery(s: &[u8], at: &mut usize)
    ensures { Skips parse_delivery s.now at.old at.new }
{
    skip_optional(s, &mut *at, 8);
    skip_bundle(s, &mut *at, false);
    skip_optional(s, &mut *at, 8);
    skip_fee_intent(s, &mut *at);
    read_count(s, &mut *at, 3);
    read_count(s, at, 1);
}
