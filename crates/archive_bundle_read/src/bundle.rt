// A bundle: count, then per spend length byte, coin, digest, run.
ghost use Rattle.codec_cursor.specs.Cursor.{Reads};
ghost use Rattle.archive_form.specs.Parse.{parse_output, parse_spend, parse_bundle};
ghost use Rattle.archive_bundle_read.specs.Runs.{ReadsRun};

use crate::each::read_list;
use book::{CoinSpend, Output, SpendBundle};
use codec_cursor::{pass, read_cell, read_count, read_hash, read_number};

// The run of a spend, its outputs in their cells: a mark and a count beside an array, as `CoinSpend` has them, since there is no heap.
#[derive(Clone, Copy)]
pub struct RunCells {
    pub readable: bool,
    pub count: u8,
    pub outputs: [Output; 4],
}

fn read_output(s: &[u8], at: &mut usize) -> Output
    ensures { Reads parse_output s.now at.old result at.new }
{
    let puzzle_hash = read_hash(s, &mut *at);
    let amount = read_number(s, at);
    Output {
        puzzle_hash,
        amount,
    }
}

// A run; in a base bundle an unreadable one is refused at its first byte.
fn read_run(s: &[u8], at: &mut usize, base: bool) -> RunCells
    ensures { ReadsRun base s.now at.old result at.new }
{
    let start = *at;
    let mut outputs = [Output::zero(); 4];
    let mark = read_count(s, &mut *at, 1);
    if mark == 0 {
        *at = pass(!base, start, *at);
        return RunCells {
            readable: false,
            count: 0,
            outputs,
        };
    }
    let count = read_list(s, at, &mut outputs, |s, at, _| read_output(s, at));
    RunCells {
        readable: true,
        count,
        outputs,
    }
}

fn read_spend(s: &[u8], at: &mut usize, base: bool) -> CoinSpend
    ensures { Reads (parse_spend base) s.now at.old result at.new }
{
    let cell = read_cell(s, &mut *at);
    let digest = read_hash(s, &mut *at);
    let run = read_run(s, at, base);
    let coin = cell.bytes;
    let outputs = run.outputs;
    CoinSpend {
        coin_len: cell.len,
        coin,
        digest,
        readable: run.readable,
        output_count: run.count,
        outputs,
    }
}

pub fn read_bundle(s: &[u8], at: &mut usize, base: bool) -> SpendBundle
    ensures { Reads (parse_bundle base) s.now at.old result at.new }
{
    let mut spends = [CoinSpend::zero(); 4];
    let count = read_list(s, at, &mut spends, |s, at, _| read_spend(s, at, base));
    SpendBundle { count, spends }
}
