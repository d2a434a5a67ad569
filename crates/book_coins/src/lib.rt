// The coins that a bundle spends and makes.
#![tactic(auto)]

ghost use Rattle.std.specs.Prelude.{◌≡◌, ◌≤◌, ◌<◌, min, []};
ghost use Rattle.base_lists.specs.Lists.{cells};
ghost use Rattle.base_coin_string.specs.Coin.{FromParts};
ghost use Rattle.base_coin_string.specs.CoinList.{coins_in};
ghost use Rattle.book.specs.Zero.{zeros};
ghost use Rattle.book_coins.specs.Coins.{input_coin_ids, expected_output_coins};
ghost use Rattle.book_coins.specs.Found.{found_of};
ghost use Rattle.book_coins.specs.Laws.{spent_id, output_at, Outputs};
ghost use Rattle.book_coins.specs.Outputs.{output_cells, Pushed};

use base_coin_string::CoinString;
use book::{CoinSpend, SpendBundle};

// Up to 16 output coins: the first count cells are the coins, and the cells behind them are empty. The library has no heap.
#[derive(Clone, Copy)]
pub struct OutputCoins {
    pub count: usize,
    pub coins: [CoinString; 16],
}

// A count within four cells.
pub fn at_most_four(n: u8) -> usize
    ensures { result ≡ min n 4 }
{
    usize::from(n).min(4)
}

// The id of the coin that a spend spends.
pub fn input_coin_id(s: CoinSpend) -> [u8; 32]
    ensures { result ≡ spent_id s }
{
    base_coin_string::to_coin_id(s.coin, s.coin_len)
}

// The ids of the coins that a bundle spends, and zero rows behind them.
pub fn input_coin_ids(b: SpendBundle) -> [[u8; 32]; 4]
    ensures { result ≡ cells 4 (zeros 32) (input_coin_ids b) }
{
    let mut ids = [[0; 32]; 4];
    for i in 0..at_most_four(b.count) {
        ids[i] = input_coin_id(b.spends[i]);
    }
    ids
}

// The coin of output j, whose parent is the spent coin's id.
pub fn output_coin(s: CoinSpend, parent: [u8; 32], j: usize) -> CoinString
    requires { j < 4 }
    ensures { FromParts parent (output_at s j).puzzle_hash (output_at s j).amount result }
{
    let o = s.outputs[j];
    base_coin_string::from_parts(parent, o.puzzle_hash, o.amount)
}

// How many outputs a spend has.
fn output_count(s: CoinSpend) -> usize
    ensures { Outputs s result }
{
    at_most_four(s.output_count)
}

// The first output, in the bundle's order, among the coins that observed lists: output j of spend i.
// Three nested loops left by a label, and no call of `has_coin`: paper 01 names this form of the search.
pub fn first_output_among(b: SpendBundle, observed: &[u8]) -> Option<(usize, usize)>
    ensures { result ≡ found_of (coins_in observed.now) b }
{
    let n = base_coin_string::list_count(observed);
    let mut found = None;
    'search: for i in 0..at_most_four(b.count) {
        let s = b.spends[i];
        let parent = input_coin_id(s);
        for j in 0..output_count(s) {
            let c = output_coin(s, parent, j);
            let mut at = 2;
            for _ in 0..n {
                let Some(to) = base_coin_string::coin_end(observed, at) else {
                    break;
                };
                if base_coin_string::coin_is(observed, at + 1, to, c.bytes, c.len) {
                    found = Some((i, j));
                    break 'search;
                }
                at = to;
            }
        }
    }
    found
}

fn no_outputs() -> OutputCoins
    ensures { result ≡ output_cells [] }
{
    let none = CoinString {
        bytes: [0; 73],
        len: 0,
    };
    OutputCoins {
        count: 0,
        coins: [none; 16],
    }
}

// The output coins of a spend behind those laid out.
fn push_outputs(o: &mut OutputCoins, s: CoinSpend)
    requires { o.old.count ≤ 12 }
    ensures { Pushed s o.old o.new }
{
    let parent = input_coin_id(s);
    for j in 0..output_count(s) {
        o.coins[o.count] = output_coin(s, parent, j);
        o.count += 1;
    }
}

// The coins that a bundle makes, in its order.
pub fn expected_output_coins(b: SpendBundle) -> OutputCoins
    ensures { (result ≡ output_cells (expected_output_coins b)) × (result.count ≤ 16) }
{
    let mut coins = no_outputs();
    for i in 0..at_most_four(b.count) {
        push_outputs(&mut coins, b.spends[i]);
    }
    coins
}
