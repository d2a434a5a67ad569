// Functions without a book.
ghost use Rattle.c_api.specs.Functions.{Sha256Did, CoinIdDid};

use c_answer::{put_coin_id, put_digest};

// Each function is one call of the C interface, whose parameters and numbers are as C has them.
// The SHA-256 digest of a message.
pub fn submission_book_sha256(message: &[u8], digest: &mut [u8]) -> u8
    ensures { Sha256Did message.now digest.old result digest.new }
{
    put_digest(message, digest)
}

// The id of a coin string.
pub fn submission_book_coin_id(coin: &[u8], id: &mut [u8]) -> u8
    ensures { CoinIdDid coin.now id.old result id.new }
{
    put_coin_id(coin, id)
}
