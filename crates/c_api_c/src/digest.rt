// Functions without a book.
ghost use Rattle.c_api.specs.Functions.{Sha256Did, CoinIdDid};

// Each function is one call of the C interface, whose parameters and numbers are as C has them.
// The SHA-256 digest of a message.
#[unsafe(no_mangle)]
pub extern "C" fn submission_book_sha256(message: &[u8], digest: &mut [u8]) -> u8
    ensures { Sha256Did message.now digest.old result digest.new }
{
    c_api::digest::submission_book_sha256(message, digest)
}

// The id of a coin string.
#[unsafe(no_mangle)]
pub extern "C" fn submission_book_coin_id(coin: &[u8], id: &mut [u8]) -> u8
    ensures { CoinIdDid coin.now id.old result id.new }
{
    c_api::digest::submission_book_coin_id(coin, id)
}
