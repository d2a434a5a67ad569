// An answer alone into lent bytes: that of a call that only looks at the book, and of the two functions that have no book.
#![tactic(auto)]

ghost use Rattle.c_answer.specs.Answer.{GivesAnswer, answer_in, digest_in, coin_id_in};

use base_sha256::sha256;
use book::refusal::Refusal;
use codec_forms::write::put_bytes;

// The answer l; 12 where it does not fit.
// The functions here answer 0 or the number of a refusal, and no `Result`: that number is what the exported function answers.
pub fn put_answer(l: &[u8], answer: &mut [u8]) -> u8
    ensures { GivesAnswer (answer_in l.now answer.old) result answer.new }
{
    if answer.len() < l.len() {
        return Refusal::ShortBuffer as u8;
    }
    put_bytes(answer, 0, l);
    0
}

// The digest of a message.
pub fn put_digest(message: &[u8], digest: &mut [u8]) -> u8
    ensures { GivesAnswer (digest_in message.now digest.old) result digest.new }
{
    let d = sha256(message);
    put_answer(&d, digest)
}

// The id of a coin string.
pub fn put_coin_id(coin: &[u8], id: &mut [u8]) -> u8
    ensures { GivesAnswer (coin_id_in coin.now id.old) result id.new }
{
    if 73 < coin.len() {
        return Refusal::BadValue as u8;
    }
    put_digest(coin, id)
}
