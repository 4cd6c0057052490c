// A dictionary that comes in pieces, as programs ask: the strip is the state, and holds the six numbers that are answered. See `ask`.
#![tactic(auto)]

ghost use Rattle.std.specs.Prelude.{◌≡◌};
ghost use Rattle.strip.specs.Reading.{words_in};
ghost use Rattle.answers.specs.Numbers.{numbers_of};
ghost use Rattle.lichenhusk.specs.Strip.{begin_words};
ghost use Rattle.ask_pieces.specs.Fed.{words_after, store_left};

use answers::{Answer, read};
use strip::STRIP;

// The code of a state that wants more: its number is how many bytes are held, its end how many are wanted.
pub const MORE: usize = 3;

// The first state.
pub fn begin(strip: &mut [u8; STRIP]) -> Answer
    ensures { (numbers_of result ≡ begin_words) × (numbers_of result ≡ words_in strip.new) }
{
    lichenhusk::lichenhusk_begin(strip);
    read(strip)
}

// The state after a piece.
pub fn feed(store: &mut [u8], piece: &[u8], strip: &mut [u8; STRIP]) -> Answer
    ensures result_value { (numbers_of result ≡ words_after store.old piece.now strip.old) × (numbers_of result ≡ words_in strip.new) }
    ensures store_after { store.new ≡ store_left store.old piece.now strip.old }
{
    lichenhusk::lichenhusk_feed(store, piece, strip);
    read(strip)
}
