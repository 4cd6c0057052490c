// The calls of a dictionary that comes in pieces: the strip is the state. Each is `lichenhusk`'s by one line, and its promise is proved here.
#![tactic(auto)]

ghost use Rattle.std.specs.Prelude.{◌≡◌};
ghost use Rattle.strip.specs.Shapes.{words_of, dictionary_shape};
ghost use Rattle.strip.specs.Steps.{list_of};
ghost use Rattle.pieces.specs.Pieces.{more as more_of};
ghost use Rattle.pieces.specs.Feed.{fed_numbers};
ghost use Rattle.pieces_call.specs.Promises.{BeginPromise, FeedPromise};

use pieces::Fed;
use strip::{MORE, STRIP, Words};

fn more(held: usize, wanted: usize) -> Words
    ensures { list_of result ≡ words_of dictionary_shape (more_of held wanted) }
{
    Words {
        code: MORE,
        number: held,
        id: 0,
        start: 0,
        end: wanted,
        place: 0,
    }
}

// The words of the answer to a piece: of "more" the bytes held and those wanted.
fn of_fed(fed: Fed) -> Words
    ensures { list_of result ≡ words_of dictionary_shape (fed_numbers fed) }
{
    match fed {
        Fed::More { held, wanted } => more(held, wanted),
        Fed::Settled(v) => words::of_verdict(v),
        Fed::Full => strip::refusal(44, 0),
    }
}

// The first state, into the strip.
pub fn begin(strip: &mut [u8]) -> u32
    ensures { BeginPromise strip.old result strip.new }
{
    if strip.len() < STRIP {
        return 40;
    }
    strip::write(strip, more(0, 1))
}

// One piece. Of the strip the code and the bytes held are read; where the code is not "more", it is settled, and all stays as it is.
pub fn feed(store: &mut [u8], piece: &[u8], strip: &mut [u8]) -> u32
    ensures { FeedPromise store.old piece.now strip.old result strip.new store.new }
{
    if strip.len() < STRIP {
        return 40;
    }
    let code = width::unpack_u32(strip, 0, 4) as u32;
    if code != MORE {
        return code;
    }
    let held = width::unpack_u32(strip, 4, 4);
    let words = of_fed(pieces::receive(store, piece, held));
    strip::write(strip, words)
}
