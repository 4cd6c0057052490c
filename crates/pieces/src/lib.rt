// A dictionary that comes in pieces: they are copied into a lent store until the verdict settles.
#![tactic(auto)]

ghost use Rattle.std.specs.Prelude.{◌≡◌};
ghost use Rattle.pieces.specs.Pieces.{room};
ghost use Rattle.pieces.specs.Feed.{state_of};
ghost use Rattle.pieces.specs.Promises.{BeginPromise, FeedPromise, ReceivePromise, JudgedPromise};

use dictionary::{LIMIT, Refusal};
use metadata::Accepted;

// What goes in with a piece and comes back: so many bytes held, and more wanted; the settled answer; 44, more bytes have come than there is
// room for. It remembers nothing else of the bytes, so that a state which somebody made up is answered by them alone.
#[derive(Clone, Copy)]
pub enum State {
    More(usize),
    Settled(Result<Accepted, Refusal>),
    Full,
}

// Before the first piece.
pub fn begin() -> State
    ensures { BeginPromise result }
{
    State::More(0)
}

// As many bytes as the store and the limit allow.
fn room_of(store: &[u8]) -> usize
    ensures { result ≡ room store.now }
{
    store.len().min(LIMIT)
}

// What a piece is answered by: the state after it, and beside the bytes held how many are wanted.
#[derive(Clone, Copy)]
pub enum Fed {
    More { held: usize, wanted: usize },
    Settled(Result<Accepted, Refusal>),
    Full,
}

// What is remembered of an answer.
impl From<Fed> for State {
    ghost from_gives = { λ fed state. state ≡ state_of fed };

    fn from(fed: Fed) -> State {
        match fed {
            Fed::More { held, wanted: _ } => State::More(held),
            Fed::Settled(v) => State::Settled(v),
            Fed::Full => State::Full,
        }
    }
}

// The answer to the bytes that are kept; `over` says that more have come. Until the header is whole its numbers alone are looked at, and then
// the verdict settles: the names are looked at once, however the bytes were cut.
fn judge(kept: &[u8], over: bool) -> Fed
    ensures { JudgedPromise kept.now over result }
{
    let held = kept.len();
    let wanted = dictionary::wanted(kept);
    if wanted <= held {
        return Fed::Settled(metadata::check(kept));
    }
    if over {
        return Fed::Full;
    }
    Fed::More { held, wanted }
}

// The piece after the `held` bytes of the store: for those who keep no more of a state than that.
pub fn receive(store: &mut [u8], piece: &[u8], held: usize) -> Fed
    ensures { ReceivePromise store.old piece.now held result store.new }
{
    let room = room_of(store);
    if room < held {
        return Fed::Full;
    }
    let n = (room - held).min(piece.len());
    put::copy(piece, 0, n, store, held);
    judge(&store[0..held + n], n < piece.len())
}

// One piece, after those before it.
pub fn feed(store: &mut [u8], piece: &[u8], state: State) -> State
    ensures { FeedPromise store.old piece.now state result store.new }
{
    match state {
        State::More(held) => receive(store, piece, held).into(),
        State::Settled(_) => state,
        State::Full => State::Full,
    }
}
