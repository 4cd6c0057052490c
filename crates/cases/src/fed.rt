// A dictionary that comes in the pieces that a line has.
use operands::{Fault, bytes_at, ends, number_at};
use outcomes::Outcome;
use strip::STRIP;

// Each piece from `from` on is read into the room for one and fed to the store, also after the answer is settled: the call is what is asked.
fn feed_all(
    line: &[u8],
    from: usize,
    piece: &mut [u8],
    store: &mut [u8],
) -> Result<Outcome, Fault> {
    let mut strip = [0u8; STRIP];
    let mut answer = ask_pieces::begin(&mut strip);
    // No `for`: a word is as long as it is, and the next starts behind it.
    let mut at = from;
    while !ends(line, at) {
        let read = bytes_at(line, at, piece)?;
        let n = read.value;
        answer = ask_pieces::feed(store, &piece[0..n], &mut strip);
        at = read.next;
    }
    Ok(Outcome::Answered(answer))
}

// From `from` on the line has how many bytes of `room` are the store, and the pieces.
pub fn pieces(
    line: &[u8],
    from: usize,
    piece: &mut [u8],
    room: &mut [u8],
) -> Result<Outcome, Fault> {
    let lent = number_at(line, from)?;
    let n = lent.value;
    if room.len() < n {
        return Err(Fault::NoRoom);
    }
    feed_all(line, lent.next, piece, &mut room[0..n])
}
