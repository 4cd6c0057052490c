// A piece fed to a state, whoever made it up: what stands in the store afterwards. A line is `PIECE STORE CODE STATE HELD STRIP`: STORE, in hex,
// is what the store holds after the call. It is so long, and all in it was 9; STATE and HELD are the first two words of the strip, which has
// STRIP bytes.
//
// First the piece comes after the bytes held, as much of it as there is room for, whatever is answered: where the state holds bytes, these are
// the store's, and 9 is no version. Then nothing is written: with no bytes, to a state that counts past its store, to one that is settled,
// by a code of ours or by any other, and where the strip is short.
use crate::report::{bytes, no_case, number};
use lichenhusk::lichenhusk_feed;
use operands::Tail;
use print::wide;
use slices::{first, part_of};
use std::io;
use tally::Tally;

// The code, and the store after the call, with the first `k` bytes of a strip.
fn fed(
    rt: &impl Print,
    t: Tally,
    piece: &[u8],
    store: &mut [u8],
    strip: &mut [u8],
    k: usize,
    code: usize,
    want: &[u8],
) -> io::Result<Tally> {
    if strip.len() < k {
        return no_case(rt, t);
    }
    print!(rt; ", a strip of {k}, piece")?;
    print::write_hex(rt, piece)?;
    let got = lichenhusk_feed(store, piece, &mut strip[0..k]);
    let t = number(rt, t, b"", got as usize, code)?;
    bytes(rt, t, b"the store after it", store, want)
}

// The state of a code and so many bytes held, both below 256.
fn strip_of(code: u8, held: u8) -> [u8; 24] {
    let mut strip = [0u8; 24];
    strip[0] = code;
    strip[4] = held;
    strip
}

// `numbers` are STATE, HELD and STRIP.
fn in_store(
    rt: &impl Print,
    t: Tally,
    piece: &[u8],
    want: &[u8],
    code: usize,
    numbers: &[u32],
) -> io::Result<Tally> {
    if numbers.len() != 3 || 16 < want.len() {
        return no_case(rt, t);
    }
    let state = wide(numbers[0]);
    let held = wide(numbers[1]);
    if 255 < state || 255 < held {
        return no_case(rt, t);
    }
    print!(rt; "state {state}, held {held}")?;
    let n = want.len();
    fed(
        rt,
        t,
        piece,
        &mut [9; 16][0..n],
        &mut strip_of(state as u8, held as u8),
        wide(numbers[2]),
        code,
        want,
    )
}

pub fn case(rt: &impl Print, t: Tally, line: &[u8]) -> io::Result<Tally> {
    let mut piece = [0u8; 16];
    let mut want = [0u8; 16];
    let mut numbers = [0u32; 4];
    let Ok(read) = operands::read(
        line,
        0,
        2,
        Tail::Numbers,
        &mut piece,
        &mut want,
        &mut [0; 0],
        &mut numbers,
    ) else {
        return no_case(rt, t);
    };
    in_store(
        rt,
        t,
        part_of(&piece, 0, read.one),
        part_of(&want, 0, read.two),
        read.number,
        first(&numbers, read.more),
    )
}
