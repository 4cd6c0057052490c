// Asking by path into rooms lent: what stands in them afterwards. A line is `DICT PATH NAMES CODE STRIP WORD ..`: NAMES, in hex, and the
// WORDs are what both rooms hold after the call. Each room is so long, and all in it was 9; the strip has STRIP bytes.
//
// First the steps stand in both rooms, and the rest stays: found, absent, and refused after the path was read. A path that is none leaves
// both, whatever came before in it. Then there is room for the names' bytes and three words a step, and one less of either; a strip that is
// short leaves both, too.
use crate::report::{bytes, no_case, number, words};
use operands::Tail;
use print::wide;
use slices::{first, part_of};
use std::io;
use tally::Tally;

// The code, and both rooms after the call, over a dictionary and the object {"flow": [true, type 21], "roll": true}.
fn asked(
    rt: &impl Print,
    t: Tally,
    dict: &[u8],
    path: &[u8],
    names: &mut [u8],
    rows: &mut [u32],
    strip: &mut [u8],
    code: usize,
    spelt: &[u8],
    want: &[u32],
) -> io::Result<Tally> {
    let object = b"\x02\x02\x00\x01\x00\x07\x08\x03\x02\x00\x01\x02\x04\x54\x04";
    let got = lichenhusk::lichenhusk_path(dict, object, path, names, rows, strip);
    print::tell(rt, b"path")?;
    print::write_hex(rt, path)?;
    let t = number(rt, t, b"", got as usize, code)?;
    let t = bytes(rt, t, b"the names after it", names, spelt)?;
    words(rt, t, b"the words after it", rows, want)
}

// `numbers` are STRIP and the WORDs.
fn in_rooms(
    rt: &impl Print,
    t: Tally,
    dict: &[u8],
    path: &[u8],
    spelt: &[u8],
    code: usize,
    numbers: &[u32],
) -> io::Result<Tally> {
    let k = numbers.len();
    if k == 0 {
        return no_case(rt, t);
    }
    let strip = wide(numbers[0]);
    let want = &numbers[1..k];
    let n = spelt.len();
    let m = want.len();
    if 8 < n || 8 < m || 24 < strip {
        return no_case(rt, t);
    }
    asked(
        rt,
        t,
        dict,
        path,
        &mut [9; 8][0..n],
        &mut [9; 8][0..m],
        &mut [9; 24][0..strip],
        code,
        spelt,
        want,
    )
}

pub fn case(rt: &impl Print, t: Tally, line: &[u8]) -> io::Result<Tally> {
    let mut dict = [0u8; 32];
    let mut path = [0u8; 32];
    let mut spelt = [0u8; 32];
    let mut numbers = [0u32; 16];
    let Ok(read) = operands::read(
        line,
        0,
        3,
        Tail::Numbers,
        &mut dict,
        &mut path,
        &mut spelt,
        &mut numbers,
    ) else {
        return no_case(rt, t);
    };
    in_rooms(
        rt,
        t,
        part_of(&dict, 0, read.one),
        part_of(&path, 0, read.two),
        part_of(&spelt, 0, read.three),
        read.number,
        first(&numbers, read.more),
    )
}
