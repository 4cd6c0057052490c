// The child of a name in an object over D. A line is `CASE: OBJECT NAME CHILD`, the three in hex, `-` for none.
//
// There are those of P; children of one byte, the fewest that there are, and a name that is absent beside them; and those of objects that
// are refused, which are the empty part: which refusal it is, the lookups of data/cases tell. Where the empty part lies a program does not
// see; the promise of `child` fixes it.
use crate::report::{bytes, no_case};
use operands::Tail;
use slices::part_of;
use std::io;
use tally::Tally;
use text::find;

fn child(
    rt: &impl Print,
    t: Tally,
    case: &[u8],
    object: &[u8],
    name: &[u8],
    want: &[u8],
) -> io::Result<Tally> {
    let d = b"\x11\x02\x00\x04\x08flowroll";
    bytes(rt, t, case, lookup::child(d, object, name), want)
}

pub fn case(rt: &impl Print, t: Tally, line: &[u8]) -> io::Result<Tally> {
    let mut object = [0u8; 16];
    let mut name = [0u8; 16];
    let mut want = [0u8; 16];
    let colon = find(line, 0, b':');
    if colon == line.len() {
        return no_case(rt, t);
    }
    let Ok(read) = operands::read(
        line,
        colon + 1,
        3,
        Tail::Nothing,
        &mut object,
        &mut name,
        &mut want,
        &mut [0; 0],
    ) else {
        return no_case(rt, t);
    };
    child(
        rt,
        t,
        &line[0..colon],
        part_of(&object, 0, read.one),
        part_of(&name, 0, read.two),
        part_of(&want, 0, read.three),
    )
}
