// Each case's line to standard output, and the tally.
use std::io;
use tally::{Tally, with};

// Ends the line of a case that is as expected.
pub fn good(rt: &impl Print, t: Tally) -> io::Result<Tally> {
    print::tell(rt, b": as expected\n")?;
    Ok(with(t, true))
}

// Ends the line of any other.
pub fn bad(rt: &impl Print, t: Tally) -> io::Result<Tally> {
    print::tell(rt, b"\n")?;
    Ok(with(t, false))
}

// A case whose answer is a number.
pub fn number(
    rt: &impl Print,
    t: Tally,
    case: &[u8],
    got: usize,
    want: usize,
) -> io::Result<Tally> {
    print::tell(rt, case)?;
    print::say(rt, b": ", got)?;
    if got == want {
        return good(rt, t);
    }
    print::say(rt, b": NOT as expected: ", want)?;
    bad(rt, t)
}

// A case whose answer is bytes.
pub fn bytes(rt: &impl Print, t: Tally, case: &[u8], got: &[u8], want: &[u8]) -> io::Result<Tally> {
    print::tell(rt, case)?;
    print::counted(rt, b": ", got.len(), b" byte", b" bytes")?;
    print::write_hex(rt, got)?;
    if got == want {
        return good(rt, t);
    }
    print::tell(rt, b": NOT as expected:")?;
    print::write_hex(rt, want)?;
    bad(rt, t)
}

// A case whose answer is words.
pub fn words(
    rt: &impl Print,
    t: Tally,
    case: &[u8],
    got: &[u32],
    want: &[u32],
) -> io::Result<Tally> {
    print::tell(rt, case)?;
    print::tell(rt, b":")?;
    print::write_words(rt, got)?;
    if got == want {
        return good(rt, t);
    }
    print::tell(rt, b": NOT as expected:")?;
    print::write_words(rt, want)?;
    bad(rt, t)
}

// A line that is no case.
pub fn no_case(rt: &impl Print, t: Tally) -> io::Result<Tally> {
    print::tell(rt, b"NOT a line of the table")?;
    bad(rt, t)
}

pub fn close(rt: &impl Print, t: Tally) -> io::Result<()> {
    println!(rt; "{} cases, {} not as expected", t.cases, t.wrong)
}
