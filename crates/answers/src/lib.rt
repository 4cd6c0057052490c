// The six numbers of a strip, as programs have them.
#![tactic(auto)]

ghost use Rattle.std.specs.Prelude.{◌≡◌, ◌≤◌, length};
ghost use Rattle.strip.specs.Shapes.{strip_bytes};
ghost use Rattle.strip.specs.Reading.{words_in};
ghost use Rattle.answers.specs.Numbers.{numbers_of};

use std::{fmt, io};

#[derive(Clone, Copy)]
pub struct Answer {
    pub code: usize,
    pub number: usize,
    pub id: usize,
    pub start: usize,
    pub end: usize,
    pub place: usize,
}

// What a call left in its strip.
pub fn read(strip: &[u8]) -> Answer
    requires { strip_bytes ≤ length strip.now }
    ensures { numbers_of result ≡ words_in strip.now }
{
    Answer {
        code: width::unpack_u32(strip, 0, 4),
        number: width::unpack_u32(strip, 4, 4),
        id: width::unpack_u32(strip, 8, 4),
        start: width::unpack_u32(strip, 12, 4),
        end: width::unpack_u32(strip, 16, 4),
        place: width::unpack_u32(strip, 20, 4),
    }
}

// A space between two.
impl fmt::Display for Answer {
    fn fmt<W: fmt::Write>(&self, f: &mut fmt::Formatter<W>) -> fmt::Result {
        let Answer {
            code,
            number,
            id,
            start,
            end,
            place,
        } = *self;
        write!(f, "{code} {number} {id} {start} {end} {place}")
    }
}

// To standard output; it promises safety only.
pub fn write(rt: &impl Print, a: Answer) -> io::Result<()> {
    print!(rt; "{a}")
}
