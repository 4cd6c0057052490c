// The six words of a strip, and their one writer (include/lichenhusk.h has what each word is for each call).
#![tactic(auto)]

ghost use Rattle.std.specs.Prelude.{◌≡◌, [], ◌∷◌, ◌≤◌, length, set};
ghost use Rattle.strip.specs.Shapes.{refusal_words, strip_bytes};
ghost use Rattle.strip.specs.Steps.{list_of, Wrote};

// The bytes of a strip, below which the answer of every call is 40.
pub const STRIP: usize = 24;

// The code of a dictionary in pieces that wants more.
pub const MORE: u32 = 3;

// The six numbers of a strip.
#[derive(Clone, Copy)]
pub struct Words {
    pub code: u32,
    pub number: usize,
    pub id: usize,
    pub start: usize,
    pub end: usize,
    pub place: usize,
}

pub fn refusal(code: u32, place: usize) -> Words
    ensures { list_of result ≡ refusal_words code place }
{
    Words {
        code,
        number: 0,
        id: 0,
        start: 0,
        end: 0,
        place,
    }
}

// The same words with a start: where the value stands that a refusal is of.
pub fn from(start: usize, w: Words) -> Words
    ensures { list_of result ≡ set (list_of w) 3 start }
{
    Words { start, ..w }
}

pub fn answer(number: usize, id: usize, start: usize, end: usize) -> Words
    ensures { list_of result ≡ 0 ∷ number ∷ id ∷ start ∷ end ∷ 0 ∷ [] }
{
    Words {
        code: 0,
        number,
        id,
        start,
        end,
        place: 0,
    }
}

// The one writer: six words to the strip's first bytes, and the code back.
pub fn write(strip: &mut [u8], w: Words) -> u32
    requires { strip_bytes ≤ length strip.old }
    ensures { Wrote w strip.old result strip.new }
{
    width::pack_u32(strip, 0, w.code as usize);
    width::pack_u32(strip, 4, w.number);
    width::pack_u32(strip, 8, w.id);
    width::pack_u32(strip, 12, w.start);
    width::pack_u32(strip, 16, w.end);
    width::pack_u32(strip, 20, w.place);
    w.code
}
