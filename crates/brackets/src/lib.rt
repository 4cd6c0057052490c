// What stands between the brackets of a path, as the Rust's parse_in_bracket reads it (utils.rs).
#![tactic(auto)]

ghost use Rattle.std.specs.Prelude.{◌≡◌, false, ◌+◌, ◌≤◌, ◌<◌, length, drop};
ghost use Rattle.brackets.specs.Brackets.{content, small, digits, some_digits, number, in_quotes};
ghost use Rattle.brackets.specs.Steps.{PieceOf, LookOf, AfterPlus};

// One byte of what brackets hold, and how many bytes of the path it takes: two with a backslash.
#[derive(Drop)]
pub enum Piece {
    Never,
    Close,
    Byte { byte: u8, size: usize },
}

// The byte that stands at `at`, by its backslash or without; none where the brackets close there, or never do.
pub fn unit_at(path: &[u8], at: usize) -> Piece
    ensures { PieceOf path.now at result }
{
    if path.len() <= at {
        return Piece::Never;
    }
    let b = path[at];
    if b == b']' {
        return Piece::Close;
    }
    if b != b'\\' {
        return Piece::Byte { byte: b, size: 1 };
    }
    if path.len() <= at + 1 {
        return Piece::Never;
    }
    let c = path[at + 1];
    Piece::Byte { byte: c, size: 2 }
}

// A pass over the brackets: how many bytes they take with the closing one, how many they hold, the last of those.
#[derive(Clone, Copy)]
pub struct Look {
    pub size: usize,
    pub count: usize,
    pub last: u8,
}

// No bracket closes: how many bytes are held up to the path's end, and the last of those.
#[derive(Clone, Copy)]
pub struct Unclosed {
    pub count: usize,
    pub last: u8,
}

pub fn survey(path: &[u8], from: usize) -> Result<Look, Unclosed>
    requires { from ≤ length path.now }
    ensures { LookOf path.now from result }
{
    // No `for`: a unit takes one byte or two, and which one ends the pass tells the answer.
    let mut at = from;
    let mut count = 0;
    let mut last = 0;
    loop {
        match unit_at(path, at) {
            Piece::Never => return Err(Unclosed { count, last }),
            Piece::Close => {
                return Ok(Look {
                    size: at + 1 - from,
                    count,
                    last,
                });
            }
            Piece::Byte { byte, size } => {
                at += size;
                count += 1;
                last = byte;
            }
        }
    }
}

// The number below 2 to the 64th that the digits say which brackets hold from `from` on.
fn digits_at(path: &[u8], from: usize) -> Option<usize>
    requires { from ≤ length path.now }
    ensures { result ≡ small (digits 0 (content false (drop from path.now))) }
{
    let mut at = from;
    let mut value: usize = 0;
    while let Piece::Byte { byte, size } = unit_at(path, at) {
        if !byte.is_ascii_digit() {
            return None;
        }
        let digit = (byte - b'0') as usize;
        value = value.checked_mul(10)?.checked_add(digit)?;
        at += size;
    }
    Some(value)
}

// At least one digit.
fn some_digits(path: &[u8], from: usize) -> Option<usize>
    requires { from ≤ length path.now }
    ensures { result ≡ small (some_digits (content false (drop from path.now))) }
{
    match unit_at(path, from) {
        Piece::Never | Piece::Close => None,
        Piece::Byte { .. } => digits_at(path, from),
    }
}

// The place after a plus that brackets hold at `from`, or `from`.
fn after_plus(path: &[u8], from: usize) -> usize
    requires { from ≤ length path.now }
    ensures { AfterPlus path.now from result }
{
    match unit_at(path, from) {
        Piece::Byte { byte: b'+', size } => from + size,
        Piece::Byte { .. } => from,
        Piece::Never | Piece::Close => from,
    }
}

// The number that brackets hold, a plus before it or none.
pub fn number_at(path: &[u8], from: usize) -> Option<usize>
    requires { from ≤ length path.now }
    ensures { result ≡ number (content false (drop from path.now)) }
{
    some_digits(path, after_plus(path, from))
}

// Whether so many bytes, of which these are the first and the last, are a name in quotes.
pub fn is_quoted(count: usize, first: u8, last: u8) -> bool
    ensures { result ≡ in_quotes count first last }
{
    2 <= count && first == last && (first == b'\'' || first == b'"')
}
