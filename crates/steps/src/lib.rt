// The steps of a path such as `site.meter[2]`, as the Rust's parse_path reads them (utils.rs).
#![tactic(auto)]

ghost use Rattle.std.specs.Prelude.{◌≡◌, false, ◌+◌, ◌≤◌, ◌<◌, length, drop};
ghost use Rattle.brackets.specs.Brackets.{content, digits, number};
ghost use Rattle.steps.specs.Path.{ends, plain, numbered, bracket, dotted};
ghost use Rattle.steps.specs.Steps.{read_scan, Bounded, ScanOf};

use brackets::Piece;

// One case for each of the refusals 72 to 75, which a step can meet.
#[derive(Clone, Copy)]
pub enum Refusal {
    TrailingDot,
    Unexpected,
    Unclosed,
    Bracket,
}

// What an unclosed bracket holds is no part of the refusal.
impl From<brackets::Unclosed> for Refusal {
    ghost use Rattle.std.specs.Prelude.{◌≡◌};
    ghost use Rattle.steps.specs.declared.Refusal.TheVariants.{Unclosed};

    ghost from_gives = { λ _ r. r ≡ Unclosed };

    fn from(_unclosed: brackets::Unclosed) -> Refusal {
        Refusal::Unclosed
    }
}

// What a byte of a path starts: a name, as it stands; a quoted name of `len` bytes once the backslashes are off; an index.
// `more` bytes after that byte are of it.
#[derive(Clone, Copy)]
pub enum Scan {
    Plain {
        from: usize,
        len: usize,
        more: usize,
    },
    Quoted {
        from: usize,
        len: usize,
        more: usize,
    },
    Index {
        value: usize,
        more: usize,
    },
}

fn is_end(b: u8) -> bool
    ensures { result ≡ ends b }
{
    matches!(b, b'.' | b'[' | b']')
}

// How many bytes stand from `from` to the next . [ or ]
fn plain_len(path: &[u8], from: usize) -> usize
    requires { from ≤ length path.now }
    ensures { (result ≡ plain (drop from path.now)) × (from + result ≤ length path.now) }
{
    for at in from..path.len() {
        if is_end(path[at]) {
            return at - from;
        }
    }
    path.len() - from
}

// A number in the brackets that open at `at` and take `more` bytes after.
fn numbered_at(path: &[u8], at: usize, more: usize) -> Result<Scan, Refusal>
    requires { at + 1 + more ≤ length path.now }
    ensures { (read_scan path.now result ≡ numbered more (number (content false (drop (at + 1) path.now)))) × Bounded path.now at result }
{
    let value = brackets::number_at(path, at + 1).ok_or(Refusal::Bracket)?;
    Ok(Scan::Index { value, more })
}

// The brackets that open at `at`.
fn bracket_at(path: &[u8], at: usize) -> Result<Scan, Refusal>
    requires { at < length path.now }
    ensures { (read_scan path.now result ≡ bracket (drop (at + 1) path.now)) × Bounded path.now at result }
{
    let look = brackets::survey(path, at + 1)?;
    match brackets::unit_at(path, at + 1) {
        Piece::Byte { byte, size } if brackets::is_quoted(look.count, byte, look.last) => {
            Ok(Scan::Quoted {
                from: at + 1 + size,
                len: look.count - 2,
                more: look.size,
            })
        }
        _ => numbered_at(path, at, look.size),
    }
}

// A dot at `at`, and a name after it.
fn dotted_at(path: &[u8], at: usize) -> Result<Scan, Refusal>
    requires { at < length path.now }
    ensures { (read_scan path.now result ≡ dotted (drop (at + 1) path.now)) × Bounded path.now at result }
{
    if path.len() <= at + 1 {
        return Err(Refusal::TrailingDot);
    }
    let len = plain_len(path, at + 1);
    if len == 0 {
        return Err(Refusal::Unexpected);
    }
    Ok(Scan::Plain {
        from: at + 1,
        len,
        more: len,
    })
}

// The step that the byte at `at` starts.
pub fn step_at(path: &[u8], at: usize) -> Result<Scan, Refusal>
    requires { at < length path.now }
    ensures { ScanOf path.now at result }
{
    match path[at] {
        b'.' => dotted_at(path, at),
        b'[' => bracket_at(path, at),
        b']' => Err(Refusal::Unexpected),
        _ => {
            let len = plain_len(path, at + 1);
            Ok(Scan::Plain {
                from: at,
                len: len + 1,
                more: len,
            })
        }
    }
}
