// The steps of a path, measured and then written into lent bytes and words.
#![tactic(auto)]

ghost use Rattle.std.specs.Prelude.{◌≡◌, false, ◌+◌, ◌≤◌, ◌<◌, [], ◌∷◌, length, take, drop};
ghost use Rattle.std.proofs.lemmas.List.Edits.{sets};
ghost use Rattle.width.specs.Limits.{u32_max};
ghost use Rattle.brackets.specs.Brackets.{content};
ghost use Rattle.steps.specs.Path.{parse as parse_of};
ghost use Rattle.writing.specs.Written.{names_of, words_of};
ghost use Rattle.writing.specs.Steps.{ExtentOf, MeasureOf, Due, WroteOf, Room, steps_in};

use brackets::Piece;
use steps::{Refusal, Scan};

// What a step takes: the bytes of its name once the backslashes are off (0 for an index), and those of the path after its first.
#[derive(Clone, Copy)]
struct Extent {
    len: usize,
    more: usize,
}

fn extent_at(path: &[u8], at: usize) -> Result<Extent, Refusal>
    requires { at < length path.now }
    ensures { ExtentOf path.now at result }
{
    match steps::step_at(path, at)? {
        Scan::Plain { from: _, len, more } => Ok(Extent { len, more }),
        Scan::Quoted { from: _, len, more } => Ok(Extent { len, more }),
        Scan::Index { value: _, more } => Ok(Extent { len: 0, more }),
    }
}

// How many steps, and how many bytes their names take.
#[derive(Clone, Copy)]
pub struct Parsed {
    pub count: usize,
    pub total: usize,
}

// The steps after one another, or the first refusal met.
pub fn measure_steps(path: &[u8]) -> Result<Parsed, Refusal>
    ensures { MeasureOf path.now result }
{
    // No `for`: a step is as long as it is, and the next starts behind it.
    let mut at = 0;
    let mut count = 0;
    let mut total = 0;
    while at < path.len() {
        let extent = extent_at(path, at)?;
        total += extent.len;
        at += extent.more + 1;
        count += 1;
    }
    Ok(Parsed { count, total })
}

// `len` bytes of what brackets hold, without the backslashes, into the names at `to`.
fn copy_content(path: &[u8], from: usize, len: usize, names: &mut [u8], to: usize)
    requires { to + len ≤ length names.old }
    ensures { names.new ≡ sets names.old to (take len (content false (drop from path.now))) }
{
    let mut at = from;
    for i in 0..len {
        let Piece::Byte { byte, size } = brackets::unit_at(path, at) else {
            return;
        };
        names[to + i] = byte;
        at += size;
    }
}

// The three words of a step.
fn put_row(words: &mut [u32], row: usize, kind: usize, first: usize, second: usize)
    requires { (row + 3 ≤ length words.old) × (kind ≤ 1) × (first ≤ u32_max) × (second ≤ u32_max) }
    ensures { words.new ≡ sets words.old row (kind ∷ first ∷ second ∷ []) }
{
    words[row] = kind as u32;
    words[row + 1] = first as u32;
    words[row + 2] = second as u32;
}

// The step that stands at `at`, into names and words.
fn write_step(
    path: &[u8],
    at: usize,
    names: &mut [u8],
    used: usize,
    words: &mut [u32],
    row: usize,
) -> Extent
    requires { (at < length path.now) × Due path.now at used row names.old words.old }
    ensures { WroteOf path.now at used row names.old words.old names.new words.new result }
{
    match steps::step_at(path, at).unwrap() {
        Scan::Plain { from, len, more } => {
            put::copy(path, from, len, names, used);
            put_row(words, row, 0, used, used + len);
            Extent { len, more }
        }
        Scan::Quoted { from, len, more } => {
            copy_content(path, from, len, names, used);
            put_row(words, row, 0, used, used + len);
            Extent { len, more }
        }
        Scan::Index { value, more } => {
            put_row(words, row, 1, value % 0x1_0000_0000, value / 0x1_0000_0000);
            Extent { len: 0, more }
        }
    }
}

// All steps.
pub fn write_steps(path: &[u8], names: &mut [u8], words: &mut [u32])
    requires { Room path.now names.old words.old }
    ensures names_after { names.new ≡ sets names.old 0 (names_of (steps_in (parse_of 0 path.now))) }
    ensures words_after { words.new ≡ sets words.old 0 (words_of 0 (steps_in (parse_of 0 path.now))) }
{
    // No `for`: a step is as long as it is, and the next starts behind it.
    let mut at = 0;
    let mut used = 0;
    let mut row = 0;
    while at < path.len() {
        let extent = write_step(path, at, names, used, words, row);
        used += extent.len;
        row += 3;
        at += extent.more + 1;
    }
}
