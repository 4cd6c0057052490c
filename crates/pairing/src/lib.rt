// Lines `NAME HEX` as pairs over a dictionary, for an object that is written of them. NAME is all before the last space, HEX the child's bytes.
#![tactic(auto)]

ghost use Rattle.std.specs.Prelude.{◌≡◌, ◌+◌, ◌*◌, ◌/◌, ◌≤◌, ◌<◌, [], ◌∷◌, length, take, IfOk, Ok};
ghost use Rattle.std.proofs.lemmas.List.Edits.{sets};
ghost use Rattle.metadata.specs.Steps.{CheckedOf};
ghost use Rattle.pairing.specs.Meaning.{LastSpace, SoughtOf, PairOf};
ghost use Rattle.pairing.specs.Promises.{GatherPromise};

use dictionary::Header;
use part::Span;
use text::{find, hex};

// Why a line is no pair.
#[derive(Clone, Copy)]
pub enum Fault {
    Hex(text::Fault),
    NoSpace,
    NoEntry,
}

impl From<text::Fault> for Fault {
    fn from(fault: text::Fault) -> Fault {
        Fault::Hex(fault)
    }
}

// Where the last space of a line stands.
fn last_space(line: &[u8]) -> Option<usize>
    ensures { LastSpace line.now result }
{
    for i in (0..line.len()).rev() {
        if line[i] == b' ' {
            return Some(i);
        }
    }
    None
}

// The first entry that is the name.
fn entry_of(dict: &[u8], h: Header, name: &[u8]) -> Option<usize>
    requires { CheckedOf dict.now (Ok h) }
    ensures { SoughtOf dict.now name.now result }
{
    for i in 0..h.count {
        let Span { start, end } = metadata::span_of(dict, h, i);
        if check::same(&dict[start..end], name) {
            return Some(i);
        }
    }
    None
}

// The entry of a line's name, and the first `len` bytes of a room, its child's.
#[derive(Clone, Copy)]
struct Pair {
    id: usize,
    len: usize,
}

fn pair_of(line: &[u8], dict: &[u8], h: Header, out: &mut [u8]) -> Result<Pair, Fault>
    requires { CheckedOf dict.now (Ok h) }
    ensures pair_of { IfOk result (λ pair. PairOf dict.now line.now pair.id (take pair.len out.new)) }
    ensures len_in_bounds { IfOk result (λ pair. (pair.len ≤ length out.new) × (pair.id < 4294967296)) }
{
    let space = last_space(line).ok_or(Fault::NoSpace)?;
    let id = entry_of(dict, h, &line[..space]).ok_or(Fault::NoEntry)?;
    let len = hex(&line[space + 1..], out)?;
    Ok(Pair { id, len })
}

// The three words of a pair, at a place.
fn put_pair(words: &mut [u32], at: usize, id: usize, start: usize, end: usize)
    requires { (at + 3 ≤ length words.old) × (id < 4294967296) × (start < 4294967296) × (end < 4294967296) }
    ensures { words.new ≡ sets words.old at (id ∷ start ∷ end ∷ []) }
{
    words[at] = id as u32;
    words[at + 1] = start as u32;
    words[at + 2] = end as u32;
}

// The pairs that were gathered: the first `len` bytes, and the first `count` words.
#[derive(Clone, Copy)]
pub struct Pairs {
    pub len: usize,
    pub count: usize,
}

// Line `line`, counted from 0, is no pair.
#[derive(Clone, Copy)]
pub struct BadLine {
    pub line: usize,
    pub fault: Fault,
}

// A pair a line, without its newline. A line that is one has a byte or more, so that there are no more than half as many as bytes.
pub fn gather(
    text: &[u8],
    dict: &[u8],
    h: Header,
    bytes: &mut [u8],
    words: &mut [u32],
) -> Result<Pairs, BadLine>
    requires checked_of { CheckedOf dict.now (Ok h) }
    requires text_in_bounds { (3 * ((length text.now + 1) / 2) ≤ length words.old) × (length bytes.old < 4294967296) }
    ensures gather_promise { IfOk result (λ pairs. GatherPromise text.now dict.now pairs bytes.new words.new) }
    ensures len_in_bounds { IfOk result (λ pairs. (pairs.len ≤ length bytes.new) × (pairs.count ≤ length words.new)) }
{
    let mut at: usize = 0;
    // No `for`: a line is as long as it is, and the next starts behind it.
    let mut line: usize = 0;
    let mut len: usize = 0;
    let mut count: usize = 0;
    while at < text.len() {
        let end = find(text, at, b'\n');
        let pair = match pair_of(&text[at..end], dict, h, &mut bytes[len..]) {
            Ok(pair) => pair,
            Err(fault) => return Err(BadLine { line, fault }),
        };
        put_pair(words, count, pair.id, len, len + pair.len);
        len += pair.len;
        count += 3;
        line += 1;
        at = end + 1;
    }
    Ok(Pairs { len, count })
}
