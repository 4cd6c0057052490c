// Pairs that are given to be written as fields: 25, 45 and 28, and the largest id (document 02, k).
#![tactic(auto)]

ghost use Rattle.std.specs.Prelude.{◌≡◌, ◌<◌};
ghost use Rattle.dictionary.specs.Dictionary.{count as count_of};
ghost use Rattle.source.specs.Pairs.{pairs};
ghost use Rattle.pairs.specs.Steps.{IdsOf, ChildOf, ChildrenOf};

use source::{child_at, id_at};

// The first pair whose id is no entry.
#[derive(Clone, Copy)]
pub struct NoSuchEntry {
    pub number: usize,
}

// The largest id, over a dictionary of so many entries.
pub fn check_ids(dict: &[u8], words: &[u32], count: usize) -> Result<usize, NoSuchEntry>
    requires { count ≡ count_of dict.now }
    ensures { IdsOf dict.now words.now result }
{
    let mut most: usize = 0;
    for number in 0..words.len() / 3 {
        let id = id_at(words, number);
        if count <= id {
            return Err(NoSuchEntry { number });
        }
        most = most.max(id);
    }
    Ok(most)
}

// Why a child is refused: its range falls or passes the bytes; or it has no byte.
#[derive(Clone, Copy)]
enum Flaw {
    Outside,
    Empty,
}

// The child of pair k.
fn judge(bytes: &[u8], words: &[u32], k: usize) -> Result<(), Flaw>
    requires { k < pairs words.now }
    ensures { ChildOf bytes.now words.now k result }
{
    let s = child_at(words, k);
    if s.end < s.start {
        return Err(Flaw::Outside);
    }
    if bytes.len() < s.end {
        return Err(Flaw::Outside);
    }
    if s.end == s.start {
        return Err(Flaw::Empty);
    }
    Ok(())
}

// The first pair whose child's range falls or passes the bytes; where there is none, the first whose child has no byte.
#[derive(Clone, Copy)]
pub enum ChildRefusal {
    Outside(usize),
    Empty(usize),
}

// One pass: the first empty child is kept in mind until all ranges are known to be good.
pub fn check_children(bytes: &[u8], words: &[u32]) -> Result<(), ChildRefusal>
    ensures { ChildrenOf bytes.now words.now result }
{
    let mut empty = None;
    for k in 0..words.len() / 3 {
        match judge(bytes, words, k) {
            Ok(()) => {}
            Err(Flaw::Outside) => return Err(ChildRefusal::Outside(k)),
            Err(Flaw::Empty) => empty = empty.or(Some(k)),
        }
    }
    match empty {
        Some(k) => Err(ChildRefusal::Empty(k)),
        None => Ok(()),
    }
}
