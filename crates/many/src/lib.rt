// Lookup of many names at one check of the layer: five words a name.
#![tactic(auto)]

ghost use Rattle.std.specs.Prelude.{◌≡◌, ◌++◌, ◌*◌, ◌≤◌, length, drop};
ghost use Rattle.rules.specs.Rules.{each};
ghost use Rattle.run.specs.Meaning.{GoodEnds};
ghost use Rattle.object.specs.Steps.{Opened};
ghost use Rattle.many.specs.Many.{row};
ghost use Rattle.many.specs.Promises.{GetAllPromise};

use layer::Layer;
use object::Accepted;
use rows::{row_of, write_row};
use spots::{Four, Spot, onward, settle, spots};

// The rows of all names.
fn write_rows(
    dict: &[u8],
    h: dictionary::Header,
    object: &[u8],
    l: Layer,
    names: &[u8],
    ends: &[u32],
    words: &mut [u32],
)
    requires { Opened dict.now h object.now l × GoodEnds names.now ends.now × (5 * length ends.now ≤ length words.old) }
    ensures { words.new ≡ each (row dict.now object.now names.now ends.now) (length ends.now) ++ drop (5 * length ends.now) words.old }
{
    let mut begin = 0;
    let mut at = 0;
    let none = Spot { at: 0, key: 0 };
    let mut ahead = Four {
        first: none,
        second: none,
        third: none,
        fourth: none,
    };
    for k in 0..ends.len() {
        let four = spots(dict, h, object, l, names, ends, k, begin, ahead);
        let end = ends[k] as usize;
        let found = settle(dict, h, object, l, &names[begin..end], four.first);
        write_row(words, at, row_of(object, l, found));
        ahead = onward(four);
        at += 5;
        begin = end;
    }
}

// 45, at the first name whose end is not good; the dictionary's or the layer's refusals; or 41.
#[derive(Drop)]
pub enum Refusal {
    BadEnd(usize),
    Layer(layer::Refusal),
    NoRoom,
}

impl From<run::BadName> for Refusal {
    ghost use Rattle.std.specs.Prelude.{◌≡◌};
    ghost use Rattle.many.specs.declared.Refusal.TheVariants.{BadEnd};

    ghost from_gives = { λ bad r. r ≡ BadEnd bad.number };

    fn from(bad: run::BadName) -> Refusal {
        Refusal::BadEnd(bad.number)
    }
}

impl From<layer::Refusal> for Refusal {
    ghost use Rattle.std.specs.Prelude.{◌≡◌};
    ghost use Rattle.many.specs.declared.Refusal.TheVariants.{Layer as OfLayer};

    ghost from_gives = { λ refusal r. r ≡ OfLayer refusal };

    fn from(refusal: layer::Refusal) -> Refusal {
        Refusal::Layer(refusal)
    }
}

// Lookup of many names whose ends are good.
fn get_all_over(
    dict: &[u8],
    object: &[u8],
    names: &[u8],
    ends: &[u32],
    words: &mut [u32],
) -> Result<Accepted, Refusal>
    requires { GoodEnds names.now ends.now }
    ensures { GetAllPromise dict.now object.now names.now ends.now words.old result words.new }
{
    let m = object::open(dict, object)?;
    if words.len() / 5 < ends.len() {
        return Err(Refusal::NoRoom);
    }
    write_rows(dict, m.header, object, m.layer, names, ends, words);
    Ok(Accepted::from(m.layer))
}

// Lookup of many names at one check: five words a name, in the order asked.
pub fn get_all(
    dict: &[u8],
    object: &[u8],
    names: &[u8],
    ends: &[u32],
    words: &mut [u32],
) -> Result<Accepted, Refusal>
    ensures { GetAllPromise dict.now object.now names.now ends.now words.old result words.new }
{
    run::check(names, ends)?;
    get_all_over(dict, object, names, ends, words)
}
