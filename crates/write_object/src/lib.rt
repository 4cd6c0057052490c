// Writing an object layer from pairs over a dictionary (document 02, k).
#![tactic(auto)]

ghost use Rattle.std.specs.Prelude.{◌≡◌};
ghost use Rattle.source.specs.Pairs.{pairs};
ghost use Rattle.source.specs.Names.{GoodRanges};
ghost use Rattle.pairs.specs.Checks.{largest};
ghost use Rattle.builder.specs.Bytes.{size};
ghost use Rattle.builder.specs.Steps.{Ready};
ghost use Rattle.write_object.specs.Writing.{size_checks};
ghost use Rattle.write_object.specs.declared.Refusal.TheVariants as refusal;
ghost use Rattle.write_object.specs.Steps.{Left, of_child};
ghost use Rattle.write_object.specs.Promises.{ObjectPromise};

use doubles::Double;
use lay::TooLong;
use pairs::{ChildRefusal, NoSuchEntry};
use source::Source;

// What was written: how many fields, where the region starts, and how many bytes.
#[derive(Clone, Copy)]
pub struct Built {
    pub count: usize,
    pub start: usize,
    pub length: usize,
}

// The dictionary's refusals, 25, 26, 45, 28, 20, 46.
#[derive(Clone, Copy)]
pub enum Refusal {
    Dictionary(dictionary::Refusal),
    NoSuchEntry(usize),
    Double(usize),
    Outside(usize),
    EmptyChild(usize),
    TooLong,
    NoRoom,
}

impl From<dictionary::Refusal> for Refusal {
    ghost from_gives = { λ refused r. r ≡ refusal.Dictionary refused };

    fn from(refused: dictionary::Refusal) -> Refusal {
        Refusal::Dictionary(refused)
    }
}

impl From<NoSuchEntry> for Refusal {
    ghost from_gives = { λ pair r. r ≡ refusal.NoSuchEntry pair.number };

    fn from(pair: NoSuchEntry) -> Refusal {
        Refusal::NoSuchEntry(pair.number)
    }
}

impl From<Double> for Refusal {
    ghost from_gives = { λ double r. r ≡ refusal.Double double.number };

    fn from(double: Double) -> Refusal {
        Refusal::Double(double.number)
    }
}

impl From<ChildRefusal> for Refusal {
    ghost from_gives = { λ child r. r ≡ of_child child };

    fn from(child: ChildRefusal) -> Refusal {
        match child {
            ChildRefusal::Outside(k) => Refusal::Outside(k),
            ChildRefusal::Empty(k) => Refusal::EmptyChild(k),
        }
    }
}

impl From<TooLong> for Refusal {
    ghost from_gives = { λ _ r. r ≡ refusal.TooLong };

    fn from(_long: TooLong) -> Refusal {
        Refusal::TooLong
    }
}

// Once the pairs are known to be good: the sizes, 20, 46, and the bytes. `most` is their largest id; the dictionary's names start at
// `names`, and are in order if it is sorted.
fn finish(
    dict: &[u8],
    bytes: &[u8],
    words: &[u32],
    order: Option<&[u32]>,
    room: &mut [u8],
    most: usize,
    names: usize,
    sorted: bool,
) -> Result<Built, Refusal>
    requires { Ready dict.now words.now order names sorted × GoodRanges bytes.now words.now × (most ≡ largest words.now (pairs words.now)) }
    ensures { Left (size_checks (size dict.now bytes.now words.now) room.old) dict.now bytes.now words.now room.old room.new result }
{
    let kind = Source::Pairs {
        region: names,
        sorted,
    };
    let sizes = lay::measure(dict, words, bytes, order, kind)?;
    let count = sizes.count;
    let wi = lay::width_of(most);
    let wo = lay::width_of(sizes.sum);
    let start = builder::region_start(wi, wo, count);
    let length = start + sizes.sum;
    let limit = dictionary::LIMIT;
    if limit < length {
        return Err(Refusal::TooLong);
    }
    let free = room.len();
    if free < length {
        return Err(Refusal::NoRoom);
    }
    builder::write_all(
        dict, bytes, words, order, room, wi, wo, count, start, names, sorted,
    );
    Ok(Built {
        count,
        start,
        length,
    })
}

// An object of the pairs at the front of `room`: words id, start, end, three a pair, over the dictionary and the bytes of the children.
// `order` and `spare` are scratch: with a word for each pair in both the pairs are sorted there, and with fewer each is searched for, which is
// slower and answers the same.
pub fn write_object(
    dict: &[u8],
    bytes: &[u8],
    words: &[u32],
    order: &mut [u32],
    spare: &mut [u32],
    room: &mut [u8],
) -> Result<Built, Refusal>
    ensures { ObjectPromise dict.now bytes.now words.now room.old result room.new }
{
    let header = metadata::checked(dict)?;
    let names = header.start;
    let sorted = header.sorted;
    let kind = Source::Pairs {
        region: names,
        sorted,
    };
    let most = pairs::check_ids(dict, words, header.count)?;
    let plan = doubles::check(dict, words, order, spare, kind)?;
    pairs::check_children(bytes, words)?;
    let numbers = pick::sorted(order, plan);
    finish(dict, bytes, words, numbers, room, most, names, sorted)
}
