// Where names of many may be, four to a search by their keys, and the field of each.
#![tactic(auto)]

ghost use Rattle.std.specs.Prelude.{◌≡◌, cond, ◌+◌, ◌-◌, ◌<◌, ltb, length};
ghost use Rattle.names.specs.Search.{seek};
ghost use Rattle.run.specs.Run.{end as end_of};
ghost use Rattle.run.specs.Meaning.{GoodEnds};
ghost use Rattle.layer.specs.Object.{count as count_of, field_name};
ghost use Rattle.object.specs.Steps.{Opened};
ghost use Rattle.lookup.specs.Steps.{sought_of};
ghost use Rattle.spots.specs.Steps.{Probed, SpotOf, NameAt, SpotsOf, Ahead};

use layer::Layer;
use lookup::find;

// `step` where the key p is not above the other, and 0 where it is. A branch would be guessed wrong as often as not; this takes none.
fn climb(step: usize, key: usize, p: usize) -> usize
    requires { (key < 9223372036854775808) × (p < 9223372036854775808) }
    ensures { result ≡ cond (ltb key p) 0 step }
{
    step * ((keys::KEYS + key - p) / keys::KEYS)
}

// A step up from `at`, unless the key of the field there is above `key`.
fn probe(
    dict: &[u8],
    h: dictionary::Header,
    object: &[u8],
    l: Layer,
    at: usize,
    step: usize,
    key: usize,
) -> usize
    requires { Opened dict.now h object.now l × (at + step < count_of object.now) × (key < 9223372036854775808) }
    ensures { Probed (field_name dict.now object.now (at + step)) key at step result }
{
    let id = layer::id_at(object, l, at + step);
    let name = metadata::span_of(dict, h, id);
    at + climb(step, key, keys::key(dict, name.start, name.end))
}

// Where a name may be: at this field or before it. With the name's key.
#[derive(Clone, Copy)]
pub struct Spot {
    pub at: usize,
    pub key: usize,
}

#[derive(Clone, Copy)]
pub struct Four {
    pub first: Spot,
    pub second: Spot,
    pub third: Spot,
    pub fourth: Spot,
}

// Four names at once, by their keys: no search waits for another's loads, and no branch depends on what is read.
fn narrow(
    dict: &[u8],
    h: dictionary::Header,
    object: &[u8],
    l: Layer,
    first: &[u8],
    second: &[u8],
    third: &[u8],
    fourth: &[u8],
) -> Four
    requires { Opened dict.now h object.now l }
    ensures { SpotOf dict.now object.now first.now result.first × SpotOf dict.now object.now second.now result.second × SpotOf dict.now object.now third.now result.third × SpotOf dict.now object.now fourth.now result.fourth }
{
    let p = keys::key(first, 0, first.len());
    let q = keys::key(second, 0, second.len());
    let r = keys::key(third, 0, third.len());
    let s = keys::key(fourth, 0, fourth.len());
    let mut a = 0;
    let mut b = 0;
    let mut c = 0;
    let mut d = 0;
    let mut size = l.count;
    // No for: the turns are as many as halvings of the count.
    while 1 < size {
        let half = size / 2;
        a = probe(dict, h, object, l, a, half, p);
        b = probe(dict, h, object, l, b, half, q);
        c = probe(dict, h, object, l, c, half, r);
        d = probe(dict, h, object, l, d, half, s);
        size -= half;
    }
    Four {
        first: Spot { at: a, key: p },
        second: Spot { at: b, key: q },
        third: Spot { at: c, key: r },
        fourth: Spot { at: d, key: s },
    }
}

// The field of that name: the one at the spot or, where names have their first seven bytes in common, one before it.
pub fn settle(
    dict: &[u8],
    h: dictionary::Header,
    object: &[u8],
    l: Layer,
    name: &[u8],
    spot: Spot,
) -> Option<usize>
    requires { Opened dict.now h object.now l × SpotOf dict.now object.now name.now spot }
    ensures { sought_of result ≡ seek (field_name dict.now object.now) name.now (count_of object.now) }
{
    if l.count == 0 {
        return None;
    }
    let id = layer::id_at(object, l, spot.at);
    let there = metadata::span_of(dict, h, id);
    let key = keys::key(dict, there.start, there.end);
    if key < spot.key {
        return None;
    }
    if key == spot.key {
        if keys::same_rest(&dict[there.start..there.end], name) {
            return Some(spot.at);
        }
    }
    find(dict, h, object, l, name, spot.at + 1)
}

// Where name j ends; past the last name, where the last ends.
fn end_at(ends: &[u32], j: usize) -> usize
    requires { 0 < length ends.now }
    ensures { result ≡ cond (ltb j (length ends.now)) (end_of ends.now j) (end_of ends.now (length ends.now - 1)) }
{
    if j < ends.len() {
        return ends[j] as usize;
    }
    ends[ends.len() - 1] as usize
}

// The spots of name k and of those after it, four to a search: where k is not the first of its four, they were found before. Names past the
// last are empty.
pub fn spots(
    dict: &[u8],
    h: dictionary::Header,
    object: &[u8],
    l: Layer,
    names: &[u8],
    ends: &[u32],
    k: usize,
    begin: usize,
    before: Four,
) -> Four
    requires { Opened dict.now h object.now l × GoodEnds names.now ends.now × NameAt ends.now k begin × Ahead dict.now object.now names.now ends.now k before }
    ensures { SpotsOf dict.now object.now names.now ends.now k result }
{
    if 0 < k % 4 {
        return before;
    }
    let p = end_at(ends, k);
    let q = end_at(ends, k + 1);
    let r = end_at(ends, k + 2);
    let s = end_at(ends, k + 3);
    let first = &names[begin..p];
    let second = &names[p..q];
    let third = &names[q..r];
    narrow(dict, h, object, l, first, second, third, &names[r..s])
}

// The spots after the first, for the next name.
pub fn onward(four: Four) -> Four
    ensures { (result.first ≡ four.second) × (result.second ≡ four.third) × (result.third ≡ four.fourth) }
{
    let second = four.second;
    let third = four.third;
    let fourth = four.fourth;
    Four {
        first: second,
        second: third,
        third: fourth,
        fourth,
    }
}
