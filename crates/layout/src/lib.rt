// What an object and a list have in common: a count, ids or none, offsets, and the region of the values.
#![tactic(auto)]

ghost use Rattle.std.specs.Prelude.{◌≡◌, ◌+◌, ◌≤◌, ◌<◌, length};
ghost use Rattle.layout.specs.Layout.{count as count_of, offset as offset_of, start as start_of, end as end_of};
ghost use Rattle.layout.specs.Steps.{Few, PlacesOf, NumbersOf, HeadOf};

// What the header byte says: how many bytes the count has, an id (0 where there are none), and an offset.
#[derive(Clone, Copy)]
pub struct Widths {
    pub count: usize,
    pub id: usize,
    pub offset: usize,
}

// The numbers of a layout whose checks passed: the count, where the offsets and the region start, and the trimmed end.
#[derive(Clone, Copy)]
pub struct Numbers {
    pub count: usize,
    pub offsets: usize,
    pub start: usize,
    pub end: usize,
}

// Why there are no numbers: the header is cut; a sum is above the 32-bit range; or the region is longer than the bytes.
#[derive(Clone, Copy)]
pub enum Flaw {
    Cut,
    Sum,
    Longer,
}

#[derive(Clone, Copy)]
struct Places {
    count: usize,
    offsets: usize,
    start: usize,
}

fn places_of(s: &[u8], w: Widths) -> Places
    requires { Few w × (1 + w.count ≤ length s.now) }
    ensures { PlacesOf s.now w result }
{
    let c = w.count;
    let n = width::unpack_u32(s, 1, c);
    let offsets = 1 + c + w.id * n;
    Places {
        count: n,
        offsets,
        start: offsets + w.offset * (n + 1),
    }
}

// The trimmed end: the last offset stands just before the region.
fn end_of(s: &[u8], w: Widths, start: usize) -> usize
    requires { Few w × (start ≡ start_of w s.now) × (start < 4294967296) × (start ≤ length s.now) }
    ensures { (result ≡ end_of w s.now) × (start ≤ result) }
{
    let n = w.offset;
    start + width::unpack_u32(s, start - n, n)
}

// The checks that every layout has to pass, and its numbers where they do.
pub fn read(s: &[u8], w: Widths) -> Result<Numbers, Flaw>
    requires { Few w }
    ensures { HeadOf s.now w result }
{
    if s.len() < 1 + w.count {
        return Err(Flaw::Cut);
    }
    let places = places_of(s, w);
    if width::U32_MAX < places.offsets {
        return Err(Flaw::Sum);
    }
    let start = places.start;
    if width::U32_MAX < start {
        return Err(Flaw::Sum);
    }
    if s.len() < start {
        return Err(Flaw::Cut);
    }
    let end = end_of(s, w, start);
    if width::U32_MAX < end {
        return Err(Flaw::Sum);
    }
    if s.len() < end {
        return Err(Flaw::Longer);
    }
    Ok(Numbers {
        count: places.count,
        offsets: places.offsets,
        start,
        end,
    })
}

// Offset k of the n + 1. It tests nothing: the layers above call it for the children of a checked layout.
pub fn offset_at(s: &[u8], w: Widths, l: Numbers, k: usize) -> usize
    requires { Few w × NumbersOf s.now w l × (k ≤ count_of w s.now) }
    ensures { (result ≡ offset_of w s.now k) × (result < 4294967296) }
{
    let n = w.offset;
    width::unpack_u32(s, l.offsets + n * k, n)
}
