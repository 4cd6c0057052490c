// What a dictionary's bytes say, and its header: checks 10 to 15, and the numbers where they pass (metadata.rs: VariantMetadata).
#![tactic(auto)]

ghost use Rattle.std.specs.Prelude.{◌≡◌, ◌+◌, ◌≤◌, ◌<◌, length};
ghost use Rattle.dictionary.specs.Dictionary.{width as width_of, count as count_of, start as start_of, end as end_of, offset as offset_of};
ghost use Rattle.dictionary.specs.Steps.{LeadOf, PlacesOf, HeadOf, of_text};
ghost use Rattle.dictionary.specs.Wanted.{WantedPromise};

// The longest dictionary or object that is read.
pub const LIMIT: usize = 16_777_216;

// One case for each of the refusals 10 to 19, with its place.
#[derive(Clone, Copy)]
pub enum Refusal {
    TooLong,
    Empty,
    Version,
    Short,
    Sum,
    FirstOffset,
    NotUtf8(usize),
    Range(usize),
    NotAbove(usize),
    CutText(usize),
}

// What is wrong with the region's text, as the dictionary's refusal.
impl From<utf8::Flaw> for Refusal {
    ghost from_gives = { λ flaw r. r ≡ of_text flaw };

    fn from(flaw: utf8::Flaw) -> Refusal {
        match flaw {
            utf8::Flaw::Cut(p) => Refusal::CutText(p),
            utf8::Flaw::Broken(p) => Refusal::NotUtf8(p),
        }
    }
}

// The numbers that the first bytes hold, handed on by value so that nothing is parsed twice.
#[derive(Clone, Copy)]
pub struct Header {
    pub width: usize,
    pub sorted: bool,
    pub count: usize,
    pub start: usize,
    pub end: usize,
}

// What byte 0 says.
#[derive(Clone, Copy)]
struct Lead {
    version: usize,
    sorted: bool,
    width: usize,
}

fn lead_of(dict: &[u8]) -> Lead
    requires { 1 ≤ length dict.now }
    ensures { LeadOf dict.now result }
{
    let b = width::wide(dict[0]);
    Lead {
        version: b % 16,
        sorted: b / 16 % 2 == 1,
        width: b / 64 + 1,
    }
}

// The count, and where the region starts.
#[derive(Clone, Copy)]
struct Places {
    count: usize,
    start: usize,
}

fn places_of(dict: &[u8], w: usize) -> Places
    requires { (w ≡ width_of dict.now) × (1 ≤ w) × (w ≤ 4) × (1 + w ≤ length dict.now) }
    ensures { PlacesOf dict.now result }
{
    let n = width::unpack_u32(dict, 1, w);
    Places {
        count: n,
        start: 1 + w + w * (n + 1),
    }
}

// Offset k, where the header holds it.
pub fn offset_at(dict: &[u8], w: usize, k: usize) -> usize
    requires { (w ≡ width_of dict.now) × (1 ≤ w) × (w ≤ 4) × (k ≤ count_of dict.now) × (start_of dict.now ≤ length dict.now) }
    ensures { (result ≡ offset_of dict.now k) × (result < 4294967296) }
{
    width::unpack_u32(dict, 1 + w + w * k, w)
}

// The trimmed end.
fn end_of(dict: &[u8], w: usize, p: Places) -> usize
    requires { PlacesOf dict.now p × (p.start < 4294967296) × (w ≡ width_of dict.now) × (1 ≤ w) × (w ≤ 4) × (start_of dict.now ≤ length dict.now) }
    ensures { (result ≡ end_of dict.now) × (p.start ≤ result) }
{
    let n = p.count;
    p.start + offset_at(dict, w, n)
}

// Checks 10 to 15, and the numbers where they pass.
pub fn read_header(dict: &[u8]) -> Result<Header, Refusal>
    ensures { HeadOf dict.now result }
{
    if LIMIT < dict.len() {
        return Err(Refusal::TooLong);
    }
    if dict.len() < 1 {
        return Err(Refusal::Empty);
    }
    let lead = lead_of(dict);
    if lead.version != 1 {
        return Err(Refusal::Version);
    }
    if dict.len() < 1 + lead.width {
        return Err(Refusal::Short);
    }
    let places = places_of(dict, lead.width);
    if width::U32_MAX < places.start {
        return Err(Refusal::Sum);
    }
    if dict.len() < places.start {
        return Err(Refusal::Short);
    }
    if offset_at(dict, lead.width, 0) != 0 {
        return Err(Refusal::FirstOffset);
    }
    let end = end_of(dict, lead.width, places);
    if width::U32_MAX < end {
        return Err(Refusal::Sum);
    }
    if dict.len() < end {
        return Err(Refusal::Short);
    }
    Ok(Header {
        width: lead.width,
        sorted: lead.sorted,
        count: places.count,
        start: places.start,
        end,
    })
}

// How many bytes are wanted before the verdict can settle: more than there are exactly where it is "empty" or "short". It reads the header's
// numbers alone, and answers no struct, since a dictionary that comes in pieces asks it for each of them.
pub fn wanted(dict: &[u8]) -> usize
    ensures { WantedPromise dict.now result }
{
    if dict.len() > LIMIT {
        return 0;
    }
    if dict.len() < 1 {
        return 1;
    }
    let lead = lead_of(dict);
    if lead.version != 1 {
        return 0;
    }
    if dict.len() < 1 + lead.width {
        return 1 + lead.width;
    }
    let places = places_of(dict, lead.width);
    if width::U32_MAX < places.start {
        return 0;
    }
    if dict.len() < places.start {
        return places.start;
    }
    if offset_at(dict, lead.width, 0) != 0 {
        return 0;
    }
    let end = end_of(dict, lead.width, places);
    if width::U32_MAX < end {
        return 0;
    }
    if dict.len() < end {
        return end;
    }
    0
}
