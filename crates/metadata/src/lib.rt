// The metadata dictionary: its verdict, a name by entry number, and the empty one (metadata.rs: VariantMetadata).
#![tactic(auto)]

ghost use Rattle.std.specs.Prelude.{◌<◌, Ok};
ghost use Rattle.dictionary.specs.Dictionary.{count as count_of};
ghost use Rattle.metadata.specs.Steps.{CheckedOf, SpanOf};
ghost use Rattle.metadata.specs.Promises.{CheckPromise, GetPromise, WriteEmptyPromise};

use dictionary::{Header, Refusal, offset_at, read_header};
use entries::check_region;
use part::Span;

// The numbers of a dictionary that is accepted.
#[derive(Clone, Copy)]
pub struct Accepted {
    pub count: usize,
    pub end: usize,
}

// The room was below three bytes.
#[derive(Clone, Copy)]
pub struct NoRoom;

// All checks, and the numbers where they pass.
pub fn checked(dict: &[u8]) -> Result<Header, Refusal>
    ensures { CheckedOf dict.now result }
{
    let h = read_header(dict)?;
    check_region(dict, h)?;
    Ok(h)
}

// The verdict on a dictionary.
pub fn check(dict: &[u8]) -> Result<Accepted, Refusal>
    ensures { CheckPromise dict.now result }
{
    let header = checked(dict)?;
    Ok(Accepted {
        count: header.count,
        end: header.end,
    })
}

// Where the name of entry i stands, in a dictionary that was checked. It tests nothing: the object layer calls it for every field.
pub fn span_of(dict: &[u8], h: Header, i: usize) -> Span
    requires { CheckedOf dict.now (Ok h) × (i < count_of dict.now) }
    ensures { SpanOf dict.now i result }
{
    let w = h.width;
    let v = h.start;
    Span {
        start: v + offset_at(dict, w, i),
        end: v + offset_at(dict, w, i + 1),
    }
}

// The name of entry number i, or none where there is no such entry.
pub fn get(dict: &[u8], i: usize) -> Result<Option<Span>, Refusal>
    ensures { GetPromise dict.now i result }
{
    let h = checked(dict)?;
    if h.count <= i {
        return Ok(None);
    }
    Ok(Some(span_of(dict, h, i)))
}

// The empty dictionary, into the first three bytes of `room`.
pub fn write_empty(room: &mut [u8]) -> Result<(), NoRoom>
    ensures { WriteEmptyPromise room.old result room.new }
{
    if room.len() < 3 {
        return Err(NoRoom);
    }
    room[0..3].copy_from_slice(b"\x01\x00\x00");
    Ok(())
}
