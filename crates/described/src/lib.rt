// An object layer and its fields in words, to standard output: what is here promises safety only.
#![tactic(auto)]

ghost use Rattle.fields.specs.Steps.{Over};

use answers::Answer;
use print::{counted, quoted, room, tell, wide, write_hex};
use reasons::refused;
use slices::part_of;
use std::io;

fn accepted(rt: &impl Print, a: Answer) -> io::Result<()> {
    counted(rt, b"accepted: ", a.number, b" field", b" fields")?;
    println!(rt;
        ", the value region from byte {} to byte {}",
        a.start, a.end
    )
}

pub fn check_object(rt: &impl Print, dict: &[u8], object: &[u8]) -> io::Result<()> {
    let a = ask::layer(dict, object);
    if a.code != 0 {
        return refused(rt, a.code, a.place);
    }
    accepted(rt, a)
}

// So many bytes of `s` from `start` on; nothing where there are fewer.
fn bytes_at(s: &[u8], start: usize, count: usize) -> &[u8] {
    part_of(part_of(s, start, s.len()), 0, count)
}

// A field of a listing over a dictionary that was checked: nothing is checked again.
fn field(
    rt: &impl Print,
    dict: &[u8],
    h: dictionary::Header,
    object: &[u8],
    id: usize,
    start: usize,
    span: usize,
) -> io::Result<()>
    requires { Over dict.now h }
{
    tell(rt, b"  ")?;
    if id < h.count {
        let name = metadata::span_of(dict, h, id);
        let a = name.start;
        let e = name.end;
        quoted(rt, &dict[a..e])?;
    }
    print!(rt; ": id {id}, start {start}, span {span}:")?;
    let child = bytes_at(object, start, span);
    write_hex(rt, child)?;
    speak::value(rt, child)?;
    tell(rt, b"\n")
}

// The fields of a listing, three words a field.
fn fields(rt: &impl Print, dict: &[u8], object: &[u8], words: &[u32]) -> io::Result<()> {
    let Ok(h) = metadata::checked(dict) else {
        return Ok(());
    };
    let (rows, _) = words.as_chunks::<3>();
    for [id, start, span] in rows {
        field(rt, dict, h, object, wide(*id), wide(*start), wide(*span))?;
    }
    Ok(())
}

// Three words a field. An object of more than 256 fields has three bytes or more for each, so that as many words as a program has bytes
// are enough.
pub fn list(rt: &impl Print, dict: &[u8], object: &[u8]) -> io::Result<()> {
    let mut room = room::words();
    let words: &mut [u32] = &mut room;
    let a = ask_into::list(dict, object, words);
    if a.code != 0 {
        return refused(rt, a.code, a.place);
    }
    accepted(rt, a)?;
    if words.len() / 3 < a.number {
        return Ok(());
    }
    let n = 3 * a.number;
    let filled = &words[..];
    fields(rt, dict, object, &filled[0..n])
}
