// Where a value stands in a tree: a step for each container around it, a field's name or an element's number, to standard output. What is
// here promises safety only.
#![tactic(auto)]

ghost use Rattle.std.specs.Prelude.{◌<◌};
ghost use Rattle.layout.specs.Steps.{Few, NumbersOf};

use encoding::Header;
use layout::{Numbers, Widths};
use print::{quoted, say, tell};
use std::io;

// Child `number` of a container, from byte `start` to byte `end` of it.
#[derive(Clone, Copy)]
struct Step {
    number: usize,
    start: usize,
    end: usize,
}

// Whether the child from `start` to `end` of its container is refused for the value at byte `to`: of what its own length does not reach, it is
// not.
fn refuses(dict: &[u8], s: &[u8], start: usize, end: usize, to: usize, depth: usize) -> bool {
    if to < start {
        return false;
    }
    if end < to {
        return false;
    }
    if s.len() < end {
        return false;
    }
    let child = &s[start..end];
    if let Ok(length) = lengths::own_length(child) {
        if length < to - start {
            return false;
        }
    }
    tree::check_at(dict, child, depth).is_err()
}

// Where child k ends: an element at the next one's offset, a field's at the trimmed end.
fn end_of(s: &[u8], w: Widths, l: Numbers, k: usize) -> usize
    requires { Few w × NumbersOf s.now w l × (k < l.count) }
{
    if w.id == 0 {
        return l.start + layout::offset_at(s, w, l, k + 1);
    }
    l.end
}

// The first child that is refused for the value at byte `to`, each met at this depth.
fn first(dict: &[u8], s: &[u8], w: Widths, l: Numbers, to: usize, depth: usize) -> Option<Step>
    requires { Few w × NumbersOf s.now w l }
{
    for k in 0..l.count {
        let start = l.start + layout::offset_at(s, w, l, k);
        let end = end_of(s, w, l, k);
        if refuses(dict, s, start, end, to, depth) {
            return Some(Step {
                number: k,
                start,
                end,
            });
        }
    }
    None
}

// The same of a container whose numbers are of these widths.
fn child(dict: &[u8], s: &[u8], w: Widths, to: usize, depth: usize) -> Option<Step>
    requires { Few w }
{
    let l = layout::read(s, w).ok()?;
    first(dict, s, w, l, to, depth)
}

// The step from a value that is refused into the child for which it is.
fn next_step(dict: &[u8], s: &[u8], to: usize, depth: usize) -> Option<Step> {
    if s.len() < 1 {
        return None;
    }
    match encoding::header_of(s[0]) {
        Header::Object(w) => child(dict, s, w, to, depth),
        Header::List(w) => child(dict, s, w, to, depth),
        _ => None,
    }
}

fn write_entry(rt: &impl Print, dict: &[u8], id: usize) -> io::Result<()> {
    if let Ok(Some(name)) = metadata::get(dict, id) {
        if name.start <= name.end && name.end <= dict.len() {
            return quoted(rt, &dict[name.start..name.end]);
        }
    }
    Ok(())
}

// The name of field k.
fn write_name(rt: &impl Print, dict: &[u8], object: &[u8], k: usize) -> io::Result<()> {
    if let Ok(l) = layer::read_header(object) {
        if k < l.count {
            return write_entry(rt, dict, layer::id_at(object, l, k));
        }
    }
    Ok(())
}

// A step into child k of a container that stands at this depth: `"name"`, `."name"` after another, or `[k]`.
fn write_step(rt: &impl Print, dict: &[u8], s: &[u8], k: usize, depth: usize) -> io::Result<()> {
    if s.len() < 1 {
        return Ok(());
    }
    if s[0] % 4 == 3 {
        say(rt, b"[", k)?;
        return tell(rt, b"]");
    }
    if 0 < depth {
        tell(rt, b".")?;
    }
    write_name(rt, dict, s, k)
}

// The steps from a tree that is refused to the value at byte `to` of it, for which it is. There are at most 32 containers around that.
pub fn write(rt: &impl Print, dict: &[u8], tree: &[u8], to: usize) -> io::Result<()> {
    let mut a = 0;
    let mut e = tree.len();
    for depth in 0..32 {
        if to <= a {
            return Ok(());
        }
        let s = &tree[a..e];
        let Some(next) = next_step(dict, s, to - a, depth + 1) else {
            return Ok(());
        };
        if next.end < next.start || s.len() < next.end {
            return Ok(());
        }
        write_step(rt, dict, s, next.number, depth)?;
        e = a + next.end;
        a = a + next.start;
    }
    Ok(())
}
