// A value's header byte, and what it says (variant.rs, decoder.rs).
#![tactic(auto)]

ghost use Rattle.std.specs.Prelude.{◌≡◌};
ghost use Rattle.encoding.specs.Encoding.{object_widths, list_widths, count_width};
ghost use Rattle.encoding.specs.Promises.{HeaderPromise};

// What the header byte says: the basic type, and in the upper six bits a primitive's type, a short string's length,
// or the widths of an object's or a list's numbers.
#[derive(Drop)]
pub enum Header {
    Primitive(usize),
    ShortString(usize),
    Object(layout::Widths),
    List(layout::Widths),
}

// How many bytes a count has, by the bit that says so.
fn count_width(bit: usize) -> usize
    ensures { result ≡ count_width bit }
{
    if bit == 1 {
        return 4;
    }
    1
}

fn object_widths(b: usize) -> layout::Widths
    ensures { result ≡ object_widths b }
{
    layout::Widths {
        count: count_width(b / 64 % 2),
        id: b / 16 % 4 + 1,
        offset: b / 4 % 4 + 1,
    }
}

fn list_widths(b: usize) -> layout::Widths
    ensures { result ≡ list_widths b }
{
    layout::Widths {
        count: count_width(b / 16 % 2),
        id: 0,
        offset: b / 4 % 4 + 1,
    }
}

// What a value's first byte says.
pub fn header_of(first: u8) -> Header
    ensures { HeaderPromise first result }
{
    let b = width::wide(first);
    match b % 4 {
        0 => Header::Primitive(b / 4),
        1 => Header::ShortString(b / 4),
        2 => Header::Object(object_widths(b)),
        _ => Header::List(list_widths(b)),
    }
}
