// Why a line is no question, in words.
use crate::Fault;
use print::room::use_library;
use print::tell;
use std::io;

// `room` is how many bytes a word may spell.
pub fn reason(rt: &impl Print, fault: Fault, room: usize) -> io::Result<()> {
    match fault {
        Fault::Hex(text::Fault::Odd) => tell(rt, b"an odd number of hex digits"),
        Fault::Hex(text::Fault::NoDigit) => tell(rt, b"a character that is no hex digit"),
        Fault::Hex(text::Fault::Long) => word_too_long(rt, room),
        Fault::Unknown => tell(
            rt,
            b"the first word is none of dictionary, name, layer, lookup, list, all, value, tree, path, write, write-object, pieces",
        ),
        Fault::Missing => tell(rt, b"a word is missing"),
        Fault::TooMany => tell(rt, b"a word too many"),
        Fault::NoNumber => tell(rt, b"no number below 4294967296"),
        Fault::NoRoom => tell(rt, b"more room than there is"),
        Fault::ManyNumbers => tell(rt, b"more numbers than there is room for"),
    }
}

fn word_too_long(rt: &impl Print, room: usize) -> io::Result<()> {
    tell(rt, b"a word is")?;
    use_library(&mut io::writer(rt), room, b" bytes")
}
