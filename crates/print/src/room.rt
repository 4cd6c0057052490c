// How much a program holds of what it is asked about, and what it says of more.
use crate::{say_to, tell_to};
use std::io;
use std::io::Write;

// The bytes of a dictionary, of an object, and of all names that are looked for at once. The library reads more, over slices that a host
// lends; a program has only its stack.
pub const ROOM: usize = 65_536;

// So many bytes, and so many words. A caller need not count them: that an array is as long as its type says comes with it.
pub fn bytes() -> [u8; ROOM] {
    [0; ROOM]
}

pub fn words() -> [u32; ROOM] {
    [0; ROOM]
}

// What comes after `it is` where there are more than `most` of these, to a writer.
pub fn longer_than(to: &mut impl Write, most: usize, of_these: &[u8]) -> io::Result<()> {
    say_to(to, b" longer than ", most)?;
    tell_to(to, of_these)?;
    tell_to(to, b", all that this program has room for")
}

// The same, and what to use instead. How much that reads, its own papers say: programs are not to change with it.
pub fn use_library(to: &mut impl Write, most: usize, of_these: &[u8]) -> io::Result<()> {
    longer_than(to, most, of_these)?;
    tell_to(
        to,
        b"; for more use the library, from C (include/lichenhusk.h) or from Rust (rust/lichenhusk)",
    )
}
