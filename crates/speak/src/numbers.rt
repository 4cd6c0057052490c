// Numbers in words: integers, and floats with their bits.
use print::tell;
use std::io;

// A signed number of four bytes or of eight.
pub fn write_signed(rt: &impl Print, s: &[u8]) -> io::Result<()> {
    if let Ok(bytes) = <[u8; 4]>::try_from(s) {
        print!(rt; "{}", i32::from_le_bytes(bytes))
    } else if let Ok(bytes) = <[u8; 8]>::try_from(s) {
        print!(rt; "{}", i64::from_le_bytes(bytes))
    } else {
        Ok(())
    }
}

// How many bits an integer of the kind `t` has.
fn size_of(t: usize) -> usize {
    match t {
        3 => 8,
        4 => 16,
        5 => 32,
        _ => 64,
    }
}

// The bits are those of 64, whatever the kind.
fn integer(rt: &impl Print, t: usize, bits: usize) -> io::Result<()> {
    print!(rt;
        "integer {}, {} bits",
        (bits as u64).cast_signed(),
        size_of(t)
    )
}

fn double(rt: &impl Print, bits: usize) -> io::Result<()> {
    tell(rt, b"double ")?;
    decimal::write_double(rt, bits)?;
    print!(rt; ", bits {bits:016x}")
}

fn single(rt: &impl Print, bits: usize) -> io::Result<()> {
    tell(rt, b"float ")?;
    decimal::write_single(rt, bits)?;
    print!(rt; ", bits {bits:08x}")
}

// A number of the kind `t` by its bits.
pub fn write(rt: &impl Print, t: usize, bits: usize) -> io::Result<()> {
    match t {
        7 => double(rt, bits),
        14 => single(rt, bits),
        _ => integer(rt, t, bits),
    }
}
