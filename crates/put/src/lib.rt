// Bytes into lent room: a part of other bytes, a number of some width.
#![tactic(auto)]

ghost use Rattle.std.specs.Prelude.{◌≡◌, ◌+◌, ◌≤◌, length, take, drop};
ghost use Rattle.std.proofs.lemmas.List.Edits.{sets};
ghost use Rattle.width.specs.Width.{bytes_of};

// `len` bytes, as they stand from `from` on, into the room at `to`. Byte by byte: `copy_from_slice` is a call of the C library's
// `memmove`, which the archive does not need otherwise.
pub fn copy(bytes: &[u8], from: usize, len: usize, room: &mut [u8], to: usize)
    requires { (from + len ≤ length bytes.now) × (to + len ≤ length room.old) }
    ensures { room.new ≡ sets room.old to (take len (drop from bytes.now)) }
{
    for i in 0..len {
        room[to + i] = bytes[from + i];
    }
}

// The low `width` bytes of a number into the room at `to`, the lowest first.
pub fn number(n: usize, width: usize, room: &mut [u8], to: usize)
    requires { to + width ≤ length room.old }
    ensures { room.new ≡ sets room.old to (bytes_of width n) }
{
    let mut rest = n;
    for at in to..to + width {
        room[at] = (rest % 256) as u8;
        rest = rest / 256;
    }
}
