// A dictionary of the lines of a text, or why there is none. Standard output is the dictionary's alone, so why goes to a writer that the caller
// names.
#![tactic(auto)]

ghost use Rattle.std.specs.Prelude.{◌≡◌, ◌≤◌, length, IfOk, IfSome};
ghost use Rattle.write.specs.Writing.{room_after};
ghost use Rattle.lichenhusk.specs.Strip.{write_words};
ghost use Rattle.lay.specs.Bytes.{joined};
ghost use Rattle.split.specs.Lines.{lines_of, ends_of};
ghost use Rattle.answers.specs.Numbers.{numbers_of};

use answers::Answer;
use files::LENT;
use print::room::ROOM;
use std::io;
use std::io::{Read, Write};

// The dictionary of a text's lines, to the front of `out`.
fn compose(text: &[u8], out: &mut [u8]) -> Answer
    requires { length text.now ≤ ROOM }
    ensures result_value { numbers_of result ≡ write_words (joined (lines_of text.now)) (ends_of 0 (lines_of text.now)) out.old }
    ensures out_after { out.new ≡ room_after (joined (lines_of text.now)) (ends_of 0 (lines_of text.now)) out.old }
{
    let mut run = [0u8; ROOM];
    let mut ends = [0u32; ROOM];
    let names = split::gather(text, &mut run, &mut ends);
    let n = names.len;
    let k = names.count;
    let mut order = [0u32; ROOM];
    let mut spare = [0u32; ROOM];
    ask_into::write_dictionary(&run[0..n], &ends[0..k], &mut order, &mut spare, out)
}

// Of what is read from `input`, and how many bytes it has; where there is none, why goes to `to`.
pub fn from_input(
    input: &mut impl Read,
    to: &mut impl Write,
    out: &mut [u8],
) -> io::Result<Option<usize>>
    ensures { IfOk result (λ made. IfSome made (λ len. len ≤ length out.new)) }
{
    let mut room = [0u8; LENT];
    let Some(n) = files::input(input, to, &mut room)? else {
        return Ok(None);
    };
    let a = compose(&room[0..n], out);
    if a.code != 0 {
        unwritten::dictionary(to, a.code, a.place, out.len())?;
        return Ok(None);
    }
    Ok(Some(a.end))
}
