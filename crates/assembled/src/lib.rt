// An object of the lines of a text, `NAME HEX` each, over a dictionary, or why there is none. Standard output is the object's alone, so why goes
// to a writer that the caller names.
#![tactic(auto)]

ghost use Rattle.std.specs.Prelude.{◌≡◌, ◌≤◌, length, IfOk, IfSome};
ghost use Rattle.metadata.specs.Steps.{CheckedOf};
ghost use Rattle.write_object.specs.Writing.{room_after as object_after};
ghost use Rattle.lichenhusk.specs.Strip.{write_object_words};
ghost use Rattle.answers.specs.Numbers.{numbers_of};
ghost use Rattle.assembled.specs.Assembled.{Assembled};

use answers::Answer;
use dictionary::Header;
use files::LENT;
use print::room;
use print::room::ROOM;
use std::io;
use std::io::{Read, Write};

// Three words a pair, and a pair for every two bytes of a text.
const WORDS: usize = 98_304;

fn word_room() -> [u32; WORDS] {
    [0; WORDS]
}

// The object of pairs, with scratch for the most that there are.
fn assemble(dict: &[u8], bytes: &[u8], pairs: &[u32], out: &mut [u8]) -> Answer
    ensures result_value { length pairs.now ≤ 4294967296 → numbers_of result ≡ write_object_words dict.now bytes.now pairs.now out.old }
    ensures out_after { out.new ≡ object_after dict.now bytes.now pairs.now out.old }
{
    let mut order = room::words();
    let mut spare = room::words();
    ask_into::write_object(dict, bytes, pairs, &mut order, &mut spare, out)
}

// Of the lines of a text, and how many bytes it has; where there is none, why goes to `to`.
fn of_lines(
    dict: &[u8],
    h: Header,
    text: &[u8],
    to: &mut impl Write,
    out: &mut [u8],
) -> io::Result<Option<usize>>
    requires checked_of { CheckedOf dict.now (Ok h) }
    requires text_len_bound { length text.now ≤ ROOM }
    ensures assembled { IfOk result (λ made. IfSome made (λ len. Assembled dict.now text.now out.old len out.new)) }
    ensures upper_bound { IfOk result (λ made. IfSome made (λ len. len ≤ length out.new)) }
{
    let mut bytes = room::bytes();
    let mut words = word_room();
    let pairs = match pairing::gather(text, dict, h, &mut bytes, &mut words) {
        Ok(pairs) => pairs,
        Err(bad) => {
            unwritten::pair(to, bad.line, bad.fault)?;
            return Ok(None);
        }
    };
    let n = pairs.len;
    let k = pairs.count;
    let a = assemble(dict, &bytes[0..n], &words[0..k], out);
    if a.code != 0 {
        unwritten::object(to, a.code, a.place, out.len())?;
        return Ok(None);
    }
    Ok(Some(a.end))
}

// Of what is read from `input`.
fn of_input(
    dict: &[u8],
    h: Header,
    input: &mut impl Read,
    to: &mut impl Write,
    out: &mut [u8],
) -> io::Result<Option<usize>>
    requires { CheckedOf dict.now (Ok h) }
    ensures { IfOk result (λ made. IfSome made (λ len. len ≤ length out.new)) }
{
    let mut lent = [0u8; LENT];
    let Some(n) = files::input(input, to, &mut lent)? else {
        return Ok(None);
    };
    of_lines(dict, h, &lent[0..n], to, out)
}

// The same over any dictionary: one that is refused is told of before a line is read.
pub fn from_input(
    dict: &[u8],
    input: &mut impl Read,
    to: &mut impl Write,
    out: &mut [u8],
) -> io::Result<Option<usize>>
    ensures { IfOk result (λ made. IfSome made (λ len. len ≤ length out.new)) }
{
    let Ok(h) = metadata::checked(dict) else {
        let a = ask::dictionary(dict);
        unwritten::object(to, a.code, a.place, out.len())?;
        return Ok(None);
    };
    of_input(dict, h, input, to, out)
}
