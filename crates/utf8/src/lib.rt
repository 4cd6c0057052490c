// Well-formed UTF-8 by RFC 3629 (utils.rs: string_from_slice, which calls the library's from_utf8).
#![tactic(auto)]

ghost use Rattle.std.specs.Prelude.{◌≡◌, ◌+◌, ◌≤◌, length};
ghost use Rattle.chars.specs.Rfc3629.{text_up_to};
ghost use Rattle.plain.specs.Steps.{Reached};
ghost use Rattle.blocks.specs.Steps.{Rights};
ghost use Rattle.utf8.specs.Promises.{CheckPromise};

// What is no text is cut, or broken, after the longest well-formed text that it starts with, whose length is given: what is left is a proper
// beginning of a character, or it is not (Utf8Error: error_len is None, or not).
#[derive(Clone, Copy)]
pub enum Flaw {
    Cut(usize),
    Broken(usize),
}

// How many bytes are judged at once, each with the three before it.
const BLOCK: usize = 64;

// Where the last of the characters before `end` starts, if each byte up to there may stand where it does.
fn last_start(s: &[u8], end: usize) -> usize
    requires { Rights s.now 0 end × (end ≤ length s.now) }
    ensures { Reached s.now result }
{
    for at in (0..end).rev() {
        if s[at] < 0x80 {
            return at;
        }
        if 0xBF < s[at] {
            return at;
        }
    }
    0
}

// Up to where each byte may stand where it does, block by block: to the end, or to the first block with one that may not. The last block
// may overlap the one before.
fn right_up_to(s: &[u8], count: usize) -> usize
    requires { (3 ≤ count) × (3 + count ≤ length s.now) }
    ensures { Rights s.now 0 result × (result ≤ length s.now) }
{
    let mut before = plain::largest(s, 0, 3);
    if !blocks::first_pass(s, before) {
        return 0;
    }
    // No `for`: where the blocks ended is asked after the loop.
    let mut at = 0;
    while 3 + count <= s.len() - at {
        let most = plain::largest(s, at + 3, count);
        if !blocks::passes(s, at, count, before.max(most)) {
            return at + 3;
        }
        before = most;
        at += count;
    }
    let last = s.len() - (3 + count);
    if blocks::passes(s, last, count, plain::largest(s, last, 3 + count)) {
        return s.len();
    }
    at + 3
}

// How far a text is passed by many bytes at once; what is left is passed character by character.
fn begin(s: &[u8]) -> usize
    ensures { Reached s.now result }
{
    if s.len() < 3 + BLOCK {
        return plain::strides(s);
    }
    last_start(s, right_up_to(s, BLOCK))
}

// The length of the longest well-formed text that `s` starts with (Utf8Error: valid_up_to).
fn valid_len(s: &[u8]) -> usize
    ensures { result ≡ text_up_to s.now }
{
    // No `for`: each step is as long as its character, and where they ended is the answer.
    let mut at = begin(s);
    while at < s.len() {
        let n = chars::char_at(s, at);
        if n == 0 {
            return at;
        }
        at += n;
    }
    at
}

// Whether `s` is a text, and where not, up to where it is one and whether it is cut there.
pub fn check(s: &[u8]) -> Result<(), Flaw>
    ensures { CheckPromise s.now result }
{
    let at = valid_len(s);
    let end = s.len();
    if at == end {
        return Ok(());
    }
    if chars::begins_at(s, at) {
        return Err(Flaw::Cut(at));
    }
    Err(Flaw::Broken(at))
}
