// Runs `variant` on the files of data/: by the program's own arguments, then with the words of each line of `commands` as its arguments.
// One of these is `batch`, which answers the lines of stdin; a `write-dictionary`, or a `check -`, after it finds no more of them. Before it
// the command has a file in place of standard input.
#![tactic(auto)]

ghost use Rattle.std.specs.Prelude.{◌≤◌, length};

use files::LENT;
use part::Span;
use print::room;
use std::io;
use std::io::{Read, Write};
use std::rt::Files;
use text::word;

// The names of a line of `commands`.
const RUN: usize = 4096;

// The bytes of `commands`, and more.
const COMMANDS: usize = 65_536;

// The first word from `from` on, empty where there is none, and where it ends.
fn next_word(line: &[u8], from: usize) -> (&[u8], usize) {
    let Span { start, end } = word(line, from);
    (&line[start..end], end)
}

// How many of five words there are, and one more for the program's name.
fn count(line: &[u8]) -> usize {
    let mut next = 0;
    for count in 1..6 {
        let (found, end) = next_word(line, next);
        if found.is_empty() {
            return count;
        }
        next = end;
    }
    6
}

// The names that were gathered: the first `len` bytes of a run, and the first `count` ends.
#[derive(Drop)]
struct Names {
    len: usize,
    count: usize,
}

// The run with a word more at `at`, as far as there is room, and where it goes on.
fn put(run: &mut [u8], at: usize, word: &[u8]) -> usize
    requires { at ≤ length run.old }
    ensures { result ≤ length run.new }
{
    let n = word.len().min(run.len() - at);
    run[at..at + n].copy_from_slice(&word[..n]);
    at + n
}

// The words from `from` on, one after another, as far as there is room for their ends.
fn gather(line: &[u8], from: usize, run: &mut [u8], ends: &mut [u32]) -> Names
    requires { length run.old ≤ 4096 }
    ensures { (result.len ≤ length run.new) × (result.count ≤ length ends.new) }
{
    let mut next = from;
    let mut len: usize = 0;
    for count in 0..ends.len() {
        let (name, end) = next_word(line, next);
        if name.is_empty() {
            return Names { len, count };
        }
        len = put(run, len, name);
        ends[count] = len as u32;
        next = end;
    }
    Names {
        len,
        count: ends.len(),
    }
}

// A line of `commands` is shorter than the run; of ends there is room for one more than `find` takes.
fn find_names(
    rt: &(impl Files + Print),
    line: &[u8],
    from: usize,
    dict: &[u8],
    object: &[u8],
) -> io::Result<()> {
    let mut run = [0u8; RUN];
    let mut ends = [0u32; 65];
    let names = gather(line, from, &mut run, &mut ends);
    let n = names.len;
    let k = names.count;
    command::find(rt, dict, object, &run[0..n], &ends[0..k])
}

// The path that a word spells; `''` is the empty one, as in a shell.
fn get(rt: &(impl Files + Print), dict: &[u8], value: &[u8], word: &[u8]) -> io::Result<()> {
    match word {
        b"''" => command::get(rt, dict, value, b""),
        _ => command::get(rt, dict, value, word),
    }
}

// As many of the first bytes as a line shows.
fn front(s: &[u8]) -> &[u8] {
    let n = s.len();
    &s[..n.min(64)]
}

// What stands in place of standard input: a file, or what cannot be read where there is none.
#[derive(Drop)]
struct Given<F>(Option<F>);

impl<F: Read> Read for Given<F> {
    fn read(&mut self, buf: &mut [u8]) -> io::Result<usize> {
        match &mut self.0 {
            Some(file) => file.read(buf),
            None => Err(io::Error::other("not open")),
        }
    }
}

fn to_read<R: Files>(rt: &R, path: &[u8]) -> Given<R::File> {
    Given(files::open(rt, path).ok())
}

// What `write-dictionary` makes of a file, its messages among it: the first bytes in hex, and how all are read.
fn write_dictionary(rt: &(impl Files + Print), path: &[u8]) -> io::Result<()> {
    let mut room = room::bytes();
    let made = composed::from_input(&mut to_read(rt, path), &mut io::writer(rt), &mut room)?;
    if let Some(n) = made {
        print::write_hex(rt, front(&room[0..n]))?;
        print::tell(rt, b"\n")?;
        sentences::check_dictionary(rt, &room[0..n])?;
    }
    Ok(())
}

// And `write-object` over the dictionary of a file, of another: its fields are listed.
fn write_object(rt: &(impl Files + Print), path: &[u8], lines: &[u8]) -> io::Result<()> {
    let mut lent = [0u8; LENT];
    let Some(m) = files::load(rt, path, &mut lent)? else {
        return Ok(());
    };
    let mut room = room::bytes();
    let made = assembled::from_input(
        &lent[0..m],
        &mut to_read(rt, lines),
        &mut io::writer(rt),
        &mut room,
    )?;
    if let Some(n) = made {
        print::write_hex(rt, front(&room[0..n]))?;
        print::tell(rt, b"\n")?;
        described::list(rt, &lent[0..m], &room[0..n])?;
    }
    Ok(())
}

// And `check -` of a file.
fn check_pieces(rt: &(impl Files + Print), path: &[u8]) -> io::Result<()> {
    received::check(rt, &mut to_read(rt, path))
}

fn act(rt: &(impl Files + Input + Print), errors: &mut impl Write, line: &[u8]) -> io::Result<()> {
    let (verb, next) = next_word(line, 0);
    let (one, next) = next_word(line, next);
    let (two, next) = next_word(line, next);
    let (three, _) = next_word(line, next);
    match (count(line), verb) {
        (5.., b"find") => find_names(rt, line, next, one, two),
        (5, b"get") => get(rt, one, two, three),
        (3, b"write-dictionary") => write_dictionary(rt, one),
        (4, b"write-object") => write_object(rt, one, two),
        (5, _) if matches!(two, b"<") => check_pieces(rt, three),
        (count, _) => command::act(rt, errors, count, verb, one, two),
    }
}

fn run(rt: &(impl Files + Input + Print), errors: &mut impl Write, text: &[u8]) -> io::Result<()> {
    for piece in text.split_inclusive(|b| *b == b'\n') {
        let line = piece.strip_suffix(b"\n").unwrap_or(piece);
        print::tell(rt, b"$ variant ")?;
        print::tell(rt, line)?;
        print::tell(rt, b"\n")?;
        act(rt, errors, line)?;
    }
    Ok(())
}

fn commands_room() -> [u8; COMMANDS] {
    [0; COMMANDS]
}

// Of the arguments the first three are a `find` of no name, the first four of one, and all of several.
fn main(rt: HostRuntime) -> io::Result<()> {
    let mut errors = rt.stderr();
    command::run_first(&rt, &mut errors, 4)?;
    command::run_first(&rt, &mut errors, 5)?;
    command::run(&rt, &mut errors)?;
    let mut text = commands_room();
    let n = files::read(&mut files::open(&rt, b"commands")?, &mut text)?;
    run(&rt, &mut errors, &text[..n])
}
