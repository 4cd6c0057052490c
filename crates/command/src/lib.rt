// The command `variant`: what it does with its arguments. The programs over it are variant and, for tests, variant_runs.
#![tactic(auto)]

mod batch;

use arguments::{Names, argument};
use files::LENT;
use print::{room, tell, tell_to, write_hex};
use std::env::Env;
use std::io;
use std::io::Write;
use std::rt::Files;

// The bytes of the longest path, with the one that ends it.
const PATH: usize = 4096;

// Document 01's D and P: what they hold, and three names looked up.
fn show(rt: &impl Print) -> io::Result<()> {
    let d = b"\x11\x02\x00\x04\x08flowroll";
    let p = b"\x02\x02\x00\x01\x01\x00\x03\x04\x0C\xFB";
    tell(rt, b"the dictionary")?;
    write_hex(rt, d)?;
    tell(rt, b"\n")?;
    sentences::check_dictionary(rt, d)?;
    tell(rt, b"the object")?;
    write_hex(rt, p)?;
    tell(rt, b"\n")?;
    described::list(rt, d, p)?;
    show_found(rt, d, p, b"flow")?;
    show_found(rt, d, p, b"roll")?;
    show_found(rt, d, p, b"rol")
}

fn show_found(rt: &impl Print, dict: &[u8], object: &[u8], name: &[u8]) -> io::Result<()> {
    sentences::sought(rt, name)?;
    sentences::find(rt, dict, object, name)
}

fn usage(rt: &impl Print) -> io::Result<()> {
    tell(rt, b"usage: variant                          an example\n")?;
    tell(
        rt,
        b"       variant check DICT [OBJECT]      are the bytes of these files accepted?\n",
    )?;
    tell(
        rt,
        b"       variant check -                  is the dictionary accepted that comes in pieces on standard input?\n",
    )?;
    tell(
        rt,
        b"       variant name DICT N              the name of entry N\n",
    )?;
    tell(
        rt,
        b"       variant find DICT OBJECT NAME..  the fields of these names\n",
    )?;
    tell(
        rt,
        b"       variant get DICT VALUE PATH      what stands at a path such as site.meter[2]\n",
    )?;
    tell(rt, b"       variant list DICT OBJECT         all fields\n")?;
    tell(
        rt,
        b"       variant tree DICT VALUE          is a value accepted, with all that is inside it?\n",
    )?;
    usage_of_input(rt)
}

// The commands that are given all that they read on standard input, or all but a dictionary.
fn usage_of_input(rt: &impl Print) -> io::Result<()> {
    tell(
        rt,
        b"       variant write-dictionary         the dictionary of the names on standard input, a line each\n",
    )?;
    tell(
        rt,
        b"       variant write-object DICT        the object of the lines NAME HEX on standard input, a child each\n",
    )?;
    tell(
        rt,
        b"       variant batch                    answers to the lines of standard input\n",
    )
}

// The dictionary of a file; `-` is standard input, of which no piece is read after the one that settles the verdict.
fn check(rt: &(impl Files + Input + Print), path: &[u8]) -> io::Result<()> {
    match path {
        b"-" => received::check(rt, &mut rt.reader()),
        _ => check_file(rt, path),
    }
}

fn check_file(rt: &(impl Files + Print), path: &[u8]) -> io::Result<()> {
    let mut room = [0u8; LENT];
    let Some(n) = files::load(rt, path, &mut room)? else {
        return Ok(());
    };
    sentences::check_dictionary(rt, &room[0..n])
}

fn name_of(rt: &(impl Files + Print), path: &[u8], entry: usize) -> io::Result<()> {
    let mut room = [0u8; LENT];
    let Some(n) = files::load(rt, path, &mut room)? else {
        return Ok(());
    };
    sentences::name(rt, &room[0..n], entry)
}

fn name(rt: &(impl Files + Print), path: &[u8], entry: &[u8]) -> io::Result<()> {
    match text::number(entry) {
        Some(i) => name_of(rt, path, i),
        None => tell(rt, b"N is not a number below 4294967296\n"),
    }
}

// One name's answer stands alone; of several, each comes after its name.
fn find_in(
    rt: &impl Print,
    dict: &[u8],
    object: &[u8],
    names: &[u8],
    ends: &[u32],
) -> io::Result<()> {
    if ends.len() == 1 {
        sentences::find(rt, dict, object, names)
    } else {
        sentences::find_all(rt, dict, object, names, ends)
    }
}

// The bytes of two files, to what is asked of them.
fn with_both<F: FnOnce(&[u8], &[u8]) -> io::Result<()>>(
    rt: &(impl Files + Print),
    path: &[u8],
    object_path: &[u8],
    ask: F,
) -> io::Result<()>
    requires { F.IsAlwaysCallable ask }
{
    let mut dict_room = [0u8; LENT];
    let Some(n) = files::load(rt, path, &mut dict_room)? else {
        return Ok(());
    };
    let mut object_room = [0u8; LENT];
    let Some(m) = files::load(rt, object_path, &mut object_room)? else {
        return Ok(());
    };
    ask(&dict_room[0..n], &object_room[0..m])
}

// The names of a run of bytes, `ends` where each ends, in two files.
pub fn find(
    rt: &(impl Files + Print),
    path: &[u8],
    object_path: &[u8],
    names: &[u8],
    ends: &[u32],
) -> io::Result<()> {
    if 64 < ends.len() {
        return tell(rt, b"more than 64 names\n");
    }
    with_both(rt, path, object_path, |dict, object| {
        find_in(rt, dict, object, names, ends)
    })
}

// What stands at a path of steps, in two files.
pub fn get(
    rt: &(impl Files + Print),
    path: &[u8],
    value_path: &[u8],
    steps: &[u8],
) -> io::Result<()> {
    with_both(rt, path, value_path, |dict, value| {
        reached::get(rt, dict, value, steps)
    })
}

// What is written is all that goes to standard output.
fn send(rt: &impl Print, errors: &mut impl Write, bytes: &[u8], or_else: &[u8]) -> io::Result<()> {
    tell(rt, bytes).or_else(|_| tell_to(errors, or_else))
}

// Why nothing is written goes to standard error, `errors`.
fn write_dictionary(rt: &(impl Input + Print), errors: &mut impl Write) -> io::Result<()> {
    let mut room = room::bytes();
    match composed::from_input(&mut rt.reader(), errors, &mut room)? {
        Some(n) => send(rt, errors, &room[0..n], b"cannot write the dictionary\n"),
        None => Ok(()),
    }
}

// The object of lines over the dictionary of a file.
fn write_object(
    rt: &(impl Files + Input + Print),
    errors: &mut impl Write,
    path: &[u8],
) -> io::Result<()> {
    let mut lent = [0u8; LENT];
    let Some(n) = files::load_to(rt, errors, path, &mut lent)? else {
        return Ok(());
    };
    let mut room = room::bytes();
    match assembled::from_input(&lent[0..n], &mut rt.reader(), errors, &mut room)? {
        Some(m) => send(rt, errors, &room[0..m], b"cannot write the object\n"),
        None => Ok(()),
    }
}

// A command of `count` words, `variant` among them; the words that are not there are empty. Those of more are `find` and `get`.
pub fn act(
    rt: &(impl Files + Input + Print),
    errors: &mut impl Write,
    count: usize,
    verb: &[u8],
    one: &[u8],
    two: &[u8],
) -> io::Result<()> {
    match (count, verb) {
        (2, b"batch") => batch::run(rt),
        (2, b"write-dictionary") => write_dictionary(rt, errors),
        (3, b"check") => check(rt, one),
        (3, b"write-object") => write_object(rt, errors, one),
        (4, b"check") => with_both(rt, one, two, |dict, object| {
            described::check_object(rt, dict, object)
        }),
        (4, b"name") => name(rt, one, two),
        (4, b"list") => with_both(rt, one, two, |dict, object| {
            described::list(rt, dict, object)
        }),
        (4, b"tree") => with_both(rt, one, two, |dict, value| {
            sentences::check_tree(rt, dict, value)
        }),
        _ => usage(rt),
    }
}

// There is room for one end more than are taken, so that too many are seen.
fn find_arguments(
    rt: &(impl Env + Files + Print),
    count: usize,
    path: &[u8],
    object_path: &[u8],
) -> io::Result<()> {
    let mut run = room::bytes();
    let mut ends = [0u32; 65];
    match arguments::gather(rt, count, &mut run, &mut ends)? {
        Some(Names { len, count }) => find(rt, path, object_path, &run[0..len], &ends[0..count]),
        None => Ok(()),
    }
}

fn get_argument(rt: &(impl Env + Files + Print), path: &[u8], value_path: &[u8]) -> io::Result<()> {
    let mut room = room::bytes();
    match argument(rt, 4, &mut room)? {
        Some(n) => get(rt, path, value_path, &room[0..n]),
        None => Ok(()),
    }
}

// The command of `count` words: the first three beside its name, and the others where they are.
fn of_words(
    rt: &(impl Env + Files + Input + Print),
    errors: &mut impl Write,
    count: usize,
    verb: &[u8],
    one: &[u8],
    two: &[u8],
) -> io::Result<()> {
    match (count, verb) {
        (5.., b"find") => find_arguments(rt, count, one, two),
        (5, b"get") => get_argument(rt, one, two),
        _ => act(rt, errors, count, verb, one, two),
    }
}

// These three have room for the longest path.
fn run_words(
    rt: &(impl Env + Files + Input + Print),
    errors: &mut impl Write,
    count: usize,
) -> io::Result<()> {
    let mut verb_room = [0u8; PATH];
    let mut one_room = [0u8; PATH];
    let mut two_room = [0u8; PATH];
    let verb = argument(rt, 1, &mut verb_room)?;
    let one = argument(rt, 2, &mut one_room)?;
    let two = argument(rt, 3, &mut two_room)?;
    let (Some(v), Some(a), Some(b)) = (verb, one, two) else {
        return Ok(());
    };
    of_words(
        rt,
        errors,
        count,
        &verb_room[0..v],
        &one_room[0..a],
        &two_room[0..b],
    )
}

// The command of the first `count` of the program's arguments, its name among them.
pub fn run_first(
    rt: &(impl Env + Files + Input + Print),
    errors: &mut impl Write,
    count: usize,
) -> io::Result<()> {
    if count < 2 {
        show(rt)
    } else {
        run_words(rt, errors, count)
    }
}

// The command of the program's own arguments. What it says of lines that it writes nothing of goes to `errors`, which is standard error.
pub fn run(rt: &(impl Env + Files + Input + Print), errors: &mut impl Write) -> io::Result<()> {
    run_first(rt, errors, arguments::count(rt))
}
