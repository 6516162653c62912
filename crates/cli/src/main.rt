// The program behind ./vosemaqe: reads expressions as text, and shows the words of each and the values that the tree and the words give.
// It reads the files that are named, and standard input for a file called -. A line of three dashes separates two expressions.
#![tactic(auto)]

ghost use Rattle.std.specs.Prelude.{◌≤◌, length, IfOk};

mod gather;
mod list;
mod show;
mod trouble;
mod why;

use crate::gather::head_of;
use crate::show::{Outcome, show};
use print::{say, tell};
use reader::gather::{end_of, put_nodes, put_values};
use reader::head::{Head, NODES};
use std::env::{Env, FillError};
use std::io::{Cursor, Read, Write};
use std::rt::Files;
use std::{fs, io, str};
use text::scan::find;
use value::pairs::PairsMut;

// Room for a text, for the nodes of an expression that is shown, and for as many values as there are registers.
const TEXT: usize = 262144;

const TABLE: usize = 4 * NODES;

const VALUES: usize = 65535;

// Room for the path of a file.
const PATH: usize = 4096;

// How many expressions had a value, were refused, stopped with a fault, could not be read. A file that cannot be read counts with the last.
#[derive(Clone, Copy, PartialEq, Eq)]
struct Totals {
    values: u64,
    refused: u64,
    faults: u64,
    unreadable: u64,
}

fn counted(t: Totals, o: Outcome) -> Totals {
    let mut u = t;
    match o {
        Outcome::Value => u.values = t.values.saturating_add(1),
        Outcome::Refused => u.refused = t.refused.saturating_add(1),
        Outcome::Fault => u.faults = t.faults.saturating_add(1),
        Outcome::Unreadable => u.unreadable = t.unreadable.saturating_add(1),
        Outcome::Nothing => {}
    }
    u
}

// An expression that can be read, and begins on a line.
fn shown(rt: &impl Print, name: &[u8], s: &[u8], line: u64, h: Head) -> io::Result<Outcome> {
    let mut nodes = [0u64; TABLE];
    let mut kinds = [0u8; VALUES];
    let mut payloads = [0u64; VALUES];
    put_nodes(s, &mut nodes);
    put_values(s, &mut kinds, &mut payloads);
    let mut registers = PairsMut {
        kinds: &mut kinds,
        payloads: &mut payloads,
    };
    show(rt, name, s, line, &mut nodes, &mut registers, h)
}

fn expression(rt: &impl Print, name: &[u8], s: &[u8], line: u64, h: Head) -> io::Result<Outcome> {
    if !h.some {
        return Ok(Outcome::Nothing);
    }
    let o = if h.bad {
        Outcome::Unreadable
    } else {
        shown(rt, name, s, line, h)?
    };
    say(rt, b"\n")?;
    Ok(o)
}

// Every expression of a text.
fn texts(rt: &impl Print, name: &[u8], s: &[u8], t: Totals) -> io::Result<Totals> {
    let mut sum = t;
    let mut line = 1;
    let mut at = 0;
    while at < s.len() {
        let e = end_of(s, at);
        let h = head_of(rt, name, &s[at..e], line)?;
        sum = counted(sum, expression(rt, name, &s[at..e], line, h)?);
        line = h.line;
        at = e;
    }
    Ok(sum)
}

// Whether a text begins with a byte order mark: that of UTF-8, or one of UTF-16.
fn is_marked(s: &[u8]) -> bool {
    matches!(
        s,
        [0xef, 0xbb, _, ..] | [0xff, 0xfe, _, ..] | [0xfe, 0xff, _, ..]
    )
}

fn text(rt: &impl Print, name: &[u8], s: &[u8], t: Totals) -> io::Result<Totals> {
    if is_marked(s) {
        say(rt, name)?;
        say(
            rt,
            b":1: the text begins with a byte order mark (BOM): save it as UTF-8 without one\n\n",
        )?;
        return Ok(counted(t, Outcome::Unreadable));
    }
    let sum = texts(rt, name, s, t)?;
    if sum == t {
        say(rt, name)?;
        say(rt, b":1: no expression in this text\n\n")?;
        return Ok(counted(t, Outcome::Unreadable));
    }
    Ok(sum)
}

// An error as the system says it: std puts its number behind it, in parentheses.
fn say_error(err: &impl Print, e: io::Error) -> io::Result<()> {
    let mut words = Cursor::new([0u8; 256]);
    write!(words, "{e} (")?;
    let said = words.into_inner();
    let end = find(&said, 0, b'(');
    if end == 0 {
        return Ok(());
    }
    say(err, &said[..end - 1])
}

fn say_failed(err: &impl Print, name: &[u8], e: io::Error) -> io::Result<()> {
    say(err, name)?;
    say(err, b": ")?;
    say_error(err, e)?;
    say(err, b"\n")
}

// A file that cannot be read, as the system says it. Where that cannot be written, the totals still tell of it.
fn failed(err: &impl Print, name: &[u8], e: io::Error, t: Totals) -> Totals {
    let _ = say_failed(err, name, e);
    counted(t, Outcome::Unreadable)
}

// A text that was read as far as there is room. One more read tells its end from a failure, and from a text that is too long.
fn ended(
    rt: &impl Print,
    err: &impl Print,
    name: &[u8],
    input: &mut impl Read,
    s: &[u8],
    t: Totals,
) -> io::Result<Totals> {
    let mut more = [0u8; 1];
    match input.read(&mut more) {
        Ok(0) => text(rt, name, s, t),
        Ok(_) => {
            say(rt, name)?;
            say(rt, b":1: the text has more than 262144 bytes\n\n")?;
            Ok(counted(t, Outcome::Unreadable))
        }
        Err(e) => Ok(failed(err, name, e, t)),
    }
}

// How many bytes were read, until the buffer is full or the input ends. replay_io's promises more, but the tool rests on no crate of the tests.
fn read_full(input: &mut impl Read, buf: &mut [u8]) -> io::Result<usize>
    ensures { IfOk result (λ n. n ≤ length buf.new) }
{
    let mut done = 0;
    while done < buf.len() {
        let n = input.read(&mut buf[done..])?;
        if n == 0 {
            break;
        }
        done += n;
    }
    Ok(done)
}

fn read_text(
    rt: &impl Print,
    err: &impl Print,
    name: &[u8],
    input: &mut impl Read,
    t: Totals,
) -> io::Result<Totals> {
    let mut buf = [0u8; TEXT];
    match read_full(input, &mut buf) {
        Ok(n) => ended(rt, err, name, input, &buf[..n], t),
        Err(e) => Ok(failed(err, name, e, t)),
    }
}

fn is_dash(name: &[u8]) -> bool {
    matches!(name, [b'-'])
}

// The number of the system's error for a name that it does not take.
const EINVAL: i32 = 22;

// The folder in which the command ./vosemaqe leaves links to files: a path is text here, and a name need not be.
const LINKS: &str = "VOSEMAQE_LINKS";

// The link i of a folder. The path is text up to its first byte of 0.
fn open_in<R: Files>(rt: &R, folder: &[u8], i: usize) -> io::Result<R::File> {
    let mut path = Cursor::new([0u8; PATH]);
    path.write_all(folder)?;
    write!(path, "/{i}")?;
    let name = path.into_inner();
    let end = find(&name, 0, 0);
    match str::from_utf8(&name[..end]) {
        Ok(link) => fs::open(rt, link),
        Err(_) => Err(io::Error::from_raw_os_error(EINVAL)),
    }
}

// The file to which the i-th argument's link leads.
fn open_link<R: Files + Env>(rt: &R, i: usize) -> io::Result<R::File> {
    let mut folder = [0u8; PATH];
    match rt.var(LINKS, &mut folder) {
        Ok(n) => open_in(rt, &folder[..n], i),
        Err(_) => Err(io::Error::from_raw_os_error(EINVAL)),
    }
}

fn open<R: Files + Env>(rt: &R, name: &[u8], i: usize) -> io::Result<R::File> {
    match str::from_utf8(name) {
        Ok(path) => fs::open(rt, path),
        Err(_) => open_link(rt, i),
    }
}

// The file of a name, which the i-th argument has.
fn read_named<R: Print + Input + Files + Env>(
    rt: &R,
    err: &impl Print,
    name: &[u8],
    i: usize,
    t: Totals,
) -> io::Result<Totals> {
    if is_dash(name) {
        let mut input = rt.reader();
        return read_text(rt, err, name, &mut input, t);
    }
    match open(rt, name, i) {
        Ok(mut file) => read_text(rt, err, name, &mut file, t),
        Err(e) => Ok(failed(err, name, e, t)),
    }
}

// The system's errors for an argument that is not there, and for one that is too long.
const ENAMETOOLONG: i32 = 36;

fn argument_error(e: FillError) -> io::Error {
    match e {
        FillError::NotPresent => io::Error::from_raw_os_error(EINVAL),
        FillError::TooLong => io::Error::from_raw_os_error(ENAMETOOLONG),
    }
}

// The file that the i-th argument names.
fn read_argument<R: Print + Input + Files + Env>(
    rt: &R,
    err: &impl Print,
    i: usize,
    t: Totals,
) -> io::Result<Totals> {
    let mut path = [0u8; PATH];
    match rt.arg(i, &mut path) {
        Ok(n) => read_named(rt, err, &path[..n], i, t),
        Err(e) => Ok(failed(err, b"argument", argument_error(e), t)),
    }
}

// How many arguments there are, the program's name with them.
fn arg_count(rt: &impl Env) -> usize {
    let mut first = [0u8; 1];
    for i in 0..usize::MAX {
        if let Err(FillError::NotPresent) = rt.arg(i, &mut first) {
            return i;
        }
    }
    usize::MAX
}

// The last line is what the command ./vosemaqe takes its exit status from.
fn say_totals(rt: &impl Print, t: Totals) -> io::Result<()> {
    tell(
        rt,
        b"total: % with a value, % refused, % stopped by a fault, % unreadable\n",
        &[t.values, t.refused, t.faults, t.unreadable],
    )
}

fn main(rt: HostRuntime) -> io::Result<()> {
    let err = rt.stderr();
    let n = arg_count(&rt);
    let mut t = Totals {
        values: 0,
        refused: 0,
        faults: 0,
        unreadable: 0,
    };
    if n < 2 {
        t = read_named(&rt, &err, b"-", 0, t)?;
    }
    for i in 1..n {
        t = read_argument(&rt, &err, i, t)?;
    }
    say_totals(&rt, t)
}
