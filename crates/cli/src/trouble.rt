// A line that cannot be read: the file, the line, the word at fault, and why.
ghost use Rattle.std.specs.Prelude.{◌≤◌, length};

use print::{say, say_value, tell};
use reader::head::{Clash, Head, NODES, clash_of};
use reader::{Line, Trouble, Wrong, title_from};
use std::io;
use text::decimal::DecimalError;
use text::fields::{count, nth};
use text::scan::find;

// The file and the line, in front of a message.
pub fn say_at(rt: &impl Print, name: &[u8], line: u64) -> io::Result<()> {
    say(rt, name)?;
    tell(rt, b":%: ", &[line])
}

// Field n of a line.
fn say_field(rt: &impl Print, l: &[u8], n: usize) -> io::Result<()> {
    say(rt, b"'")?;
    say(rt, nth(l, n))?;
    say(rt, b"': ")
}

// Field n of a line, or its first where it has fewer.
fn say_word(rt: &impl Print, l: &[u8], n: usize) -> io::Result<()> {
    let e = find(l, 0, b'#');
    let bare = &l[..e];
    if count(bare) <= n {
        return say_field(rt, bare, 0);
    }
    say_field(rt, bare, n)
}

// The pattern after p, which is that of the next float away from zero.
fn next(p: u64) -> u64 {
    p.saturating_add(1)
}

fn say_between(rt: &impl Print, p: u64) -> io::Result<()> {
    say(
        rt,
        b"no float is equal to it; write the one that is meant: ",
    )?;
    say_value(rt, 3, p)?;
    say(rt, b" or ")?;
    say_value(rt, 3, next(p))
}

// Why 64 bits or a float do not hold what a word says.
fn say_number(rt: &impl Print, e: DecimalError) -> io::Result<()> {
    match e {
        DecimalError::NoNumber => say(
            rt,
            b"no number (digits, 0x and hexadecimal digits, or a decimal as -0.5; no plus sign, no exponent)",
        ),
        DecimalError::TooLarge => say(
            rt,
            b"64 bits do not hold this number \
              (an Int lies from -2^63 to 2^63 - 1; a larger float is written by its pattern, as 0x43f0000000000000)",
        ),
        DecimalError::TooLong => say(rt, b"more than 1100 digits after the point"),
        DecimalError::Between(p) => say_between(rt, p),
    }
}

fn say_trouble(rt: &impl Print, t: Trouble) -> io::Result<()> {
    match t {
        Trouble::NoSuchWord => say(
            rt,
            b"no kind of node, and no other word that a line can begin with",
        )?,
        Trouble::Number(e) => say_number(rt, e)?,
        Trouble::Missing => say(rt, b"a number is missing")?,
        Trouble::TooMuch => say(rt, b"more words than belong on this line")?,
        Trouble::HalfGiven => say(rt, b"first and depth are given together, or not at all")?,
        Trouble::NoValue => say(rt, b"a value is nil, true, false, int N or float X")?,
    }
    say(rt, b"\n")
}

// Whether a line contradicts those before it. If so, a message is written.
fn say_clash(
    rt: &impl Print,
    name: &[u8],
    l: &[u8],
    line: u64,
    clash: Option<Clash>,
) -> io::Result<bool> {
    let Some(c) = clash else {
        return Ok(false);
    };
    say_at(rt, name, line)?;
    say_word(rt, l, 0)?;
    match c {
        Clash::Twice(before) => tell(rt, b"said before, on line %", &[before])?,
        Clash::ManyValues => say(rt, b"more than 65535 values")?,
        Clash::NoRegister => say(rt, b"no register has so large a number")?,
        Clash::ManyNodes => tell(
            rt,
            b"more than % nodes: this tool shows no larger expression (the library takes up to %)",
            &[NODES as u64, faults::MAX_NODES as u64],
        )?,
    }
    say(rt, b"\n")?;
    Ok(true)
}

// Where a line ends, without the carriage return of a text with such line ends.
fn end_from(l: &[u8], from: usize) -> usize
    requires { from ≤ length l.now }
    ensures lower_bound { from ≤ result }
    ensures upper_bound { result ≤ length l.now }
{
    if l.len() == from {
        return from;
    }
    let last = l.len() - 1;
    if l[last] == b'\r' {
        return last;
    }
    l.len()
}

// A title is written as it stands.
fn say_title(rt: &impl Print, l: &[u8]) -> io::Result<()> {
    let from = title_from(l);
    let to = end_from(l, from);
    say(rt, b"==")?;
    say(rt, &l[from..to])?;
    say(rt, b"\n")
}

// Whether a line is at fault. If so, a message is written; a title is written too.
pub fn say_line(
    rt: &impl Print,
    name: &[u8],
    l: &[u8],
    h: Head,
    r: Result<Line, Wrong>,
) -> io::Result<bool> {
    match r {
        Err(w) => {
            say_at(rt, name, h.line)?;
            say_word(rt, l, w.field)?;
            say_trouble(rt, w.trouble)?;
            Ok(true)
        }
        Ok(Line::Title) => {
            if say_clash(rt, name, l, h.line, clash_of(h, Line::Title))? {
                return Ok(true);
            }
            say_title(rt, l)?;
            Ok(false)
        }
        Ok(said) => say_clash(rt, name, l, h.line, clash_of(h, said)),
    }
}
