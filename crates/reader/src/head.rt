// What the lines of an expression have said so far.
ghost use Rattle.std.specs.Prelude.{◌≡◌, MatchOption};

use crate::{Line, Wrong};

// The most nodes of an expression that is shown. The library takes more (faults::MAX_NODES); a text of so many is for a program to write and not for a person
// to read, and room for its words would not fit on a stack beside the text.
pub const NODES: usize = 4096;

// A number that a line says, and the number of that line.
#[derive(Clone, Copy, Debug, PartialEq, Eq)]
pub struct Said {
    pub number: u64,
    pub line: u64,
}

#[derive(Clone, Copy, Debug, PartialEq, Eq)]
pub struct Head {
    // The number of the line that is read next, from 1.
    pub line: u64,
    // How many nodes and how many values of registers there are, and the line of the last node; 0 before the first.
    pub nodes: usize,
    pub values: usize,
    pub node_line: u64,
    pub params: Option<Said>,
    pub locals: Option<Said>,
    pub dest: Option<Said>,
    pub budget: Option<Said>,
    // The line of the title.
    pub title_line: Option<u64>,
    // Whether a line says anything, and whether one cannot be read.
    pub some: bool,
    pub bad: bool,
}

// Enough steps for the words of any expression: they jump forward only, and there is no room for more words.
const STEPS: u64 = 16384;

pub fn fresh(line: u64) -> Head {
    Head {
        line,
        nodes: 0,
        values: 0,
        node_line: 0,
        params: None,
        locals: None,
        dest: None,
        budget: None,
        title_line: None,
        some: false,
        bad: false,
    }
}

// What a line that can be read does not go with.
#[derive(Clone, Copy, Debug, PartialEq, Eq)]
pub enum Clash {
    // What was said before, and on which line.
    Twice(u64),
    // There are as many nodes as are shown.
    ManyNodes,
    // There are as many values as registers.
    ManyValues,
    // No destination has so large a number.
    NoRegister,
}

fn once(before: Option<Said>) -> Option<Clash> {
    before.map(|s| Clash::Twice(s.line))
}

fn dest_clash(h: Head, n: u64) -> Option<Clash> {
    if n == u64::MAX {
        return Some(Clash::NoRegister);
    }
    once(h.dest)
}

fn node_clash(h: Head) -> Option<Clash> {
    if NODES <= h.nodes {
        return Some(Clash::ManyNodes);
    }
    None
}

fn value_clash(h: Head) -> Option<Clash> {
    if faults::MAX_REGISTERS <= h.values as u64 {
        return Some(Clash::ManyValues);
    }
    None
}

pub fn clash_of(h: Head, l: Line) -> Option<Clash> {
    match l {
        Line::Node(_, _) | Line::Given(_, _, _, _) => node_clash(h),
        Line::Title => h.title_line.map(|line| Clash::Twice(line)),
        Line::Params(_) => once(h.params),
        Line::Locals(_) => once(h.locals),
        Line::Dest(n) => dest_clash(h, n),
        Line::Budget(_) => once(h.budget),
        Line::Value(_, _) => value_clash(h),
        Line::Nothing | Line::End => None,
    }
}

fn with_node(h: Head) -> Head {
    let nodes = if h.nodes < NODES {
        h.nodes + 1
    } else {
        h.nodes
    };
    Head {
        nodes,
        node_line: h.line,
        ..h
    }
}

fn with_value(h: Head) -> Head {
    let values = if h.values < 65535 {
        h.values + 1
    } else {
        h.values
    };
    Head { values, ..h }
}

// A number that the line which is read says.
fn from_line(h: Head, number: u64) -> Option<Said> {
    Some(Said {
        number,
        line: h.line,
    })
}

fn with(h: Head, l: Line) -> Head {
    match l {
        Line::Node(_, _) | Line::Given(_, _, _, _) => with_node(h),
        Line::Value(_, _) => with_value(h),
        Line::Dest(n) => Head {
            dest: from_line(h, n),
            ..h
        },
        Line::Params(n) => Head {
            params: from_line(h, n),
            ..h
        },
        Line::Locals(n) => Head {
            locals: from_line(h, n),
            ..h
        },
        Line::Budget(n) => Head {
            budget: from_line(h, n),
            ..h
        },
        Line::Title => Head {
            title_line: Some(h.line),
            ..h
        },
        Line::Nothing | Line::End => h,
    }
}

// Whether a line says something of an expression.
fn says(r: Result<Line, Wrong>) -> bool {
    !matches!(r, Ok(Line::Nothing | Line::End))
}

// The head after a line; `bad` where the line is at fault.
pub fn after(h: Head, r: Result<Line, Wrong>, bad: bool) -> Head {
    let t = match r {
        Ok(l) => with(h, l),
        Err(_) => h,
    };
    Head {
        line: h.line.saturating_add(1),
        some: h.some || says(r),
        bad: h.bad || bad,
        ..t
    }
}

fn number_or(s: Option<Said>, otherwise: u64) -> u64
    ensures { MatchOption s (result ≡ otherwise) (λ x. result ≡ x.number) }
{
    match s {
        Some(s) => s.number,
        None => otherwise,
    }
}

// How many parameters there are: none, where no line says.
pub fn params_of(h: Head) -> u64
    ensures { MatchOption h.params (result ≡ 0) (λ s. result ≡ s.number) }
{
    number_or(h.params, 0)
}

// How many steps the words may take.
pub fn budget_of(h: Head) -> u64
    ensures { MatchOption h.budget (result ≡ 16384) (λ s. result ≡ s.number) }
{
    number_or(h.budget, STEPS)
}

// How many locals there are: as many as a line says; else as many as make up for the values.
pub fn locals_of(h: Head) -> u64 {
    number_or(h.locals, (h.values as u64).saturating_sub(params_of(h)))
}

// Parameters and locals, where 64 bits hold their sum; a layout that they do not hold is refused before any node.
pub fn base_of(h: Head) -> u64 {
    params_of(h).saturating_add(locals_of(h))
}
