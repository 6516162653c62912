// The text of an expression: what a line says; what its lines have said so far (`head`); its nodes and values (`gather`); which node a refusal is
// about (`why`).
#![tactic(auto)]

pub mod gather;
pub mod head;
pub mod why;

ghost use Rattle.std.specs.Prelude.{◌≡◌, [], map, ◌<◌, ◌≤◌, length, get_or};
ghost use Rattle.text.specs.Fields.{bytes, fields_of, place_of};
ghost use Rattle.reader.specs.Line.{first_words, value_words, read_of, real_of, payload_of, number_of, last_of};
ghost use Rattle.reader.specs.Line.{bare_of, plain_of, given_of, node_of, setting_of, pair_of, atom_of, value_of, end_of};
ghost use Rattle.reader.specs.Line.{word_of, kind_of, first_of, fields_line, line_of};

use text::decimal::{DecimalError, float};
use text::fields::{count, nth, nth_part, place_of};
use text::numeral::{NumeralError, int, unsigned};
use text::scan::find;

// Why a line cannot be read.
#[derive(Clone, Copy, Debug, PartialEq, Eq)]
pub enum Trouble {
    // No kind of node, and no other word that a line can begin with.
    NoSuchWord,
    // No number, or none that is taken.
    Number(DecimalError),
    Missing,
    // More fields than the line can have.
    TooMuch,
    // A first without a depth.
    HalfGiven,
    NoValue,
}

// Why a line cannot be read, and which field is at fault, counted from 0.
#[derive(Clone, Copy, Debug, PartialEq, Eq)]
pub struct Wrong {
    pub trouble: Trouble,
    pub field: usize,
}

// What a line says.
#[derive(Clone, Copy, Debug, PartialEq, Eq)]
pub enum Line {
    Nothing,
    // The end of an expression.
    End,
    // A title: all that follows on its line.
    Title,
    // A node by kind and payload; by kind, payload, first and depth.
    Node(u64, u64),
    Given(u64, u64, u64, u64),
    Params(u64),
    Locals(u64),
    Dest(u64),
    Budget(u64),
    // The value of the next register: the kind byte and the payload of a pair.
    Value(u8, u64),
}

#[tactic(auto, unfolding(crate::specs::Line::real_of))]
fn of_real(n: usize, r: Result<u64, DecimalError>) -> Result<u64, Wrong>
    ensures { result ≡ real_of n r }
{
    r.map_err(|e| Wrong {
        trouble: Trouble::Number(e),
        field: n,
    })
}

#[tactic(auto, unfolding(crate::specs::Line::read_of, crate::specs::Line::real_of))]
fn of_read(n: usize, r: Result<u64, NumeralError>) -> Result<u64, Wrong>
    ensures { result ≡ read_of n r }
{
    of_real(n, r.map_err(|e| DecimalError::from(e)))
}

// The payload of a kind, as text.
#[tactic(auto, unfolding(crate::specs::Line::payload_of))]
fn payload(n: usize, kind: u64, s: &[u8]) -> Result<u64, Wrong>
    ensures { result ≡ payload_of n kind s.now }
{
    match kind {
        table::INT => of_read(n, int(s)),
        table::FLOAT => of_real(n, float(s)),
        _ => of_read(n, unsigned(s)),
    }
}

// Field n as the payload of a kind.
#[tactic(auto, unfolding(crate::specs::Line::number_of))]
fn number_in(kind: u64, n: usize, s: &[u8]) -> Result<u64, Wrong>
    ensures { result ≡ number_of kind n (fields_of s.now) }
{
    if count(s) <= n {
        return Err(Wrong {
            trouble: Trouble::Missing,
            field: n,
        });
    }
    payload(n, kind, nth(s, n))
}

// The same of the line's last field.
#[tactic(auto, unfolding(crate::specs::Line::last_of))]
fn last_number(kind: u64, n: usize, s: &[u8]) -> Result<u64, Wrong>
    requires { n < 1000 }
    ensures { result ≡ last_of kind n (fields_of s.now) }
{
    if n + 1 < count(s) {
        return Err(Wrong {
            trouble: Trouble::TooMuch,
            field: n + 1,
        });
    }
    number_in(kind, n, s)
}

// A node that has its kind alone.
#[tactic(auto, unfolding(crate::specs::Line::bare_of))]
fn bare(kind: u64) -> Result<Line, Wrong>
    ensures { result ≡ bare_of kind }
{
    match kind {
        table::INT..=table::REF => Err(Wrong {
            trouble: Trouble::Missing,
            field: 1,
        }),
        _ => Ok(Line::Node(kind, 0)),
    }
}

#[tactic(auto, unfolding(crate::specs::Line::plain_of))]
fn plain(kind: u64, payload: Result<u64, Wrong>) -> Result<Line, Wrong>
    ensures { result ≡ plain_of kind payload }
{
    Ok(Line::Node(kind, payload?))
}

#[tactic(auto, unfolding(crate::specs::Line::given_of))]
fn given(
    kind: u64,
    payload: Result<u64, Wrong>,
    first: Result<u64, Wrong>,
    depth: Result<u64, Wrong>,
) -> Result<Line, Wrong>
    ensures { result ≡ given_of kind payload first depth }
{
    let p = payload?;
    let f = first?;
    let d = depth?;
    Ok(Line::Given(kind, p, f, d))
}

// A node by its fields, of which the first is its kind.
#[tactic(auto, unfolding(crate::specs::Line::node_of))]
fn node(kind: u64, s: &[u8]) -> Result<Line, Wrong>
    ensures { result ≡ node_of kind (fields_of s.now) }
{
    match count(s) {
        1 => bare(kind),
        2 => plain(kind, number_in(kind, 1, s)),
        3 => Err(Wrong {
            trouble: Trouble::HalfGiven,
            field: 2,
        }),
        4 => given(
            kind,
            number_in(kind, 1, s),
            number_in(table::REF, 2, s),
            number_in(table::REF, 3, s),
        ),
        _ => Err(Wrong {
            trouble: Trouble::TooMuch,
            field: 4,
        }),
    }
}

#[tactic(auto, unfolding(crate::specs::Line::setting_of))]
fn setting(word: usize, number: Result<u64, Wrong>) -> Result<Line, Wrong>
    ensures { result ≡ setting_of word number }
{
    let x = number?;
    Ok(match word {
        27 => Line::Params(x),
        28 => Line::Locals(x),
        29 => Line::Dest(x),
        _ => Line::Budget(x),
    })
}

#[tactic(auto, unfolding(crate::specs::Line::pair_of))]
fn pair(kind: u8, payload: Result<u64, Wrong>) -> Result<Line, Wrong>
    ensures { result ≡ pair_of kind payload }
{
    Ok(Line::Value(kind, payload?))
}

// A value that has no number.
#[tactic(auto, unfolding(crate::specs::Line::atom_of))]
fn atom(kind: u8, payload: u64, s: &[u8]) -> Result<Line, Wrong>
    ensures { result ≡ atom_of kind payload (fields_of s.now) }
{
    if 2 < count(s) {
        return Err(Wrong {
            trouble: Trouble::TooMuch,
            field: 2,
        });
    }
    Ok(Line::Value(kind, payload))
}

#[tactic(auto, unfolding(crate::specs::Line::value_of))]
fn value(place: Option<usize>, s: &[u8]) -> Result<Line, Wrong>
    ensures { result ≡ value_of place (fields_of s.now) }
{
    match place {
        Some(0) => atom(0, 0, s),
        Some(1) => atom(1, 1, s),
        Some(2) => atom(1, 0, s),
        Some(3) => pair(2, last_number(table::INT, 2, s)),
        Some(_) => pair(3, last_number(table::FLOAT, 2, s)),
        None => Err(Wrong {
            trouble: Trouble::NoValue,
            field: 1,
        }),
    }
}

// The kind of value that a line's second field names.
fn value_place(s: &[u8]) -> Option<usize>
    ensures { result ≡ place_of (get_or (fields_of s.now) 1 []) (map bytes value_words) }
{
    place_of(nth(s, 1), b"nil true false int float")
}

#[tactic(auto, unfolding(crate::specs::Line::end_of))]
fn end(s: &[u8]) -> Result<Line, Wrong>
    ensures { result ≡ end_of (fields_of s.now) }
{
    if 1 < count(s) {
        return Err(Wrong {
            trouble: Trouble::TooMuch,
            field: 1,
        });
    }
    Ok(Line::End)
}

// A line by the place of its first word.
#[tactic(auto, unfolding(crate::specs::Line::word_of))]
fn by_word(k: usize, s: &[u8]) -> Result<Line, Wrong>
    ensures { result ≡ word_of k (fields_of s.now) }
{
    match k {
        0..=26 => node(k as u64, s),
        27..=30 => setting(k, last_number(table::REF, 1, s)),
        31 => value(value_place(s), s),
        32 => Ok(Line::Title),
        _ => end(s),
    }
}

// A line by the number of a kind.
#[tactic(auto, unfolding(crate::specs::Line::kind_of))]
fn by_number(r: Result<u64, NumeralError>, s: &[u8]) -> Result<Line, Wrong>
    ensures { result ≡ kind_of r (fields_of s.now) }
{
    match r {
        Ok(k) => node(k, s),
        Err(NumeralError::NoNumber) => Err(Wrong {
            trouble: Trouble::NoSuchWord,
            field: 0,
        }),
        Err(NumeralError::TooLarge) => Err(Wrong {
            trouble: Trouble::Number(DecimalError::TooLarge),
            field: 0,
        }),
    }
}

// The place of a word among those that a line can begin with.
fn first_place(w: &[u8]) -> Option<usize>
    ensures { result ≡ place_of w.now (map bytes first_words) }
{
    place_of(
        w,
        b"nil true false int float ref minus not bit_and bit_or bit_xor lshift rshift add sub mul div mod \
          eq ne lt le gt ge and or ternary params locals dest budget local title ---",
    )
}

#[tactic(auto, unfolding(crate::specs::Line::first_of))]
fn by_place(place: Option<usize>, w: &[u8], s: &[u8]) -> Result<Line, Wrong>
    requires { w.now ≡ get_or (fields_of s.now) 0 [] }
    ensures { result ≡ first_of place (fields_of s.now) }
{
    match place {
        Some(k) => by_word(k, s),
        None => by_number(unsigned(w), s),
    }
}

// A line without its comment.
#[tactic(auto, unfolding(crate::specs::Line::fields_line))]
fn read_bare(s: &[u8]) -> Result<Line, Wrong>
    ensures { result ≡ fields_line (fields_of s.now) }
{
    if count(s) == 0 {
        return Ok(Line::Nothing);
    }
    let w = nth(s, 0);
    by_place(first_place(w), w, s)
}

// A line.
#[tactic(auto, unfolding(crate::specs::Line::line_of))]
pub fn read(s: &[u8]) -> Result<Line, Wrong>
    ensures { result ≡ line_of s.now }
{
    let e = find(s, 0, b'#');
    read_bare(&s[..e])
}

// Where the text of a title begins: after the first word of its line. A # in a title is no comment.
pub fn title_from(s: &[u8]) -> usize
    ensures { result ≤ length s.now }
{
    let e = find(s, 0, b'#');
    nth_part(&s[..e], 0).to
}
