// The fields of a line, and the words of a table of names.
ghost use Rattle.std.specs.Prelude.{◌≡◌, false, [], ◌∷◌, ◌++◌, ◌-◌, ◌<◌, ◌≤◌, length, get_or, take, drop, MatchOption, IfSome};
ghost use Rattle.text.specs.Fields.{is_blank, fields_of, StandsIn, place_of};
ghost use Rattle.text.specs.Scan.{lead};

// A field by where it begins and ends; the two are one place where there is none.
#[derive(Clone, Copy, Debug, PartialEq, Eq)]
pub struct Part {
    pub from: usize,
    pub to: usize,
}

#[tactic(auto, unfolding(crate::specs::Fields::is_blank))]
fn is_blank(b: u8) -> bool
    ensures { result ≡ is_blank b }
{
    matches!(b, b' ' | b'\t' | b'\r')
}

// How many bytes stand before the first that is blank, or is not, as asked.
fn lead(s: &[u8], blank: bool) -> usize
    ensures value { result ≡ lead blank s.now }
    ensures upper_bound { result ≤ length s.now }
{
    s.iter()
        .position(|b| is_blank(*b) == blank)
        .unwrap_or(s.len())
}

// The first field and what stands behind it; None where there is no field.
pub fn next_field(s: &[u8]) -> Option<(&[u8], &[u8])>
    ensures fields { MatchOption result (fields_of s.now ≡ []) (λ p. fields_of s.now ≡ p.0.now ∷ fields_of p.1.now) }
    ensures shorter { IfSome result (λ p. length p.1.now < length s.now) }
    ensures place { IfSome result (λ p. s.now ≡ take (lead false s.now) s.now ++ p.0.now ++ p.1.now) }
{
    let s = &s[lead(s, false)..];
    if s.is_empty() {
        return None;
    }
    Some(s.split_at(lead(s, true)))
}

// Where field n of a line stands, counted from 0; an empty part where there are fewer.
#[tactic(auto, using(crate::proofs::fields::Scanning::nths))]
pub fn nth_part(s: &[u8], n: usize) -> Part
    ensures s_value { take (result.to - result.from) (drop result.from s.now) ≡ get_or (fields_of s.now) n [] }
    ensures from_le_to { (result.from ≤ result.to) × (result.to ≤ length s.now) }
{
    let none = Part {
        from: s.len(),
        to: s.len(),
    };
    let mut rest = s;
    for _ in 0..n {
        let Some((_, after)) = next_field(rest) else {
            return none;
        };
        rest = after;
    }
    let Some((field, after)) = next_field(rest) else {
        return none;
    };
    let to = s.len() - after.len();
    Part {
        from: to - field.len(),
        to,
    }
}

// Field n of a line, counted from 0; empty where there are fewer.
pub fn nth(s: &[u8], n: usize) -> &[u8]
    ensures value { result.now ≡ get_or (fields_of s.now) n [] }
    ensures place { StandsIn s.now result.now }
{
    let p = nth_part(s, n);
    &s[p.from..p.to]
}

// How many fields a line has.
pub fn count(s: &[u8]) -> usize
    ensures { result ≡ length (fields_of s.now) }
{
    let mut rest = s;
    let mut n = 0;
    while let Some((_, after)) = next_field(rest) {
        rest = after;
        n += 1;
    }
    n
}

// Which word of a table s is, counted from 0. The words of a table are the fields of one text.
#[tactic(auto, using(crate::proofs::fields::Scanning::places), unfolding(crate::specs::Fields::place_of))]
pub fn place_of(s: &[u8], table: &[u8]) -> Option<usize>
    ensures { result ≡ place_of s.now (fields_of table.now) }
{
    let mut rest = table;
    let mut n: usize = 0;
    while let Some((word, after)) = next_field(rest) {
        if word == s {
            return Some(n);
        }
        rest = after;
        n += 1;
    }
    None
}
