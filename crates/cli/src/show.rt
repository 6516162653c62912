// An expression that could be read: its words, and the values that the tree and the words give.
use crate::list::list_words;
use crate::trouble::say_at;
use crate::why::say_where;
use compile::buffers::Compiled;
use faults::Fault;
use machine::run::Ran;
use print::{say, say_value, tell};
use reader::gather::put_spans;
use reader::head::{Head, NODES, Said, base_of, budget_of, locals_of, params_of};
use std::io;
use value::Value;
use value::pairs::{Pairs, PairsMut};

// What became of an expression.
#[derive(Clone, Copy)]
pub enum Outcome {
    Value,
    Refused,
    Fault,
    Unreadable,
    Nothing,
}

// Room for words and for constants: of as many nodes as are shown there are at most four times as many words, and no more constants than nodes.
const WORDS: usize = 4 * NODES;

const SLOTS: usize = NODES;

fn dest_of(d: Option<Said>) -> Option<u64> {
    d.map(|said| said.number)
}

// What a fault means.
fn meaning(f: Fault) -> &'static [u8] {
    match f {
        Fault::BadShape => b"table empty, not a multiple of 4 words, or over 65536 nodes",
        Fault::BadNode => {
            b"unknown kind, non-zero payload, a Float that is not finite, missing child, wrong first or depth, or the last node's first is not 0"
        }
        Fault::TooDeep => b"depth over 200",
        Fault::NotLocal => b"Ref or destination not below the base",
        Fault::NoRegister => b"parameters plus locals, or an allocation, pass 65535 registers",
        Fault::NoSlot => b"no constant slot left",
        Fault::NoRoom => b"no room for a word",
        Fault::TooFar => b"displacement outside its field",
        Fault::NoFit => b"an operand does not fit its field",
        Fault::Undecoded => b"a word that does not decode",
        Fault::NotBranch => b"the word is not a branch",
        Fault::NoWord => b"no word at the branch position",
        Fault::WrongKind => b"wrong kind of value",
        Fault::Overflow => b"integer result outside 64 bits signed",
        Fault::ModByZero => b"Mod by zero",
        Fault::NotExact =>
            b"Int outside -2^53..2^53 meets a Float in Add, Sub or Mul, or stands in Div",
        Fault::BadShift => b"shift amount outside 0..63",
        Fault::BudgetSpent => b"budget spent",
        Fault::OutOfRange => b"register, slot or taken target out of range",
        Fault::PanicWord => b"panic word",
        Fault::NotRun => b"opcode not run here",
        Fault::IllFormed => b"ill-formed value lent",
    }
}

// The line's end, with what the fault means.
fn say_meaning(rt: &impl Print, f: Fault) -> io::Result<()> {
    say(rt, b": ")?;
    say(rt, meaning(f))?;
    say(rt, b"\n")
}

fn say_refused(rt: &impl Print, f: Fault) -> io::Result<()> {
    tell(rt, b"refused with %", &[u64::from(f.number())])?;
    say_meaning(rt, f)
}

fn say_layout(rt: &impl Print, h: Head) -> io::Result<()> {
    tell(
        rt,
        b"nodes %, parameters %, locals %",
        &[h.nodes as u64, params_of(h), locals_of(h)],
    )?;
    match h.dest {
        Some(d) => tell(rt, b", destination r%\n", &[d.number]),
        None => say(rt, b", no destination\n"),
    }
}

// Each pair, after its number: a register that is given a value, or a constant.
fn list_pairs(rt: &impl Print, before: &[u8], pairs: Pairs<'_>) -> io::Result<()> {
    for (i, (kind, payload)) in pairs.kinds.iter().zip(pairs.payloads).enumerate() {
        tell(rt, before, &[i as u64])?;
        say_value(rt, *kind, *payload)?;
        say(rt, b"\n")?;
    }
    Ok(())
}

fn list(
    rt: &impl Print,
    words: &[u64],
    slots: Pairs<'_>,
    register: u16,
    frame: u16,
) -> io::Result<()> {
    say(rt, b"words:\n")?;
    list_words(rt, words)?;
    if slots.kinds.len() != 0 {
        say(rt, b"constants:\n")?;
        list_pairs(rt, b"&  ", slots)?;
    }
    tell(
        rt,
        b"result in r%, frame of %\n",
        &[register as u64, frame as u64],
    )
}

// Whether the tree has a value.
fn say_tree(rt: &impl Print, a: Result<Value, Fault>) -> io::Result<bool> {
    match a {
        Ok(v) => {
            say_value(rt, value::kind_of(v), value::payload_of(v))?;
            say(rt, b"\n")?;
            Ok(true)
        }
        Err(f) => {
            tell(rt, b"fault %", &[u64::from(f.number())])?;
            say_meaning(rt, f)?;
            Ok(false)
        }
    }
}

// The values that are given, and the tree's answer.
fn say_evaluated(
    rt: &impl Print,
    nodes: &[u64],
    registers: Pairs<'_>,
    h: Head,
) -> io::Result<bool> {
    let n = h.values.min(registers.kinds.len());
    let values = Pairs {
        kinds: &registers.kinds[..n],
        payloads: registers.payloads,
    };
    say(rt, b"values:\n")?;
    list_pairs(rt, b"  r% = ", values)?;
    say(rt, b"tree:  ")?;
    say_tree(
        rt,
        eval::evaluate(
            nodes,
            params_of(h),
            locals_of(h),
            values.kinds,
            values.payloads,
        ),
    )
}

fn say_steps(rt: &impl Print, n: u64) -> io::Result<()> {
    if n == 1 {
        return say(rt, b" after 1 step");
    }
    tell(rt, b" after % steps", &[n])
}

// The value of a register.
fn say_register(rt: &impl Print, registers: Pairs<'_>, register: usize) -> io::Result<()> {
    if let Some((kind, payload)) = registers.get(register) {
        say_value(rt, kind, payload)?;
    }
    tell(rt, b" in r%", &[register as u64])
}

// Whether the words end with a value.
fn say_run(rt: &impl Print, r: Ran, registers: Pairs<'_>, register: usize) -> io::Result<bool> {
    if let Err(f) = r.end {
        tell(
            rt,
            b"fault % at word %",
            &[u64::from(f.number()), r.position as u64],
        )?;
        say_steps(rt, r.steps)?;
        say_meaning(rt, f)?;
        return Ok(false);
    }
    say_register(rt, registers, register)?;
    say_steps(rt, r.steps)?;
    say(rt, b"\n")?;
    Ok(true)
}

// The words' answer. Registers past the values are Nil before a run.
fn run(
    rt: &impl Print,
    words: &[u64],
    slots: Pairs<'_>,
    registers: &mut PairsMut<'_>,
    made: Compiled,
    budget: u64,
) -> io::Result<bool> {
    let n = usize::from(made.frame).min(registers.kinds.len());
    let r = run::run(
        words,
        0,
        &mut registers.kinds[..n],
        registers.payloads,
        slots.kinds,
        slots.payloads,
        budget,
    );
    say_run(rt, r, registers.shared(), usize::from(made.register))
}

// Whether each parameter and local has a value. Without them the words are not run, which is told.
fn is_ready(rt: &impl Print, h: Head) -> io::Result<bool> {
    say(rt, b"words: ")?;
    if base_of(h) <= h.values as u64 {
        return Ok(true);
    }
    tell(
        rt,
        b"not run: % of % registers have a value\n",
        &[h.values as u64, base_of(h)],
    )?;
    Ok(false)
}

fn joint(tree: bool, words: bool) -> Outcome {
    if tree && words {
        Outcome::Value
    } else {
        Outcome::Fault
    }
}

// The words that were made, then the answers.
fn answers(
    rt: &impl Print,
    made: Compiled,
    nodes: &[u64],
    words: &[u64],
    slots: Pairs<'_>,
    registers: &mut PairsMut<'_>,
    h: Head,
) -> io::Result<Outcome> {
    list(rt, words, slots, made.register, made.frame)?;
    let tree = say_evaluated(rt, nodes, registers.shared(), h)?;
    if is_ready(rt, h)? {
        let ran = run(rt, words, slots, registers, made, budget_of(h))?;
        return Ok(joint(tree, ran));
    }
    Ok(Outcome::Fault)
}

// What compiling gave: a refusal, or as many words and constants as there are.
fn compiled(
    rt: &impl Print,
    c: Result<Compiled, Fault>,
    nodes: &[u64],
    words: &[u64],
    slots: Pairs<'_>,
    registers: &mut PairsMut<'_>,
    h: Head,
) -> io::Result<Outcome> {
    let made = match c {
        Ok(made) => made,
        Err(f) => {
            say_refused(rt, f)?;
            return Ok(Outcome::Refused);
        }
    };
    let w = made.words.min(words.len());
    let k = made.slots.min(slots.kinds.len());
    let filled = Pairs {
        kinds: &slots.kinds[..k],
        payloads: slots.payloads,
    };
    answers(rt, made, nodes, &words[..w], filled, registers, h)
}

// The words, in room for those of every table that is shown.
fn compile(
    rt: &impl Print,
    nodes: &[u64],
    registers: &mut PairsMut<'_>,
    h: Head,
) -> io::Result<Outcome> {
    let mut code = [0u64; WORDS];
    let mut slot_kinds = [0u8; SLOTS];
    let mut slot_payloads = [0u64; SLOTS];
    let c = compile::compile(
        nodes,
        params_of(h),
        locals_of(h),
        dest_of(h.dest),
        &mut code,
        &mut slot_kinds,
        &mut slot_payloads,
    );
    let slots = Pairs {
        kinds: &slot_kinds,
        payloads: &slot_payloads,
    };
    compiled(rt, c, nodes, &code, slots, registers, h)
}

// The check of a table that is completed, with the first and depth that were given. One that is refused is completed again.
fn check(s: &[u8], nodes: &mut [u64], h: Head) -> Result<(), Fault> {
    table::complete::complete(nodes);
    put_spans(s, nodes);
    let checked = table::check::check(nodes, params_of(h), locals_of(h), dest_of(h.dest));
    if checked.is_err() {
        table::complete::complete(nodes);
    }
    checked
}

// Where an expression begins: the second line of a refusal that is about the whole of it.
fn say_from(rt: &impl Print, name: &[u8], line: u64) -> io::Result<()> {
    say(rt, b"  ")?;
    say_at(rt, name, line)?;
    say(rt, b"the expression that begins here\n")
}

// The fault that the check found, then the node that has it; for 1 and 5, where the expression begins.
fn refuse(
    rt: &impl Print,
    f: Fault,
    name: &[u8],
    s: &[u8],
    line: u64,
    nodes: &[u64],
    h: Head,
) -> io::Result<()> {
    say_refused(rt, f)?;
    match f {
        Fault::BadNode | Fault::TooDeep | Fault::NotLocal => say_where(rt, name, nodes, s, line, h),
        _ => say_from(rt, name, line),
    }
}

// A table of as many nodes as there are.
fn show_table(
    rt: &impl Print,
    name: &[u8],
    s: &[u8],
    line: u64,
    nodes: &mut [u64],
    registers: &mut PairsMut<'_>,
    h: Head,
) -> io::Result<Outcome> {
    if let Err(f) = check(s, nodes, h) {
        refuse(rt, f, name, s, line, nodes, h)?;
        return Ok(Outcome::Refused);
    }
    let o = compile(rt, nodes, registers, h)?;
    if let Outcome::Refused = o {
        say_from(rt, name, line)?;
    }
    Ok(o)
}

// An expression that can be read, and whose text begins on a line.
pub fn show(
    rt: &impl Print,
    name: &[u8],
    s: &[u8],
    line: u64,
    nodes: &mut [u64],
    registers: &mut PairsMut<'_>,
    h: Head,
) -> io::Result<Outcome> {
    let room = (4 * h.nodes.min(NODES)).min(nodes.len());
    say_layout(rt, h)?;
    show_table(rt, name, s, line, &mut nodes[..room], registers, h)
}
