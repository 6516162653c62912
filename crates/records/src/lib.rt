// Thin entries over a lent slice of node records: the records are copied into words that the caller lends, and the word table's own
// routines do the rest, with the same answers. Records that are too many, or too many for the words lent, are refused before a word is written.
#![tactic(auto)]

ghost use Rattle.std.specs.Prelude.{◌≡◌, length};
ghost use Rattle.value.specs.Answer.{result_of};
ghost use Rattle.compile.specs.Buffers.{Compiles};
ghost use Rattle.records.specs.Records.{room_fault, words_of, flattened, check_nodes, evaluate_nodes, compile_nodes};

use compile::buffers::{Compiled, refuse};
use compile::compile;
use eval::evaluate;
use faults::Fault;
use table::check::check;
use value::Value;

// A node of a table: the four words of document 01, by name.
#[derive(Clone, Copy)]
pub struct Node {
    pub kind: u64,
    pub payload: u64,
    pub first: u64,
    pub depth: u64,
}

impl Node {
    fn words(self) -> [u64; 4]
        ensures { result ≡ words_of self }
    {
        [self.kind, self.payload, self.first, self.depth]
    }
}

// Of so many records into so many words: whether they are too many for any table, or the words have no room for them.
fn room_fault(nodes: usize, words: usize) -> Result<(), Fault>
    ensures { result ≡ room_fault nodes words }
{
    if faults::MAX_NODES < nodes {
        return Err(Fault::BadShape);
    }
    if words / 4 < nodes {
        return Err(Fault::NoRoom);
    }
    Ok(())
}

// Copies the records into the words, or refuses them and leaves the words as they are.
fn flatten(nodes: &[Node], words: &mut [u64]) -> Result<(), Fault>
    ensures answer { result ≡ room_fault (length nodes.now) (length words.old) }
    ensures words { words.new ≡ flattened nodes.now words.old }
{
    room_fault(nodes.len(), words.len())?;
    for (i, node) in nodes.iter().enumerate() {
        words[4 * i..4 * i + 4].copy_from_slice(&node.words());
    }
    Ok(())
}

// The check of a table of records with its layout and its destination: what `table::check::check` answers for the same nodes as words. The caller
// lends room for four words a record; `NoRoom` where that is too little.
pub fn check_nodes(
    nodes: &[Node],
    words: &mut [u64],
    params: u64,
    locals: u64,
    dest: Option<u64>,
) -> Result<(), Fault>
    ensures { (result ≡ check_nodes nodes.now (length words.old) params locals dest)
        × (words.new ≡ flattened nodes.now words.old) }
{
    flatten(nodes, words)?;
    check(&words[..4 * nodes.len()], params, locals, dest)
}

// The answer of a table of records on the values of its parameters and locals: what `eval::evaluate` gives for the same nodes as words.
// The caller lends room for four words a record; `NoRoom` where that is too little.
pub fn evaluate_nodes(
    nodes: &[Node],
    words: &mut [u64],
    params: u64,
    locals: u64,
    kinds: &[u8],
    payloads: &[u64],
) -> Result<Value, Fault>
    ensures { (result_of result
        ≡ evaluate_nodes nodes.now (length words.old) params locals kinds.now payloads.now)
        × (words.new ≡ flattened nodes.now words.old) }
{
    flatten(nodes, words)?;
    evaluate(&words[..4 * nodes.len()], params, locals, kinds, payloads)
}

// The compile of a table of records: what `compile` answers, and writes, for the same nodes as words. The caller lends room for
// four words a record; `NoRoom` where that is too little.
pub fn compile_nodes(
    nodes: &[Node],
    words: &mut [u64],
    params: u64,
    locals: u64,
    dest: Option<u64>,
    code: &mut [u64],
    kinds: &mut [u8],
    payloads: &mut [u64],
) -> Result<Compiled, Fault>
    ensures { (Compiles result (compile_nodes nodes.now (length words.old) params locals dest
        (length code.old) (length kinds.old) (length payloads.old))
        code.new kinds.new payloads.new
        (length code.old) (length kinds.old) (length payloads.old))
        × (words.new ≡ flattened nodes.now words.old) }
{
    match flatten(nodes, words) {
        Ok(()) => compile(
            &words[..4 * nodes.len()],
            params,
            locals,
            dest,
            code,
            kinds,
            payloads,
        ),
        Err(f) => refuse(f, code, kinds, payloads),
    }
}
