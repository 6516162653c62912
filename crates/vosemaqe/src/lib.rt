// The library for C and Rust callers. Each function calls the routine of its name, returns the number of the answer and leaves the
// results in the caller's cells. include/vosemaqe.h is the manual.
#![tactic(auto)]

mod results;

ghost use Rattle.std.specs.Prelude.{◌≡◌, ℕ, length, replicate};
ghost use Rattle.faults.specs.Numbers.{number_of};
ghost use Rattle.faults.specs.Limits.{max_nodes};
ghost use Rattle.table.specs.Table.{check_of};
ghost use Rattle.table.specs.Complete.{complete_of};
ghost use Rattle.eval.specs.Evaluate.{evaluate_of};
ghost use Rattle.machine.specs.Run.{run_of, run_part_of};
ghost use Rattle.decode.specs.Decode.{decode_of};
ghost use Rattle.decode.specs.Patch.{patch_of};
ghost use Rattle.operands.specs.OfOp.{plain};
ghost use Rattle.operands.specs.Encode.{encode_of};
ghost use Rattle.vosemaqe.specs.Results.{dest_of, report, CompilesTo, evaluated, evaluated_of, ended, ended_of, operands, operands_of, encoded, encoded_of};

use crate::results::{Encoded, Evaluated, Operands, Report, dest_of};
use compile::{compile, compile_with};
use decode::decode;
use decode::patch::patch;
use eval::evaluate;
use faults::number_of;
use operands::encode::encode;
use run::{run, run_part};
use table::check::check;
use table::complete::complete;

// 10000 * major + 100 * minor + patch: the header's, CHANGELOG's and the Rust crate's too.
pub const VERSION: u32 = 100;

// So that a program can tell whether it was compiled with the header of the archive that it is linked with.
#[unsafe(no_mangle)]
pub extern "C" fn vosemaqe_version() -> u32
    ensures { result ≡ 100 }
{
    VERSION
}

// Fills in first and depth, so that whoever writes a table need not count.
#[unsafe(no_mangle)]
pub extern "C" fn vosemaqe_complete(nodes: &mut [u64])
    ensures { nodes.new ≡ complete_of nodes.old }
{
    complete(nodes);
}

// The number of a table with its layout and its destination.
#[unsafe(no_mangle)]
pub extern "C" fn vosemaqe_check(nodes: &[u64], params: u64, locals: u64, dest: u64) -> u8
    ensures { result ≡ number_of (check_of nodes.now params locals (dest_of dest)) }
{
    number_of(check(nodes, params, locals, dest_of(dest)))
}

// Compiles a node table. The jump list is on the stack, with room for the jumps of every accepted table.
#[unsafe(no_mangle)]
pub extern "C" fn vosemaqe_compile(
    nodes: &[u64],
    params: u64,
    locals: u64,
    dest: u64,
    code: &mut [u64],
    slot_kinds: &mut [u8],
    slot_payloads: &mut [u64],
    words: &mut u64,
    slots: &mut u64,
    reg: &mut u64,
    frame: &mut u64,
) -> u8
    ensures { CompilesTo nodes.now params locals dest max_nodes
        code.old slot_kinds.old slot_payloads.old
        (report result words.new slots.new reg.new frame.new)
        code.new slot_kinds.new slot_payloads.new }
{
    let c = compile(
        nodes,
        params,
        locals,
        dest_of(dest),
        code,
        slot_kinds,
        slot_payloads,
    );
    let r = Report::from(c);
    *words = r.words;
    *slots = r.slots;
    *reg = r.register;
    *frame = r.frame;
    r.number
}

// The same with a jump list of the caller's, for callers whose stack is small; it is left zero.
#[unsafe(no_mangle)]
pub extern "C" fn vosemaqe_compile_with(
    nodes: &[u64],
    params: u64,
    locals: u64,
    dest: u64,
    code: &mut [u64],
    slot_kinds: &mut [u8],
    slot_payloads: &mut [u64],
    jumps: &mut [u64],
    words: &mut u64,
    slots: &mut u64,
    reg: &mut u64,
    frame: &mut u64,
) -> u8
    ensures compiles_to { CompilesTo nodes.now params locals dest (length jumps.old)
        code.old slot_kinds.old slot_payloads.old
        (report result words.new slots.new reg.new frame.new)
        code.new slot_kinds.new slot_payloads.new }
    ensures jumps_after { jumps.new ≡ replicate {A = ℕ} (length jumps.old) 0 }
{
    let c = compile_with(
        nodes,
        params,
        locals,
        dest_of(dest),
        code,
        slot_kinds,
        slot_payloads,
        jumps,
    );
    let r = Report::from(c);
    *words = r.words;
    *slots = r.slots;
    *reg = r.register;
    *frame = r.frame;
    r.number
}

// The value of a node table on its locals.
#[unsafe(no_mangle)]
pub extern "C" fn vosemaqe_evaluate(
    nodes: &[u64],
    params: u64,
    locals: u64,
    kinds: &[u8],
    payloads: &[u64],
    kind: &mut u64,
    payload: &mut u64,
) -> u8
    ensures { evaluated result kind.new payload.new
        ≡ evaluated_of (evaluate_of nodes.now params locals kinds.now payloads.now) }
{
    let r = Evaluated::from(evaluate(nodes, params, locals, kinds, payloads));
    *kind = r.kind;
    *payload = r.payload;
    r.number
}

// Runs the words from a start on, at most `budget` steps.
#[unsafe(no_mangle)]
pub extern "C" fn vosemaqe_run(
    words: &[u64],
    start: usize,
    kinds: &mut [u8],
    payloads: &mut [u64],
    slot_kinds: &[u8],
    slot_payloads: &[u64],
    budget: u64,
    steps: &mut u64,
    position: &mut u64,
) -> u8
    ensures { ended result steps.new position.new kinds.new payloads.new
        ≡ ended_of (run_of words.now slot_kinds.now slot_payloads.now budget start kinds.old payloads.old) }
{
    let r = run(
        words,
        start,
        kinds,
        payloads,
        slot_kinds,
        slot_payloads,
        budget,
    );
    *steps = r.steps;
    *position = r.position as u64;
    number_of(r.end)
}

// Runs the words of a store from an entry to an end: several compiled expressions can share one store. A position counts from the entry.
#[unsafe(no_mangle)]
pub extern "C" fn vosemaqe_run_part(
    store: &[u64],
    entry: usize,
    end: usize,
    kinds: &mut [u8],
    payloads: &mut [u64],
    slot_kinds: &[u8],
    slot_payloads: &[u64],
    budget: u64,
    steps: &mut u64,
    position: &mut u64,
) -> u8
    ensures { ended result steps.new position.new kinds.new payloads.new
        ≡ ended_of (run_part_of store.now entry end slot_kinds.now slot_payloads.now budget
        kinds.old payloads.old) }
{
    let r = run_part(
        store,
        entry,
        end,
        kinds,
        payloads,
        slot_kinds,
        slot_payloads,
        budget,
    );
    *steps = r.steps;
    *position = r.position as u64;
    number_of(r.end)
}

// The opcode and the operands of a word.
#[unsafe(no_mangle)]
pub extern "C" fn vosemaqe_decode(
    word: u64,
    opcode: &mut u64,
    a: &mut u64,
    b: &mut u64,
    c: &mut u64,
    d: &mut u64,
    e: &mut u64,
) -> u8
    ensures { operands result (plain opcode.new a.new b.new c.new d.new e.new)
        ≡ operands_of (decode_of word) }
{
    let r = Operands::from(decode(word));
    let p = r.plain;
    *opcode = p.opcode;
    *a = p.a;
    *b = p.b;
    *c = p.c;
    *d = p.d;
    *e = p.e;
    r.number
}

// The word of an opcode and its operands.
#[unsafe(no_mangle)]
pub extern "C" fn vosemaqe_encode(
    opcode: u64,
    a: u64,
    b: u64,
    c: u64,
    d: u64,
    e: u64,
    word: &mut u64,
) -> u8
    ensures { encoded result word.new ≡ encoded_of (encode_of opcode a b c d e) }
{
    let r = Encoded::from(encode(opcode, a, b, c, d, e));
    *word = r.word;
    r.number
}

// Aims the branch at a position at a target.
#[unsafe(no_mangle)]
pub extern "C" fn vosemaqe_patch(words: &mut [u64], at: usize, target: u64) -> u8
    ensures { (result ≡ number_of (patch_of words.old at target).answer)
        × (words.new ≡ (patch_of words.old at target).words) }
{
    number_of(patch(words, at, target))
}
