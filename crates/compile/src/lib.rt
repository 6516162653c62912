// Compiling a node table: the check, the rules, and what is left in the lent buffers (`buffers`). These are the generator's entries: they answer on any
// words, and state every byte that they leave.
#![tactic(auto)]

pub mod buffers;

ghost use Rattle.std.specs.Prelude.{◌≡◌, ℕ, ◌+◌, ◌-◌, ◌*◌, ◌<◌, ◌≤◌, min, length, replicate, Ok};
ghost use Rattle.faults.specs.Limits.{max_nodes, max_registers};
ghost use Rattle.table.specs.Table.{node_count, temp_base_of, check_of};
ghost use Rattle.table.specs.Tree.{tree};
ghost use Rattle.emit.specs.Read.{bufs, Says};
ghost use Rattle.codegen.specs.Rules.{value_at};
ghost use Rattle.compile.specs.Buffers.{Compiles};
ghost use Rattle.compile.specs.Compile.{dst_of, root_d, start, generated, compile_of};
ghost use Rattle.compile.specs.Parts.{Root, IsRegister, Leaves};

use crate::buffers::{Compiled, finish, refuse};
use codegen::rules::{gen_code_inner, gen_into};
use emit::state::St;
use faults::Fault;

// The destination as the rules take it.
fn dst_of(dest: Option<u64>) -> Option<u16>
    requires { IsRegister dest }
    ensures { result ≡ dst_of dest }
{
    dest.map(|r| r as u16)
}

// The temporaries are placed above the variables, and never at register 0: the Rust reserves it, so that a function always makes the value stack grow
// (`Regs::new`).
fn temp_base(params: u64, locals: u64) -> u16
    requires { params + locals ≤ max_registers }
    ensures { result ≡ temp_base_of (params + locals) }
{
    let sum = params + locals;
    if sum == 0 { 1 } else { sum as u16 }
}

// The whole expression, in the register that is asked for, or in any.
fn root(
    nodes: &[u64],
    code: &mut [u64],
    kinds: &mut [u8],
    payloads: &mut [u64],
    jumps: &mut [u64],
    dst: Option<u16>,
    base: u16,
) -> Result<(u16, St), Fault>
    requires { Root nodes.now }
    ensures { Says (bufs code.new kinds.new payloads.new) result
        (root_d (value_at nodes.now (node_count nodes.now - 1)) dst (length jumps.old)
        (start (length code.old) (min (length kinds.old) (length payloads.old)) base)) }
{
    let i = nodes.len() / 4 - 1;
    let st = St {
        count: 0,
        slots: 0,
        next: base,
        frame: base,
    };
    match dst {
        None => gen_code_inner(nodes, code, kinds, payloads, jumps, i, None, st),
        Some(d) => gen_into(nodes, code, kinds, payloads, jumps, i, d, st),
    }
}

// A checked table, with a jump list. Kinds and payloads of unequal length: the shorter counts.
fn generate(
    nodes: &[u64],
    params: u64,
    locals: u64,
    dest: Option<u64>,
    code: &mut [u64],
    kinds: &mut [u8],
    payloads: &mut [u64],
    jumps: &mut [u64],
) -> Result<Compiled, Fault>
    requires { check_of nodes.now params locals dest ≡ Ok tt }
    ensures { Compiles result
        (generated (tree nodes.now (node_count nodes.now - 1)) dest (params + locals) (length jumps.old)
        (length code.old) (min (length kinds.old) (length payloads.old)))
        code.new kinds.new payloads.new
        (length code.old) (length kinds.old) (length payloads.old) }
{
    let x = root(
        nodes,
        code,
        kinds,
        payloads,
        jumps,
        dst_of(dest),
        temp_base(params, locals),
    );
    match x {
        Ok((r, s)) => finish(code, kinds, payloads, r, s),
        Err(f) => refuse(f, code, kinds, payloads),
    }
}

// Half as many places as a table has nodes are enough for its jumps (codegen's proofs/Room). So `compile` has four lists, for tables of up to FEW, SOME, MANY
// and MAX_NODES nodes, each in a routine of its own: a table takes the stack of one list, and the time to clear it.
const FEW: usize = 64;

const SOME: usize = 512;

const MANY: usize = 4096;

const PLACES_FOR_FEW: usize = FEW / 2;

const PLACES_FOR_SOME: usize = SOME / 2;

const PLACES_FOR_MANY: usize = MANY / 2;

const PLACES_FOR_ALL: usize = faults::MAX_NODES / 2;

// A checked table, with a jump list of so many places, which does not run out.
fn with<const PLACES: usize>(
    nodes: &[u64],
    params: u64,
    locals: u64,
    dest: Option<u64>,
    code: &mut [u64],
    kinds: &mut [u8],
    payloads: &mut [u64],
) -> Result<Compiled, Fault>
    requires dest_value { check_of nodes.now params locals dest ≡ Ok tt }
    requires nodes_bound { node_count nodes.now ≤ 2 * PLACES }
    requires places_bound { PLACES ≤ 32768 }
    ensures { Leaves result nodes.now params locals dest code.new kinds.new payloads.new
        (length code.old) (length kinds.old) (length payloads.old) }
{
    let mut jumps = [0u64; PLACES];
    let made = generate(
        nodes, params, locals, dest, code, kinds, payloads, &mut jumps,
    )?;
    // Part by part: an answer that is copied whole asks RISC-V's firmware for memcpy (docs/PORTING.md).
    Ok(Compiled {
        words: made.words,
        slots: made.slots,
        register: made.register,
        frame: made.frame,
    })
}

// A checked table with the list for `most` nodes, or, where it has more nodes, with a longer list. The compiler inlines a routine that is called once, which
// would put all four lists into one frame; but it inlines no large array into a routine that calls itself, as this one does (docs/STACK.md).
fn listed(
    most: usize,
    nodes: &[u64],
    params: u64,
    locals: u64,
    dest: Option<u64>,
    code: &mut [u64],
    kinds: &mut [u8],
    payloads: &mut [u64],
) -> Result<Compiled, Fault>
    requires dest_value { check_of nodes.now params locals dest ≡ Ok tt }
    requires most_nonzero { 0 < most }
    ensures { Leaves result nodes.now params locals dest code.new kinds.new payloads.new
        (length code.old) (length kinds.old) (length payloads.old) }
{
    let answer = if MANY < most {
        with::<PLACES_FOR_ALL>(nodes, params, locals, dest, code, kinds, payloads)
    } else if most < nodes.len() / 4 {
        listed(8 * most, nodes, params, locals, dest, code, kinds, payloads)
    } else if most <= FEW {
        with::<PLACES_FOR_FEW>(nodes, params, locals, dest, code, kinds, payloads)
    } else if most <= SOME {
        with::<PLACES_FOR_SOME>(nodes, params, locals, dest, code, kinds, payloads)
    } else {
        with::<PLACES_FOR_MANY>(nodes, params, locals, dest, code, kinds, payloads)
    };
    let made = answer?;
    // Part by part, as in `with`.
    Ok(Compiled {
        words: made.words,
        slots: made.slots,
        register: made.register,
        frame: made.frame,
    })
}

// Compiles a node table, with a jump list of its own that has room for every accepted table.
pub fn compile(
    nodes: &[u64],
    params: u64,
    locals: u64,
    dest: Option<u64>,
    code: &mut [u64],
    kinds: &mut [u8],
    payloads: &mut [u64],
) -> Result<Compiled, Fault>
    ensures { Compiles result
        (compile_of nodes.now params locals dest max_nodes
        (length code.old) (min (length kinds.old) (length payloads.old)))
        code.new kinds.new payloads.new
        (length code.old) (length kinds.old) (length payloads.old) }
{
    match table::check::check(nodes, params, locals, dest) {
        Ok(()) => listed(FEW, nodes, params, locals, dest, code, kinds, payloads),
        Err(f) => refuse(f, code, kinds, payloads),
    }
}

// The same with a jump list of the caller's, which is left zero. Refuses with `NoRoom` where the list runs out.
pub fn compile_with(
    nodes: &[u64],
    params: u64,
    locals: u64,
    dest: Option<u64>,
    code: &mut [u64],
    kinds: &mut [u8],
    payloads: &mut [u64],
    jumps: &mut [u64],
) -> Result<Compiled, Fault>
    ensures compiles { Compiles result
        (compile_of nodes.now params locals dest (length jumps.old)
        (length code.old) (min (length kinds.old) (length payloads.old)))
        code.new kinds.new payloads.new
        (length code.old) (length kinds.old) (length payloads.old) }
    ensures jumps_after { jumps.new ≡ replicate {A = ℕ} (length jumps.old) 0 }
{
    let made = match table::check::check(nodes, params, locals, dest) {
        Ok(()) => generate(nodes, params, locals, dest, code, kinds, payloads, jumps),
        Err(f) => refuse(f, code, kinds, payloads),
    };
    jumps.fill(0);
    made
}
