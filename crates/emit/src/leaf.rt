// The leaves of an expression. A literal that fits the instruction goes inline, any other through a constant slot; a variable is in a register already.
ghost use Rattle.std.specs.Prelude.{◌≡◌, ℕ};
ghost use Rattle.table.specs.Table.{kind_at, payload_at};
ghost use Rattle.table.specs.Tree.{Leaf, leaf_kind, kind_of};
ghost use Rattle.emit.specs.Steps.{const_d, leaf_d};
ghost use Rattle.emit.specs.Read.{bufs, st_of, Fit, Says, LeafReady};

use crate::consts::{Constant, push_const};
use crate::state::{St, dest};
use crate::word::{FALSE, NIL, TRUE, put_load};
use faults::Fault;
use fold::literal::fits_imm40;
use insns::op::Imm40;

// Loads a constant that goes through a slot: its register first, then its slot, then its word.
fn gen_const(
    code: &mut [u64],
    kinds: &mut [u8],
    payloads: &mut [u64],
    constant: Constant,
    dst: Option<u16>,
    st: St,
) -> Result<(u16, St), Fault>
    requires { Fit (bufs code.old kinds.old payloads.old) st }
    ensures { Says (bufs code.new kinds.new payloads.new) result
        (const_d constant dst (st_of (bufs code.old kinds.old payloads.old) st)) }
{
    let (d, s) = dest(dst, st)?;
    push_const(code, kinds, payloads, constant, d, s)
}

// The leaf at node i. Immediates that fit the instruction go inline, the rest through a constant slot. A variable's value sits in its own register, so
// that register is handed back as it is (`gen_var_read` in the Rust).
pub fn gen_value(
    nodes: &[u64],
    code: &mut [u64],
    kinds: &mut [u8],
    payloads: &mut [u64],
    i: usize,
    dst: Option<u16>,
    st: St,
) -> Result<(u16, St), Fault>
    requires leaf_ready { LeafReady nodes.now i }
    requires fit { Fit (bufs code.old kinds.old payloads.old) st }
    ensures { (f : ℕ → Leaf) → kind_of (kind_at nodes.now i) ≡ leaf_kind f
        → Says (bufs code.new kinds.new payloads.new) result
        (leaf_d (f (payload_at nodes.now i)) dst (st_of (bufs code.old kinds.old payloads.old) st)) }
{
    let k = table::kind_at(nodes, i);
    let p = table::payload_at(nodes, i);
    match k {
        table::NIL => put_load(code, NIL, dst, st),
        table::TRUE => put_load(code, TRUE, dst, st),
        table::FALSE => put_load(code, FALSE, dst, st),
        table::INT => {
            let z = int64::sign::signed(p);
            if fits_imm40(z) {
                return put_load(code, Imm40 { raw: 4 * z }, dst, st);
            }
            gen_const(code, kinds, payloads, Constant::int(p), dst, st)
        }
        table::FLOAT => gen_const(code, kinds, payloads, Constant::float(p), dst, st),
        _ => Ok((p as u16, st)),
    }
}
