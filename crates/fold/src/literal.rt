// Literals by their size: fixnums, immediates of 16 and of 40 bits, a shift's amount, a mask of one run of ones.
ghost use Rattle.std.specs.Prelude.{◌≡◌, ltb};
ghost use Rattle.std.specs.Int.Signed.{mag};
ghost use Rattle.table.specs.Nodes.{Inner};
ghost use Rattle.table.specs.Tree.{tree};
ghost use Rattle.fold.specs.Literal.{bit_run, fits_imm40, lit_of, const_of, imm_of, as_imm16, amount_of};

use insns::op::Imm16;

// A mask that is one run of set bits, as the position of its lowest set bit and the length of the run. Runs of more than 62 bits are rejected, as in
// the Rust, where a mask must not need boxing; that it is a fixnum `const_value` has tested.
pub(crate) fn bit_run(mask: i64) -> Option<(u8, u8)>
    ensures { result ≡ bit_run mask }
{
    if mask <= 0 {
        return None;
    }
    let m = mask as u64;
    let lo = m.trailing_zeros();
    if 62 < lo {
        return None;
    }
    let x = m >> lo;
    let len = x.trailing_ones();
    let top = lo + len;
    if 62 < top {
        return None;
    }
    // Anything left above the run means that the set bits are not contiguous.
    if x >> len != 0 {
        return None;
    }
    Some((lo as u8, len as u8))
}

// The ranges of an immediate of 16 bits, of the Int in the immediate of load_imm40, and of a fixnum: -n to n - 1 of each n.
const IMM16: u64 = 32768;

const IMM40: u64 = 137438953472;

const FIXNUM: u64 = 2305843009213693952;

// Whether z is in the range -n to n - 1.
fn within(z: i64, n: u64) -> bool
    ensures { result ≡ ltb (mag z) n }
{
    insns::bits::magnitude(z) < n
}

// Whether an Int can be carried in the immediate field of load_imm40. The field holds the raw bits 4z and sign-extends, so an Int comes back only if
// the top bits of 4z are already the sign extension of the low 40: z has 38 bits.
pub fn fits_imm40(z: i64) -> bool
    ensures { result ≡ fits_imm40 z }
{
    within(z, IMM40)
}

// The Int literal at node i.
fn lit_of(nodes: &[u64], i: usize) -> Option<i64>
    requires { Inner nodes.now i 0 }
    ensures { result ≡ lit_of (tree nodes.now i) }
{
    if table::kind_at(nodes, i) == table::INT {
        return Some(int64::sign::signed(table::payload_at(nodes, i)));
    }
    None
}

// The fixnum that node i is known to hold at the time it is compiled. Callers that need it to fit in an instruction check that themselves, since
// whether it has to is a property of what they are emitting rather than of the node.
pub(crate) fn const_value(nodes: &[u64], i: usize) -> Option<i64>
    requires { Inner nodes.now i 0 }
    ensures { result ≡ const_of (tree nodes.now i) }
{
    let z = lit_of(nodes, i)?;
    if within(z, FIXNUM) {
        return Some(z);
    }
    None
}

// z as the immediate of an operator or of a branch.
pub(crate) fn imm_of(z: i64) -> Option<Imm16>
    ensures { result ≡ imm_of z }
{
    if within(z, IMM16) {
        return Some(Imm16 { n: z as i16 });
    }
    None
}

// An integer literal that fits the immediate that a compare and branch carries.
pub(crate) fn as_imm16(nodes: &[u64], i: usize) -> Option<Imm16>
    requires { Inner nodes.now i 0 }
    ensures { result ≡ as_imm16 (tree nodes.now i) }
{
    imm_of(lit_of(nodes, i)?)
}

// z as a shift's amount. Anything below the word size is accepted, which is what lets the instruction itself skip checking the amount.
pub(crate) fn amount_of(z: i64) -> Option<u8>
    ensures { result ≡ amount_of z }
{
    if z < 0 {
        return None;
    }
    if 63 < z {
        return None;
    }
    Some(z as u8)
}
