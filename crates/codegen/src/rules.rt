// The value, branch and move rules, which call one another as in the Rust. Each emits what the tree at node i of an accepted table asks for. What follows
// the last call of a rule is done in a routine of `emit` that calls no rule, so that little is carried across a call. `gen_operand`, `gen_jumps` and
// `gen_not` are calls in routines of their own: the compiler inlines them, and then the stack slots of one call serve the next too (docs/STACK.md).
ghost use Rattle.std.specs.Prelude.{◌≤◌, length, take};
ghost use Rattle.emit.specs.Read.{bufs};
ghost use Rattle.codegen.specs.Gen.{into_d};
ghost use Rattle.codegen.specs.Rules.{value_at, branch_at, arms_at, Ready, GivesValue, GivesJumps};
ghost use Rattle.codegen.specs.Rules.{IsOperator, IsGeneral, IsCondition, IsTernary, IsNot, IsTest, IsPair, IsJunction};

use emit::jump::{gen_bool, join, jump_one, jump_pair, settle, turn};
use emit::leaf::gen_value;
use emit::state::{St, dest};
use emit::word::{put_mov, put_tail, put_three};
use faults::Fault;
use fold::opcodes::{cmp_branch, is_junction, three_of};
use fold::{fold_of, operand_of, test_of};

// Generates the value of node i, and answers the register that holds it. `dst` is a hint: an expression that has to write somewhere writes there, but one
// whose value already sits in a register hands that register back untouched. Callers that need the value in a specific register go through `gen_into`.
// A condition used as a value is built from the branch that it would compile to, so that the two shapes agree (`is_cond_op` in the Rust: kinds 18 to 25).
#[cycle(generator)]
pub fn gen_code_inner(
    nodes: &[u64],
    code: &mut [u64],
    kinds: &mut [u8],
    payloads: &mut [u64],
    jumps: &mut [u64],
    i: usize,
    dst: Option<u16>,
    st: St,
) -> Result<(u16, St), Fault>
    requires { Ready nodes.now (bufs code.old kinds.old payloads.old) i st }
    ensures { GivesValue nodes code kinds payloads jumps st result (value_at nodes.now i dst) }
{
    let k = table::kind_at(nodes, i);
    if k <= table::REF {
        return gen_value(nodes, code, kinds, payloads, i, dst, st);
    }
    if k <= table::MOD {
        return gen_operator(nodes, code, kinds, payloads, jumps, i, dst, st);
    }
    if k <= table::OR {
        return gen_cond_value(nodes, code, kinds, payloads, jumps, i, dst, st);
    }
    gen_ternary(nodes, code, kinds, payloads, jumps, i, dst, st)
}

// An operand: the value of node i, in any register. Never the destination, which may be a local that an operand still to come reads.
#[cycle(generator)]
fn gen_operand(
    nodes: &[u64],
    code: &mut [u64],
    kinds: &mut [u8],
    payloads: &mut [u64],
    jumps: &mut [u64],
    i: usize,
    st: St,
) -> Result<(u16, St), Fault>
    requires { Ready nodes.now (bufs code.old kinds.old payloads.old) i st }
    ensures { GivesValue nodes code kinds payloads jumps st result (value_at nodes.now i None) }
{
    gen_code_inner(nodes, code, kinds, payloads, jumps, i, None, st)
}

// An operator that is no condition, Minus and Not included (`gen_bin_op` in the Rust has the binary ones): its one operand and the instruction that takes in
// the rest, or, if no immediate fits, the general form.
#[cycle(generator)]
fn gen_operator(
    nodes: &[u64],
    code: &mut [u64],
    kinds: &mut [u8],
    payloads: &mut [u64],
    jumps: &mut [u64],
    i: usize,
    dst: Option<u16>,
    st: St,
) -> Result<(u16, St), Fault>
    requires { (Ready nodes.now (bufs code.old kinds.old payloads.old) i st) × (IsOperator nodes.now i) }
    ensures { GivesValue nodes code kinds payloads jumps st result (value_at nodes.now i dst) }
{
    let Some(tail) = fold_of(nodes, i) else {
        return gen_two(nodes, code, kinds, payloads, jumps, i, dst, st);
    };
    let j = operand_of(nodes, i, tail);
    let x = gen_operand(nodes, code, kinds, payloads, jumps, j, st);
    put_tail(code, tail, dst, st.next, x)
}

// The general form: both operands, left before right, then the instruction of two registers.
#[cycle(generator)]
fn gen_two(
    nodes: &[u64],
    code: &mut [u64],
    kinds: &mut [u8],
    payloads: &mut [u64],
    jumps: &mut [u64],
    i: usize,
    dst: Option<u16>,
    st: St,
) -> Result<(u16, St), Fault>
    requires { (Ready nodes.now (bufs code.old kinds.old payloads.old) i st) × (IsGeneral nodes.now i) }
    ensures { GivesValue nodes code kinds payloads jumps st result (value_at nodes.now i dst) }
{
    let (a, s) = gen_operand(
        nodes,
        code,
        kinds,
        payloads,
        jumps,
        table::child_2(nodes, i),
        st,
    )?;
    let x = gen_operand(
        nodes,
        code,
        kinds,
        payloads,
        jumps,
        table::child_1(nodes, i),
        s,
    );
    put_three(code, three_of(table::kind_at(nodes, i)), a, dst, st.next, x)
}

// Materializes a condition as a boolean value: its register, its branch if true, then the two loads. The register is taken first, so that it is below
// what the branch needs.
#[cycle(generator)]
fn gen_cond_value(
    nodes: &[u64],
    code: &mut [u64],
    kinds: &mut [u8],
    payloads: &mut [u64],
    jumps: &mut [u64],
    i: usize,
    dst: Option<u16>,
    st: St,
) -> Result<(u16, St), Fault>
    requires { (Ready nodes.now (bufs code.old kinds.old payloads.old) i st) × (IsCondition nodes.now i) }
    ensures { GivesValue nodes code kinds payloads jumps st result (value_at nodes.now i dst) }
{
    let (d, s) = dest(dst, st)?;
    let (n, t) = gen_jumps(nodes, code, kinds, payloads, jumps, i, true, s)?;
    gen_bool(code, &jumps[..n], d, t)
}

// A ternary. Both arms have to land in the same register, so it is taken first.
#[cycle(generator)]
fn gen_ternary(
    nodes: &[u64],
    code: &mut [u64],
    kinds: &mut [u8],
    payloads: &mut [u64],
    jumps: &mut [u64],
    i: usize,
    dst: Option<u16>,
    st: St,
) -> Result<(u16, St), Fault>
    requires { (Ready nodes.now (bufs code.old kinds.old payloads.old) i st) × (IsTernary nodes.now i) }
    ensures { GivesValue nodes code kinds payloads jumps st result (value_at nodes.now i dst) }
{
    let (d, s) = dest(dst, st)?;
    let (n, t) = gen_jumps(
        nodes,
        code,
        kinds,
        payloads,
        jumps,
        table::child_3(nodes, i),
        false,
        s,
    )?;
    gen_arms(nodes, code, kinds, payloads, jumps, i, d, n, t)
}

// The arms of the ternary at node i, whose test has n jumps pending at the front of the list: the later part of the list goes to the then side. The else
// side gets the whole list, since the test's jumps are patched by then.
#[cycle(generator)]
fn gen_arms(
    nodes: &[u64],
    code: &mut [u64],
    kinds: &mut [u8],
    payloads: &mut [u64],
    jumps: &mut [u64],
    i: usize,
    d: u16,
    n: usize,
    st: St,
) -> Result<(u16, St), Fault>
    requires { (Ready nodes.now (bufs code.old kinds.old payloads.old) i st) × (IsTernary nodes.now i) × (n ≤ length jumps.old) }
    ensures { GivesValue nodes code kinds payloads jumps st result (arms_at nodes.now i d (take n jumps.old)) }
{
    let (_, s) = gen_into(
        nodes,
        code,
        kinds,
        payloads,
        &mut jumps[n..],
        table::child_2(nodes, i),
        d,
        st,
    )?;
    let (_, t) = turn(code, &jumps[..n], d, s)?;
    let x = gen_into(
        nodes,
        code,
        kinds,
        payloads,
        jumps,
        table::child_1(nodes, i),
        d,
        t,
    );
    settle(code, s.count, d, x)
}

// Generates the value of node i into the register d: a mov follows where the value already sat in another one.
#[cycle(generator)]
pub fn gen_into(
    nodes: &[u64],
    code: &mut [u64],
    kinds: &mut [u8],
    payloads: &mut [u64],
    jumps: &mut [u64],
    i: usize,
    d: u16,
    st: St,
) -> Result<(u16, St), Fault>
    requires { Ready nodes.now (bufs code.old kinds.old payloads.old) i st }
    ensures { GivesValue nodes code kinds payloads jumps st result (into_d (value_at nodes.now i) d) }
{
    let x = gen_code_inner(nodes, code, kinds, payloads, jumps, i, Some(d), st);
    put_mov(code, d, st.next, x)
}

// Emits a test that transfers control when node i evaluates to `sense`, and answers the jumps that have to be patched to the target; their positions stand
// at the front of the list. A comparison compiles straight into a conditional branch here, rather than being materialized into a boolean that is then
// tested.
#[cycle(generator)]
fn gen_branch(
    nodes: &[u64],
    code: &mut [u64],
    kinds: &mut [u8],
    payloads: &mut [u64],
    jumps: &mut [u64],
    i: usize,
    sense: bool,
    st: St,
) -> Result<(usize, St), Fault>
    requires { Ready nodes.now (bufs code.old kinds.old payloads.old) i st }
    ensures { GivesJumps nodes code kinds payloads jumps st result (branch_at nodes.now i sense) }
{
    let k = table::kind_at(nodes, i);
    if k == table::NOT {
        return gen_not(nodes, code, kinds, payloads, jumps, i, sense, st);
    }
    if is_junction(k) {
        return gen_junction(
            nodes,
            code,
            kinds,
            payloads,
            jumps,
            i,
            k == table::OR,
            sense,
            st,
        );
    }
    gen_test(nodes, code, kinds, payloads, jumps, i, sense, st)
}

// The branch of a condition, of a ternary's test, or of a side of And or Or.
#[cycle(generator)]
fn gen_jumps(
    nodes: &[u64],
    code: &mut [u64],
    kinds: &mut [u8],
    payloads: &mut [u64],
    jumps: &mut [u64],
    i: usize,
    sense: bool,
    st: St,
) -> Result<(usize, St), Fault>
    requires { Ready nodes.now (bufs code.old kinds.old payloads.old) i st }
    ensures { GivesJumps nodes code kinds payloads jumps st result (branch_at nodes.now i sense) }
{
    gen_branch(nodes, code, kinds, payloads, jumps, i, sense, st)
}

// Negation folds into the sense of the branch.
#[cycle(generator)]
fn gen_not(
    nodes: &[u64],
    code: &mut [u64],
    kinds: &mut [u8],
    payloads: &mut [u64],
    jumps: &mut [u64],
    i: usize,
    sense: bool,
    st: St,
) -> Result<(usize, St), Fault>
    requires { (Ready nodes.now (bufs code.old kinds.old payloads.old) i st) × (IsNot nodes.now i) }
    ensures { GivesJumps nodes code kinds payloads jumps st result (branch_at nodes.now i sense) }
{
    gen_branch(
        nodes,
        code,
        kinds,
        payloads,
        jumps,
        table::child_1(nodes, i),
        !sense,
        st,
    )
}

// A comparison, or anything else, which is evaluated and tested as a boolean. A comparison takes in a literal of 16 bits; if it has none, both sides are
// generated.
#[cycle(generator)]
fn gen_test(
    nodes: &[u64],
    code: &mut [u64],
    kinds: &mut [u8],
    payloads: &mut [u64],
    jumps: &mut [u64],
    i: usize,
    sense: bool,
    st: St,
) -> Result<(usize, St), Fault>
    requires { (Ready nodes.now (bufs code.old kinds.old payloads.old) i st) × (IsTest nodes.now i) }
    ensures { GivesJumps nodes code kinds payloads jumps st result (branch_at nodes.now i sense) }
{
    let Some((j, how)) = test_of(nodes, i, sense) else {
        return gen_pair(nodes, code, kinds, payloads, jumps, i, sense, st);
    };
    let x = gen_operand(nodes, code, kinds, payloads, jumps, j, st);
    jump_one(code, jumps, how, st.next, x)
}

// Both operands of the comparison at node i, left before right, then the branch that compares them.
#[cycle(generator)]
fn gen_pair(
    nodes: &[u64],
    code: &mut [u64],
    kinds: &mut [u8],
    payloads: &mut [u64],
    jumps: &mut [u64],
    i: usize,
    sense: bool,
    st: St,
) -> Result<(usize, St), Fault>
    requires { (Ready nodes.now (bufs code.old kinds.old payloads.old) i st) × (IsPair nodes.now i sense) }
    ensures { GivesJumps nodes code kinds payloads jumps st result (branch_at nodes.now i sense) }
{
    let (a, s) = gen_operand(
        nodes,
        code,
        kinds,
        payloads,
        jumps,
        table::child_2(nodes, i),
        st,
    )?;
    let x = gen_operand(
        nodes,
        code,
        kinds,
        payloads,
        jumps,
        table::child_1(nodes, i),
        s,
    );
    jump_pair(
        code,
        jumps,
        cmp_branch(table::kind_at(nodes, i), sense),
        a,
        st.next,
        x,
    )
}

// Short-circuiting operators branch directly, with no boolean in between: And, which a false left side decides, and Or, which a true one does (`by`). One of
// the two senses needs the first test to skip over the second, which `join` patches. The later part of the list goes to the right side.
#[cycle(generator)]
fn gen_junction(
    nodes: &[u64],
    code: &mut [u64],
    kinds: &mut [u8],
    payloads: &mut [u64],
    jumps: &mut [u64],
    i: usize,
    by: bool,
    sense: bool,
    st: St,
) -> Result<(usize, St), Fault>
    requires { (Ready nodes.now (bufs code.old kinds.old payloads.old) i st) × (IsJunction nodes.now i by) }
    ensures { GivesJumps nodes code kinds payloads jumps st result (branch_at nodes.now i sense) }
{
    let (n, s) = gen_jumps(
        nodes,
        code,
        kinds,
        payloads,
        jumps,
        table::child_2(nodes, i),
        by,
        st,
    )?;
    let x = gen_jumps(
        nodes,
        code,
        kinds,
        payloads,
        &mut jumps[n..],
        table::child_1(nodes, i),
        sense,
        s,
    );
    join(code, jumps, sense == by, n, x)
}
