// What a node's children cover. The check compares it with the node's own first and depth; `complete` writes it there.
ghost use Rattle.std.specs.Prelude.{◌≡◌};
ghost use Rattle.table.specs.Table.{arity, children};
ghost use Rattle.table.specs.Nodes.{Below};

// How many children a kind has.
pub fn arity_of(k: u64) -> u64
    ensures { result ≡ arity k }
{
    if k <= crate::REF {
        0
    } else if k <= crate::NOT {
        1
    } else if k <= crate::OR {
        2
    } else {
        3
    }
}

// The n children whose last one ends just before node i. Each names the place where the one before it ends, so no subtree is walked.
pub fn children_of(nodes: &[u64], n: u64, i: usize) -> Option<(usize, u64)>
    requires { Below nodes.now i }
    ensures { result ≡ children nodes.now n i 0 }
{
    let mut e = i;
    let mut d = 0;
    for _ in 0..n {
        let last = e.checked_sub(1)?;
        d = d.max(crate::depth_at(nodes, last));
        e = crate::first_at(nodes, last);
    }
    Some((e, d))
}
