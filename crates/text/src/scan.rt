// A byte in a text.
ghost use Rattle.std.specs.Prelude.{◌≡◌, ◌≢◌, ℕ, ◌+◌, ◌<◌, ◌≤◌, length, drop, slice_index};
ghost use Rattle.text.specs.Bytes.{index_of};

// The first position from `from` on where b stands; the end where there is none.
#[tactic(auto, using(crate::proofs::scan::Finding::finds))]
pub fn find(s: &[u8], from: usize, b: u8) -> usize
    requires { from ≤ length s.now }
    ensures value { result ≡ from + index_of b (drop from s.now) }
    ensures lower_bound { from ≤ result }
    ensures upper_bound { result ≤ length s.now }
    ensures none_before { (k : ℕ) → from ≤ k → k < result → slice_index s.now k ≢ b }
    ensures found { result < length s.now → slice_index s.now result ≡ b }
{
    for i in from..s.len() {
        if s[i] == b {
            return i;
        }
    }
    s.len()
}
