//! Rows that begin side by side, found by their starts. tensor_kernels packs rows by this too.

ghost use Rattle.std.specs.Prelude.{◌≡◌, ◌≢◌, ℕ, ◌+◌, ◌<◌, ◌≤◌, length, slice_index};

/// The most rows that one call looks at.
const TOGETHER: usize = 1024;

/// Returns how many rows from row `k` on begin side by side: itself, and those whose starts follow
/// one by one. It is 1,024 at most, though more may follow.
pub fn side_by_side(starts: &[usize], k: usize) -> usize
    requires { k < length starts.now }
    ensures some { 0 < result }
    ensures few { k + result ≤ length starts.now }
    ensures last { k + result < length starts.now → result < 1024
        → slice_index starts.now (k + result) ≢ slice_index starts.now k + result }
    ensures each { (j : ℕ) → j < result
        → slice_index starts.now (k + j) ≡ slice_index starts.now k + j }
{
    let most = (starts.len() - k).min(TOGETHER);
    let first = starts[k];
    for j in 1..most {
        let start = starts[k + j];
        if start < first || start - first != j {
            return j;
        }
    }
    most
}
