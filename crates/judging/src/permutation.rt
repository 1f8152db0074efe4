// The test that an order lists every bin once, with marks in lent entries.
ghost use Rattle.std.specs.Prelude.{◌≡◌, length, replicate};
ghost use Rattle.judging.specs.Permutation.{each_once};

// Whether every entry of the order is a bin, one of as many as there are marks, and none stands twice. The marks are zeros afterwards.
pub fn is_permutation(order: &[u32], seen: &mut [u32]) -> bool
    ensures value { result ≡ each_once (length seen.old) order.now }
    ensures seen_after { seen.new ≡ replicate (length seen.old) 0 }
{
    seen.fill(0);
    let once = mark(order, seen);
    seen.fill(0);
    once
}

// From the last entry back, marks each bin; false at an entry that is no bin, or whose bin is marked.
fn mark(order: &[u32], seen: &mut [u32]) -> bool
    requires { seen.old ≡ replicate (length seen.old) 0 }
    ensures { result ≡ each_once (length seen.old) order.now }
{
    for bin in order.iter().rev() {
        let v = *bin as usize;
        if v >= seen.len() || seen[v] != 0 {
            return false;
        }
        seen[v] = 1;
    }
    true
}
