// The order list.
ghost use Rattle.std.specs.Prelude.{◌≡◌, true, false, ℕ, ◌≤◌, ◌<◌, length, get_or};
ghost use Rattle.words.specs.Word.{at, num};
ghost use Rattle.pack.specs.Order.{order_list_ok};

// Whether the order list is a permutation of 0 to n - 1: each word is one of these, and none is there twice. Each word is read once. `seen` has a mark
// for each position, none set.
pub(crate) fn each_once(o: &[i32], n: usize, seen: &mut [bool]) -> bool
    requires { (n ≤ length o.now) × (n ≤ length seen.old) × ((i : ℕ) → i < n → get_or seen.old i false ≡ false) }
    ensures { result ≡ order_list_ok o.now n }
{
    for &w in &o[..n] {
        if !words::below(w, n) {
            return false;
        }
        let i = words::num(w);
        if seen[i] {
            return false;
        }
        seen[i] = true;
    }
    true
}

// The position at place k of an order list that passes: no bound is tested and no sign.
pub(crate) fn position(o: &[i32], n: usize, k: usize) -> usize
    requires { (n ≤ length o.now) × (order_list_ok o.now n ≡ true) × (k < n) }
    ensures value { result ≡ num (at o.now k) }
    ensures upper_bound { result < n }
{
    o[k] as usize
}
