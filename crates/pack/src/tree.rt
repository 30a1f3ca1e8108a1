// The packer's tree.
ghost use Rattle.std.specs.Prelude.{◌≡◌, ◌≤◌, ◌<◌};
ghost use Rattle.pack.specs.Tree.{nodes_for, plan_count};
ghost use Rattle.pack.specs.Packed.{sheet_size};
ghost use Rattle.pack.specs.Work;

use sheet::Due;

// How many nodes of 16 cover k places or nodes.
fn up16(k: usize) -> usize
    requires { k ≤ 60000 }
    ensures { result ≡ Rattle.pack.specs.Tree.up16 k }
{
    k.div_ceil(16)
}

// How many nodes a tree over n points has: those of each level, until one node is left.
pub(crate) fn nodes_for(n: usize) -> usize
    requires { n ≤ 60000 }
    ensures { result ≡ nodes_for n }
{
    let mut k = up16(n);
    let mut m = k;
    // Kept: each step goes up a level, from k to k / 16: the loop counts no index.
    while 1 < k {
        k = up16(k);
        m += k;
    }
    m
}

// How many words the sheet of n points has.
pub(crate) fn size_for(n: usize) -> usize
    requires { n ≤ 60000 }
    ensures { result ≡ sheet_size n }
{
    5 * n + 7 * nodes_for(n) + 6
}

// What is planned of node j + 1, from what is planned of node j.
pub(crate) fn follow(d: Due, j: usize) -> Due
    requires { (d.next ≤ 60000) × (d.level < 8) × (j < 24000) }
    ensures { result ≡ Rattle.pack.specs.Work.follow j d }
{
    if d.next + 16 < d.top {
        return Due {
            next: d.next + 16,
            ..d
        };
    }
    Due {
        level: d.level + 1,
        head: j + 1,
        next: d.head,
        top: j + 1,
    }
}

// How many a planned node covers: 16, or the rest.
pub(crate) fn plan_count(d: Due) -> usize
    requires { (d.next < d.top) × (d.next ≤ 60000) }
    ensures { result ≡ plan_count d }
{
    (d.top - d.next).min(16)
}
