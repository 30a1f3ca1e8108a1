// The filter walk that goes nearest first, with lent words for the kept set and lent numbers for what waits.
ghost use Rattle.std.specs.Prelude.{◌≡◌, ◌+◌, ◌≤◌, ◌<◌, length};
ghost use Rattle.plane.specs.Rule.{SpotIn};
ghost use Rattle.bits.specs.Set.{Holds, wiped};
ghost use Rattle.walk.specs.FilterWalk.{shut, consider};
ghost use Rattle.outward.specs.NearWalk.{near_kept};

use plane::Spot;
use sheet::Sheet;

// Whether a kept one drops all of the box of node j, for q.
fn is_shut(w: Sheet<'_>, q: Spot, j: usize, bits: &[u64]) -> bool
    requires { SpotIn q × (j < w.m) × Holds bits.now w.n }
    ensures { result ≡ shut w.entry.words.now w.entry.n q j bits.now }
{
    let o = w.box_at(j);
    walk::filter::seek_all(w, q, o, bits) < w.n
}

// Position i is kept, unless a kept one drops it, for q.
fn consider_at(w: Sheet<'_>, q: Spot, i: usize, bits: &mut [u64])
    requires { SpotIn q × (i < w.n) × Holds bits.old w.n }
    ensures { bits.new ≡ consider w.entry.words.now w.entry.n q i bits.old }
{
    let z = w.spot_at(i);
    if walk::filter::seek_all(w, q, plane::box_at(z), bits) < w.n {
        return;
    }
    bits::insert(bits, i);
}

// The walk of a whole sheet of n points and m nodes: the lent words are the kept set, the first n + m lent numbers are 0, and the answer is the nodes opened.
pub fn near_kept(w: Sheet<'_>, q: Spot, bits: &mut [u64], waiting: &mut [u64]) -> u64
    requires { SpotIn q × Holds bits.old w.n × (w.n + w.m ≤ length waiting.old) }
    ensures { (bits.new ≡ (near_kept (length bits.old) w.entry.words.now q).bits) × (result ≡ (near_kept (length bits.old) w.entry.words.now q).opened) × (waiting.new ≡ wiped (w.entry.n + w.entry.m) waiting.old) }
{
    bits::clear(bits);
    let mut count = crate::waiting::put_root(w, q, waiting);
    let mut opened: u64 = 0;
    // Kept: the heap is emptied and filled as it is walked: the loop counts no index.
    while count > 0 {
        let e = crate::waiting::take_out(w, q, waiting, count) as usize;
        count -= 1;
        if e < w.m + 1 {
            if is_shut(w, q, e - 1, bits) {
                continue;
            }
            opened += 1;
            count = crate::waiting::put_covered(w, q, e - 1, waiting, count);
            continue;
        }
        consider_at(w, q, e - (w.m + 1), bits);
    }
    crate::waiting::wipe(waiting, w.n + w.m);
    opened
}
