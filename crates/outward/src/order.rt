// The points of a sheet one after another, the nearest first.
ghost use Rattle.std.specs.Prelude.{◌≡◌, ◌+◌, ◌≤◌, ◌<◌, length, take};
ghost use Rattle.plane.specs.Rule.{SpotIn};
ghost use Rattle.outward.specs.NearWalk.{near_order};
ghost use Rattle.outward.specs.Room.{zero_filled};
ghost use Rattle.bits.specs.Set.{wiped};

use plane::Spot;
use sheet::Sheet;

// So many positions; the rest are 0.
#[derive(Clone, Copy)]
pub struct Firsts {
    pub count: usize,
    pub at: [usize; 16],
}

// The positions of the first `size` points, fewer if there are fewer; the first n + m lent numbers are 0.
pub fn first_points(w: Sheet<'_>, q: Spot, size: usize, waiting: &mut [u64]) -> Firsts
    requires { SpotIn q × (size ≤ 16) × (w.n + w.m ≤ length waiting.old) }
    ensures { (result.at ≡ zero_filled (take size (near_order w.entry.words.now q))) × (result.count ≡ length (take size (near_order w.entry.words.now q))) × (waiting.new ≡ wiped (w.entry.n + w.entry.m) waiting.old) }
{
    let mut at = [0usize; 16];
    let mut got: usize = 0;
    let mut count = crate::waiting::put_root(w, q, waiting);
    // Kept: the heap is emptied and filled as it is walked: the loop counts no index.
    while (count > 0) & (got < size) {
        let e = crate::waiting::take_out(w, q, waiting, count) as usize;
        count -= 1;
        if e < w.m + 1 {
            count = crate::waiting::put_covered(w, q, e - 1, waiting, count);
            continue;
        }
        at[got] = e - (w.m + 1);
        got += 1;
    }
    crate::waiting::wipe(waiting, w.n + w.m);
    Firsts { count: got, at }
}
