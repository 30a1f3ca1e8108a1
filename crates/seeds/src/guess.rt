// Where to look for droppers: guesses that only speed hangs on.
ghost use Rattle.std.specs.Prelude.{◌+◌, ◌≤◌, ◌<◌};
ghost use Rattle.plane.specs.Rule.{SpotIn, BoxIn};

use plane::{Boxed, Spot};
use sheet::Sheet;

// Whether node j is a leaf whose places begin at this one or before it.
fn begins_by(w: Sheet<'_>, j: usize, place: usize) -> bool
    requires { j < w.m }
{
    w.level_at(j) == 0 && w.first_at(j) <= place
}

// The leaf that covers the place of position j. Leaves are the first nodes of the table.
pub(crate) fn leaf_of(w: Sheet<'_>, j: usize) -> usize
    requires { j < w.n }
    ensures { result < w.entry.m }
{
    let place = words::num_at(w.words, 4 * w.n + j);
    let mut low: usize = 0;
    let mut high = w.m;
    // Kept: the search halves what is left: the loop counts no index.
    while high - low > 1 {
        let mid = low + (high - low) / 2;
        if begins_by(w, mid, place) {
            low = mid;
        } else {
            high = mid;
        }
    }
    low
}

// How far q is from a box: the greater of how far it is on the two axes.
fn away(q: Spot, o: Boxed) -> i64
    requires { SpotIn q × BoxIn o }
{
    let x = plane::outside(o.xmin, o.xmax, q.x);
    let y = plane::outside(o.ymin, o.ymax, q.y);
    x.max(y)
}

// Of so many nodes from the first on, one whose box is the nearest to q.
fn node_near(w: Sheet<'_>, q: Spot, first: usize, count: usize) -> usize
    requires { SpotIn q × (0 < count) × (first + count ≤ w.m) }
    ensures { (first ≤ result) × (result < first + count) }
{
    let mut near = first;
    let mut least = away(q, w.box_at(first));
    for k in first + 1..first + count {
        let d = away(q, w.box_at(k));
        if d < least {
            least = d;
            near = k;
        }
    }
    near
}

// A leaf near q: from the root down, each time into the nearest box.
pub(crate) fn leaf_near(w: Sheet<'_>, q: Spot) -> usize
    requires { SpotIn q × (0 < w.m) }
    ensures { result < w.entry.m }
{
    let mut at = w.m - 1;
    let mut level = w.level_at(at);
    // Kept: each step goes down a level of the tree: the loop counts no index.
    while level > 0 {
        let first = w.first_at(at);
        let count = w.count_at(at);
        at = node_near(w, q, first, count);
        level = w.level_at(at);
    }
    at
}
