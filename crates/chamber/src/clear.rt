// Whether no record of a sheet blocks a pair, of either profile. The ring walk of `walk` says besides what it hit first and how many nodes it opened; where that is not asked for, this is
// the shorter way: no side of a box is looked at, and a box that is far is passed over where it stands.
ghost use Rattle.std.specs.Prelude.{◌≡◌, ◌+◌, ◌≤◌, ◌<◌};
ghost use Rattle.plane.specs.Rule.{SpotIn};
ghost use Rattle.plane.specs.Profile.{profile_of};
ghost use Rattle.sheet.specs.Nodes.{level_of};
ghost use Rattle.sheet.specs.Boxes.{Below};
ghost use Rattle.sheet.specs.Order.{order_of};
ghost use Rattle.sheet.specs.Places.{spot_of, box_of, points_of};
ghost use Rattle.list.specs.RingList.{unblocked};
ghost use Rattle.chamber.specs.Clear.{Tells};

use plane::Spot;
use sheet::Sheet;

// Whether the record at place r blocks the pair of a and b.
fn blocks_at(w: Sheet<'_>, a: Spot, b: Spot, r: usize, grid: bool) -> bool
    requires { SpotIn a × SpotIn b × (r < w.n) }
    ensures { result ≡ (profile_of grid).blocks a b (spot_of w.entry.words.now (order_of w.entry.words.now w.entry.n r)) }
{
    let i = w.order_at(r);
    let z = w.spot_at(i);
    plane::profile::does_block(grid, a, b, z)
}

// Whether none of so many places from the first on has a record that blocks.
fn clear_places(w: Sheet<'_>, a: Spot, b: Spot, first: usize, count: usize, grid: bool) -> bool
    requires { SpotIn a × SpotIn b × (first + count ≤ w.n) }
    ensures { Tells (profile_of grid) w.entry.words.now w.entry.n a b (λ k. (first ≤ k) × (k < first + count)) result }
{
    for i in 0..count {
        if blocks_at(w, a, b, first + i, grid) {
            return false;
        }
    }
    true
}

// Whether the box of node j is too far for any of its places to block.
fn far_at(w: Sheet<'_>, a: Spot, b: Spot, j: usize, grid: bool) -> bool
    requires { SpotIn a × SpotIn b × (j < w.m) }
    ensures { result ≡ (profile_of grid).far a b (box_of w.entry.words.now w.entry.n j) }
{
    let o = w.box_at(j);
    plane::profile::is_far(grid, a, b, o)
}

// Whether no record below node j blocks.
fn clear_below(w: Sheet<'_>, a: Spot, b: Spot, j: usize, grid: bool) -> bool
    requires { SpotIn a × SpotIn b × (j < w.m) }
    ensures { Tells (profile_of grid) w.entry.words.now w.entry.n a b (Below w.entry.words.now w.entry.n (level_of w.entry.words.now w.entry.n j) j) result }
{
    let level = w.level_at(j);
    let first = w.first_at(j);
    let count = w.count_at(j);
    if level == 0 {
        return clear_places(w, a, b, first, count, grid);
    }
    for i in 0..count {
        if !far_at(w, a, b, first + i, grid) {
            if !clear_below(w, a, b, first + i, grid) {
                return false;
            }
        }
    }
    true
}

// Whether no record of the sheet blocks.
pub(crate) fn clear_on(w: Sheet<'_>, a: Spot, b: Spot, grid: bool) -> bool
    requires { SpotIn a × SpotIn b }
    ensures { result ≡ unblocked (profile_of grid) (points_of w.entry.words.now) a b }
{
    if w.m == 0 {
        return true;
    }
    clear_below(w, a, b, w.m - 1, grid)
}
