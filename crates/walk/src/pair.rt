// The pair of a chamber and a pump house, read from their sheets.
ghost use Rattle.std.specs.Prelude.{◌≡◌, ◌<◌};
ghost use Rattle.sheet.specs.Places.{points_of};
ghost use Rattle.list.specs.RingList.{pair_by, pair_at};
ghost use Rattle.plane.specs.Profile.{profile_of};

use list::Pair;
use sheet::Sheet;

// The pair of position j of Q and position i of P, with its size by a profile: the street grid's where `grid` is set.
pub fn pair_by(p: Sheet<'_>, q: Sheet<'_>, j: usize, i: usize, grid: bool) -> Pair
    requires { (j < q.n) × (i < p.n) }
    ensures { result ≡ pair_by (profile_of grid) (points_of p.entry.words.now) (points_of q.entry.words.now) j i }
{
    let a = q.spot_at(j);
    let b = p.spot_at(i);
    Pair {
        q: q.id_at(j),
        p: p.id_at(i),
        size: plane::profile::size_of(grid, a, b),
    }
}

// The same of the circle.
pub fn pair_at(p: Sheet<'_>, q: Sheet<'_>, j: usize, i: usize) -> Pair
    requires { (j < q.n) × (i < p.n) }
    ensures { result ≡ pair_at (points_of p.entry.words.now) (points_of q.entry.words.now) j i }
{
    pair_by(p, q, j, i, false)
}
