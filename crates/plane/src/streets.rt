// Distances along the streets of a grid town: the sums of those on the two axes.
ghost use Rattle.std.specs.Prelude.{◌≡◌, ◌≤◌, nat_abs, ◌-ℤ◌};
ghost use Rattle.integers.specs.Bounds.{Within};
ghost use Rattle.plane.specs.Rule.{SpotIn, BoxIn};
ghost use Rattle.plane.specs.Profile.{streets, grid, across, centre, away};

use crate::{Boxed, Spot};

// How far a and b are apart on one axis.
fn between(a: i64, b: i64) -> u64
    requires { Within 2_000_000_000 a × Within 2_000_000_000 b }
    ensures { (result ≡ nat_abs (a -ℤ b)) × (result ≤ 4_000_000_000) }
{
    if a < b {
        return (b - a) as u64;
    }
    (a - b) as u64
}

// How far two places are apart.
fn apart(a: Spot, b: Spot) -> u64
    requires { SpotIn a × SpotIn b }
    ensures { (result ≡ across streets a b) × (result ≤ 4_000_000_000) }
{
    between(a.x, b.x) + between(a.y, b.y)
}

// How far twice z is from a + b.
fn from_centre(a: Spot, b: Spot, z: Spot) -> u64
    requires { SpotIn a × SpotIn b × SpotIn z }
    ensures { result ≡ centre streets a b z }
{
    between(2 * z.x, a.x + b.x) + between(2 * z.y, a.y + b.y)
}

// How far the box with doubled coordinates is from a + b.
fn box_away(a: Spot, b: Spot, o: Boxed) -> u64
    requires { SpotIn a × SpotIn b × BoxIn o }
    ensures { result ≡ away streets a b o }
{
    crate::how_far(2 * o.xmin, 2 * o.xmax, a.x + b.x)
        + crate::how_far(2 * o.ymin, 2 * o.ymax, a.y + b.y)
}

// Whether z blocks the pair a, b.
pub(crate) fn does_block(a: Spot, b: Spot, z: Spot) -> bool
    requires { SpotIn a × SpotIn b × SpotIn z }
    ensures { result ≡ grid.blocks a b z }
{
    (from_centre(a, b, z) <= apart(a, b)) & !crate::is_same(z, a) & !crate::is_same(z, b)
}

// Whether the box is so far that none of its places can block.
pub(crate) fn is_far(a: Spot, b: Spot, o: Boxed) -> bool
    requires { SpotIn a × SpotIn b × BoxIn o }
    ensures { result ≡ grid.far a b o }
{
    apart(a, b) < box_away(a, b, o)
}

// Whether the corner c lies strictly inside.
pub(crate) fn is_inside(a: Spot, b: Spot, c: Spot) -> bool
    requires { SpotIn a × SpotIn b × SpotIn c }
    ensures { result ≡ grid.inside a b c }
{
    from_centre(a, b, c) < apart(a, b)
}

// The size of a pair: the squared sum, which a word holds at the widest coordinates of any sheet.
pub(crate) fn size_of(a: Spot, b: Spot) -> u64
    requires { SpotIn a × SpotIn b }
    ensures { result ≡ grid.size a b }
{
    let d = apart(a, b);
    d * d
}
