// The rules of either profile: the circle's, and where `grid` is set the street grid's.
ghost use Rattle.std.specs.Prelude.{◌≡◌};
ghost use Rattle.plane.specs.Rule.{SpotIn, BoxIn};
ghost use Rattle.plane.specs.Profile.{profile_of, side_in, size_ok};

use crate::{Boxed, Spot};

// Whether z blocks the pair a, b.
pub fn does_block(grid: bool, a: Spot, b: Spot, z: Spot) -> bool
    requires { SpotIn a × SpotIn b × SpotIn z }
    ensures { result ≡ (profile_of grid).blocks a b z }
{
    if grid {
        return crate::streets::does_block(a, b, z);
    }
    crate::does_block(a, b, z)
}

// Whether the box is so far from the pair a, b that none of its places can block it.
pub fn is_far(grid: bool, a: Spot, b: Spot, o: Boxed) -> bool
    requires { SpotIn a × SpotIn b × BoxIn o }
    ensures { result ≡ (profile_of grid).far a b o }
{
    if grid {
        return crate::streets::is_far(a, b, o);
    }
    crate::is_far(a, b, o)
}

// Whether the corner c lies strictly inside.
fn is_inside(grid: bool, a: Spot, b: Spot, c: Spot) -> bool
    requires { SpotIn a × SpotIn b × SpotIn c }
    ensures { result ≡ (profile_of grid).inside a b c }
{
    if grid {
        return crate::streets::is_inside(a, b, c);
    }
    crate::is_inside(a, b, c)
}

// The first side that lies strictly inside: 0 left, 1 bottom, 2 right, 3 top, 4 none.
pub fn side_inside(grid: bool, a: Spot, b: Spot, o: Boxed) -> u32
    requires { SpotIn a × SpotIn b × BoxIn o }
    ensures { result ≡ side_in (profile_of grid) a b o }
{
    let ll = is_inside(grid, a, b, crate::low_left(o));
    let lh = is_inside(grid, a, b, crate::high_left(o));
    let hl = is_inside(grid, a, b, crate::low_right(o));
    let hh = is_inside(grid, a, b, crate::high_right(o));
    if ll & lh {
        return 0;
    }
    if ll & hl {
        return 1;
    }
    if hl & hh {
        return 2;
    }
    if lh & hh {
        return 3;
    }
    4
}

// The size that the pair of a and b carries.
pub fn size_of(grid: bool, a: Spot, b: Spot) -> u64
    requires { SpotIn a × SpotIn b }
    ensures { result ≡ (profile_of grid).size a b }
{
    if grid {
        return crate::streets::size_of(a, b);
    }
    crate::diameter(a, b)
}

// Whether a size is in range.
pub fn is_size(grid: bool, size: u64) -> bool
    ensures { result ≡ size_ok grid size }
{
    if grid {
        return size <= 16_000_000_000_000;
    }
    size <= 8_000_000_000_000_000_000
}
