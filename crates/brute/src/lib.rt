// A second, unrelated join, to compare the first one with: plain loops over the points, the ring rule by distances to the doubled centre, and the street grid's on a map
// that is turned by an eighth. It takes the points' words of two sets, asks nothing of them, and stops at the first blocker of a pair.
#![tactic(auto)]

ghost use Rattle.std.specs.Prelude.{◌≡◌, false, ◌≤◌, ◌<◌, nat_abs, ◌-ℤ◌};
ghost use Rattle.integers.specs.Bounds.{Within};
ghost use Rattle.brute.specs.Brute.{clip, place_at, covers, fences, holds, together, clear, empty, pairs, size_of, FirstOf, Next};

#[derive(Clone, Copy, Debug, PartialEq, Eq)]
pub struct Place {
    pub x: i64,
    pub y: i64,
}

// A pair by its positions: q's in Q, p's in P. Where there is none, q is past all of Q.
#[derive(Clone, Copy, Debug, PartialEq, Eq)]
pub struct Found {
    pub q: usize,
    pub p: usize,
}

// A word as a coordinate.
fn clipped(w: i32) -> i64
    ensures { (result ≡ clip w) × Within 1000000000 (clip w) }
{
    if (-1000000000..=1000000000).contains(&w) {
        i64::from(w)
    } else {
        0
    }
}

// Where the point at position k stands.
fn place_at(s: &[i32], k: usize) -> Place
    requires { k < Rattle.brute.specs.Brute.size s.now }
    ensures value { result ≡ place_at s.now k }
    ensures within { Within 1000000000 result.x × Within 1000000000 result.y }
{
    Place {
        x: clipped(s[3 * k + 1]),
        y: clipped(s[3 * k + 2]),
    }
}

// How far a and b are apart.
fn gap(a: i64, b: i64) -> u64
    requires { Within 4000000000 a × Within 4000000000 b }
    ensures { result ≡ nat_abs (a -ℤ b) }
{
    a.abs_diff(b)
}

// The square of it.
fn across(a: i64, b: i64) -> u64
    requires { Within 1000000000 a × Within 1000000000 b }
    ensures { (result ≡ Rattle.brute.specs.Brute.across a b) × (result ≤ 4000000000000000000) }
{
    let d = gap(a, b);
    d * d
}

// The distance of twice z from the doubled centre.
fn off(a: i64, b: i64, z: i64) -> u64
    requires { Within 2000000000 a × Within 2000000000 b × Within 2000000000 z }
    ensures { result ≡ Rattle.brute.specs.Brute.off a b z }
{
    gap(2 * z, a + b)
}

// The square of it.
fn apart(a: i64, b: i64, z: i64) -> u64
    requires { Within 1000000000 a × Within 1000000000 b × Within 1000000000 z }
    ensures { result ≡ Rattle.brute.specs.Brute.apart a b z }
{
    let d = off(a, b, z);
    d * d
}

// Whether z is in the closed circle on a, b.
fn is_covered(a: Place, b: Place, z: Place) -> bool
    requires within { Within 1000000000 a.x × Within 1000000000 a.y }
    requires within_2 { Within 1000000000 b.x × Within 1000000000 b.y }
    requires within_3 { Within 1000000000 z.x × Within 1000000000 z.y }
    ensures { result ≡ covers a b z }
{
    let d = across(a.x, b.x) + across(a.y, b.y);
    let x = apart(a.x, b.x, z.x);
    let y = apart(a.y, b.y, z.y);
    x <= d && y <= d - x
}

// A place on the map turned by an eighth.
fn turn(a: Place) -> Place
    requires { Within 1000000000 a.x × Within 1000000000 a.y }
    ensures value { result ≡ Rattle.brute.specs.Brute.turn a }
    ensures within { Within 2000000000 result.x × Within 2000000000 result.y }
{
    Place {
        x: a.x + a.y,
        y: a.x - a.y,
    }
}

// How far two places of the turned map are apart on the axis that has more of it.
fn most(a: Place, b: Place) -> u64
    requires within { Within 2000000000 a.x × Within 2000000000 a.y }
    requires within_2 { Within 2000000000 b.x × Within 2000000000 b.y }
    ensures { (result ≡ Rattle.brute.specs.Brute.most a b) × (result ≤ 4000000000) }
{
    gap(a.x, b.x).max(gap(a.y, b.y))
}

// Whether z is in the closed square around a, b, all on the turned map.
fn is_fenced(a: Place, b: Place, z: Place) -> bool
    requires within { Within 2000000000 a.x × Within 2000000000 a.y }
    requires within_2 { Within 2000000000 b.x × Within 2000000000 b.y }
    requires within_3 { Within 2000000000 z.x × Within 2000000000 z.y }
    ensures { result ≡ fences a b z }
{
    let d = most(a, b);
    let u = off(a.x, b.x, z.x);
    let v = off(a.y, b.y, z.y);
    (u <= d) & (v <= d)
}

// Whether z is in the closed circle on a, b, and of the street grid in the square around them.
fn is_held(grid: bool, a: Place, b: Place, z: Place) -> bool
    requires within { Within 1000000000 a.x × Within 1000000000 a.y }
    requires within_2 { Within 1000000000 b.x × Within 1000000000 b.y }
    requires within_3 { Within 1000000000 z.x × Within 1000000000 z.y }
    ensures { result ≡ holds grid a b z }
{
    if grid {
        return is_fenced(turn(a), turn(b), turn(z));
    }
    is_covered(a, b, z)
}

// Whether two places are no distance apart.
fn is_together(a: Place, b: Place) -> bool
    requires within { Within 1000000000 a.x × Within 1000000000 a.y }
    requires within_2 { Within 1000000000 b.x × Within 1000000000 b.y }
    ensures { result ≡ together a b }
{
    across(a.x, b.x) + across(a.y, b.y) == 0
}

// Whether z is not in the circle or square of a, b, or is at the place of an end.
fn is_clear(grid: bool, a: Place, b: Place, z: Place) -> bool
    requires within { Within 1000000000 a.x × Within 1000000000 a.y }
    requires within_2 { Within 1000000000 b.x × Within 1000000000 b.y }
    requires within_3 { Within 1000000000 z.x × Within 1000000000 z.y }
    ensures { result ≡ clear grid a b z }
{
    if !is_held(grid, a, b, z) {
        return true;
    }
    is_together(z, a) | is_together(z, b)
}

// Whether no point of s is in the circle or square of a, b but at the place of an end.
fn is_empty(grid: bool, s: &[i32], a: Place, b: Place) -> bool
    requires within { Within 1000000000 a.x × Within 1000000000 a.y }
    requires within_2 { Within 1000000000 b.x × Within 1000000000 b.y }
    ensures { result ≡ empty grid s.now a b }
{
    for k in 0..s.len() / 3 {
        if !is_clear(grid, a, b, place_at(s, k)) {
            return false;
        }
    }
    true
}

// Whether q at position j and p at position i are a pair.
fn is_pair(grid: bool, p: &[i32], q: &[i32], j: usize, i: usize) -> bool
    requires j_bound { j < Rattle.brute.specs.Brute.size q.now }
    requires i_bound { i < Rattle.brute.specs.Brute.size p.now }
    ensures { result ≡ pairs grid p.now q.now j i }
{
    let a = place_at(q, j);
    let b = place_at(p, i);
    is_empty(grid, q, a, b) && is_empty(grid, p, a, b)
}

// The first position of P from `i` on that is a pair with position j of Q, or past all of P.
fn first_from(grid: bool, p: &[i32], q: &[i32], j: usize, i: usize) -> usize
    requires { j < Rattle.brute.specs.Brute.size q.now }
    ensures { FirstOf grid p.now q.now j i result }
{
    let n = p.len() / 3;
    for k in i..n {
        if is_pair(grid, p, q, j, k) {
            return k;
        }
    }
    n
}

// The squared distance of two places, by the air or by the streets.
fn span(grid: bool, a: Place, b: Place) -> u64
    requires within { Within 1000000000 a.x × Within 1000000000 a.y }
    requires within_2 { Within 1000000000 b.x × Within 1000000000 b.y }
    ensures { result ≡ Rattle.brute.specs.Brute.span grid a b }
{
    if grid {
        let d = most(turn(a), turn(b));
        return d * d;
    }
    across(a.x, b.x) + across(a.y, b.y)
}

// That of the two ends of a pair; 0 where an end is past its set.
pub fn size_of(grid: bool, p: &[i32], q: &[i32], v: Found) -> u64
    ensures { result ≡ size_of grid p.now q.now v }
{
    if v.q >= q.len() / 3 {
        return 0;
    }
    if v.p >= p.len() / 3 {
        return 0;
    }
    let a = place_at(q, v.q);
    let b = place_at(p, v.p);
    span(grid, a, b)
}

// The first pair from position j of Q and position i of P on, in the list's order: by q, then by p.
pub fn next(grid: bool, p: &[i32], q: &[i32], j: usize, i: usize) -> Found
    ensures { Next grid p.now q.now j i result }
{
    let np = p.len() / 3;
    let nq = q.len() / 3;
    let mut from = i;
    for row in j..nq {
        let at = first_from(grid, p, q, row, from);
        if at < np {
            return Found { q: row, p: at };
        }
        from = 0;
    }
    Found { q: nq.max(j), p: 0 }
}
