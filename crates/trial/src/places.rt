// The checked examples of document 01, the rules on places and boxes; and some of the street grid.
ghost use Rattle.std.specs.Prelude.{◌≤ℤ◌};
ghost use Rattle.integers.specs.Bounds.{Within};
ghost use Rattle.plane.specs.Rule.{SpotIn, BoxIn};

use crate::say;
use plane::{Boxed, Spot};

// A space and a place.
fn say_spot(rt: &HostRuntime, a: Spot) {
    let mut t = [0u8; 64];
    let open = text::put(b" (", &mut t, 0);
    let x = text::put_signed(a.x, &mut t, open);
    let comma = text::put_byte(b',', &mut t, x);
    let y = text::put_signed(a.y, &mut t, comma);
    let close = text::put_byte(b')', &mut t, y);
    say::say(rt, &t[..close]);
}

// The place (x, y).
fn spot(x: i16, y: i16) -> Spot
    ensures { SpotIn result }
{
    Spot {
        x: x as i64,
        y: y as i64,
    }
}

// What is asked, and the places that it is asked of.
fn say_spots(rt: &HostRuntime, asked: &[u8], spots: &[Spot]) {
    say::say(rt, asked);
    for a in spots {
        say_spot(rt, *a);
    }
}

// The greater of two.
// Kept: tried `low.x.max(high.x)` in `boxed`; the proof of its `returns` did not close.
fn greater(a: i64, b: i64) -> i64
    requires { Within 1000000000 a × Within 1000000000 b }
    ensures { (a ≤ℤ result) × Within 1000000000 result }
{
    if a < b { b } else { a }
}

// The box with these two corners.
fn boxed(low: Spot, high: Spot) -> Boxed
    requires { SpotIn low × SpotIn high }
    ensures { BoxIn result }
{
    Boxed {
        xmin: low.x,
        ymin: low.y,
        xmax: greater(low.x, high.x),
        ymax: greater(low.y, high.y),
    }
}

// Whether z blocks a, b, and the product.
fn block(rt: &HostRuntime, a: Spot, b: Spot, z: Spot)
    requires { SpotIn a × SpotIn b × SpotIn z }
{
    say_spots(rt, b"ring rule", &[a, b, z]);
    let d = plane::dot_of(a, b, z);
    say::signed(rt, d);
    if plane::does_block(a, b, z) {
        say::say(rt, b" blocks\n");
    } else {
        say::say(rt, b" does not block\n");
    }
}

// Whether q skips z, p being kept, and the product.
fn skip(rt: &HostRuntime, q: Spot, p: Spot, z: Spot)
    requires { SpotIn q × SpotIn p × SpotIn z }
{
    say_spots(rt, b"filter rule", &[q, p, z]);
    let d = plane::dot_of(q, z, p);
    say::signed(rt, d);
    if plane::does_block(q, z, p) {
        say::say(rt, b" skipped\n");
    } else {
        say::say(rt, b" kept\n");
    }
}

// Whether q skips a box, p being kept.
fn skip_box(rt: &HostRuntime, q: Spot, p: Spot, low: Spot, high: Spot)
    requires { SpotIn q × SpotIn p × SpotIn low × SpotIn high }
{
    say_spots(rt, b"filter rule", &[q, p]);
    say_spots(rt, b" box", &[low, high]);
    if plane::drops_box(q, p, boxed(low, high)) {
        say::say(rt, b" skipped\n");
    } else {
        say::say(rt, b" opened\n");
    }
}

// The squared distance of a doubled side from the doubled centre, on one axis.
fn say_axis(rt: &HostRuntime, lo: i64, hi: i64, a: i64, b: i64)
    requires { Within 1000000000 lo × Within 1000000000 hi × Within 1000000000 a × Within 1000000000 b }
{
    let d = plane::square_out(2 * lo, 2 * hi, a + b);
    say::number(rt, d);
}

// Those of a box on both axes, against the squared diameter.
fn say_distance(rt: &HostRuntime, a: Spot, b: Spot, low: Spot, high: Spot)
    requires { SpotIn a × SpotIn b × SpotIn low × SpotIn high }
{
    say_axis(rt, low.x, high.x, a.x, b.x);
    say_axis(rt, low.y, high.y, a.y, b.y);
    say::say(rt, b" against");
    say::number(rt, plane::diameter(a, b));
}

// What a box is to the pair a, b of a profile.
fn say_box(rt: &HostRuntime, grid: bool, a: Spot, b: Spot, low: Spot, high: Spot)
    requires { SpotIn a × SpotIn b × SpotIn low × SpotIn high }
{
    let o = boxed(low, high);
    if plane::profile::is_far(grid, a, b, o) {
        say::say(rt, b" skipped\n");
        return;
    }
    let side = plane::profile::side_inside(grid, a, b, o);
    if side == 4 {
        say::say(rt, b" opened\n");
        return;
    }
    say::say(rt, b" blocks by side");
    say::number(rt, side as u64);
    say::end_line(rt);
}

// What a box is to the circle on a, b.
fn box_rule(rt: &HostRuntime, a: Spot, b: Spot, low: Spot, high: Spot)
    requires { SpotIn a × SpotIn b × SpotIn low × SpotIn high }
{
    say_spots(rt, b"box rules", &[a, b]);
    say_spots(rt, b" box", &[low, high]);
    say_distance(rt, a, b, low, high);
    say_box(rt, false, a, b, low, high);
}

// Whether z blocks a, b along the streets.
fn street_block(rt: &HostRuntime, a: Spot, b: Spot, z: Spot)
    requires { SpotIn a × SpotIn b × SpotIn z }
{
    say_spots(rt, b"street rule", &[a, b, z]);
    if plane::profile::does_block(true, a, b, z) {
        say::say(rt, b" blocks\n");
    } else {
        say::say(rt, b" does not block\n");
    }
}

// What a box is to the pair a, b along the streets.
fn street_box(rt: &HostRuntime, a: Spot, b: Spot, low: Spot, high: Spot)
    requires { SpotIn a × SpotIn b × SpotIn low × SpotIn high }
{
    say_spots(rt, b"street boxes", &[a, b]);
    say_spots(rt, b" box", &[low, high]);
    say_box(rt, true, a, b, low, high);
}

// The size of the pair a, b along the streets.
fn street_size(rt: &HostRuntime, a: Spot, b: Spot)
    requires { SpotIn a × SpotIn b }
{
    say_spots(rt, b"street size", &[a, b]);
    say::number(rt, plane::profile::size_of(true, a, b));
    say::end_line(rt);
}

fn street_rule(rt: &HostRuntime) {
    street_block(rt, spot(0, 0), spot(4, 0), spot(2, 2));
    street_block(rt, spot(0, 0), spot(4, 0), spot(3, 1));
    street_block(rt, spot(0, 0), spot(4, 0), spot(2, 3));
    street_block(rt, spot(0, 0), spot(4, 0), spot(0, 0));
    street_block(rt, spot(0, 0), spot(4, 0), spot(4, 0));
    street_block(rt, spot(0, 0), spot(1, 0), spot(1, 1));
    street_block(rt, spot(0, 0), spot(4, 4), spot(5, 3));
    street_block(rt, spot(0, 0), spot(5, 3), spot(4, 4));
}

fn street_boxes(rt: &HostRuntime) {
    street_box(rt, spot(0, 0), spot(4, 0), spot(2, 2), spot(5, 5));
    street_box(rt, spot(0, 0), spot(4, 0), spot(4, 1), spot(6, 6));
    street_box(rt, spot(0, 0), spot(4, 0), spot(0, 0), spot(0, 0));
    street_box(rt, spot(0, 0), spot(4, 0), spot(1, 0), spot(9, 1));
    street_box(rt, spot(0, 0), spot(4, 0), spot(2, 0), spot(9, 1));
    street_size(rt, spot(0, 0), spot(3, 4));
}

fn ring_rule(rt: &HostRuntime) {
    block(rt, spot(0, 0), spot(4, 0), spot(2, 2));
    block(rt, spot(0, 0), spot(4, 0), spot(2, 3));
    block(rt, spot(0, 0), spot(4, 0), spot(2, 1));
    block(rt, spot(0, 0), spot(4, 0), spot(0, 0));
    block(rt, spot(7, 7), spot(7, 7), spot(7, 8));
    block(rt, spot(7, 7), spot(7, 7), spot(7, 7));
}

fn filter_rule(rt: &HostRuntime) {
    skip(rt, spot(0, 0), spot(3, 0), spot(3, 5));
    skip(rt, spot(0, 0), spot(3, 0), spot(2, 5));
    skip_box(rt, spot(0, 0), spot(3, 0), spot(3, -1), spot(9, 4));
}

fn box_rules(rt: &HostRuntime) {
    box_rule(rt, spot(0, 0), spot(4, 0), spot(1, 0), spot(9, 1));
    box_rule(rt, spot(0, 0), spot(4, 0), spot(0, 0), spot(0, 0));
    box_rule(rt, spot(0, 0), spot(4, 0), spot(2, 2), spot(5, 5));
    box_rule(rt, spot(0, 0), spot(4, 0), spot(4, 1), spot(6, 6));
}

pub fn rules(rt: &HostRuntime) {
    ring_rule(rt);
    filter_rule(rt);
    box_rules(rt);
    street_rule(rt);
    street_boxes(rt);
}
