// The walks of a sheet for q, with the droppers in hand.
ghost use Rattle.std.specs.Prelude.{◌≡◌, true, ◌+◌, ◌≤◌, ◌<◌};
ghost use Rattle.plane.specs.Rule.{SpotIn, drops, drops_box};
ghost use Rattle.sheet.specs.Nodes.{level_of};
ghost use Rattle.sheet.specs.Places.{box_of};
ghost use Rattle.sheet.specs.Boxes.{Below};
ghost use Rattle.bits.specs.Set.{Holds};
ghost use Rattle.seeds.specs.Line.{Lined, Known, At, Among, Drops};
ghost use Rattle.seeds.specs.Covers.{On, Deals, Retries};

use crate::line::Line;
use plane::Spot;
use sheet::Sheet;

// How many candidates there are, and the first of them: there is room for 64.
#[derive(Drop)]
struct Found {
    at: [usize; 64],
    count: usize,
}

// What the walk carries: the droppers in hand, and the candidates that are noted.
#[derive(Drop)]
pub(crate) struct Course {
    pub line: Line,
    found: Found,
}

impl Found {
    // One more candidate, which is noted where there is room.
    fn note(&mut self, at: usize) {
        if self.count < 64 {
            self.at[self.count] = at;
        }
        self.count = self.count.saturating_add(1);
    }
}

impl Course {
    // No dropper and no candidate yet.
    pub(crate) fn new() -> Course
        ensures { result.line.count ≡ 0 }
    {
        Course {
            line: Line::new(),
            found: Found {
                at: [0; 64],
                count: 0,
            },
        }
    }
}

// A dropper that drops the place z, for q, or their number.
fn spot_by(q: Spot, z: Spot, line: &Line) -> usize
    requires { SpotIn q × SpotIn z }
    ensures { Drops (λ y. drops q y z ≡ true) line.now result }
{
    line.dropper(|d| plane::does_block(q, z, d))
}

// The same of the box of node j.
fn box_by(w: Sheet<'_>, q: Spot, j: usize, line: &Line) -> usize
    requires { SpotIn q × (j < w.m) }
    ensures { Drops (λ z. drops_box q z (box_of w.entry.words.now w.entry.n j) ≡ true) line.now result }
{
    let o = w.box_at(j);
    line.dropper(|z| plane::drops_box(q, z, o))
}

// The place z is tried: a dropper drops it, or it is one from now on.
fn seed_place(q: Spot, z: Spot, line: &mut Line)
    requires { SpotIn q × SpotIn z }
    ensures { Lined (Known (At z) line.old) line.new }
{
    let by = spot_by(q, z, line);
    if by < line.count {
        line.last = by;
        return;
    }
    line.join(q, z);
}

// The places of a leaf are tried.
fn seed_places(w: Sheet<'_>, q: Spot, first: usize, count: usize, line: &mut Line)
    requires { SpotIn q × (first + count ≤ w.n) }
    ensures { Lined (Known (On w.entry.words.now w.entry.n) line.old) line.new }
{
    for i in 0..count {
        let at = w.order_at(first + i);
        let z = w.spot_at(at);
        seed_place(q, z, line);
    }
}

// Node j, where it is a leaf. Where a dropper drops its box none of its places would become one, and none is read.
fn seed_leaf(w: Sheet<'_>, q: Spot, j: usize, line: &mut Line)
    requires { SpotIn q × (j < w.m) }
    ensures { Lined (Known (On w.entry.words.now w.entry.n) line.old) line.new }
{
    let level = w.level_at(j);
    let first = w.first_at(j);
    let count = w.count_at(j);
    if level > 0 {
        return;
    }
    if box_by(w, q, j, line) < line.count {
        return;
    }
    seed_places(w, q, first, count, line);
}

// The leaf at node j, and the nodes beside it where they are leaves.
pub(crate) fn seed_about(w: Sheet<'_>, q: Spot, j: usize, line: &mut Line)
    requires { SpotIn q × (j < w.m) }
    ensures { Lined (Known (On w.entry.words.now w.entry.n) line.old) line.new }
{
    let left = if j > 0 { j - 1 } else { j };
    let right = if j + 1 < w.m { j + 1 } else { j };
    seed_leaf(w, q, j, line);
    seed_leaf(w, q, left, line);
    seed_leaf(w, q, right, line);
}

// The position at place r is a candidate, unless a dropper drops it.
fn walk_place(w: Sheet<'_>, q: Spot, r: usize, bits: &mut [u64], so: &mut Course)
    requires { SpotIn q × (r < w.n) × Holds bits.old w.n }
    ensures { Lined (Known (On w.entry.words.now w.entry.n) so.old.line) so.new.line × Deals (Known (On w.entry.words.now w.entry.n) so.old.line) w.entry.words.now w.entry.n q (λ k. k ≡ r) bits.old bits.new }
{
    let at = w.order_at(r);
    let z = w.spot_at(at);
    let by = spot_by(q, z, &so.line);
    if by < so.line.count {
        so.line.last = by;
        return;
    }
    bits::insert(bits, at);
    so.found.note(at);
    so.line.join(q, z);
}

// The places of a leaf, in turn.
fn walk_places(w: Sheet<'_>, q: Spot, first: usize, count: usize, bits: &mut [u64], so: &mut Course)
    requires { SpotIn q × (first + count ≤ w.n) × Holds bits.old w.n }
    ensures { Lined (Known (On w.entry.words.now w.entry.n) so.old.line) so.new.line × Deals (Known (On w.entry.words.now w.entry.n) so.old.line) w.entry.words.now w.entry.n q (λ k. (first ≤ k) × (k < first + count)) bits.old bits.new }
{
    for i in 0..count {
        walk_place(w, q, first + i, bits, so);
    }
}

// The walk below node j: of what it covers, a box that a dropper drops is passed over.
pub(crate) fn walk_node(w: Sheet<'_>, q: Spot, j: usize, bits: &mut [u64], so: &mut Course)
    requires { SpotIn q × (j < w.m) × Holds bits.old w.n }
    ensures { Lined (Known (On w.entry.words.now w.entry.n) so.old.line) so.new.line × Deals (Known (On w.entry.words.now w.entry.n) so.old.line) w.entry.words.now w.entry.n q (Below w.entry.words.now w.entry.n (level_of w.entry.words.now w.entry.n j) j) bits.old bits.new }
{
    let level = w.level_at(j);
    let first = w.first_at(j);
    let count = w.count_at(j);
    if level == 0 {
        walk_places(w, q, first, count, bits, so);
        return;
    }
    for i in 0..count {
        let by = box_by(w, q, first + i, &so.line);
        if by < so.line.count {
            so.line.last = by;
        } else {
            walk_node(w, q, first + i, bits, so);
        }
    }
}

// The candidate at position i is tried once more: where a dropper drops it by now it is none any more.
#[inline(always)]
fn retry(w: Sheet<'_>, q: Spot, i: usize, bits: &mut [u64], line: &Line)
    requires { SpotIn q × (i < w.n) × Holds bits.old w.n }
    ensures { Retries (Among line.now) w.entry.words.now q bits.old bits.new }
{
    let z = w.spot_at(i);
    if spot_by(q, z, line) < line.count {
        bits::remove(bits, i);
    }
}

// All candidates are tried once more, by position.
fn retry_all(w: Sheet<'_>, q: Spot, bits: &mut [u64], line: &Line)
    requires { SpotIn q × Holds bits.old w.n }
    ensures { Retries (Among line.now) w.entry.words.now q bits.old bits.new }
{
    let mut i = crate::scan::next_from(bits, 0);
    // Kept: each step goes to the next kept bit, and the walk may take bits away: the loop counts no index.
    while i < w.n {
        retry(w, q, i, bits, line);
        i = crate::scan::next_from(bits, i + 1);
    }
}

// The candidates are tried once more: those that are noted, or where there was no room for them all, all.
pub(crate) fn try_again(w: Sheet<'_>, q: Spot, bits: &mut [u64], so: &Course)
    requires { SpotIn q × Holds bits.old w.n }
    ensures { Retries (Among so.now.line) w.entry.words.now q bits.old bits.new }
{
    let noted = so.found.count;
    if noted > 64 {
        retry_all(w, q, bits, &so.line);
        return;
    }
    for i in &so.found.at[..noted] {
        if *i < w.n {
            retry(w, q, *i, bits, &so.line);
        }
    }
}
