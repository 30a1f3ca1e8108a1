// For one chamber, the candidates among the pump houses: a set of positions that has every ring partner of the chamber, and few others.
// Droppers are places of records of both sheets. They are taken from the leaves about the chamber; then the pump houses are walked from the root, a box or a place that a
// dropper drops is passed over, and any other place is a candidate, and a dropper from then on. Which droppers there are is free, since each that drops is a record that blocks.
#![tactic(auto)]

mod guess;
mod line;
pub mod scan;
mod walks;

ghost use Rattle.std.specs.Prelude.{◌<◌, ◌≡◌};
ghost use Rattle.plane.specs.Rule.{SpotIn};
ghost use Rattle.bits.specs.Set.{Holds};
ghost use Rattle.seeds.specs.Line.{Lined};
ghost use Rattle.seeds.specs.Covers.{OnEither, Covers};

use line::Line;
use plane::Spot;
use sheet::Sheet;
use walks::Course;

// The droppers to begin with, for the chamber at position j, which stands at z: from its own leaf and the leaves beside it, and from a leaf of P near it and those beside that.
fn first_line(p: Sheet<'_>, q: Sheet<'_>, j: usize, z: Spot, line: &mut Line)
    requires { (0 < p.m) × (j < q.n) × SpotIn z × (line.old.count ≡ 0) }
    ensures { Lined (OnEither p.entry.words.now p.entry.n q.entry.words.now q.entry.n) line.new }
{
    let own = guess::leaf_of(q, j);
    walks::seed_about(q, z, own, line);
    let near = guess::leaf_near(p, z);
    walks::seed_about(p, z, near, line);
}

// The candidates for the chamber at position j, on the words lent. Of the street grid, all.
pub fn candidates(p: Sheet<'_>, q: Sheet<'_>, j: usize, bits: &mut [u64], grid: bool)
    requires { (j < q.n) × Holds bits.old p.n }
    ensures { Covers grid p.entry.words.now q.entry.words.now j bits.new }
{
    if grid {
        bits::fill(bits, p.n);
        return;
    }
    bits::clear(bits);
    if p.m == 0 {
        return;
    }
    let z = q.spot_at(j);
    let mut so = Course::new();
    first_line(p, q, j, z, &mut so.line);
    let root = p.m - 1;
    walks::walk_node(p, z, root, bits, &mut so);
    walks::try_again(p, z, bits, &so);
}
