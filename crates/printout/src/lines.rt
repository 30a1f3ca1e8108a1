// The lines of the listing: of a pair, and of a chamber.
ghost use Rattle.std.specs.Prelude.{◌+◌, ◌*◌, ◌≤◌, ◌<◌, length};
ghost use Rattle.plane.specs.Rule.{SpotIn};
ghost use Rattle.bits.specs.Set.{Holds};
ghost use Rattle.sheet.specs.Places.{points_of};
ghost use Rattle.list.specs.RingList.{ring_pair, pair_at};
ghost use Rattle.chamber.specs.Chamber.{PairsOn};
ghost use Rattle.text.specs.Text.{Grown};
ghost use Rattle.printout.specs.Listing.{line_at, line_of, lines_of, ring_row};

use list::Pair;
use plane::Spot;
use sheet::Sheet;

// The line of a pair whose q stands at a and whose p stands at b.
fn put_line(v: Pair, a: Spot, b: Spot, out: &mut [u8], at: usize) -> usize
    requires { SpotIn a × SpotIn b × (at + 107 ≤ length out.old) }
    ensures grown { Grown out.old at out.new result (line_at v a b) }
    ensures upper_bound { result ≤ at + 107 }
{
    text::put_line(v.q, v.p, a.x + b.x, a.y + b.y, v.size, out, at)
}

// The line of the pair of position j of Q and position i of P.
fn put_pair(p: Sheet<'_>, q: Sheet<'_>, j: usize, i: usize, out: &mut [u8], at: usize) -> usize
    requires { (j < q.n) × (i < p.n) × (at + 107 ≤ length out.old) }
    ensures grown { Grown out.old at out.new result (line_of (points_of p.entry.words.now) (points_of q.entry.words.now) (pair_at (points_of p.entry.words.now) (points_of q.entry.words.now) j i)) }
    ensures upper_bound { result ≤ at + 107 }
{
    let v = walk::pair::pair_at(p, q, j, i);
    let a = q.spot_at(j);
    let b = p.spot_at(i);
    put_line(v, a, b, out, at)
}

// The lines of the pairs of the chamber at position j: `count` pairs, which are kept on the words lent.
pub fn put_chamber(
    p: Sheet<'_>,
    q: Sheet<'_>,
    j: usize,
    bits: &[u64],
    count: usize,
    out: &mut [u8],
    at: usize,
) -> usize
    requires opens { (j < q.n) × Holds bits.now p.n }
    requires pairs_on { PairsOn (ring_pair (points_of p.words.now) (points_of q.words.now)) (pair_at (points_of p.words.now) (points_of q.words.now)) j p.n bits.now count }
    requires count_in_bounds { at + 107 * count ≤ length out.old }
    ensures grown { Grown out.old at out.new result (lines_of (points_of p.entry.words.now) (points_of q.entry.words.now) (ring_row (points_of p.entry.words.now) (points_of q.entry.words.now) j)) }
    ensures upper_bound { result ≤ at + 107 * count }
{
    let n = p.n;
    let mut to = at;
    let mut i = seeds::scan::next_from(bits, 0);
    // Kept: the loop counts no index; each step goes to the next kept bit, so a `for` over 0..n with a test of the bit in it would be no plainer.
    while i < n {
        to = put_pair(p, q, j, i, out, to);
        i = seeds::scan::next_from(bits, i + 1);
    }
    to
}
