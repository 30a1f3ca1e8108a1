// The run of a leaf, on lent words: its ring pairs, each by its bit, and how they are read one after the other.
ghost use Rattle.std.specs.Prelude.{◌≡◌, [], ◌∷◌, ◌<◌, length};
ghost use Rattle.sheet.specs.Nodes.{level_of};
ghost use Rattle.leaf.specs.LeafRun.{leaf_list, leaf_opened, RunSet, left_from};
ghost use Rattle.leaf.specs.Room.{Sets};

use list::Pair;
use sheet::Sheet;

// How many ring pairs a leaf has, and the nodes opened to find them.
#[derive(Clone, Copy)]
pub struct Made {
    pub count: usize,
    pub opened: u64,
}

// A pair of a run, and the bit from which on the next one is to be sought.
#[derive(Clone, Copy)]
pub struct Step {
    pub pair: Pair,
    pub next: usize,
}

// The run of the leaf v of Q: of the words lent, the bits of its ring pairs are left, and no other.
pub fn run_made(p: Sheet<'_>, q: Sheet<'_>, v: usize, words: usize, bits: &mut [u64]) -> Made
    requires { (v < q.m) × (level_of q.words.now q.n v ≡ 0) × Sets bits.old words p.n }
    ensures { RunSet p.entry.words.now q.entry.words.now v words bits.new × (result.count ≡ length (leaf_list p.entry.words.now q.entry.words.now v)) × (result.opened ≡ leaf_opened words p.entry.words.now q.entry.words.now v) }
{
    let first = q.first_at(v);
    let chambers = q.count_at(v);
    let end = 64 * (words * chambers);
    let mut opened = crate::filter::leaf_kept(p, q, v, words, bits);
    let mut count: usize = 0;
    let mut at = bits::next_from(bits, 0);
    // Kept: each step goes to the next kept bit, and the walk may take bits away: the loop counts no index.
    while at < end {
        let j = q.order_at(first + at / (64 * words));
        let a = walk::ring::pair_walk(p, q, j, at % (64 * words));
        opened += a.opened;
        if walk::clear_after(a) {
            count += 1;
        } else {
            bits::remove(bits, at);
        }
        at = bits::next_from(bits, at + 1);
    }
    Made { count, opened }
}

// The first pair of a run from bit `at` on, where there is one.
pub fn pair_from(
    p: Sheet<'_>,
    q: Sheet<'_>,
    v: usize,
    words: usize,
    bits: &[u64],
    at: usize,
) -> Step
    requires { (v < q.m) × (level_of q.words.now q.n v ≡ 0) × Sets bits.now words p.n × RunSet p.words.now q.words.now v words bits.now × (left_from p.words.now q.words.now v words bits.now at ≡ [] → ⊥) }
    ensures { left_from p.entry.words.now q.entry.words.now v words bits.now at ≡ result.pair ∷ left_from p.entry.words.now q.entry.words.now v words bits.now result.next }
{
    let x = bits::next_from(bits, at);
    let first = q.first_at(v);
    let j = q.order_at(first + x / (64 * words));
    let pair = walk::pair::pair_at(p, q, j, x % (64 * words));
    let next = x + 1;
    Step { pair, next }
}
