// The listing, chamber after chamber.
ghost use Rattle.std.specs.Prelude.{◌≡◌, ◌+◌, ◌*◌, ◌≤◌, ◌<◌, length};
ghost use Rattle.sheet.specs.Places.{points_of};
ghost use Rattle.bits.specs.Set.{Holds};
ghost use Rattle.list.specs.RingList.{ring_pair, pair_at};
ghost use Rattle.chamber.specs.Chamber.{PairsOn};
ghost use Rattle.printout.specs.Outcome.{Both, pairs_of};

use list::Terms;
use sheet::Sheet;

// Room for the lines of a chamber, and for many of most: a chamber of sheets of form 1 has at most 1,000 lines, of at most 107 bytes.
fn buffer() -> [u8; 131072]
    ensures { 131072 ≡ length result }
{
    [0; 131072]
}

// The ring pairs of the chamber at position j, kept on the words lent: how many they are. A sheet of form 1 has at most 1,000 points.
fn keep_pairs(p: Sheet<'_>, q: Sheet<'_>, j: usize, bits: &mut [u64]) -> usize
    requires { Both p.words.now (record { n = p.n; m = p.m }) q.words.now (record { n = q.n; m = q.m }) × (j < q.n) × Holds bits.old p.n }
    ensures pairs_on { PairsOn (ring_pair (points_of p.entry.words.now) (points_of q.entry.words.now)) (pair_at (points_of p.entry.words.now) (points_of q.entry.words.now)) j p.entry.n bits.new result }
    ensures upper_bound { result ≤ 1000 }
{
    let terms = Terms {
        threshold: 0,
        contractor: 2,
        own: false,
        grid: false,
    };
    chamber::pairs_of(p, q, terms, 8_000_000_000_000_000_000, j, bits)
}

// A place in the buffer with room for so many lines after it: `at`, or the start, after what stands before `at` is written.
fn make_room(rt: &impl Print, out: &[u8], at: usize, lines: usize) -> usize
    requires { (at ≤ length out.now) × (107 * lines ≤ length out.now) }
    ensures { result + 107 * lines ≤ length out.now }
{
    if out.len() - at >= 107 * lines {
        return at;
    }
    let _ = rt.write_all(&out[..at]);
    0
}

// Writes a line for each ring pair and the last line, and answers their number. Sixteen words hold the kept bits of a sheet of form 1.
pub fn list_pairs(rt: &impl Print, p: Sheet<'_>, q: Sheet<'_>) -> u64
    requires { Both p.words.now (record { n = p.n; m = p.m }) q.words.now (record { n = q.n; m = q.m }) }
    ensures { result ≡ length (pairs_of p.entry.words.now q.entry.words.now) }
{
    let n = q.n;
    let mut out = buffer();
    let mut bits = [0u64; 16];
    let mut at: usize = 0;
    let mut total: u64 = 0;
    for j in 0..n {
        let found = keep_pairs(p, q, j, &mut bits);
        let from = make_room(rt, &out, at, found);
        at = crate::lines::put_chamber(p, q, j, &bits, found, &mut out, from);
        total += found as u64;
    }
    let from = make_room(rt, &out, at, 1);
    let to = text::put_end(total, &mut out, from);
    let _ = rt.write_all(&out[..to]);
    total
}
