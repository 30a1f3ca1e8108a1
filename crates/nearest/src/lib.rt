// Nearest first: the calls for a single chamber, on plain slices. Every input is answered, and a refusal gives only its number.
// What waits in the walk stands in numbers that the caller lends: as many as P has points and nodes, or more.
#![tactic(auto)]

ghost use Rattle.std.specs.Prelude.{◌≡◌, ◌≢◌, MatchResult, ◌+◌, ◌≤◌, ◌<◌, length};
ghost use Rattle.bits.specs.Set.{wiped, Holds};
ghost use Rattle.plane.specs.Rule.{SpotIn};
ghost use Rattle.outward.specs.NearWalk.{near_kept};
ghost use Rattle.ring.specs.Answers.{filtered_to, unfiltered};
ghost use Rattle.nearest.specs.Nearest.{nearest_no, near_filter_no, placed_at, unplaced_at, chamber_found, near_at, nearest_at, nearest_refused, nearest_answer, near_filtered, near_filtered_bits, waited_by};

use plane::Spot;
use ring::Filtered;
use sheet::Sheet;

// A pump house: its id and its squared distance to the chamber.
#[repr(C)]
#[derive(Clone, Copy)]
pub struct Near {
    pub id: u32,
    pub distance: u64,
}

// What `nearest` answers: 0, how many pump houses are given and these, the nearest first, the rest zeros; or the number of refusal and zeros.
// Kept: the C interface; `ring_nearest` of ffi hands it to C as it stands.
#[repr(C)]
#[derive(Clone, Copy)]
pub struct Found {
    pub number: u32,
    pub count: usize,
    pub points: [Near; 16],
}

// A refused answer: its number, and zeros.
fn refused(number: u32) -> Found
    ensures { result ≡ nearest_refused number }
{
    Found {
        number,
        count: 0,
        points: [Near { id: 0, distance: 0 }; 16],
    }
}

// The same of the filter.
fn unkept(number: u32) -> Filtered
    ensures { result ≡ unfiltered number }
{
    Filtered {
        number,
        count: 0,
        opened: 0,
    }
}

// P of both sheets, and where the chamber with the id stands; refused by 1 to 8 of P, then of Q, then by 20 where no chamber has the id.
fn placed<'a>(p: &'a [i32], q: &'a [i32], id: u32) -> Result<(Sheet<'a>, Spot), u32>
    ensures { MatchResult result (λ c. (c.0.words.now ≡ p.now) × (placed_at c.0.n c.0.m c.1 ≡ chamber_found p.now q.now id)) (λ k. (k ≢ 0) × (unplaced_at k ≡ chamber_found p.now q.now id)) }
{
    let ps = Sheet::open(p)?;
    let qs = Sheet::open(q)?;
    let j = qs.position_of(id);
    if qs.n <= j {
        return Err(20);
    }
    Ok((ps, qs.spot_at(j)))
}

// The pump house at position i: its id and its squared distance to q.
fn near_at(p: Sheet<'_>, q: Spot, i: usize) -> Near
    requires { SpotIn q × (i < p.n) }
    ensures { result ≡ near_at p.entry.words.now q i }
{
    let at = p.spot_at(i);
    Near {
        id: p.id_at(i),
        distance: plane::diameter(q, at),
    }
}

// The first `size` pump houses for the place q.
fn given(p: Sheet<'_>, q: Spot, size: usize, waiting: &mut [u64]) -> Found
    requires { SpotIn q × (size ≤ 16) × (p.n + p.m ≤ length waiting.old) }
    ensures { (result ≡ nearest_at p.entry.words.now q size) × (waiting.new ≡ wiped (p.entry.n + p.entry.m) waiting.old) }
{
    let f = outward::order::first_points(p, q, size, waiting);
    let count = f.count;
    let mut points = [Near { id: 0, distance: 0 }; 16];
    for k in 0..count {
        let i = f.at[k];
        points[k] = near_at(p, q, i);
    }
    Found {
        number: 0,
        count,
        points,
    }
}

// The pump houses of P, the nearest to the chamber with this id first, at most `size`; on a tie that at the lower position, so of the lower id.
// The first n + m lent numbers are 0 after an answer, and the rest as they were.
// Refused by 1 to 8 of P, then of Q, then by 20 where no chamber has the id, then by 10 for the size, then by 25 where fewer numbers are lent than P has points and nodes;
// no lent number is touched then.
pub fn nearest(p: &[i32], q: &[i32], id: u32, size: usize, waiting: &mut [u64]) -> Found
    ensures { (result ≡ nearest_answer p.now q.now id size (length waiting.old)) × (waiting.new ≡ waited_by (nearest_no p.now q.now id size (length waiting.old)) p.now waiting.old) }
{
    let (ps, at) = match placed(p, q, id) {
        Ok(found) => found,
        Err(no) => return refused(no),
    };
    let no = list::size_no(size);
    if no != 0 {
        return refused(no);
    }
    if waiting.len() < ps.n + ps.m {
        return refused(25);
    }
    given(ps, at, size, waiting)
}

// The walk over a sheet that opens for the place q: the words lent are its kept set, and what waits stands in the lent numbers.
fn kept_on(p: Sheet<'_>, q: Spot, waiting: &mut [u64], bits: &mut [u64]) -> Filtered
    requires { SpotIn q × (p.n + p.m ≤ length waiting.old) × Holds bits.old p.n }
    ensures { (result ≡ filtered_to (near_kept (length bits.old) p.entry.words.now q)) × (waiting.new ≡ wiped (p.entry.n + p.entry.m) waiting.old) × (bits.new ≡ (near_kept (length bits.old) p.entry.words.now q).bits) }
{
    let opened = outward::filter::near_kept(p, q, bits, waiting);
    Filtered {
        number: 0,
        count: bits::len(bits),
        opened,
    }
}

// The filter walk for the chamber with this id over P that goes nearest first: the positions of P that may be ring partners, one bit each in the words lent, as many as the points
// of P need. The lent numbers as `nearest` leaves them. Refused as it is, but for the size; by 24 before 25 where fewer words are lent. No word and no number is touched then, nor
// ever one past them.
pub fn near_filter(p: &[i32], q: &[i32], id: u32, waiting: &mut [u64], bits: &mut [u64]) -> Filtered
    ensures { (result ≡ near_filtered p.now q.now id (length bits.old) (length waiting.old)) × (waiting.new ≡ waited_by (near_filter_no p.now q.now id (length bits.old) (length waiting.old)) p.now waiting.old) × (bits.new ≡ near_filtered_bits p.now q.now id (length waiting.old) bits.old) }
{
    let (ps, at) = match placed(p, q, id) {
        Ok(found) => found,
        Err(no) => return unkept(no),
    };
    let w = bits::words_for(ps.n);
    if bits.len() < w {
        return unkept(24);
    }
    if waiting.len() < ps.n + ps.m {
        return unkept(25);
    }
    kept_on(ps, at, waiting, &mut bits[..w])
}
