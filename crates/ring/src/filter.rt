// The filter walk.
ghost use Rattle.std.specs.Prelude.{◌≡◌, length};
ghost use Rattle.bits.specs.Set.{Holds};
ghost use Rattle.plane.specs.Rule.{SpotIn};
ghost use Rattle.walk.specs.FilterWalk.{filter_kept};
ghost use Rattle.ring.specs.Answers.{filtered_to, unfiltered, filtered, filtered_bits};

use crate::Filtered;
use plane::Spot;
use sheet::Sheet;
use walk::filter::ROOM;

// A refused answer: the number and zeros.
fn refused(number: u32) -> Filtered
    ensures { result ≡ unfiltered number }
{
    Filtered {
        number,
        count: 0,
        opened: 0,
    }
}

// The walk over a sheet that opens for the place q: the words lent are its kept set.
fn kept_on(p: Sheet<'_>, q: Spot, bits: &mut [u64]) -> Filtered
    requires { SpotIn q × Holds bits.old p.n }
    ensures { (result ≡ filtered_to (filter_kept (length bits.old) p.entry.words.now q)) × (bits.new ≡ (filter_kept (length bits.old) p.entry.words.now q).bits) }
{
    let mut latest = [0u32; ROOM];
    let opened = walk::filter::filter_kept(p, q, bits, &mut latest);
    Filtered {
        number: 0,
        count: bits::len(bits),
        opened,
    }
}

// The filter walk for position j of Q over P: the positions of P that may be ring partners, one bit each in the words lent, as many as the points of P need.
// Refused by 1 to 8 of P, then of Q, then by 9 where the position is not below Q's n, then by 24 where fewer words are lent; no word is touched then, nor ever one past them.
pub fn filter_walk(p: &[i32], q: &[i32], j: usize, bits: &mut [u64]) -> Filtered
    ensures { (result ≡ filtered p.now q.now j (length bits.old)) × (bits.new ≡ filtered_bits p.now q.now j bits.old) }
{
    let (ps, qs) = match crate::open::heads_of(p, q) {
        Ok(both) => both,
        Err(no) => return refused(no),
    };
    if qs.n <= j {
        return refused(9);
    }
    let w = bits::words_for(ps.n);
    if bits.len() < w {
        return refused(24);
    }
    kept_on(ps, qs.spot_at(j), &mut bits[..w])
}
