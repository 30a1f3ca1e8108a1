// The ring walk.
ghost use Rattle.std.specs.Prelude.{◌≡◌};
ghost use Rattle.ring.specs.Answers.{walked};

use walk::Answer;

// The ring walk for position j of Q and position i of P, of a profile, the street grid's where `grid` is set: over Q, then over P if Q is clear.
// Refused by 1 to 8 of P, then of Q, then by 29 where the street grid is asked of a sheet of form 2, then by 9 where a position is not below its sheet's n.
pub fn ring_walk(p: &[i32], q: &[i32], j: usize, i: usize, grid: bool) -> Result<Answer, u32>
    ensures { result ≡ walked p.now q.now j i grid }
{
    let (ps, qs) = crate::open::heads_of(p, q)?;
    let form = chamber::number::grid_no(p, q, grid);
    if form != 0 {
        return Err(form);
    }
    if qs.n <= j {
        return Err(9);
    }
    if ps.n <= i {
        return Err(9);
    }
    Ok(walk::ring::pair_walk_by(ps, qs, j, i, grid))
}
