// The position of an id.
ghost use Rattle.std.specs.Prelude.{◌≡◌, MatchResult};
ghost use Rattle.ring.specs.Position.{place_at, place_refused, placed};

use crate::Placed;

// The position of the record with this id, or the number that the question is refused by.
fn found(words: &[i32], id: u32) -> Result<usize, u32>
    ensures { MatchResult result (λ i. place_at i ≡ placed words.now id) (λ k. place_refused k ≡ placed words.now id) }
{
    let s = sheet::Sheet::open(words)?;
    let i = s.position_of(id);
    if s.n <= i {
        return Err(20);
    }
    Ok(i)
}

// The position of the record with this id, of a pump house or of a chamber; refused by 1 to 8, then by 20 where no record of the sheet has the id.
pub fn position(words: &[i32], id: u32) -> Placed
    ensures { result ≡ placed words.now id }
{
    match found(words, id) {
        Ok(position) => Placed {
            number: 0,
            position,
        },
        Err(number) => Placed {
            number,
            position: 0,
        },
    }
}
