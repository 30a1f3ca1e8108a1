// All chambers of a list, one after the other.
ghost use Rattle.std.specs.Prelude.{◌≡◌, length};
ghost use Rattle.sheet.specs.Places.{points_of};
ghost use Rattle.bits.specs.Set.{Holds};
ghost use Rattle.join.specs.Sheets.{Alone};
ghost use Rattle.chamber.specs.Sized.{list_to};

use list::Terms;
use sheet::Sheet;

fn wider(k: usize) -> u64
    ensures { result ≡ k }
{
    k as u64
}

// How many pairs the list has.
pub(crate) fn count_all(
    p: Sheet<'_>,
    q: Sheet<'_>,
    owners: &[u8],
    terms: Terms,
    largest: u64,
    bits: &mut [u64],
) -> u64
    requires { Alone terms p.words.now q.words.now × Holds bits.old p.n }
    ensures { result ≡ length (list_to largest terms owners.now (points_of p.entry.words.now) (points_of q.entry.words.now)) }
{
    let n = q.n;
    let mut total: u64 = 0;
    for j in 0..n {
        let found = chamber::listed_of(p, q, owners, terms, largest, j, bits);
        total += wider(found);
    }
    total
}
