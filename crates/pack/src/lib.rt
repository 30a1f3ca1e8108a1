// Packing a sheet from a point list.
#![tactic(auto)]

mod order;
mod tree;
mod write;

ghost use Rattle.std.specs.Prelude.{◌≡◌, true, false, ℕ, ◌≤◌, ◌<◌, length, get_or};
ghost use Rattle.words.specs.First.{answer};
ghost use Rattle.sheet.specs.Limits.{Fair};
ghost use Rattle.pack.specs.Packed.{packed};
ghost use Rattle.pack.specs.Pack.{shape_ok, range_ok, within_no, pack_no, pack_out, length_for};

use sheet::Limits;

// Whether there are three words for each of n points, and a place for each. Any n is answered: 3n is never made.
fn shape_ok(n: usize, p: &[i32], o: &[i32]) -> bool
    ensures { result ≡ shape_ok n p.now o.now }
{
    (p.len() % 3 == 0) & (p.len() / 3 == n) & (o.len() == n)
}

// Whether n and the edition are in range.
fn range_ok(lim: Limits, n: usize, edition: u32) -> bool
    ensures { result ≡ range_ok lim n edition }
{
    (n <= lim.points) & words::is_edition(edition)
}

// The first of the refusals 3, 5, 6, 17 under these limits that applies, or 0, for lent words of length `size`. `seen` has a mark for each position, none
// set.
fn within_no(
    lim: Limits,
    n: usize,
    p: &[i32],
    o: &[i32],
    edition: u32,
    size: usize,
    seen: &mut [bool],
) -> u32
    requires { Fair lim × (shape_ok n p.now o.now ≡ true) × (lim.points ≤ length seen.old) × ((i : ℕ) → i < lim.points → get_or seen.old i false ≡ false) }
    ensures { result ≡ within_no lim n p.now o.now edition size }
{
    if !range_ok(lim, n, edition) {
        return 3;
    }
    if !sheet::points::points_ok(lim, p, n) {
        return 5;
    }
    if !order::each_once(o, n, seen) {
        return 6;
    }
    if size != tree::size_for(n) {
        return 17;
    }
    0
}

// Packs a sheet under these limits, of points and an order list that are as long as n says, with marks for N positions.
fn pack_by<const N: usize>(
    lim: Limits,
    n: usize,
    p: &[i32],
    o: &[i32],
    edition: u32,
    out: &mut [i32],
) -> u32
    requires { Fair lim × (lim.form < 2147483648) × (lim.points ≤ N) × (N ≤ 60000) × (shape_ok n p.now o.now ≡ true) }
    ensures value { result ≡ within_no lim n p.now o.now edition (length out.old) }
    ensures out_after { out.new ≡ answer (within_no lim n p.now o.now edition (length out.old)) (packed lim.form p.now o.now n edition) (λ k. out.old) }
{
    let mut seen = [false; N];
    let k = within_no(lim, n, p, o, edition, out.len(), &mut seen);
    if k == 0 {
        write::put_sheet(lim.form, n, p, o, edition, out);
    }
    k
}

// Packs the sheet of this form of n points, the words of which are id, x, y, in the order of the places that the order list gives. The answer is 0, and the
// lent words are the sheet; or it is the number of refusal, and they are as they were: by 18, then by 2 for a form other than 1 or 2, then by 3, 5, 6, 17.
pub fn pack(
    form: u32,
    n: usize,
    points: &[i32],
    order: &[i32],
    edition: u32,
    out: &mut [i32],
) -> u32
    ensures value { result ≡ pack_no form n points.now order.now edition (length out.old) }
    ensures out_after { out.new ≡ pack_out form n points.now order.now edition out.old }
{
    if !shape_ok(n, points, order) {
        return 18;
    }
    match form {
        1 => pack_by::<1000>(sheet::form1(), n, points, order, edition, out),
        2 => pack_by::<60000>(sheet::form2(), n, points, order, edition, out),
        _ => 2,
    }
}

// How many words a caller lends to `pack` for a sheet of n points; 0 where n is over 60,000, which no form has.
pub fn sheet_len(n: usize) -> usize
    ensures { result ≡ length_for n }
{
    if 60000 < n {
        return 0;
    }
    tree::size_for(n)
}
