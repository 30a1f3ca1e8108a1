// The text of the listing, put into a slice that the caller lends. Each function answers the place after what it has put, and what stood before
// the place that it was given still stands there.
// Kept: a struct with the slice and the place would need one more clause in each contract, that it still holds the same slice: that is no plainer.
#![tactic(auto)]

ghost use Rattle.std.specs.Prelude.{◌≡◌, [], ◌∷◌, ◌++◌, ◌+◌, ◌≤◌, ◌<◌, nat_abs, length, take};
ghost use Rattle.text.specs.Text.{Grown, decimal_in, decimal, signed_text, number, signed, line_text, end_text, refused_text, input_text};

pub fn put_byte(b: u8, out: &mut [u8], at: usize) -> usize
    requires { at < length out.old }
    ensures { (result ≡ at + 1) × (take result out.new ≡ take at out.old ++ (b ∷ [])) }
{
    out[at] = b;
    at + 1
}

pub fn put(src: &[u8], out: &mut [u8], at: usize) -> usize
    requires { at + length src.now ≤ length out.old }
    ensures { Grown out.old at out.new result src.now }
{
    let end = at + src.len();
    out[at..end].copy_from_slice(src);
    end
}

// The size of a number.
pub fn size(z: i64) -> u64
    ensures { result ≡ nat_abs z }
{
    z.unsigned_abs()
}

// The decimal text of n, of which so many places are enough.
fn put_digits(n: u64, places: usize, out: &mut [u8], at: usize) -> usize
    requires { at + places ≤ length out.old }
    ensures grown { Grown out.old at out.new result (decimal_in places n) }
    ensures upper_bound { result ≤ at + places }
{
    if places == 0 {
        return at;
    }
    if n < 10 {
        return put_byte(b'0' + n as u8, out, at);
    }
    let next = put_digits(n / 10, places - 1, out, at);
    put_byte(b'0' + (n % 10) as u8, out, next)
}

// The decimal text of n.
pub fn put_decimal(n: u64, out: &mut [u8], at: usize) -> usize
    requires { at + 20 ≤ length out.old }
    ensures grown { Grown out.old at out.new result (decimal n) }
    ensures upper_bound { result ≤ at + 20 }
{
    put_digits(n, 20, out, at)
}

// The decimal text of z, with a minus before a number below zero.
pub fn put_signed(z: i64, out: &mut [u8], at: usize) -> usize
    requires { at + 21 ≤ length out.old }
    ensures grown { Grown out.old at out.new result (signed_text z) }
    ensures upper_bound { result ≤ at + 21 }
{
    if z < 0 {
        let next = put_byte(b'-', out, at);
        return put_decimal(size(z), out, next);
    }
    put_decimal(size(z), out, at)
}

// A number and the byte after it.
fn put_number(n: u64, b: u8, out: &mut [u8], at: usize) -> usize
    requires { at + 21 ≤ length out.old }
    ensures grown { Grown out.old at out.new result (number n b) }
    ensures upper_bound { result ≤ at + 21 }
{
    let next = put_decimal(n, out, at);
    put_byte(b, out, next)
}

// The same of a number with its sign.
fn put_whole(z: i64, b: u8, out: &mut [u8], at: usize) -> usize
    requires { at + 22 ≤ length out.old }
    ensures grown { Grown out.old at out.new result (signed z b) }
    ensures upper_bound { result ≤ at + 22 }
{
    let next = put_signed(z, out, at);
    put_byte(b, out, next)
}

// A line of the listing: q's id, p's id, twice the centre's x, twice its y, the squared diameter.
pub fn put_line(q: u32, p: u32, x: i64, y: i64, d: u64, out: &mut [u8], at: usize) -> usize
    requires { at + 107 ≤ length out.old }
    ensures grown { Grown out.old at out.new result (line_text q p x y d) }
    ensures upper_bound { result ≤ at + 107 }
{
    let a = put_number(u64::from(q), b' ', out, at);
    let b = put_number(u64::from(p), b' ', out, a);
    let c = put_whole(x, b' ', out, b);
    let e = put_whole(y, b' ', out, c);
    put_number(d, b'\n', out, e)
}

// The last line, with the number of pairs.
pub fn put_end(count: u64, out: &mut [u8], at: usize) -> usize
    requires { at + 25 ≤ length out.old }
    ensures grown { Grown out.old at out.new result (end_text count) }
    ensures upper_bound { result ≤ at + 25 }
{
    let next = put(b"end ", out, at);
    put_number(count, b'\n', out, next)
}

// The line of a refused sheet: `set` is the byte `q` or `p`.
pub fn put_refused(set: u8, no: u32, out: &mut [u8], at: usize) -> usize
    requires { at + 31 ≤ length out.old }
    ensures grown { Grown out.old at out.new result (refused_text set no) }
    ensures upper_bound { result ≤ at + 31 }
{
    let a = put(b"refused ", out, at);
    let b = put_byte(set, out, a);
    let c = put_byte(b' ', out, b);
    put_number(u64::from(no), b'\n', out, c)
}

// The line of an input that can be no two sheets.
pub fn put_input(out: &mut [u8], at: usize) -> usize
    requires { at + 14 ≤ length out.old }
    ensures grown { Grown out.old at out.new result input_text }
    ensures upper_bound { result ≤ at + 14 }
{
    put(b"refused input\n", out, at)
}
