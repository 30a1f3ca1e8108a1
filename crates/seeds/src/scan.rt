// From one kept position to the next, where there are many words: 16 of them that are 0 are passed over at once.
ghost use Rattle.std.specs.Prelude.{◌≡◌, true, ◌+◌, ◌*◌, ◌≤◌, length};
ghost use Rattle.bits.specs.Set.{next_from, Numbered};
ghost use Rattle.seeds.specs.Scan.{Blank};

// Whether the 16 words from w on are 0.
fn is_blank(bits: &[u64], w: usize) -> bool
    requires { (w + 16 ≤ length bits.now) × Numbered bits.now }
    ensures { result ≡ true → Blank bits.now w 16 }
{
    let mut blank = true;
    for word in &bits[w..w + 16] {
        blank = blank & (*word == 0);
    }
    blank
}

// A word from w on: no position is kept between the two.
fn past_blank(bits: &[u64], w: usize) -> usize
    requires { (w ≤ length bits.now) × Numbered bits.now }
    ensures { (result ≤ length bits.now) × (next_from bits.now (64 * result) ≡ next_from bits.now (64 * w)) }
{
    let n = bits.len();
    let mut at = w;
    // Kept: each step passes sixteen words at once, and where it stops is the answer: `chunks` would have to count them again, and is no plainer.
    while at + 16 <= n {
        if !is_blank(bits, at) {
            return at;
        }
        at += 16;
    }
    at
}

// A position from i on: none is kept between the two.
fn start(bits: &[u64], i: usize) -> usize
    requires { Numbered bits.now }
    ensures { next_from bits.now result ≡ next_from bits.now i }
{
    let n = bits.len();
    let w = i / 64;
    if n <= w {
        return i;
    }
    let rest = bits[w] >> (i % 64);
    if rest != 0 {
        return i;
    }
    64 * past_blank(bits, w + 1)
}

// The first kept position from i on; where none is left, the number of all positions.
pub fn next_from(bits: &[u64], i: usize) -> usize
    requires { Numbered bits.now }
    ensures { result ≡ next_from bits.now i }
{
    let at = start(bits, i);
    bits::next_from(bits, at)
}
