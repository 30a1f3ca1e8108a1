// Words from the bytes of a file: little-endian two's complement.
ghost use Rattle.std.specs.Prelude.{◌≡◌, ◌++◌, ◌*◌, ◌≤◌, length, drop};
ghost use Rattle.words.specs.Bytes.{word, words_of};

// The word that four bytes spell.
pub fn word_le(b0: u8, b1: u8, b2: u8, b3: u8) -> i32
    ensures { result ≡ word b0 b1 b2 b3 }
{
    i32::from_le_bytes([b0, b1, b2, b3])
}

// The first n words of `bytes`, to the first n places of `out`. The others stay as they were.
pub fn decode(bytes: &[u8], n: usize, out: &mut [i32])
    requires n_in_bounds { 4 * n ≤ length bytes.now }
    requires n_in_bounds_2 { n ≤ length out.old }
    ensures { out.new ≡ words_of bytes.now n ++ drop n out.old }
{
    for i in 0..n {
        let at = 4 * i;
        out[i] = word_le(bytes[at], bytes[at + 1], bytes[at + 2], bytes[at + 3]);
    }
}
