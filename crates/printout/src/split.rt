// Where the input is split into P and Q.
ghost use Rattle.std.specs.Prelude.{◌≡◌, ◌≤◌, length};
ghost use Rattle.printout.specs.Split.{split_at, bad_input};

// Whether so many bytes can be no two sheets.
pub fn is_bad(bytes: usize) -> bool
    ensures { result ≡ bad_input bytes }
{
    (bytes < 24) | ((62448 < bytes) | !(bytes % 4 == 0))
}

// How many of the words are P's; the others are Q's.
pub fn split_at(s: &[i32]) -> usize
    requires { 6 ≤ length s.now }
    ensures value { result ≡ split_at s.now }
    ensures upper_bound { result ≤ length s.now }
{
    let len = s.len();
    let span = words::at(s, len - 6);
    if words::before(span, 0) {
        return 0;
    }
    let length = words::num(span) + 6;
    if len < length {
        return 0;
    }
    len - length
}
