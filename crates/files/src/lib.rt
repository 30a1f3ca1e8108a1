// The bytes of words, as a sheet's file has them: little-endian two's complement.
#![tactic(auto)]

ghost use Rattle.std.specs.Prelude.{◌≡◌, ◌*◌, ◌<◌, length};
ghost use Rattle.files.specs.Files.{byte_of, bytes_of};

// Byte k of a word.
pub fn byte_le(w: i32, k: usize) -> u8
    requires { k < 4 }
    ensures { result ≡ byte_of w k }
{
    w.to_le_bytes()[k]
}

// The bytes of the words, four to a word.
pub fn encode(s: &[i32], out: &mut [u8])
    requires { length out.old ≡ 4 * length s.now }
    ensures { out.new ≡ bytes_of s.now }
{
    for (i, byte) in out.iter_mut().enumerate() {
        *byte = byte_le(words::at(s, i / 4), i % 4);
    }
}
