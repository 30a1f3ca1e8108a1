// Numbers of refusal that more than one call gives.
ghost use Rattle.std.specs.Prelude.{◌≡◌, ◌&&◌, ◌||◌, [], ◌∷◌, ltb};
ghost use Rattle.words.specs.First.{given, first};
ghost use Rattle.sheet.specs.Layout.{second};

// The first of two numbers that is not 0.
pub fn first_of(a: u32, b: u32) -> u32
    ensures { result ≡ first (a ∷ b ∷ []) }
{
    if a != 0 { a } else { b }
}

// 29 where the street grid is asked of a sheet of form 2, or 0.
pub fn grid_no(p: &[i32], q: &[i32], grid: bool) -> u32
    ensures { result ≡ given (grid && (second p.now || second q.now)) 29 }
{
    if grid & (sheet::is_second(p) | sheet::is_second(q)) {
        return 29;
    }
    0
}

// 40 for a largest size that no pair of any list may have, or 0.
pub fn largest_no(largest: u64) -> u32
    ensures { result ≡ given (ltb 8000000000000000000 largest) 40 }
{
    if largest > 8_000_000_000_000_000_000 {
        return 40;
    }
    0
}
