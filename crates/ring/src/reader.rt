// The point reader.
ghost use Rattle.std.specs.Prelude.{◌≡◌, ◌≤◌};
ghost use Rattle.ring.specs.Answers.{asset_of, pointed};

use crate::Asset;

// The record at a position, of any words.
fn asset_at(words: &[i32], i: usize) -> Asset
    requires { i ≤ 60000 }
    ensures { result ≡ asset_of words.now i }
{
    Asset {
        id: words::num_at(words, 3 * i) as u32,
        x: words::at(words, 3 * i + 1),
        y: words::at(words, 3 * i + 2),
    }
}

// The record at a position of a sheet; refused by 1 to 8, then by 9 where the position is not below the sheet's n.
pub fn point(words: &[i32], position: usize) -> Result<Asset, u32>
    ensures { result ≡ pointed words.now position }
{
    let s = sheet::Sheet::open(words)?;
    if s.n <= position {
        return Err(9);
    }
    Ok(asset_at(words, position))
}
