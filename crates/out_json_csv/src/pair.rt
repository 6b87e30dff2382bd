//! Pairs of track and sector as text.
ghost use Rattle.std.specs.Prelude.{◌≡◌};
ghost use Rattle.out_json_csv.specs.Pairs.{pair_field};

use arrayvec::ArrayString;
use itoa::Buffer;

/// The most bytes of such a text: two numbers below 256, and a slash.
const PAIR_LEN: usize = 7;

/// Returns the text of a track and a sector, such as `17/3`.
pub fn pair_text(track: u8, sector: u8) -> ArrayString<PAIR_LEN>
    ensures { result.bytes ≡ pair_field (track, sector) }
{
    let mut digits = Buffer::new();
    let mut text = ArrayString::new();
    text.push_str(digits.format(track));
    text.push('/');
    text.push_str(digits.format(sector));
    text
}
