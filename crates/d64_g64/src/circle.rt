//! Tracks, which are circles of bits.
ghost use Rattle.std.specs.Prelude.{◌≡◌, ℕ, ◌+◌, ◌*◌, ◌/◌, ◌%◌, ◌<◌, ◌≤◌, length};
ghost use Rattle.d64_g64.specs.Circle.{IsTrack, byte_on, bits_from};

/// The byte at a place not far past the track's end, counted round the circle.
fn byte_at(track: &[u8], place: usize) -> u8
    requires { IsTrack track.now }
    ensures { result ≡ byte_on track.now place }
{
    if place < track.len() {
        track[place]
    } else {
        track[place % track.len()]
    }
}

/// Three bytes of the circle as one number, the first of them the highest.
pub(crate) fn three_bytes(track: &[u8], place: usize) -> u32
    requires track { IsTrack track.now }
    requires near { place < 131072 }
    ensures value { result ≡ 65536 * byte_on track.now place + 256 * byte_on track.now (place + 1) + byte_on track.now (place + 2) }
    ensures below { result < 16777216 }
{
    65536 * u32::from(byte_at(track, place))
        + 256 * u32::from(byte_at(track, place + 1))
        + u32::from(byte_at(track, place + 2))
}

/// Ten bits of the circle, as a number.
pub(crate) fn ten_bits(track: &[u8], place: usize) -> u32
    requires track { IsTrack track.now }
    requires place { place < 8 * length track.now }
    ensures value { result ≡ bits_from track.now place 10 }
    ensures below { result < 1024 }
{
    (three_bytes(track, place / 8) >> (14 - place % 8)) % 1024
}

/// A place counted round the circle.
pub(crate) fn around(track: &[u8], place: usize) -> usize
    requires { IsTrack track.now }
    ensures value { result ≡ place % (8 * length track.now) }
    ensures within { result < 8 * length track.now }
{
    let bits = 8 * track.len();
    if place < bits { place } else { place % bits }
}
