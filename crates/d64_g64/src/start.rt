//! The starts of a track.
ghost use Rattle.std.specs.Prelude.{◌≡◌, ℕ, ◌+◌, ◌-◌, ◌*◌, ◌/◌, ◌%◌, ◌^◌, ◌<◌, ◌≤◌, ◌⊎◌, length, filter, option_to_list, IfSome, IfNone, OnOk};
ghost use Rattle.std.specs.List.{range_with_len};
ghost use Rattle.d64_g64.specs.Circle.{IsTrack, byte_on};
ghost use Rattle.d64_g64.specs.Starts.{is_start, starts_in, starts_on};

use crate::circle::three_bytes;
use std::alloc::AllocError;
use std::marker::Model;

/// A place of a track at which bytes begin, of ten bits each.
#[derive(Drop)]
pub(crate) struct Start<'a> {
    pub(crate) track: &'a [u8],
    pub(crate) place: usize,
}

impl<'a> Model for Start<'a> {
    ghost use Rattle.std.specs.Prelude.{◌*◌, ◌<◌, length};
    ghost use Rattle.d64_g64.specs.Circle.{IsTrack};
    ghost use Rattle.d64_g64.specs.Starts.{TrackPlace};

    ghost Value = { TrackPlace };

    ghost view = { λ start. record { track = start.track.now; place = start.place } };

    ghost invariant = { λ start. IsTrack start.track.now × (start.place < 8 * length start.track.now) };
}

/// The place of a byte's highest bit that is 0, counted from the highest bit, or None if all are 1.
fn first_zero(byte: u8) -> Option<u32>
    ensures some { IfSome result (λ place. (place < 8) × (256 - 2 ^ (8 - place) ≤ byte) × (byte < 256 - 2 ^ (7 - place))) }
    ensures none { IfNone result (byte ≡ 255) }
{
    match byte {
        0..=127 => Some(0),
        128..=191 => Some(1),
        192..=223 => Some(2),
        224..=239 => Some(3),
        240..=247 => Some(4),
        248..=251 => Some(5),
        252 | 253 => Some(6),
        254 => Some(7),
        255 => None,
    }
}

/// The byte before another one of the track, counted round the circle.
fn byte_before(track: &[u8], at: usize) -> u8
    requires track { IsTrack track.now }
    requires at { at < length track.now }
    ensures { result ≡ byte_on track.now (at + 2 * length track.now - 1) }
{
    if at == 0 {
        track[track.len() - 1]
    } else {
        track[at - 1]
    }
}

/// The place two bytes before another one, counted round the circle.
fn two_before(track: &[u8], at: usize) -> usize
    requires track { IsTrack track.now }
    requires at { at < length track.now }
    ensures value { (result ≡ at + 2 * length track.now - 2) ⊎ (result + 2 * length track.now ≡ at + 2 * length track.now - 2) }
    ensures within { result < 131072 }
{
    if at < 2 {
        at + 2 * track.len() - 2
    } else {
        at - 2
    }
}

/// The start among the eight places of a byte of the track, or None. There is at most one, at the
/// byte's first bit that is 0, and only if the byte before ends in three ones.
fn start_in(track: &[u8], at: usize) -> Option<u32>
    requires track { IsTrack track.now }
    requires at { at < length track.now }
    ensures { option_to_list result ≡ starts_in track.now at }
{
    if byte_before(track, at) % 8 != 7 {
        return None;
    }
    match first_zero(track[at]) {
        Some(zero) => {
            let bits = three_bytes(track, two_before(track, at));
            if (bits >> (7 - zero)) % 2048 == 2046 {
                Some(8 * at as u32 + zero)
            } else {
                None
            }
        }
        None => None,
    }
}

/// Replaces a list by the starts of a track, ascending.
pub(crate) fn list_starts(starts: &mut Vec<u32>, track: &[u8]) -> Result<(), AllocError>
    requires { length track.now < 65536 }
    ensures { OnOk result (starts.new.items ≡ starts_on track.now) }
{
    starts.clear();
    for at in 0..track.len() {
        match start_in(track, at) {
            Some(start) => starts.push(start)?,
            None => {}
        }
    }
    Ok(())
}
