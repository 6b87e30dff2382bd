//! The tracks of a disk.
ghost use Rattle.std.specs.Prelude.{◌≡◌, ◌≤◌, SomeIff};
ghost use Rattle.std.specs.Iterator.{YieldsFirst, item_count};
ghost use Rattle.std.specs.List.{range_with_len};
ghost use Rattle.d64_image.specs.Block.{IsTrackNumber};

use std::marker::Model;

/// How many tracks a disk has at most.
pub(crate) const TRACKS: u8 = 40;

/// The number of a track that a disk may have: tracks count from 1, the outermost one, to 40.
#[derive(Clone, Copy)]
pub struct TrackNo {
    number: u8,
}

impl Model for TrackNo {
    ghost use Rattle.std.specs.Prelude.{ℕ};
    ghost use Rattle.d64_image.specs.Block.{IsTrackNumber};

    ghost Value = { ℕ };

    ghost view = { λ track. track.number };

    ghost invariant = { λ track. IsTrackNumber track.number };

    ghost inverse = { λ n. record { number = n } };
}

impl TrackNo {
    /// All tracks that a disk may have, ascending.
    pub fn all() -> Tracks
        ensures { result ≡ range_with_len 1 40 }
    {
        Tracks::up_to(TRACKS)
    }

    /// The track with a number, or None if no disk has a track with this number.
    pub fn of(number: u8) -> Option<TrackNo>
        ensures { SomeIff result (IsTrackNumber number) number }
    {
        if (1..=TRACKS).contains(&number) {
            Some(TrackNo { number })
        } else {
            None
        }
    }

    /// The track with a number that is known to be one.
    pub(crate) fn new(number: u8) -> TrackNo
        requires { IsTrackNumber number }
        ensures { result ≡ number }
    {
        TrackNo { number }
    }

    /// The track's number, from 1 to 40.
    pub fn number(self) -> u8
        ensures value { result ≡ self }
        ensures range { IsTrackNumber result }
    {
        self.number
    }
}

/// The tracks from one up to another, ascending.
#[derive(Clone, Drop)]
pub struct Tracks {
    /// The number of the next track.
    next: u8,
    /// The number after that of the last track.
    end: u8,
}

impl Model for Tracks {
    ghost use Rattle.std.specs.Prelude.{ℕ, List, ◌-◌, ◌≤◌};
    ghost use Rattle.std.specs.List.{range_with_len};

    ghost Value = { List ℕ };

    ghost view = { λ tracks. range_with_len tracks.next (tracks.end - tracks.next) };

    ghost invariant = { λ tracks. (1 ≤ tracks.next) × (tracks.end ≤ 41) };
}

impl Tracks {
    /// The first `count` tracks.
    pub(crate) fn up_to(count: u8) -> Tracks
        requires { count ≤ 40 }
        ensures { result ≡ range_with_len 1 count }
    {
        Tracks {
            next: 1,
            end: count + 1,
        }
    }
}

impl Iterator for Tracks {
    type Item = TrackNo;

    ghost next_gives = { YieldsFirst (λ left. left) };

    ghost remaining = { item_count (λ left. left) };

    fn next(&mut self) -> Option<TrackNo> {
        if self.next >= self.end {
            return None;
        }
        let number = self.next;
        self.next += 1;
        Some(TrackNo { number })
    }
}
