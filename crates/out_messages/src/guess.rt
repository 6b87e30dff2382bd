//! What a file that is not an image seems to be.
ghost use Rattle.std.specs.Prelude.{◌≡◌, length};
ghost use Rattle.out_messages.specs.Guesses.{guess_by_length, guess_by_first_bytes, cut_short, guess_of as guess_by_all, guess_text};

/// What a file whose length no image has seems to be.
#[derive(Clone, Copy, PartialEq, Eq)]
pub enum Guess {
    /// An empty file.
    Empty,
    /// An image of 36 tracks, with read codes or without them.
    Tracks36,
    /// An image of 37 tracks, with read codes or without them.
    Tracks37,
    /// An image of 38 tracks, with read codes or without them.
    Tracks38,
    /// An image of 39 tracks, with read codes or without them.
    Tracks39,
    /// An image of 41 tracks, with read codes or without them.
    Tracks41,
    /// An image of 42 tracks, with read codes or without them.
    Tracks42,
    /// An image of a 1571 disk, with read codes or without them.
    Disk1571,
    /// An image of a 1581 disk, with read codes or without them.
    Disk1581,
    /// An image of a 2040 disk.
    D67,
    /// An image of an 8050 disk.
    D80,
    /// An image of an 8250 disk.
    D82,
    /// A low-level image of a 1541 disk (GCR).
    G64,
    /// A low-level image of a 1541 disk, as nibtools writes it.
    Nib,
    /// A tape archive of the emulator C64S.
    T64,
    /// A single file of the emulator PC64.
    P00,
    /// A zip archive.
    Zip,
    /// A file that gzip packed.
    Gzip,
    /// An image of 35 tracks whose end is missing.
    Cut35,
    /// An image of 40 tracks whose end is missing.
    Cut40,
}

/// Returns what a file with this length seems to be, by that alone.
#[tactic(auto, unfolding(crate::specs::Guesses::lengths))]
fn guess_by_length(len: usize) -> Option<Guess>
    ensures { result ≡ guess_by_length len }
{
    match len {
        0 => Some(Guess::Empty),
        179_200 | 179_900 => Some(Guess::Tracks36),
        183_552 | 184_269 => Some(Guess::Tracks37),
        187_904 | 188_638 => Some(Guess::Tracks38),
        192_256 | 193_007 => Some(Guess::Tracks39),
        200_960 | 201_745 => Some(Guess::Tracks41),
        205_312 | 206_114 => Some(Guess::Tracks42),
        349_696 | 351_062 => Some(Guess::Disk1571),
        819_200 | 822_400 => Some(Guess::Disk1581),
        176_640 => Some(Guess::D67),
        533_248 => Some(Guess::D80),
        1_066_496 => Some(Guess::D82),
        _ => None,
    }
}

/// Returns what a file seems to be, by its first bytes.
#[tactic(auto, unfolding(crate::specs::Guesses::first_bytes))]
fn guess_by_first_bytes(bytes: &[u8]) -> Option<Guess>
    ensures { result ≡ guess_by_first_bytes bytes.now }
{
    if bytes.starts_with(b"GCR-1541") {
        return Some(Guess::G64);
    }
    if bytes.starts_with(b"MNIB-1541-RAW") {
        return Some(Guess::Nib);
    }
    if bytes.starts_with(b"C64File\0") {
        return Some(Guess::P00);
    }
    if bytes.starts_with(b"C64") {
        return Some(Guess::T64);
    }
    if bytes.starts_with(b"PK\x03\x04") {
        return Some(Guess::Zip);
    }
    if bytes.starts_with(b"\x1f\x8b") {
        return Some(Guess::Gzip);
    }
    None
}

/// Returns the image whose beginning a file with this length seems to be.
fn cut_short(len: usize) -> Option<Guess>
    ensures { result ≡ cut_short len }
{
    match len {
        91_904..=174_847 => Some(Guess::Cut35),
        179_901..=196_607 => Some(Guess::Cut40),
        _ => None,
    }
}

/// Returns what a file whose length no image has seems to be, or None if it looks like nothing that
/// is known here.
pub fn guess_of(bytes: &[u8]) -> Option<Guess>
    ensures { result ≡ guess_by_all bytes.now }
{
    match guess_by_length(bytes.len()) {
        Some(guess) => Some(guess),
        None => match guess_by_first_bytes(bytes) {
            Some(guess) => Some(guess),
            None => cut_short(bytes.len()),
        },
    }
}

/// Returns a guess in words.
pub fn guess_text(guess: Guess) -> &'static [u8]
    ensures { result.now ≡ guess_text guess }
{
    match guess {
        Guess::Empty => b"an empty file",
        Guess::Tracks36 => b"36 tracks",
        Guess::Tracks37 => b"37 tracks",
        Guess::Tracks38 => b"38 tracks",
        Guess::Tracks39 => b"39 tracks",
        Guess::Tracks41 => b"41 tracks",
        Guess::Tracks42 => b"42 tracks",
        Guess::Disk1571 => b"a 1571 image",
        Guess::Disk1581 => b"a 1581 image",
        Guess::D67 => b"a D67 image",
        Guess::D80 => b"a D80 image",
        Guess::D82 => b"a D82 image",
        Guess::G64 => b"a G64 image",
        Guess::Nib => b"a NIB image",
        Guess::T64 => b"a T64 archive",
        Guess::P00 => b"a P00 file",
        Guess::Zip => b"a zip archive",
        Guess::Gzip => b"a gzip file",
        Guess::Cut35 => b"a 35-track image cut short",
        Guess::Cut40 => b"a 40-track image cut short",
    }
}
