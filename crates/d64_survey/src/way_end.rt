//! How a way along the links of blocks ends.
ghost use Rattle.std.specs.Prelude.{◌≡◌};
ghost use Rattle.d64_survey.specs.Way.{is_whole};

/// How a way ends. If it ends at a pair, this has the pair's track and sector, as the image has
/// them.
#[derive(Clone, Copy, Debug, PartialEq, Eq)]
pub enum WayEnd {
    /// After a block whose link has track 0: the way is a whole chain.
    End,
    /// At a pair that is not one of the image's blocks.
    Off(u8, u8),
    /// At a pair whose block is in the way already.
    Loop(u8, u8),
}

impl WayEnd {
    /// Whether the way is a whole chain.
    pub fn is_whole(self) -> bool
        ensures { result ≡ is_whole self }
    {
        match self {
            WayEnd::End => true,
            WayEnd::Off(..) | WayEnd::Loop(..) => false,
        }
    }
}
