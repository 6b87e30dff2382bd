//! The reasons why what is left of a deleted file isn't whole.
ghost use Rattle.std.specs.Prelude.{◌≡◌};
ghost use Rattle.d64_scratched.specs.Scratched.{is_fatal, is_lost};

/// A reason why the file of a scratched slot isn't whole, in the order in which they are listed. The
/// default is the first.
#[derive(Clone, Copy, Debug, Default, PartialEq, Eq)]
pub enum Loss {
    /// Its way isn't a whole chain.
    #[default]
    Chain,
    /// A block of its way has an owner.
    Reused,
    /// A block of its way has no owner, and the map doesn't mark it free.
    Marked,
    /// Its way is a whole chain, but not as long as the size in the slot.
    Size,
    /// A block of its way is also in the way of a scratched slot with a lower number.
    Claimed,
    /// A block of its way couldn't be read well.
    Unreadable,
}

impl Loss {
    /// Whether a file with this reason can't be brought back.
    pub fn is_fatal(self) -> bool
        ensures { result ≡ is_fatal self }
    {
        match self {
            Loss::Chain | Loss::Reused | Loss::Marked | Loss::Size => true,
            Loss::Claimed | Loss::Unreadable => false,
        }
    }
}

/// Whether a file with these reasons is lost.
pub fn is_lost(losses: &[Loss]) -> bool
    ensures { result ≡ is_lost losses.now }
{
    losses.iter().any(|loss| loss.is_fatal())
}
