//! Laws of the text form: empty functions, whose contracts are the laws.

ghost use Rattle.std.specs.Prelude.{◌≡◌, ◌<◌, ℕ, List, All};
ghost use Rattle.petscii.specs.declared.fault.TextFault.{TextFault};
ghost use Rattle.petscii.specs.Spelling.{spelling};
ghost use Rattle.petscii.specs.TextForm.{IsTextOf, HasOneReading};
ghost use Rattle.petscii.specs.TextFault.{IsFirstTextFault, HasNoFaultIfRead, HasOneFault};

/// A text has one outcome: it stands for at most one list of bytes, it has a fault only if it
/// stands for no bytes, and only one fault is its leftmost one.
#[inline]
pub fn one_outcome(text: &[u8])
    ensures one_reading { HasOneReading text.now }
    ensures no_fault { HasNoFaultIfRead text.now }
    ensures one_fault { HasOneFault text.now }
{}

/// `from_text` gives back the bytes of which `to_text` made the text, unless memory runs out: that
/// text stands for these bytes and no others, and has no fault.
#[inline]
pub fn spelling_reads_back(bytes: &[u8])
    ensures read { IsTextOf bytes.now (spelling bytes.now) }
    ensures only { (others : List ℕ) → IsTextOf others (spelling bytes.now) → others ≡ bytes.now }
    ensures no_fault { (fault : TextFault) → ¬ (IsFirstTextFault (spelling bytes.now) fault) }
{}

/// The text form of bytes is ASCII.
#[inline]
pub fn spelling_is_ascii(bytes: &[u8])
    ensures { All (λ byte. byte < 128) (spelling bytes.now) }
{}
