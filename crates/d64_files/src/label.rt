//! What names and patterns have in common.
ghost use Rattle.std.specs.Prelude.{◌≡◌, ◌↔◌, ◌⊎◌, IsTrue, IsOk, is_ok, IfOk, IfErr, All, Any, Contains};
ghost use Rattle.d64_files.specs.Label.{IsLabel, IsLabelFault, is_label, holds_any_of};

use arrayvec::ArrayVec;
use thiserror::Error;

/// The most bytes of a name or a pattern, as many as the field of a directory entry has.
pub(crate) const MAX_LEN: usize = 16;

/// Why bytes are not a name or a pattern.
#[derive(Clone, Copy, Debug, PartialEq, Eq, Error)]
pub enum BadName {
    /// There is no byte.
    #[error("the name is empty: it needs 1 to 16 characters")]
    Empty,
    /// There are more than 16 bytes.
    #[error("the name is too long: at most 16 characters fit")]
    TooLong,
    /// There are 1 to 16 bytes, of which one is forbidden.
    #[error("a name can't hold = : , \" or a carriage return or shifted space, and only a pattern can hold * or ?")]
    Forbidden,
}

/// The bytes, if they are 1 to 16 and not one of them is forbidden.
pub(crate) fn label(bytes: &[u8], forbidden: &[u8]) -> Result<ArrayVec<u8, MAX_LEN>, BadName>
    ensures accepted { IsOk result ↔ IsLabel forbidden.now bytes.now }
    ensures test { is_ok result ≡ is_label forbidden.now bytes.now }
    ensures bytes { IfOk result (λ text. text.items ≡ bytes.now) }
    ensures label { IfOk result (λ text. IsLabel forbidden.now text.items) }
    ensures fault { IfErr result (IsLabelFault forbidden.now bytes.now) }
{
    if bytes.is_empty() {
        return Err(BadName::Empty);
    }
    let mut text = ArrayVec::new();
    if text.try_extend_from_slice(bytes).is_err() {
        return Err(BadName::TooLong);
    }
    if holds_any(bytes, forbidden) {
        return Err(BadName::Forbidden);
    }
    Ok(text)
}

fn holds_any(bytes: &[u8], forbidden: &[u8]) -> bool
    ensures some { IsTrue result ↔ Any (Contains forbidden.now) bytes.now }
    ensures none { IsTrue result ⊎ All (λ b. ¬ (Contains forbidden.now b)) bytes.now }
    ensures test { result ≡ holds_any_of forbidden.now bytes.now }
{
    bytes.iter().any(|byte| forbidden.contains(byte))
}
