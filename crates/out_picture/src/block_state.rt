//! The state of a block.
ghost use Rattle.std.specs.Prelude.{◌≡◌};
ghost use Rattle.std.specs.FinSet as set;
ghost use Rattle.d64_map.specs.Map.{free_blocks};
ghost use Rattle.out_picture.specs.States.{is_unreadable, state_of_block, state_of_owner, state_mark};

use d64_image::{BlockNo, Image};
use d64_map::is_free;
use d64_survey::{Inspection, Owner, code_of, is_read_error};

/// What a map shows of a block.
#[derive(Clone, Copy, PartialEq, Eq)]
pub enum BlockState {
    /// The map marks it free, and nothing owns it.
    Free,
    /// A file owns it.
    File,
    /// The map or the directory owns it.
    System,
    /// It is marked used, and nothing owns it.
    Unowned,
    /// It has more than one owner, or an owner although the map marks it free.
    Fault,
    /// It could not be read without an error.
    Unreadable,
}

impl BlockState {
    /// Returns the character for a block in this state.
    pub fn mark(self) -> &'static [u8]
        ensures { result.now ≡ state_mark self }
    {
        match self {
            BlockState::Free => b"-",
            BlockState::File => b"#",
            BlockState::System => b"=",
            BlockState::Unowned => b"?",
            BlockState::Fault => b"!",
            BlockState::Unreadable => b"x",
        }
    }
}

/// Returns the state of a block with this one owner.
fn state_of_owner(owner: Owner) -> BlockState
    ensures { result ≡ state_of_owner owner }
{
    match owner {
        Owner::Map | Owner::Directory => BlockState::System,
        Owner::File(_, _) => BlockState::File,
    }
}

/// Whether a block could not be read without an error.
pub(crate) fn is_unreadable(inspection: &Inspection, block: BlockNo) -> bool
    ensures { result ≡ is_unreadable inspection.now block }
{
    is_read_error(code_of(inspection.codes(), block))
}

/// Whether the map marks a block free; false for a block that the image does not have.
pub(crate) fn is_marked_free(image: &Image, block: BlockNo) -> bool
    ensures { result ≡ set.contains (free_blocks image.now) block }
{
    image.holds(block) && is_free(image, block)
}

/// Returns the state of a block: a read error comes before a fault, and a fault before the owner.
pub fn state_of(inspection: &Inspection, block: BlockNo) -> BlockState
    ensures { result ≡ state_of_block inspection.now block }
{
    if is_unreadable(inspection, block) {
        return BlockState::Unreadable;
    }
    let is_free = is_marked_free(inspection.image(), block);
    let owners = inspection.survey().owners(block);
    match owners.shown() {
        [] if is_free => BlockState::Free,
        [] => BlockState::Unowned,
        [owner] if !is_free => state_of_owner(*owner),
        _ => BlockState::Fault,
    }
}
