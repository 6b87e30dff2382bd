//! Blocks that are marked used but have no owner.
ghost use Rattle.std.specs.Prelude.{◌≡◌};
ghost use Rattle.d64_survey.specs.Owners.{unowned_count};

use crate::survey::Survey;
use d64_map::free_set;

impl Survey<'_> {
    /// How many blocks of the image have no owner, though the map doesn't mark them free.
    pub fn unowned(&self) -> usize
        ensures { result ≡ unowned_count self.now }
    {
        let image = self.image();
        let free = free_set(image);
        let mut count = 0;
        for block in image.blocks() {
            if !self.is_owned(block) && !free.has(block) {
                count += 1;
            }
        }
        count
    }
}
