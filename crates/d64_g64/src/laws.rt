//! Laws of the dump of a G64: each function's contract is a law, and its body is empty.
ghost use Rattle.d64_g64.specs.Laws.{AnyBytesMakeADump, CodeOneIsASoundBlock, SoundBytesAreTheFirst};

/// Any bytes are read as a dump.
pub fn any_bytes_make_a_dump()
    ensures { AnyBytesMakeADump }
{}

/// A block has code 1 exactly if its track has a good header of it, followed by a data block whose
/// checksum is right; its bytes are those of the first such data block.
pub fn code_one_is_a_sound_block()
    ensures code { CodeOneIsASoundBlock }
    ensures bytes { SoundBytesAreTheFirst }
{}
