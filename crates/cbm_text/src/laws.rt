//! Laws of crunching and listing: empty functions, whose contracts are the laws.

ghost use Rattle.cbm_text.specs.Laws.{ComesBack, CrunchesOnce, ListsOnce, ReadsOnce, IsUnambiguous, TextComesBack};

/// The bytes of a line crunch in at most one way, and crunched bytes stand for one list of bytes.
/// If no `?` stands for `print` in the bytes of a line, what they crunch to stands for these very
/// bytes, so that it crunches to the same again.
#[inline]
pub fn line_comes_back(bytes: &[u8], codes: &[u8])
    ensures once { CrunchesOnce bytes.now }
    ensures lists_once { ListsOnce codes.now }
    ensures back { ComesBack bytes.now codes.now }
{}

/// A file reads as at most one program and has at most one listing. A text stands for at most one
/// program and has at most one file, no fault if it has a file, and at most one first fault. So,
/// unless memory runs out, what `crunch` and `list` return depends only on their arguments.
#[inline]
pub fn one_program(start: u16, text: &[u8], file: &[u8])
    ensures of_file { ReadsOnce file.now }
    ensures of_text { IsUnambiguous start text.now }
{}

/// If no `?` stands for `print` in a text that crunches, its file can be listed, its listing is the
/// text in normal spelling, and this crunches from the same start to the same file: unless memory
/// runs out, `crunch` and `list` return these.
#[inline]
pub fn text_comes_back(start: u16, text: &[u8])
    ensures { TextComesBack start text.now }
{}
