//! The sixteen lines that show a block.
ghost use Rattle.std.specs.Prelude.{◌≡◌, ◌+◌, ◌*◌, ◌<◌, ◌≤◌, ◌∷◌, [], ◌++◌, length};
ghost use Rattle.arrayvec.specs.ArrayVec.{array_vec_len};
ghost use Rattle.script_text.specs.Dump.{dump, dump_line, dump_digit, hex_digits};

use arrayvec::ArrayVec;

/// How many bytes of a block a line shows.
const BYTES_OF_LINE: usize = 16;

/// How many lines a block takes.
const LINES: usize = 16;

/// The two hexadecimal digits of each byte, from 0 to 255.
const DIGITS: &[u8; 512] =
    b"000102030405060708090a0b0c0d0e0f101112131415161718191a1b1c1d1e1f202122232425262728292a2b2c2d2e2f303132333435363738393a3b3c3d3e3f\
      404142434445464748494a4b4c4d4e4f505152535455565758595a5b5c5d5e5f606162636465666768696a6b6c6d6e6f707172737475767778797a7b7c7d7e7f\
      808182838485868788898a8b8c8d8e8f909192939495969798999a9b9c9d9e9fa0a1a2a3a4a5a6a7a8a9aaabacadaeafb0b1b2b3b4b5b6b7b8b9babbbcbdbebf\
      c0c1c2c3c4c5c6c7c8c9cacbcccdcecfd0d1d2d3d4d5d6d7d8d9dadbdcdddedfe0e1e2e3e4e5e6e7e8e9eaebecedeeeff0f1f2f3f4f5f6f7f8f9fafbfcfdfeff";

/// How many bytes the lines of a block take: 52 for each line.
pub const DUMP_LEN: usize = 832;

/// The lines that show a block: the offset in two hexadecimal digits, a colon, and sixteen bytes,
/// each as a space and two digits, all in small letters. It allocates nothing.
#[tactic(auto, unfolding(crate::specs::Dump::dump))]
pub fn dump(block: &[u8; 256]) -> ArrayVec<u8, DUMP_LEN>
    ensures { result.items ≡ dump block.now }
{
    let mut lines = ArrayVec::new();
    for row in 0..LINES {
        let offset = BYTES_OF_LINE * row;
        push_line(
            &mut lines,
            offset as u8,
            &block[offset..offset + BYTES_OF_LINE],
        );
    }
    lines
}

/// Appends the line of the sixteen bytes at an offset.
fn push_line(lines: &mut ArrayVec<u8, DUMP_LEN>, offset: u8, bytes: &[u8])
    requires sixteen { length bytes.now ≡ 16 }
    requires room { array_vec_len lines.old + 52 ≤ 832 }
    ensures line { lines.new.items ≡ lines.old.items ++ dump_line offset bytes.now }
    ensures len { array_vec_len lines.new ≡ array_vec_len lines.old + 52 }
{
    push_hex(lines, offset);
    lines.push(b':');
    for byte in bytes {
        lines.push(b' ');
        push_hex(lines, *byte);
    }
    lines.push(b'\n');
}

/// Appends a byte in two hexadecimal digits.
fn push_hex(lines: &mut ArrayVec<u8, DUMP_LEN>, byte: u8)
    requires { array_vec_len lines.old + 2 ≤ 832 }
    ensures digits { lines.new.items ≡ lines.old.items ++ hex_digits byte }
    ensures len { array_vec_len lines.new ≡ array_vec_len lines.old + 2 }
{
    let at = 2 * usize::from(byte);
    lines.push(DIGITS[at]);
    lines.push(DIGITS[at + 1]);
}
