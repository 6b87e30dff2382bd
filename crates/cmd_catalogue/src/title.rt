//! The title of the page.
ghost use Rattle.std.specs.Prelude.{◌≡◌, ◌<◌, ◌++◌, length, option_map, OnOk};
ghost use Rattle.cmd_catalogue.specs.Title.{plain_byte, plain_text, page_title};

use out_markup::push_held;
use std::alloc::AllocError;

/// The title if the options give none.
const USUAL_TITLE: &[u8] = b"Disks";

/// Returns the byte at a place of a text in which a space replaces each control character of ASCII,
/// and a no-break space each other one.
fn plain_byte(text: &[u8], place: usize) -> u8
    requires { place < length text.now }
    ensures { result ≡ plain_byte text.now place }
{
    match text[place] {
        0..=0x1f | 0x7f => b' ',
        0x80..=0x9f if place >= 1 && text[place - 1] == 0xc2 => 0xa0,
        byte => byte,
    }
}

/// Appends a text of UTF-8 in which spaces replace control characters.
#[tactic(auto, unfolding(crate::specs::Title::plain_text))]
fn push_plain(out: &mut Vec<u8>, text: &[u8]) -> Result<(), AllocError>
    ensures { OnOk result (out.new.items ≡ out.old.items ++ plain_text text.now) }
{
    for place in 0..text.len() {
        out.push(plain_byte(text, place))?;
    }
    Ok(())
}

/// Appends the title and heading of the page: the text that is asked for, without control
/// characters and what a page cannot have, or the usual one.
#[tactic(auto, unfolding(crate::specs::Title::page_title))]
pub(crate) fn push_page_title(out: &mut Vec<u8>, title: Option<&str>) -> Result<(), AllocError>
    ensures { OnOk result (out.new.items ≡ out.old.items ++ page_title (option_map (λ title. title.now) title.entry)) }
{
    let Some(text) = title else {
        return out.extend_from_slice(USUAL_TITLE);
    };
    let mut plain = Vec::new(*out.allocator());
    push_plain(&mut plain, text.as_bytes())?;
    push_held(out, plain.as_slice())
}
