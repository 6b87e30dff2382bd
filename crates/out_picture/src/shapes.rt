//! Squares, marks and lines of text at places of a picture.
ghost use Rattle.std.specs.Prelude.{◌≡◌, ◌+◌, ◌<◌, ◌++◌, [], codes, decimal, OnOk};
ghost use Rattle.out_markup.specs.Markup.{attribute, element, empty_element, tag, escaped_text};
ghost use Rattle.out_picture.specs.Colours.{class_of};
ghost use Rattle.out_picture.specs.Shapes.{path_from, place_at, text_at, text_element, path_element};
ghost use Rattle.out_picture.specs.Cells.{square_of, mark_at};

use crate::block_state::BlockState;
use crate::colour::{Colour, push_class};
use out_markup::{push_attribute, push_escaped, push_number_attribute};
use out_messages::push_number;
use std::alloc::AllocError;

/// Appends a path that begins at a point and goes on with these steps.
#[tactic(auto, unfolding(crate::specs::Shapes::path_from, out_markup::specs::Markup::attribute))]
fn push_path_from(out: &mut Vec<u8>, x: usize, y: usize, steps: &[u8]) -> Result<(), AllocError>
    ensures { OnOk result (out.new.items ≡ out.old.items ++ path_from x y steps.now) }
{
    out.extend_from_slice(b" d=\"M")?;
    push_number(out, x)?;
    out.extend_from_slice(b" ")?;
    push_number(out, y)?;
    out.extend_from_slice(steps)?;
    out.extend_from_slice(b"\"")
}

/// Appends the place of an element.
#[tactic(auto, unfolding(crate::specs::Shapes::place_at))]
fn push_place(out: &mut Vec<u8>, x: usize, y: usize) -> Result<(), AllocError>
    ensures { OnOk result (out.new.items ≡ out.old.items ++ place_at x y) }
{
    push_number_attribute(out, b"x", x)?;
    push_number_attribute(out, b"y", y)
}

/// Appends the tag of a line of text.
#[tactic(auto, unfolding(out_markup::specs::Markup::tag))]
fn push_text_tag(out: &mut Vec<u8>, x: usize, y: usize) -> Result<(), AllocError>
    ensures { OnOk result (out.new.items ≡ out.old.items ++ tag (codes "text") (place_at x y)) }
{
    out.extend_from_slice(b"<text")?;
    push_place(out, x, y)
}

/// Appends the tag of a line of text with a class.
#[tactic(auto, unfolding(out_markup::specs::Markup::tag))]
fn push_class_text_tag(
    out: &mut Vec<u8>,
    class: &[u8],
    x: usize,
    y: usize,
) -> Result<(), AllocError>
    ensures { OnOk result (out.new.items ≡ out.old.items ++ tag (codes "text") (attribute (codes "class") class.now ++ place_at x y)) }
{
    out.extend_from_slice(b"<text")?;
    push_attribute(out, b"class", class)?;
    push_place(out, x, y)
}

/// Appends a line of text, in which no byte makes markup.
#[tactic(auto, unfolding(crate::specs::Shapes::text_at, out_markup::specs::Markup::element))]
pub(crate) fn push_text_at(
    out: &mut Vec<u8>,
    x: usize,
    y: usize,
    text: &[u8],
) -> Result<(), AllocError>
    ensures { OnOk result (out.new.items ≡ out.old.items ++ text_at x y (escaped_text text.now)) }
{
    push_text_tag(out, x, y)?;
    out.extend_from_slice(b">")?;
    push_escaped(out, text)?;
    out.extend_from_slice(b"</text>")
}

/// Appends a line of text with a class, in which no byte makes markup.
#[tactic(auto, unfolding(crate::specs::Shapes::text_element, out_markup::specs::Markup::element))]
pub(crate) fn push_text_of(
    out: &mut Vec<u8>,
    class: &[u8],
    x: usize,
    y: usize,
    text: &[u8],
) -> Result<(), AllocError>
    ensures { OnOk result (out.new.items ≡ out.old.items ++ text_element class.now x y (escaped_text text.now)) }
{
    push_class_text_tag(out, class, x, y)?;
    out.extend_from_slice(b">")?;
    push_escaped(out, text)?;
    out.extend_from_slice(b"</text>")
}

/// Appends a number with a class.
#[tactic(auto, unfolding(crate::specs::Shapes::text_element, out_markup::specs::Markup::element))]
pub(crate) fn push_number_of(
    out: &mut Vec<u8>,
    class: &[u8],
    x: usize,
    y: usize,
    number: usize,
) -> Result<(), AllocError>
    ensures { OnOk result (out.new.items ≡ out.old.items ++ text_element class.now x y (decimal number)) }
{
    push_class_text_tag(out, class, x, y)?;
    out.extend_from_slice(b">")?;
    push_number(out, number)?;
    out.extend_from_slice(b"</text>")
}

/// Appends the class of a colour, as an attribute.
#[tactic(auto, unfolding(out_markup::specs::Markup::attribute))]
pub(crate) fn push_colour(out: &mut Vec<u8>, colour: Colour) -> Result<(), AllocError>
    ensures { OnOk result (out.new.items ≡ out.old.items ++ attribute (codes "class") (class_of colour)) }
{
    out.extend_from_slice(b" class=\"")?;
    push_class(out, colour)?;
    out.extend_from_slice(b"\"")
}

/// Appends the tag of a path in a colour.
#[tactic(auto, unfolding(out_markup::specs::Markup::tag))]
fn push_path_tag(
    out: &mut Vec<u8>,
    colour: Colour,
    x: usize,
    y: usize,
    steps: &[u8],
) -> Result<(), AllocError>
    ensures { OnOk result (out.new.items ≡ out.old.items ++ tag (codes "path") (attribute (codes "class") (class_of colour) ++ path_from x y steps.now)) }
{
    out.extend_from_slice(b"<path")?;
    push_colour(out, colour)?;
    push_path_from(out, x, y, steps)
}

/// Appends a path in a colour.
#[tactic(auto, unfolding(crate::specs::Shapes::path_element, out_markup::specs::Markup::empty_element))]
pub(crate) fn push_path(
    out: &mut Vec<u8>,
    colour: Colour,
    x: usize,
    y: usize,
    steps: &[u8],
) -> Result<(), AllocError>
    ensures { OnOk result (out.new.items ≡ out.old.items ++ path_element (class_of colour) x y steps.now) }
{
    push_path_tag(out, colour, x, y, steps)?;
    out.extend_from_slice(b"/>")
}

/// Appends a path with a class.
#[tactic(auto, unfolding(crate::specs::Shapes::path_element, out_markup::specs::Markup::empty_element, out_markup::specs::Markup::tag))]
fn push_class_path(
    out: &mut Vec<u8>,
    class: &[u8],
    x: usize,
    y: usize,
    steps: &[u8],
) -> Result<(), AllocError>
    ensures { OnOk result (out.new.items ≡ out.old.items ++ path_element class.now x y steps.now) }
{
    out.extend_from_slice(b"<path")?;
    push_attribute(out, b"class", class)?;
    push_path_from(out, x, y, steps)?;
    out.extend_from_slice(b"/>")
}

/// Appends the tag of a square.
#[tactic(auto, unfolding(crate::specs::Cells::square_of))]
pub(crate) fn push_square_tag(
    out: &mut Vec<u8>,
    colour: Colour,
    x: usize,
    y: usize,
) -> Result<(), AllocError>
    requires { (x < 100000) × (y < 100000) }
    ensures { OnOk result (out.new.items ≡ out.old.items ++ tag (codes "path") (square_of colour x y)) }
{
    push_path_tag(out, colour, x + 2, y + 2, b"h16v16h-16z")
}

/// Appends the mark of a state on a square.
#[tactic(auto, unfolding(crate::specs::Cells::mark_at))]
pub(crate) fn push_mark(
    out: &mut Vec<u8>,
    x: usize,
    y: usize,
    state: BlockState,
) -> Result<(), AllocError>
    ensures { OnOk result (out.new.items ≡ out.old.items ++ mark_at x y state) }
{
    match state {
        BlockState::Free | BlockState::File | BlockState::System => Ok(()),
        BlockState::Unowned => push_class_path(out, b"dot", x, y, b"m10 10h.01"),
        BlockState::Fault => push_class_path(out, b"bad", x, y, b"m10 3l7 13h-14zm0 5v4m0 2v.01"),
        BlockState::Unreadable => {
            push_class_path(out, b"bad", x, y, b"m4 4h12v12h-12zm3 3l6 6m0-6l-6 6")
        }
    }
}
