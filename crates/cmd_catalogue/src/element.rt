//! Elements whose content is a text.
ghost use Rattle.std.specs.Prelude.{◌≡◌, ◌++◌, codes, option_map, OnOk};
ghost use Rattle.out_markup.specs.Markup.{attribute, element, tag, escaped_text};
ghost use Rattle.cmd_catalogue.specs.Elements.{linked_text, linked_text_in, text_in, text_line};

use out_markup::push_escaped;
use std::alloc::AllocError;

/// Appends the tag that begins an element.
#[tactic(auto, unfolding(out_markup::specs::Markup::tag))]
fn push_start(out: &mut Vec<u8>, name: &[u8], attributes: &[u8]) -> Result<(), AllocError>
    ensures { OnOk result (out.new.items ≡ out.old.items ++ (tag name.now attributes.now ++ codes ">")) }
{
    out.extend_from_slice(b"<")?;
    out.extend_from_slice(name)?;
    out.extend_from_slice(attributes)?;
    out.extend_from_slice(b">")
}

/// Appends the tag that ends an element.
fn push_end(out: &mut Vec<u8>, name: &[u8]) -> Result<(), AllocError>
    ensures { OnOk result (out.new.items ≡ out.old.items ++ (codes "</" ++ (name.now ++ codes ">"))) }
{
    out.extend_from_slice(b"</")?;
    out.extend_from_slice(name)?;
    out.extend_from_slice(b">")
}

/// Appends an element with these attributes whose content is a text, in which no byte makes markup.
#[tactic(auto, unfolding(crate::specs::Elements::text_in, out_markup::specs::Markup::element))]
pub(crate) fn push_text_in(
    out: &mut Vec<u8>,
    name: &[u8],
    attributes: &[u8],
    text: &[u8],
) -> Result<(), AllocError>
    ensures { OnOk result (out.new.items ≡ out.old.items ++ text_in name.now attributes.now text.now) }
{
    push_start(out, name, attributes)?;
    push_escaped(out, text)?;
    push_end(out, name)
}

/// Appends the same on a line of its own.
#[tactic(auto, unfolding(crate::specs::Elements::text_line))]
pub(crate) fn push_text_line(
    out: &mut Vec<u8>,
    name: &[u8],
    attributes: &[u8],
    text: &[u8],
) -> Result<(), AllocError>
    ensures { OnOk result (out.new.items ≡ out.old.items ++ text_line name.now attributes.now text.now) }
{
    push_text_in(out, name, attributes, text)?;
    out.extend_from_slice(b"\n")
}

/// Appends the attribute of a link to a URL.
#[tactic(auto, unfolding(out_markup::specs::Markup::attribute))]
fn push_href(out: &mut Vec<u8>, url: &[u8]) -> Result<(), AllocError>
    ensures { OnOk result (out.new.items ≡ out.old.items ++ attribute (codes "href") (escaped_text url.now)) }
{
    out.extend_from_slice(b" href=\"")?;
    push_escaped(out, url)?;
    out.extend_from_slice(b"\"")
}

/// Appends a text that is a link to a URL.
#[tactic(auto, unfolding(crate::specs::Elements::text_in, out_markup::specs::Markup::element, out_markup::specs::Markup::tag))]
fn push_link(out: &mut Vec<u8>, url: &[u8], label: &[u8]) -> Result<(), AllocError>
    ensures { OnOk result (out.new.items ≡ out.old.items ++ text_in (codes "a") (attribute (codes "href") (escaped_text url.now)) label.now) }
{
    out.extend_from_slice(b"<a")?;
    push_href(out, url)?;
    out.extend_from_slice(b">")?;
    push_escaped(out, label)?;
    push_end(out, b"a")
}

/// Appends a text that is a link to a URL, if there is one.
fn push_linked_text(out: &mut Vec<u8>, link: Option<&[u8]>, text: &[u8]) -> Result<(), AllocError>
    ensures { OnOk result (out.new.items ≡ out.old.items ++ linked_text (option_map (λ link. link.now) link.entry) text.now) }
{
    match link {
        Some(url) => push_link(out, url, text),
        None => push_escaped(out, text),
    }
}

/// Appends an element with these attributes whose content is such a text.
#[tactic(auto, unfolding(crate::specs::Elements::linked_text_in, out_markup::specs::Markup::element))]
pub(crate) fn push_linked_text_in(
    out: &mut Vec<u8>,
    name: &[u8],
    attributes: &[u8],
    link: Option<&[u8]>,
    text: &[u8],
) -> Result<(), AllocError>
    ensures { OnOk result (out.new.items ≡ out.old.items ++ linked_text_in name.now attributes.now (option_map (λ link. link.now) link.entry) text.now) }
{
    push_start(out, name, attributes)?;
    push_linked_text(out, link, text)?;
    push_end(out, name)
}
