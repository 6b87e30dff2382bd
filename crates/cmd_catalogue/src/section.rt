//! The section of an image.
ghost use Rattle.std.specs.Prelude.{◌≡◌, [], ◌++◌, codes, option_map, OnOk};
ghost use Rattle.std.specs.List.{flat_map};
ghost use Rattle.cmd_catalogue.specs.Elements.{text_line};
ghost use Rattle.cmd_catalogue.specs.Sections.{disk_name_line, id_line, host_line, contents_line, state_line, label_lines, summary, fault_item, error_item, fault_items, error_items, wrongs, picture_if, section_content, amiss_class, section, failed_section};

use crate::element::push_text_line;
use crate::files::push_table;
use crate::host_files::HostFiles;
use d64_files::{disk_id, disk_name};
use d64_image::Image;
use d64_survey::{Fault, Inspection, ReadError, Survey};
use host_storage::push_shown;
use out_markup::push_held;
use out_messages::{push_contents, push_fault, push_number, push_read_error, push_state};
use out_picture::page_svg;
use petscii::push_spelling;
use std::alloc::AllocError;

/// Appends the disk's name.
#[tactic(auto, unfolding(crate::specs::Sections::disk_name_line))]
fn push_disk_line(out: &mut Vec<u8>, image: &Image, text: &mut Vec<u8>) -> Result<(), AllocError>
    ensures { OnOk result (out.new.items ≡ out.old.items ++ disk_name_line image.now) }
{
    text.clear();
    push_spelling(text, disk_name(image))?;
    push_text_line(out, b"h2", b" class=\"name\"", text.as_slice())
}

/// Appends the disk's id.
#[tactic(auto, unfolding(crate::specs::Sections::id_line))]
fn push_id_line(out: &mut Vec<u8>, image: &Image, text: &mut Vec<u8>) -> Result<(), AllocError>
    ensures { OnOk result (out.new.items ≡ out.old.items ++ id_line image.now) }
{
    text.clear();
    push_spelling(text, disk_id(image))?;
    push_text_line(out, b"span", b" class=\"id\"", text.as_slice())
}

/// Appends a name of the host in an element.
#[tactic(auto, unfolding(crate::specs::Sections::host_line))]
fn push_host_line(out: &mut Vec<u8>, element: &[u8], name: &[u8]) -> Result<(), AllocError>
    ensures { OnOk result (out.new.items ≡ out.old.items ++ host_line element.now name.now) }
{
    let mut text = Vec::new(*out.allocator());
    push_shown(&mut text, name)?;
    let mut held = Vec::new(*out.allocator());
    push_held(&mut held, text.as_slice())?;
    push_text_line(out, element, b" class=\"host\"", held.as_slice())
}

/// Appends what is on the disk.
#[tactic(auto, unfolding(crate::specs::Sections::contents_line))]
fn push_contents_line(
    out: &mut Vec<u8>,
    all: &Inspection,
    text: &mut Vec<u8>,
) -> Result<(), AllocError>
    ensures { OnOk result (out.new.items ≡ out.old.items ++ contents_line all.now.image) }
{
    text.clear();
    push_contents(text, all)?;
    push_text_line(out, b"span", b" class=\"contents\"", text.as_slice())
}

/// Appends the state of the image.
#[tactic(auto, unfolding(crate::specs::Sections::state_line))]
fn push_state_line(
    out: &mut Vec<u8>,
    all: &Inspection,
    text: &mut Vec<u8>,
) -> Result<(), AllocError>
    ensures { OnOk result (out.new.items ≡ out.old.items ++ state_line all.now) }
{
    text.clear();
    push_state(text, all)?;
    push_text_line(out, b"span", b" class=\"state\"", text.as_slice())
}

/// Appends the lines by which the disk is known.
#[tactic(auto, unfolding(crate::specs::Sections::label_lines))]
fn push_label_lines(
    out: &mut Vec<u8>,
    name: &[u8],
    image: &Image,
    text: &mut Vec<u8>,
) -> Result<(), AllocError>
    ensures { OnOk result (out.new.items ≡ out.old.items ++ label_lines name.now image.now) }
{
    push_disk_line(out, image, text)?;
    push_id_line(out, image, text)?;
    push_host_line(out, b"span", name)
}

/// Appends the lines that are seen of a closed section.
fn push_summary_lines(
    out: &mut Vec<u8>,
    name: &[u8],
    all: &Inspection,
    text: &mut Vec<u8>,
) -> Result<(), AllocError>
    ensures { OnOk result (out.new.items ≡ out.old.items
        ++ (label_lines name.now all.now.image ++ (contents_line all.now.image ++ state_line all.now))) }
{
    push_label_lines(out, name, all.image(), text)?;
    push_contents_line(out, all, text)?;
    push_state_line(out, all, text)
}

/// Appends what is seen of a closed section.
#[tactic(auto, unfolding(crate::specs::Sections::summary, out_markup::specs::Markup::element, out_markup::specs::Markup::tag))]
fn push_summary(
    out: &mut Vec<u8>,
    name: &[u8],
    all: &Inspection,
    text: &mut Vec<u8>,
) -> Result<(), AllocError>
    ensures { OnOk result (out.new.items ≡ out.old.items ++ summary name.now all.now) }
{
    out.extend_from_slice(b"<summary>\n")?;
    push_summary_lines(out, name, all, text)?;
    out.extend_from_slice(b"</summary>\n")
}

/// Appends a fault.
#[tactic(auto, unfolding(crate::specs::Sections::fault_item))]
fn push_fault_item(
    out: &mut Vec<u8>,
    survey: &Survey,
    fault: &Fault,
    text: &mut Vec<u8>,
) -> Result<(), AllocError>
    ensures { OnOk result (out.new.items ≡ out.old.items ++ fault_item survey.now fault.now) }
{
    text.clear();
    push_fault(text, survey, *fault)?;
    push_text_line(out, b"li", b"", text.as_slice())
}

/// Appends each fault.
#[tactic(auto, unfolding(crate::specs::Sections::fault_items))]
fn push_fault_items(
    out: &mut Vec<u8>,
    survey: &Survey,
    list: &[Fault],
    text: &mut Vec<u8>,
) -> Result<(), AllocError>
    ensures { OnOk result (out.new.items ≡ out.old.items ++ fault_items survey.now list.now) }
{
    for fault in list {
        push_fault_item(out, survey, fault, text)?;
    }
    Ok(())
}

/// Appends a read error.
#[tactic(auto, unfolding(crate::specs::Sections::error_item))]
fn push_error_item(
    out: &mut Vec<u8>,
    survey: &Survey,
    error: &ReadError,
    text: &mut Vec<u8>,
) -> Result<(), AllocError>
    ensures { OnOk result (out.new.items ≡ out.old.items ++ error_item survey.now error.now) }
{
    text.clear();
    push_read_error(text, survey, *error)?;
    push_text_line(out, b"li", b"", text.as_slice())
}

/// Appends each read error.
#[tactic(auto, unfolding(crate::specs::Sections::error_items))]
fn push_error_items(
    out: &mut Vec<u8>,
    survey: &Survey,
    list: &[ReadError],
    text: &mut Vec<u8>,
) -> Result<(), AllocError>
    ensures { OnOk result (out.new.items ≡ out.old.items ++ error_items survey.now list.now) }
{
    for error in list {
        push_error_item(out, survey, error, text)?;
    }
    Ok(())
}

/// Appends all that is wrong with the image.
#[tactic(auto, unfolding(crate::specs::Sections::wrongs, out_markup::specs::Markup::element, out_markup::specs::Markup::tag))]
fn push_wrongs(out: &mut Vec<u8>, all: &Inspection, text: &mut Vec<u8>) -> Result<(), AllocError>
    ensures { OnOk result (out.new.items ≡ out.old.items ++ wrongs all.now) }
{
    let survey = all.survey();
    out.extend_from_slice(b"<ul>")?;
    push_fault_items(out, survey, all.faults(), text)?;
    push_error_items(out, survey, all.read_errors(), text)?;
    out.extend_from_slice(b"</ul>\n")
}

/// Appends the picture of the blocks, if it is wanted.
fn push_wanted_picture(
    out: &mut Vec<u8>,
    maps: bool,
    name: &[u8],
    all: &Inspection,
) -> Result<(), AllocError>
    ensures { OnOk result (out.new.items ≡ out.old.items ++ picture_if maps name.now all.now) }
{
    if maps {
        page_svg(name, all, out)
    } else {
        Ok(())
    }
}

/// Appends the whole content of the section.
#[tactic(auto, unfolding(crate::specs::Sections::section_content))]
fn push_content(
    out: &mut Vec<u8>,
    maps: bool,
    name: &[u8],
    all: &Inspection,
    folder: Option<&str>,
    files: &mut HostFiles,
    text: &mut Vec<u8>,
) -> Result<(), AllocError>
    ensures { OnOk result (out.new.items ≡ out.old.items ++ section_content maps (option_map (λ folder. folder.now) folder.entry) name.now all.now) }
{
    out.extend_from_slice(b"\n")?;
    push_summary(out, name, all, text)?;
    push_wrongs(out, all, text)?;
    push_table(out, all, folder, files, text)?;
    push_wanted_picture(out, maps, name, all)
}

/// Returns the attributes that say whether anything is wrong, and how its sign looks.
fn amiss_class(is_sound: bool, is_amiss: bool) -> &'static [u8]
    ensures { result.now ≡ amiss_class is_sound is_amiss }
{
    match (is_amiss, is_sound) {
        (false, _) => b" class=\"sound\"",
        (true, true) => b" class=\"amiss\" data-sign=\"warning\"",
        (true, false) => b" class=\"amiss\"",
    }
}

/// Appends the section of an image, with links to its host files in a folder, if there is one.
/// `text` is a buffer.
#[tactic(auto, unfolding(crate::specs::Sections::section, out_markup::specs::Markup::element, out_markup::specs::Markup::tag))]
pub(crate) fn push_section(
    out: &mut Vec<u8>,
    maps: bool,
    name: &[u8],
    all: &Inspection,
    folder: Option<&str>,
    files: &mut HostFiles,
    text: &mut Vec<u8>,
) -> Result<(), AllocError>
    ensures { OnOk result (out.new.items ≡ out.old.items ++ section maps (option_map (λ folder. folder.now) folder.entry) name.now all.now) }
{
    out.extend_from_slice(b"<details")?;
    out.extend_from_slice(amiss_class(all.is_sound(), all.is_amiss()))?;
    out.extend_from_slice(b">")?;
    push_content(out, maps, name, all, folder, files, text)?;
    out.extend_from_slice(b"</details>\n")
}

/// Appends the name of a file that is not a dump, and what is wrong with it.
fn push_wrong_lines(out: &mut Vec<u8>, name: &[u8], wrong: &[u8]) -> Result<(), AllocError>
    ensures { OnOk result (out.new.items ≡ out.old.items ++ (host_line (codes "h2") name.now ++ text_line (codes "p") [] wrong.now)) }
{
    push_host_line(out, b"h2", name)?;
    push_text_line(out, b"p", b"", wrong)
}

/// Appends the section of a file that is not a dump, with what is wrong with it.
#[tactic(auto, unfolding(crate::specs::Sections::failed_section, out_markup::specs::Markup::element, out_markup::specs::Markup::tag))]
pub(crate) fn push_failed(out: &mut Vec<u8>, name: &[u8], wrong: &[u8]) -> Result<(), AllocError>
    ensures { OnOk result (out.new.items ≡ out.old.items ++ failed_section name.now wrong.now) }
{
    out.extend_from_slice(b"<section class=\"amiss\">\n")?;
    push_wrong_lines(out, name, wrong)?;
    out.extend_from_slice(b"</section>\n")?;
    Ok(())
}
