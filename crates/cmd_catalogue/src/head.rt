//! The page up to its first section: the policy, the title, the style, the script and the search.
//! `body` and `html` stay open: HTML lets their end tags be left out.
ghost use Rattle.std.specs.Prelude.{◌≡◌, ◌++◌, option_map, OnOk};
ghost use Rattle.cmd_catalogue.specs.Head.{page_opening, head_end, search_head, page_header, page_head};
ghost use Rattle.cmd_catalogue.specs.Title.{page_title};

use crate::element::push_text_line;
use crate::script::push_script;
use crate::style::push_style;
use crate::title::push_page_title;
use std::alloc::AllocError;

/// The beginning of the page: its language, and what it may load; of scripts only its own (by its
/// digest).
const OPENING: &[u8] = b"<!DOCTYPE html>\n\
<html lang=\"en\">\n\
<head>\n\
<meta charset=\"utf-8\">\n\
<meta name=\"viewport\" content=\"width=device-width, initial-scale=1\">\n\
<meta http-equiv=\"Content-Security-Policy\" content=\"default-src 'none'; style-src 'unsafe-inline'; script-src 'sha256-t0GAwf4aeND4mvEu34xdsTTTSa89vA+KvxshQNC3Rb8='; base-uri 'none'; form-action 'none'\">\n";

/// The end of its head.
const HEAD_END: &[u8] = b"</head>\n\
<body>\n\
<header>\n";

/// What is above the sections, below the heading: the search field, the buttons, and how many disks
/// are shown.
const SEARCH_HEAD: &[u8] = b"<div class=\"tools\" role=\"search\" hidden>\n\
<input type=\"search\" aria-label=\"Search disks and files\" placeholder=\"Search disks and files\" autocomplete=\"off\" autocapitalize=\"none\" spellcheck=\"false\">\n\
<div role=\"group\" aria-label=\"State\">\n\
<button type=\"button\" value=\"\" aria-pressed=\"true\">All</button>\n\
<button type=\"button\" value=\"sound\" aria-pressed=\"false\">Sound</button>\n\
<button type=\"button\" value=\"amiss\" aria-pressed=\"false\">Problems</button>\n\
</div>\n\
<output></output>\n\
</div>\n\
</header>\n";

/// Appends the beginning of the page.
#[tactic(auto, unfolding(crate::specs::Head::page_opening))]
fn push_opening(out: &mut Vec<u8>) -> Result<(), AllocError>
    ensures { OnOk result (out.new.items ≡ out.old.items ++ page_opening) }
{
    out.extend_from_slice(OPENING)
}

/// Appends the end of the page's head.
#[tactic(auto, unfolding(crate::specs::Head::head_end))]
fn push_head_end(out: &mut Vec<u8>) -> Result<(), AllocError>
    ensures { OnOk result (out.new.items ≡ out.old.items ++ head_end) }
{
    out.extend_from_slice(HEAD_END)
}

/// Appends what is below the heading.
#[tactic(auto, unfolding(crate::specs::Head::search_head))]
fn push_search_head(out: &mut Vec<u8>) -> Result<(), AllocError>
    ensures { OnOk result (out.new.items ≡ out.old.items ++ search_head) }
{
    out.extend_from_slice(SEARCH_HEAD)
}

/// Appends the end of the head, and all that is above the sections, with this heading.
#[tactic(auto, unfolding(crate::specs::Head::page_header))]
fn push_header(out: &mut Vec<u8>, title: &[u8]) -> Result<(), AllocError>
    ensures { OnOk result (out.new.items ≡ out.old.items ++ page_header title.now) }
{
    push_head_end(out)?;
    push_text_line(out, b"h1", b"", title)?;
    push_search_head(out)
}

/// Appends what is printed before all sections, with this title.
#[tactic(auto, unfolding(crate::specs::Head::page_head))]
fn push_titled_head(out: &mut Vec<u8>, title: &[u8]) -> Result<(), AllocError>
    ensures { OnOk result (out.new.items ≡ out.old.items ++ page_head title.now) }
{
    push_opening(out)?;
    push_text_line(out, b"title", b"", title)?;
    push_style(out)?;
    push_script(out)?;
    push_header(out, title)
}

/// Appends what is printed before all sections, with the title that is asked for, or the usual one.
/// `text` is a buffer.
pub(crate) fn push_head(
    out: &mut Vec<u8>,
    title: Option<&str>,
    text: &mut Vec<u8>,
) -> Result<(), AllocError>
    ensures { OnOk result (out.new.items ≡ out.old.items ++ page_head (page_title (option_map (λ title. title.now) title.entry))) }
{
    text.clear();
    push_page_title(text, title)?;
    push_titled_head(out, text.as_slice())
}
