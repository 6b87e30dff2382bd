//! The style of a picture.
ghost use Rattle.std.specs.Prelude.{◌≡◌, ◌++◌, OnOk};
ghost use Rattle.out_picture.specs.Style.{basic_rules, colour_rules, mark_rules, region_rules, picture_rules, style};

use std::alloc::AllocError;

/// The page, texts and squares.
const BASIC_RULES: &[u8] = b".disk text{font:12px sans-serif;fill:#2d3440}\n\
.disk .head{font:bold 18px sans-serif}\n\
.disk .start,.disk .middle,.disk .end{font:11px monospace;fill:#6b7280}\n\
.disk .middle{text-anchor:middle}\n\
.disk .end{text-anchor:end}\n\
.disk path{stroke-width:4;stroke-linejoin:round;stroke-linecap:round}\n\
.disk .page{fill:#fff}\n\
.disk .free{fill:#eff1f4;stroke:#eff1f4}\n\
.disk .unowned{fill:#cdd2d9;stroke:#cdd2d9}\n\
.disk .system{fill:#4b5563;stroke:#4b5563}\n";

/// The colours of files: eight that can be told apart with any colour vision (Paul Tol's light
/// scheme), and the same eight with a frame.
const COLOUR_RULES: &[u8] = b".disk .c0{fill:#7ad;stroke:#7ad}\n\
.disk .c1{fill:#e86;stroke:#e86}\n\
.disk .c2{fill:#4b9;stroke:#4b9}\n\
.disk .c3{fill:#fab;stroke:#fab}\n\
.disk .c4{fill:#aa0;stroke:#aa0}\n\
.disk .c5{fill:#9df;stroke:#9df}\n\
.disk .c6{fill:#ed8;stroke:#ed8}\n\
.disk .c7{fill:#bc3;stroke:#bc3}\n\
.disk .c8{fill:#7ad;stroke:#456;stroke-width:3}\n\
.disk .c9{fill:#e86;stroke:#456;stroke-width:3}\n\
.disk .c10{fill:#4b9;stroke:#456;stroke-width:3}\n\
.disk .c11{fill:#fab;stroke:#456;stroke-width:3}\n\
.disk .c12{fill:#aa0;stroke:#456;stroke-width:3}\n\
.disk .c13{fill:#9df;stroke:#456;stroke-width:3}\n\
.disk .c14{fill:#ed8;stroke:#456;stroke-width:3}\n\
.disk .c15{fill:#bc3;stroke:#456;stroke-width:3}\n";

/// The marks.
const MARK_RULES: &[u8] =
    b".disk .dot{fill:none;stroke:#6b7280;stroke-width:5;pointer-events:none}\n\
.disk .bad{fill:#fff;stroke:#a11;stroke-width:2;pointer-events:none}\n";

/// The regions of a picture inside a page, on whose grid a cell is one wide.
const REGION_RULES: &[u8] = b".disk .cells path{stroke:#fff;stroke-width:.1}\n\
.disk .cells .dot{stroke:#6b7280;stroke-width:.23}\n\
.disk .cells :is(.c8,.c9,.c10,.c11,.c12,.c13,.c14,.c15){stroke:#456;stroke-width:.13}\n";

/// Appends the rules of the page, of texts and of squares.
#[tactic(auto, unfolding(crate::specs::Style::basic_rules))]
fn push_basic_rules(out: &mut Vec<u8>) -> Result<(), AllocError>
    ensures { OnOk result (out.new.items ≡ out.old.items ++ basic_rules) }
{
    out.extend_from_slice(BASIC_RULES)
}

/// Appends the rules of the colours of files.
#[tactic(auto, unfolding(crate::specs::Style::colour_rules))]
fn push_colour_rules(out: &mut Vec<u8>) -> Result<(), AllocError>
    ensures { OnOk result (out.new.items ≡ out.old.items ++ colour_rules) }
{
    out.extend_from_slice(COLOUR_RULES)
}

/// Appends the rules of the marks.
#[tactic(auto, unfolding(crate::specs::Style::mark_rules))]
fn push_mark_rules(out: &mut Vec<u8>) -> Result<(), AllocError>
    ensures { OnOk result (out.new.items ≡ out.old.items ++ mark_rules) }
{
    out.extend_from_slice(MARK_RULES)
}

/// Appends the rules of the regions inside a page.
#[tactic(auto, unfolding(crate::specs::Style::region_rules))]
fn push_region_rules(out: &mut Vec<u8>) -> Result<(), AllocError>
    ensures { OnOk result (out.new.items ≡ out.old.items ++ region_rules) }
{
    out.extend_from_slice(REGION_RULES)
}

/// Appends the rules of all pictures inside a page, for the page's style.
#[tactic(auto, unfolding(crate::specs::Style::picture_rules))]
pub fn push_picture_rules(out: &mut Vec<u8>) -> Result<(), AllocError>
    ensures { OnOk result (out.new.items ≡ out.old.items ++ picture_rules) }
{
    push_rules(out)?;
    push_region_rules(out)
}

/// Appends all rules.
fn push_rules(out: &mut Vec<u8>) -> Result<(), AllocError>
    ensures { OnOk result (out.new.items ≡ out.old.items ++ (basic_rules ++ (colour_rules ++ mark_rules))) }
{
    push_basic_rules(out)?;
    push_colour_rules(out)?;
    push_mark_rules(out)
}

/// Appends the whole style.
#[tactic(auto, unfolding(crate::specs::Style::style, out_markup::specs::Markup::element, out_markup::specs::Markup::tag, out_markup::specs::Markup::attribute))]
pub(crate) fn push_style(out: &mut Vec<u8>) -> Result<(), AllocError>
    ensures { OnOk result (out.new.items ≡ out.old.items ++ style) }
{
    out.extend_from_slice(b"<style type=\"text/css\">\n")?;
    push_rules(out)?;
    out.extend_from_slice(b"</style>\n")?;
    Ok(())
}
