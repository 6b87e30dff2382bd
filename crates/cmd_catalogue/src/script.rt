//! The script by which the page is searched. The page can be read without it.
//!
//! The policy in `head` has the digest of the script: a change of the script needs a change there,
//! and scripts/sweep-catalogue prints the digest.
ghost use Rattle.std.specs.Prelude.{◌≡◌, ◌++◌, OnOk};
ghost use Rattle.cmd_catalogue.specs.Script.{steps, script};

use std::alloc::AllocError;

/// What is on the page: each section, with its names and files.
const GATHERING: &[u8] = b"document.documentElement.className = \"opening\";\n\
addEventListener(\"DOMContentLoaded\", () => {\n\
\x20 const all = (words, within = document) => [...within.querySelectorAll(words)];\n\
\x20 const lower = (part) => part.textContent.toLowerCase();\n\
\x20 const [field] = all(\"input\"), [count] = all(\"output\"), [tools] = all(\".tools\"), buttons = all(\"button\");\n\
\x20 const disks = all(\"details, section\").map((box, place) => ({ box, hidden: box.hidden = place >= 100 }));\n\
\x20 const known = (disk) => disk.files ? disk : Object.assign(disk, {\n\
\x20   names: all(\".name, .host\", disk.box).map(lower),\n\
\x20   files: all(\"tbody th\", disk.box).map((head) => ({ row: head.parentNode, name: lower(head), hidden: false })),\n\
\x20 });\n\
\x20 document.documentElement.className = \"\";\n";

/// What is shown: the sections and files whose name contains what is typed, in the state that is
/// chosen.
const SHOWING: &[u8] = b"  let state = \"\", last = \"\", rest = [], noted = [], frame;\n\
\x20 const more = (most = 100) => {\n\
\x20   for (const disk of rest.splice(0, most)) known(disk).box.hidden = disk.hidden = false;\n\
\x20   frame = rest.length && requestAnimationFrame(() => more());\n\
\x20 };\n\
\x20 const counted = (number) => number === 1 ? \"1 file\" : `${number} files`;\n\
\x20 const unfold = (kept, text) => {\n\
\x20   let room = 400, rows = 4000;\n\
\x20   for (const disk of disks) disk.box.open = false;\n\
\x20   for (const part of noted.splice(0)) delete part.dataset.found;\n\
\x20   for (const disk of text && kept) {\n\
\x20     if (disk.held) {\n\
\x20       room -= disk.files.filter((file) => file.holds).length;\n\
\x20       rows -= disk.files.length;\n\
\x20     }\n\
\x20     disk.box.open = disk.held ? room >= 0 && rows >= 0 : kept.length <= 20;\n\
\x20     if (!disk.held || disk.box.open) continue;\n\
\x20     const [part] = all(\".contents\", disk.box);\n\
\x20     part.dataset.found = `${counted(disk.held)} found`;\n\
\x20     noted.push(part);\n\
\x20   }\n\
\x20 };\n\
\x20 const show = () => {\n\
\x20   const text = field.value.toLowerCase(), asked = text && state + \" \" + text;\n\
\x20   const kept = disks.filter((disk) => {\n\
\x20     const whole = !text || known(disk).names.some((name) => name.includes(text)), files = disk.files || [];\n\
\x20     const held = text ? files.filter((file) => file.name.includes(text)) : [];\n\
\x20     for (const file of files) file.holds = whole;\n\
\x20     for (const file of held) file.holds = true;\n\
\x20     disk.held = held.length;\n\
\x20     const found = (whole || disk.held) && (!state || disk.box.className === state);\n\
\x20     if (!found && !disk.hidden) disk.box.hidden = disk.hidden = true;\n\
\x20     if (found) for (const file of files) if (file.hidden === file.holds) file.row.hidden = file.hidden = !file.holds;\n\
\x20     return found;\n\
\x20   });\n\
\x20   if (asked !== last) unfold(kept, text);\n\
\x20   last = asked;\n\
\x20   const held = kept.reduce((sum, disk) => sum + disk.held, 0);\n\
\x20   count.value = `${kept.length} of ${disks.length} disks` + (text && `, ${counted(held)}`);\n\
\x20   cancelAnimationFrame(frame);\n\
\x20   rest = kept.filter((disk) => disk.hidden);\n\
\x20   more();\n\
\x20 };\n";

/// When the search runs: as the page opens, by its address, and by the reader.
const LISTENING: &[u8] = b"  const search = () => {\n\
\x20   const [, text = \"\"] = location.hash.match(/^#q=(.*)/) || [];\n\
\x20   try { field.value = decodeURIComponent(text); } catch { field.value = text; }\n\
\x20   show();\n\
\x20 };\n\
\x20 field.addEventListener(\"input\", () => {\n\
\x20   show();\n\
\x20   history.replaceState(null, \"\", \"#\" + (field.value && \"q=\" + encodeURIComponent(field.value)));\n\
\x20 });\n\
\x20 for (const button of buttons) button.addEventListener(\"click\", () => {\n\
\x20   state = button.value;\n\
\x20   for (const other of buttons) other.setAttribute(\"aria-pressed\", other === button);\n\
\x20   show();\n\
\x20 });\n\
\x20 addEventListener(\"hashchange\", search);\n\
\x20 addEventListener(\"beforeprint\", () => more(Infinity));\n\
\x20 tools.hidden = false;\n\
\x20 search();\n\
});\n";

/// Appends all steps.
#[tactic(auto, unfolding(crate::specs::Script::steps, crate::specs::Script::gathering, crate::specs::Script::showing, crate::specs::Script::listening))]
fn push_steps(out: &mut Vec<u8>) -> Result<(), AllocError>
    ensures { OnOk result (out.new.items ≡ out.old.items ++ steps) }
{
    out.extend_from_slice(GATHERING)?;
    out.extend_from_slice(SHOWING)?;
    out.extend_from_slice(LISTENING)
}

/// Appends the script.
#[tactic(auto, unfolding(crate::specs::Script::script, out_markup::specs::Markup::element, out_markup::specs::Markup::tag))]
pub(crate) fn push_script(out: &mut Vec<u8>) -> Result<(), AllocError>
    ensures { OnOk result (out.new.items ≡ out.old.items ++ script) }
{
    out.extend_from_slice(b"<script>\n")?;
    push_steps(out)?;
    out.extend_from_slice(b"</script>\n")
}
