//! The prompt: which image a session is of, and whether it has changes that are not saved.
ghost use Rattle.std.specs.Prelude.{◌≡◌, ◌++◌, IfOk, OnOk, OnErr, option_copied};
ghost use Rattle.host_storage.specs.Output.{Writes};
ghost use Rattle.program_console.specs.Outside.{account_at};
ghost use Rattle.script_hints.specs.Prompt.{prompt_mark, name_in_prompt, prompt};

use host_storage::{OutputStream, WriteFault, push_shown};
use script_lines::arguments::after_slash;
use std::alloc::{AllocError, Global};
use std::io::Write;

/// The name in the prompt of a session whose image is in this host file, or in none.
pub(crate) fn prompt_name(alloc: Global, home: Option<&str>) -> Result<Vec<u8>, AllocError>
    ensures { IfOk result (λ name. name.items ≡ name_in_prompt (option_copied home.entry)) }
{
    let mut name = Vec::new(alloc);
    match home {
        Some(home) => push_shown(&mut name, after_slash(home.as_bytes()))?,
        None => name.extend_from_slice(b"d64sh")?,
    }
    Ok(name)
}

/// Writes the prompt.
pub(crate) fn write_prompt<W: Write>(
    output: &mut OutputStream<'_, W>,
    name: &[u8],
    is_unsaved: bool,
) -> Result<(), WriteFault>
    ensures same { output.new.writer.ghost_name ≡ output.old.writer.ghost_name }
    ensures either { Writes (account_at W.contents output.old) (account_at W.contents output.new) (prompt name.now is_unsaved) }
{
    output.write(name)?;
    output.write(mark(is_unsaved))
}

/// The mark after the name.
fn mark(is_unsaved: bool) -> &'static [u8]
    ensures { result.now ≡ prompt_mark is_unsaved }
{
    if is_unsaved { b"*> " } else { b"> " }
}
