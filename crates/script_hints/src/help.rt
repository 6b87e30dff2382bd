//! The commands, as `help` shows them.
ghost use Rattle.std.specs.Prelude.{◌≡◌};
ghost use Rattle.host_storage.specs.Output.{Writes};
ghost use Rattle.program_console.specs.Outside.{account_at};
ghost use Rattle.script_hints.specs.Commands.{command_rows};

use host_storage::{OutputStream, WriteFault};
use std::io::Write;

/// A row for each command, as `d64sh help shell` has them.
const ROWS: &[u8] = b"\
\x20 format NAME,ID         make the disk empty
\x20 write HOST [NAME[,T]]  write a host file to the disk; T is p, s or u
\x20 crunch HOST [NAME]     write the BASIC program of a host file's text
\x20 read NAME [HOST]       store a file of the disk as a host file
\x20 petcat NAME            print the text of a BASIC program
\x20 type NAME              print a text of the disk
\x20 delete PATTERN ..      delete the files whose names match
\x20 undelete NAME[,T]      bring a deleted file back; T is p, s or u
\x20 rename OLD NEW         give a file another name
\x20 name TEXT[,ID]         give the disk another name
\x20 list                   print the directory
\x20 validate               free the blocks that no closed file has
\x20 block T S              print the block of track T and sector S
\x20 bread HOST T S         store a block as a host file
\x20 bwrite HOST T S        write a block from a host file of 256 bytes
\x20 undo, redo             take a change back, and make it again
\x20 history                print the changes
\x20 save [HOST]            store the image, as IMAGE without a name
\x20 keep HOST              store the session, with its changes
\x20 quit                   end the script
";

/// Writes the rows.
#[tactic(auto, unfolding(crate::specs::Commands::command_rows))]
pub(crate) fn write_rows<W: Write>(output: &mut OutputStream<'_, W>) -> Result<(), WriteFault>
    ensures same { output.new.writer.ghost_name ≡ output.old.writer.ghost_name }
    ensures either { Writes (account_at W.contents output.old) (account_at W.contents output.new) command_rows }
{
    output.write(ROWS)
}
