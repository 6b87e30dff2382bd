//! The endings of host names.
ghost use Rattle.std.specs.Prelude.{◌≡◌};
ghost use Rattle.cmd_extract_contents.specs.HostFileNames.{ending_by};

use d64_files::Kind;
use host_names::Ending;

/// Returns the ending of the host name by the kind of a file. A file without a kind is not written.
pub fn ending_by(kind: Option<Kind>) -> Ending
    ensures { result ≡ ending_by kind }
{
    match kind {
        Some(Kind::Del) | None => Ending::Del,
        Some(Kind::Seq) => Ending::Seq,
        Some(Kind::Prg) => Ending::Prg,
        Some(Kind::Usr) => Ending::Usr,
        Some(Kind::Rel) => Ending::Rel,
    }
}
