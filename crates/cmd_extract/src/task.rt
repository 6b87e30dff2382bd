//! The folder of an image, made call by call of the host.
ghost use Rattle.std.specs.Prelude.{◌≡◌, map, string_bytes, IfOk};
ghost use Rattle.d64_inventory.specs.Rows.{rows};
ghost use Rattle.host_names.specs.Paths.{path_inside};
ghost use Rattle.cmd_extract.specs.Work.{EndsWork};
ghost use Rattle.cmd_extract.specs.FilesNow.{progress_of_files};
ghost use Rattle.cmd_extract.specs.Setup.{list_in};
ghost use Rattle.cmd_extract.specs.Unpacking.{name_work, unmade_work, folder_work, folders_work, folder_after, present_work, task_work_with};

use crate::calls::{is_there, make_folder, reason_at, rename};
use crate::files::Files;
use crate::folders::have_folders;
use crate::setup::Task;
use crate::verdicts::{
    report_finished, report_present, report_skipped, report_unfinished, report_unmade,
    report_unnamed,
};
use host_names::path_inside;
use host_storage::Host;
use program_surveys::{ReportBuffer, Verdict};
use std::alloc::{AllocError, Global};

impl<'a, 'd> Task<'a, 'd> {
    /// Gives the image's folder its name, if all was written, and returns the verdict.
    fn name_folder<H: Host>(
        &self,
        files: &mut Files,
        host: &mut H,
        buffer: &mut ReportBuffer,
    ) -> Result<Verdict, AllocError>
        ensures { EndsWork result buffer.new (name_work self.now (progress_of_files files.old)) (H.state host.old) (H.state host.new) }
    {
        if files.reported.has_failed {
            return Ok(report_unfinished(files, buffer));
        }
        if rename(host, &self.partial, &self.done) {
            Ok(report_finished(self, files, buffer))
        } else {
            let reason = reason_at(host, self.done.as_bytes());
            report_unnamed(self, reason, files, buffer)
        }
    }

    /// Reports that a folder cannot be made at a path, or that the chosen folder is missing, and
    /// why.
    fn end_unmade<H: Host>(
        &self,
        path: &str,
        files: &mut Files,
        host: &H,
        buffer: &mut ReportBuffer,
    ) -> Result<Verdict, AllocError>
        ensures { EndsWork result buffer.new (unmade_work self.now path.now) (H.state host.now) (H.state host.now) }
    {
        let setup = self.setup;
        let is_into_there = is_there(host, &setup.into);
        let reason = reason_at(host, path.as_bytes());
        let scratch = &mut files.reported.scratch;
        if is_into_there {
            report_unmade(self, scratch, path, reason, buffer)
        } else {
            report_unmade(self, scratch, &setup.into, reason, buffer)
        }
    }

    /// Makes the image's folder, and all that is in it.
    fn unpack_folder<H: Host>(
        &self,
        files: &mut Files,
        host: &mut H,
        buffer: &mut ReportBuffer,
    ) -> Result<Verdict, AllocError>
        ensures { EndsWork result buffer.new (folder_work self.now) (H.state host.old) (H.state host.new) }
    {
        if !make_folder(host, &self.partial) {
            return self.end_unmade(&self.partial, files, host, buffer);
        }
        files.unpack_files(self, host)?;
        files.close(self)?;
        files.put_lines(self, host)?;
        self.name_folder(files, host, buffer)
    }

    /// Makes the folders in which the image's folder lies, and then that folder.
    fn unpack_below<H: Host>(
        &self,
        folders: &[&str],
        files: &mut Files,
        host: &mut H,
        buffer: &mut ReportBuffer,
    ) -> Result<Verdict, AllocError>
        ensures { EndsWork result buffer.new (folders_work (folder_after self.now) (path_inside self.now.setup.into) (map (λ folder. folder.now) folders.now)) (H.state host.old) (H.state host.new) }
    {
        let setup = self.setup;
        let start = path_inside(self.alloc, &setup.into)?;
        match have_folders(host, start, folders)? {
            Some(path) => self.end_unmade(&path, files, host, buffer),
            None => self.unpack_folder(files, host, buffer),
        }
    }

    /// Ends if the path of the image's folder exists.
    fn end_present<H: Host>(
        &self,
        files: &mut Files,
        host: &H,
        buffer: &mut ReportBuffer,
    ) -> Result<Verdict, AllocError>
        ensures { EndsWork result buffer.new (present_work self.now) (H.state host.now) (H.state host.now) }
    {
        let setup = self.setup;
        if !setup.skips {
            return report_present(self, &mut files.reported.scratch, &self.done, buffer);
        }
        let list = list_in(self.alloc, &self.done)?;
        if is_there(host, &list) {
            report_skipped(self, buffer)
        } else {
            report_present(self, &mut files.reported.scratch, &self.done, buffer)
        }
    }

    /// Unpacks the image, which lies in these folders, unless its folder exists.
    pub(crate) fn unpack<H: Host>(
        &self,
        folders: &[&str],
        files: &mut Files,
        host: &mut H,
        buffer: &mut ReportBuffer,
    ) -> Result<Verdict, AllocError>
        ensures { EndsWork result buffer.new (task_work_with self.now (map (λ folder. folder.now) folders.now)) (H.state host.old) (H.state host.new) }
    {
        if is_there(host, &self.done) {
            return self.end_present(files, host, buffer);
        }
        if is_there(host, &self.partial) {
            return report_present(self, &mut files.reported.scratch, &self.partial, buffer);
        }
        self.unpack_below(folders, files, host, buffer)
    }
}

/// Returns the path of the list of an image's files in this folder.
fn list_in(alloc: Global, folder: &str) -> Result<String, AllocError>
    ensures { IfOk result (λ path. string_bytes path ≡ list_in folder.now) }
{
    let mut path = String::from_str(alloc, folder)?;
    path.push('/')?;
    path.push_str("files.jsonl")?;
    Ok(path)
}
