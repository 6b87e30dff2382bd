//! A host in memory, for tests and for whatever needs no disk.

ghost use Rattle.std.specs.Prelude.{◌≡◌, ℕ, ◌+◌, ◌-◌, ◌↔◌, ◌++◌, [], None, Some, Ok, Err, MatchOption, true, OnOk, OnErr, IfOk, IfErr, IfSome, IsTrue, option_copied, unwrap_or, string_bytes};
ghost use Rattle.std.specs.FinMap.{contains_key, empty, get, insert};
ghost use Rattle.host_storage.specs.Folders.{folder_name, is_at, moved_name, with_stored_file, with_folder, with_more, with_moved, Looks, Makes, Extends, CountsMaking};
ghost use Rattle.host_storage.specs.Host.{fetched_bytes, filled_bytes, opened_bytes, Fetches, Opens, Stores, CountsDevice, host_fault_of, one_more_failure};
ghost use Rattle.host_storage.specs.Obstacles.{LooksFor, LooksToWrite, obstacle_at};
ghost use Rattle.host_memory.specs.MemoryHost.{after_call, countdown_after, extending_refusal, fetch_refusal, files_of_entries, making_refusal, open_refusal, store_refusal};

use host_storage::{FolderFault, Host, HostFault, Obstacle, WriteObstacle};
use std::alloc::{AllocError, Global};
use std::collections::{BTreeMap, VecDeque};
use std::marker::Model;

/// Files in memory, by name. One of its calls can be made to fail, as a disk would. A folder is an
/// empty file whose name ends with a slash; a file needs no folder around it.
#[derive(Drop)]
pub struct MemoryHost {
    alloc: Global,
    entries: BTreeMap<String, Vec<u8>>,
    countdown: u64,
    failures: u64,
}

impl Model for MemoryHost {
    ghost use Rattle.host_memory.specs.MemoryHost.{MemoryFiles, memory_files_code, files_of_entries};

    ghost Value = { MemoryFiles };

    ghost coded = { memory_files_code };

    ghost view = { λ host. record { files = files_of_entries host.entries.entries; countdown = host.countdown; failures = host.failures } };
}

impl MemoryHost {
    /// A host with no file, whose calls do not fail.
    pub fn new(alloc: Global) -> MemoryHost
        ensures { result ≡ record { files = empty; countdown = 0; failures = 0 } }
    {
        MemoryHost {
            alloc,
            entries: BTreeMap::new(alloc),
            countdown: 0,
            failures: 0,
        }
    }

    /// Makes these bytes the content of the named file. `fail_at` does not count this call.
    pub fn put(&mut self, name: &str, bytes: &[u8]) -> Result<(), AllocError>
        ensures accepted { OnOk result (self.new ≡ record self.old { files = insert self.old.files name.now bytes.now }) }
        ensures refused { OnErr result (self.new ≡ self.old) }
    {
        let key = String::from_str(self.alloc, name)?;
        let value = Vec::from_slice(self.alloc, bytes)?;
        self.entries.insert(key, value)?;
        Ok(())
    }

    /// The bytes of the named file, if there is one.
    pub fn file(&self, name: &str) -> Option<&[u8]>
        ensures { option_copied result ≡ get self.now.files name.now }
    {
        self.entries.get(name).map(|bytes| bytes.as_slice())
    }

    /// Makes the `k`-th call from now on return `Device` and change no file, where 1 is the next
    /// one; no call if `k` is 0. Calls that only look do not count. It replaces what an earlier
    /// call of this asked for.
    pub fn fail_at(&mut self, k: u64)
        ensures countdown { self.new ≡ record self.old { countdown = k } }

        // After any number of counted calls, the next one is to fail exactly if it is the k-th.
        ensures exactly { (calls : ℕ) → (countdown_after calls self.new.countdown ≡ 1) ↔ (calls + 1 ≡ k) }
    {
        self.countdown = k;
    }

    /// Counts a call that does more than look. Returns whether it is the one to fail.
    fn count_call(&mut self) -> bool
        ensures fails { IsTrue result ↔ (self.old.countdown ≡ 1) }
        ensures counted { self.new ≡ after_call self.old }
    {
        let fails = self.countdown == 1;
        self.countdown = self.countdown.saturating_sub(1);
        if fails {
            self.failures = self.failures.saturating_add(1);
        }
        fails
    }

    /// Counts a call that makes something new at this path. An error comes if it is the one to
    /// fail, or something is there.
    fn begin_making(&mut self, path: &str) -> Result<(), FolderFault>
        ensures exactly { MatchOption (making_refusal self.old path.now) (result ≡ Ok tt) (λ fault. result ≡ Err fault) }
        ensures countdown { self.new.countdown ≡ self.old.countdown - 1 }
        ensures begun { Makes (λ all. all) (Some self.old.files) path.now result (Some self.new.files) }
        ensures counted { CountsMaking self.old.failures self.new.failures result }
    {
        if self.count_call() {
            return Err(FolderFault::Device);
        }
        if self.is_there(path) {
            return Err(FolderFault::Exists);
        }
        Ok(())
    }

    /// Stores a file. If memory is out, the error is the device's, as for a full disk.
    fn put_or_refuse(&mut self, name: &str, bytes: &[u8]) -> Result<(), FolderFault>
        ensures countdown { self.new.countdown ≡ self.old.countdown }
        ensures accepted { OnOk result (self.new.files ≡ with_stored_file name.now bytes.now self.old.files) }
        ensures refused { OnErr result (self.new.files ≡ self.old.files) }
        ensures fault { IfErr result (λ fault. fault ≡ FolderFault.Device) }
        ensures counted { CountsMaking self.old.failures self.new.failures result }
    {
        match self.put(name, bytes) {
            Ok(()) => Ok(()),
            Err(AllocError) => Err(self.refuse()),
        }
    }

    /// The bytes of the named file followed by these, or None if there is no such file, or no
    /// memory.
    fn longer(&self, name: &str, bytes: &[u8]) -> Option<Vec<u8>>
        ensures { IfSome result (λ longer. contains_key self.now.files name.now ≡ true × longer.items ≡ unwrap_or (get self.now.files name.now) [] ++ bytes.now) }
    {
        let file = self.file(name)?;
        let mut longer = Vec::from_slice(self.alloc, file).ok()?;
        longer.extend_from_slice(bytes).ok()?;
        Some(longer)
    }

    /// Counts a failure of the device.
    fn refuse(&mut self) -> FolderFault
        ensures fault { result ≡ FolderFault.Device }
        ensures counted { self.new ≡ record self.old { failures = one_more_failure self.old.failures } }
    {
        self.count_failed_read();
        FolderFault::Device
    }

    /// Whether a folder is at this path.
    fn has_folder(&self, path: &str) -> bool
        ensures { result ≡ contains_key self.now.files (folder_name path.now) }
    {
        for (name, _) in &self.entries {
            if is_folder_name(name.as_str(), path) {
                return true;
            }
        }
        false
    }

    /// The entries after a folder gets another path.
    fn moved(&self, from: &str, to: &str) -> Result<BTreeMap<String, Vec<u8>>, AllocError>
        ensures { IfOk result (λ entries. files_of_entries entries.entries ≡ with_moved from.now to.now self.now.files) }
    {
        let old = folder_name(self.alloc, from)?;
        let new = folder_name(self.alloc, to)?;
        let mut entries = BTreeMap::new(self.alloc);
        for (name, bytes) in &self.entries {
            let key = moved_name(self.alloc, name.as_str(), old.as_str(), new.as_str())?;
            let value = Vec::from_slice(self.alloc, bytes.as_slice())?;
            entries.insert(key, value)?;
        }
        Ok(entries)
    }
}

/// The name of the folder at this path: the path and a slash.
fn folder_name(alloc: Global, path: &str) -> Result<String, AllocError>
    ensures { IfOk result (λ name. string_bytes name ≡ folder_name path.now) }
{
    let mut name = String::from_str(alloc, path)?;
    name.push_str("/")?;
    Ok(name)
}

/// Whether a name is that of the folder at this path.
fn is_folder_name(name: &str, path: &str) -> bool
    ensures { IsTrue result ↔ (name.now ≡ folder_name path.now) }
{
    match name.strip_suffix('/') {
        Some(folder) => folder == path,
        None => false,
    }
}

/// The name of a file after its beginning is replaced by another.
fn moved_name(alloc: Global, name: &str, from: &str, to: &str) -> Result<String, AllocError>
    ensures { IfOk result (λ moved. string_bytes moved ≡ moved_name from.now to.now name.now) }
{
    match name.strip_prefix(from) {
        Some(rest) => {
            let mut moved = String::from_str(alloc, to)?;
            moved.push_str(rest)?;
            Ok(moved)
        }
        None => String::from_str(alloc, name),
    }
}

impl Host for MemoryHost {
    type File = VecDeque<u8>;

    ghost state = { λ host. record { files = Some host.files; failures = host.failures } };

    fn fetch(&mut self, alloc: Global, name: &str, limit: usize) -> Result<Vec<u8>, HostFault>
        ensures refused { host_fault_of result ≡ fetch_refusal self.old name.now limit }
        ensures after { self.new ≡ after_call self.old }
        ensures returned { Fetches (Some self.old.files) name.now limit (fetched_bytes result) }
        ensures files_kept { Some self.new.files ≡ Some self.old.files }
        ensures counted { CountsDevice self.old.failures self.new.failures result }
    {
        let mut bytes = Vec::new(alloc);
        self.fill(name, limit, &mut bytes)?;
        Ok(bytes)
    }

    fn fill(&mut self, name: &str, limit: usize, bytes: &mut Vec<u8>) -> Result<(), HostFault>
        ensures refused { host_fault_of result ≡ fetch_refusal self.old name.now limit }
        ensures after { self.new ≡ after_call self.old }
        ensures returned { Fetches (Some self.old.files) name.now limit (filled_bytes result bytes.new) }
        ensures files_kept { Some self.new.files ≡ Some self.old.files }
        ensures counted { CountsDevice self.old.failures self.new.failures result }
    {
        if self.count_call() {
            return Err(HostFault::Device);
        }
        let Some(file) = self.file(name) else {
            return Err(HostFault::Missing);
        };
        if file.len() > limit {
            return Err(HostFault::TooLong);
        }
        bytes.clear();
        bytes.extend_from_slice(file).map_err(HostFault::Memory)
    }

    fn open(&mut self, name: &str) -> Result<VecDeque<u8>, HostFault>
        ensures refused { host_fault_of result ≡ open_refusal self.old name.now }
        ensures after { self.new ≡ after_call self.old }
        ensures returned { Opens (Some self.old.files) name.now (opened_bytes (λ file. Some file.items) result) }
        ensures files_kept { Some self.new.files ≡ Some self.old.files }
        ensures counted { CountsDevice self.old.failures self.new.failures result }
    {
        if self.count_call() {
            return Err(HostFault::Device);
        }
        let file = self.file(name).ok_or(HostFault::Missing)?;
        let copy = Vec::from_slice(self.alloc, file).map_err(HostFault::Memory)?;
        Ok(VecDeque::from_vec(copy))
    }

    fn count_failed_read(&mut self)
        ensures counted { self.new ≡ record self.old { failures = one_more_failure self.old.failures } }
        ensures files_kept { self.new.files ≡ self.old.files }
    {
        self.failures = self.failures.saturating_add(1);
    }

    fn store(&mut self, _alloc: Global, name: &str, bytes: &[u8]) -> Result<(), HostFault>
        ensures refused { host_fault_of result ≡ store_refusal self.old }
        ensures accepted { OnOk result (self.new ≡ record (after_call self.old) { files = insert self.old.files name.now bytes.now }) }
        ensures unchanged { OnErr result (self.new ≡ after_call self.old) }
        ensures stored { Stores (Some self.old.files) name.now bytes.now result (Some self.new.files) }
        ensures counted { CountsDevice self.old.failures self.new.failures result }
    {
        if self.count_call() {
            Err(HostFault::Device)
        } else {
            self.put(name, bytes).map_err(HostFault::Memory)
        }
    }

    fn is_there(&self, path: &str) -> bool
        ensures exactly { result ≡ is_at self.now.files path.now }
        ensures returned { Looks (Some self.now.files) path.now result }
    {
        self.file(path).is_some() || self.has_folder(path)
    }

    fn obstacle(&self, path: &str) -> Option<Obstacle>
        ensures exactly { result ≡ obstacle_at self.now.files path.now }
        ensures obstacle { LooksFor (Some self.now.files) path.now result }
    {
        if self.file(path).is_some() {
            None
        } else if self.has_folder(path) {
            Some(Obstacle::Folder)
        } else {
            Some(Obstacle::Nothing)
        }
    }

    fn write_obstacle(&self, path: &str) -> Option<WriteObstacle>
        ensures obstacle { LooksToWrite (Some self.now.files) path.now result }
    {
        if self.has_folder(path) {
            Some(WriteObstacle::Folder)
        } else {
            None
        }
    }

    fn make_folder(&mut self, path: &str) -> Result<(), FolderFault>
        ensures due { self.old.countdown ≡ 1 → result ≡ Err FolderFault.Device }
        ensures exists { making_refusal self.old path.now ≡ Some FolderFault.Exists → result ≡ Err FolderFault.Exists }
        ensures countdown { self.new.countdown ≡ self.old.countdown - 1 }
        ensures made { Makes (with_folder path.now) (Some self.old.files) path.now result (Some self.new.files) }
        ensures counted { CountsMaking self.old.failures self.new.failures result }
    {
        self.begin_making(path)?;
        match folder_name(self.alloc, path) {
            Ok(name) => self.put_or_refuse(name.as_str(), &[]),
            Err(AllocError) => Err(self.refuse()),
        }
    }

    fn make_file(&mut self, path: &str, bytes: &[u8]) -> Result<(), FolderFault>
        ensures due { self.old.countdown ≡ 1 → result ≡ Err FolderFault.Device }
        ensures exists { making_refusal self.old path.now ≡ Some FolderFault.Exists → result ≡ Err FolderFault.Exists }
        ensures countdown { self.new.countdown ≡ self.old.countdown - 1 }
        ensures made { Makes (with_stored_file path.now bytes.now) (Some self.old.files) path.now result (Some self.new.files) }
        ensures counted { CountsMaking self.old.failures self.new.failures result }
    {
        self.begin_making(path)?;
        self.put_or_refuse(path, bytes)
    }

    fn make_whole_file(
        &mut self,
        _alloc: Global,
        path: &str,
        bytes: &[u8],
    ) -> Result<(), FolderFault>
        ensures due { self.old.countdown ≡ 1 → result ≡ Err FolderFault.Device }
        ensures exists { making_refusal self.old path.now ≡ Some FolderFault.Exists → result ≡ Err FolderFault.Exists }
        ensures countdown { self.new.countdown ≡ self.old.countdown - 1 }
        ensures made { Makes (with_stored_file path.now bytes.now) (Some self.old.files) path.now result (Some self.new.files) }
        ensures counted { CountsMaking self.old.failures self.new.failures result }
    {
        self.make_file(path, bytes)
    }

    fn extend_file(&mut self, path: &str, bytes: &[u8]) -> Result<(), FolderFault>
        ensures due { extending_refusal self.old path.now ≡ Some FolderFault.Device → result ≡ Err FolderFault.Device }
        ensures kept { OnErr result (self.new.files ≡ self.old.files) }
        ensures countdown { self.new.countdown ≡ self.old.countdown - 1 }
        ensures extended { Extends path.now bytes.now (Some self.old.files) result (Some self.new.files) }
        ensures counted { CountsMaking self.old.failures self.new.failures result }
    {
        if self.count_call() {
            return Err(FolderFault::Device);
        }
        match self.longer(path, bytes) {
            Some(longer) => self.put_or_refuse(path, longer.as_slice()),
            None => Err(self.refuse()),
        }
    }

    fn rename_folder(&mut self, from: &str, to: &str) -> Result<(), FolderFault>
        ensures due { self.old.countdown ≡ 1 → result ≡ Err FolderFault.Device }
        ensures exists { making_refusal self.old to.now ≡ Some FolderFault.Exists → result ≡ Err FolderFault.Exists }
        ensures countdown { self.new.countdown ≡ self.old.countdown - 1 }
        ensures was { OnOk result (IfSome (Some self.old.files) (λ all. contains_key all (folder_name from.now) ≡ true)) }
        ensures made { Makes (with_moved from.now to.now) (Some self.old.files) to.now result (Some self.new.files) }
        ensures counted { CountsMaking self.old.failures self.new.failures result }
    {
        self.begin_making(to)?;
        if !self.has_folder(from) {
            return Err(self.refuse());
        }
        match self.moved(from, to) {
            Ok(entries) => {
                self.entries = entries;
                Ok(())
            }
            Err(AllocError) => Err(self.refuse()),
        }
    }

    fn failures(&self) -> u64
        ensures { result ≡ self.now.failures }
    {
        self.failures
    }
}
