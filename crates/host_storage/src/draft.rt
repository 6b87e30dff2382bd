//! Replacing a file by a new one beside it, once that is whole and on the disk.

ghost use Rattle.std.specs.Prelude.{◌≡◌, Option, option_map, IfErr, IfSome, OnOk, OnErr};
ghost use Rattle.host_storage.specs.Replacement.{ReplacedFile, file_alone, filled_place, synced_place, published_place, discarded_place, exposed_content, IsReady};

use crate::host::HostFault;

/// A new file beside the one that it is to replace.
///
/// A draft can expose to proofs what the system has, as one made for tests does, or expose nothing,
/// as one over a disk.
pub trait Draft {
    // The file and what is beside it, if the draft exposes them.
    ghost place: { Self → Option ReplacedFile };

    /// Writes these bytes, the whole content of the new file.
    fn fill(&mut self, bytes: &[u8]) -> Result<(), HostFault>
        ensures filled { OnOk result (place self.new ≡ option_map (filled_place bytes.now) (place self.old)) }
        ensures kept { OnErr result (exposed_content (place self.new) ≡ exposed_content (place self.old)) }
        ensures refused { IfErr result (λ fault. fault ≡ HostFault.Device) };

    /// Waits until the disk has what was written.
    fn sync(&mut self) -> Result<(), HostFault>
        ensures synced { OnOk result (place self.new ≡ option_map synced_place (place self.old)) }
        ensures kept { OnErr result (exposed_content (place self.new) ≡ exposed_content (place self.old)) }
        ensures refused { IfErr result (λ fault. fault ≡ HostFault.Device) };

    /// Puts the new file in place of the old one, in one step.
    fn publish(&mut self) -> Result<(), HostFault>
        requires { IfSome (place self.old) IsReady }
        ensures published { OnOk result (place self.new ≡ option_map published_place (place self.old)) }
        ensures kept { OnErr result (exposed_content (place self.new) ≡ exposed_content (place self.old)) }
        ensures refused { IfErr result (λ fault. fault ≡ HostFault.Device) };

    /// Removes the new file.
    fn discard(&mut self)
        ensures { place self.new ≡ option_map discarded_place (place self.old) };
}

/// Replaces the file by these bytes, or removes the new file and keeps the old one.
pub fn replace_by<D: Draft>(draft: &mut D, bytes: &[u8]) -> Result<(), HostFault>
    ensures replaced { OnOk result (D.place draft.new ≡ option_map (λ place. file_alone bytes.now) (D.place draft.old)) }
    ensures kept { OnErr result (D.place draft.new ≡ option_map discarded_place (D.place draft.old)) }
    ensures refused { IfErr result (λ fault. fault ≡ HostFault.Device) }
{
    match write_and_publish(draft, bytes) {
        Ok(()) => Ok(()),
        Err(fault) => {
            draft.discard();
            Err(fault)
        }
    }
}

/// Writes the new file, waits for the disk, and only then puts it in place of the old one.
fn write_and_publish<D: Draft>(draft: &mut D, bytes: &[u8]) -> Result<(), HostFault>
    ensures replaced { OnOk result (D.place draft.new ≡ option_map (λ place. file_alone bytes.now) (D.place draft.old)) }
    ensures kept { OnErr result (exposed_content (D.place draft.new) ≡ exposed_content (D.place draft.old)) }
    ensures refused { IfErr result (λ fault. fault ≡ HostFault.Device) }
{
    write_and_sync(draft, bytes)?;
    draft.publish()
}

/// Writes the new file, and waits until the disk has it.
fn write_and_sync<D: Draft>(draft: &mut D, bytes: &[u8]) -> Result<(), HostFault>
    ensures synced { OnOk result (D.place draft.new ≡ option_map (λ place. synced_place (filled_place bytes.now place)) (D.place draft.old)) }
    ensures kept { OnErr result (exposed_content (D.place draft.new) ≡ exposed_content (D.place draft.old)) }
    ensures refused { IfErr result (λ fault. fault ≡ HostFault.Device) }
{
    draft.fill(bytes)?;
    draft.sync()
}
