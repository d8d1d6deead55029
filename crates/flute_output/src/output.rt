//! An output that becomes OUT whole or not at all.
ghost use Rattle.std.specs.Prelude.{◌≡◌, ◌+◌, ◌<◌, ◌≤◌, length};
ghost use Rattle.std.specs.Prelude.{IfOk, IfSome, IfErr, OnOk, OnErr, Ok, Err, option_map};
ghost use Rattle.std.specs.Prelude.{is_ok, None, Some, if◌then◌else◌};
ghost use Rattle.flute_output.specs.Entries.{Leads, Does, OutStays, OutBecomes};
ghost use Rattle.flute_output.specs.Entries.{Lasts, Ends, IfWork, IsEitherAlways, IsWriting};
ghost use Rattle.flute_output.specs.Entries.{created, taken, whole, found_in, named_in};
ghost use Rattle.flute_output.specs.OutMoments.{BecomesAt, Follows, Steady, replaced};
ghost use Rattle.std.specs.Io.KnownBytes.{WriteAppends};

use crate::folder::Folder;
use flute_parts::{DeviceFault, Sink};
use std::marker::Model;

/// An output whose bytes go to a file beside OUT. It is made, written as a [`Sink`], and then
/// finished: OUT is then the file of all these bytes, or what it was.
///
/// Contracts see it as its folder, which has the file beside OUT.
#[derive(Drop)]
pub struct Output<F: Folder + Drop> {
    folder: F,
}

impl<F: Folder + Drop> Model for Output<F> {
    ghost use Rattle.std.specs.Prelude.{IfSome};
    ghost use Rattle.flute_output.specs.Entries.{IsWriting};

    ghost Value = { F };

    ghost view = { λ o. o.folder };

    ghost invariant = { λ o. IfSome (F.entries o.folder) IsWriting };
}

/// Why an output was not finished.
#[derive(Debug, Drop)]
pub enum FinishFault<E> {
    /// The work that wrote it failed so. OUT is as before.
    Work(E),
    /// The device did not take the bytes, or the file could not be put in place. OUT is as before.
    Write,
    /// OUT is the new file, but the disk did not confirm this name: a lost power may leave what OUT
    /// was.
    NotOnDisk,
}

impl<F: Folder + Drop> Output<F> {
    /// Makes the file beside OUT, empty.
    ///
    /// # Errors
    ///
    /// The folder, if the file could not be made. OUT is as before.
    pub fn create(mut folder: F) -> Result<Output<F>, F>
        ensures made { IfOk result (λ output. Does created (F.entries folder) (F.entries output)) }
        ensures refused { IfErr result
            (λ back. Leads OutStays (F.entries folder) (F.entries back)) }
        ensures steady { IfOk result (λ output. Steady (F.moments folder) (F.moments output)) }
        ensures back { IfErr result (λ back. Steady (F.moments folder) (F.moments back)) }
        ensures quiet { IfOk result (λ output. F.failures output ≡ F.failures folder) }
        ensures cause { IfErr result (λ back. F.failures back ≡ F.failures folder + 1) }
    {
        match folder.create() {
            Ok(()) => Ok(Output { folder }),
            Err(_) => Err(folder),
        }
    }

    /// Ends an output after the work that wrote it. If that was done, the file beside OUT is
    /// flushed, brought to the disk, and named OUT, and that name is brought to the disk. If the
    /// work failed, or a step before the last does, the file beside OUT is removed.
    ///
    /// It gives the folder back. OUT is then what was written, or exactly what it was; and at each
    /// moment in between it was one of the two.
    ///
    /// # Errors
    ///
    /// `Work` with the fault of the work; or else `Write` if a step failed that comes before the
    /// name, and `NotOnDisk` if the last one did. The file beside OUT is gone, unless the folder
    /// failed to remove it.
    pub fn finish<T: Drop, E: Drop>(self, done: Result<T, E>) -> (Result<T, FinishFault<E>>, F)
        ensures done { IfOk result.0 (λ x. done ≡ Ok x) }
        ensures fault { IfErr done (λ e. result.0 ≡ Err (FinishFault.Work e)) }
        ensures work { IfErr result.0 (λ f. IfWork f (λ e. done ≡ Err e)) }
        ensures kept { OnOk result.0 (Leads (λ old new. OutBecomes (whole (taken old)) old new)
            (F.entries self) (F.entries result.1)) }
        ensures lasts { OnOk result.0 (Leads (λ old new. Lasts (taken old) new)
            (F.entries self) (F.entries result.1)) }
        ensures dropped { IfErr result.0 (λ f. Leads (Ends f)
            (F.entries self) (F.entries result.1)) }
        ensures any_moment { Leads (λ old new. IsEitherAlways (whole (taken old)) old new)
            (F.entries self) (F.entries result.1) }

        ensures each_moment { Leads (λ old _. BecomesAt (whole (taken old))
            (F.moments self) (F.moments result.1)) (F.entries self) (F.entries result.1) }

        // The file beside OUT is left only if removing it failed, and a step fails only if the
        // folder did.
        ensures gone_ok { OnOk result.0 (Leads (λ old new. new.beside ≡ None)
            (F.entries self) (F.entries result.1)) }
        ensures gone { OnErr result.0
            (F.failures result.1 ≡ F.failures self + (if is_ok done then 1 else 0)
            → Leads (λ old new. new.beside ≡ None) (F.entries self) (F.entries result.1)) }
        ensures quiet { OnOk result.0 (F.failures result.1 ≡ F.failures self) }
        ensures cause { OnOk done (OnErr result.0 (F.failures self < F.failures result.1)) }
        ensures counted { F.failures self ≤ F.failures result.1 }
    {
        let Output { mut folder } = self;
        let fault = match done {
            Ok(value) => match keep(&mut folder) {
                Ok(()) => {
                    let on_disk = match folder.sync_names() {
                        Ok(()) => Ok(value),
                        Err(_) => Err(FinishFault::NotOnDisk),
                    };
                    return (on_disk, folder);
                }
                Err(_) => FinishFault::Write,
            },
            Err(fault) => FinishFault::Work(fault),
        };
        let _ = folder.remove();
        (Err(fault), folder)
    }
}

impl<F: Folder + Drop> Sink for Output<F> {
    ghost failures = { λ o. F.failures o };

    ghost written = { λ o. option_map taken (F.entries o) };

    fn write(&mut self, bytes: &[u8]) -> Result<usize, DeviceFault>
        ensures bound { IfOk result (λ n. n ≤ length bytes.now) }
        ensures progress { 0 < length bytes.now → IfOk result (λ n. 0 < n) }
        ensures bytes { WriteAppends (option_map taken (F.entries self.old))
            (option_map taken (F.entries self.new)) result bytes.now }
        ensures failures { F.failures self.new
            ≡ F.failures self.old + (if is_ok result then 0 else 1) }
        ensures found { option_map found_in (F.entries self.new)
            ≡ option_map found_in (F.entries self.old) }
        ensures named { option_map named_in (F.entries self.new)
            ≡ option_map named_in (F.entries self.old) }
        ensures steady { Steady (F.moments self.old) (F.moments self.new) }
    {
        self.folder.write(bytes)
    }
}

// Puts the file beside OUT in its place once the disk has it, so that a lost power leaves one of
// the two.
fn keep<F: Folder>(folder: &mut F) -> Result<(), DeviceFault>
    requires { IfSome (F.entries folder.old) IsWriting }
    ensures kept { OnOk result (Leads (λ old new. OutBecomes (whole (taken old)) old new)
        (F.entries folder.old) (F.entries folder.new)) }
    ensures gone { OnOk result (Leads (λ old new. new.beside ≡ None)
        (F.entries folder.old) (F.entries folder.new)) }
    ensures refused { OnErr result (Leads OutStays
        (F.entries folder.old) (F.entries folder.new)) }
    ensures given { OnOk result (Leads (λ old _. Follows (replaced (Some (whole (taken old))))
        (F.moments folder.old) (F.moments folder.new))
        (F.entries folder.old) (F.entries folder.new)) }
    ensures steady { OnErr result (Steady (F.moments folder.old) (F.moments folder.new)) }
    ensures failures { F.failures folder.new
        ≡ F.failures folder.old + (if is_ok result then 0 else 1) }
{
    folder.flush()?;
    folder.sync()?;
    folder.put_in_place()
}
