//! A new folder that becomes OUT whole or not at all.
ghost use Rattle.std.specs.Prelude.{◌≡◌, ℕ, ◌+◌, ◌<◌, ◌≤◌, IfOk, IfErr};
ghost use Rattle.std.specs.Prelude.{IfSome, OnOk, OnErr, Ok, Err, if◌then◌else◌, is_ok};
ghost use Rattle.flute_output.specs.Entries.{IfWork};
ghost use Rattle.flute_output.specs.NewFolders.{LeadsTo, IsNothing, HasBeside};
ghost use Rattle.flute_output.specs.NewFolders.{BecomesFolder, EndsAt, IsWholeOrNothing};
ghost use Rattle.flute_output.specs.NewFolders.{NoneBeside, StaysThere, files_beside, folder_of};

use crate::new_folder::NewFolder;
use crate::output::FinishFault;

/// Ends a folder after the work that filled it. If that was done, the names of its files are
/// brought to the disk, it is named OUT, and that name is brought to the disk. If the work failed,
/// or a step before the last does, the folder beside OUT is removed.
///
/// OUT is then the folder of all its files, or it is not there; and at each moment in between it
/// was one of the two.
///
/// # Errors
///
/// `Work` with the fault of the work; or else `Write` if a step failed that comes before the name,
/// and `NotOnDisk` if the last one did. The folder beside OUT is gone, unless the device failed to
/// remove it.
pub fn finish_folder<D: NewFolder, T: Drop, E: Drop>(
    folder: &mut D,
    done: Result<T, E>,
) -> Result<T, FinishFault<E>>
    requires nothing { IfSome (D.places folder.old) IsNothing }
    requires beside { OnOk done (IfSome (D.places folder.old) HasBeside) }
    ensures done { IfOk result (λ x. done ≡ Ok x) }
    ensures fault { IfErr done (λ e. result ≡ Err (FinishFault.Work e)) }
    ensures work { IfErr result (λ f. IfWork f (λ e. done ≡ Err e)) }
    ensures kept { OnOk result
        (LeadsTo (λ old new. BecomesFolder (folder_of (files_beside old)) old new)
        (D.places folder.old) (D.places folder.new)) }
    ensures lasts { OnOk result (LeadsTo (λ old new. StaysThere (files_beside old) new)
        (D.places folder.old) (D.places folder.new)) }
    ensures dropped { IfErr result (λ f. LeadsTo (EndsAt f)
        (D.places folder.old) (D.places folder.new)) }
    ensures any_moment { LeadsTo
        (λ old new. IsWholeOrNothing (folder_of (files_beside old)) old new)
        (D.places folder.old) (D.places folder.new) }

    // The folder beside OUT is left only if removing it failed, and a step fails only if the
    // device did.
    ensures gone_ok { OnOk result (LeadsTo NoneBeside
        (D.places folder.old) (D.places folder.new)) }
    ensures gone { OnErr result
        (D.failures folder.new ≡ D.failures folder.old + (if is_ok done then 1 else 0)
        → LeadsTo NoneBeside (D.places folder.old) (D.places folder.new)) }
    ensures quiet { OnOk result (D.failures folder.new ≡ D.failures folder.old) }
    ensures cause { OnOk done (OnErr result (D.failures folder.old < D.failures folder.new)) }
    ensures counted { D.failures folder.old ≤ D.failures folder.new }
{
    let fault = match done {
        Ok(value) => {
            // It is named OUT once the disk has its files and their names, so that a lost power
            // leaves all of it or nothing.
            let kept = match folder.sync() {
                Ok(()) => folder.put_in_place(),
                fault => fault,
            };
            match kept {
                Ok(()) => {
                    return match folder.sync_name() {
                        Ok(()) => Ok(value),
                        Err(_) => Err(FinishFault::NotOnDisk),
                    };
                }
                Err(_) => FinishFault::Write,
            }
        }
        Err(fault) => FinishFault::Work(fault),
    };
    let _ = folder.remove();
    Err(fault)
}
