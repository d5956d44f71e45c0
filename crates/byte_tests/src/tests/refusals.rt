//! Why the machine gives no file.
use super::asked::temporary_path;
use byte_io::{Files, LoadFault, MachineFiles, Refusal};
use std::alloc::Global;
use std::env;
use std::process::Abort;
use std::test::Fail;

// Whether a path is refused for this reason.
fn is_refused<F: Files>(alloc: Global, files: &mut F, path: &str, wanted: Refusal) -> bool {
    files.named(alloc, path).err() == Some(LoadFault::Io) && files.refusal() == wanted
}

fn tells_each<F: Files>(
    rt: &(impl AllocGlobal + Abort),
    files: &mut F,
    absent: &str,
    folder: &str,
) -> Result<(), Fail> {
    assert!(rt; files.refusal() == Refusal::Unknown);
    assert!(rt; is_refused(rt.alloc(), files, absent, Refusal::Absent));
    assert!(rt; is_refused(rt.alloc(), files, folder, Refusal::Folder));
    assert!(rt; is_refused(rt.alloc(), files, "/dev/null/x", Refusal::Absent));
    Ok(())
}

#[test]
fn refusals_of_the_machine(rt: HostRuntime) -> Result<(), Fail> {
    let absent = temporary_path(&rt, "refusals_of_the_machine")?;
    let folder = env::temp_dir(&rt)?;
    tells_each(
        &rt,
        &mut MachineFiles::new(&rt),
        absent.as_str(),
        folder.as_str(),
    )
}
