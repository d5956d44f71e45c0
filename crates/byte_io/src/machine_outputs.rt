//! The files that the machine writes.
ghost use Rattle.std.specs.Prelude.{◌≡◌, OnErr, OnOk, string_bytes};
ghost use Rattle.byte_io.specs.Outputs.{has_machine_terminal, placed_after, unknown_placed};

use crate::outlet::{CountedWriter, Outlet};
use crate::outputs::{Beside, Draft, Outputs};
use std::alloc::{Alloc, Global};
use std::fs::{File, OpenOptions};
use std::io::IsTerminal;
use std::{fs, io, rt};

/// Files of the machine, each written beside its place, under its name and `.part`. What stands at a path and is no plain file, as a
/// pipe or a device, is written as it stands.
#[derive(Drop)]
pub struct MachineOutputs<'a, T> {
    rt: &'a T,
    is_terminal: bool,
}

impl<'a, T: rt::Files> MachineOutputs<'a, T> {
    /// What the runtime reaches, beside this standard output.
    pub fn beside<W: IsTerminal>(rt: &'a T, output: &W) -> MachineOutputs<'a, T> {
        MachineOutputs {
            rt,
            is_terminal: output.is_terminal(),
        }
    }
}

impl<T: rt::Files<File = File> + Alloc<A = Global>> Outputs for MachineOutputs<'_, T> {
    type Writer = CountedWriter<File>;

    ghost placed = { λ _. unknown_placed };

    ghost has_terminal = { has_machine_terminal };

    // A link to a file is followed. The new one has the permissions of the one that stood there.
    fn begin(&mut self, alloc: Global, path: &str) -> io::Result<Draft<CountedWriter<File>>> {
        let place = match fs::canonicalize(self.rt, path) {
            Ok(place) => String::from_str(alloc, place.as_str())?,
            Err(_) => String::from_str(alloc, path)?,
        };
        let stood = fs::metadata(self.rt, place.as_str()).ok();
        if stood.as_ref().is_some_and(|it| !it.is_file()) {
            let file = OpenOptions::new()
                .write(true)
                .open(self.rt, place.as_str())?;
            let path = String::from_str(alloc, path)?;
            return Ok(Draft::new(path, CountedWriter::new(file)));
        }
        let mut file = String::from_str(alloc, place.as_str())?;
        file.push_str(".part")?;
        let path = String::from_str(alloc, path)?;
        // A link that stands there is not followed.
        let _ = fs::remove_file(self.rt, file.as_str());
        let writer = CountedWriter::new(File::create_new(self.rt, file.as_str())?);
        if let Some(stood) = stood {
            // Where that is not allowed, the new one has what any new file has.
            let _ = fs::set_permissions(self.rt, file.as_str(), stood.permissions());
        }
        Ok(Draft {
            path,
            writer,
            beside: Some(Beside { file, place }),
        })
    }

    fn place(&mut self, draft: Draft<CountedWriter<File>>) -> io::Result<()>
        ensures ok { OnOk result (unknown_placed ≡ placed_after unknown_placed
            (string_bytes draft.path) (⟦<CountedWriter<File> as Outlet>⟧.contents draft.writer)) }
        ensures err { OnErr result (unknown_placed ≡ unknown_placed) }
        ensures terminal { has_machine_terminal self.new ≡ has_machine_terminal self.old }
    {
        let Draft { beside, .. } = draft;
        let Some(Beside { file, place }) = beside else {
            return Ok(());
        };
        let placed = fs::rename(self.rt, file.as_str(), place.as_str());
        if placed.is_err() {
            let _ = fs::remove_file(self.rt, file.as_str());
        }
        placed
    }

    fn discard(&mut self, draft: Draft<CountedWriter<File>>)
        ensures unplaced { unknown_placed ≡ unknown_placed }
        ensures terminal { has_machine_terminal self.new ≡ has_machine_terminal self.old }
    {
        if let Some(Beside { file, .. }) = &draft.beside {
            let _ = fs::remove_file(self.rt, file.as_str());
        }
    }

    fn is_terminal(&self) -> bool {
        self.is_terminal
    }
}
