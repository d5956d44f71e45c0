//! Draws flame graphs and flame charts of recorded stack samples, and merges and compares them: reads pprof
//! profiles and folded stacks, and writes text, JSON, pages and pictures.
#![tactic(auto)]

use flame_tool::{CountedWriter, MachineFiles, MachineOutputs, deliver};
use std::env;
use std::io::ErrorKind;
use std::process::ExitCode;

fn main(rt: HostRuntime) -> ExitCode {
    let alloc = rt.alloc();
    let words = env::args(&rt).and_then(|args| Ok(args.skip(1).collect::<Vec<String>>(alloc)?));
    let status = match words {
        Ok(words) => {
            let (out, err) = (rt.stdout(), rt.stderr());
            let mut files = MachineFiles::beside(&rt, &err);
            let mut outputs = MachineOutputs::beside(&rt, &out);
            let mut out = CountedWriter::new(out);
            let mut err = CountedWriter::new(err);
            deliver(
                &rt,
                alloc,
                words,
                &mut files,
                &mut outputs,
                &mut out,
                &mut err,
            )
        }
        Err(error) => match error.kind() {
            ErrorKind::OutOfMemory => {
                let _ = eprintln!(rt; "flamecollect: out of memory");
                3
            }
            // A word that is no text.
            _ => {
                let _ = eprintln!(rt; "flamecollect: words refused");
                2
            }
        },
    };
    ExitCode::from(status)
}
