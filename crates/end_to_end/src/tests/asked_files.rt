//! What a run asks its files for.
ghost use Rattle.std.specs.Prelude.{None};

use crate::tests::answers::{Written, status_of};
use crate::tests::holds;
use flame_tool::{Files, LoadFault, StoredText};
use std::alloc::{AllocError, Global};
use std::sync::Wait;
use std::test::Fail;
use std::thread::Threads;

/// Files that note what they are asked for. All of them have the same line, but for those whose path ends in `gone`. One whose path ends in
/// `long` is read where it is stored.
#[derive(Drop)]
struct NotingFiles {
    calls: String,
}

impl NotingFiles {
    fn note(&mut self, words: &[&str]) -> Result<(), AllocError> {
        for word in words {
            self.calls.push_str(word)?;
        }
        self.calls.push_str("\n")
    }
}

impl Files for NotingFiles {
    ghost known_input = { λ _. None };

    ghost known_file = { λ _ _. None };

    fn named(&mut self, alloc: Global, path: &str) -> Result<Vec<u8>, LoadFault> {
        self.note(&["named ", path])?;
        if path.ends_with("gone") {
            return Err(LoadFault::Io);
        }
        Ok(b"a 1\n".to_vec(alloc)?)
    }

    fn input(&mut self, alloc: Global) -> Result<Vec<u8>, LoadFault> {
        self.note(&["input"])?;
        Ok(b"a 1\n".to_vec(alloc)?)
    }

    fn stored(&mut self, alloc: Global, path: &str) -> Option<StoredText> {
        self.note(&["stored ", path]).ok()?;
        if !path.ends_with("long") {
            return None;
        }
        StoredText::in_memory(alloc, b"a 1\n".to_vec(alloc).ok()?).ok()
    }
}

/// A run, and what it is to ask for and to say.
struct Asking {
    words: &'static [&'static str],
    calls: &'static str,
    err: &'static str,
}

const ASKING: &[Asking] = &[
    Asking {
        words: &["fold"],
        calls: "input\n",
        err: "",
    },
    Asking {
        words: &["fold", "x"],
        calls: "stored x\nnamed x\n",
        err: "",
    },
    Asking {
        words: &["fold", "x", "y.long", "x"],
        calls: "stored x\nnamed x\nstored y.long\nstored x\nnamed x\n",
        err: "",
    },
    // So it is where they are read strictly, and of profiles.
    Asking {
        words: &["fold", "--strict", "x", "y.long", "x"],
        calls: "stored x\nnamed x\nstored y.long\nstored x\nnamed x\n",
        err: "",
    },
    Asking {
        words: &["fold", "--format", "pprof", "y.long", "x.gone"],
        calls: "stored y.long\nstored x.gone\nnamed x.gone\n",
        err: "flamecollect: x.gone: cannot be read\n",
    },
    // The first that fails is blamed, and no other is asked for.
    Asking {
        words: &["fold", "x", "b.gone", "a.gone", "y"],
        calls: "stored x\nnamed x\nstored b.gone\nnamed b.gone\n",
        err: "flamecollect: b.gone: cannot be read\n",
    },
];

/// A run over such files asks for them as it is to, and says on standard error what it is to.
fn asks_so<T: Threads + Wait + Copy + Send + 'static>(
    rt: &T,
    alloc: Global,
    asking: &Asking,
    files: &mut NotingFiles,
    written: &mut Written,
) -> Result<bool, AllocError> {
    let (out, err) = (&mut written.out, &mut written.err);
    let _status = status_of(rt, alloc, asking.words, files, out, err)?;
    let calls = files.calls.as_str().as_bytes();
    Ok(calls == asking.calls.as_bytes() && written.err.as_slice() == asking.err.as_bytes())
}

fn each_asks_so<T: Threads + Wait + Copy + Send + 'static>(
    rt: &T,
    alloc: Global,
) -> Result<bool, AllocError> {
    for asking in ASKING {
        let mut files = NotingFiles {
            calls: String::new(alloc),
        };
        if !asks_so(rt, alloc, asking, &mut files, &mut Written::nothing(alloc))? {
            return Ok(false);
        }
    }
    Ok(true)
}

// Each file is asked for in its turn, first as one that is read where it is stored.
#[test]
fn files_are_asked_for_in_order(rt: HostRuntime) -> Result<(), Fail> {
    holds(&rt, each_asks_so(&rt, rt.alloc()))
}
