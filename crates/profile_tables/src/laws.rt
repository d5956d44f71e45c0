//! What holds of the definitions. Each function does nothing, and takes no memory.

ghost use Rattle.std.specs.Prelude.{ℕ, List, All};
ghost use Rattle.run_options.specs.declared.choices.Naming.{Naming};
ghost use Rattle.run_options.specs.declared.choices.Pick.{Pick};
ghost use Rattle.profile_tables.specs.FrameNames.{IsFrameName};
ghost use Rattle.profile_tables.specs.Samples.{read_pprof};

/// Each name of a sample that is read is text that is not empty and holds neither `;` nor a line feed.
pub fn frames_have_names()
    ensures { (file : List ℕ) (pick : Pick) (naming : Naming)
        → All (λ sample. All IsFrameName sample.stack) (read_pprof file pick naming).samples }
{}
