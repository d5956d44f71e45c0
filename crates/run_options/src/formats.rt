//! Which format a source has, by its name or by that of the format.
ghost use Rattle.std.specs.Prelude.{◌≡◌};
ghost use Rattle.run_options.specs.Formats.{format_at, named_format};

/// The format of a source.
#[derive(Clone, Copy, Debug, PartialEq, Eq)]
pub enum Format {
    /// Folded lines.
    Folded,
    /// A pprof profile.
    Pprof,
}

impl Format {
    /// The format of that name, `folded` or `pprof`.
    pub fn named(name: &str) -> Option<Format>
        ensures { result ≡ named_format name.now }
    {
        match name {
            "folded" => Some(Format::Folded),
            "pprof" => Some(Format::Pprof),
            _ => None,
        }
    }
}

/// The format of the file at that path: pprof where the path ends in `.pb`, `.pprof` or `.prof`.
pub fn format_of(path: &str) -> Format
    ensures { result ≡ format_at path.now }
{
    let path = path.as_bytes();
    if path.ends_with(b".pb") || path.ends_with(b".pprof") || path.ends_with(b".prof") {
        Format::Pprof
    } else {
        Format::Folded
    }
}
