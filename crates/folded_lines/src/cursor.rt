//! A place in a text, and the line there.

ghost use Rattle.std.specs.Prelude.{◌≡◌, ◌<◌, ◌≤◌, length, take};
ghost use Rattle.bstr.specs.Text.{line_len, no_cr, without_terminator};

use bstr::ByteSlice;

/// A place between the lines of a text, by what stands before it.
#[derive(Clone, Copy, Debug)]
pub(crate) struct Cursor {
    /// The lines.
    pub(crate) taken: u64,
    /// Those of them that are ignored.
    pub(crate) ignored: u64,
    /// The sum of the weights of the others.
    pub(crate) total: u64,
}

impl Cursor {
    /// Before the first line.
    pub(crate) const START: Cursor = Cursor {
        taken: 0,
        ignored: 0,
        total: 0,
    };
}

/// The line without a CR at its end.
pub(crate) fn without_cr(line: &[u8]) -> &[u8]
    ensures text { result.now ≡ no_cr line.now }
    ensures front { result.now ≡ take (length result.now) line.now }
    ensures short { length result.now ≤ length line.now }
{
    match line.last() {
        Some(b'\r') => &line[..line.len() - 1],
        _ => line,
    }
}

/// The first line without its end, and how many bytes it takes with its end.
pub(crate) fn first_line(bytes: &[u8]) -> (&[u8], usize)
    requires { 0 < length bytes.now }
    ensures text { result.0.now ≡ without_terminator (take (line_len bytes.now) bytes.now) }
    ensures len { result.1 ≡ line_len bytes.now }
    ensures front { result.0.now ≡ take (length result.0.now) bytes.now }
    ensures short { length result.0.now ≤ length bytes.now }
{
    match bytes.find_byte(b'\n') {
        None => (bytes, bytes.len()),
        Some(at) => (without_cr(&bytes[..at]), at + 1),
    }
}
