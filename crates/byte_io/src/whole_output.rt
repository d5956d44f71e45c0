//! Bytes sent whole to an outlet.
ghost use Rattle.std.specs.Prelude.{◌≡◌, ◌≤◌, length, take, is_ok, if◌then◌else◌, OnOk, IfErr};
ghost use Rattle.std.specs.Io.KnownBytes.{Appends};
ghost use Rattle.byte_io.specs.Calls.{one_more};

use crate::outlet::Outlet;
use std::error::Error;
use std::fmt;

/// An outlet failed. `written` is the number of bytes that went out, the whole length where only
/// the flush failed.
#[derive(Clone, Copy, Debug, PartialEq, Eq)]
pub struct SendFault {
    pub written: usize,
}

impl fmt::Display for SendFault {
    ghost use Rattle.std.specs.Prelude.{Some};
    ghost use Rattle.byte_io.specs.Faults.{send_fault_text};

    ghost output = { λ fault. Some (send_fault_text fault) };

    fn fmt<W: fmt::Write>(&self, f: &mut fmt::Formatter<W>) -> fmt::Result {
        f.write_str("output failed")
    }
}

impl Error for SendFault {}

/// Sends all bytes in order, then flushes once. It ends at the first call that fails: that errs, or
/// a write that takes no byte.
pub fn send<W: Outlet>(bytes: &[u8], out: &mut W) -> Result<(), SendFault>
    ensures ok { OnOk result (Appends (W.contents out.old) (W.contents out.new) bytes.now) }
    ensures flushed { OnOk result (W.is_flushed out.new) }
    ensures written { IfErr result (λ fault. fault.written ≤ length bytes.now) }
    ensures fault { IfErr result (λ fault.
        Appends (W.contents out.old) (W.contents out.new) (take fault.written bytes.now)) }

    // A fault comes only where a call failed.
    ensures count { W.failures out.new
        ≡ (if is_ok result then W.failures out.old else one_more (W.failures out.old)) }
{
    write_whole(bytes, out)?;
    let written = bytes.len();
    match out.flush() {
        Ok(()) => Ok(()),
        Err(_) => Err(SendFault { written }),
    }
}

// Writes all bytes in order, and does not flush.
pub(crate) fn write_whole<W: Outlet>(bytes: &[u8], out: &mut W) -> Result<(), SendFault>
    ensures ok { OnOk result (Appends (W.contents out.old) (W.contents out.new) bytes.now) }
    ensures written { IfErr result (λ fault. fault.written ≤ length bytes.now) }
    ensures fault { IfErr result (λ fault.
        Appends (W.contents out.old) (W.contents out.new) (take fault.written bytes.now)) }
    ensures count { W.failures out.new
        ≡ (if is_ok result then W.failures out.old else one_more (W.failures out.old)) }
{
    let mut written = 0;
    while written < bytes.len() {
        match out.write(&bytes[written..]) {
            Ok(0) => return Err(SendFault { written }),
            Ok(count) => written += count,
            Err(_) => return Err(SendFault { written }),
        }
    }
    Ok(())
}
