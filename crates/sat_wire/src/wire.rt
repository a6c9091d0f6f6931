//! Values that are written in bytes.
ghost use Rattle.std.specs.Prelude.{◌≡◌, ◌+◌, ◌≤◌, ◌<◌, ◌^◌, ◌++◌, Bool, true, length, vec_capacity, Ok, IfOk, IfErr};
ghost use Rattle.sat_wire.specs.Code.{Code, IsExact, StopsAt};

use crate::ReadFault;
use std::alloc::Global;

/// A value that is written in bytes, and read again from the front of bytes.
pub trait Wire: Drop {
    /// How it is written and read.
    ghost code: { Code Self };

    /// What the limits of a spelling allow: of what its type lets through, no more has a spelling.
    ghost allows: { Self → Bool };

    /// Whether it has a spelling. It takes no memory.
    fn is_allowed(&self) -> bool
        ensures { result ≡ allows self.now };

    /// How many bytes it is written in. It takes no memory.
    fn size(&self) -> usize
        requires { allows self.now ≡ true }
        ensures size { result ≡ length (code.spell self.now) }
        ensures fits { code.fits self.now ≡ true }
        ensures most { result ≤ code.most }
        ensures small { result < 2 ^ 32 };

    /// Puts the value's bytes behind others, for which there is room. It takes no memory.
    fn write(&self, out: &mut Vec<u8>)
        requires fits { code.fits self.now ≡ true }
        requires room { length out.old.items + length (code.spell self.now) ≤ vec_capacity out.old }
        ensures items { out.new.items ≡ out.old.items ++ code.spell self.now }
        ensures capacity { vec_capacity out.old ≤ vec_capacity out.new };

    /// The value at the front of bytes, and the bytes behind it.
    fn read(alloc: Global, bytes: &[u8]) -> Result<(Self, &[u8]), ReadFault>
        ensures ok { IfOk result (λ found. code.read bytes.now ≡ Ok (found.0, found.1.now)) }
        ensures err { IfErr result (λ fault. StopsAt fault (code.read bytes.now)) };

    /// What is written is read again, whatever follows, and what is read was written so.
    ghost exact: { IsExact code };

    /// A spelling is shorter than 2^32 bytes.
    ghost small: { code.most < 2 ^ 32 };
}
