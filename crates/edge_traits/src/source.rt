//! Where bytes come from.

/// The most reads of one run: 2^40.
pub const MOST_READS: u64 = 1_099_511_627_776;

/// What a read gave.
#[derive(Clone, Copy, Debug, PartialEq, Eq)]
pub enum Got {
    /// So many bytes, at least 1, which the buffer now begins with.
    Bytes(usize),
    /// The end: nothing is left.
    End,
    /// A fault, which the object counted.
    Failed,
}

/// A stream of bytes to read. An object that tells what it has `left` loses the bytes that it gives from the
/// front; its count of `faults` never falls.
pub trait Source {
    ghost use Rattle.std.specs.Prelude.{ℕ, ◌<◌, ◌≤◌, List, length};
    ghost use Rattle.std.specs.declared.option.Option.{Option};
    ghost use Rattle.edge_traits.specs.Faults.{Rose};
    ghost use Rattle.edge_traits.specs.Source.{Took, OnReadFailed};

    ghost left: { Self → Option (List ℕ) };

    ghost faults: { Self → ℕ };

    /// Reads into the beginning of `buf`, which isn't empty; fails only where the count of faults rose.
    fn read(&mut self, buf: &mut [u8]) -> Got
        requires { 0 < length buf.old }
        ensures took { Took (left self.old) (left self.new) result buf.new }
        ensures cause { OnReadFailed result (Rose (faults self.old) (faults self.new)) }
        ensures counted { faults self.old ≤ faults self.new };
}
