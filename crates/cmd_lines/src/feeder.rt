//! What the commands that are fed the bytes of their input have in common.

use crate::stop::Stop;
use memory::NoMemory;

/// A command that is fed the bytes of its input, in whatever pieces they come.
pub trait Feeder: Drop {
    ghost use Rattle.std.specs.Prelude.{◌++◌, [], ℕ, List, true, false, OnOk};
    ghost use Rattle.cmd_lines.specs.Feeding.{AfterFeeding, CanBeFed, Feeding};

    /// Which bytes bring the feeder where from where it starts, and which text is due for them.
    ghost feeding: { Self → Feeding Self };

    /// Takes the next bytes: appends what is due for them, or, at a line outside the grammar, what is due up to it and
    /// the line that tells of it. After running out of memory nothing is known of the feeder and of what was appended.
    fn feed(&mut self, piece: &[u8], out: &mut Vec<u8>) -> Result<(), Stop>
        requires { CanBeFed feeding self.old piece.now }
        ensures { (start : Self) (taken base : List ℕ)
            → (feeding start).fed false taken self.old (base ++ out.old.items)
            → AfterFeeding (feeding start) false (taken ++ piece.now) self.new (base ++ out.new.items) result };

    /// Takes the input's end: appends what is due for what has come and waited for more; else as `feed`.
    fn finish(&mut self, out: &mut Vec<u8>) -> Result<(), Stop>
        requires { CanBeFed feeding self.old [] }
        ensures { (start : Self) (taken base : List ℕ)
            → (feeding start).fed false taken self.old (base ++ out.old.items)
            → AfterFeeding (feeding start) true taken self.new (base ++ out.new.items) result };

    /// Closes behind the input's end, after all that was due was written: appends what is written in closing. After
    /// running out of memory nothing is known of what was appended.
    fn close(&mut self, out: &mut Vec<u8>) -> Result<(), NoMemory>
        ensures { (start : Self) (taken base : List ℕ)
            → (feeding start).fed true taken self.old (base ++ out.old.items)
            → OnOk result ((feeding start).closed taken self.new (base ++ out.new.items)) };
}
