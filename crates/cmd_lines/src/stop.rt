//! Why the machine goes no further.

ghost use Rattle.std.specs.Prelude.{◌≡◌};
ghost use Rattle.cmd_lines.specs.declared.stop.Stop.TheVariants.{Memory};

use memory::NoMemory;

/// Why the machine goes no further.
#[derive(Clone, Copy)]
pub enum Stop {
    /// A line is outside the grammar; its number was appended to what is written.
    BadLine,
    /// Running out of memory.
    Memory,
}

impl From<NoMemory> for Stop {
    ghost from_gives = { λ _ stop. stop ≡ Memory };

    fn from(_want: NoMemory) -> Stop {
        Stop::Memory
    }
}
