//! Telnet's commands among the bytes of a link.
ghost use Rattle.std.specs.Prelude.{◌≡◌};
ghost use Rattle.line_reader.specs.declared.telnet.Telnet.TheVariants.{Data, Command, Block, BlockCommand};
ghost use Rattle.line_reader.specs.Telnet.{after, is_choice, is_data};

/// Interpret as command.
const IAC: u8 = 255;

/// The begin of a block.
const SB: u8 = 250;

/// The end of a block.
const SE: u8 = 240;

/// Where the next byte stands.
#[derive(Clone, Copy)]
pub enum Telnet {
    /// Among data.
    Data,
    /// Behind IAC.
    Command,
    /// Behind IAC and WILL, WONT, DO or DONT.
    Choice,
    /// In a block.
    Block,
    /// Behind IAC in a block.
    BlockCommand,
}

impl Telnet {
    /// Where the byte behind `byte` stands.
    pub fn after(self, byte: u8) -> Telnet
        ensures { result ≡ after self byte }
    {
        match self {
            Telnet::Data => after_data(byte),
            Telnet::Command => after_command(byte),
            Telnet::Choice => Telnet::Data,
            Telnet::Block => in_block(byte),
            Telnet::BlockCommand => behind_iac_in_block(byte),
        }
    }

    /// Whether `byte` is data where it stands.
    pub fn is_data(self, byte: u8) -> bool
        ensures { result ≡ is_data self byte }
    {
        match self {
            Telnet::Data => byte != IAC,
            Telnet::Command => byte == IAC,
            Telnet::Choice => false,
            Telnet::Block => false,
            Telnet::BlockCommand => false,
        }
    }
}

fn after_data(byte: u8) -> Telnet
    ensures { result ≡ after Data byte }
{
    if byte == IAC {
        Telnet::Command
    } else {
        Telnet::Data
    }
}

fn after_command(byte: u8) -> Telnet
    ensures { result ≡ after Command byte }
{
    if byte == SB {
        return Telnet::Block;
    }
    if is_choice(byte) {
        Telnet::Choice
    } else {
        Telnet::Data
    }
}

fn in_block(byte: u8) -> Telnet
    ensures { result ≡ after Block byte }
{
    if byte == IAC {
        Telnet::BlockCommand
    } else {
        Telnet::Block
    }
}

fn behind_iac_in_block(byte: u8) -> Telnet
    ensures { result ≡ after BlockCommand byte }
{
    if byte == SE {
        Telnet::Data
    } else {
        Telnet::Block
    }
}

/// Whether a byte is WILL, WONT, DO or DONT.
fn is_choice(byte: u8) -> bool
    ensures { result ≡ is_choice byte }
{
    (251..=254).contains(&byte)
}
