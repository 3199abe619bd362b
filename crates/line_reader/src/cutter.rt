//! The place in the telnet text, and the line that has begun.
ghost use Rattle.std.specs.Prelude.{◌≡◌, [], false, ◌==◌, ◌&&◌};

use crate::open_line::OpenLine;
use crate::telnet::Telnet;
use std::marker::Model;

/// Where the next byte stands, and what has come of the line.
#[derive(Drop)]
pub(crate) struct Cutter {
    telnet: Telnet,
    line: OpenLine,
}

impl Model for Cutter {
    ghost use Rattle.line_reader.specs.Cutting.{Cutting};

    ghost Value = { Cutting };

    ghost use Rattle.line_reader.specs.Reader.{IsKept};

    ghost view = { λ cutter. record { telnet = cutter.telnet; line = cutter.line } };

    ghost invariant = { λ cutter. IsKept cutter.line };
}

impl Cutter {
    ghost use Rattle.line_reader.specs.declared.telnet.Telnet.TheVariants.{Data};
    ghost use Rattle.line_reader.specs.Cutting.{Cutting, ends_line, passed};
    ghost use Rattle.line_reader.specs.Reader.{IsKept};

    /// Before the first byte.
    pub(crate) fn new() -> Cutter
        ensures { result ≡ record { telnet = Data; line = [] } }
    {
        Cutter {
            telnet: Telnet::Data,
            line: OpenLine::new(),
        }
    }

    /// A second one in the same state.
    pub(crate) fn duplicate(&self) -> Cutter
        ensures { result ≡ self.now }
    {
        Cutter {
            telnet: self.telnet,
            line: self.line.duplicate(),
        }
    }

    /// What is kept of the line.
    pub(crate) fn bytes(&self) -> &[u8]
        ensures bytes { result.now ≡ self.now.line }
        ensures kept { IsKept self.now.line }
    {
        self.line.bytes()
    }

    /// Whether a byte ends the line: an LF among data.
    pub(crate) fn ends_line(&self, byte: u8) -> bool
        ensures value { result ≡ ends_line self.now.telnet byte }
        ensures kept { IsKept self.now.line }
    {
        self.telnet.is_data(byte) && byte == b'\n'
    }

    /// Begins the next line behind its LF.
    pub(crate) fn clear(&mut self)
        ensures { self.new ≡ record self.old { line = [] } }
    {
        self.line.clear();
    }

    /// Takes a byte that doesn't end the line.
    pub(crate) fn pass(&mut self, byte: u8)
        requires { ends_line self.old.telnet byte ≡ false }
        ensures { self.new ≡ passed self.old byte }
    {
        if self.telnet.is_data(byte) && byte != b'\r' && byte != 0 {
            self.line.push(byte);
        }
        self.telnet = self.telnet.after(byte);
    }
}
