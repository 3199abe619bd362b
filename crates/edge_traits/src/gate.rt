//! Gates, at which a test can hold a worker.

/// A place that a worker passes once it holds a part of the server. What it does there is of no meaning to the server;
/// a test holds a worker in it.
pub trait Gate {
    /// The session passes while it holds this part.
    fn at(&self, session: u32, part: u8);
}

/// A gate that holds nobody.
#[derive(Clone, Copy)]
pub struct OpenGate;

impl OpenGate {
    /// An open gate.
    pub fn new() -> OpenGate {
        OpenGate
    }
}

impl Gate for OpenGate {
    /// Does nothing.
    fn at(&self, _session: u32, _part: u8) {}
}
