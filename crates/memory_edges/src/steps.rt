//! The steps of a link in memory, and the spot that its reads have reached.

ghost use Rattle.std.specs.Prelude.{◌≡◌, ◌≢◌, ◌+◌, ◌-◌, ◌^◌, ◌<◌, ◌≤◌, ◌++◌, [], length, take, min};
ghost use Rattle.edge_traits.specs.Link.{signs_of, OnEnd, IfHeard};
ghost use Rattle.memory_edges.specs.Wire.{taken_at, left_at, IsSeen, IsSeenIn};

use edge_traits::Heard;

/// What a link in memory gives.
#[derive(Drop)]
pub enum LinkStep {
    /// Bytes, of which a read gives as many as its buffer takes; an empty piece is passed over.
    Piece(Vec<u8>),
    /// A pause in which nothing comes.
    Quiet,
}

/// A place among steps: the number of a step, and how many bytes of it were given.
#[derive(Clone, Copy)]
pub struct Spot {
    pub step: usize,
    pub offset: usize,
}

/// What stands at a spot.
#[derive(Clone, Copy)]
pub enum Look {
    /// So many bytes, which the buffer now begins with.
    Gives(usize),
    /// A pause.
    Pauses,
    /// A piece that was given to its end.
    Passes,
    /// The end of the steps.
    Ends,
}

/// Reads the step at the spot, and gives the spot behind what it gave; pieces that were given are passed over.
pub(crate) fn read_step(steps: &[LinkStep], spot: Spot, buf: &mut [u8]) -> (Heard, Spot)
    requires room { 0 < length buf.old }
    requires within { spot.step ≤ length steps.now }
    ensures count { IfHeard result.0 (λ n. (0 < n) × (n ≤ length buf.new)) }
    ensures left { left_at steps.now spot ≡ signs_of result.0 buf.new ++ left_at steps.now result.1 }
    ensures taken { taken_at steps.now result.1 ≡ taken_at steps.now spot ++ signs_of result.0 buf.new }
    ensures end { OnEnd result.0 (left_at steps.now spot ≡ []) }
    ensures no_fault { result.0 ≢ Heard.Failed }
    ensures still_within { result.1.step ≤ length steps.now }
{
    let mut at = spot;
    loop {
        let (_, rest) = steps.split_at(at.step);
        match look_at(rest, at.offset, buf) {
            Look::Ends => return (Heard::End, at),
            Look::Pauses => return (Heard::Quiet, next_step(at)),
            Look::Gives(n) => return (Heard::Bytes(n), further(at, n)),
            Look::Passes => at = next_step(at),
        }
    }
}

/// The beginning of the next step.
fn next_step(spot: Spot) -> Spot
    requires { spot.step < 2 ^ 64 - 1 }
    ensures { result ≡ record { step = spot.step + 1; offset = 0 } }
{
    Spot {
        step: spot.step + 1,
        offset: 0,
    }
}

/// So many bytes further on in the step.
fn further(spot: Spot, n: usize) -> Spot
    requires { spot.offset + n < 2 ^ 64 }
    ensures { result ≡ record { step = spot.step; offset = spot.offset + n } }
{
    Spot {
        step: spot.step,
        offset: spot.offset + n,
    }
}

/// What the first of these steps gives behind its first `offset` bytes.
fn look_at(steps: &[LinkStep], offset: usize, buf: &mut [u8]) -> Look
    requires { 0 < length buf.old }
    ensures { IsSeen result steps.now offset buf.new }
{
    match steps {
        [] => Look::Ends,
        [LinkStep::Quiet, ..] => Look::Pauses,
        [LinkStep::Piece(bytes), ..] => look_into(bytes.as_slice(), offset, buf),
    }
}

/// What a piece gives behind its first `offset` bytes.
fn look_into(bytes: &[u8], offset: usize, buf: &mut [u8]) -> Look
    requires { 0 < length buf.old }
    ensures { IsSeenIn result bytes.now offset buf.new }
{
    if offset >= bytes.len() {
        return Look::Passes;
    }
    Look::Gives(copy_front(&bytes[offset..], buf))
}

/// Copies as much of the beginning of `left` as the buffer takes to the beginning of `buf`.
fn copy_front(left: &[u8], buf: &mut [u8]) -> usize
    ensures count { result ≡ min (length buf.old) (length left.now) }
    ensures given { take result buf.new ≡ take result left.now }
{
    let n = buf.len().min(left.len());
    buf[..n].copy_from_slice(&left[..n]);
    n
}
