//! The lines that tell of offers.
ghost use Rattle.std.specs.Prelude.{◌≡◌, ◌≤◌, ◌++◌, IfOk, IsTrue, length};
ghost use Rattle.std.specs.List.{list_all};
ghost use Rattle.chess_model.specs.MoveText.{is_printable};
ghost use Rattle.style12_writer.specs.OfferLines.{abort_text, adjourn_text, decline_text, draw_text, takeback_text, taken_text};

use crate::draft::Draft;
use fics_words::{Handle, Line};
use memory::NoMemory;
use std::alloc::Global;

/// The line of a player who offers a draw, `H offers a draw.`.
pub fn draw_line(alloc: Global, name: &Handle) -> Result<Line, NoMemory>
    ensures { IfOk result (λ line. line ≡ draw_text name.now) }
{
    named(alloc, name, b" offers a draw.")
}

/// The line of a player who offers to end the game without a result, `H offers to abort.`.
pub fn abort_line(alloc: Global, name: &Handle) -> Result<Line, NoMemory>
    ensures { IfOk result (λ line. line ≡ abort_text name.now) }
{
    named(alloc, name, b" offers to abort.")
}

/// The line of a player who offers to go on another day, `H offers to adjourn.`.
pub fn adjourn_line(alloc: Global, name: &Handle) -> Result<Line, NoMemory>
    ensures { IfOk result (λ line. line ≡ adjourn_text name.now) }
{
    named(alloc, name, b" offers to adjourn.")
}

/// The line of a player who offers to take `n` half-moves back, `H offers to take back N.`.
pub fn takeback_line(alloc: Global, name: &Handle, n: u16) -> Result<Line, NoMemory>
    ensures { IfOk result (λ line. line ≡ takeback_text name.now n) }
{
    let mut line = Draft::new();
    line.name(name);
    line.text(b" offers to take back ");
    line.number(u64::from(n));
    line.text(b".");
    line.finish(alloc)
}

/// The line of a player who declines an offer, `H declines.`.
pub fn decline_line(alloc: Global, name: &Handle) -> Result<Line, NoMemory>
    ensures { IfOk result (λ line. line ≡ decline_text name.now) }
{
    named(alloc, name, b" declines.")
}

/// The line that tells that `n` half-moves were taken back, `N taken back.`.
pub fn taken_line(alloc: Global, n: u16) -> Result<Line, NoMemory>
    ensures { IfOk result (λ line. line ≡ taken_text n) }
{
    let mut line = Draft::new();
    line.number(u64::from(n));
    line.text(b" taken back.");
    line.finish(alloc)
}

/// The line of a player's name and what is said of the player.
fn named(alloc: Global, name: &Handle, said: &[u8]) -> Result<Line, NoMemory>
    requires printable { IsTrue (list_all is_printable said.now) }
    requires short { length said.now ≤ 40 }
    ensures { IfOk result (λ line. line ≡ name.now ++ said.now) }
{
    let mut line = Draft::new();
    line.name(name);
    line.text(said);
    line.finish(alloc)
}
