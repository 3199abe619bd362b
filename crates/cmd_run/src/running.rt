//! The top call.

ghost use Rattle.std.specs.Prelude.{◌≡◌, ◌⊎◌, ◌<◌, ◌≤◌, [], ◌∷◌, length, IfSome, Contains};
ghost use Rattle.std.specs.Io.KnownBytes.{Appends, Keeps};
ghost use Rattle.edge_traits.specs.Faults.{Rose};
ghost use Rattle.edge_traits.specs.Keeper.{Stays};
ghost use Rattle.edge_traits.specs.Source.{most_reads};
ghost use Rattle.edge_traits.specs.declared.keeper.Kept.{Kept};
ghost use Rattle.lobby_load.specs.Calling.{LoadsOnce};
ghost use Rattle.cmd_run.specs.RunEnds.{CommandEnds, IsGood, WritesPart};
ghost use Rattle.cmd_job.specs.Usage.{usage_line};
ghost use Rattle.cmd_examine.specs.ExamineEnds.{EndsBeforeInput};
ghost use Rattle.cmd_run.specs.Words.{Does, IsCommand, IsOverStore, IsWithin, NamesCommand, ReadsInput};
ghost use Rattle.cmd_store.specs.Outcomes.{EndsAt, OnKeeperFault, OnReadFault, OnWriteFault};
ghost use Rattle.cmd_lines.specs.declared.end.End.{End};
ghost use Rattle.cmd_store.specs.declared.outcome.Outcome.{Outcome};
ghost use Rattle.cmd_run.specs.declared.command.RunCommand.{RunCommand};

use crate::command::{RunCommand, read_command};
use cmd_board::board;
use cmd_bot::bot;
use cmd_check::check;
use cmd_demo::demo;
use cmd_examine::examine;
use cmd_job::{JobFail, tell_usage};
use cmd_lines::{End, status};
use cmd_pgn::pgn;
use cmd_replay::replay;
use cmd_store::{Outcome, status_of_outcome};
use cmd_tidy::tidy;
use cmd_tourney::tourney;
use edge_traits::{Keeper, Sink, Source};
use std::alloc::Global;

/// Runs the command that the words name, and gives the status with which the program ends: 0 where the input was read
/// to its end, 1 where the words name no command, 2 at a fault of reading, 3 at a fault of writing, 4 at a fault of the
/// keeper, 5 where a record of the store is bad, 6 for want of memory, 7 at the first line outside the grammar, 9 after
/// 2^40 reads, and 10 where the store has no game of the number. The source is read by the commands that read an input
/// alone, and not before the store was loaded; the keeper is called by the commands over a store alone, once, for its
/// load, and its table stays as it is.
pub fn run<S: Source, K: Sink, P: Keeper>(
    alloc: Global,
    words: &[String],
    source: &mut S,
    sink: &mut K,
    keeper: &mut P,
) -> u8
    ensures answered { result ≡ 0 → Does words.now (CommandEnds (P.table keeper.old) (S.left source.old)
        (S.left source.new) (K.written sink.old) (K.written sink.new) (Outcome.Read End.Done)) }
    ensures usage { result ≡ 1 → ¬ (IsCommand words.now) × Keeps (S.left source.old) (S.left source.new)
        × Appends (K.written sink.old) (K.written sink.new) usage_line }
    ensures no_command { ¬ (IsCommand words.now) → (result ≡ 1) ⊎ ((result ≡ 3) ⊎ (result ≡ 6)) }
    ensures read_fault { result ≡ 2 → Rose (S.faults source.old) (S.faults source.new) }
    ensures read_part { result ≡ 2 → Does words.now (CommandEnds (P.table keeper.old) (S.left source.old)
        (S.left source.new) (K.written sink.old) (K.written sink.new) (Outcome.Read End.ReadFault)) }
    ensures write_fault { result ≡ 3 → Rose (K.faults sink.old) (K.faults sink.new) }
    ensures write_part { result ≡ 3 → WritesPart words.now (P.table keeper.old) (S.left source.old)
        (S.left source.new) (K.written sink.old) (K.written sink.new) (Outcome.Read End.WriteFault) }
    ensures keeper_fault { result ≡ 4 → Rose (P.faults keeper.old) (P.faults keeper.new) }
    ensures keeper_part { result ≡ 4 → Does words.now (CommandEnds (P.table keeper.old) (S.left source.old)
        (S.left source.new) (K.written sink.old) (K.written sink.new) Outcome.KeeperFault) }
    ensures bad_record { result ≡ 5 → Does words.now (CommandEnds (P.table keeper.old) (S.left source.old)
        (S.left source.new) (K.written sink.old) (K.written sink.new) Outcome.BadRecord) }
    ensures memory_part { result ≡ 6 → WritesPart words.now (P.table keeper.old) (S.left source.old)
        (S.left source.new) (K.written sink.old) (K.written sink.new) (Outcome.Read End.Memory) }
    ensures bad_line { result ≡ 7 → Does words.now (CommandEnds (P.table keeper.old) (S.left source.old)
        (S.left source.new) (K.written sink.old) (K.written sink.new) (Outcome.Read End.BadLine)) }
    ensures spent { result ≡ 9 → Does words.now (CommandEnds (P.table keeper.old) (S.left source.old)
        (S.left source.new) (K.written sink.old) (K.written sink.new) (Outcome.Read End.Spent)) }
    ensures no_game { result ≡ 10 → Does words.now (CommandEnds (P.table keeper.old) (S.left source.old)
        (S.left source.new) (K.written sink.old) (K.written sink.new) Outcome.NoGame) }
    ensures complete { (command : RunCommand) → NamesCommand words.now command
        → ¬ (Rose (S.faults source.old) (S.faults source.new)) → ¬ (Rose (K.faults sink.old) (K.faults sink.new))
        → (IsOverStore command → ¬ (Rose (P.faults keeper.old) (P.faults keeper.new)))
        → IfSome (S.left source.old) (λ text. length text < most_reads → IsGood (P.table keeper.old) text command
        → (result ≡ 0) ⊎ (result ≡ 6)) }
    ensures statuses { Contains (0 ∷ 1 ∷ 2 ∷ 3 ∷ 4 ∷ 5 ∷ 6 ∷ 7 ∷ 9 ∷ 10 ∷ []) result }
    ensures source_stays { ¬ (Does words.now ReadsInput) → source.new ≡ source.old }
    ensures unread { (result ≡ 4) ⊎ ((result ≡ 5) ⊎ (result ≡ 10)) → source.new ≡ source.old }
    ensures keeper_stays { ¬ (Does words.now IsOverStore) → keeper.new ≡ keeper.old }
    ensures table_stays { Stays (P.table keeper.old) (P.table keeper.new) }
    ensures loads { (P.calls keeper.new ≡ P.calls keeper.old)
        ⊎ LoadsOnce (P.calls keeper.old) (P.calls keeper.new) (λ answer. answer ≡ Kept.Failed → result ≡ 4) }
    ensures failed_load { result ≡ 4
        → LoadsOnce (P.calls keeper.old) (P.calls keeper.new) (λ answer. answer ≡ Kept.Failed) }
    ensures keeper_counted { P.faults keeper.old ≤ P.faults keeper.new }
{
    match read_command(alloc, words) {
        Ok(command) => status_of_outcome(run_command(alloc, command, source, sink, keeper)),
        Err(JobFail::Usage) => tell_usage(sink),
        Err(JobFail::Memory) => status(End::Memory),
    }
}

/// Runs a command.
fn run_command<S: Source, K: Sink, P: Keeper>(
    alloc: Global,
    command: RunCommand,
    source: &mut S,
    sink: &mut K,
    keeper: &mut P,
) -> Outcome
    requires { IsWithin command }
    ensures ends { CommandEnds (P.table keeper.old) (S.left source.old) (S.left source.new) (K.written sink.old)
        (K.written sink.new) result command }
    ensures read_cause { OnReadFault result (Rose (S.faults source.old) (S.faults source.new)) }
    ensures write_cause { OnWriteFault result (Rose (K.faults sink.old) (K.faults sink.new)) }
    ensures keeper_cause { OnKeeperFault result (Rose (P.faults keeper.old) (P.faults keeper.new)) }
    ensures source_stays { ¬ (ReadsInput command) → source.new ≡ source.old }
    ensures unread { EndsBeforeInput result → source.new ≡ source.old }
    ensures keeper_stays { ¬ (IsOverStore command) → keeper.new ≡ keeper.old }
    ensures table_stays { Stays (P.table keeper.old) (P.table keeper.new) }
    ensures called { IsOverStore command
        → LoadsOnce (P.calls keeper.old) (P.calls keeper.new) (EndsAt result) }
    ensures keeper_counted { P.faults keeper.old ≤ P.faults keeper.new }
{
    match command {
        RunCommand::Board => Outcome::Read(board(alloc, source, sink)),
        RunCommand::Replay => Outcome::Read(replay(alloc, source, sink)),
        RunCommand::Tourney => Outcome::Read(tourney(alloc, source, sink)),
        RunCommand::Tidy => Outcome::Read(tidy(alloc, source, sink)),
        RunCommand::Bot { depth } => Outcome::Read(bot(alloc, depth, source, sink)),
        RunCommand::Demo { number } => Outcome::Read(demo(alloc, number, sink)),
        RunCommand::Check => check(alloc, sink, keeper),
        RunCommand::Pgn => pgn(alloc, sink, keeper),
        RunCommand::Examine { game } => examine(alloc, game, source, sink, keeper),
    }
}
