//! The laws of `bot`, in a player's words.

ghost use Rattle.std.specs.Prelude.{◌≡◌, ◌≤◌, ℕ, List, All, None, Option, Some, filter, length};
ghost use Rattle.fics_words.specs.Line.{most_line_bytes};
ghost use Rattle.cmd_lines.specs.LineCommand.{bad_in, last_state};
ghost use Rattle.cmd_lines.specs.Lines.{is_written};
ghost use Rattle.cmd_lines.specs.declared.end.End.{End};
ghost use Rattle.cmd_bot.specs.BotEnds.{BotEnds};
ghost use Rattle.cmd_bot.specs.BotLines.{BotState, bot_lines};
ghost use Rattle.cmd_bot.specs.BotText.{AnswersGame, TellsBadLine, WritesNothing};
ghost use Rattle.cmd_bot.specs.Inputs.{Give, IsFirstBadLine};

/// An input has no bad line exactly where its lines, without the empty ones, name a variant and half-moves that are
/// accepted in turn; and these give the game in whose position the bot answers. A line of more than 1,023 bytes is bad.
pub fn inputs()
    ensures given { (depth : ℕ) (lines : List (List ℕ)) → bad_in (bot_lines depth) lines ≡ None
        → Give depth (filter is_written lines) (last_state (bot_lines depth) lines) }
    ensures good { (depth : ℕ) (lines : List (List ℕ)) (state : BotState)
        → All (λ line. length line ≤ most_line_bytes) lines
        → Give depth (filter is_written lines) state → bad_in (bot_lines depth) lines ≡ None }
    ensures state { (depth : ℕ) (lines : List (List ℕ)) (state : BotState)
        → All (λ line. length line ≤ most_line_bytes) lines
        → Give depth (filter is_written lines) state → last_state (bot_lines depth) lines ≡ state }
    ensures first { (depth : ℕ) (lines : List (List ℕ)) (number : ℕ) → bad_in (bot_lines depth) lines ≡ Some number
        → IsFirstBadLine depth lines number }
{}

/// What is written at each end: the answer in the position of the input, the number of its first bad line, or nothing.
pub fn bot_texts()
    ensures answered { (depth : ℕ) (left after written now : Option (List ℕ))
        → BotEnds depth left after written now End.Done → AnswersGame depth left after written now }
    ensures bad_line { (depth : ℕ) (left after written now : Option (List ℕ))
        → BotEnds depth left after written now End.BadLine → TellsBadLine depth left after written now }
    ensures read_fault { (depth : ℕ) (left after written now : Option (List ℕ))
        → BotEnds depth left after written now End.ReadFault → WritesNothing written now }
    ensures spent { (depth : ℕ) (left after written now : Option (List ℕ))
        → BotEnds depth left after written now End.Spent → WritesNothing written now }
{}
