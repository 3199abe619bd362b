//! What holds of the format as a whole.
ghost use Rattle.std.specs.Prelude.{◌≡◌, ◌≢◌, ◌<◌, ◌^◌, ℕ, List};
ghost use Rattle.game_records.specs.Keys.{account_key, game_key};
ghost use Rattle.game_records.specs.Laws.{ArePlayedBySteps};
ghost use Rattle.game_records.specs.Spelling.{IsSpelled};
ghost use Rattle.game_records.specs.declared.records.Record.{Record};

/// No bytes are the spelling of two records, and no key is that of two games, of two accounts, or of
/// an account and a game.
pub fn one_record()
    ensures records { (one other : Record) (bytes : List ℕ) → IsSpelled one bytes → IsSpelled other bytes
        → one ≡ other }
    ensures games { (one other : ℕ) → one < 2 ^ 64 → other < 2 ^ 64 → game_key one ≡ game_key other → one ≡ other }
    ensures accounts { (one other : List ℕ) → account_key one ≡ account_key other → one ≡ other }
    ensures apart { (letters : List ℕ) (number : ℕ) → account_key letters ≢ game_key number }
{}

/// The half-moves of a game that replays are played one after another: each may come after those before it.
#[tactic(auto, using(crate::proofs::Played::by_steps))]
pub fn played_by_steps()
    ensures { ArePlayedBySteps }
{}
