//! What the table of acts keeps, as calls that do nothing: what they ensure are the laws.
ghost use Rattle.std.specs.Prelude.{◌≡◌, ℕ, ◌≤◌, IfSome, Some};
ghost use Rattle.clock_ledger.specs.Charges.{last_moment};
ghost use Rattle.chess_model.specs.declared.variant.Terms.{Terms};
ghost use Rattle.fics_words.specs.Boards.{board_number};
ghost use Rattle.fics_words.specs.declared.board_number.BoardNumber.{BoardNumber};
ghost use Rattle.fics_words.specs.declared.seats.Seats.{Seats};
ghost use Rattle.linked_desk.specs.declared.acts.DeskAct.{DeskAct};
ghost use Rattle.linked_desk.specs.Desk.{DeskState, game_number, occupant_of};
ghost use Rattle.game_records.specs.declared.stored_game.StoredGame.{StoredGame};
ghost use Rattle.game_records.specs.Replays.{Replays};
ghost use Rattle.linked_desk.specs.Restore.{restored};
ghost use Rattle.linked_desk.specs.Seating.{AllDiffer, HasPairsFor, MayPlay, names_of, desk_started};
ghost use Rattle.linked_desk.specs.Sight.{board_shown_as};
ghost use Rattle.linked_desk.specs.Sound.{AnswersSoundly, HasSoundGame};
ghost use Rattle.linked_desk.specs.Acts.{FitsDeskAct, desk_answer, desk_after};
ghost use Rattle.linked_desk.specs.WholeSets.{AllAt, HasPrintedHands, HasWholeSets};

/// Who plays at a desk is settled when the game starts or is resumed: no act changes the desk's number, nor the serial,
/// the terms and the players of its game, and none makes it vacant or puts a game there.
pub fn acts_keep_the_players()
    ensures number { (d : DeskState) (session moment serial : ℕ) (a : DeskAct)
        → (desk_after d session moment serial a).number ≡ d.number }
    ensures players { (d : DeskState) (session moment serial : ℕ) (a : DeskAct)
        → occupant_of (desk_after d session moment serial a) ≡ occupant_of d }
    ensures started { (d : DeskState) (serial : ℕ) (terms : Terms) (seats : Seats) (moment : ℕ) →
        occupant_of (desk_started d serial terms seats moment)
        ≡ Some (record { serial = serial; terms = terms; seats = seats }) }
    ensures restored { (d : DeskState) (serial : ℕ) (g : StoredGame) (seats : Seats) (moment : ℕ) →
        IfSome (restored d serial g seats moment) (λ e. occupant_of e
        ≡ Some (record { serial = serial; terms = g.terms; seats = seats })) }
{}

/// The game at a desk is sound from its start or resuming on, whatever acts are made: it has the boards and seats that
/// its variant wants, the list of each board is a true score, the boards of a pair have one list of the half-moves of
/// both, no half-move was made after mate or stalemate, on no board of a running game is anybody mated or stalemated,
/// and each end that viewers are told names a winner exactly where somebody won.
pub fn acts_keep_the_game()
    ensures started { (d : DeskState) (serial : ℕ) (terms : Terms) (seats : Seats) (moment : ℕ)
        → MayPlay terms seats → moment ≤ last_moment →
        HasSoundGame (desk_started d serial terms seats moment) }
    ensures restored { (d : DeskState) (serial : ℕ) (g : StoredGame) (seats : Seats) (moment : ℕ) → Replays g
        → HasPairsFor g.terms seats → AllDiffer (names_of seats) → moment ≤ last_moment →
        IfSome (restored d serial g seats moment) HasSoundGame }
    ensures game { (d : DeskState) (session moment serial : ℕ) (a : DeskAct) → moment ≤ last_moment → FitsDeskAct a
        → HasSoundGame d → HasSoundGame (desk_after d session moment serial a) }
    ensures answers { (d : DeskState) (session moment serial : ℕ) (a : DeskAct) → HasSoundGame d
        → AnswersSoundly (desk_answer d session moment serial a) }
{}

/// Each board of a desk is shown under a number of its own, by which viewers know which board it is.
pub fn boards_are_known_by_their_games()
    ensures { (desk : ℕ) (board : BoardNumber) → board_shown_as (game_number desk (board_number board)) ≡ board }
{}

/// No man of a game at a desk is made or lost: in chess and Fischer random the men of a colour and kind on the board,
/// and those captured, are those of one set; in crazyhouse the men of a kind on the board and in both hands are those
/// of two; and in bughouse those of a colour and kind on both boards and in the two hands of that colour are those of
/// two. So no hand has more men of a kind than a holdings line has letters for.
pub fn men_stay_whole()
    ensures sets { (d : DeskState) → HasSoundGame d → HasWholeSets d }
    ensures hands { (d : DeskState) → HasSoundGame d → AllAt HasPrintedHands d }
{}
