//! What holds of every lobby and of every act, as calls that do nothing: each says by its contract what was proved.
ghost use Rattle.std.specs.Prelude.{◌≡◌, ◌≢◌, ◌<◌, ◌++◌, ℕ, All, Bool, List, Ok, Option, [], filter, length};
ghost use Rattle.game_records.specs.declared.stored_game.StoredGame.{StoredGame};
ghost use Rattle.fics_words.specs.Effect.{answer_of, state_of};
ghost use Rattle.chess_model.specs.declared.variant.Terms.{Terms};
ghost use Rattle.fics_words.specs.declared.seats.Seats.{Seats};
ghost use Rattle.login_handles.specs.Guests.{IsLeastFree};
ghost use Rattle.lobby_state.specs.Acts.{FitsLobby, lobby_after, lobby_effect};
ghost use Rattle.lobby_state.specs.Enter.{guest_in, names_taken};
ghost use Rattle.lobby_state.specs.GoBoard.{MeetsPlayer, go_board_effect};
ghost use Rattle.lobby_state.specs.Games.{games_lines};
ghost use Rattle.lobby_state.specs.GamesFound.{ListWhatIsFound};
ghost use Rattle.lobby_state.specs.InChannel.{in_channel_lines, is_there};
ghost use Rattle.lobby_state.specs.InUse.{AreDesksInUse, desks_in_use};
ghost use Rattle.lobby_state.specs.Keeps.{KeepsPlan, KeepsWhere};
ghost use Rattle.lobby_state.specs.KeptAway.{KeepAway};
ghost use Rattle.lobby_state.specs.Lobby.{most_members, waiting_of};
ghost use Rattle.lobby_state.specs.Planned.{IsPlanned};
ghost use Rattle.lobby_state.specs.Plans.{committed, plan_of};
ghost use Rattle.lobby_state.specs.SettledOffers.{SettleOffers};
ghost use Rattle.lobby_state.specs.Start.{lobby_seated};
ghost use Rattle.lobby_state.specs.WaitingLines.{BeginsWith, Deed, StaysInHall, after_all, all_given, lines_given};
ghost use Rattle.lobby_state.specs.WellFormed.{IsWellFormed};
ghost use Rattle.lobby_state.specs.Who.{ListsEach, who_lines};

use crate::acts::{LobbyAct, LobbyReply, PairAct, Plan};
use crate::lobby::Lobby;
use fics_words::HandleKey;

/// Every lobby is well-formed.
pub fn lobbies_are_well_formed(lobby: &Lobby)
    ensures { IsWellFormed lobby.now }
{
    let _ = &lobby.roster;
}

/// Each lobby act whose numbers and texts are within their bounds leaves a lobby well-formed, made or refused; and no
/// lobby act starts or ends a game, or tells of other places than desks.
pub fn acts_keep(lobby: &Lobby, session: u32, act: &LobbyAct)
    ensures { KeepsWhere (FitsLobby act.now) lobby.now (lobby_effect lobby.now session act.now) }
{}

/// A plan that a lobby gives can be carried out in it. That leaves the lobby well-formed, and changes the game of no
/// other desk.
pub fn plans_keep(lobby: &Lobby, session: u32, act: &PairAct, plan: &Plan)
    ensures planned { IsWellFormed lobby.now → plan_of lobby.now session act.now ≡ Ok plan.now
        → IsPlanned lobby.now plan.now }
    ensures kept { IsPlanned lobby.now plan.now → KeepsPlan lobby.now plan.now }
{
    act.names_desk();
}

/// While the hall isn't full, the guest that enters next has the least name of a guest that no member and no account
/// has.
pub fn guests_have_the_least_name(lobby: &Lobby)
    ensures { length lobby.now.members < most_members → IsLeastFree (names_taken lobby.now) (guest_in lobby.now) }
{
    let _ = &lobby.roster;
}

/// Who is on another's list doesn't reach it: a Tell of one that the other censors is refused, and nothing changes; a
/// Match and a Play of one that the other avoids aren't done.
pub fn lists_keep_away(lobby: &Lobby, session: u32, to: HandleKey, number: u16)
    ensures { KeepAway lobby.now session to number }
{}

/// A GoBoard that is done goes to the first of the session's places whose opponent, in the other seat of the same
/// board, is the named player.
pub fn go_board_meets_the_player(lobby: &Lobby, session: u32, name: HandleKey)
    ensures { answer_of (go_board_effect lobby.now session name) ≡ Ok LobbyReply.Done
        → MeetsPlayer lobby.now (state_of lobby.now (go_board_effect lobby.now session name)) session name }
{}

/// A Who lists the handle of each member once, and an InChannel that of each member in the channel, in the order of a
/// dictionary.
pub fn who_lists_each_member_once(lobby: &Lobby)
    ensures hall { ListsEach lobby.now.members (who_lines lobby.now) }
    ensures channel { (channel : ℕ) → ListsEach (filter (is_there lobby.now.channels channel) lobby.now.members)
        (in_channel_lines lobby.now channel) }
{
    let _ = &lobby.roster;
}

/// A Games lists the games that a FindGame finds, each of them once, in the order of their numbers.
pub fn games_lists_what_is_found(lobby: &Lobby)
    ensures { ListWhatIsFound lobby.now (games_lines lobby.now) }
{
    let _ = &lobby.roster;
}

/// As a game starts the seeks and challenges of its players go, but for a giver's challenges with those who don't play
/// in it; those of everybody else stay.
pub fn starts_settle_offers(lobby: &Lobby)
    ensures { (desk serial : ℕ) (terms : Terms) (seats : Seats)
        → SettleOffers lobby.now seats (lobby_seated lobby.now desk serial terms seats) }
{}

/// Each line that waits for a member is given once and in order. A Fetch of its own is answered all that wait, and none
/// waits then; every other act, by whomever, but the Bye by which it goes, leaves those that wait where they stand and
/// puts others behind them at most, and so do plans. So the lines that wait for a member now are the first that its
/// Fetches are answered from now on, and what isn't fetched by then still waits in that order.
pub fn waiting_lines_are_given_in_order(lobby: &Lobby, session: u32)
    ensures fetched { lines_given lobby.now session LobbyAct.Fetch ≡ waiting_of lobby.now session }
    ensures emptied { waiting_of (lobby_after lobby.now session LobbyAct.Fetch) session ≡ [] }
    ensures others { (deed : Deed) → StaysInHall session deed → (deed.by ≡ session → deed.act ≢ LobbyAct.Fetch)
        → BeginsWith (waiting_of lobby.now session) (waiting_of (lobby_after lobby.now deed.by deed.act) session) }
    ensures plans { (plan : Plan) (game : Option StoredGame) (cleared : Bool)
        → BeginsWith (waiting_of lobby.now session) (waiting_of (committed lobby.now plan game cleared) session) }
    ensures run { (deeds : List Deed) → All (StaysInHall session) deeds
        → BeginsWith (waiting_of lobby.now session)
        (all_given lobby.now session deeds ++ waiting_of (after_all lobby.now deeds) session) }
{}

/// An InUse tells the desks that are in use with their serials, each of them once, in ascending order.
pub fn in_use_tells_the_desks(lobby: &Lobby)
    ensures { AreDesksInUse lobby.now (desks_in_use lobby.now) }
{}
