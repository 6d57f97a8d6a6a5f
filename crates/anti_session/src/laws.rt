// Laws of sessions. The functions do nothing: what they say is in their contracts.
ghost use Rattle.std.specs.Prelude.{List, IsTrue};
ghost use Rattle.anti_kind.specs.declared.entry.Entry.{Entry};
ghost use Rattle.anti_app.specs.declared.app.App.{App};
ghost use Rattle.anti_app.specs.Sound.{is_sound};
ghost use Rattle.anti_trace.specs.Legal.{IsLegalTrace};
ghost use Rattle.anti_session.specs.Laws.{MembersUnfold};
ghost use Rattle.anti_session.specs.Sessions.{MembersAreChains, SessionsAreExplained};

use anti_order::answered_orders_explain;

/// In a legal trace the members of a span are reads, and each is causally before the next. Where the application is sound they are what the
/// entries of the span add, with the members of the first spans of their servers.
pub fn members_are_a_chain()
    ensures chain { (app : App) (trace : List Entry) → IsLegalTrace app trace → MembersAreChains trace }
    ensures unfold { (app : App) (trace : List Entry) → IsTrue (is_sound app) → IsLegalTrace app trace → MembersUnfold trace }
{}

/// In a legal trace of a sound application an order that is answered of the members of a span has all writes and the members once each,
/// respects the causal order, and explains what the members show.
pub fn sessions_are_explained()
    ensures { (app : App) (trace : List Entry) → IsTrue (is_sound app) → IsLegalTrace app trace → SessionsAreExplained app trace }
{
    members_are_a_chain();
    answered_orders_explain();
}
