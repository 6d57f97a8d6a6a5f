// Laws of an inbox, each proved once for all of them. The functions do nothing: what they say is in their contracts.
ghost use Rattle.anti_inbox.specs.InboxLaws.{TakesGet, TakenCame, HeardCame, TakesOnce, TakenIsGone, AnsweredOnce, HeardOnce, ReservedFits};

/// Each take gets a message that was there, with its number.
pub fn takes_get()
    ensures { TakesGet }
{}

/// A message that is taken is a request of the start or was posted before, with the number that the take tells.
pub fn taken_came()
    ensures { TakenCame }
{}

/// A reply that is taken was posted before, to the call whose reply is taken.
pub fn heard_came()
    ensures { HeardCame }
{}

/// No message is taken twice, however often it is delivered.
pub fn takes_once()
    ensures { TakesOnce }
{}

/// Once a message was taken no delivery of it is free, whatever comes after.
pub fn taken_is_gone()
    ensures { TakenIsGone }
{}

/// To a call at most one reply is posted.
pub fn answered_once()
    ensures { AnsweredOnce }
{}

/// The reply to a call is taken at most once.
pub fn heard_once()
    ensures { HeardOnce }
{}

/// A take, the post of a reply and the taking of a reply always fit: their units were reserved.
pub fn reserved_fits()
    ensures { ReservedFits }
{}
