ghost use Rattle.std.specs.Prelude.{◌≡◌, IsTrue};
ghost use Rattle.anti_app.specs.Sound.{is_sound, is_sound_choice};
ghost use Rattle.anti_play.specs.inner.Choosing.{AsksFor};

use anti_app::{App, Choice, inbox_number, position_on};
use anti_kind::{Birth, Call};

/// What a choice asks for.
#[derive(Drop)]
pub enum ChoiceCall {
    /// A call at an object, by which a process is born.
    Bears(u32, Call),
    /// A call of the carrier at an object.
    Carries(u32, Call),
    /// The next call of a process.
    GoesOn(Birth),
}

impl ChoiceCall {
    /// What a choice other than `finish` asks for. A part that is not given is the first.
    pub(crate) fn of(app: &App, choice: &Choice) -> ChoiceCall
        requires sound { IsTrue (is_sound app.now) }
        requires named { IsTrue (is_sound_choice app.now choice.now) }
        requires one { choice.now ≡ Choice.Finish → ⊥ }
        ensures { AsksFor app.now choice.now result }
    {
        match *choice {
            Choice::Take { service, nth } => {
                ChoiceCall::Bears(inbox_number(app, service), Call::Take { nth })
            }
            Choice::Repost { service, number } => {
                ChoiceCall::Carries(inbox_number(app, service), Call::Repost { number })
            }
            Choice::Pull { sub } => {
                let store = app.subs.at(sub as usize).store;
                let sub = position_on(app, store, sub);
                ChoiceCall::Bears(store, Call::Pull { sub })
            }
            Choice::Repull { sub, version } => {
                let store = app.subs.at(sub as usize).store;
                let sub = position_on(app, store, sub);
                ChoiceCall::Bears(store, Call::Repull { sub, version })
            }
            Choice::Ship {
                store,
                region,
                version,
                part,
            } => {
                let part = part.unwrap_or(1);
                ChoiceCall::Carries(
                    store,
                    Call::Ship {
                        region,
                        version,
                        part,
                    },
                )
            }
            Choice::Again {
                store,
                region,
                version,
                part,
            } => {
                let part = part.unwrap_or(1);
                ChoiceCall::Carries(
                    store,
                    Call::Again {
                        region,
                        version,
                        part,
                    },
                )
            }
            Choice::Go { object, place } => ChoiceCall::GoesOn(Birth { object, place }),
            // `one` excludes it
            Choice::Finish => unreachable!(),
        }
    }
}
