ghost use Rattle.std.specs.Prelude.{OnOk};
ghost use Rattle.anti_agenda.specs.Agendas.{IsIdle, IsStirred};
ghost use Rattle.anti_agenda.specs.declared.offer.Offer.{Offer as Offered};
ghost use Rattle.anti_agenda.specs.inner.Waking.{NoneWaits, WakesIdle, WakesWaiting};

use crate::agenda::Agenda;
use anti_ids::NoMemory;
use anti_kind::Brought;

impl Agenda {
    // Wakes all that are idle.
    fn wake_idle(&mut self) -> Result<(), NoMemory>
        ensures wakes { OnOk result (WakesIdle self.old self.new) }
        ensures none_idle { OnOk result ((offer : Offered) → IsIdle self.new offer → ⊥) }
    {
        while let Some(offer) = self.idle.pop() {
            self.awake.insert(offer)?;
        }
        Ok(())
    }

    // Wakes those that sleep at the object for what is brought, one after another.
    fn wake_each(&mut self, object: u32, brought: Brought) -> Result<(), NoMemory>
        ensures wakes { OnOk result (WakesWaiting object brought self.old self.new) }
        ensures none_waits { OnOk result (NoneWaits object brought self.new.asleep) }
    {
        while let Some(sleeper) = self.asleep.one_waiting(object, brought) {
            self.asleep.remove(sleeper);
            self.awake.insert(sleeper.offer)?;
        }
        Ok(())
    }

    // Wakes those that sleep at the object for what is brought. Mostly nobody ever did, and then nobody is looked for.
    fn wake_waiting(&mut self, object: u32, brought: Brought) -> Result<(), NoMemory>
        ensures wakes { OnOk result (WakesWaiting object brought self.old self.new) }
        ensures none_waits { OnOk result (NoneWaits object brought self.new.asleep) }
    {
        if self.asleep.has_none_for(object, brought) {
            return Ok(());
        }
        self.wake_each(object, brought)
    }

    /// Wakes who may go on behind an entry at an object, which brought this: all that are idle, and those that sleep at the object for
    /// what was brought. The only error is want of memory, and then some of them may be awake already, and one may be named no more.
    pub fn stir(&mut self, object: u32, brought: Brought) -> Result<(), NoMemory>
        ensures { OnOk result (IsStirred object brought self.old self.new) }
    {
        self.wake_idle()?;
        match brought {
            // What comes to a region may be handed out next, too.
            Brought::Shipped { .. } => {
                self.wake_waiting(object, Brought::HandedBack)?;
                self.wake_waiting(object, brought)
            }
            _ => self.wake_waiting(object, brought),
        }
    }
}
