ghost use Rattle.std.specs.Prelude.{◌≡◌, ℕ, ◌<◌, ◌≤◌, IfSome};
ghost use Rattle.anti_turn.specs.Lists.{top};
ghost use Rattle.anti_shared.specs.Passes.{start_of, upto_from, with_load};
ghost use Rattle.anti_shared.specs.inner.Marks.{AreGreater, AreNoted, AreRisen, AreTold, AreUpto, number_at};

use crate::kept::Kept;
use crate::pass::Pass;
use crate::shared::Shared;
use anti_ids::MOST_REGIONS;
use anti_kind::Machine;
use anti_turn::{Seat, Turn};

// Beside the turn stands a mark for each region: how many versions, from the first on, are whole there. Each call raises the marks before
// it returns, where its pass knows of more, and `upto` loads one.
impl<M: Machine> Shared<M> {
    /// How many versions, from the first on, are whole at the region, as far as passes told by their calls: at least as many as in what
    /// this pass has seen. Each of them is whole there in what this pass has seen after a later call, and at the end. It does not take the
    /// turn, so it waits for nobody. It takes no memory.
    pub fn upto(&self, pass: &mut Pass<M>, region: u32) -> u64
        requires of { pass.old.id ≡ self.now.id }
        requires region { region < 8 }
        ensures pass { pass.new ≡ with_load pass.old region result }
        ensures seen { upto_from (start_of M.start pass.old.id) pass.old.seen region ≤ result }
        ensures raised { top region pass.old.raised ≤ result }
    {
        self.turn.load(&mut pass.seat, region)
    }
}

// Raises the marks as far as the regions have everything in what the seat has seen, which is `risen`, or `None` where no region has more
// than was raised. What is raised to is kept.
pub(crate) fn tell<M: Machine>(
    turn: &Turn<Kept<M>>,
    seat: &mut Seat<Kept<M>>,
    raised: &mut [u64; MOST_REGIONS],
    risen: Option<[u64; MOST_REGIONS]>,
)
    requires turn { seat.old.id ≡ turn.now.id }
    requires noted { AreNoted raised.old seat.old.raised }
    requires risen { IfSome seat.old.fixed (λ part. AreRisen (M.start part.1) seat.old.seen raised.old risen) }
    ensures seat { seat.new ≡ record seat.old { raised = seat.new.raised } }
    ensures noted { AreNoted raised.new seat.new.raised }
    ensures told { IfSome seat.old.fixed (λ part. AreTold (M.start part.1) seat.old.seen seat.new.raised) }
{
    let Some(reached) = risen else {
        return;
    };
    raise_each(turn, seat, raised, &reached);
}

// Raises the mark of each region to its number, where that is more than was raised.
fn raise_each<M: Machine>(
    turn: &Turn<Kept<M>>,
    seat: &mut Seat<Kept<M>>,
    raised: &mut [u64; MOST_REGIONS],
    reached: &[u64; MOST_REGIONS],
)
    requires turn { seat.old.id ≡ turn.now.id }
    requires noted { AreNoted raised.old seat.old.raised }
    requires reached { IfSome seat.old.fixed (λ part. AreUpto (M.start part.1) seat.old.seen reached.now) }
    ensures seat { seat.new ≡ record seat.old { raised = seat.new.raised } }
    ensures noted { AreNoted raised.new seat.new.raised }
    ensures told { (region : ℕ) → region < 8 → number_at reached.now region ≤ top region seat.new.raised }
{
    for region in 0..MOST_REGIONS {
        if reached[region] > raised[region] {
            turn.raise(seat, region as u32, reached[region]);
            raised[region] = reached[region];
        }
    }
}

// What was raised is the greater of the two, for each region.
pub(crate) fn raise_to(raised: &mut [u64; MOST_REGIONS], others: &[u64; MOST_REGIONS])
    ensures { AreGreater raised.old others.now raised.new }
{
    for region in 0..MOST_REGIONS {
        raised[region] = raised[region].max(others[region]);
    }
}
