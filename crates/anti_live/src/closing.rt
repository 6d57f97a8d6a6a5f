ghost use Rattle.std.specs.Prelude.{◌≡◌, ◌≤◌, All, IfErr, IfOk, [], length, map, true, not};
ghost use Rattle.std.specs.List.{AllZip, list_any};
ghost use Rattle.anti_live.specs.Clients.{ComesBack, IsAsked, IsLeft, IsOf, asked_alone, is_another_out};
ghost use Rattle.anti_live.specs.inner.Lives.{AreOf};

use crate::client::Client;
use crate::live::Live;
use anti_kind::History;
use anti_object::{Kepts, Object};
use anti_shared::{Pass, Shared};

impl Live {
    /// Gives the stores out, each with the history that the client has seen. Refused exactly where some store was answered that another
    /// pass of it is out, so that another client was not joined: then all comes back. Each store is asked before one is closed. It takes no
    /// memory.
    pub fn close(self, mut client: Client) -> Result<Kepts, (Live, Client)>
        requires of { IsOf self client }
        ensures left { IfOk result (λ kepts. AllZip IsLeft (map asked_alone client.passes) kepts.items) }
        ensures back { IfErr result (ComesBack self client) }
        ensures of { IfErr result (λ back. IsOf back.0 back.1) }
    {
        if !are_alone(self.shareds.as_slice(), &mut client.passes) {
            return Err((self, client));
        }
        let (shareds, kepts) = self.into_parts();
        Ok(close_each(shareds, client.into_passes(), kepts))
    }
}

// Asks of each store whether no other pass is out.
fn are_alone(shareds: &[Shared<Object>], passes: &mut Vec<Pass<Object>>) -> bool
    requires { AreOf shareds.now passes.old.items }
    ensures asked { AllZip IsAsked passes.old.items passes.new.items }
    ensures answer { result ≡ not (list_any is_another_out passes.new.items) }
{
    let mut alone = true;
    for at in 0..shareds.len() {
        // all are asked, whatever one was answered
        alone &= shareds[at].alone(&mut passes[at]);
    }
    alone
}

// Closes a shared object by a pass that was answered that no other is out.
fn close_at(shared: Shared<Object>, pass: Pass<Object>) -> (Object, History)
    requires of { pass.id ≡ shared.id }
    requires alone { pass.alone ≡ true }
    ensures { IsLeft pass result }
{
    match shared.close(pass) {
        Ok(kept) => {
            // they tell what is true of each object that was shared
            let _state = kept.state();
            let _history = kept.history();
            kept.into_parts()
        }
        Err(_back) => unreachable!(), // no other is out
    }
}

// Closes the shared objects, each by its pass, into a list with room for all.
fn close_each(
    mut shareds: Vec<Shared<Object>>,
    mut passes: Vec<Pass<Object>>,
    mut kepts: Kepts,
) -> Kepts
    requires of { AreOf shareds.items passes.items }
    requires alone { All (λ pass. pass.alone ≡ true) passes.items }
    requires none { kepts.items ≡ [] }
    requires room { length shareds.items ≤ kepts.spare }
    ensures { AllZip IsLeft passes.items result.items }
{
    shareds.reverse();
    passes.reverse();
    while let Some(shared) = shareds.pop() {
        match passes.pop() {
            Some(pass) => kepts.put(close_at(shared, pass)),
            None => unreachable!(), // there is a pass for each object
        }
    }
    kepts
}
