ghost use Rattle.std.specs.Prelude.{◌≡◌, ℕ, ◌+◌, ◌<◌, ◌≤◌, ◌^◌, true, false, is_some, [], Some, IfErr, IfOk};
ghost use Rattle.anti_kind.specs.Lones.{lone_start, lone_view};
ghost use Rattle.anti_kind.specs.Starts.{IsStart};
ghost use Rattle.anti_kind.specs.Objects.{ready};
ghost use Rattle.anti_kv.specs.KvStates.{its_start, kv_start};
ghost use Rattle.sample_callers.specs.Shipments.{AreBrought, IsLeft, IsRefused};

use anti_ids::{MOST_UNITS, NoMemory};
use anti_kind::{Actor, Answer, Call, Lone, Port, Refusal};
use anti_kv::Kv;
use std::alloc::Global;

/// A port over one key-value store of this number, with a replica in each of these regions. No call was made on it.
pub fn kv_port(alloc: Global, store: u32, regions: &[u32]) -> Result<Lone<Kv>, NoMemory>
    requires { IsStart (kv_start store regions.now) }
    ensures start { IfOk result (λ port. lone_start its_start port store ≡ Some (kv_start store regions.now)) }
    ensures unused { IfOk result (λ port. lone_view port store ≡ record { seen = []; made = []; visits = 0 }) }
{
    let kv = Kv::new(alloc, store, regions)?;
    match Lone::new(alloc, store, kv) {
        Ok(port) => Ok(port),
        Err(_) => Err(NoMemory),
    }
}

/// Brings first parts of versions to a region, one after another from `first` on, and gives the version at which it stopped: the first
/// whose shipment is not ready, or the one behind `most` others.
pub fn bring_from<P: Port>(
    port: &mut P,
    store: u32,
    region: u32,
    first: u64,
    most: u32,
) -> Result<u64, Refusal>
    requires { first + most < 2 ^ 64 }
    ensures brought { IfOk result (AreBrought (P.view port.new store).seen region first) }
    ensures left { IfOk result (IsLeft (P.start port.old store) (P.view port.new store) region (first + most)) }
    ensures cause { IfErr result (IsRefused (P.start port.old store) (P.view port.new store) region) }
    ensures others { (o : ℕ) → (o ≡ store → ⊥) → P.view port.new o ≡ P.view port.old o }
    ensures fixed { (o : ℕ) → P.start port.new o ≡ P.start port.old o }
{
    let mut clock = 0;
    for version in first..first + most as u64 {
        let ship = Call::Ship {
            region,
            version,
            part: 1,
        };
        match port.call(store, Actor::Carrier(0), 0, clock, ship) {
            Answer::Made { stamp, .. } => clock = stamp,
            Answer::Refused(Refusal::NotYet) => return Ok(version),
            Answer::Refused(refusal) => return Err(refusal),
            // a `Ship` is never refused for want of memory
            Answer::NoMemory => unreachable!(),
        }
    }
    Ok(first + most as u64)
}

/// Brings versions to a region over a port that is just this store, as many as it may have, and gives the first that was not brought.
pub fn bring_all(port: &mut Lone<Kv>, store: u32, region: u32) -> Result<u64, Refusal>
    requires { is_some (lone_start its_start port.old store) ≡ true }
    ensures brought { IfOk result (AreBrought port.new.history region 1) }
    ensures left { IfOk result (λ left. left ≤ MOST_UNITS
        → ready (its_start port.new.machine) port.new.history (Call.Ship region left 1) ≡ false) }
    ensures cause { IfErr result (IsRefused (lone_start its_start port.old store) (lone_view port.new store) region) }
{
    bring_from(port, store, region, 1, MOST_UNITS)
}
