use crate::keys::{Written, write_of};
use crate::meaning::Meaning;
use crate::shipments::{Shipment, Shipments};
use crate::stores::{parts_of, regions_of};
use anti_app::{App, region_of};
use anti_ids::NoMemory;
use anti_kind::{Call, Entry};

/// The write that an entry brings, and how many parts it has.
pub(crate) fn write_brought(app: &App, entry: &Entry) -> Option<(Written, u32)> {
    let Call::Write { value, .. } = &entry.call else {
        return None;
    };
    let written = write_of(entry)?;
    Some((written, parts_of(app, written.store, value)))
}

/// The region of the service that a choice lets start a process.
pub(crate) fn region_started(app: &App, meaning: Meaning) -> Option<u32> {
    match meaning {
        Meaning::Takes { service, .. } => Some(region_of(app, service as usize)),
        Meaning::Pulls { sub } => {
            let sub = app.subs.as_slice().get(sub as usize)?;
            Some(region_of(app, sub.service as usize))
        }
        Meaning::Ships { .. } | Meaning::ComesAgain { .. } | Meaning::Goes { .. } => None,
    }
}

/// Notes the shipments to each region of a write, which the choice of a number made.
pub(crate) fn add_write(
    shipments: &mut Shipments,
    app: &App,
    number: usize,
    written: &Written,
    parts: u32,
) -> Result<(), NoMemory> {
    for region in regions_of(app, written.store) {
        let shipment = Shipment {
            write: number,
            store: written.store,
            key: written.key,
            version: written.version,
            region: *region,
            part: None,
            again: false,
        };
        add_parts(shipments, shipment, parts)?;
    }
    Ok(())
}

// Notes the shipments of the parts of a write to a region. Where it has but one, no part is named.
fn add_parts(shipments: &mut Shipments, shipment: Shipment, parts: u32) -> Result<(), NoMemory> {
    if parts <= 1 {
        return shipments.add(shipment);
    }
    for part in 0..parts {
        shipments.add(Shipment {
            part: Some(part.saturating_add(1)),
            ..shipment
        })?;
    }
    Ok(())
}
