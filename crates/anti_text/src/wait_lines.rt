ghost use Rattle.std.specs.Prelude.{◌≡◌, ◌++◌, OnOk, codes, decimal};
ghost use Rattle.anti_text.specs.Entries.{part_text, shipment_text, choice_text, choice_numbered, wait_line};
ghost use Rattle.anti_text.specs.Words.{mark_text, service_name, sub_name};

use crate::output::Output;
use crate::words::{mark_text, region_name, service_name, store_name, sub_name};
use anti_app::{App, Choice};
use anti_ids::NoMemory;
use itoa::Buffer;

// Writes the part of a ship.
fn part_text(out: &mut Output, part: Option<u32>) -> Result<(), NoMemory>
    ensures { OnOk result (out.new ≡ out.old ++ part_text part) }
{
    match part {
        None => Ok(()),
        Some(part) => {
            let mut digits = Buffer::new();
            out.put_all(&[b" ", digits.format(part).as_bytes()])
        }
    }
}

// Writes a word, a store, a region, a version, and a part where one was given.
fn shipment_text(
    out: &mut Output,
    app: &App,
    word: &[u8],
    store: u32,
    region: u32,
    version: u64,
    part: Option<u32>,
) -> Result<(), NoMemory>
    ensures { OnOk result (out.new ≡ out.old ++ word.now
        ++ shipment_text app.now store region version part) }
{
    let mut digits = Buffer::new();
    out.put_all(&[
        word,
        store_name(app, store as usize),
        b" ",
        region_name(app, region),
        b" ",
        digits.format(version).as_bytes(),
    ])?;
    part_text(out, part)
}

// Writes a word, a service and the number of a delivery or a message.
fn delivery_text(
    out: &mut Output,
    app: &App,
    word: &[u8],
    service: u32,
    number: u32,
) -> Result<(), NoMemory>
    ensures { OnOk result (out.new ≡ out.old ++ word.now
        ++ service_name app.now service ++ codes " " ++ decimal number) }
{
    let mut digits = Buffer::new();
    out.put_all(&[
        word,
        service_name(app, service as usize),
        b" ",
        digits.format(number).as_bytes(),
    ])
}

// Writes a word, a subscription and a version.
fn message_text(
    out: &mut Output,
    app: &App,
    word: &[u8],
    sub: u32,
    version: u64,
) -> Result<(), NoMemory>
    ensures { OnOk result (out.new ≡ out.old ++ word.now
        ++ sub_name app.now sub ++ codes " " ++ decimal version) }
{
    let mut digits = Buffer::new();
    out.put_all(&[
        word,
        sub_name(app, sub as usize),
        b" ",
        digits.format(version).as_bytes(),
    ])
}

// Writes the choice to go on with a process, by the place of its birth.
fn go_text(out: &mut Output, app: &App, object: u32, place: u32) -> Result<(), NoMemory>
    ensures { OnOk result (out.new ≡ out.old ++ codes "go " ++ mark_text app.now object place) }
{
    out.put(b"go ")?;
    mark_text(out, app, object, place)
}

/// Writes a choice in its own words.
pub fn choice_text(out: &mut Output, app: &App, choice: &Choice) -> Result<(), NoMemory>
    ensures { OnOk result (out.new ≡ out.old ++ choice_text app.now choice.now) }
{
    match choice {
        Choice::Take { service, nth } => delivery_text(out, app, b"take ", *service, *nth),
        Choice::Repost { service, number } => {
            delivery_text(out, app, b"repost ", *service, *number)
        }
        Choice::Pull { sub } => { out.put_all(&[b"pull ", sub_name(app, *sub as usize)]) }
        Choice::Repull { sub, version } => message_text(out, app, b"repull ", *sub, *version),
        Choice::Ship {
            store,
            region,
            version,
            part,
        } => shipment_text(out, app, b"ship ", *store, *region, *version, *part),
        Choice::Again {
            store,
            region,
            version,
            part,
        } => shipment_text(out, app, b"again ", *store, *region, *version, *part),
        Choice::Go { object, place } => go_text(out, app, *object, *place),
        Choice::Finish => out.put(b"finish"),
    }
}

// Writes the choice with a number, counted from 1.
pub fn choice_numbered(out: &mut Output, app: &App, number: u32) -> Result<(), NoMemory>
    ensures { OnOk result (out.new ≡ out.old ++ choice_numbered app.now number) }
{
    match app
        .choices
        .as_slice()
        .get((number as usize).saturating_sub(1))
    {
        Some(choice) => choice_text(out, app, choice),
        None => Ok(()),
    }
}

/// Writes the line of a choice that made no entry, by its number.
pub fn wait_line(out: &mut Output, app: &App, number: u32) -> Result<(), NoMemory>
    ensures { OnOk result (out.new ≡ out.old ++ wait_line app.now number) }
{
    let mut digits = Buffer::new();
    out.put_all(&[b"wait ", digits.format(number).as_bytes(), b" "])?;
    choice_numbered(out, app, number)?;
    out.put(b"\n")
}
