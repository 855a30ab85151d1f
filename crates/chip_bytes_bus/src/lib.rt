// START, OUT, IN and STOP done in the bytes of a kept chip.
#![tactic(auto)]

ghost use Rattle.std.specs.Prelude.{◌≡◌};
ghost use Rattle.events.specs.Event.{OnBus};
ghost use Rattle.chip.specs.Chip.{taken_by};
ghost use Rattle.chip.specs.Answer.{as_heard};
ghost use Rattle.chip.specs.Parts.{heard_of};
ghost use Rattle.chip_bytes_layout.specs.Layout.{chip_at};
ghost use Rattle.chip_bytes_layout.specs.Did.{DidBy};
ghost use Rattle.chip_bytes_bus.specs.Heard.{bus_in, KeptBy};

use bus::{Bus, Taken, Write};
use chip::Heard;
use chip_bytes_layout::{ChipBytes, Outcome, awake_at, place};
use chip_bytes_read::{bus_at, setup_at, shown_at};
use chip_bytes_write::{first_of, second_of, tag_of};
use events::BusEvent;

mod pair;
mod store;

use pair::pair_at;

// What the bus gives, once it is told the register that it asks for.
fn taken_at(b: &ChipBytes, nack: bool) -> Taken
    ensures { result ≡ taken_by nack (chip_at b.now) }
{
    let bus = bus_at(b);
    let setup = setup_at(b);
    match bus.wants() {
        Some(at) => {
            let pair = pair_at(b, setup, at);
            bus.take(setup, pair.here, pair.low, nack)
        }
        None => bus.take(setup, 0, 0, nack),
    }
}

// What an event does to the bus, before a store.
fn heard_at(b: &ChipBytes, event: BusEvent) -> Heard
    ensures { as_heard result ≡ heard_of event (chip_at b.now) }
{
    let bus = bus_at(b);
    match event {
        BusEvent::Start => chip::unheard(bus.line.start(), bus),
        BusEvent::Out(byte) => chip::sent(bus.line.out(setup_at(b), byte), bus),
        BusEvent::In(nack) => chip::handed(taken_at(b, nack)),
        BusEvent::Stop => chip::unheard(bus.line.stop(), bus),
    }
}

// The bus, and no wiring record any more.
fn put_bus(out: &mut ChipBytes, bus: Bus)
    ensures { out.new ≡ bus_in bus out.old }
{
    let Bus { line, owed } = bus;
    out[place::FRESH] = 0;
    out[place::POINTER] = line.pointer;
    out[place::SUM] = owed.sum;
    out[place::LOW] = owed.low;
    out[place::PHASE] = tag_of(line.phase);
    out[place::FIRST] = first_of(line.phase);
    out[place::SECOND] = second_of(line.phase);
}

// The store that an event asks for; false, and nothing is changed, where `store` leaves it.
fn put_store(out: &mut ChipBytes, store: Option<Write>) -> bool
    ensures { KeptBy store out.old result out.new }
{
    match store {
        Some(Write { at, value }) => store::put(out, at, value),
        None => true,
    }
}

// An event of the bus: in NORMAL the bus, and what it stores, are all that it moves.
pub fn heard(bytes: &mut [u8], event: BusEvent) -> Option<Outcome>
    ensures { DidBy bytes.old (OnBus event) result bytes.new }
{
    let b = bytes.first_chunk_mut()?;
    if !awake_at(b) {
        return None;
    }
    let heard = heard_at(b, event);
    if !put_store(b, heard.store) {
        return None;
    }
    put_bus(b, heard.bus);
    Some(Outcome {
        byte: heard.byte,
        shown: shown_at(b),
    })
}
