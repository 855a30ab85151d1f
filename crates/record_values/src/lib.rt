// An event's kind and its values.
#![tactic(auto)]

ghost use Rattle.std.specs.Prelude.{◌≡◌, [], ◌∷◌, ◌≤◌, length};
ghost use Rattle.constants.specs.Answer.{gives};
ghost use Rattle.constants.specs.Kind.{code_of};
ghost use Rattle.records.specs.Record.{no_counts};
ghost use Rattle.events.specs.declared.Event.TheVariants.{OnBus};
ghost use Rattle.writer.specs.Write.{kind_for};
ghost use Rattle.record_values.specs.Values.{values_for, setup_values, count_values};
ghost use Rattle.record_values.specs.Named.{laid, named, Names};

use constants::kind::Kind;
use constants::{answer, size};
use events::{BusEvent, Counts, Event, Setup};

// SETUP's values: part, CRC, address, gain code, offset and floor.
const SETUP_VALUES: usize = 6;

// The kind of an event's record.
fn kind_of(event: Event) -> Kind
    ensures { code_of result ≡ kind_for event }
{
    match event {
        Event::Setup(_) => Kind::Setup,
        Event::Por => Kind::Por,
        Event::Boot => Kind::Boot,
        Event::Scan => Kind::Scan,
        Event::Temp => Kind::Temp,
        Event::Count(_) => Kind::Count,
        Event::Sense(_) => Kind::Sense,
        Event::Pin => Kind::Pin,
        Event::Load(_) => Kind::Load,
        Event::Xready => Kind::Xready,
        Event::OnBus(BusEvent::Start) => Kind::Start,
        Event::OnBus(BusEvent::Out(_)) => Kind::Out,
        Event::OnBus(BusEvent::In(_)) => Kind::In,
        Event::OnBus(BusEvent::Stop) => Kind::Stop,
        Event::Level(_) => Kind::Level,
        Event::Ticks(_, _) => Kind::Ticks,
        Event::Soak(_, _) => Kind::Soak,
        Event::Wires(_) => Kind::Wiring,
    }
}

fn bus_many(event: BusEvent) -> usize
    ensures { (result ≡ length (values_for (OnBus event) no_counts)) × (result ≤ 15) }
{
    match event {
        BusEvent::Out(_) | BusEvent::In(_) => 1,
        _ => 0,
    }
}

// How many counts there are: at most 15.
fn counts_many(counts: Counts) -> usize
    ensures { (result ≡ length (count_values counts)) × (result ≤ 15) }
{
    usize::from(counts.many).min(size::INPUTS)
}

// How many values an event has.
fn many_of(event: Event, counts: Counts) -> usize
    ensures { (result ≡ length (values_for event counts)) × (result ≤ 15) }
{
    match event {
        Event::Setup(_) => SETUP_VALUES,
        Event::Scan | Event::Temp => counts_many(counts),
        Event::Ticks(_, _) | Event::Soak(_, _) => 2,
        Event::OnBus(bus) => bus_many(bus),
        Event::Count(_) | Event::Sense(_) | Event::Load(_) | Event::Level(_) | Event::Wires(_) => 1,
        _ => 0,
    }
}

fn put_two(out: &mut [i64], v: i64, w: i64)
    requires { 2 ≤ length out.old }
    ensures { out.new ≡ laid (v ∷ w ∷ []) out.old }
{
    out[0] = v;
    out[1] = w;
}

fn put_setup(out: &mut [i64], setup: Setup)
    requires { 6 ≤ length out.old }
    ensures { out.new ≡ laid (setup_values setup) out.old }
{
    out[0] = i64::from(setup.part);
    out[1] = i64::from(setup.crc);
    out[2] = i64::from(setup.address);
    out[3] = i64::from(setup.gain_code);
    out[4] = i64::from(setup.offset);
    out[5] = i64::from(setup.floor);
}

fn put_counts(out: &mut [i64], counts: Counts)
    requires { length (count_values counts) ≤ length out.old }
    ensures { out.new ≡ laid (count_values counts) out.old }
{
    let n = counts_many(counts);
    let of = counts.of;
    for i in 0..n {
        out[i] = i64::from(of[i]);
    }
}

fn put_bus(out: &mut [i64], event: BusEvent)
    requires { length (values_for (OnBus event) no_counts) ≤ length out.old }
    ensures { out.new ≡ laid (values_for (OnBus event) no_counts) out.old }
{
    match event {
        BusEvent::Out(b) => out[0] = i64::from(b),
        BusEvent::In(t) => out[0] = i64::from(t),
        _ => {}
    }
}

// The values of an event, from the start of a buffer that has room for them.
fn put_values(out: &mut [i64], event: Event, counts: Counts)
    requires { length (values_for event counts) ≤ length out.old }
    ensures { out.new ≡ laid (values_for event counts) out.old }
{
    match event {
        Event::Setup(setup) => put_setup(out, setup),
        Event::Scan | Event::Temp => put_counts(out, counts),
        Event::Count(n) => out[0] = i64::from(n),
        Event::Sense(v) => out[0] = i64::from(v),
        Event::Load(t) => out[0] = i64::from(t),
        Event::OnBus(bus) => put_bus(out, bus),
        Event::Level(t) => out[0] = i64::from(t),
        Event::Ticks(v, n) => put_two(out, i64::from(v), i64::from(n)),
        Event::Soak(v, n) => put_two(out, i64::from(v), i64::from(n)),
        Event::Wires(n) => out[0] = i64::from(n),
        _ => {}
    }
}

// An event's kind and its values, where there is room for these.
pub fn put_named(event: Event, counts: Counts, kind: &mut u32, values: &mut [i64]) -> i64
    ensures { Names (gives (named event counts)) kind.old values.old result kind.new values.new }
{
    let n = many_of(event, counts);
    if values.len() < n {
        return answer::NO_ROOM;
    }
    *kind = u32::from(kind_of(event).code());
    put_values(values, event, counts);
    n as i64
}
