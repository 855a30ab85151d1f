// The line that `play` prints for a record, put into a lent buffer as far as it reaches; std's Display would need a writer, and stop at the buffer's end.
#![tactic(auto)]

ghost use Rattle.std.specs.Prelude.{◌≡◌, ◌+◌, ◌<◌, [], ◌∷◌};
ghost use Rattle.play_line.specs.Line.{leading, decimal, hex_glyph, hex_byte, kind_text, bus_text, pins_text, record_text, answer_text, state_text, line_of};
ghost use Rattle.play_line.specs.Put.{too_long, Puts, Written};

use constants::{answer, weight};
use turn::Entry;

// What the glyph of a hex digit from ten on has above its value.
const LETTERS: u8 = 55;

// How many bytes the line for an input that is too long has.
const TOO_LONG: usize = 9;

// A byte at a place, where the buffer reaches it. Each `put_..` answers the place after what it put: a variable is named for what comes there.
fn put(out: &mut [u8], at: usize, b: u8) -> usize
    requires { at < 5000000000 }
    ensures { Puts 1 (b ∷ []) at out.old result out.new }
{
    if out.len() <= at {
        return at + 1;
    }
    out[at] = b;
    at + 1
}

fn hex_glyph(d: u8) -> u8
    requires { d < 16 }
    ensures { result ≡ hex_glyph d }
{
    if d < 10 { b'0' + d } else { LETTERS + d }
}

// Two bytes, one after the other.
fn put_two(out: &mut [u8], at: usize, p: u8, q: u8) -> usize
    requires { at < 4950000000 }
    ensures { Puts 2 (p ∷ q ∷ []) at out.old result out.new }
{
    let next = put(out, at, p);
    put(out, next, q)
}

fn put_hex(out: &mut [u8], at: usize, b: u8) -> usize
    requires { at < 4900000000 }
    ensures { Puts 2 (hex_byte b) at out.old result out.new }
{
    put_two(out, at, hex_glyph(b / 16), hex_glyph(b % 16))
}

// The digit at a power of ten, where the number reaches it.
fn put_leading(out: &mut [u8], at: usize, n: usize, power: usize) -> usize
    requires at_bound { at < 4900000000 }
    requires power_nonzero { 0 < power }
    ensures { Puts 1 (leading n power) at out.old result out.new }
{
    if n < power {
        return at;
    }
    put(out, at, b'0' + (n / power % 10) as u8)
}

fn put_decimal(out: &mut [u8], at: usize, n: usize) -> usize
    requires { at < 4800000000 }
    ensures { Puts 5 (decimal n) at out.old result out.new }
{
    let thousands = put_leading(out, at, n, 10000);
    let hundreds = put_leading(out, thousands, n, 1000);
    let tens = put_leading(out, hundreds, n, 100);
    let ones = put_leading(out, tens, n, 10);
    put(out, ones, b'0' + (n % 10) as u8)
}

// The kind of the record that the rest begins with.
fn put_kind(out: &mut [u8], at: usize, rest: &[u8]) -> usize
    requires { at < 4800000000 }
    ensures { Puts 4 (kind_text rest.now) at out.old result out.new }
{
    match rest {
        [_, _, low, high, ..] => {
            let half = put_hex(out, at, *high);
            put_hex(out, half, *low)
        }
        _ => put_four(out, at, b'-', b'-', b'-', b'-'),
    }
}

fn put_bus(out: &mut [u8], at: usize, flag: u8, byte: u8) -> usize
    requires { at < 4800000000 }
    ensures { Puts 2 (bus_text flag byte) at out.old result out.new }
{
    if flag == 1 {
        return put_hex(out, at, byte);
    }
    put_two(out, at, b'-', b'-')
}

fn put_pins(out: &mut [u8], at: usize, pins: u8) -> usize
    requires { at < 4800000000 }
    ensures { Puts 3 (pins_text pins) at out.old result out.new }
{
    let alert = b'0' + pins / weight::PIN_ALERT % 2;
    let charge = b'0' + pins / weight::PIN_CHG % 2;
    let discharge = put_two(out, at, alert, charge);
    put(out, discharge, b'0' + pins % 2)
}

// The record number and the kind, each with a space after it.
fn put_record(out: &mut [u8], at: usize, n: usize, rest: &[u8]) -> usize
    requires { at < 4600000000 }
    ensures { Puts 11 (record_text n rest.now) at out.old result out.new }
{
    let gap = put_decimal(out, at, n);
    let kind = put(out, gap, b' ');
    let end = put_kind(out, kind, rest);
    put(out, end, b' ')
}

// The number and the bus answer, each with a space after it.
fn put_answer(out: &mut [u8], at: usize, e: Entry) -> usize
    requires { at < 4600000000 }
    ensures { Puts 9 (answer_text e) at out.old result out.new }
{
    let gap = put_decimal(out, at, usize::from(e.number));
    let bus = put(out, gap, b' ');
    let end = put_bus(out, bus, e.flag, e.byte);
    put(out, end, b' ')
}

// SYS_STAT and the pins, with the line's end after them.
fn put_state(out: &mut [u8], at: usize, e: Entry) -> usize
    requires { at < 4600000000 }
    ensures { Puts 7 (state_text e) at out.old result out.new }
{
    let gap = put_hex(out, at, e.stat);
    let pins = put(out, gap, b' ');
    let end = put_pins(out, pins, e.pins);
    put(out, end, b'\n')
}

// The line of the record that the rest begins with.
pub fn put_line(out: &mut [u8], at: u32, n: usize, rest: &[u8], e: Entry) -> usize
    ensures { Puts 27 (line_of n rest.now e) at out.old result out.new }
{
    let answer = put_record(out, at as usize, n, rest);
    let state = put_answer(out, answer, e);
    put_state(out, state, e)
}

fn put_four(out: &mut [u8], at: usize, p: u8, q: u8, r: u8, s: u8) -> usize
    requires { at < 4900000000 }
    ensures { Puts 4 (p ∷ q ∷ r ∷ s ∷ []) at out.old result out.new }
{
    let half = put_two(out, at, p, q);
    put_two(out, half, r, s)
}

// The one line for an input that has too many bytes, where it fits.
pub fn write_too_long(out: &mut [u8]) -> i64
    ensures { Written too_long out.old result out.new }
{
    if out.len() < TOO_LONG {
        return answer::NO_ROOM;
    }
    let word = put_four(out, 0, b't', b'o', b'o', b' ');
    let end = put_four(out, word, b'l', b'o', b'n', b'g');
    put(out, end, b'\n') as i64
}
