// Command lists of `i2ctransfer`, turned into records: judged whole, then written.
#![tactic(auto)]

ghost use Rattle.std.specs.Prelude.{◌≡◌, ◌+◌, ◌-◌, ◌≤◌, ◌<◌, ◌^◌, not, true, [], ◌∷◌, ◌++◌, length, drop};
ghost use Rattle.events.specs.declared.BusEvent.TheVariants.{Start, Out, Stop};
ghost use Rattle.ranges.specs.Refusal.{refused_number};
ghost use Rattle.i2c_lists.specs.Reader.{word_length, words_at, list_in};
ghost use Rattle.i2c_lists.specs.Judging.{fresh, begun, followed, judged_by, judged_all, number_in};
ghost use Rattle.i2c_lists.specs.Records.{near, taken, records_of, number_for, Taken};
ghost use Rattle.i2c_lists.specs.WordingLaws.{on_word, on_words, near_word};
ghost use Rattle.i2c_lists.specs.Putting.{Puts};

use constants::refusal::Refusal;
use constants::{range, size};
use events::{BusEvent, Counts, Event};
use i2c_words::Word;

// The records of a byte, OUT or IN; and of the beginning of a message, START and OUT.
const BYTE: usize = size::HEADER + 1;

const BEGINNING: usize = size::HEADER + BYTE;

// What the words so far leave: the bytes still owed to their message, whether they begin no list, whether an address is out of
// range, and the room that is left, with one byte more.
#[derive(Clone, Copy, Debug, PartialEq, Eq)]
struct Judged {
    owed: u8,
    wrong: bool,
    far: bool,
    left: usize,
}

// Whether an address is outside its range.
fn away(address: u8) -> bool
    ensures { result ≡ not (near address) }
{
    !(range::ADDRESS_LEAST..=range::ADDRESS_MOST).contains(&address)
}

// A message begins: no byte may be owed.
fn begin(j: Judged, owed: u8, address: u8, size: usize) -> Judged
    ensures { result ≡ begun owed address size j }
{
    Judged {
        owed,
        wrong: j.wrong || j.owed != 0,
        far: j.far || away(address),
        left: j.left.saturating_sub(size),
    }
}

// A byte follows: one must be owed.
#[tactic(auto, unfolding(crate::specs::Judging::followed))]
fn follow(j: Judged) -> Judged
    ensures { result ≡ followed j }
{
    let left = j.left.saturating_sub(BYTE);
    if j.owed == 0 {
        return Judged {
            wrong: true,
            left,
            ..j
        };
    }
    Judged {
        owed: j.owed - 1,
        left,
        ..j
    }
}

// One word more. START has 4 bytes, OUT and IN have 5.
fn judge_word(j: Judged, word: Word) -> Judged
    ensures { result ≡ judged_by word j }
{
    match word {
        Word::Write(count, address) => begin(j, count, address, BEGINNING),
        Word::Read(count, address) => begin(j, 0, address, BEGINNING + BYTE * usize::from(count)),
        Word::Byte(_) => follow(j),
        Word::Unknown => Judged { wrong: true, ..j },
    }
}

// What all the words come to. STOP has 4 bytes.
#[tactic(auto, unfolding(crate::specs::Judging::number_in))]
fn verdict(j: Judged) -> Result<(), Refusal>
    ensures { refused_number result ≡ number_in j }
{
    if j.wrong || j.owed != 0 {
        return Err(Refusal::NoList);
    }
    if j.far {
        return Err(Refusal::BadAddress);
    }
    if j.left <= size::HEADER {
        return Err(Refusal::NoRoom);
    }
    Ok(())
}

// Where the word that begins at a place ends: at the next space, or at the line's end.
fn end_of(line: &[u8], at: usize) -> usize
    requires { at ≤ length line.now }
    ensures { result ≡ at + word_length (drop at line.now) }
{
    match line[at..].iter().position(|b| *b == b' ') {
        Some(n) => at + n,
        None => line.len(),
    }
}

// What all the words of a line leave.
fn judge_all(line: &[u8], room: usize) -> Judged
    requires { room < 2 ^ 63 }
    ensures { result ≡ judged_all (words_at line.now 0) (fresh room) }
{
    let mut j = Judged {
        owed: 0,
        wrong: false,
        far: false,
        left: room + 1,
    };
    let mut at = 0;
    while at <= line.len() {
        let end = end_of(line, at);
        j = judge_word(j, i2c_words::word_of(&line[at..end]));
        at = end + 1;
    }
    j
}

// Whether a line is a list whose records fit into so much room.
fn judge(line: &[u8], room: usize) -> Result<(), Refusal>
    requires { room < 2 ^ 63 }
    ensures { refused_number result ≡ number_for (list_in line.now) room }
{
    verdict(judge_all(line, room))
}

// An event's record at a place that has room for it. Each of these answers the place after what it put.
fn put(out: &mut [u8], at: usize, event: BusEvent) -> usize
    requires { at + length (records_of (event ∷ [])) ≤ length out.old }
    ensures { Puts (event ∷ []) at out.old result out.new }
{
    match writer::write_record(Event::OnBus(event), Counts::default(), 1, &mut out[at..]) {
        Ok(n) => at + n,
        Err(_) => at,
    }
}

// START and the address byte.
fn put_start(out: &mut [u8], at: usize, byte: u8) -> usize
    requires { at + length (records_of (Start ∷ Out byte ∷ [])) ≤ length out.old }
    ensures { Puts (Start ∷ Out byte ∷ []) at out.old result out.new }
{
    let next = put(out, at, BusEvent::Start);
    put(out, next, BusEvent::Out(byte))
}

// The bytes of a read: each is acknowledged but the last.
fn put_taken(out: &mut [u8], at: usize, n: u8) -> usize
    requires { at + length (records_of (taken n)) ≤ length out.old }
    ensures { Puts (taken n) at out.old result out.new }
{
    let mut next = at;
    let mut left = n;
    while 0 < left {
        left = left - 1;
        next = put(out, next, BusEvent::In(left == 0));
    }
    next
}

// The events of a word.
fn put_word(out: &mut [u8], at: usize, word: Word) -> usize
    requires word_in_bounds { at + length (records_of (on_word word)) ≤ length out.old }
    requires word_value { near_word word ≡ true }
    ensures { Puts (on_word word) at out.old result out.new }
{
    match word {
        Word::Write(_, address) => put_start(out, at, 2 * address),
        Word::Read(count, address) => {
            let next = put_start(out, at, 2 * address + 1);
            put_taken(out, next, count)
        }
        Word::Byte(byte) => put(out, at, BusEvent::Out(byte)),
        Word::Unknown => at,
    }
}

// The events of all the words, and STOP.
fn put_list(line: &[u8], out: &mut [u8]) -> usize
    requires { number_for (list_in line.now) (length out.old) ≡ 0 }
    ensures { Puts (on_words (words_at line.now 0) ++ (Stop ∷ [])) 0 out.old result out.new }
{
    let mut next = 0;
    let mut at = 0;
    while at <= line.len() {
        let end = end_of(line, at);
        next = put_word(out, next, i2c_words::word_of(&line[at..end]));
        at = end + 1;
    }
    put(out, next, BusEvent::Stop)
}

// Turns a list, one line without its end, into records at the start of the buffer. Answers how many bytes these are; or, with no byte
// written, -20 (not a list), -21 (an address outside 0x08 to 0x77) or -5 (too little room), in this order.
#[unsafe(no_mangle)]
pub extern "C" fn toralinge_list(line: &[u8], out: &mut [u8]) -> i64
    ensures { Taken line.now out.old result out.new }
{
    match judge(line, out.len()) {
        Ok(()) => put_list(line, out) as i64,
        Err(why) => -i64::from(why.number()),
    }
}
