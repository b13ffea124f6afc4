// SCI3 for programs in other languages: the state of a port and its clock in a lent array of numbers, the direct calls on it, the player of scripts, and the nearest bit rate. Rattle crates call
// these functions, and so does crate capi_c, the static library by which C calls them.
#![tactic(auto)]

ghost use Rattle.std.specs.Prelude.{◌≡◌, true, cond, ◌+◌, ◌≤◌, ◌++◌, eqb, length, take, OnSome};
ghost use Rattle.capi.specs.Exports.{lent, calling, call_left, cause_of, call, pins_number, pins_answer, interrupt_answer, fresh_state, playing, played, rating, rated};
ghost use Rattle.capi.specs.State.{tag, number_list, format_list, tx_tag, tx_character, tx_cell, tx_loaded, tx_list, position_number, rx_list, register_list, power_list, line_list, port_list, baud_list, encode, format_max, character_max, tx_max, word_max, rx_max, port_max, baud_max, state_max, fits, number_in, format_in, character_in, tx_of, tx_in, position_of, word_in, rx_in, port_of, port_in, baud_in, sci_in, decode};
ghost use Rattle.player.specs.Play.{end_number};
ghost use Rattle.sci.specs.Calls.{answered};

use command::Kind;
use frame::Format;
use pins::Pins;
use player::{Reason, Refused};
use port::{Outcome, Port};
use sci::{Baud, Refusal, Sci, Tested};
use script::Fault;
use shift::{Character, Rx, Tx};

// How many numbers a state has, and the greatest that C may give for each.
pub const STATE: usize = 56;

const MAXIMA: [u64; STATE] = [
    255,
    255,
    255,
    255,
    255,
    255,
    255,
    255,
    255,
    255,
    1,
    1,
    1,
    1,
    4294967295,
    1,
    1,
    1,
    255,
    5,
    1,
    255,
    1,
    1,
    255,
    4294967295,
    65535,
    255,
    1,
    4294967295,
    1,
    1,
    1,
    255,
    1,
    1,
    255,
    4294967295,
    255,
    255,
    1,
    255,
    1,
    4294967295,
    1,
    4294967295,
    1,
    1,
    1,
    1,
    4294967295,
    18446744073709551615,
    18446744073709551615,
    65535,
    18446744073709551615,
    18446744073709551615,
];

// ---- the state as numbers
// Whether there is a value.
fn tag<T: Copy>(x: Option<T>) -> u64
    ensures { result ≡ tag x }
{
    u64::from(x.is_some())
}

// A number, if there is one: a due half, or the held byte.
fn number_words(x: Option<u64>) -> [u64; 2]
    ensures { result ≡ number_list x }
{
    [tag(x), x.unwrap_or(0)]
}

fn format_words(f: Format) -> [u64; 6]
    ensures { result ≡ format_list f }
{
    [
        u64::from(f.synchronous),
        u64::from(f.data),
        u64::from(f.parity),
        u64::from(f.odd),
        u64::from(f.stops),
        u64::from(f.half_bit),
    ]
}

// What stands where there is none: its numbers are 0.
const NO_FORMAT: Format = Format {
    synchronous: false,
    data: 0,
    parity: false,
    odd: false,
    stops: 0,
    half_bit: 0,
};

const NO_CHARACTER: Character = Character {
    format: NO_FORMAT,
    word: 0,
};

const NO_RX: Rx = Rx {
    format: NO_FORMAT,
    value: 0,
    position: -128,
    parity: false,
    error: 0,
    next: None,
};

// What a sender's numbers for C are made of, beside its due half.
#[derive(Clone, Copy, Debug, PartialEq, Eq)]
struct Sender {
    tag: u64,
    character: Character,
    cell: u64,
    loaded: u64,
}

fn sender_of(tx: Tx) -> Sender
    ensures tag { result.tag ≡ tx_tag tx }
    ensures character { result.character ≡ tx_character tx }
    ensures cell { result.cell ≡ tx_cell tx }
    ensures loaded { result.loaded ≡ tx_loaded tx }
{
    let off = Sender {
        tag: 0,
        character: NO_CHARACTER,
        cell: 0,
        loaded: 0,
    };
    match tx {
        Tx::Off => off,
        Tx::Blocked { character } => Sender {
            tag: 1,
            character,
            ..off
        },
        Tx::Mark { .. } => Sender { tag: 2, ..off },
        Tx::Start { character, .. } => Sender {
            tag: 3,
            character,
            ..off
        },
        Tx::Data {
            character,
            cell,
            ..
        } => Sender {
            tag: 4,
            character,
            cell: u64::from(cell),
            ..off
        },
        Tx::Tail { loaded, .. } => Sender {
            tag: 5,
            character: loaded.unwrap_or(NO_CHARACTER),
            loaded: tag(loaded),
            ..off
        },
    }
}

fn tx_words(tx: Tx) -> [u64; 12]
    ensures { result ≡ tx_list tx }
{
    let sender = sender_of(tx);
    let format = format_words(sender.character.format);
    let due = number_words(tx.next().map(|n| u64::from(n)));
    [
        sender.tag,
        format[0],
        format[1],
        format[2],
        format[3],
        format[4],
        format[5],
        u64::from(sender.character.word),
        sender.cell,
        due[0],
        due[1],
        sender.loaded,
    ]
}

// The number that C is told: itself plus 128. No `From` can be written between two of the language's own types.
fn position_number(position: i8) -> u64
    ensures { result ≡ position_number position }
{
    (i64::from(position) + 128) as u64
}

fn rx_words(x: Option<Rx>) -> [u64; 13]
    ensures { result ≡ rx_list x }
{
    let rx = x.unwrap_or(NO_RX);
    let format = format_words(rx.format);
    let due = number_words(rx.next.map(|n| u64::from(n)));
    [
        tag(x),
        format[0],
        format[1],
        format[2],
        format[3],
        format[4],
        format[5],
        u64::from(rx.value),
        position_number(rx.position),
        u64::from(rx.parity),
        u64::from(rx.error),
        due[0],
        due[1],
    ]
}

fn register_words(p: Port) -> [u64; 10]
    ensures { result ≡ register_list p }
{
    [
        u64::from(p.spcr),
        u64::from(p.smr),
        u64::from(p.brr),
        u64::from(p.scr),
        u64::from(p.tdr),
        u64::from(p.ssr),
        u64::from(p.rdr),
        u64::from(p.semr),
        u64::from(p.ircr),
        u64::from(p.seen),
    ]
}

fn power_words(p: Port) -> [u64; 7]
    ensures { result ≡ power_list p }
{
    [
        u64::from(p.module),
        u64::from(p.main),
        u64::from(p.sub),
        u64::from(p.reset_mode),
        u64::from(p.half),
        u64::from(p.high),
        u64::from(p.edge),
    ]
}

fn line_words(p: Port) -> [u64; 9]
    ensures { result ≡ line_list p }
{
    let due = number_words(p.sync_next.map(|n| u64::from(n)));
    [
        u64::from(p.uart),
        u64::from(p.bit_start),
        u64::from(p.input),
        u64::from(p.input_clock),
        u64::from(p.sck),
        due[0],
        due[1],
        p.transmitted,
        p.received,
    ]
}

fn baud_words(b: Baud) -> [u64; 3]
    ensures { result ≡ baud_list b }
{
    [u64::from(b.remaining), b.system, b.watch]
}

// ---- numbers as a state
// Each of these reads a part of the array, whose numbers fit the places of that part: as a type that would be one for each part. A part of a slice is a
// slice; as an array its length would be tested where the test cannot fail.
// A number, if there is one. Callers narrow it: the place that they read it from says how large it may be.
#[tactic(auto, unfolding(crate::specs::State::number_in))]
fn number_in(s: &[u64]) -> Option<u64>
    requires sized { length s.now ≡ 2 }
    ensures { result ≡ number_in s.now }
{
    (s[0] != 0).then_some(s[1])
}

#[tactic(auto, using(crate::proofs::Fits::placed), unfolding(crate::specs::State::format_in))]
fn format_in(s: &[u64]) -> Format
    requires sized { length s.now ≡ 6 }
    requires fits { fits format_max s.now ≡ true }
    ensures { result ≡ format_in s.now }
{
    Format {
        synchronous: s[0] != 0,
        data: s[1] as u8,
        parity: s[2] != 0,
        odd: s[3] != 0,
        stops: s[4] as u8,
        half_bit: s[5] as u32,
    }
}

#[tactic(auto, using(crate::proofs::Fits::placed), unfolding(crate::specs::State::character_in))]
fn character_in(s: &[u64]) -> Character
    requires sized { length s.now ≡ 7 }
    requires fits { fits character_max s.now ≡ true }
    ensures { result ≡ character_in s.now }
{
    let format = format_in(&s[0..6]);
    Character {
        format,
        word: s[6] as u16,
    }
}

// The variant that a number names, with what it holds. The flag and the half are numbers of the array, read before the variant is known.
#[tactic(auto, unfolding(crate::specs::State::tx_of, crate::specs::State::tail_of))]
fn tx_of(tag: u64, character: Character, cell: u8, next: Option<u32>, half: u32, loaded: bool) -> Tx
    ensures { result ≡ tx_of tag character cell next half loaded }
{
    match tag {
        0 => Tx::Off,
        1 => Tx::Blocked { character },
        2 => Tx::Mark { next: half },
        3 => Tx::Start {
            character,
            next: half,
        },
        4 => Tx::Data {
            character,
            cell,
            next,
        },
        _ => Tx::Tail {
            loaded: loaded.then_some(character),
            next,
        },
    }
}

#[tactic(auto, using(crate::proofs::Fits::placed), unfolding(crate::specs::State::tx_in))]
fn tx_in(s: &[u64]) -> Tx
    requires sized { length s.now ≡ 12 }
    requires fits { fits tx_max s.now ≡ true }
    ensures { result ≡ tx_in s.now }
{
    let character = character_in(&s[1..8]);
    let next = number_in(&s[9..11]).map(|n| n as u32);
    tx_of(s[0], character, s[8] as u8, next, s[10] as u32, s[11] != 0)
}

// From the number that C gives, which is 128 more.
#[tactic(auto, unfolding(crate::specs::State::position_of))]
fn position_of(n: u64) -> i8
    requires { n ≤ 255 }
    ensures { result ≡ position_of n }
{
    (n as i64 - 128) as i8
}

#[tactic(auto, using(crate::proofs::Fits::placed), unfolding(crate::specs::State::word_in))]
fn word_in(s: &[u64]) -> Rx
    requires sized { length s.now ≡ 12 }
    requires fits { fits word_max s.now ≡ true }
    ensures { result ≡ word_in s.now }
{
    let format = format_in(&s[0..6]);
    let next = number_in(&s[10..12]).map(|n| n as u32);
    let position = position_of(s[7]);
    Rx {
        format,
        value: s[6] as u8,
        position,
        parity: s[8] != 0,
        error: s[9] as u8,
        next,
    }
}

#[tactic(auto, using(crate::proofs::Fits::placed), unfolding(crate::specs::State::rx_in))]
fn rx_in(s: &[u64]) -> Option<Rx>
    requires sized { length s.now ≡ 13 }
    requires fits { fits rx_max s.now ≡ true }
    ensures { result ≡ rx_in s.now }
{
    let word = &s[1..13];
    (s[0] != 0).then(|| word_in(word))
}

// The fields that are enums come with it.
#[tactic(auto, using(crate::proofs::Fits::placed), unfolding(crate::specs::State::port_of))]
fn port_of(s: &[u64], holding: Option<u8>, tx: Tx, rx: Option<Rx>, sync_next: Option<u32>) -> Port
    requires sized { length s.now ≡ 53 }
    requires fits { fits port_max s.now ≡ true }
    ensures { result ≡ port_of s.now holding tx rx sync_next }
{
    Port {
        spcr: s[0] as u8,
        smr: s[1] as u8,
        brr: s[2] as u8,
        scr: s[3] as u8,
        tdr: s[4] as u8,
        ssr: s[5] as u8,
        rdr: s[6] as u8,
        semr: s[7] as u8,
        ircr: s[8] as u8,
        seen: s[9] as u8,
        module: s[10] != 0,
        main: s[11] != 0,
        sub: s[12] != 0,
        reset_mode: s[13] != 0,
        half: s[14] as u32,
        high: s[15] != 0,
        edge: s[16] != 0,
        holding,
        tx,
        rx,
        uart: s[44] != 0,
        bit_start: s[45] as u32,
        input: s[46] != 0,
        input_clock: s[47] != 0,
        sck: s[48] != 0,
        sync_next,
        transmitted: s[51],
        received: s[52],
    }
}

#[tactic(auto, using(crate::proofs::Fits::placed), unfolding(crate::specs::State::port_in))]
fn port_in(s: &[u64]) -> Port
    requires sized { length s.now ≡ 53 }
    requires fits { fits port_max s.now ≡ true }
    ensures { result ≡ port_in s.now }
{
    let holding = number_in(&s[17..19]).map(|n| n as u8);
    let tx = tx_in(&s[19..31]);
    let rx = rx_in(&s[31..44]);
    let sync_next = number_in(&s[49..51]).map(|n| n as u32);
    port_of(s, holding, tx, rx, sync_next)
}

#[tactic(auto, using(crate::proofs::Fits::placed), unfolding(crate::specs::State::baud_in))]
fn baud_in(s: &[u64]) -> Baud
    requires sized { length s.now ≡ 3 }
    requires fits { fits baud_max s.now ≡ true }
    ensures { result ≡ baud_in s.now }
{
    Baud {
        remaining: s[0] as u16,
        system: s[1],
        watch: s[2],
    }
}

#[tactic(auto, using(crate::proofs::Fits::placed), unfolding(crate::specs::State::sci_in))]
fn sci_in(s: &[u64]) -> Sci
    requires sized { length s.now ≡ 56 }
    requires fits { fits state_max s.now ≡ true }
    ensures { result ≡ sci_in s.now }
{
    Sci {
        port: port_in(&s[0..53]),
        baud: baud_in(&s[53..56]),
    }
}

// ---- the lent array: C lends it, so that it is as long as a state is a clause and no type
// Whether it is a state: as many numbers as there are places, none above its place's greatest.
#[tactic(auto, using(crate::proofs::Fits::fits_short))]
fn is_state(s: &[u64]) -> bool
    ensures { result ≡ fits state_max s.now }
{
    s.len() == STATE && s.iter().zip(MAXIMA.iter()).all(|(n, most)| n <= most)
}

// The state in the array, if it is one.
#[tactic(auto, using(crate::proofs::Fits::fits_length), unfolding(crate::specs::State::decode))]
fn decode(s: &[u64]) -> Option<Sci>
    ensures value { result ≡ decode s.now }
    ensures sized { OnSome result (length s.now ≡ length state_max) }
{
    is_state(s).then(|| sci_in(s))
}

// Puts numbers at a place of the array, after those that stand before it. The array is C's, so the place is an offset into it.
fn put(s: &mut [u64], at: usize, numbers: &[u64])
    requires { at + length numbers.now ≤ length s.old }
    ensures { take (at + length numbers.now) s.new ≡ take at s.old ++ numbers.now }
{
    s[at..at + numbers.len()].copy_from_slice(numbers);
}

// Puts a port's numbers into the array, group by group: the first three groups, and then all.
fn store_first(s: &mut [u64], p: Port)
    requires { 19 ≤ length s.old }
    ensures { take 19 s.new ≡ register_list p ++ (power_list p ++ number_list p.holding) }
{
    put(s, 0, &register_words(p));
    put(s, 10, &power_words(p));
    put(s, 17, &number_words(p.holding.map(|b| u64::from(b))));
}

fn store_port(s: &mut [u64], p: Port)
    requires { 53 ≤ length s.old }
    ensures { take 53 s.new ≡ port_list p }
{
    store_first(s, p);
    put(s, 19, &tx_words(p.tx));
    put(s, 31, &rx_words(p.rx));
    put(s, 44, &line_words(p));
}

// Puts a state's numbers into the array.
fn store(s: &mut [u64], sci: Sci)
    requires { length s.old ≡ length state_max }
    ensures { s.new ≡ encode sci }
{
    store_port(s, sci.port);
    put(s, 53, &baud_words(sci.baud));
}

// ---- the functions that capi_c exports
// What the functions below answer a refusal by: above every byte.
const REFUSED: u64 = 256;

// A kind that is none of the table, and an array that is no state that passes the field test.
const UNKNOWN: u64 = REFUSED + Fault::Kind as u64;

const NO_STATE: u64 = REFUSED + port::Refusal::State as u64;

// The array after a call, and the call's cause and answer: C is told numbers.
fn call_left(s: &mut [u64], cause: &mut u64, sci: Sci, outcome: Result<Outcome, Refusal>) -> u64
    requires { length s.old ≡ length state_max }
    ensures { calling result cause.new s.new ≡ call_left s.old (cause_of outcome) (answered outcome sci) }
{
    match outcome {
        Ok(outcome) => {
            store(s, sci);
            *cause = u64::from(u8::from(outcome.cause));
            u64::from(outcome.value)
        }
        Err(refusal) => {
            *cause = 0;
            REFUSED + u64::from(u8::from(refusal))
        }
    }
}

// Makes the direct call of a kind on the state in the array, and tells its cause. C has no `Kind`: it gives a number. The state is changed in its place, so
// that it is not copied once more.
#[tactic(auto, unfolding(crate::specs::Exports::call))]
pub fn sci3_call(state: &mut [u64], kind: u32, a: u32, b: u32, cause: &mut u64) -> u64
    ensures { calling result cause.new state.new ≡ call kind a b state.old }
{
    *cause = 0;
    let Some(sci) = decode(state) else {
        return NO_STATE;
    };
    if !sci.valid() {
        return NO_STATE;
    }
    // In two pieces: a copy of the whole state would be a call of C's memcpy, and the archive needs no library.
    let mut tested = Tested {
        sci: Sci::default(),
    };
    tested.sci.port = sci.port;
    tested.sci.baud = sci.baud;
    let Ok(kind) = Kind::try_from(kind) else {
        return UNKNOWN;
    };
    let outcome = tested.call(kind.command(a, b));
    call_left(state, cause, tested.sci, outcome)
}

// C is told the pins as one number.
#[tactic(auto, unfolding(crate::specs::Exports::pins_number))]
fn pins_number(pins: Pins) -> u64
    ensures { result ≡ pins_number pins }
{
    let clock = pins.clock.map_or(0, |drive| drive as u64);
    let level = u64::from(pins::level_number(pins.transmit));
    clock + (4 * level + 16 * u64::from(pins.receive))
}

// The pins of the port in the array.
#[tactic(auto, unfolding(crate::specs::Exports::pins_answer))]
pub fn sci3_pins(state: &[u64]) -> u64
    ensures { result ≡ pins_answer state.now }
{
    decode(state).map_or(NO_STATE, |sci| pins_number(Pins::from(sci.port)))
}

// Whether the port in the array requests an interrupt.
#[tactic(auto, unfolding(crate::specs::Exports::interrupt_answer))]
pub fn sci3_interrupt(state: &[u64]) -> u64
    ensures { result ≡ interrupt_answer state.now }
{
    decode(state).map_or(NO_STATE, |sci| u64::from(pins::interrupt(sci.port)))
}

// Puts the state that every run begins with into the array.
#[tactic(auto, unfolding(crate::specs::Exports::fresh_state))]
pub fn sci3_fresh(state: &mut [u64]) -> u64
    ensures { lent result state.new ≡ fresh_state state.old }
{
    if state.len() != STATE {
        return NO_STATE;
    }
    store(state, Sci::default());
    0
}

// The array after a run; where the state failed the field test it is as it was.
fn put_state(s: &mut [u64], end: Result<(), Refused>, sci: Sci)
    requires { length s.old ≡ length state_max }
    ensures { s.new ≡ cond (eqb (end_number end) 8) s.old (encode sci) }
{
    if !matches!(
        end,
        Err(Refused {
            reason: Reason::Call(Refusal::OfPort(port::Refusal::State)),
            ..
        })
    ) {
        store(s, sci);
    }
}

// Plays a script on the state in the array. The answer is document 01's number, 0 where the script was accepted; told are the offset of the refused
// command's first byte, else 0, how many bytes of the log are written, and the run's length.
#[tactic(auto, unfolding(crate::specs::Exports::played))]
pub fn sci3_play(state: &mut [u64], script: &[u8], log: &mut [u8], told: &mut [u64; 3]) -> u64
    ensures { playing result told.new state.new log.new ≡ played state.old script.now log.old }
{
    let Some(sci) = decode(state) else {
        *told = [0, 0, 0];
        return port::Refusal::State as u64;
    };
    let run = player::play(sci, script, log);
    put_state(state, run.end, run.sci);
    *told = [
        player::end_offset(run.end) as u64,
        run.used as u64,
        run.length,
    ];
    u64::from(player::end_number(run.end))
}

// The setting whose bit rate is nearest to a wanted one: of a clock in Hz, a rate in bits a second and a tolerance in parts per ten thousand. The answer is
// document 02's number, 0 where there is one; told are then its bits of SMR, SEMR, BRR, and its error as numerator and denominator, the numerator's 64 bits as
// those of a number without a sign. After a refusal told are zeros.
#[tactic(auto, unfolding(crate::specs::Exports::rated))]
pub fn sci3_rate(clock: u64, rate: u64, tolerance: u64, told: &mut [u64; 5]) -> u64
    ensures { rating result told.new ≡ rated clock rate tolerance }
{
    match rates::nearest_rate(clock, rate, tolerance) {
        Ok(found) => {
            *told = [
                u64::from(u8::from(found.setting.select)),
                u64::from(found.setting.semr()),
                u64::from(found.setting.brr),
                found.error.numerator.cast_unsigned(),
                found.error.denominator,
            ];
            0
        }
        Err(refusal) => {
            *told = [0, 0, 0, 0, 0];
            u64::from(u8::from(refusal))
        }
    }
}
