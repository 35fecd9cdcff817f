// The pit's devices: the scale, on which a truck is weighed with its load, and the keypad of the cab, on which a driver types. What they raise, and when,
// comes from the dice.
use rules::{Device, Event, Pending, Port};
use table::{Answer, Thread};

// A truck with its load weighs at least so many kilograms, and less than so many more. What a key brings is below that, so it is not taken for a weight.
const LIGHTEST: u32 = 12000;

const RANGE: u32 = 28001;

const KEYS: u32 = 9;

// The indexes that the low word of a pending set has.
const LOW: u8 = 32;

const DEVICES: u8 = lines::DEVICES as u8;

// The scale is the first device of line 3.
pub fn scale() -> Device {
    Port::Device { line: 3, device: 0 }.index()
}

// The keypad is the half of the first terminal that receives.
pub fn keypad() -> Device {
    Port::Receiver { terminal: 0 }.index()
}

// The other half of it. Nobody waits there.
fn screen() -> Device {
    Port::Transmitter { terminal: 0 }.index()
}

// An index that is no device's, for a driver who takes the wrong one.
pub fn nowhere() -> Device {
    Device(DEVICES)
}

// Does the thread wait at this device?
pub fn waits_at(t: Thread, d: Device) -> bool {
    t.standing == rules::AT_DEVICE && t.partner.0 == d.0
}

// Is this the answer of one whose last call was to wait at the scale?
pub fn weighed(a: Answer) -> bool {
    a.code == rules::codes::DONE && a.who.0 == rules::NOBODY && a.word >= LIGHTEST
}

// The set of one device.
fn only(d: Device) -> Pending {
    let i = d.0;
    if i < LOW {
        return Pending {
            low: 1 << i,
            high: 0,
        };
    }
    if i < DEVICES {
        return Pending {
            low: 0,
            high: 1 << (i - LOW),
        };
    }
    nothing()
}

fn nothing() -> Pending {
    Pending { low: 0, high: 0 }
}

fn both(a: Pending, b: Pending) -> Pending {
    Pending {
        low: a.low | b.low,
        high: a.high | b.high,
    }
}

// The next interrupt, mostly of the scale. What it brings, a key or a weight, comes from a throw of its own.
pub fn raises(dice: u32, thrown: u32) -> Event {
    let d = dice % 16;
    if d < 5 {
        return Event::Interrupt {
            pending: typed(d),
            status: 1 + thrown % KEYS,
        };
    }
    Event::Interrupt {
        pending: stood(d),
        status: LIGHTEST + thrown % RANGE,
    }
}

// A key is typed. Now and then nothing is pending at all, or the screen is too, which has the lower index: then nobody is served.
fn typed(d: u32) -> Pending {
    match d {
        0 => nothing(),
        1 => both(only(keypad()), only(screen())),
        _ => only(keypad()),
    }
}

// A truck stands on the scale. Now and then a key is typed too, but the scale has the lower index and is served.
fn stood(d: u32) -> Pending {
    let truck = only(scale());
    if d == 5 {
        return both(truck, only(keypad()));
    }
    truck
}
