// The types that the rules speak of. The rules themselves are in specs/.
#![tactic(auto)]

ghost use Rattle.std.specs.Prelude.{◌≡◌, ◌<◌};
ghost use Rattle.rules.specs.Values.{kind_of, refusal_code, choice_kind, choice_runs};
ghost use Rattle.rules.specs.Devices.{on_line, of_terminal, index_of};

pub mod codes;
pub mod kinds;

// A thread's number, 0 to 253. 255 is nobody, or anyone.
#[derive(Clone, Copy, PartialEq, Eq)]
pub struct Number(pub u8);

// A place, 0 to 63. 255 is none. A place is no number: neither can stand where the other is asked for.
#[derive(Clone, Copy, PartialEq, Eq)]
pub struct Place(pub u8);

// A device's index, 0 to 47: a third kind. 255 is none.
#[derive(Clone, Copy, PartialEq, Eq)]
pub struct Device(pub u8);

// A pending set of exactly 48 bits, one for each device, index 0 lowest: those of the indexes 0 to 31, and those of 32 to 47.
#[derive(Clone, Copy, PartialEq, Eq)]
pub struct Pending {
    pub low: u32,
    pub high: u16,
}

// A number that names nobody, and an index that names no device, are these bytes in the table, in an image, in a log and to C.
pub const NOBODY: u8 = 255;

pub const NO_DEVICE: u8 = 255;

pub const LAST_NUMBER: u8 = 253;

// The standings of document 01's table, and that of an empty place. They are numbers, and no enum: a state may have any byte for one, and gets its proper reply.
pub const EMPTY: u8 = 0;

pub const RUNNING: u8 = 1;

pub const READY: u8 = 2;

pub const SENDING: u8 = 3;

pub const AWAITING: u8 = 4;

pub const RECEIVING: u8 = 5;

pub const WAITING: u8 = 6;

pub const AT_DEVICE: u8 = 7;

// What happens to the nucleus (document 01, "The eight events", and document 02, P1).
#[derive(Clone, Copy)]
pub enum Event {
    Create,
    Send { to: Number, word: u32 },
    Receive { from: Number },
    Reply { to: Number, word: u32 },
    End { thread: Number },
    WaitClock,
    SliceEnd,
    Tick,
    WaitDevice { device: Device },
    Interrupt { pending: Pending, status: u32 },
}

// What raises an interrupt: a device of the lines 3 to 6, or a half of a terminal on line 7.
#[derive(Clone, Copy)]
pub enum Port {
    Device { line: u8, device: u8 },
    Transmitter { terminal: u8 },
    Receiver { terminal: u8 },
}

// Who runs next, or why nobody does.
#[derive(Clone, Copy, PartialEq, Eq)]
pub enum Choice {
    Run(Number),
    Halt,
    Wait,
    Stuck,
}

// Why an event is refused.
#[derive(Clone, Copy, PartialEq, Eq)]
pub enum Refusal {
    // Nobody runs who could call.
    Idle,
    // The number is none, or the index no device's.
    NoNumber,
    // The number is the caller's own.
    OwnNumber,
    NotLive,
    // The thread awaits no reply of the caller's.
    NotAwaiting,
    // No place is empty.
    Full,
}

impl Refusal {
    // Its code in document 01.
    pub fn code(self) -> u8
        ensures { result ≡ refusal_code self }
    {
        match self {
            Refusal::Idle => codes::IDLE,
            Refusal::NoNumber => codes::NO_NUMBER,
            Refusal::OwnNumber => codes::OWN_NUMBER,
            Refusal::NotLive => codes::NOT_LIVE,
            Refusal::NotAwaiting => codes::NOT_AWAITING,
            Refusal::Full => codes::FULL,
        }
    }
}

impl Event {
    // The event's number in document 01.
    pub fn kind(self) -> u8
        ensures { result ≡ kind_of self }
    {
        match self {
            Event::Create => kinds::CREATE,
            Event::Send { .. } => kinds::SEND,
            Event::Receive { .. } => kinds::RECEIVE,
            Event::Reply { .. } => kinds::REPLY,
            Event::End { .. } => kinds::END,
            Event::WaitClock => kinds::WAIT_CLOCK,
            Event::SliceEnd => kinds::SLICE_END,
            Event::Tick => kinds::TICK,
            Event::WaitDevice { .. } => kinds::WAIT_DEVICE,
            Event::Interrupt { .. } => kinds::INTERRUPT,
        }
    }
}

// The index of a device of a line. NO_DEVICE where there is none such.
fn on_line(line: u8, device: u8) -> Device
    ensures { result.0 ≡ on_line line device }
{
    if line < 3 {
        return Device(NO_DEVICE);
    }
    if line > 6 {
        return Device(NO_DEVICE);
    }
    if device > 7 {
        return Device(NO_DEVICE);
    }
    Device(8 * (line - 3) + device)
}

// The index of a half of a terminal, where that half of terminal 0 has the index `first`. NO_DEVICE where there is no such terminal.
fn of_terminal(first: u8, terminal: u8) -> Device
    requires { first < 64 }
    ensures { result.0 ≡ of_terminal first terminal }
{
    if terminal > 7 {
        return Device(NO_DEVICE);
    }
    Device(first + 2 * terminal)
}

impl Port {
    // Its index. NO_DEVICE where there is no such port, and no Option: the promise is the rule's own `index_of`, a number.
    pub fn index(self) -> Device
        ensures { result.0 ≡ index_of self }
    {
        match self {
            Port::Device { line, device } => on_line(line, device),
            Port::Transmitter { terminal } => of_terminal(32, terminal),
            Port::Receiver { terminal } => of_terminal(33, terminal),
        }
    }
}

impl Choice {
    // The choice as a number, for C: 0 run, 1 halt, 2 wait, 3 stuck.
    pub fn kind(self) -> u8
        ensures { result ≡ choice_kind self }
    {
        match self {
            Choice::Run(_) => 0,
            Choice::Halt => 1,
            Choice::Wait => 2,
            Choice::Stuck => 3,
        }
    }

    // The number that runs, or that of nobody, for C.
    pub fn runs(self) -> Number
        ensures { result.0 ≡ choice_runs self }
    {
        match self {
            Choice::Run(n) => n,
            Choice::Halt => Number(NOBODY),
            Choice::Wait => Number(NOBODY),
            Choice::Stuck => Number(NOBODY),
        }
    }
}
