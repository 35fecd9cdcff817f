// The nucleus: the state of the cab's threads, and its public operations. None of them asks anything of its caller; only `choose` and `act`, which are for a
// state that was tested, do.
#![tactic(auto)]

ghost use Rattle.std.specs.Prelude.{◌≡◌, None};
ghost use Rattle.lists.specs.Tells.{Tells};
ghost use Rattle.rules.specs.Values.{place_known};
ghost use Rattle.rules.specs.Model.{vacant, thread as thread_in, live as live_in};
ghost use Rattle.rules.specs.Rules.{fresh as freshModel, choice as chosen, empty_place, outcome};
ghost use Rattle.rules.specs.declared.Choice.{Choice};
ghost use Rattle.rules.specs.declared.Choice.TheVariants.{Halt};
ghost use Rattle.table.specs.Cells.{as_thread};
ghost use Rattle.nucleus.specs.View.{view, Consists, Shows, Looked};
ghost use Rattle.rules.specs.declared.Event.TheVariants.{Create, Send, Receive, Reply as ReplyTo, End, WaitClock, SliceEnd, Tick, WaitDevice, Interrupt};
ghost use Rattle.nucleus.specs.Answers.{Meets, Answers};

use rules::{Choice, Device, Event, Number, Pending, Place, codes};
use table::{Arrays, Desk, Table, Thread};

// The desk and the arrays. Any may come: what is consistent is tested.
#[derive(Clone, Copy, PartialEq, Eq)]
pub struct State {
    pub desk: Desk,
    pub arrays: Arrays,
}

// What an event answers: the next state, with a code and the choice, and the number given to a new thread. The code stands beside the state since a refusal
// hands a state back too.
#[derive(Clone, Copy)]
pub struct Reply {
    pub state: State,
    pub code: u8,
    pub choice: Choice,
    pub number: Number,
}

impl State {
    // The cab as it is switched on for the first time.
    pub fn fresh() -> State
        ensures { Shows result freshModel }
    {
        let mut table = Table {
            blocks: [0; table::BYTES],
            words: [0; table::WORDS],
        };
        table.clear();
        State {
            desk: Desk {
                filled: 0,
                last: Number(rules::LAST_NUMBER),
                running: Place(lines::NONE),
            },
            arrays: Arrays {
                table,
                lines: lines::fresh(),
            },
        }
    }

    // Is the state consistent?
    pub fn consistent(self) -> bool
        ensures { Tells result (Consists self) (Consists self → ⊥) }
    {
        audit::consistent(&self.arrays, self.desk)
    }

    // The choice of a state that was tested.
    pub fn choose(self) -> Choice
        requires { Consists self }
        ensures { result ≡ chosen (view self) }
    {
        table::choose(&self.arrays, self.desk)
    }

    // Who runs next, or why nobody does. Halt where the state is not consistent.
    pub fn choice(self) -> Choice
        ensures { Looked self (result ≡ chosen (view self)) (result ≡ Halt) }
    {
        if !self.consistent() {
            return Choice::Halt;
        }
        self.choose()
    }

    // How many threads live. 0 where the state is not consistent.
    pub fn live(self) -> u8
        ensures { Looked self (result ≡ live_in (view self)) (result ≡ 0) }
    {
        if !self.consistent() {
            return 0;
        }
        filled::count(self.desk.filled)
    }

    // The lowest empty place, if there is one and the state is consistent.
    pub fn empty_place(self) -> Option<Place>
        ensures { Looked self (result ≡ place_known (empty_place (view self))) (result ≡ None) }
    {
        if !self.consistent() {
            return None;
        }
        let p = filled::lowest(self.desk.filled);
        if p as usize >= lines::PLACES {
            return None;
        }
        Some(Place(p))
    }

    // What the place p holds. The clean value where it is no place or the state is not consistent.
    pub fn thread(self, p: Place) -> Thread
        ensures { Looked self (as_thread result ≡ thread_in (view self) p.0) (as_thread result ≡ vacant) }
    {
        if !self.consistent() {
            return table::vacancy();
        }
        if p.0 as usize >= lines::PLACES {
            return table::vacancy();
        }
        self.arrays.table.read(p)
    }

    // The event e happens to a state that was tested.
    pub fn act(self, e: Event) -> Reply
        requires { Consists self }
        ensures { Meets (outcome e (view self)) result }
    {
        let mut arrays = self.arrays;
        let r = threads::run(&mut arrays, self.desk, e);
        let state = State {
            desk: r.desk,
            arrays,
        };
        Reply {
            state,
            code: r.code,
            choice: table::choose(&arrays, r.desk),
            number: r.number,
        }
    }

    // The event e happens to the state. Where the state is not consistent it is handed back as it is, with 14.
    pub fn step(self, e: Event) -> Reply
        ensures { Answers self e result }
    {
        if !self.consistent() {
            return Reply {
                state: self,
                code: codes::INCONSISTENT,
                choice: Choice::Halt,
                number: Number(rules::NOBODY),
            };
        }
        self.act(e)
    }

    // Event 1: a thread is created.
    pub fn create(self) -> Reply
        ensures { Answers self Create result }
    {
        self.step(Event::Create)
    }

    // Event 2: the running thread sends a word.
    pub fn send(self, to: Number, word: u32) -> Reply
        ensures { Answers self (Send to word) result }
    {
        self.step(Event::Send { to, word })
    }

    // Event 3: the running thread receives, from a number or from any.
    pub fn receive(self, from: Number) -> Reply
        ensures { Answers self (Receive from) result }
    {
        self.step(Event::Receive { from })
    }

    // Event 4: the running thread replies.
    pub fn reply(self, to: Number, word: u32) -> Reply
        ensures { Answers self (ReplyTo to word) result }
    {
        self.step(Event::Reply { to, word })
    }

    // Event 5: a thread ends, with all that it started.
    pub fn end(self, thread: Number) -> Reply
        ensures { Answers self (End thread) result }
    {
        self.step(Event::End { thread })
    }

    // Event 6: the running thread waits for the clock.
    pub fn wait_clock(self) -> Reply
        ensures { Answers self WaitClock result }
    {
        self.step(Event::WaitClock)
    }

    // Event 7: the slice ends.
    pub fn slice_end(self) -> Reply
        ensures { Answers self SliceEnd result }
    {
        self.step(Event::SliceEnd)
    }

    // Event 8: the clock ticks.
    pub fn tick(self) -> Reply
        ensures { Answers self Tick result }
    {
        self.step(Event::Tick)
    }

    // Event 9: the running thread waits at a device.
    pub fn wait_device(self, device: Device) -> Reply
        ensures { Answers self (WaitDevice device) result }
    {
        self.step(Event::WaitDevice { device })
    }

    // Event 10: devices raise an interrupt, and the first of them is served.
    pub fn interrupt(self, pending: Pending, status: u32) -> Reply
        ensures { Answers self (Interrupt pending status) result }
    {
        self.step(Event::Interrupt { pending, status })
    }
}
