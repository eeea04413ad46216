// Document 01, "The plain machine": "An accepted event changes those as under Events, with no release and no choice." What runs is left to
// the judging that follows, which says it anew: `judge_anew`, in rules.
ghost use Rattle.std.specs.Prelude.{◌≡◌};
ghost use Rattle.rules.specs.declared.Event.TheVariants.{Create, Give, Call, Reply, Block, Wake, Charge, Abort, Refill, Remove, Rank};
ghost use Rattle.plain_engine.specs.Changed.{Changed, Takes};

use crate::PlainMachine;
use crate::slices::slice_at;
use rules::{Event, Hold, Role, Running, Slice};
use tables::lookup::{thread_at, with_entry};
use tables::threads::{aborted, created, donated, removed, replied, with_hold};
use tables::turns::{strike_out, to_back};

impl PlainMachine {
    pub(crate) fn update_create(&mut self, n: u8, role: Role)
        ensures { Changed (Create n role) self.old self.new }
    {
        self.threads = created(self.threads, n, role);
    }

    pub(crate) fn update_give(&mut self, t: u8, n: u8, priority: u8, quantum: u16)
        requires { Takes (Give t n priority quantum) self.old }
        ensures { Changed (Give t n priority quantum) self.old self.new }
    {
        let x = Slice {
            owner: n,
            priority,
            quantum,
            left: quantum,
        };
        self.slices = with_entry(self.slices, t, x);
        self.order[usize::from(self.live)] = t;
        self.live += 1;
    }

    // The caller donates to an Idle server, and helps any other.
    pub(crate) fn update_call(&mut self, server: u8)
        ensures { Changed (Call server) self.old self.new }
    {
        if let Running::Runs { thread: caller, .. } = self.running {
            if thread_at(self.threads, server).hold == Hold::Idle {
                self.threads = donated(self.threads, caller, server);
            } else {
                self.threads = with_hold(self.threads, caller, Hold::Helping(server));
            }
        }
    }

    pub(crate) fn update_reply(&mut self)
        ensures { Changed Reply self.old self.new }
    {
        if let Running::Runs { thread: server, .. } = self.running {
            self.threads = replied(self.threads, server);
        }
    }

    pub(crate) fn update_block(&mut self)
        ensures { Changed Block self.old self.new }
    {
        if let Running::Runs { thread: n, .. } = self.running {
            self.threads = with_hold(self.threads, n, Hold::Blocked);
        }
    }

    pub(crate) fn update_wake(&mut self, n: u8)
        ensures { Changed (Wake n) self.old self.new }
    {
        self.threads = with_hold(self.threads, n, Hold::Ready);
    }

    // At 0 to the back.
    pub(crate) fn update_charge(&mut self, units: u16)
        requires { Takes (Charge units) self.old }
        ensures { Changed (Charge units) self.old self.new }
    {
        if let Running::Runs { timeslice: t, .. } = self.running {
            let x = slice_at(self.slices, t);
            let y = Slice {
                left: x.left - units,
                ..x
            };
            self.slices = with_entry(self.slices, t, y);
            if y.left == 0 {
                self.order = to_back(self.order, self.live, t);
            }
        }
    }

    pub(crate) fn update_abort(&mut self, n: u8)
        ensures { Changed (Abort n) self.old self.new }
    {
        self.threads = aborted(self.threads, n);
    }

    pub(crate) fn update_refill(&mut self, t: u8)
        ensures { Changed (Refill t) self.old self.new }
    {
        let x = slice_at(self.slices, t);
        let y = Slice {
            left: x.quantum,
            ..x
        };
        self.slices = with_entry(self.slices, t, y);
    }

    // The thread's own timeslice is struck out, and its record is free.
    pub(crate) fn update_remove(&mut self, n: u8)
        ensures { Changed (Remove n) self.old self.new }
    {
        self.threads = removed(self.threads, n);
        if let Some(t) = self.own(n) {
            self.slices = with_entry(self.slices, t, Slice::FREE);
            self.order = strike_out(self.order, self.live, t);
            self.live = self.live.min(128) - 1;
        }
    }

    pub(crate) fn update_rank(&mut self, t: u8, priority: u8)
        requires { Takes (Rank t priority) self.old }
        ensures { Changed (Rank t priority) self.old self.new }
    {
        let x = slice_at(self.slices, t);
        self.slices = with_entry(self.slices, t, Slice { priority, ..x });
        self.order = to_back(self.order, self.live, t);
    }

    // One arm for each kind, as in `check` and the dispatcher's `dispatch`: the three differ in what they call.
    pub(crate) fn update(&mut self, e: Event)
        requires { Takes e self.old }
        ensures { Changed e self.old self.new }
    {
        match e {
            Event::Create { thread, role } => self.update_create(thread, role),
            Event::Give {
                timeslice,
                thread,
                priority,
                quantum,
            } => self.update_give(timeslice, thread, priority, quantum),
            Event::Call { server } => self.update_call(server),
            Event::Reply => self.update_reply(),
            Event::Block => self.update_block(),
            Event::Wake { thread } => self.update_wake(thread),
            Event::Charge { units } => self.update_charge(units),
            Event::Abort { thread } => self.update_abort(thread),
            Event::Refill { timeslice } => self.update_refill(timeslice),
            Event::Remove { thread } => self.update_remove(thread),
            Event::Rank {
                timeslice,
                priority,
            } => self.update_rank(timeslice, priority),
        }
    }
}
