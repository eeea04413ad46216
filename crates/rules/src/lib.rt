#![tactic(auto)]
// Document 01, "What belongs to the machine", and document 02, [2] to [5]: the records of threads and timeslices, and the events.
// What they mean is defined in specs/.
ghost use Rattle.std.specs.Prelude.{◌≡◌};

mod refusal;

pub use refusal::Refusal;

// A thread is a client or a server.
#[derive(Clone, Copy, Debug, PartialEq, Eq)]
pub enum Role {
    Client,
    Server,
}

// Calling is a donation link to a server, Helping a helping link.
#[derive(Clone, Copy, Debug, PartialEq, Eq)]
pub enum Hold {
    Ready,
    Idle,
    Blocked,
    Calling(u8),
    Helping(u8),
}

// Orphan: the caller served has gone, and its request is unfinished.
#[derive(Clone, Copy, Debug, PartialEq, Eq)]
pub enum Service {
    Nobody,
    Serving(u8),
    Orphan,
}

// Live stays a field beside the others: "Free slots hold one fixed value", which the definition `thread_free` compares whole.
#[derive(Clone, Copy, Debug, PartialEq, Eq)]
pub struct Thread {
    pub live: bool,
    pub role: Role,
    pub hold: Hold,
    pub service: Service,
}

impl Thread {
    // The most threads: numbers run from 0 to 127.
    pub const LIMIT: usize = 128;

    // The one value of a free slot.
    pub const FREE: Thread = Thread {
        live: false,
        role: Role::Client,
        hold: Hold::Ready,
        service: Service::Nobody,
    };
}

// Spent: nothing is left of it until it is refilled.
#[derive(Clone, Copy, Debug, PartialEq, Eq)]
pub enum Place {
    Queue,
    Behind(u8),
    On(u8),
    Stalled,
    Spent,
}

#[derive(Clone, Copy, Debug, PartialEq, Eq)]
pub struct Timeslice {
    pub owner: u8,
    pub priority: u8,
    pub quantum: u16,
    pub left: u16,
    pub place: Place,
}

impl Timeslice {
    // The most timeslices: numbers run from 0 to 127.
    pub const LIMIT: usize = 128;

    // The one value of a free slot.
    pub const FREE: Timeslice = Timeslice {
        owner: 0,
        priority: 0,
        quantum: 0,
        left: 0,
        place: Place::Queue,
    };
}

// "A timeslice has an owner, a priority, a quantum and what is left": one without its place, as the plain machine has it.
#[derive(Clone, Copy, Debug, PartialEq, Eq)]
pub struct Slice {
    pub owner: u8,
    pub priority: u8,
    pub quantum: u16,
    pub left: u16,
}

impl Slice {
    // As many as there are timeslices.
    pub const LIMIT: usize = 128;

    // The one value of a free slot.
    pub const FREE: Slice = Slice {
        owner: 0,
        priority: 0,
        quantum: 0,
        left: 0,
    };
}

// A timeslice without its place.
impl From<Timeslice> for Slice {
    ghost from_gives = { λ x slice. slice
        ≡ record { owner = x.owner; priority = x.priority; quantum = x.quantum; left = x.left } };

    fn from(x: Timeslice) -> Slice {
        Slice {
            owner: x.owner,
            priority: x.priority,
            quantum: x.quantum,
            left: x.left,
        }
    }
}

// The running thread, the current timeslice, which pays, and the donation count. No Option: that nothing runs is a state of its own in every
// definition (`nothing_runs`, State), and is printed as one.
#[derive(Clone, Copy, Debug, PartialEq, Eq)]
pub enum Running {
    Nothing,
    Runs {
        thread: u8,
        timeslice: u8,
        count: u8,
    },
}

// What a walk finds. The count is the donation count; the helper is the thread whose helping link was
// followed last, 0 where there is none; helping is the number of helping links followed. A loop has only
// its links and how many of them were helping. Last: "the last thread before the end, or none where no link was followed
// or the walk loops". Looped stays a field beside the others: the definitions `walk_from` and `loop` and the theorem `wider` speak of it.
#[derive(Clone, Copy, Debug, PartialEq, Eq)]
pub struct Chain {
    pub looped: bool,
    pub end: u8,
    pub links: u8,
    pub count: u8,
    pub helper: u8,
    pub helping: u8,
    pub last: Option<u8>,
}

// Document 02, [5]: why a timeslice that stands above the current one does not run. Waits: for the thread at its chain's end.
#[derive(Clone, Copy, Debug, PartialEq, Eq)]
pub enum Cause {
    Waits(u8),
    Loops,
    Spent,
}

// The events, each with the operands of its record in an event file.
#[derive(Clone, Copy, Debug, PartialEq, Eq)]
pub enum Event {
    Create {
        thread: u8,
        role: Role,
    },
    Give {
        timeslice: u8,
        thread: u8,
        priority: u8,
        quantum: u16,
    },
    Call {
        server: u8,
    },
    Reply,
    Block,
    Wake {
        thread: u8,
    },
    Charge {
        units: u16,
    },
    Abort {
        thread: u8,
    },
    Refill {
        timeslice: u8,
    },
    Remove {
        thread: u8,
    },
    Rank {
        timeslice: u8,
        priority: u8,
    },
}
