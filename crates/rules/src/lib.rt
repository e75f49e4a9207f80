// What the calls take and answer, each `Ok` or refused; the keys of a text's lines; and the names of a sheet's columns. The documents as
// definitions over these types stand in specs/.
#![tactic(auto)]

// The longest input of the programs, in bytes.
pub const INPUT_MOST: usize = 32768;

// The key of the first line.
pub const TASKS_KEY: [u8; 6] = *b"tasks=";

// The keys of a task's four lines, one after another, two bytes each.
pub const TASK_KEYS: [u8; 8] = *b"c=d=t=r=";

// The names of a sheet's four columns, in the order of a task's words.
pub const EXECUTION: [u8; 9] = *b"execution";

pub const DEADLINE: [u8; 8] = *b"deadline";

pub const PERIOD: [u8; 6] = *b"period";

pub const RELEASE: [u8; 7] = *b"release";

// A task: execution, relative deadline, least period, first release.
#[derive(Clone, Copy)]
pub struct Task {
    pub C: u32,
    pub D: u32,
    pub T: u32,
    pub R: u32,
}

// Which trains the tasks of a table have: those of the concrete schedule to an end tick; or those of the pattern that a length names, with the
// number of its blocker, if it has one.
#[derive(Clone, Copy)]
pub enum Plan {
    Concrete(u32),
    Named(u32, Option<u32>),
}

// Why a call is refused; specs/Refusals.antt is the table of their numbers and of what they carry.
#[derive(Clone, Copy)]
pub enum Refusal {
    NoWord,
    NotFours,
    TooManyWords,
    OutOfRange(u32),
    BadEnd,
    TooShort,
    BadLine(u32),
    NotMisses,
    NoHeader,
    BadRecord(u32),
    NoRecord,
}

// What a refusal carries, if anything: the index of a word, or the number of a line or of a record.
#[derive(Clone, Copy)]
pub enum Carried {
    Word(u32),
    Line(u32),
    Record(u32),
}

// The verdict over all arrivals: with the span; with the length, the number of the task that blocks, if one does, and the excess; with nothing.
#[derive(Clone, Copy)]
pub enum Verdict {
    Meets(u32),
    Misses(u32, Option<u32>, u32),
    TooFar,
}

// A late job: its task, its number and its deadline.
#[derive(Clone, Copy)]
pub struct Late {
    pub task: u64,
    pub job: u64,
    pub deadline: u64,
}

// What the dispatcher tells of its rows: how many there are, and the late job with the least deadline, if one is late.
#[derive(Clone, Copy)]
pub struct Timing {
    pub rows: u64,
    pub late: Option<Late>,
}

// What the report tells of one set: how many bytes its lines take, and how many bytes of the text are left to read.
#[derive(Clone, Copy)]
pub struct Reported {
    pub length: u32,
    pub left: usize,
}
