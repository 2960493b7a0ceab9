// The paper's numbers, once for every crate: limits, the sizes of records, and the numbers of the ways in which a job is turned back.
pub const MAX_VARIABLES: usize = 64;

pub const MAX_NODES: usize = 512;

pub const MAX_RECORDS: usize = 1024;

pub const MAX_DEPTH: usize = 16;

pub const MAX_BYTES: usize = 23048;

pub const TRAILER_SIZE: usize = 8;

pub const VARIABLE_SIZE: usize = 8;

pub const NODE_SIZE: usize = 12;

pub const RECORD_SIZE: usize = 16;

// The parent of record 0, the root: two bytes of a job say so, and they have no other way to say that there is none.
pub const NO_PARENT: usize = 65535;

// The rows of the table of commands.
pub const COMMANDS: usize = 20;

// The numbers of the ways in which a job is turned back. No enum: they are printed, and handed to C, as the numbers that they are.
pub const BAD_LENGTH: u8 = 1;

pub const BAD_OFFSETS: u8 = 2;

pub const BAD_COUNT: u8 = 3;

pub const BAD_VARIABLE: u8 = 4;

pub const BAD_PARENT: u8 = 5;

pub const BAD_NODE: u8 = 6;

pub const BAD_RECORD: u8 = 7;

pub const BAD_BLOCK: u8 = 8;

pub const BAD_BUDGET: u8 = 9;

pub const BAD_BUFFERS: u8 = 10;

pub const BAD_FOLLOW_ON: u8 = 11;

pub const BAD_SPARE: u8 = 12;

pub const BAD_ORDER: u8 = 13;

pub const BAD_AREA: u8 = 14;

pub const NO_PLACE: u8 = 15;

pub const MAX_BUDGET: u64 = 1000000;

// So many runs take turns, each of so many steps.
pub const MAX_RUNS: usize = 8;

pub const TURN_STEPS: usize = 5000;

// The numbers of the stops, numbers for the same reason: a rule of information flow, no such node, a full table, a full board, a used-up budget, a result outside signed
// 32 bits.
pub const FLOW: u8 = 21;

pub const ABSENT: u8 = 22;

pub const TABLE_FULL: u8 = 23;

pub const BOARD_FULL: u8 = 24;

pub const SPENT: u8 = 25;

pub const OVERFLOW: u8 = 27;
