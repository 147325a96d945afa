// The limits of a job and a plan, and the widths and positions of their fields in bits.

pub const MAX_OPS: u16 = 24;

pub const MAX_LINKS: u16 = 64;

pub const MAX_TYPES: u16 = 8;

/// Of one type.
pub const MAX_COPIES: u16 = 7;

/// Copies of all types.
pub const MAX_INSTS: u16 = 16;

/// The number of an instance in a row.
pub const MAX_INST: u16 = 15;

pub const MAX_KIND: u16 = 7;

/// A deadline, a start.
pub const MAX_STEPS: u16 = 31;

/// Clock, wire, times and intervals, in ns.
pub const MAX_TIME: u16 = 1023;

/// A selection's cell.
pub const MAX_SELECT: u16 = 1;

// Cells of a record's tables.
pub const KIND_COUNT: usize = 8;

pub const OP_CELLS: usize = 24;

pub const LINK_CELLS: usize = 64;

pub const TYPE_CELLS: usize = 8;

pub const INST_CELLS: usize = 16;

/// Kind k of type y: cell 8 * y + k.
pub const PAIR_CELLS: usize = TYPE_CELLS * KIND_COUNT;

// Widths.
pub const FORM_BITS: usize = 4;

/// N, and an operation's number.
pub const OP_BITS: usize = 5;

pub const LINK_COUNT_BITS: usize = 7;

pub const TYPE_COUNT_BITS: usize = 4;

pub const INST_COUNT_BITS: usize = 5;

/// T, and a start.
pub const STEP_BITS: usize = 5;

pub const TIME_BITS: usize = 10;

pub const KIND_BITS: usize = 3;

pub const COST_BITS: usize = 16;

pub const COPIES_BITS: usize = 3;

pub const SELECT_BITS: usize = 1;

pub const INST_BITS: usize = 4;

// Positions in a job's header, and its end.
pub const N_AT: usize = FORM_BITS;

pub const E_AT: usize = N_AT + OP_BITS;

pub const M_AT: usize = E_AT + LINK_COUNT_BITS;

pub const T_AT: usize = M_AT + TYPE_COUNT_BITS;

pub const CLOCK_AT: usize = T_AT + STEP_BITS;

pub const WIRE_AT: usize = CLOCK_AT + TIME_BITS;

pub const JOB_HEAD: usize = WIRE_AT + TIME_BITS;

// A job's groups.
pub const LINK_BITS: usize = OP_BITS + OP_BITS;

/// Time and interval of one kind.
pub const PAIR_BITS: usize = TIME_BITS + TIME_BITS;

pub const TYPE_HEAD: usize = COST_BITS + COPIES_BITS;

pub const TYPE_BITS: usize = TYPE_HEAD + PAIR_BITS * KIND_COUNT;

// A plan's header and a row.
pub const K_AT: usize = N_AT + OP_BITS;

pub const PLAN_HEAD: usize = K_AT + INST_COUNT_BITS;

pub const ROW_BITS: usize = STEP_BITS + INST_BITS;

// Forms: numbers and no enum, since each is the value of a field, and other sheets bring their own.
pub const JOB_FORM: u32 = 1;

pub const PLAN_FORM: u32 = 2;
