// The dossier's form, widths and limit.
// A number and no enum, since it is the value of a field.
pub const DOSSIER_FORM: u32 = 4;

// Zero bits behind the form.
pub const ZERO_BITS: usize = 4;

// A paper's length.
pub const LENGTH_BITS: usize = 16;

// Where the lengths begin, and where they end.
pub const LENGTHS_AT: usize = sheets::limits::FORM_BITS + ZERO_BITS;

pub const DOSSIER_HEAD: usize = LENGTHS_AT + 3 * LENGTH_BITS;

// The first byte of the job.
pub const JOB_AT: usize = DOSSIER_HEAD / 8;

// Bytes.
pub const MAX_DOSSIER: usize = 65536;
