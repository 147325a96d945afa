// The note sheet's form, widths and limit.
// A number and no enum, since it is the value of a field.
pub const NOTE_FORM: u32 = 3;

pub const VERDICT_BITS: usize = 1;

/// The header's end.
pub const NOTE_HEAD: usize = sheets::limits::FORM_BITS + VERDICT_BITS;

/// The bit that every mark begins with.
pub const MARK_BITS: usize = 1;

/// The number of a split's operation.
pub const SPLIT_BITS: usize = sheets::limits::OP_BITS;

/// Bytes.
pub const MAX_NOTE: usize = 60000;
