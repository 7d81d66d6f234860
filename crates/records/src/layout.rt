// Where the fields of each record stand, from its start; specs/Layout.antt has them for the definitions. The CDR stands at 8, and its
// fields are given from the file's start. Where the walk keeps an offset as a number of 32 bits, so is what it adds to it.

// Every record: size at 0, and its type.
pub const TYPE: usize = 4;

// Every record in a list.
pub const NEXT: u32 = 8;

// CDR.
pub const CDR: usize = 8;

pub const GDR_LINK: usize = 16;

pub const VERSION: usize = 20;

pub const ENCODING: usize = 28;

pub const CDR_FLAGS: usize = 32;

// GDR: the heads of its lists, then eof, counts and maxima, and the sizes of dimensions.
pub const HEAD_OF_R_VARIABLES: u32 = 8;

pub const HEAD_OF_Z_VARIABLES: u32 = 12;

pub const HEAD_OF_ATTRIBUTES: u32 = 16;

pub const HEAD_OF_UNUSED: u32 = 44;

pub const EOF: usize = 20;

pub const NR_VARS: u32 = 24;

pub const NUM_ATTR: u32 = 28;

pub const R_MAX_REC: u32 = 32;

pub const R_NUM_DIMS: usize = 36;

pub const NZ_VARS: u32 = 40;

pub const R_DIM_SIZES: usize = 60;

// ADR.
pub const HEAD_OF_GR_ENTRIES: u32 = 12;

pub const SCOPE: usize = 16;

pub const ATTR_NUM: usize = 20;

pub const GR_COUNT: u32 = 24;

pub const HEAD_OF_Z_ENTRIES: u32 = 36;

pub const Z_COUNT: u32 = 40;

pub const ATTR_NAME: usize = 52;

// AEDR.
pub const ENTRY_ATTR: usize = 12;

pub const ENTRY_TYPE: usize = 16;

pub const ENTRY_NUM: usize = 20;

pub const ENTRY_ELEMENTS: usize = 24;

pub const ENTRY_VALUE: usize = 48;

// VDR.
pub const DATA_TYPE: usize = 12;

pub const MAX_REC: usize = 16;

pub const HEAD_OF_INDEX: u32 = 20;

pub const TAIL_OF_INDEX: u32 = 24;

pub const VAR_FLAGS: usize = 28;

pub const S_RECORDS: usize = 32;

pub const ELEMENTS: usize = 48;

pub const VAR_NUM: usize = 52;

pub const VAR_NAME: usize = 64;

pub const R_VARIANCES: usize = 128;

pub const Z_NUM_DIMS: usize = 128;

// VXR.
pub const VXR_ENTRIES: usize = 12;

pub const VXR_USED: usize = 16;

pub const FIRSTS: usize = 20;

// VVR.
pub const VALUES: usize = 8;

// UIR.
pub const PREVIOUS: usize = 12;

// Those of the above that are also added to an offset into a slice. With one constant each, a cast would stand at each use on one side, of some twenty
// there or some twenty in walk and faults, which add in 32 bits, as offsets are saved.
pub const NEXT_USIZE: usize = NEXT as usize;

pub const HEAD_OF_R_VARIABLES_USIZE: usize = HEAD_OF_R_VARIABLES as usize;

pub const HEAD_OF_Z_VARIABLES_USIZE: usize = HEAD_OF_Z_VARIABLES as usize;

pub const HEAD_OF_ATTRIBUTES_USIZE: usize = HEAD_OF_ATTRIBUTES as usize;

pub const HEAD_OF_GR_ENTRIES_USIZE: usize = HEAD_OF_GR_ENTRIES as usize;

pub const HEAD_OF_Z_ENTRIES_USIZE: usize = HEAD_OF_Z_ENTRIES as usize;

pub const HEAD_OF_INDEX_USIZE: usize = HEAD_OF_INDEX as usize;

pub const NR_VARS_USIZE: usize = NR_VARS as usize;

pub const NUM_ATTR_USIZE: usize = NUM_ATTR as usize;

pub const NZ_VARS_USIZE: usize = NZ_VARS as usize;

pub const R_MAX_REC_USIZE: usize = R_MAX_REC as usize;
