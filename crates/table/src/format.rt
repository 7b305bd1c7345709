// The numbers of document 01 by name: kinds, sorts, opcodes and limits. specs/Format.antt has the same names for the rules. They are bytes of a table, in which any
// byte may stand: the rules tell what a row with any kind, sort or opcode earns, so that no enum has them all.

// Bytes in a row.
pub const ROW_BYTES: usize = 16;

// Kinds of rows.
pub const MODULE: u8 = 1;

pub const TYPE: u8 = 2;

pub const FIELD: u8 = 3;

pub const PROCEDURE: u8 = 4;

pub const LOCAL: u8 = 5;

pub const RESULT: u8 = 6;

pub const INSTRUCTION: u8 = 7;

// Sorts of values.
pub const NUMBER: u8 = 0;

pub const RECORD: u8 = 1;

pub const NUMBER_REFERENCE: u8 = 2;

pub const RECORD_REFERENCE: u8 = 3;

pub const NUMBER_READER: u8 = 4;

pub const RECORD_READER: u8 = 5;

// The first number that is no sort.
pub const PAST_SORTS: u8 = 6;

// Opcodes.
pub const POP: u8 = 0;

pub const LOAD_CONST: u8 = 1;

pub const MV_LOC: u8 = 2;

pub const CP_LOC: u8 = 3;

pub const ST_LOC: u8 = 4;

pub const BORROW_LOC: u8 = 5;

pub const READ_REF: u8 = 6;

pub const WRITE_REF: u8 = 7;

pub const BORROW_FLD: u8 = 8;

pub const PACK: u8 = 9;

pub const UNPACK: u8 = 10;

pub const MOVE_TO: u8 = 11;

pub const MOVE_FROM: u8 = 12;

pub const BORROW_GLOBAL: u8 = 13;

pub const EXISTS: u8 = 14;

pub const CALL: u8 = 15;

pub const RET: u8 = 16;

pub const BRANCH: u8 = 17;

pub const BRANCH_COND: u8 = 18;

pub const OP: u8 = 19;

pub const FREEZE: u8 = 20;

// The first number that is no opcode, and the first that is no operation of Op.
pub const PAST_OPCODES: u8 = 21;

pub const PAST_OPS: u16 = 4;

// Limits: at most so many.
pub const MAX_ROWS: usize = 2048;

pub const MAX_MODULES: usize = 16;

pub const MAX_TYPES: usize = 64;

pub const MAX_FIELDS: usize = 8;

pub const MAX_PROCEDURES: usize = 128;

pub const MAX_LOCALS: usize = 16;

pub const MAX_RESULTS: usize = 4;

pub const MAX_INSTRUCTIONS: usize = 256;

pub const MAX_OPERANDS: usize = 16;
