// The length pass and the rows pass: refusals 1 to 4, 18 and 19.
#![tactic(auto)]

ghost use Rattle.std.specs.Prelude.{◌≡◌, ℕ, not, ◌&&◌, ◌||◌, [], leb, ltb, ◌<◌, get_or};
ghost use Rattle.laws.specs.Lists.{member};
ghost use Rattle.table.specs.Format.{local_kind, instruction_kind, past_sorts, past_opcodes};
ghost use Rattle.table.specs.Verdicts.{verdict_of, fault_of};
ghost use Rattle.rows.specs.Rows.{may_follow, limits, length_of, rows_of, form_of, count_of, below_row, misplaced, too_many, uses_a, uses_b, uses_c, uses_d, dirty, bad_c, late_parameter, bad_op, unused_byte, bad_value, bad_guard, row_fault, use_of, used_with};

use table::refusals::{Reason, Refusal};
use table::{Row, format};

// What stands above a row: the kind of the row right above, 0 for none; the number of rows of each kind in the same owner; whether the
// module is trusted; whether some local of the procedure is no parameter.
#[derive(Clone, Copy)]
pub struct Above {
    pub kind: u8,
    pub modules: u16,
    pub types: u16,
    pub fields: u16,
    pub procedures: u16,
    pub locals: u16,
    pub results: u16,
    pub instructions: u16,
    pub trusted: bool,
    pub other: bool,
}

// What is asked of the rows of a kind: they follow rows of the kinds from `after` to `until`; there are at most `limit` of them in one
// owner; A has `values` values, from 0 on, or no use at 0.
#[derive(Clone, Copy)]
struct Kind {
    after: u8,
    until: u8,
    limit: u16,
    values: u8,
}

const NO_KIND: Kind = Kind {
    after: 1,
    until: 0,
    limit: 0,
    values: 0,
};

// By the number of the kind.
const KINDS: [Kind; 8] = [
    NO_KIND,
    // A module.
    Kind {
        after: 0,
        until: 7,
        limit: 16,
        values: 2,
    },
    // A type.
    Kind {
        after: 1,
        until: 3,
        limit: 64,
        values: 0,
    },
    // A field.
    Kind {
        after: 2,
        until: 3,
        limit: 8,
        values: 2,
    },
    // A procedure.
    Kind {
        after: 1,
        until: 7,
        limit: 128,
        values: 2,
    },
    // A local.
    Kind {
        after: 4,
        until: 5,
        limit: 16,
        values: format::PAST_SORTS,
    },
    // A result.
    Kind {
        after: 4,
        until: 6,
        limit: 4,
        values: format::PAST_SORTS,
    },
    // An instruction.
    Kind {
        after: 4,
        until: 7,
        limit: 256,
        values: format::PAST_OPCODES,
    },
];

// What is asked of a row of this kind.
fn kind_of(row: Row) -> Kind
    ensures follows { (kind : ℕ) → kind < 256 → (ltb kind result.after || ltb result.until kind) ≡ not (member kind (get_or may_follow row.kind [])) }
    ensures limit { result.limit ≡ get_or limits row.kind 0 }
    ensures values { result.values ≡ (use_of row.kind).values }
{
    KINDS.get(row.kind as usize).copied().unwrap_or(NO_KIND)
}

impl Above {
    pub const NOTHING: Above = Above {
        kind: 0,
        modules: 0,
        types: 0,
        fields: 0,
        procedures: 0,
        locals: 0,
        results: 0,
        instructions: 0,
        trusted: false,
        other: false,
    };

    // The number of rows of a kind above, in the same owner.
    #[tactic(auto, unfolding(crate::specs::Rows::count_of))]
    fn count_of(self, kind: u8) -> u16
        ensures { result ≡ count_of self kind }
    {
        match kind {
            format::MODULE => self.modules,
            format::TYPE => self.types,
            format::FIELD => self.fields,
            format::PROCEDURE => self.procedures,
            format::LOCAL => self.locals,
            format::RESULT => self.results,
            format::INSTRUCTION => self.instructions,
            _ => 0,
        }
    }

    // What stands above the next row.
    #[tactic(auto, unfolding(crate::specs::Rows::below_row, crate::specs::Rows::count_below, crate::specs::Rows::owned, crate::specs::Rows::count_of, laws::specs::Lists::member))]
    fn below(mut self, row: Row) -> Self
        requires { count_of self row.kind < 65535 }
        ensures { result ≡ below_row self row }
    {
        self.kind = row.kind;
        match row.kind {
            format::MODULE => {
                self.modules += 1;
                self.trusted = row.a == 1;
            }
            format::TYPE => {
                self.types += 1;
                self.fields = 0;
            }
            format::FIELD => self.fields += 1,
            format::PROCEDURE => {
                self.procedures += 1;
                self.locals = 0;
                self.results = 0;
                self.instructions = 0;
                self.other = false;
            }
            format::LOCAL => {
                self.locals += 1;
                self.other = row.c != 1 || self.other;
            }
            format::RESULT => self.results += 1,
            format::INSTRUCTION => self.instructions += 1,
            _ => {}
        }
        self
    }

    // 2: the kind is unknown, or not allowed after the row above.
    #[tactic(auto, unfolding(crate::specs::Rows::misplaced))]
    fn misplaces(self, row: Row) -> bool
        ensures { result ≡ misplaced self row }
    {
        let kind = kind_of(row);
        self.kind < kind.after || kind.until < self.kind
    }

    // 3: one row too many of its kind.
    #[tactic(auto, unfolding(crate::specs::Rows::too_many))]
    fn overfills(self, row: Row) -> bool
        ensures { result ≡ too_many self row }
    {
        kind_of(row).limit <= self.count_of(row.kind)
    }

    // 18: a parameter after another local.
    fn late_parameter(self, row: Row) -> bool
        ensures { result ≡ late_parameter self row }
    {
        row.kind == format::LOCAL && row.c == 1 && self.other
    }

    // 18: a value not allowed.
    #[tactic(auto, unfolding(crate::specs::Rows::bad_value))]
    fn bad_value(self, row: Row) -> bool
        ensures { result ≡ bad_value self row }
    {
        bad_a(row) || bad_c(row) || self.late_parameter(row) || bad_op(row)
    }

    // 19: a guard on anything but a number field of a trusted module.
    #[tactic(auto, unfolding(crate::specs::Rows::bad_guard))]
    fn bad_guard(self, row: Row) -> bool
        ensures { result ≡ bad_guard self row }
    {
        row.kind == format::FIELD && row.c == 1 && !(row.a == format::NUMBER && self.trusted)
    }

    // The fault of a row below.
    #[tactic(auto, unfolding(crate::specs::Rows::row_fault))]
    pub fn row_fault(self, row: Row) -> Option<Reason>
        ensures { fault_of result ≡ row_fault self row }
    {
        if self.misplaces(row) {
            Some(Reason::BadPlace)
        } else if self.overfills(row) {
            Some(Reason::OverLimit)
        } else if unused_byte(row) {
            Some(Reason::DirtyByte)
        } else if self.bad_value(row) {
            Some(Reason::WrongValue)
        } else if self.bad_guard(row) {
            Some(Reason::WrongGuard)
        } else {
            None
        }
    }
}

// Whether an opcode has an operand; one that is not allowed counts as having one.
#[tactic(auto, using(crate::proofs::Laws::operand), unfolding(laws::specs::Lists::member))]
fn has_operand(opcode: u8) -> bool
    ensures { result ≡ used_with past_opcodes opcode (use_of instruction_kind).with_b }
{
    !matches!(
        opcode,
        format::POP
            | format::LOAD_CONST
            | format::READ_REF
            | format::WRITE_REF
            | format::RET
            | format::FREEZE
    )
}

// Whether a value of this sort has a type; a sort that is not allowed counts as having one.
#[tactic(auto, using(crate::proofs::Laws::typed), unfolding(laws::specs::Lists::member))]
fn has_type(sort: u8) -> bool
    ensures { result ≡ used_with past_sorts sort (use_of local_kind).with_b }
{
    !matches!(
        sort,
        format::NUMBER | format::NUMBER_REFERENCE | format::NUMBER_READER
    )
}

// Whether a row uses A, B, C and D.
#[tactic(auto, unfolding(crate::specs::Rows::uses_a))]
fn uses_a(row: Row) -> bool
    ensures { result ≡ uses_a row }
{
    0 < kind_of(row).values
}

#[tactic(auto, using(crate::proofs::Laws::never, crate::proofs::Laws::no_b, crate::proofs::Laws::sorted), unfolding(crate::specs::Rows::uses_b, crate::specs::Rows::uses))]
fn uses_b(row: Row) -> bool
    ensures { result ≡ uses_b row }
{
    match row.kind {
        format::FIELD => row.a != format::NUMBER,
        format::LOCAL | format::RESULT => has_type(row.a),
        format::INSTRUCTION => has_operand(row.a),
        _ => false,
    }
}

#[tactic(auto, using(crate::proofs::Laws::never, crate::proofs::Laws::no_c), unfolding(crate::specs::Rows::uses_c, crate::specs::Rows::uses))]
fn uses_c(row: Row) -> bool
    ensures { result ≡ uses_c row }
{
    matches!(row.kind, format::FIELD | format::LOCAL)
}

#[tactic(auto, using(crate::proofs::Laws::constant, crate::proofs::Laws::never, crate::proofs::Laws::no_d), unfolding(crate::specs::Rows::uses_d, crate::specs::Rows::uses))]
fn uses_d(row: Row) -> bool
    ensures { result ≡ uses_d row }
{
    row.kind == format::INSTRUCTION
        && (row.a == format::LOAD_CONST || format::PAST_OPCODES <= row.a)
}

// A part of a row that has no use and is not zero.
fn is_dirty(used: bool, x: u64) -> bool
    ensures { result ≡ dirty used x }
{
    !used && x != 0
}

// 4: an unused byte is not zero.
#[tactic(auto, unfolding(crate::specs::Rows::unused_byte))]
fn unused_byte(row: Row) -> bool
    ensures { result ≡ unused_byte row }
{
    is_dirty(uses_a(row), u64::from(row.a))
        || is_dirty(uses_b(row), u64::from(row.b))
        || is_dirty(uses_c(row), u64::from(row.c))
        || is_dirty(uses_d(row), row.d)
}

// 18: A past its values.
fn bad_a(row: Row) -> bool
    ensures { result ≡ (uses_a row && leb (use_of row.kind).values row.a) }
{
    uses_a(row) && kind_of(row).values <= row.a
}

// 18: a mark in C that is neither 0 nor 1.
fn bad_c(row: Row) -> bool
    ensures { result ≡ bad_c row }
{
    uses_c(row) && 1 < row.c
}

// 18: an Op over 3.
fn bad_op(row: Row) -> bool
    ensures { result ≡ bad_op row }
{
    row.kind == format::INSTRUCTION && row.a == format::OP && format::PAST_OPS <= row.b
}

// The length pass: no bytes, a row that is not whole, or too many rows.
#[tactic(auto, unfolding(crate::specs::Rows::length_of))]
pub fn length_pass(table: &[u8]) -> Result<usize, Refusal>
    ensures { verdict_of result ≡ length_of table.now }
{
    let n = table.len();
    if n == 0 || n % format::ROW_BYTES != 0 || format::ROW_BYTES * format::MAX_ROWS < n {
        return Err(Reason::BadLength.at(0));
    }
    Ok(n / format::ROW_BYTES)
}

// The rows pass.
pub fn rows_pass(table: &[u8]) -> Result<usize, Refusal>
    ensures { verdict_of result ≡ rows_of table.now }
{
    let n = table.len() / format::ROW_BYTES;
    let mut above = Above::NOTHING;
    for i in 0..n {
        let row = table::row_at(table, i);
        if let Some(reason) = above.row_fault(row) {
            return Err(reason.at(i));
        }
        above = above.below(row);
    }
    Ok(n)
}

// Length, then rows.
#[tactic(auto, unfolding(crate::specs::Rows::form_of))]
pub fn form_pass(table: &[u8]) -> Result<usize, Refusal>
    ensures { verdict_of result ≡ form_of table.now }
{
    length_pass(table)?;
    rows_pass(table)
}
