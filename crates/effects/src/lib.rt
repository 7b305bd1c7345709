// The kinds of the operands present in a procedure, and what each instruction does to them.
#![tactic(auto)]

ghost use Rattle.std.specs.Prelude.{◌≡◌, ℕ, ◌+◌, ◌/◌, ◌%◌, ◌<◌, List, [], ◌∷◌, cond, not, get_or};
ghost use Rattle.std.specs.Int.NonZero.{non_zero_u8_get};
ghost use Rattle.std.proofs.Math.Nat.{pos_of_ne-zero};
ghost use Rattle.table.specs.Rows.{row_at};
ghost use Rattle.table.specs.Verdicts.{number_of_reason};
ghost use Rattle.table.proofs.Reasons.{reason-faulty};
ghost use Rattle.declarations.specs.Program.{number, number_ref, is_record, is_reference, is_writable, record_of, record_ref, reference_to, frozen, row_kind, field_row, local_kind, kinds_of, field_kinds, parameter_kinds, result_kinds};
ghost use Rattle.effects.specs.Kinds.{fault_by, view, good, failed, taken, pushed, taken_all, pushed_all, top_of, fault_after};
ghost use Rattle.effects.specs.Effects;
ghost use Rattle.effects.specs.Effects.{effect, effect_if, alike, applied, kinds_after};

use declarations::{NUMBER, NUMBER_REF};
use std::num::NonZeroU8;
use table::index::{ProcedureEntry, TypeEntry};
use table::refusals::Reason;
use table::{Row, format};

// What a stack keeps as a fault, by its number: a reason, or any number but 0.
pub trait Fault: Copy {
    ghost fault_number: { Self → ℕ };

    // The fault for a reason.
    fn of(reason: Reason) -> Self
        ensures { fault_number result ≡ number_of_reason reason };

    // No fault has the number 0, which stands for none.
    ghost shows: { (fault : Self) → 0 < fault_number fault };
}

impl Fault for Reason {
    ghost fault_number = { number_of_reason };

    ghost shows = { λ reason. pos_of_ne-zero (reason-faulty reason) };

    fn of(reason: Reason) -> Self {
        reason
    }
}

impl Fault for NonZeroU8 {
    ghost fault_number = { non_zero_u8_get };

    ghost shows = { λ fault. fault.ok };

    fn of(reason: Reason) -> Self {
        NonZeroU8::new(reason.number()).unwrap()
    }
}

// The number of the operands present, and the first fault. Their kinds lie in an array that is lent.
#[derive(Clone, Copy)]
pub struct Stack<F = Reason> {
    pub height: u8,
    pub fault: Option<F>,
}

// Whether an operand of kind `top` can be read as a reference of kind k: it is one, or the read-only one to the same.
#[tactic(auto, using(crate::proofs::Laws::two_off), unfolding(crate::specs::Effects::reads))]
fn reads(k: u32, top: u32) -> bool
    ensures { result ≡ Effects.reads k top }
{
    top == k || (2 <= top && top - 2 == k)
}

// The kind at a height, 0 past the array.
fn kind_at(kinds: &[u32; 16], at: u8) -> u32
    ensures { result ≡ get_or kinds.now at 0 }
{
    kinds.get(at as usize).copied().unwrap_or(0)
}

impl Stack {
    pub const EMPTY: Stack = Stack {
        height: 0,
        fault: None,
    };
}

#[tactic(auto, using(crate::proofs::Laws::views))]
impl<F: Fault> Stack<F> {
    // The stack with this fault, unless it has one.
    fn fail(self, reason: Reason) -> Self
        ensures { (ks : List ℕ) → view F.fault_number ks result ≡ failed (number_of_reason reason) (view F.fault_number ks self) }
    {
        Stack {
            fault: self.fault.or(Some(F::of(reason))),
            ..self
        }
    }

    // Takes one operand of kind k.
    fn take(mut self, kinds: &[u32; 16], k: u32) -> Self
        ensures { view F.fault_number kinds.now result ≡ taken k (view F.fault_number kinds.now self) }
    {
        if self.fault.is_some() {
            return self;
        }
        if self.height == 0 || kind_at(kinds, self.height - 1) != k {
            return self.fail(Reason::WrongOperand);
        }
        self.height -= 1;
        self
    }

    // Pushes one operand of kind k.
    fn push(mut self, kinds: &mut [u32; 16], k: u32) -> Self
        ensures { view F.fault_number kinds.new result ≡ pushed k (view F.fault_number kinds.old self) }
    {
        if self.fault.is_some() {
            return self;
        }
        let at = self.height as usize;
        if format::MAX_OPERANDS <= at {
            return self.fail(Reason::TooManyOperands);
        }
        kinds[at] = k;
        self.height += 1;
        self
    }

    // The top kind, a number where there is none.
    fn top(self, kinds: &[u32; 16]) -> u32
        ensures { result ≡ top_of (view F.fault_number kinds.now self) }
    {
        if self.fault.is_some() || self.height == 0 {
            return NUMBER;
        }
        kind_at(kinds, self.height - 1)
    }

    // Takes operands of the kinds that the rows from `from` to before `to` declare, the last first.
    #[tactic(auto, using(crate::proofs::Laws::rows), unfolding(crate::specs::Kinds::taken_all))]
    fn take_rows(self, kinds: &[u32; 16], table: &[u8], from: usize, to: usize) -> Self
        ensures { view F.fault_number kinds.now result ≡ taken_all (kinds_of table.now from to) (view F.fault_number kinds.now self) }
    {
        let mut stack = self;
        for i in (from..to).rev() {
            stack = stack.take(kinds, declarations::row_kind(table::row_at(table, i)));
        }
        stack
    }

    // Pushes operands of the kinds that the rows from `from` to before `to` declare, the first first.
    #[tactic(auto, using(crate::proofs::Laws::rows), unfolding(crate::specs::Kinds::pushed_all))]
    fn push_rows(self, kinds: &mut [u32; 16], table: &[u8], from: usize, to: usize) -> Self
        ensures { view F.fault_number kinds.new result ≡ pushed_all (kinds_of table.now from to) (view F.fault_number kinds.old self) }
    {
        let mut stack = self;
        for i in from..to {
            stack = stack.push(kinds, declarations::row_kind(table::row_at(table, i)));
        }
        stack
    }

    // The fault that a row earns with this stack after it.
    pub fn fault_after(self, last: bool, other: bool) -> Option<F>
        ensures { (ks : List ℕ) → fault_by F.fault_number result ≡ fault_after (view F.fault_number ks self) last other }
    {
        if self.fault.is_some() {
            self.fault
        } else if last && self.height != 0 {
            Some(F::of(Reason::OperandsLeft))
        } else if other {
            Some(F::of(Reason::ForeignName))
        } else {
            None
        }
    }

    // The stack of the next row: none at the start of a block.
    #[tactic(auto, unfolding(crate::specs::Kinds::top_first))]
    pub fn next(self, last: bool) -> Self
        ensures { (ks : List ℕ) → view F.fault_number ks result ≡ cond last (good []) (view F.fault_number ks self) }
    {
        if last {
            Stack {
                height: 0,
                fault: None,
            }
        } else {
            self
        }
    }
}

// What each instruction does.
#[tactic(auto, unfolding(crate::specs::Effects::applied, crate::specs::Kinds::taken_all, crate::specs::Kinds::pushed_all, declarations::specs::Program::is_reference, declarations::specs::Program::field_kinds, declarations::specs::Program::parameter_kinds, declarations::specs::Program::result_kinds))]
impl<F: Fault> Stack<F> {
    // Pop: a number or a reference.
    fn pop(self, kinds: &[u32; 16]) -> Self
        ensures { view F.fault_number kinds.now result ≡ applied (effect_if (not (is_record (top_of (view F.fault_number kinds.now self)))) (top_of (view F.fault_number kinds.now self) ∷ []) []) (view F.fault_number kinds.now self) }
    {
        let top = self.top(kinds);
        if declarations::is_record(top) {
            return self.fail(Reason::WrongOperand);
        }
        self.take(kinds, top)
    }

    // LoadConst.
    fn load_const(self, kinds: &mut [u32; 16]) -> Self
        ensures { view F.fault_number kinds.new result ≡ applied (effect [] (number ∷ [])) (view F.fault_number kinds.old self) }
    {
        self.push(kinds, NUMBER)
    }

    // MvLoc.
    fn move_local(self, kinds: &mut [u32; 16], table: &[u8], own: ProcedureEntry, b: u16) -> Self
        ensures { view F.fault_number kinds.new result ≡ applied (effect [] (local_kind table.now own b ∷ [])) (view F.fault_number kinds.old self) }
    {
        self.push(kinds, local_kind(table, own, b))
    }

    // CpLoc: a number or a reference.
    fn copy_local(self, kinds: &mut [u32; 16], table: &[u8], own: ProcedureEntry, b: u16) -> Self
        ensures { view F.fault_number kinds.new result ≡ applied (effect_if (not (is_record (local_kind table.now own b))) [] (local_kind table.now own b ∷ [])) (view F.fault_number kinds.old self) }
    {
        let k = local_kind(table, own, b);
        if declarations::is_record(k) {
            return self.fail(Reason::WrongOperand);
        }
        self.push(kinds, k)
    }

    // StLoc.
    fn store_local(self, kinds: &[u32; 16], table: &[u8], own: ProcedureEntry, b: u16) -> Self
        ensures { view F.fault_number kinds.now result ≡ applied (effect (local_kind table.now own b ∷ []) []) (view F.fault_number kinds.now self) }
    {
        self.take(kinds, local_kind(table, own, b))
    }

    // BorrowLoc: a number or a record.
    fn borrow_local(self, kinds: &mut [u32; 16], table: &[u8], own: ProcedureEntry, b: u16) -> Self
        ensures { view F.fault_number kinds.new result ≡ applied (effect_if (not (is_reference (local_kind table.now own b))) [] (reference_to (local_kind table.now own b) ∷ [])) (view F.fault_number kinds.old self) }
    {
        let k = local_kind(table, own, b);
        if declarations::is_reference(k) {
            return self.fail(Reason::WrongOperand);
        }
        self.push(kinds, k + 2)
    }

    // ReadRef: a reference to a number, read-only or not.
    fn read_ref(self, kinds: &mut [u32; 16]) -> Self
        ensures { view F.fault_number kinds.new result ≡ applied (effect_if (Effects.reads number_ref (top_of (view F.fault_number kinds.old self))) (top_of (view F.fault_number kinds.old self) ∷ []) (number ∷ [])) (view F.fault_number kinds.old self) }
    {
        let top = self.top(kinds);
        if reads(NUMBER_REF, top) {
            return self.take(kinds, top).push(kinds, NUMBER);
        }
        self.fail(Reason::WrongOperand)
    }

    // WriteRef: the reference is on top.
    fn write_ref(self, kinds: &[u32; 16]) -> Self
        ensures { view F.fault_number kinds.now result ≡ applied (effect (number ∷ number_ref ∷ []) []) (view F.fault_number kinds.now self) }
    {
        self.take(kinds, NUMBER_REF).take(kinds, NUMBER)
    }

    // BorrowFld: b is type times 8 plus field. What is borrowed through a read-only reference is read-only.
    fn borrow_field(self, kinds: &mut [u32; 16], table: &[u8], named: TypeEntry, b: u16) -> Self
        ensures { view F.fault_number kinds.new result ≡ applied (effect_if (Effects.reads (record_ref (b / 8)) (top_of (view F.fault_number kinds.old self))) (top_of (view F.fault_number kinds.old self) ∷ []) (alike (top_of (view F.fault_number kinds.old self)) (reference_to (row_kind (row_at table.now (field_row named (b % 8))))) ∷ [])) (view F.fault_number kinds.old self) }
    {
        let top = self.top(kinds);
        if reads(declarations::record_ref(b / 8), top) {
            return self
                .take(kinds, top)
                .push(kinds, field_reference(table, named, b, top));
        }
        self.fail(Reason::WrongOperand)
    }

    // Pack: the fields.
    fn pack(self, kinds: &mut [u32; 16], table: &[u8], named: TypeEntry, b: u16) -> Self
        ensures { view F.fault_number kinds.new result ≡ applied (effect (field_kinds table.now named) (record_of b ∷ [])) (view F.fault_number kinds.old self) }
    {
        self.take_rows(kinds, table, (named.row as usize) + 1, named.end as usize)
            .push(kinds, declarations::record_of(b))
    }

    // Unpack: the fields.
    fn unpack(self, kinds: &mut [u32; 16], table: &[u8], named: TypeEntry, b: u16) -> Self
        ensures { view F.fault_number kinds.new result ≡ applied (effect (record_of b ∷ []) (field_kinds table.now named)) (view F.fault_number kinds.old self) }
    {
        self.take(kinds, declarations::record_of(b))
            .push_rows(kinds, table, (named.row as usize) + 1, named.end as usize)
    }

    // MoveTo: the address is on top.
    fn move_to(self, kinds: &[u32; 16], b: u16) -> Self
        ensures { view F.fault_number kinds.now result ≡ applied (effect (record_of b ∷ number ∷ []) []) (view F.fault_number kinds.now self) }
    {
        self.take(kinds, NUMBER)
            .take(kinds, declarations::record_of(b))
    }

    // MoveFrom.
    fn move_from(self, kinds: &mut [u32; 16], b: u16) -> Self
        ensures { view F.fault_number kinds.new result ≡ applied (effect (number ∷ []) (record_of b ∷ [])) (view F.fault_number kinds.old self) }
    {
        self.take(kinds, NUMBER)
            .push(kinds, declarations::record_of(b))
    }

    // BorrowGlobal.
    fn borrow_global(self, kinds: &mut [u32; 16], b: u16) -> Self
        ensures { view F.fault_number kinds.new result ≡ applied (effect (number ∷ []) (record_ref b ∷ [])) (view F.fault_number kinds.old self) }
    {
        self.take(kinds, NUMBER)
            .push(kinds, declarations::record_ref(b))
    }

    // Exists.
    fn exists(self, kinds: &mut [u32; 16]) -> Self
        ensures { view F.fault_number kinds.new result ≡ applied (effect (number ∷ []) (number ∷ [])) (view F.fault_number kinds.old self) }
    {
        self.take(kinds, NUMBER).push(kinds, NUMBER)
    }

    // Call: the parameters and the results.
    fn call(self, kinds: &mut [u32; 16], table: &[u8], callee: ProcedureEntry) -> Self
        ensures { view F.fault_number kinds.new result ≡ applied (effect (parameter_kinds table.now callee) (result_kinds table.now callee)) (view F.fault_number kinds.old self) }
    {
        let end = declarations::parameters_end(table, callee);
        self.take_rows(kinds, table, (callee.row as usize) + 1, end)
            .push_rows(kinds, table, callee.results as usize, callee.code as usize)
    }

    // Ret: the results.
    fn ret(self, kinds: &[u32; 16], table: &[u8], own: ProcedureEntry) -> Self
        ensures { view F.fault_number kinds.now result ≡ applied (effect (result_kinds table.now own) []) (view F.fault_number kinds.now self) }
    {
        self.take_rows(kinds, table, own.results as usize, own.code as usize)
    }

    // BranchCond.
    fn branch_cond(self, kinds: &[u32; 16]) -> Self
        ensures { view F.fault_number kinds.now result ≡ applied (effect (number ∷ []) []) (view F.fault_number kinds.now self) }
    {
        self.take(kinds, NUMBER)
    }

    // Op: two numbers.
    fn op(self, kinds: &mut [u32; 16]) -> Self
        ensures { view F.fault_number kinds.new result ≡ applied (effect (number ∷ number ∷ []) (number ∷ [])) (view F.fault_number kinds.old self) }
    {
        self.take(kinds, NUMBER)
            .take(kinds, NUMBER)
            .push(kinds, NUMBER)
    }

    // Freeze: a reference that can be written through becomes read-only.
    fn freeze(self, kinds: &mut [u32; 16]) -> Self
        ensures { view F.fault_number kinds.new result ≡ applied (effect_if (is_writable (top_of (view F.fault_number kinds.old self))) (top_of (view F.fault_number kinds.old self) ∷ []) (frozen (top_of (view F.fault_number kinds.old self)) ∷ [])) (view F.fault_number kinds.old self) }
    {
        let top = self.top(kinds);
        if declarations::is_writable(top) {
            return self.take(kinds, top).push(kinds, top + 2);
        }
        self.fail(Reason::WrongOperand)
    }

    // One instruction in procedure `own`. `named` is the type that its operand names, `callee` the procedure.
    pub fn step(
        self,
        kinds: &mut [u32; 16],
        table: &[u8],
        row: Row,
        own: ProcedureEntry,
        named: TypeEntry,
        callee: ProcedureEntry,
    ) -> Self
        ensures { view F.fault_number kinds.new result ≡ kinds_after table.now own named callee row (view F.fault_number kinds.old self) }
    {
        let opcode = row.a;
        let b = row.b;
        match opcode {
            format::POP => self.pop(kinds),
            format::LOAD_CONST => self.load_const(kinds),
            format::MV_LOC => self.move_local(kinds, table, own, b),
            format::CP_LOC => self.copy_local(kinds, table, own, b),
            format::ST_LOC => self.store_local(kinds, table, own, b),
            format::BORROW_LOC => self.borrow_local(kinds, table, own, b),
            format::READ_REF => self.read_ref(kinds),
            format::WRITE_REF => self.write_ref(kinds),
            format::BORROW_FLD => self.borrow_field(kinds, table, named, b),
            format::PACK => self.pack(kinds, table, named, b),
            format::UNPACK => self.unpack(kinds, table, named, b),
            format::MOVE_TO => self.move_to(kinds, b),
            format::MOVE_FROM => self.move_from(kinds, b),
            format::BORROW_GLOBAL => self.borrow_global(kinds, b),
            format::EXISTS => self.exists(kinds),
            format::CALL => self.call(kinds, table, callee),
            format::RET => self.ret(kinds, table, own),
            format::BRANCH => self,
            format::BRANCH_COND => self.branch_cond(kinds),
            format::OP => self.op(kinds),
            format::FREEZE => self.freeze(kinds),
            format::PAST_OPCODES..=255 => self.fail(Reason::WrongOperand),
        }
    }
}

// The kind of local b of a procedure.
#[tactic(auto, unfolding(declarations::specs::Program::local_kind))]
fn local_kind(table: &[u8], p: ProcedureEntry, b: u16) -> u32
    ensures { result ≡ local_kind table.now p b }
{
    declarations::row_kind(table::row_at(table, (p.row as usize) + 1 + (b as usize)))
}

// A reference to field b % 8 of a type, borrowed through one of kind `top`: read-only where that is.
#[tactic(auto, unfolding(declarations::specs::Program::row_kind, declarations::specs::Program::field_row, crate::specs::Effects::alike))]
fn field_reference(table: &[u8], y: TypeEntry, b: u16, top: u32) -> u32
    ensures { result ≡ alike top (reference_to (row_kind (row_at table.now (field_row y (b % 8))))) }
{
    let row = table::row_at(table, (y.row as usize) + 1 + ((b % 8) as usize));
    let kind = declarations::row_kind(row) + 2;
    if declarations::is_writable(top) {
        kind
    } else {
        kind + 2
    }
}
