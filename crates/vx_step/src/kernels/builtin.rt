//! The kernels that are built in, and which of them answers.

ghost use Rattle.std.specs.Prelude.{◌≡◌, ◌≤◌, IfOk};
ghost use Rattle.vx_value.specs.Errors.{OnlyOutOfMemory};
ghost use Rattle.vx_step.specs.Kernels.{builtin_kernels, kernel_spent_after, IsKernelAnswer, StandsExactly, KernelAnswers};

use crate::kernels::{bool_binary, dict_over_filter};
use std::alloc::Global;
use vx_rule::Spent;
use vx_tree::ArrayRef;
use vx_value::{Id, VortexResult};

/// The kernels that are built in. (own)
#[derive(Clone, Copy, Debug)]
pub enum BuiltinKernelKind {
    /// A dictionary over a filter is one over the filter's child, if its codes are a column and each is null or names a row.
    DictOverFilter,
    /// And and Or of columns of booleans without validities are computed at once.
    BoolBinary,
}

/// A kernel that is built in, with the ids of the parents and of the children for which a session has it. (own)
#[derive(Clone, Copy, Debug)]
pub struct RegisteredBuiltinKernel {
    pub parent: Id,
    pub child: Id,
    pub kind: BuiltinKernelKind,
}

/// The kernels of a session with built-ins.
const BUILTIN_KERNELS: &[RegisteredBuiltinKernel] = &[
    RegisteredBuiltinKernel {
        parent: Id::Dict,
        child: Id::Filter,
        kind: BuiltinKernelKind::DictOverFilter,
    },
    RegisteredBuiltinKernel {
        parent: Id::Binary,
        child: Id::Bool,
        kind: BuiltinKernelKind::BoolBinary,
    },
];

/// Returns the kernels of a session with built-ins, in the order of registration. (own)
pub fn builtin_kernels() -> &'static [RegisteredBuiltinKernel]
    ensures { result.now ≡ builtin_kernels }
{
    BUILTIN_KERNELS
}

/// A kernel that is built in, and what its answers cost so far. Never refuses. (own)
#[derive(Debug, Drop)]
pub struct BuiltinKernel {
    kind: BuiltinKernelKind,
    spent: Spent,
}

impl BuiltinKernel {
    /// Returns the kernel `kind`, which has answered nothing yet. (own)
    pub fn new(kind: BuiltinKernelKind) -> BuiltinKernel
        ensures kind { result.kind ≡ kind }
        ensures spent { result.spent.total ≡ 0 }
    {
        BuiltinKernel {
            kind,
            spent: Spent::new(),
        }
    }

    /// Returns the answer for `filled`, whose slot `slot` was executed, counted from 0: `None` exactly if the kernel declines.
    /// An answer has just the rows of `filled`, those without a value included. Fails only with `OutOfMemory`.
    pub fn ask(
        &mut self,
        alloc: Global,
        filled: &ArrayRef,
        slot: usize,
    ) -> VortexResult<Option<ArrayRef>>
        ensures answer { IfOk result (IsKernelAnswer self.old.kind slot filled.now) }
        ensures stands { IfOk result (StandsExactly filled.now) }
        ensures err { OnlyOutOfMemory result }
        ensures kind { self.new.kind ≡ self.old.kind }
        ensures spent_kept { self.old.spent.total ≤ self.new.spent.total }
        ensures spent { self.new.spent.total ≡ kernel_spent_after self.old.spent.total result }
    {
        let answer = self.kind.answer(alloc, filled, slot)?;
        if let Some(tree) = &answer {
            self.spent.answered(tree);
        }
        Ok(answer)
    }

    /// Returns what the answers cost so far: 1 plus its tree's weight for each. Stays at `u64::MAX`.
    pub fn spent(&self) -> u64
        ensures { result ≡ self.now.spent.total }
    {
        self.spent.count()
    }
}

impl BuiltinKernelKind {
    /// Returns the answer for `filled`, whose slot `slot` was executed: a line for each kernel.
    fn answer(self, alloc: Global, filled: &ArrayRef, slot: usize) -> VortexResult<Option<ArrayRef>>
        ensures { KernelAnswers self slot filled.now result }
    {
        match self {
            BuiltinKernelKind::DictOverFilter => dict_over_filter::answer(alloc, filled, slot),
            BuiltinKernelKind::BoolBinary => bool_binary::answer(alloc, filled, slot),
        }
    }
}
