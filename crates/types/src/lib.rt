#![tactic(auto)]
// "A type is a node number with an inversion bit, and node numbers, types and inversion flags are never exchanged for one another."
// Beside them the answers of unify. The words and numbers mean what scope's definitions say.
ghost use Rattle.std.specs.Prelude.{◌≡◌, true, Some};
ghost use Rattle.scope.specs.Base.{xor};
ghost use Rattle.scope.specs.Types.{flip, ty_of};
ghost use Rattle.scope.specs.Answers.{both, of_bool};
ghost use Rattle.types.specs.Answers.{answer_of, number_of};
ghost use Rattle.types.specs.Texts.{inverted_text, type_text};

use std::fmt;
use std::ops::BitXor;

// A type variable, or its inverse: the high bit denotes the inverse, and the remaining bits are a TypeIdx.
#[derive(Clone, Copy, Debug, PartialEq, Eq)]
pub struct Type(pub u32);

#[derive(Clone, Copy, Debug, PartialEq, Eq)]
pub struct TypeIdx(pub u32);

#[derive(Clone, Copy, Debug, PartialEq, Eq)]
pub struct Inverted(pub bool);

pub const INV_BIT: u32 = 0x8000_0000;

// An impl type: a trait, by its number, over the types that are lent with it, or an error.
// Kept (1): no plainer as an Option: the second case is the Rust's ImplType::Error, which a None would not say.
#[derive(Clone, Copy, Debug, PartialEq, Eq)]
pub enum Impl<'a> {
    Trait(u32, &'a [u32]),
    Error,
}

impl BitXor for Inverted {
    type Output = Inverted;

    ghost bitxor_gives = { λ a b r. r.0 ≡ xor a.0 b.0 };

    fn bitxor(self, other: Inverted) -> Inverted {
        Inverted(self.0 ^ other.0)
    }
}

impl Type {
    pub fn new(inv: Inverted, idx: TypeIdx) -> Type
        ensures { ty_of result.0 ≡ flip inv.0 (ty_of idx.0) }
    {
        Type(idx.0).invert_if(inv)
    }

    pub fn inv(self) -> Inverted
        ensures { result.0 ≡ (ty_of self.0).inv }
    {
        Inverted(INV_BIT <= self.0)
    }

    pub fn idx(self) -> TypeIdx
        ensures { result.0 ≡ (ty_of self.0).idx }
    {
        TypeIdx(self.0 % INV_BIT)
    }

    pub fn invert_if(self, inv: Inverted) -> Type
        ensures { ty_of result.0 ≡ flip inv.0 (ty_of self.0) }
    {
        if inv.0 { self.inverse() } else { self }
    }

    pub fn inverse(self) -> Type
        ensures { ty_of result.0 ≡ flip true (ty_of self.0) }
    {
        Type(self.0 ^ INV_BIT)
    }
}

// A ~ where it says inverted.
impl fmt::Display for Inverted {
    ghost output = { λ i. Some (inverted_text i.0) };

    fn fmt<W: fmt::Write>(&self, f: &mut fmt::Formatter<W>) -> fmt::Result {
        f.write_str(if self.0 { "~" } else { "" })
    }
}

// `3` or `~3`
impl fmt::Display for Type {
    ghost output = { λ t. Some (type_text (ty_of t.0)) };

    fn fmt<W: fmt::Write>(&self, f: &mut fmt::Formatter<W>) -> fmt::Result {
        let inv = self.inv();
        let idx = self.idx().0;
        write!(f, "{inv}{idx}")
    }
}

#[derive(Clone, Copy, Debug, PartialEq, Eq)]
pub enum UnifyResult {
    Success,
    Failure,
    Indeterminate,
}

impl UnifyResult {
    // "Failure outranks Indeterminate, which outranks Success."
    pub fn and(self, other: UnifyResult) -> UnifyResult
        ensures { answer_of result ≡ both (answer_of self) (answer_of other) }
    {
        match (self, other) {
            (UnifyResult::Failure, _) | (_, UnifyResult::Failure) => UnifyResult::Failure,
            (UnifyResult::Indeterminate, _) | (_, UnifyResult::Indeterminate) =>
                UnifyResult::Indeterminate,
            (UnifyResult::Success, UnifyResult::Success) => UnifyResult::Success,
        }
    }
}

impl From<bool> for UnifyResult {
    ghost from_gives = { λ b r. answer_of r ≡ of_bool b };

    fn from(b: bool) -> UnifyResult {
        if b {
            UnifyResult::Success
        } else {
            UnifyResult::Failure
        }
    }
}

// The number of an answer, in the order of the enum.
impl From<UnifyResult> for u32 {
    ghost from_gives = { λ r n. n ≡ number_of r };

    fn from(r: UnifyResult) -> u32 {
        r as u32
    }
}
