// The calls by their numbers. What numbers follow each stands beside it, in the module that has it.
use crate::asking::Asking;
use crate::forcing::Forcing;
use crate::joining::Joining;
use crate::lending::Lending;
use crate::making::Making;
use crate::naming::Naming;
use crate::printing::Printing;

// Kept (7): a call is decoded once, into these enums, and matched once, in the module that has it: its numbers are read there, which a closure would be handed.
#[derive(Clone, Copy)]
pub(crate) enum Call {
    Lend(Lending),
    // A word of a slice becomes another: slice 0 to 2, or 3 for the names buffer, word, what it becomes.
    Poke,
    // A case begins: its number.
    Case,
    // Every word that is lent.
    Words,
    Make(Making),
    Name(Naming),
    Force(Forcing),
    Ask(Asking),
    Join(Joining),
    Import,
    Export,
    Print(Printing),
}

// A number that is no call's.
#[derive(Clone, Copy)]
pub(crate) struct NoCall;

impl TryFrom<u32> for Call {
    type Error = NoCall;

    fn try_from(n: u32) -> Result<Call, NoCall> {
        Ok(match n {
            0 => Call::Lend(Lending::Rule),
            1 => Call::Lend(Lending::Text),
            2 => Call::Lend(Lending::Chart),
            3 => Call::Lend(Lending::Beside),
            4 => Call::Lend(Lending::Sizes),
            5 => Call::Poke,
            7 => Call::Case,
            8 => Call::Words,
            9 => Call::Lend(Lending::Swap),
            10 => Call::Make(Making::Open),
            11 => Call::Name(Naming::Reset),
            12 => Call::Make(Making::New),
            13 => Call::Make(Making::NewStruct),
            14 => Call::Make(Making::NewUnion),
            15 => Call::Make(Making::NewVar),
            16 => Call::Make(Making::NewVars),
            17 => Call::Make(Making::Error),
            18 => Call::Make(Making::Nil),
            19 => Call::Force(Forcing::ForceKind),
            20 => Call::Force(Forcing::Finish),
            21 => Call::Force(Forcing::FinishWhere),
            22 => Call::Name(Naming::OpenNames),
            23 => Call::Name(Naming::NameState),
            24 => Call::Name(Naming::ReturnTo),
            25 => Call::Name(Naming::DropName),
            30 => Call::Ask(Asking::Find),
            31 => Call::Join(Joining::FindMut),
            32 => Call::Ask(Asking::Node),
            33 => Call::Ask(Asking::Child),
            34 => Call::Ask(Asking::ChildName),
            35 => Call::Ask(Asking::Figures),
            36 => Call::Ask(Asking::IsNil),
            37 => Call::Ask(Asking::SelfInverse),
            38 => Call::Ask(Asking::SelfInverseParam),
            39 => Call::Ask(Asking::GetMod),
            40 => Call::Ask(Asking::FindRelated),
            41 => Call::Ask(Asking::Store),
            50 => Call::Join(Joining::Unify),
            51 => Call::Join(Joining::UnifyTypes),
            52 => Call::Join(Joining::UnifyObjects),
            53 => Call::Join(Joining::UnifyFnSig),
            54 => Call::Join(Joining::UnifyImplType),
            55 => Call::Join(Joining::ApproxEq),
            60 => Call::Import,
            61 => Call::Export,
            70 => Call::Print(Printing::Show),
            71 => Call::Print(Printing::ShowImplType),
            72 => Call::Print(Printing::ShowPart),
            73 => Call::Print(Printing::ShowImplTypePart),
            _ => return Err(NoCall),
        })
    }
}
