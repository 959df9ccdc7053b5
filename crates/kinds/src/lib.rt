#![tactic(auto)]
// "The fifteen kinds stand in one fixed table of rows, each giving children and self-duality."
// The table is scope's `rows`, and each test says of a code what scope's definition says of its row.
ghost use Rattle.std.specs.Prelude.{◌≡◌};
ghost use Rattle.scope.specs.Kinds.{row_of, dual_by, shape_fits, flex_ok, number_ok};
ghost use Rattle.kinds.specs.Rows.{shape_number, number_number, as_row, sort_fits};

// "Codes are 0 to 14 in `TypeKind`'s order in 000."
// Kept (1): the tests of refusals 4 and 8 read a Kind whose code may be any number, by functions that read it afterwards too, as `layout::node_at` and `row_of` here.
// An enum of codes would want a second type of kind beside that one, and each of those functions twice.
pub const PARAM: u32 = 0;

pub const TUPLE: u32 = 1;

pub const OBJECT: u32 = 2;

pub const OPAQUE: u32 = 3;

pub const STRUCT: u32 = 4;

pub const ENUM: u32 = 5;

pub const UNION: u32 = 6;

pub const FN: u32 = 7;

pub const CLOSURE: u32 = 8;

pub const REF: u32 = 9;

pub const KEY: u32 = 10;

pub const IF_CONST: u32 = 11;

pub const NEVER: u32 = 12;

pub const DEFAULT: u32 = 13;

pub const ERROR: u32 = 14;

// A row's child shape.
#[derive(Clone, Copy, Debug, PartialEq, Eq)]
pub enum Shape {
    NoChildren,
    One,
    Two,
    Run,
    // Of a Closure "its parameters, then its return".
    Signature,
}

// A row's self-duality: no, yes, "as the chart's flag says".
#[derive(Clone, Copy, Debug, PartialEq, Eq)]
pub enum SelfDual {
    No,
    Yes,
    AsChart,
}

// What the kind's number is: none, "any u32", a definition's, which has one of the two sorts.
#[derive(Clone, Copy, Debug, PartialEq, Eq)]
pub enum Number {
    No,
    Any,
    Definition(u32, u32),
}

// What names the kind has: none, its own, one for each child, "for each parameter, a name or none".
#[derive(Clone, Copy, Debug, PartialEq, Eq)]
pub enum Names {
    No,
    Own,
    OfChildren,
    OfParameters,
}

// The chart's sorts: "opaque, struct, enum, union, concrete fn, const, trait, trait fn: 0 to 7"; NO_SORT is what a number that the chart lacks has.
// Kept (1): a sort is a word of the lent chart, which may be any number until test 2, and is compared with these numbers, and no more. NO_SORT is one more that fits
// no row: a test takes it as it takes any number above 7, so an Option would say twice that there is none.
pub const OPAQUE_SORT: u32 = 0;

pub const STRUCT_SORT: u32 = 1;

pub const ENUM_SORT: u32 = 2;

pub const UNION_SORT: u32 = 3;

pub const CONCRETE_FN_SORT: u32 = 4;

pub const CONST_SORT: u32 = 5;

pub const TRAIT_SORT: u32 = 6;

pub const TRAIT_FN_SORT: u32 = 7;

pub const NO_SORT: u32 = 8;

// "`Flex` 0 to 3"
pub const MAX_FLEX: u32 = 3;

#[derive(Clone, Copy, Debug, PartialEq, Eq)]
pub struct Row {
    pub shape: Shape,
    pub dual: SelfDual,
    pub number: Number,
    pub names: Names,
}

// One row for each code, in the codes' order. It is a static, so that it takes no room in the frame of whoever reads it.
static ROWS: [Row; 15] = [
    // Param
    Row {
        shape: Shape::NoChildren,
        dual: SelfDual::No,
        number: Number::Any,
        names: Names::Own,
    },
    // Tuple
    Row {
        shape: Shape::Run,
        dual: SelfDual::Yes,
        number: Number::No,
        names: Names::No,
    },
    // Object
    Row {
        shape: Shape::Run,
        dual: SelfDual::Yes,
        number: Number::No,
        names: Names::OfChildren,
    },
    // Opaque
    Row {
        shape: Shape::Run,
        dual: SelfDual::No,
        number: Number::Definition(OPAQUE_SORT, OPAQUE_SORT),
        names: Names::No,
    },
    // Struct
    Row {
        shape: Shape::Run,
        dual: SelfDual::AsChart,
        number: Number::Definition(STRUCT_SORT, STRUCT_SORT),
        names: Names::No,
    },
    // Enum
    Row {
        shape: Shape::Run,
        dual: SelfDual::No,
        number: Number::Definition(ENUM_SORT, ENUM_SORT),
        names: Names::No,
    },
    // Union
    Row {
        shape: Shape::Run,
        dual: SelfDual::AsChart,
        number: Number::Definition(UNION_SORT, UNION_SORT),
        names: Names::No,
    },
    // Fn
    Row {
        shape: Shape::NoChildren,
        dual: SelfDual::No,
        number: Number::Definition(CONCRETE_FN_SORT, TRAIT_FN_SORT),
        names: Names::No,
    },
    // Closure
    Row {
        shape: Shape::Signature,
        dual: SelfDual::No,
        number: Number::Any,
        names: Names::OfParameters,
    },
    // Ref
    Row {
        shape: Shape::One,
        dual: SelfDual::No,
        number: Number::No,
        names: Names::No,
    },
    // Key
    Row {
        shape: Shape::NoChildren,
        dual: SelfDual::No,
        number: Number::No,
        names: Names::Own,
    },
    // IfConst
    Row {
        shape: Shape::Two,
        dual: SelfDual::Yes,
        number: Number::Definition(CONST_SORT, CONST_SORT),
        names: Names::No,
    },
    // Never
    Row {
        shape: Shape::NoChildren,
        dual: SelfDual::No,
        number: Number::No,
        names: Names::No,
    },
    // Default
    Row {
        shape: Shape::NoChildren,
        dual: SelfDual::Yes,
        number: Number::No,
        names: Names::No,
    },
    // Error
    Row {
        shape: Shape::NoChildren,
        dual: SelfDual::Yes,
        number: Number::No,
        names: Names::No,
    },
];

// The row that no kind has.
const NO_ROW: Row = Row {
    shape: Shape::NoChildren,
    dual: SelfDual::No,
    number: Number::No,
    names: Names::No,
};

// A code above 14 has a row that no kind has.
pub fn row_of(code: u32) -> Row
    ensures { as_row result ≡ row_of code }
{
    if code <= ERROR {
        ROWS[code as usize]
    } else {
        NO_ROW
    }
}

// A kind's self-duality, by its row or by the chart's flag.
pub fn self_dual(code: u32, flag: bool) -> bool
    ensures { result ≡ dual_by (row_of code).dual flag }
{
    match row_of(code).dual {
        SelfDual::No => false,
        SelfDual::Yes => true,
        SelfDual::AsChart => flag,
    }
}

// n children fit the row's kind.
pub fn row_fits(row: Row, n: usize) -> bool
    ensures { result ≡ shape_fits (shape_number row.shape) n }
{
    match row.shape {
        Shape::NoChildren => n == 0,
        Shape::One => n == 1,
        Shape::Two => n == 2,
        Shape::Run => true,
        Shape::Signature => 1 <= n,
    }
}

// n children fit the kind.
pub fn shape_fits(code: u32, n: usize) -> bool
    ensures { result ≡ shape_fits (row_of code).shape n }
{
    row_fits(row_of(code), n)
}

// A kind without a `Flex` has 0.
pub fn flex_ok(code: u32, flex: u32) -> bool
    ensures { result ≡ flex_ok code flex }
{
    if code == CLOSURE {
        flex <= MAX_FLEX
    } else {
        flex == 0
    }
}

// A kind that has no number has 0.
pub fn row_number_ok(row: Row, n: u32) -> bool
    ensures { result ≡ number_ok (number_number row.number) n }
{
    row.number != Number::No || n == 0
}

pub fn number_ok(code: u32, n: u32) -> bool
    ensures { result ≡ number_ok (row_of code).number n }
{
    row_number_ok(row_of(code), n)
}

// A definition of this sort is one of the code's kind; a kind of no definition asks for none.
pub fn sort_fits(code: u32, sort: u32) -> bool
    ensures { result ≡ sort_fits (row_of code) sort }
{
    match row_of(code).number {
        Number::Definition(a, b) => sort == a || sort == b,
        Number::No | Number::Any => true,
    }
}
