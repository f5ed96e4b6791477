//! The table of predeclared types in code, and the functions that read the table. The contract of
//! `rows` states that the table equals the table of the definitions.

ghost use Rattle.std.specs.Prelude.{◌≡◌, map, option_map};
ghost use Rattle.std.specs.Str.{bytes_eq};
ghost use Rattle.types_spec.specs.types.Declarations.{predeclared, predeclared_arity};
ghost use Rattle.types_spec.specs.types.Predeclared.{meant, predeclared_from, sum_of, sum_at};
ghost use Rattle.types_spec.specs.types.Predeclared.{name_at, rows as the_rows};
ghost use Rattle.types_spec.specs.types.PredeclaredCode.{table_row, meaning_row, sum_row_of};

use crate::types::decl::Predeclared;

/// The type of a field of a predeclared variant: an argument of the variant, by its index, or the
/// variant itself with its own arguments.
#[derive(Clone, Copy)]
pub enum SumField {
    Argument(usize),
    Itself,
}

/// A constructor with arguments: the name of the constructor, whether its block is mutable, and its
/// fields.
#[derive(Clone, Copy)]
pub struct BlockRow {
    pub name: &'static [u8],
    pub mutable: bool,
    pub fields: &'static [SumField],
}

/// A predeclared variant: its number of parameters, its constant constructors, and its constructors
/// with arguments, in the order of their tags.
#[derive(Clone, Copy)]
pub struct SumRow {
    pub parameters: usize,
    pub constants: &'static [&'static [u8]],
    pub blocks: &'static [BlockRow],
}

/// The meaning of a predeclared name: a type with a representation of its own, or a variant.
#[derive(Clone, Copy)]
pub enum RowMeaning {
    Base(Predeclared),
    Sum(SumRow),
}

/// A predeclared name, and the meaning of the name.
#[derive(Clone, Copy)]
pub struct TableRow {
    pub name: &'static [u8],
    pub meaning: RowMeaning,
}

// The rows of the definition `rows`, in the order of the definition.
static ROWS: [TableRow; 16] = [
    TableRow {
        name: b"int",
        meaning: RowMeaning::Base(Predeclared::Int),
    },
    TableRow {
        name: b"char",
        meaning: RowMeaning::Base(Predeclared::Char),
    },
    TableRow {
        name: b"bool",
        meaning: RowMeaning::Base(Predeclared::Bool),
    },
    TableRow {
        name: b"unit",
        meaning: RowMeaning::Base(Predeclared::Unit),
    },
    TableRow {
        name: b"string",
        meaning: RowMeaning::Base(Predeclared::String),
    },
    TableRow {
        name: b"bytes",
        meaning: RowMeaning::Base(Predeclared::Bytes),
    },
    TableRow {
        name: b"float",
        meaning: RowMeaning::Base(Predeclared::Float),
    },
    TableRow {
        name: b"int32",
        meaning: RowMeaning::Base(Predeclared::Int32),
    },
    TableRow {
        name: b"int64",
        meaning: RowMeaning::Base(Predeclared::Int64),
    },
    TableRow {
        name: b"nativeint",
        meaning: RowMeaning::Base(Predeclared::Nativeint),
    },
    TableRow {
        name: b"floatarray",
        meaning: RowMeaning::Base(Predeclared::Floatarray),
    },
    TableRow {
        name: b"list",
        meaning: RowMeaning::Sum(SumRow {
            parameters: 1,
            constants: &[b"[]"],
            blocks: &[BlockRow {
                name: b"::",
                mutable: false,
                fields: &[SumField::Argument(0), SumField::Itself],
            }],
        }),
    },
    TableRow {
        name: b"option",
        meaning: RowMeaning::Sum(SumRow {
            parameters: 1,
            constants: &[b"None"],
            blocks: &[BlockRow {
                name: b"Some",
                mutable: false,
                fields: &[SumField::Argument(0)],
            }],
        }),
    },
    TableRow {
        name: b"array",
        meaning: RowMeaning::Base(Predeclared::Array),
    },
    TableRow {
        name: b"ref",
        meaning: RowMeaning::Sum(SumRow {
            parameters: 1,
            constants: &[],
            blocks: &[BlockRow {
                name: b"ref",
                mutable: true,
                fields: &[SumField::Argument(0)],
            }],
        }),
    },
    TableRow {
        name: b"_",
        meaning: RowMeaning::Base(Predeclared::Any),
    },
];

/// Returns the table.
fn rows() -> &'static [TableRow]
    ensures { map table_row result.now ≡ the_rows }
{
    &ROWS
}

/// Returns the predeclared type that the meaning in row `number` denotes.
fn meant(number: usize, meaning: RowMeaning) -> Predeclared
    ensures { result ≡ meant number (meaning_row meaning) }
{
    match meaning {
        RowMeaning::Base(base) => base,
        RowMeaning::Sum(_) => Predeclared::Sum(number),
    }
}

/// Returns true if the two byte strings are equal.
fn is(word: &[u8], name: &[u8]) -> bool
    ensures { result ≡ bytes_eq word.now name.now }
{
    word == name
}

/// Returns the predeclared type of the first row with this name, or `None` if no row has the name.
fn meaning_of(rows: &[TableRow], name: &[u8]) -> Option<Predeclared>
    ensures { result ≡ predeclared_from 0 (map table_row rows.entry.now) name.now }
{
    for k in 0..rows.len() {
        let row = rows[k];
        if is(row.name, name) {
            return Some(meant(k, row.meaning));
        }
    }
    None
}

/// Returns the predeclared type with this name.
pub fn predeclared(name: &[u8]) -> Option<Predeclared>
    ensures { result ≡ predeclared name.now }
{
    meaning_of(rows(), name)
}

/// Returns the variant of a meaning, or `None` if the meaning is no variant.
fn sum_of(meaning: RowMeaning) -> Option<SumRow>
    ensures { option_map sum_row_of result ≡ sum_of (meaning_row meaning) }
{
    match meaning {
        RowMeaning::Base(_) => None,
        RowMeaning::Sum(row) => Some(row),
    }
}

/// Returns the variant in row `number`, or `None` if there is no variant in the row.
pub fn sum(number: usize) -> Option<SumRow>
    ensures { option_map sum_row_of result ≡ sum_at number }
{
    let all = rows();
    if number < all.len() {
        sum_of(all[number].meaning)
    } else {
        None
    }
}

/// Returns the name in row `number`, or the empty name if there is no row `number`.
pub fn name(number: usize) -> &'static [u8]
    ensures { result.now ≡ name_at number }
{
    let all = rows();
    if number < all.len() {
        all[number].name
    } else {
        &[]
    }
}

/// Returns the number of arguments of a predeclared type.
pub fn arity(base: Predeclared) -> usize
    ensures { result ≡ predeclared_arity base }
{
    match base {
        Predeclared::Array => 1,
        Predeclared::Sum(number) => match sum(number) {
            Some(row) => row.parameters,
            None => 0,
        },
        _ => 0,
    }
}

/// Returns the number of arguments of a predeclared name, or `None` if the name is not predeclared.
pub fn predeclared_arity(name: &[u8]) -> Option<usize>
    ensures { result ≡ option_map predeclared_arity (predeclared name.now) }
{
    match predeclared(name) {
        Some(base) => Some(arity(base)),
        None => None,
    }
}
