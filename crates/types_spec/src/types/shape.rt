//! The representation of a type's values (`mlvalues.h`), generic in the type of its parts.

use base_data::model::list::List;

/// A constructor with arguments: whether its block is mutable, and the types of its fields.
#[derive(Drop)]
pub struct Constr<T> {
    pub mutable: bool,
    pub fields: List<T>,
}

/// A tag of a polymorphic variant, by its hash, and the type of its argument.
#[derive(Drop)]
pub struct PolyTag<T> {
    pub hash: i64,
    pub arg: Option<T>,
}

/// The representation of the values of a type. A `bool` is true if the values are mutable.
#[derive(Drop)]
pub enum ShapeOf<T> {
    AnyInt,
    /// The integers from 0 up to the number, exclusive.
    Below(u64),
    Bytes(bool),
    Double,
    Int32,
    Int64,
    Native,
    /// A declared variant: the number of constant constructors, and the constructors with arguments
    /// in the order of their block tags.
    Sum(u64, List<Constr<T>>),
    Product(bool, List<T>),
    /// A record with fields of type `float` only, as one object with the given number of doubles.
    FlatFloats(bool, u64),
    ArrayOf(T),
    FloatArray,
    Poly(List<PolyTag<T>>),
    Variable,
    ArrayOfVariable,
    /// All values, without any requirement.
    Anything,
    /// An array of elements without any requirement. The array may be a flat array of doubles.
    ArrayOfAnything(T),
}
