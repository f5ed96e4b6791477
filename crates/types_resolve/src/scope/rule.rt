//! The scope rules on names.

/// A scope rule on names, in the order in which the rules are checked.
#[derive(Clone, Copy)]
pub enum NameRule {
    /// No type name, parameter, field, constructor or tag may be written twice.
    Twice,
    /// A type name must be predeclared, or declared in the group of its use or in an earlier group.
    UnknownName,
    /// A type name must have as many arguments as its declaration has parameters.
    Arity,
    /// Each variable in a declaration must be a parameter of the declaration.
    UnboundVariable,
    /// No abbreviation may expand to itself.
    Cyclic,
    /// If a type name is used in its own group, an argument that contains a variable must be a
    /// variable.
    Irregular,
    /// At most 244 constructors of a declaration may have arguments.
    TooManyConstructors,
}

/// A scope rule on the use of a type name.
#[derive(Clone, Copy)]
pub enum UseRule {
    UnknownName,
    Arity,
    Irregular,
}
