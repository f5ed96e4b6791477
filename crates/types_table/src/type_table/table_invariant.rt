//! The table of types with its invariant.

ghost use Rattle.std.specs.Prelude.{◌≡◌, ◌<◌, length, Some, slice_get, IfOk, IfSome};
ghost use Rattle.types_spec.specs.types.TypeText.{type_text};

use crate::store::TypeStore;
use crate::type_table::tabled::Tabled;
use crate::type_table::type_printer::text_in;
use base_data::model::Memory;
use base_data::model::list::List;
use std::alloc::Global;
use std::marker::Model;
use types_spec::types::names::Names;
use types_spec::types::shape::ShapeOf;

/// A table of types against which values can be checked. Contracts see a table as its contents, a
/// `Tabled`.
#[derive(Drop)]
pub struct TypeTable {
    of: Tabled,
}

impl Model for TypeTable {
    ghost use Rattle.std.specs.Coded.{codes};
    ghost use Rattle.types_spec.specs.types.TyCode.{code};
    ghost use Rattle.types_table.specs.declared.type_table.tabled.Tabled.{Tabled};

    ghost Value = { Tabled };

    ghost coded = { Prim.hlevel (codes, code) };

    ghost view = { λ t. t.of };

    ghost use Rattle.types_table.specs.type_table.Made.{IsCheckable};

    ghost invariant = { λ t. IsCheckable t.of };
}

impl TypeTable {
    ghost use Rattle.types_table.specs.type_table.Made.{types_of, IsCheckable};

    /// Makes a table from contents, which must be checkable.
    pub fn new(of: Tabled) -> TypeTable
        requires { IsCheckable of }
        ensures { result ≡ of }
    {
        TypeTable { of }
    }

    /// States the invariant of the table: values can be checked against the table. `holds` is a
    /// lemma function.
    #[inline(always)]
    pub fn holds(&self)
        ensures { IsCheckable self.now }
    {
        let _ = &self.of;
    }

    /// Returns the number of the type for which the table was made, which is always 0.
    pub fn root(&self) -> usize
        ensures { result ≡ 0 }
    {
        0
    }

    /// Returns the number of types in the table.
    pub fn len(&self) -> usize
        ensures { result ≡ length self.now.stored }
    {
        self.of.stored.len()
    }

    /// Returns the number of shapes, which is also the number of entries in the list of classes.
    #[inline(always)]
    pub fn count(&self) -> usize
        ensures nodes { result ≡ length self.now.nodes }
        ensures classes { result ≡ length self.now.classes }
    {
        self.of.nodes.len()
    }

    /// Returns the store that holds the types.
    #[inline(always)]
    pub fn store(&self) -> &TypeStore
        ensures { result.now ≡ self.now.store }
    {
        &self.of.store
    }

    /// Returns the number of each type in the store.
    #[inline(always)]
    pub fn stored(&self) -> &[usize]
        ensures { result.now ≡ self.now.stored }
    {
        self.of.stored.as_slice()
    }

    /// Returns the shapes of all types.
    #[inline(always)]
    pub fn nodes(&self) -> &[ShapeOf<usize>]
        ensures { result.now ≡ self.now.nodes }
    {
        self.of.nodes.as_slice()
    }

    /// Returns the shape of a type.
    #[inline(always)]
    pub fn shape(&self, number: usize) -> &ShapeOf<usize>
        requires { number < length self.now.nodes }
        ensures { slice_get self.now.nodes number ≡ Some result.now }
    {
        &self.of.nodes.as_slice()[number]
    }

    /// Returns the class of a type. Equal types have the same class.
    #[inline(always)]
    pub fn class(&self, number: usize) -> usize
        requires { number < length self.now.classes }
        ensures { slice_get self.now.classes number ≡ Some result }
    {
        self.of.classes.as_slice()[number]
    }

    /// Returns the names in the declaration or variant of a type.
    #[inline(always)]
    pub fn names(&self, number: usize) -> &Names
        requires { number < length self.now.nodes }
        ensures { slice_get self.now.names number ≡ Some result.now }
    {
        &self.of.names.as_slice()[number]
    }

    /// Returns the text of a type in OCaml's syntax.
    pub fn text(&self, alloc: Global, number: usize) -> Result<List<u8>, Memory>
        requires { number < length self.now.stored }
        ensures { IfOk result
            (λ text. IfSome (slice_get (types_of self.now) number) (λ t. text ≡ type_text t)) }
    {
        text_in(alloc, &self.of.store, self.of.stored.as_slice()[number])
    }
}
