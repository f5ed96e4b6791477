//! Declarations with an index of their names.

ghost use Rattle.std.specs.Prelude.{◌≡◌, ◌<◌, IfOk, Some, length, option_copied, slice_get};
ghost use Rattle.types_spec.specs.types.Declarations.{declaration_of};
ghost use Rattle.types_resolve.specs.scope.Breaks.{names_of_decls};
ghost use Rattle.types_resolve.specs.scope.NamePositions.{number_of, ArePositions, IsPosition};

use crate::scope::name_table::{NameTable, add, empty, find};
use base_data::model::Memory;
use std::alloc::Global;
use std::marker::Model;
use types_spec::types::decl::Decl;

/// A list of declarations with the first index of each declared name. In contracts, an environment
/// is the list of declarations.
#[derive(Drop)]
pub struct Environment<'a> {
    decls: &'a [Decl],
    positions: NameTable<'a>,
}

impl<'a> Model for Environment<'a> {
    ghost use Rattle.std.specs.Prelude.{List, length};
    ghost use Rattle.std.specs.Coded.{codes};
    ghost use Rattle.types_spec.specs.declared.types.decl.Decl.{Decl as Declaration};
    ghost use Rattle.types_spec.specs.types.TyCode.{code};

    ghost Value = { List Declaration };

    ghost coded = { Prim.hlevel (codes, code) };

    ghost use Rattle.types_resolve.specs.scope.Breaks.{names_of_decls};
    ghost use Rattle.types_resolve.specs.scope.NamePositions.{number_of, ArePositions};

    ghost view = { λ e. e.decls.now };

    ghost invariant = { λ e.
        ArePositions (names_of_decls e.decls.now) (length e.decls.now) (number_of e.positions) };
}

/// Builds the table of the first index of each declared name.
fn positions_of<'a>(alloc: Global, decls: &'a [Decl]) -> Result<NameTable<'a>, Memory>
    ensures { IfOk result
        (λ t. ArePositions (names_of_decls decls.now) (length decls.now) (number_of t)) }
{
    let mut table = empty(alloc);
    for i in 0..decls.len() {
        let decl = &decls[i];
        let _ = add(&mut table, decl.name.as_slice(), i)?;
    }
    Ok(table)
}

/// Returns the declaration at an index.
#[inline(always)]
fn nth(decls: &[Decl], position: usize) -> &Decl
    requires { position < length decls.now }
    ensures { slice_get decls.now position ≡ Some result.now }
{
    &decls[position]
}

impl<'a> Environment<'a> {
    /// Builds the environment of the declarations `decls`.
    pub fn new(alloc: Global, decls: &'a [Decl]) -> Result<Environment<'a>, Memory>
        ensures { IfOk result (λ e. e ≡ decls.now) }
    {
        let positions = positions_of(alloc, decls)?;
        Ok(Environment { decls, positions })
    }

    /// Returns all declarations of the environment, in the order of the file.
    #[inline(always)]
    pub fn all(&self) -> &[Decl]
        ensures { result.now ≡ self.now }
    {
        self.decls
    }

    /// Returns the number of declarations in the environment.
    #[inline(always)]
    pub fn len(&self) -> usize
        ensures { result ≡ length self.now }
    {
        self.decls.len()
    }

    /// Returns the declaration at an index.
    #[inline(always)]
    pub fn at(&self, position: usize) -> &Decl
        requires { position < length self.now }
        ensures { slice_get self.now position ≡ Some result.now }
    {
        nth(self.decls, position)
    }

    /// Returns the index of the first declaration of a name, or `None` if the name is not declared.
    #[inline(always)]
    pub fn position(&self, name: &[u8]) -> Option<usize>
        ensures { IsPosition (names_of_decls self.now) (length self.now) name.now result }
    {
        find(&self.positions, name)
    }

    /// Returns the first declaration of a name, or `None` if the name is not declared.
    pub fn get(&self, name: &[u8]) -> Option<&Decl>
        ensures { option_copied result ≡ declaration_of self.now name.now }
    {
        match find(&self.positions, name) {
            Some(j) => Some(nth(self.decls, j)),
            None => None,
        }
    }
}
