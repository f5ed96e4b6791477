//! Declarations whose abbreviations can be expanded completely, with an index of their names.

ghost use Rattle.std.specs.Prelude.{◌≡◌, ◌<◌, IfOk, Some, length, option_copied, slice_get};
ghost use Rattle.types_spec.specs.types.WellFormed.{AreSound};
ghost use Rattle.types_spec.specs.types.Declarations.{declaration_of};
ghost use Rattle.types_resolve.specs.scope.Breaks.{names_of_decls};
ghost use Rattle.types_resolve.specs.scope.NamePositions.{IsPosition};

use crate::scope::environment::Environment;
use base_data::model::Memory;
use std::alloc::Global;
use std::marker::Model;
use types_spec::types::decl::Decl;

/// An environment of sound declarations: no abbreviation expands to itself, and the depth of each
/// type is within the limit. In contracts, an environment is its list of declarations.
#[derive(Drop)]
pub struct SoundEnvironment<'a> {
    of: Environment<'a>,
}

impl<'a> Model for SoundEnvironment<'a> {
    ghost use Rattle.std.specs.Prelude.{List};
    ghost use Rattle.std.specs.Coded.{codes};
    ghost use Rattle.types_spec.specs.declared.types.decl.Decl.{Decl as Declaration};
    ghost use Rattle.types_spec.specs.types.TyCode.{code};

    ghost Value = { List Declaration };

    ghost coded = { Prim.hlevel (codes, code) };

    ghost use Rattle.types_spec.specs.types.WellFormed.{AreSound};

    ghost view = { λ e. e.of };

    ghost invariant = { λ e. AreSound e.of };
}

impl<'a> SoundEnvironment<'a> {
    /// Builds the environment of the sound declarations `decls`.
    pub fn new(alloc: Global, decls: &'a [Decl]) -> Result<SoundEnvironment<'a>, Memory>
        requires { AreSound decls.now }
        ensures { IfOk result (λ e. e ≡ decls.now) }
    {
        let of = Environment::new(alloc, decls)?;
        Ok(SoundEnvironment { of })
    }

    /// Lemma function: the declarations of the environment are sound.
    #[inline(always)]
    pub fn holds(&self)
        ensures { AreSound self.now }
    {
        let _ = &self.of;
    }

    /// Returns all declarations of the environment, in the order of the file.
    #[inline(always)]
    pub fn all(&self) -> &[Decl]
        ensures { result.now ≡ self.now }
    {
        self.of.all()
    }

    /// Returns the number of declarations in the environment.
    #[inline(always)]
    pub fn len(&self) -> usize
        ensures { result ≡ length self.now }
    {
        self.of.len()
    }

    /// Returns the declaration at an index.
    #[inline(always)]
    pub fn at(&self, position: usize) -> &Decl
        requires { position < length self.now }
        ensures { slice_get self.now position ≡ Some result.now }
    {
        self.of.at(position)
    }

    /// Returns the index of the first declaration of a name, or `None` if the name is not declared.
    #[inline(always)]
    pub fn position(&self, name: &[u8]) -> Option<usize>
        ensures { IsPosition (names_of_decls self.now) (length self.now) name.now result }
    {
        self.of.position(name)
    }

    /// Returns the first declaration of a name, or `None` if the name is not declared.
    #[inline(always)]
    pub fn get(&self, name: &[u8]) -> Option<&Decl>
        ensures { option_copied result ≡ declaration_of self.now name.now }
    {
        self.of.get(name)
    }
}
