//! The type that a run requests, and the table that checks values against it.

ghost use Rattle.std.specs.Prelude.{◌≡◌};
ghost use Rattle.run_types.specs.RequestedTexts.{IsReady};

use base_data::model::list::List;
use std::marker::Model;
use types_spec::types::decl::Decl;
use types_spec::types::ty::Ty;
use types_table::type_table::TypeTable;

/// A type over declarations with its table. If `lines` is true, positions in refused texts are
/// reported as line and column. If `decimal` is true, texts that are parsed at this type may
/// contain doubles as decimals.
#[derive(Drop)]
pub struct Prepared {
    pub decls: List<Decl>,
    pub ty: Ty,
    pub table: TypeTable,
    pub lines: bool,
    pub decimal: bool,
}

/// A type that is sound over well-formed declarations, with the type's own table (`IsReady`). The
/// model is the `Prepared` record.
#[derive(Drop)]
pub struct Requested {
    of: Prepared,
}

impl Model for Requested {
    ghost use Rattle.std.specs.Coded.{codes};
    ghost use Rattle.types_spec.specs.types.TyCode.{code};
    ghost use Rattle.run_types.specs.declared.requested.Prepared.{Prepared as PreparedValue};

    ghost Value = { PreparedValue };

    ghost coded = { Prim.hlevel (codes, code) };

    ghost use Rattle.run_types.specs.RequestedTexts.{IsReady};

    ghost view = { λ r. r.of };

    ghost invariant = { λ r. IsReady r.of };
}

impl Requested {
    /// Creates the requested type from a record that is ready.
    pub fn new(of: Prepared) -> Requested
        requires { IsReady of }
        ensures { result ≡ of }
    {
        Requested { of }
    }

    /// Proves the invariant of the requested type. `holds` is a lemma method, which does nothing at
    /// run time.
    #[inline(always)]
    pub fn holds(&self)
        ensures { IsReady self.now }
    {
        let _ = &self.of;
    }

    /// Returns the table that checks values.
    #[inline(always)]
    pub fn table(&self) -> &TypeTable
        ensures same { result.now ≡ self.now.table }
    {
        &self.of.table
    }

    /// Returns true if positions are reported as line and column.
    #[inline(always)]
    pub fn lines(&self) -> bool
        ensures { result ≡ self.now.lines }
    {
        self.of.lines
    }

    /// Returns true if texts that are parsed at this type may contain doubles as decimals.
    #[inline(always)]
    pub fn decimal(&self) -> bool
        ensures { result ≡ self.now.decimal }
    {
        self.of.decimal
    }
}
