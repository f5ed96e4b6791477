//! The state of the streaming check, and the effect of each token on the state.

ghost use Rattle.std.specs.Prelude.{◌≡◌, ◌<◌, ◌^◌, ◌++◌, ◌∷◌, [], ℕ, List, Some, length};
ghost use Rattle.std.specs.Prelude.{IfOk, ℤ};
ghost use Rattle.std.specs.Bool.{OnTrue};
ghost use Rattle.base_data.specs.declared.model.value.Obj.TheVariants as objects;
ghost use Rattle.types_table.specs.type_table.Made.{table_of};
ghost use Rattle.marshal_spec.specs.format.Token.{integer, atom, block, leaf};
ghost use Rattle.marshal_codec.specs.headers.Counting.{IsCountable};
ghost use Rattle.check_stream.specs.theory.AskedNeeds.{hash_of};
ghost use Rattle.check_stream.specs.checker.OpenPositions.{need_of};
ghost use Rattle.check_stream.specs.checker.CheckerState.{Took, TookLeaf, IfTook};
ghost use Rattle.marshal_codec.specs.token.Summary.{custom_leaf};

use crate::checker::open_positions::{BlockPositions, OpenPositions, Requirement};
use crate::checker::stated_words::Words;
use crate::checker::token_fits::{positions_at, shape_of};
use base_data::model::Memory;
use base_data::model::code::{CustomKind, Measure};
use types_spec::types::shape::{PolyTag, ShapeOf};
use types_table::leaf_fits::{fits_atom, fits_doubles, fits_int, tag_of_hash};
use types_table::type_table::TypeTable;

/// The open positions, the types of the objects so far, and the words that the header states for
/// the remaining objects.
#[derive(Drop)]
pub struct CheckState<'a> {
    pub positions: OpenPositions<'a>,
    pub types: Vec<u16>,
    pub words: Words,
}

/// Adds the type of one more object. Returns false if the type's number does not fit into 16 bits.
#[inline(always)]
fn add_type(types: &mut Vec<u16>, ty: usize) -> Result<bool, Memory>
    ensures { IfOk result (λ added. OnTrue added (types.new.items ≡ types.old.items ++ ty ∷ [])) }
{
    if ty >= 1 << 16 {
        return Ok(false);
    }
    if types.len() < types.capacity() {
        types.push_reserved(ty as u16);
    } else {
        types.push(ty as u16)?;
    }
    Ok(true)
}

impl<'a> CheckState<'a> {
    /// Reads an integer token, if the integer satisfies the requirement.
    #[inline(always)]
    pub fn integer(
        &mut self,
        table: &'a TypeTable,
        asked: Requirement<'a>,
        z: i64,
    ) -> Result<bool, Memory>
        ensures { IfTook result
            (Took (table_of table.now) self.old self.new (need_of asked.entry) (integer z)) }
    {
        match asked {
            Requirement::Type(ty) => match shape_of(table, ty) {
                Some(shape) => Ok(fits_int(shape, z)),
                None => Ok(false),
            },
            Requirement::Hash(tags) => self.hash(table, tags, z),
        }
    }

    /// Reads the hash of a tag. After the hash, the first open position requires the argument of
    /// the tag.
    fn hash(
        &mut self,
        table: &'a TypeTable,
        tags: &'a [PolyTag<usize>],
        z: i64,
    ) -> Result<bool, Memory>
        ensures { IfTook result
            (Took (table_of table.now) self.old self.new (hash_of tags.now) (integer z)) }
    {
        let Some(tag) = tag_of_hash(tags, z) else {
            return Ok(false);
        };
        match tag.arg {
            Some(ty) => {
                self.positions.open(BlockPositions::Each(1, ty))?;
                Ok(true)
            }
            None => Ok(false),
        }
    }

    /// Reads an atom. Returns true only if the atom satisfies the requirement.
    pub fn atom(&self, table: &TypeTable, asked: Requirement<'_>, tag: u8) -> bool
        ensures { OnTrue result
            (Took (table_of table.now) self.now self.now (need_of asked.entry) (atom tag)) }
    {
        match asked {
            Requirement::Type(ty) => match shape_of(table, ty) {
                Some(shape) => fits_atom(shape, tag),
                None => false,
            },
            Requirement::Hash(_) => false,
        }
    }

    /// Reads a block, if the block satisfies the requirement. The positions of the block's fields
    /// are opened before all others.
    #[inline(always)]
    pub fn block(
        &mut self,
        table: &'a TypeTable,
        asked: Requirement<'a>,
        tag: u8,
        size: u64,
    ) -> Result<bool, Memory>
        requires { size < 2 ^ 60 }
        ensures { IfTook result
            (Took (table_of table.now) self.old self.new (need_of asked.entry) (block tag size)) }
    {
        let Requirement::Type(ty) = asked else {
            return Ok(false);
        };
        let Some(shape) = shape_of(table, ty) else {
            return Ok(false);
        };
        let Some(fields) = positions_at(shape, ty, tag, size) else {
            return Ok(false);
        };
        if !self.words.spend(Measure::Block(size)) || !add_type(&mut self.types, ty)? {
            return Ok(false);
        }
        self.positions.open(fields)?;
        Ok(true)
    }

    /// Reads an object without fields that matches the type.
    #[inline(always)]
    fn leaf(&mut self, ty: usize, measure: Measure) -> Result<bool, Memory>
        requires { IsCountable measure }
        ensures { IfTook result (TookLeaf self.old self.new ty measure) }
    {
        if !self.words.spend(measure) {
            return Ok(false);
        }
        add_type(&mut self.types, ty)
    }

    /// Reads a string of `size` bytes, if strings satisfy the requirement.
    #[inline(always)]
    pub fn bytes(
        &mut self,
        table: &TypeTable,
        asked: Requirement<'_>,
        size: u64,
    ) -> Result<bool, Memory>
        ensures { IfTook result
            ((all : List ℕ) → length all ≡ size
            → Took (table_of table.now) self.old self.new
            (need_of asked.entry) (leaf (objects.Bytes all))) }
    {
        let Requirement::Type(ty) = asked else {
            return Ok(false);
        };
        match shape_of(table, ty) {
            Some(ShapeOf::Bytes(_)) if size < 1 << 60 => self.leaf(ty, Measure::Bytes(size)),
            Some(ShapeOf::Anything) if size < 1 << 60 => self.leaf(ty, Measure::Bytes(size)),
            _ => Ok(false),
        }
    }

    /// Reads a double, if doubles satisfy the requirement.
    #[inline(always)]
    pub fn double(&mut self, table: &TypeTable, asked: Requirement<'_>) -> Result<bool, Memory>
        ensures { IfTook result
            ((bits : ℕ)
            → Took (table_of table.now) self.old self.new
            (need_of asked.entry) (leaf (objects.Double bits))) }
    {
        let Requirement::Type(ty) = asked else {
            return Ok(false);
        };
        match shape_of(table, ty) {
            Some(ShapeOf::Double) => self.leaf(ty, Measure::Double),
            Some(ShapeOf::Anything) => self.leaf(ty, Measure::Double),
            _ => Ok(false),
        }
    }

    /// Reads an array of `size` doubles, if the array satisfies the requirement.
    pub fn doubles(
        &mut self,
        table: &TypeTable,
        asked: Requirement<'_>,
        size: u64,
    ) -> Result<bool, Memory>
        ensures { IfTook result
            ((all : List ℕ) → length all ≡ size
            → Took (table_of table.now) self.old self.new
            (need_of asked.entry) (leaf (objects.Doubles all))) }
    {
        let Requirement::Type(ty) = asked else {
            return Ok(false);
        };
        match shape_of(table, ty) {
            Some(shape) if size < 1 << 60 && fits_doubles(shape, size) => {
                self.leaf(ty, Measure::Doubles(size))
            }
            _ => Ok(false),
        }
    }

    /// Reads a custom block, if the custom block satisfies the requirement.
    pub fn custom(
        &mut self,
        table: &TypeTable,
        asked: Requirement<'_>,
        kind: CustomKind,
    ) -> Result<bool, Memory>
        ensures { IfTook result
            ((z : ℤ)
            → Took (table_of table.now) self.old self.new (need_of asked.entry)
            (leaf (custom_leaf kind z))) }
    {
        let Requirement::Type(ty) = asked else {
            return Ok(false);
        };
        let Some(shape) = shape_of(table, ty) else {
            return Ok(false);
        };
        match kind {
            CustomKind::Int32 => match shape {
                ShapeOf::Int32 => self.leaf(ty, Measure::Custom(4, 4)),
                ShapeOf::Anything => self.leaf(ty, Measure::Custom(4, 4)),
                _ => Ok(false),
            },
            CustomKind::Int64 => match shape {
                ShapeOf::Int64 => self.leaf(ty, Measure::Custom(8, 8)),
                ShapeOf::Anything => self.leaf(ty, Measure::Custom(8, 8)),
                _ => Ok(false),
            },
            CustomKind::Native => match shape {
                ShapeOf::Native => self.leaf(ty, Measure::Custom(4, 8)),
                ShapeOf::Anything => self.leaf(ty, Measure::Custom(4, 8)),
                _ => Ok(false),
            },
        }
    }
}
