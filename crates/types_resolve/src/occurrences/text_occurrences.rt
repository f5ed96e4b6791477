//! The occurrences in a text whose syntax tree is known.

ghost use Rattle.std.specs.Prelude.{◌≡◌, IfOk, false};
ghost use Rattle.types_parse.specs.grammar.Grammar.{Texpr, texpr, FileTree, file_kinds};
ghost use Rattle.types_resolve.specs.occurrences.InFile.{file_positions};
ghost use Rattle.types_resolve.specs.occurrences.InText.{in_texpr};
ghost use Rattle.types_parse.specs.grammar.LexemeKinds.{kinds_of};
ghost use Rattle.types_parse.specs.parse.WrittenTrees.{type_of_texpr, declarations_of};
ghost use Rattle.types_resolve.specs.scope.Sites.{IsTypeSite, AreSites};
ghost use Rattle.types_resolve.specs.scope.TypeBrackets.{AreBrackets, AreFileBrackets};

use crate::occurrences::file_occurrences::{FileSites, file_sites};
use crate::occurrences::marked::marks;
use crate::occurrences::type_occurrences::{TypeFound, type_site};
use base_data::model::Memory;
use std::alloc::Global;
use types_lex::lexeme::Lexeme;
use types_spec::types::decl::Decl;
use types_spec::types::ty::Ty;

/// Returns the occurrences in the text of a type.
pub fn type_text_site<'a>(
    alloc: Global,
    lexemes: &[Lexeme],
    ty: &'a Ty,
) -> Result<TypeFound<'a>, Memory>
    ghost tree: { Texpr }
    requires lexemes { texpr tree ≡ kinds_of lexemes.now }
    requires ty { ty.now ≡ type_of_texpr tree }
    ensures site { IfOk result (λ found. IsTypeSite found.site (in_texpr 0 false tree)) }
    ensures brackets { IfOk result (λ found. AreBrackets found.brackets (in_texpr 0 false tree)) }
{
    let positions = marks(alloc, lexemes)?;
    type_site(alloc, positions.as_slice(), ty)
}

/// Returns the occurrences in the text of declarations.
pub fn file_text_sites<'a>(
    alloc: Global,
    lexemes: &[Lexeme],
    decls: &'a [Decl],
) -> Result<FileSites<'a>, Memory>
    ghost tree: { FileTree }
    requires lexemes { file_kinds tree ≡ kinds_of lexemes.now }
    requires decls { decls.now ≡ declarations_of tree }
    ensures sites { IfOk result
        (λ found. AreSites decls.now found.names found.sites (file_positions tree)) }
    ensures brackets { IfOk result (λ found. AreFileBrackets found.brackets (file_positions tree)) }
{
    let positions = marks(alloc, lexemes)?;
    file_sites(alloc, positions.as_slice(), decls)
}
