//! The law of the texts of values, stated as a contract.

ghost use Rattle.std.specs.Prelude.{List};
ghost use Rattle.types_spec.specs.declared.types.decl.Decl.{Decl};
ghost use Rattle.types_spec.specs.types.Names.{names_of};
ghost use Rattle.types_spec.specs.types.Shape.{shape};
ghost use Rattle.text_literal.specs.parser.LiteralAnswers.{shape_in, names_in};
ghost use Rattle.types_table.specs.declared.type_table.tabled.Tabled.{Tabled};
ghost use Rattle.text_roundtrip.specs.literal_texts.Laws.{ValuesAreLiterals};

/// Suppose the names of a type can be read back. Then the text of each value of the type is a
/// literal that starts as the value. The law holds for declared types and for the type indices of a
/// table.
pub fn values_are_literals()
    ensures types { (decls : List Decl) → ValuesAreLiterals (shape decls) (names_of decls) }
    ensures numbers { (table : Tabled) → ValuesAreLiterals (shape_in table) (names_in table) }
{}
