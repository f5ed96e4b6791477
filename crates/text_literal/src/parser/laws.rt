//! Laws of the parser's definitions. Each function here is a lemma function: it does nothing, and
//! its contract is the law.

ghost use Rattle.std.specs.Prelude.{ℕ, List};
ghost use Rattle.base_data.specs.declared.model.value.Obj.{Obj};
ghost use Rattle.types_lex.specs.declared.lexeme.Lexeme.{Lexeme};
ghost use Rattle.types_table.specs.declared.type_table.tabled.Tabled.{Tabled};
ghost use Rattle.text_literal.specs.parser.LiteralAnswers.{HasOneAnswer};
ghost use Rattle.text_literal.specs.parser.WorkedLiterals.{WorkedLiteralRows};

/// Proves that for each table, type and heap, lexemes have exactly one answer: a value or a fault.
pub fn one_literal_answer()
    ensures { (table : Tabled) (at : ℕ) (lexemes : List Lexeme) (end : ℕ) (old : List Obj)
        → HasOneAnswer table at lexemes end old }
{}

/// Proves that each worked literal has the expected value, or is refused with the expected fault.
pub fn worked_literals_fit()
    ensures { WorkedLiteralRows }
{}
