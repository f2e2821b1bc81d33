ghost use Rattle.std.specs.Prelude.{◌≡◌, map, IfOk, IfErr, All};
ghost use Rattle.lorel_tokens.specs.Forms.{HasForm};
ghost use Rattle.lorel_trees.specs.Trees.{StatementTree, statement_tree};
ghost use Rattle.lorel_trees.specs.Tokens.{HasTokens};
ghost use Rattle.lorel_trees.specs.Sound.{IsSound};

use crate::statements::statement;
use lorel_terms::{Cursor, ParseFault};
use lorel_tokens::TokenList;
use lorel_trees::Statement;
use std::alloc::Global;

/// The statement that has these tokens.
///
/// It answers Syntax exactly where no statement has them: they are none of the forms, nest deeper
/// than 64 levels, or go on behind the statement. It takes steps and memory linear in the tokens,
/// and a stack that grows with the nesting alone.
pub fn parse(alloc: Global, tokens: &TokenList) -> Result<Statement, ParseFault>
    ensures tree { let kinds = map (λ token. token.kind) tokens.now in
        IfOk result (λ statement. HasTokens (statement_tree statement) kinds) }
    ensures none { let kinds = map (λ token. token.kind) tokens.now in
        IfErr result (λ fault. fault ≡ ParseFault.Syntax
        → (tree : StatementTree) → HasTokens tree kinds → ⊥) }
    ensures sound { All (λ token. HasForm token.kind) tokens.now
        → IfOk result (λ statement. IsSound (statement_tree statement)) }
{
    let mut cursor = Cursor::new(tokens.as_slice());
    let statement = statement(alloc, &mut cursor)?;
    if cursor.len() == 0 {
        Ok(statement)
    } else {
        // A drop that is written out is proved once; else it is proved in this function, at length.
        drop(statement);
        Err(ParseFault::Syntax)
    }
}
