//! Laws of the rule that every step on a table keeps.

ghost use Rattle.bv_claims.specs.Laws.{NoBlockIsInTwoTokens};

/// Whenever the rule of a table holds, which is before and after each step of any thread, no block
/// is in two tokens.
pub fn no_block_is_in_two_tokens()
    ensures { NoBlockIsInTwoTokens }
{}
