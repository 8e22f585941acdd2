//! What reading an expression promises.

ghost use Rattle.std.specs.Prelude.{◌≡◌, ◌≤◌, ◌++◌, ℕ, List, Ok, true};
ghost use Rattle.forec_tree.specs.declared.token.Token.{Token};
ghost use Rattle.forec_tree.specs.Terms.{Term};
ghost use Rattle.forec_tree.specs.Spelling.{Spelt, tokens, IsWithin, Whole};
ghost use Rattle.expr_parser.specs.Input.{Input, input, kind_ahead, max_level};
ghost use Rattle.expr_parser.specs.Meaning.{ends};
ghost use Rattle.expr_parser.specs.Spelled.{reads, IsSpelledBetween};

/// An expression of its own is read exactly as it is spelled: what is read is spelled so, and what
/// is spelled within the greatest level is read where a mark that ends an expression follows.
pub fn reads_as_spelled()
    ensures sound { (x : Term) (i j : Input) → i.level ≤ max_level → reads i ≡ Ok (x, j) → IsSpelledBetween x i j }
    ensures complete { (x : Term) (v : ℕ) (ls : List Spelt) (rest : List Token) → v ≤ max_level → IsWithin max_level ls
        → Whole x v ls → ends (kind_ahead rest) ≡ true → reads (input (tokens ls ++ rest) v) ≡ Ok (x, input rest v) }
{}
