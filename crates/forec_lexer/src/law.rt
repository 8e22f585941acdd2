//! The law of the lexis.
ghost use Rattle.std.specs.Prelude.{◌≡◌, ℕ, List};
ghost use Rattle.forec_tree.specs.declared.token.Token.{Token};
ghost use Rattle.forec_tree.specs.LexedText.{Lexes};

/// A text is lexed in one way: its tokens, its names and the end of its lexed front are determined.
pub fn one_lexing()
    ensures { (text : List ℕ) (ts us : List Token) (ns ms : List (List ℕ)) (a b : ℕ)
        → Lexes text ts ns a → Lexes text us ms b → (ts ≡ us) × (ns ≡ ms) × (a ≡ b) }
{}
