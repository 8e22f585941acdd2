//! A place in a list of tokens, and the level there.

ghost use Rattle.std.specs.Prelude.{◌≡◌, ◌≢◌, length, OnErr, IfErr};
ghost use Rattle.forec_tree.specs.declared.token.Token.{Token};
ghost use Rattle.forec_tree.specs.declared.tree.Name.{Name};
ghost use Rattle.forec_tree.specs.declared.tree.Number.{Number};
ghost use Rattle.expr_parser.specs.Input as spec;
ghost use Rattle.expr_parser.specs.Input.{Reads};
ghost use Rattle.expr_parser.specs.Reading as reading;

use crate::fault::Fault;
use crate::fixed::{Fixed, is_fixed};
use crate::meaning::{name_of, number_of};
use forec_base::MAX_LEVEL;
use forec_tree::{Name, Number, Token, TokenKind};
use std::marker::Model;

/// The tokens from the next one on, and the level after the last one that was read.
#[derive(Drop)]
pub struct Tokens<'t> {
    rest: &'t [Token],
    level: u32,
}

impl<'t> Model for Tokens<'t> {
    ghost use Rattle.expr_parser.specs.Input.{Input};

    ghost Value = { Input };

    ghost use Rattle.expr_parser.specs.Cursor.{input_of};

    ghost view = { input_of };
}

impl<'t> Tokens<'t> {
    /// A place before these tokens, at this level.
    pub fn new(rest: &'t [Token], level: u32) -> Tokens<'t>
        ensures { result ≡ spec.input rest.now level }
    {
        Tokens { rest, level }
    }

    /// The kind of the next token.
    pub fn kind(&self) -> Option<TokenKind>
        ensures { result ≡ spec.kind_ahead self.now.rest }
    {
        match self.rest {
            [] => None,
            [token, ..] => Some(token.kind),
        }
    }

    /// Whether the next token is this one.
    pub fn next_is(&self, fixed: Fixed) -> bool
        ensures { result ≡ reading.next_is fixed self.now }
    {
        is_fixed(fixed, self.kind())
    }

    /// Whether no token is left.
    pub fn at_end(&self) -> bool
        ensures { result ≡ spec.at_end (spec.kind_ahead self.now.rest) }
    {
        match self.kind() {
            None => true,
            Some(_) => false,
        }
    }

    /// How many tokens are left.
    pub fn left(&self) -> usize
        ensures { result ≡ length self.now.rest }
    {
        self.rest.len()
    }

    /// The level after the last token that was read.
    pub fn level(&self) -> u32
        ensures { result ≡ self.now.level }
    {
        self.level
    }

    /// Goes back to a level outside.
    pub fn leave(&mut self, level: u32)
        ensures { self.new ≡ spec.input self.old.rest level }
    {
        self.level = level;
    }

    /// The fault at a token with which no rule goes on.
    pub fn refuse(&self) -> Fault
        ensures { result ≡ Fault.Syntax (length self.now.rest) }
    {
        Fault::Syntax {
            left: self.rest.len(),
        }
    }

    /// The fault at a token that nests too deep.
    pub fn too_deep(&self) -> Fault
        ensures { result ≡ Fault.Deep (length self.now.rest) }
    {
        Fault::Deep {
            left: self.rest.len(),
        }
    }

    /// Takes a token that opens no level.
    #[tactic(auto, unfolding(crate::specs::Input::take))]
    pub fn take(&mut self) -> Result<Token, Fault>
        ensures read { Reads (λ (t : Token). t) (spec.take self.old) result self.new }
        ensures unmoved { OnErr result (self.new ≡ self.old) }
        ensures stands { IfErr result (λ e. spec.RefusesAt e self.new) }
        ensures caused { IfErr result (λ e. e ≢ Fault.OutOfMemory) }
    {
        let Some((token, rest)) = self.rest.split_first() else {
            return Err(Fault::Syntax { left: 0 });
        };
        self.rest = rest;
        Ok(*token)
    }

    /// Takes a token that opens a level.
    #[tactic(auto, unfolding(crate::specs::Input::raise))]
    pub fn raise(&mut self) -> Result<Token, Fault>
        ensures read { Reads (λ (t : Token). t) (spec.raise spec.max_level self.old) result self.new }
        ensures unmoved { OnErr result (self.new ≡ self.old) }
        ensures stands { IfErr result (λ e. spec.RefusesAt e self.new) }
        ensures caused { IfErr result (λ e. e ≢ Fault.OutOfMemory) }
    {
        let Some((token, rest)) = self.rest.split_first() else {
            return Err(Fault::Syntax { left: 0 });
        };
        if self.level >= MAX_LEVEL {
            return Err(Fault::Deep {
                left: self.rest.len(),
            });
        }
        self.level += 1;
        self.rest = rest;
        Ok(*token)
    }

    /// Takes this token, which opens no level.
    #[tactic(auto, unfolding(crate::specs::Reading::close))]
    pub fn close(&mut self, fixed: Fixed) -> Result<Token, Fault>
        ensures read { Reads (λ (t : Token). t) (reading.close fixed self.old) result self.new }
        ensures unmoved { OnErr result (self.new ≡ self.old) }
        ensures stands { IfErr result (λ e. spec.RefusesAt e self.new) }
        ensures caused { IfErr result (λ e. e ≢ Fault.OutOfMemory) }
    {
        if self.next_is(fixed) {
            self.take()
        } else {
            Err(self.refuse())
        }
    }

    /// Takes this token, which opens a level.
    #[tactic(auto, unfolding(crate::specs::Reading::enter))]
    pub fn enter(&mut self, fixed: Fixed) -> Result<Token, Fault>
        ensures read { Reads (λ (t : Token). t) (reading.enter spec.max_level fixed self.old) result self.new }
        ensures unmoved { OnErr result (self.new ≡ self.old) }
        ensures stands { IfErr result (λ e. spec.RefusesAt e self.new) }
        ensures caused { IfErr result (λ e. e ≢ Fault.OutOfMemory) }
    {
        if self.next_is(fixed) {
            self.raise()
        } else {
            Err(self.refuse())
        }
    }

    /// Takes a name.
    #[tactic(auto, unfolding(crate::specs::Reading::name))]
    pub fn name(&mut self) -> Result<Name, Fault>
        ensures read { Reads (λ (n : Name). n) (reading.name self.old) result self.new }
        ensures unmoved { OnErr result (self.new ≡ self.old) }
        ensures stands { IfErr result (λ e. spec.RefusesAt e self.new) }
        ensures caused { IfErr result (λ e. e ≢ Fault.OutOfMemory) }
    {
        match name_of(self.kind()) {
            Some(id) => {
                let token = self.take()?;
                Ok(Name {
                    id,
                    place: token.place,
                })
            }
            None => Err(self.refuse()),
        }
    }

    /// Takes a number.
    #[tactic(auto, unfolding(crate::specs::Reading::read_number))]
    pub fn number(&mut self) -> Result<Number, Fault>
        ensures read { Reads (λ (n : Number). n) (reading.read_number self.old) result self.new }
        ensures unmoved { OnErr result (self.new ≡ self.old) }
        ensures stands { IfErr result (λ e. spec.RefusesAt e self.new) }
        ensures caused { IfErr result (λ e. e ≢ Fault.OutOfMemory) }
    {
        match number_of(self.kind()) {
            Some(value) => {
                let token = self.take()?;
                Ok(Number {
                    value,
                    place: token.place,
                })
            }
            None => Err(self.refuse()),
        }
    }
}
