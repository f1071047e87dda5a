//! The tokens that are left to read.

ghost use Rattle.std.specs.Prelude.{◌≡◌, ◌<◌, ◌^◌, false, length, IfOk};
ghost use Rattle.std.specs.Option.{option_map};
ghost use Rattle.gr_meets.specs.Parsers as read;
ghost use Rattle.gr_expressions.specs.TokWords as tok;
ghost use Rattle.gr_expressions.specs.Tok.{toks, heap_name};
ghost use Rattle.gr_expressions.specs.SoundWords.{AreSound};
ghost use Rattle.gr_expressions.specs.GivesWords.{Gives};

use crate::fault::Stop;
use crate::meaning::{atom_of, heap_of, is_sign, is_word, name_of, number_of, object_of, operator};
use gr_syntax::{BinOp, Expr, Name, Number, Place};
use gr_text::{Keyword, Sign, Token};
use std::alloc::{AllocError, Global};
use std::marker::Model;

/// The tokens of a text that are left to read, without the end.
#[derive(Drop)]
pub struct Rest<'a> {
    text: &'a [u8],
    tokens: &'a [Token],
}

impl<'a> Model for Rest<'a> {
    ghost use Rattle.std.specs.Prelude.{List};
    ghost use Rattle.gr_expressions.specs.Tok.{Tok, toks};
    ghost use Rattle.gr_expressions.specs.SoundWords.{AreSound};

    ghost Value = { List Tok };

    ghost view = { λ r. toks r.text.now r.tokens.now };

    ghost invariant = { λ r. AreSound r.text.now r.tokens.now };
}

impl<'a> Rest<'a> {
    /// These tokens of this text.
    pub fn new(text: &'a [u8], tokens: &'a [Token]) -> Rest<'a>
        requires { AreSound text.now tokens.now }
        ensures { result ≡ toks text.now tokens.now }
    {
        Rest { text, tokens }
    }

    /// Whether no token is left.
    #[tactic(auto, unfolding(crate::specs::Tok::toks, gr_meets::specs::Parsers::halts))]
    pub fn is_empty(&self) -> bool
        ensures ends { result ≡ read.halts tok.never self.now }
        ensures few { length self.now < 2 ^ 64 }
    {
        match self.tokens {
            [] => true,
            [_, ..] => false,
        }
    }

    /// Whether a list ends here: no token is left, or the next one is this sign.
    #[tactic(auto, unfolding(crate::specs::Tok::toks, gr_meets::specs::Parsers::halts))]
    pub fn halts(&self, sign: Sign) -> bool
        ensures ends { result ≡ read.halts (tok.is_sign sign) self.now }
        ensures few { length self.now < 2 ^ 64 }
    {
        match self.tokens {
            [] => true,
            [token, ..] => is_sign(token, sign),
        }
    }

    /// The refusal of what comes next, which stands for no part that finds no room.
    #[tactic(auto, unfolding(crate::specs::Tok::toks), using(crate::proofs::Words::sound_sees))]
    pub fn refusal(&self) -> Stop
        ensures stop { result ≡ Stop.Fault (length self.now) }
        ensures room { read.sees tok.is_missing self.now ≡ false }
    {
        Stop::Fault {
            left: self.tokens.len(),
        }
    }

    /// What is left behind the next token.
    #[tactic(auto, unfolding(crate::specs::Tok::toks, gr_meets::specs::Parsers::next))]
    pub fn next(self) -> Rest<'a>
        ensures { result ≡ read.next self.entry }
    {
        match self.tokens {
            [] => self,
            [_, after @ ..] => Rest {
                text: self.text,
                tokens: after,
            },
        }
    }

    /// Whether the next token is this sign.
    #[tactic(auto, unfolding(crate::specs::Tok::toks, gr_meets::specs::Parsers::sees))]
    pub fn sees(&self, sign: Sign) -> bool
        ensures is { result ≡ read.sees (tok.is_sign sign) self.now }
        ensures few { length self.now < 2 ^ 64 }
    {
        match self.tokens {
            [] => false,
            [token, ..] => is_sign(token, sign),
        }
    }

    /// Whether the next token is this word, which is not `heap`.
    #[tactic(auto, unfolding(crate::specs::Tok::toks, gr_meets::specs::Parsers::sees))]
    pub fn sees_word(&self, word: Keyword) -> bool
        ensures { result ≡ read.sees (tok.is_key word) self.now }
    {
        match self.tokens {
            [] => false,
            [token, ..] => is_word(token, word),
        }
    }

    /// The name that comes next, if one does.
    #[tactic(auto, unfolding(crate::specs::Tok::toks, gr_meets::specs::Parsers::peek))]
    pub fn name_ahead(&self, alloc: Global) -> Result<Option<Name>, AllocError>
        ensures { IfOk result (λ name. name ≡ read.peek tok.name_of self.now) }
    {
        match self.tokens {
            [] => Ok(None),
            [token, ..] => name_of(alloc, self.text, token),
        }
    }

    /// The operand of one token that comes next, if one does.
    #[tactic(auto, unfolding(crate::specs::Tok::toks, gr_meets::specs::Parsers::peek))]
    pub fn atom_ahead(&self, alloc: Global) -> Result<Option<Expr>, AllocError>
        ensures { IfOk result (λ atom. atom ≡ read.peek tok.atom_of self.now) }
    {
        match self.tokens {
            [] => Ok(None),
            [token, ..] => atom_of(alloc, self.text, token),
        }
    }

    /// The object of a call that comes next, if one does.
    #[tactic(auto, unfolding(crate::specs::Tok::toks, gr_meets::specs::Parsers::peek))]
    pub fn object_ahead(&self, alloc: Global) -> Result<Option<Name>, AllocError>
        ensures { IfOk result (λ name. name ≡ read.peek tok.object_of self.now) }
    {
        match self.tokens {
            [] => Ok(None),
            [token, ..] => object_of(alloc, self.text, token),
        }
    }

    /// The number that comes next, if one does.
    #[tactic(auto, unfolding(crate::specs::Tok::toks, gr_meets::specs::Parsers::peek))]
    pub fn number_ahead(&self) -> Option<Number>
        ensures { result ≡ read.peek tok.number_of self.now }
    {
        match self.tokens {
            [] => None,
            [token, ..] => number_of(token),
        }
    }

    /// The place of the word `heap` that comes next, if it does.
    #[tactic(auto, unfolding(crate::specs::Tok::toks, gr_meets::specs::Parsers::peek))]
    pub fn heap_ahead(&self) -> Option<Place>
        ensures { read.peek tok.heap_of self.now ≡ option_map heap_name result }
    {
        match self.tokens {
            [] => None,
            [token, ..] => heap_of(token),
        }
    }

    /// The binary sign of this level that comes next, if one does.
    #[tactic(auto, unfolding(crate::specs::Tok::toks, gr_meets::specs::Parsers::peek))]
    pub fn operator_ahead(&self, level: u8) -> Option<BinOp>
        ensures { result ≡ read.peek (tok.operator level) self.now }
    {
        match self.tokens {
            [] => None,
            [token, ..] => operator(token, level),
        }
    }

    /// What is left behind this sign, which has to come next.
    #[tactic(auto, unfolding(gr_meets::specs::Parsers::expect))]
    pub fn expect(self, sign: Sign) -> Result<Rest<'a>, Stop>
        ensures { Gives (λ x. (tt, x)) result (read.expect (tok.is_sign sign) self.entry) }
    {
        if self.sees(sign) {
            Ok(self.next())
        } else {
            Err(self.refusal())
        }
    }

    /// What is left behind this word, which has to come next.
    #[tactic(auto, unfolding(gr_meets::specs::Parsers::expect))]
    pub fn expect_word(self, word: Keyword) -> Result<Rest<'a>, Stop>
        ensures { Gives (λ x. (tt, x)) result (read.expect (tok.is_key word) self.entry) }
    {
        if self.sees_word(word) {
            Ok(self.next())
        } else {
            Err(self.refusal())
        }
    }
}
