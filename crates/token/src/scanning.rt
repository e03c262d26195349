// Going through a source token by token.
ghost use Rattle.std.specs.Prelude.{◌≡◌, ◌∷◌};
ghost use Rattle.token.specs.Tokens.{tokens, tokens_from, behind, gap as gap_of};
ghost use Rattle.token.specs.Stands.{kind_of, token_of};

use crate::lead::{gap, lead};
use crate::scanner::Scanner;
use crate::token::Token;

impl<'a> Scanner<'a> {
    // At the start of a source.
    pub fn new(source: &'a [u8]) -> Scanner<'a>
        ensures { tokens_from result.at result.rest.now ≡ tokens source.now }
    {
        Scanner {
            rest: source,
            at: 0,
        }
    }

    // The next token. At the end it is the end, again and again.
    pub fn next(&mut self) -> Token<'a>
        ensures { tokens_from self.old.at self.old.rest.now ≡ token_of result ∷ behind (kind_of result.kind) (tokens_from self.new.at self.new.rest.now) }
    {
        self.skip();
        let at = self.at;
        let lead = lead(self.rest);
        self.rest = &self.rest[lead.width..];
        self.at = at + lead.width;
        Token {
            kind: lead.kind,
            at,
        }
    }

    // Passes over white space and comments.
    fn skip(&mut self)
        ensures same { tokens_from self.new.at self.new.rest.now ≡ tokens_from self.old.at self.old.rest.now }
        ensures none { gap_of self.new.rest.now ≡ 0 }
    {
        let mut rest = self.rest;
        let mut at = self.at;
        loop {
            let width = gap(rest);
            if width == 0 {
                break;
            }
            rest = &rest[width..];
            at += width;
        }
        self.rest = rest;
        self.at = at;
    }
}
