// Calls, read from tokens.
ghost use Rattle.std.specs.Prelude.{◌≡◌, map, length};
ghost use Rattle.script_tree.specs.Exprs.{expr_tree, call_tree};
ghost use Rattle.script_expressions.specs.TokenReaders.{GivesPart};
ghost use Rattle.script_expressions.specs.Expressions.{expression};
ghost use Rattle.script_expressions.specs.Calls.{place_at, parenthesised, listed, arguments_in, arguments, called_at, call_at};

use crate::cursor::Cursor;
use script_lexer::{ParseFault, Symbol, Token, Word};
use script_tree::{CallExpr, Expr, Items, Literal, Name};
use std::alloc::Global;

impl<'a> Cursor<'a> {
    /// A call, behind its first word. As many as `depth` more braces, parentheses and prefix operators may be
    /// open.
    #[tactic(auto, unfolding(crate::specs::Calls::call_at))]
    pub fn call(&mut self, alloc: Global, depth: u8) -> Result<CallExpr, ParseFault>
        ensures read { GivesPart call_tree result self.new.tokens.now
            (call_at self.old.stop depth self.old.tokens.now) }
        ensures stop { self.new.stop ≡ self.old.stop }
    {
        let target = self.name()?;
        self.expect(Symbol::Slash)?;
        let place = self.place(alloc, depth)?;
        self.called(alloc, depth, target, place)
    }

    // The method of a call and its arguments, behind its type and its key.
    fn called(
        &mut self,
        alloc: Global,
        depth: u8,
        target: Name,
        place: Expr,
    ) -> Result<CallExpr, ParseFault>
        ensures read { GivesPart call_tree result self.new.tokens.now
            (called_at self.old.stop depth target (expr_tree place) self.old.tokens.now) }
        ensures stop { self.new.stop ≡ self.old.stop }
    {
        self.expect(Symbol::Dot)?;
        let method = self.name()?;
        let args = self.arguments(alloc, depth)?;
        Ok(CallExpr::new(target, place, method, args))
    }

    // The key of the grain that is called: a number, a name, the caller's own key, or an expression in
    // parentheses.
    #[tactic(auto, unfolding(crate::specs::Calls::place_at))]
    fn place(&mut self, alloc: Global, depth: u8) -> Result<Expr, ParseFault>
        ensures read { GivesPart expr_tree result self.new.tokens.now
            (place_at self.old.stop depth self.old.tokens.now) }
        ensures stop { self.new.stop ≡ self.old.stop }
    {
        let [first, rest @ ..] = self.tokens else {
            return Err(self.stop);
        };
        let at = first.at;
        match &first.token {
            Token::Int(number) => {
                self.tokens = rest;
                Ok(Expr::literal(Literal::Int(*number)))
            }
            Token::Name(text) => {
                let text = text.copy()?;
                self.tokens = rest;
                Ok(Expr::variable(Name { text, at }))
            }
            Token::Word(Word::Key) => {
                self.tokens = rest;
                Ok(Expr::key())
            }
            _ => self.parenthesised(alloc, depth),
        }
    }

    // An expression in parentheses.
    #[tactic(auto, unfolding(crate::specs::Calls::parenthesised))]
    fn parenthesised(&mut self, alloc: Global, depth: u8) -> Result<Expr, ParseFault>
        ensures read { GivesPart expr_tree result self.new.tokens.now
            (parenthesised self.old.stop depth self.old.tokens.now) }
        ensures stop { self.new.stop ≡ self.old.stop }
    {
        let at = self.expect(Symbol::LeftParen)?;
        if depth == 0 {
            return Err(ParseFault::TooDeep { at });
        }
        self.enclosed(alloc, depth - 1)
    }

    // The arguments in their parentheses.
    #[tactic(auto, unfolding(crate::specs::Calls::arguments))]
    fn arguments(&mut self, alloc: Global, depth: u8) -> Result<Items<Expr>, ParseFault>
        ensures read { GivesPart (λ args. map expr_tree args.list.items) result self.new.tokens.now
            (arguments self.old.stop depth self.old.tokens.now) }
        ensures stop { self.new.stop ≡ self.old.stop }
    {
        let at = self.expect(Symbol::LeftParen)?;
        if depth == 0 {
            return Err(ParseFault::TooDeep { at });
        }
        if self.takes(Symbol::RightParen) {
            return Ok(Items::new(alloc));
        }
        self.expressions(alloc, depth - 1)
    }

    // Expressions with commas between them, and the parenthesis behind the last.
    #[tactic(auto, unfolding(crate::specs::Calls::listed))]
    fn expressions(&mut self, alloc: Global, depth: u8) -> Result<Items<Expr>, ParseFault>
        ensures read { GivesPart (λ found. map expr_tree found.list.items) result self.new.tokens.now
            (listed self.old.stop (expression self.old.stop depth) (length self.old.tokens.now)
            self.old.tokens.now) }
        ensures stop { self.new.stop ≡ self.old.stop }
    {
        let mut found = Items::new(alloc);
        for turn in 0..self.tokens.len() {
            let one = self.expression(alloc, depth)?;
            found.push(one)?;
            if self.takes(Symbol::RightParen) {
                return Ok(found);
            }
            self.expect(Symbol::Comma)?;
        }
        Err(self.refused())
    }
}
