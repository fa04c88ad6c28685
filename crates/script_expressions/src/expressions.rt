// Expressions, read from tokens by tiers of operators.
ghost use Rattle.std.specs.Prelude.{◌≡◌};
ghost use Rattle.script_tree.specs.Exprs.{expr_tree};
ghost use Rattle.script_expressions.specs.TokenReaders.{GivesPart, Finds};
ghost use Rattle.script_expressions.specs.Expressions.{operator_at, tiers, operand, expression, enclosed};

use crate::cursor::Cursor;
use crate::operators::{Start, joins_of, start_of};
use script_lexer::{ParseFault, Symbol};
use script_tree::{BinaryOp, Expr};
use std::alloc::Global;

/// The most operators between operands of one expression, those inside its parentheses not counted.
const OPERATORS: u8 = 32;

// One turn more than there may be operators.
const TURNS: u8 = 33;

// The tier of `||`, which binds loosest.
const LOOSEST: u8 = 5;

// The tier of comparisons, which don't follow one another.
const COMPARISON: u8 = 3;

impl<'a> Cursor<'a> {
    /// An expression. As many as `depth` more braces, parentheses and prefix operators may be open.
    #[cycle(expression)]
    #[tactic(auto, unfolding(crate::specs::Expressions::expression, crate::specs::Expressions::expression_over))]
    pub fn expression(&mut self, alloc: Global, depth: u8) -> Result<Expr, ParseFault>
        ensures read { GivesPart expr_tree result self.new.tokens.now
            (expression self.old.stop depth self.old.tokens.now) }
        ensures stop { self.new.stop ≡ self.old.stop }
    {
        let (tree, _) = self.tier(alloc, depth, LOOSEST, OPERATORS)?;
        Ok(tree)
    }

    // The operators up to a tier; `room` more operators may follow.
    #[cycle(expression)]
    #[tactic(auto, unfolding(crate::specs::Expressions::tiers))]
    fn tier(
        &mut self,
        alloc: Global,
        depth: u8,
        tier: u8,
        room: u8,
    ) -> Result<(Expr, u8), ParseFault>
        ensures read { GivesPart (λ x. (expr_tree x.0, x.1)) result self.new.tokens.now
            (tiers (operand self.old.stop depth) tier room self.old.tokens.now) }
        ensures stop { self.new.stop ≡ self.old.stop }
    {
        if tier == 0 {
            let tree = self.operand(alloc, depth)?;
            return Ok((tree, room));
        }
        let (mut left, mut spare) = self.tier(alloc, depth, tier - 1, room)?;
        for turn in 0..TURNS {
            let Some((op, at)) = self.operator(tier) else {
                return Ok((left, spare));
            };
            if spare == 0 {
                return Err(ParseFault::TooDeep { at });
            }
            let (right, rest) = self.tier(alloc, depth, tier - 1, spare - 1)?;
            left = Expr::joined(alloc, op, left, right)?;
            spare = rest;
            if tier == COMPARISON {
                return Ok((left, spare));
            }
        }
        Ok((left, spare))
    }

    // Takes an operator of a tier, with its place, where one stands next.
    #[tactic(auto, unfolding(crate::specs::Expressions::operator_at))]
    fn operator(&mut self, tier: u8) -> Option<(BinaryOp, u32)>
        ensures found { Finds result self.new.tokens.now self.old.tokens.now
            (operator_at tier self.old.tokens.now) }
        ensures stop { self.new.stop ≡ self.old.stop }
    {
        let [first, rest @ ..] = self.tokens else {
            return None;
        };
        match joins_of(&first.token) {
            Some((found, op)) if found == tier => {
                self.tokens = rest;
                Some((op, first.at))
            }
            _ => None,
        }
    }

    #[cycle(expression)]
    #[tactic(auto, unfolding(crate::specs::Expressions::operand, crate::specs::Expressions::enclosed))]
    fn operand(&mut self, alloc: Global, depth: u8) -> Result<Expr, ParseFault>
        ensures read { GivesPart expr_tree result self.new.tokens.now
            (operand self.old.stop depth self.old.tokens.now) }
        ensures stop { self.new.stop ≡ self.old.stop }
    {
        let [first, rest @ ..] = self.tokens else {
            return Err(self.stop);
        };
        let at = first.at;
        let start = start_of(first)?;
        self.tokens = rest;
        match start {
            Start::Whole(tree) => Ok(tree),
            Start::NoStart => Err(ParseFault::Unexpected { at }),
            _ if depth == 0 => Err(ParseFault::TooDeep { at }),
            Start::Prefix(op) => {
                let of = self.operand(alloc, depth - 1)?;
                Ok(Expr::prefixed(alloc, op, of)?)
            }
            Start::Open => self.enclosed(alloc, depth - 1),
        }
    }

    /// An expression behind an open parenthesis, and the one that closes it.
    #[cycle(expression)]
    #[tactic(auto, unfolding(crate::specs::Expressions::enclosed, crate::specs::Expressions::enclosed_over, crate::specs::Expressions::expression))]
    pub(crate) fn enclosed(&mut self, alloc: Global, depth: u8) -> Result<Expr, ParseFault>
        ensures read { GivesPart expr_tree result self.new.tokens.now
            (enclosed self.old.stop depth self.old.tokens.now) }
        ensures stop { self.new.stop ≡ self.old.stop }
    {
        let tree = self.expression(alloc, depth)?;
        self.expect(Symbol::RightParen)?;
        Ok(tree)
    }
}
