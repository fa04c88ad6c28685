ghost use Rattle.std.specs.Prelude.{◌≡◌, Ok};
ghost use Rattle.script_tree.specs.Exprs.{expr_tree};
ghost use Rattle.script_expressions.specs.TokenReaders.{Makes};
ghost use Rattle.script_expressions.specs.Expressions.{joins, starts, start_tree};

use script_lexer::{ParseFault, Spanned, Symbol, Token, Word};
use script_tree::{BinaryOp, Expr, Literal, Name, UnaryOp};

/// How an operand begins: it is whole, or an operator or a parenthesis stands before more; or it doesn't.
#[derive(Drop)]
pub(crate) enum Start {
    Whole(Expr),
    Prefix(UnaryOp),
    Open,
    NoStart,
}

/// How an operand begins with this token.
pub(crate) fn start_of(first: &Spanned) -> Result<Start, ParseFault>
    ensures { Makes start_tree result (Ok (starts first.now.token first.now.at)) }
{
    Ok(match &first.token {
        Token::Name(text) => {
            let text = text.copy()?;
            Start::Whole(Expr::variable(Name { text, at: first.at }))
        }
        Token::Int(number) => Start::Whole(Expr::literal(Literal::Int(*number))),
        Token::Text(text) => {
            let text = text.copy()?;
            Start::Whole(Expr::literal(Literal::Chars(text)))
        }
        Token::Word(Word::Key) => Start::Whole(Expr::key()),
        Token::Symbol(Symbol::Minus) => Start::Prefix(UnaryOp::Minus),
        Token::Symbol(Symbol::Not) => Start::Prefix(UnaryOp::Not),
        Token::Symbol(Symbol::LeftParen) => Start::Open,
        _ => Start::NoStart,
    })
}

/// The operator between operands that a token is, with its tier: a higher one binds looser.
pub(crate) fn joins_of(token: &Token) -> Option<(u8, BinaryOp)>
    ensures { result ≡ joins token.now }
{
    let Token::Symbol(symbol) = token else {
        return None;
    };
    match symbol {
        Symbol::Star => Some((1, BinaryOp::Mul)),
        Symbol::Slash => Some((1, BinaryOp::Div)),
        Symbol::Percent => Some((1, BinaryOp::Rem)),
        Symbol::Plus => Some((2, BinaryOp::Add)),
        Symbol::Minus => Some((2, BinaryOp::Sub)),
        Symbol::Equal => Some((3, BinaryOp::Eq)),
        Symbol::NotEqual => Some((3, BinaryOp::Ne)),
        Symbol::Less => Some((3, BinaryOp::Lt)),
        Symbol::LessEqual => Some((3, BinaryOp::Le)),
        Symbol::Greater => Some((3, BinaryOp::Gt)),
        Symbol::GreaterEqual => Some((3, BinaryOp::Ge)),
        Symbol::And => Some((4, BinaryOp::And)),
        Symbol::Or => Some((5, BinaryOp::Or)),
        _ => None,
    }
}
