ghost use Rattle.std.specs.Prelude.{◌≡◌};
ghost use Rattle.script_values.specs.Reasons.{number_given};
ghost use Rattle.base_types.specs.declared.calls.Value.TheVariants.{Int};
ghost use Rattle.script_values.specs.Values.{is_true, truth, prefixed, quotient, remainder, of_numbers};

use crate::reasons::Reason;
use script_tree::{BinaryOp, UnaryOp};

/// Whether a number counts as true: any other than 0.
pub fn is_true(number: i64) -> bool
    ensures { result ≡ is_true number }
{
    number != 0
}

/// The number that stands for a truth.
pub fn truth(holds: bool) -> i64
    ensures { Int result ≡ truth holds }
{
    if holds { 1 } else { 0 }
}

/// An operator before a number.
pub fn prefixed(op: UnaryOp, number: i64) -> Result<i64, Reason>
    ensures { number_given result ≡ prefixed op number }
{
    match op {
        UnaryOp::Minus => number.checked_neg().ok_or(Reason::Overflow),
        UnaryOp::Not => Ok(truth(!is_true(number))),
    }
}

/// The quotient, rounded towards zero.
fn quotient(left: i64, right: i64) -> Result<i64, Reason>
    ensures { number_given result ≡ quotient left right }
{
    if right == 0 {
        return Err(Reason::Divide);
    }
    left.checked_div(right).ok_or(Reason::Overflow)
}

/// The remainder, which has the dividend's sign.
fn remainder(left: i64, right: i64) -> Result<i64, Reason>
    ensures { number_given result ≡ remainder left right }
{
    if right == 0 {
        return Err(Reason::Divide);
    }
    left.checked_rem(right).ok_or(Reason::Overflow)
}

/// An operator between two numbers.
pub fn of_numbers(op: BinaryOp, left: i64, right: i64) -> Result<i64, Reason>
    ensures { number_given result ≡ of_numbers op left right }
{
    match op {
        BinaryOp::Add => left.checked_add(right).ok_or(Reason::Overflow),
        BinaryOp::Sub => left.checked_sub(right).ok_or(Reason::Overflow),
        BinaryOp::Mul => left.checked_mul(right).ok_or(Reason::Overflow),
        BinaryOp::Div => quotient(left, right),
        BinaryOp::Rem => remainder(left, right),
        BinaryOp::Lt => Ok(truth(left < right)),
        BinaryOp::Le => Ok(truth(left <= right)),
        BinaryOp::Gt => Ok(truth(left > right)),
        BinaryOp::Ge => Ok(truth(left >= right)),
        BinaryOp::Eq => Ok(truth(left == right)),
        BinaryOp::Ne => Ok(truth(left != right)),
        BinaryOp::And => Ok(truth(is_true(left) && is_true(right))),
        BinaryOp::Or => Ok(truth(is_true(left) || is_true(right))),
    }
}
