//! The operations on integers of 128 bits: a result that has more bits is no value.
ghost use Rattle.std.specs.Prelude.{◌≡◌, ◌<◌, ◌≤ℤ◌, pos, unsigned_abs, int_div, int_rem};
ghost use Rattle.std.specs.Int.{int_shr};
ghost use Rattle.plai_values.specs.Small.{small_exponent};
ghost use Rattle.plai_values.specs.Values.{in_range, divided, modulo, exact_quotient, shift_count, shifted, times_power_of_two, power, unary_value, binary_value};

use crate::functor::{Binary, Unary};

fn quotient(left: i128, right: i128) -> Option<i128>
    ensures { result ≡ divided int_div left right }
{
    left.checked_div(right)
}

fn remainder(left: i128, right: i128) -> Option<i128>
    ensures { result ≡ divided int_rem left right }
{
    if right == 0 {
        None
    } else {
        Some(left.wrapping_rem(right))
    }
}

fn modulo(left: i128, right: i128) -> Option<i128>
    ensures { result ≡ divided modulo left right }
{
    let rest = remainder(left, right)?;
    if rest == 0 {
        Some(0)
    } else if (rest < 0) == (right < 0) {
        Some(rest)
    } else {
        Some(rest + right)
    }
}

fn exact_quotient(left: i128, right: i128) -> Option<i128>
    ensures { result ≡ exact_quotient left right }
{
    if remainder(left, right)? == 0 {
        quotient(left, right)
    } else {
        None
    }
}

fn shift_count(count: i128) -> Option<u32>
    ensures { result ≡ shift_count count }
{
    if 0 <= count && count < 128 {
        Some(count as u32)
    } else {
        None
    }
}

// Half of the bits and then the others, since 2 ^ 127 has more than 128 bits.
fn times_power_of_two(value: i128, count: u32) -> Option<i128>
    requires { count < 128 }
    ensures { result ≡ in_range (times_power_of_two value count) }
{
    let half = count / 2;
    value
        .checked_mul(2_i128.pow(half))?
        .checked_mul(2_i128.pow(count - half))
}

fn shifted_left(value: i128, count: i128) -> Option<i128>
    ensures { result ≡ shifted times_power_of_two value count }
{
    times_power_of_two(value, shift_count(count)?)
}

fn shifted_right(value: i128, count: i128) -> Option<i128>
    ensures { result ≡ shifted int_shr value count }
{
    Some(value >> shift_count(count)?)
}

// A power with an exponent from 128 on is in range as that with 128 or 129 is, of which one is as even or odd.
fn small_exponent(exponent: i128) -> u32
    requires { pos 0 ≤ℤ exponent }
    ensures { result ≡ small_exponent (unsigned_abs exponent) }
{
    if exponent < 128 {
        exponent as u32
    } else {
        128 + (exponent % 2) as u32
    }
}

fn power(base: i128, exponent: i128) -> Option<i128>
    ensures { result ≡ power base exponent }
{
    if exponent < 0 {
        None
    } else {
        base.checked_pow(small_exponent(exponent))
    }
}

impl Unary {
    /// What the functor gives, if it has 128 bits.
    pub fn value(self, value: i128) -> Option<i128>
        ensures { result ≡ unary_value self value }
    {
        match self {
            Unary::Minus => value.checked_neg(),
            Unary::Complement => Some(!value),
            Unary::Absolute => value.checked_abs(),
            Unary::Sign => Some(value.signum()),
        }
    }
}

impl Binary {
    /// What the functor gives, if it has a value of 128 bits.
    pub fn value(self, left: i128, right: i128) -> Option<i128>
        ensures { result ≡ binary_value self left right }
    {
        match self {
            Binary::Add => left.checked_add(right),
            Binary::Subtract => left.checked_sub(right),
            Binary::Multiply => left.checked_mul(right),
            Binary::Quotient => quotient(left, right),
            Binary::Remainder => remainder(left, right),
            Binary::Modulo => modulo(left, right),
            Binary::Divide => exact_quotient(left, right),
            Binary::And => Some(left & right),
            Binary::Or => Some(left | right),
            Binary::ShiftLeft => shifted_left(left, right),
            Binary::ShiftRight => shifted_right(left, right),
            Binary::Least => Some(left.min(right)),
            Binary::Greatest => Some(left.max(right)),
            Binary::Power => power(left, right),
        }
    }
}
