//! Arithmetic on two ints.
ghost use Rattle.std.specs.Prelude.{◌≡◌, ◌+ℤ◌, ◌-ℤ◌, ◌*ℤ◌};
ghost use Rattle.fb_base.specs.Operators.{in_i64, quotient, remainder};

pub(crate) fn sum(a: i64, b: i64) -> Option<i64>
    ensures { result ≡ in_i64 (a +ℤ b) }
{
    a.checked_add(b)
}

pub(crate) fn difference(a: i64, b: i64) -> Option<i64>
    ensures { result ≡ in_i64 (a -ℤ b) }
{
    a.checked_sub(b)
}

pub(crate) fn product(a: i64, b: i64) -> Option<i64>
    ensures { result ≡ in_i64 (a *ℤ b) }
{
    a.checked_mul(b)
}

pub(crate) fn quotient(a: i64, b: i64) -> Option<i64>
    ensures { result ≡ quotient a b }
{
    a.checked_div(b)
}

pub(crate) fn remainder(a: i64, b: i64) -> Option<i64>
    ensures { result ≡ remainder a b }
{
    a.checked_rem(b)
}
