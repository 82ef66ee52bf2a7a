//! Numbers in binary, by the sets of the places of their one bits.

ghost use Rattle.std.specs.Prelude.{◌≡◌, ◌++◌, ◌<◌, ◌^◌, OnOk, nat_lt, replicate, string_bytes};
ghost use Rattle.ms_logic.specs.FiniteSet.{IsRising};
ghost use Rattle.ms_report.specs.Numbers.{also_decimal, binary, number_of_set, number_text};

use std::alloc::AllocError;

/// Appends the number of a set in binary, and in decimal too where it is below 2 ^ 128.
pub(crate) fn push_binary(text: &mut String, set: &[u64]) -> Result<(), AllocError>
    requires { IsRising set.now }
    ensures { OnOk result (string_bytes text.new ≡ string_bytes text.old ++ number_text (number_of_set set.now)) }
{
    text.push_str("0b")?;
    push_digits(text, set)?;
    push_decimal(text, set)
}

/// Appends the binary digits, the highest first.
fn push_digits(text: &mut String, set: &[u64]) -> Result<(), AllocError>
    requires { IsRising set.now }
    ensures { OnOk result (string_bytes text.new ≡ string_bytes text.old ++ binary (number_of_set set.now)) }
{
    let Some(least) = set.first() else {
        return text.push_str("0");
    };
    text.push_str("1")?;
    for i in (0..set.len() - 1).rev() {
        push_zeros(text, set[i + 1] - set[i] - 1)?;
        text.push_str("1")?;
    }
    push_zeros(text, *least)
}

fn push_zeros(text: &mut String, count: u64) -> Result<(), AllocError>
    ensures { OnOk result (string_bytes text.new ≡ string_bytes text.old ++ replicate count 48) }
{
    for _ in 0..count {
        text.push_str("0")?;
    }
    Ok(())
}

/// Appends the decimal spelling of a number below 2 ^ 128.
fn push_decimal(text: &mut String, set: &[u64]) -> Result<(), AllocError>
    requires { IsRising set.now }
    ensures { OnOk result (string_bytes text.new ≡ string_bytes text.old ++ also_decimal (number_of_set set.now)) }
{
    if !has_decimal(set) {
        return Ok(());
    }
    let number = number(set);
    write!(text, " = {number}")
}

/// Whether the number of a set is below 2 ^ 128.
fn has_decimal(set: &[u64]) -> bool
    requires { IsRising set.now }
    ensures { result ≡ nat_lt (number_of_set set.now) (2 ^ 128) }
{
    match set.last() {
        None => true,
        Some(greatest) => *greatest < 128,
    }
}

/// The number of a set, where it is below 2 ^ 128.
fn number(set: &[u64]) -> u128
    requires { number_of_set set.now < 2 ^ 128 }
    ensures { result ≡ number_of_set set.now }
{
    let mut number = 0;
    for place in set {
        number += 1u128 << *place;
    }
    number
}
