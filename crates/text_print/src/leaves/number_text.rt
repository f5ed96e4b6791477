//! The texts of numbers.

ghost use Rattle.std.specs.Prelude.{◌≡◌, ◌≤◌, ◌<◌, ◌++◌, ◌+◌, OnOk, decimal, vec_len, vec_capacity};
ghost use Rattle.std.specs.Fmt.{signed_decimal};
ghost use Rattle.text_print.specs.leaves.LeafTexts.{below_text, int32_text, int64_text};
ghost use Rattle.text_print.specs.leaves.LeafTexts.{native_text};
ghost use Rattle.text_print.specs.leaves.LeafTexts.{float_text};

use crate::leaves::escape::write_char;
use crate::leaves::text_bytes::write_few;
use base_data::model::Memory;
use base_data::text::write;
use itoa::Buffer;

/// Appends an integer in decimal.
#[inline(always)]
pub fn write_int(text: &mut Vec<u8>, n: i64) -> Result<(), Memory>
    ensures { OnOk result (text.new.items ≡ text.old.items ++ signed_decimal n) }
{
    if 0 <= n && n < 100_000_000 {
        text.reserve(8)?;
        if n < 10 {
            write_digit(text, n as u64);
        } else {
            write_eight(text, n as u64);
        }
        return Ok(());
    }
    write_long_int(text, n)
}

/// Appends an integer of any length in decimal.
#[inline(never)]
fn write_long_int(text: &mut Vec<u8>, n: i64) -> Result<(), Memory>
    ensures { OnOk result (text.new.items ≡ text.old.items ++ signed_decimal n) }
{
    write(text, Buffer::new().format(n).as_bytes())
}

/// Appends a number of at most eight digits in decimal. Eight bytes must be reserved.
fn write_eight(text: &mut Vec<u8>, n: u64)
    requires few { n < 100000000 }
    requires room { vec_len text.old + 8 ≤ vec_capacity text.old }
    ensures { text.new.items ≡ text.old.items ++ decimal n }
{
    if n < 10_000_000 {
        write_seven(text, n);
    } else {
        write_seven(text, n / 10);
        text.push_reserved(b'0' + (n % 10) as u8);
    }
}

#[inline(always)]
fn write_seven(text: &mut Vec<u8>, n: u64)
    requires few { n < 10000000 }
    requires room { vec_len text.old + 7 ≤ vec_capacity text.old }
    ensures items { text.new.items ≡ text.old.items ++ decimal n }
    ensures len { vec_len text.new ≤ vec_len text.old + 7 }
    ensures capacity { vec_capacity text.new ≡ vec_capacity text.old }
{
    if n < 1_000_000 {
        write_six(text, n);
    } else {
        write_six(text, n / 10);
        text.push_reserved(b'0' + (n % 10) as u8);
    }
}

#[inline(always)]
fn write_six(text: &mut Vec<u8>, n: u64)
    requires few { n < 1000000 }
    requires room { vec_len text.old + 6 ≤ vec_capacity text.old }
    ensures items { text.new.items ≡ text.old.items ++ decimal n }
    ensures len { vec_len text.new ≤ vec_len text.old + 6 }
    ensures capacity { vec_capacity text.new ≡ vec_capacity text.old }
{
    if n < 100_000 {
        write_five(text, n);
    } else {
        write_five(text, n / 10);
        text.push_reserved(b'0' + (n % 10) as u8);
    }
}

#[inline(always)]
fn write_five(text: &mut Vec<u8>, n: u64)
    requires few { n < 100000 }
    requires room { vec_len text.old + 5 ≤ vec_capacity text.old }
    ensures items { text.new.items ≡ text.old.items ++ decimal n }
    ensures len { vec_len text.new ≤ vec_len text.old + 5 }
    ensures capacity { vec_capacity text.new ≡ vec_capacity text.old }
{
    if n < 10_000 {
        write_four(text, n);
    } else {
        write_four(text, n / 10);
        text.push_reserved(b'0' + (n % 10) as u8);
    }
}

#[inline(always)]
fn write_four(text: &mut Vec<u8>, n: u64)
    requires few { n < 10000 }
    requires room { vec_len text.old + 4 ≤ vec_capacity text.old }
    ensures items { text.new.items ≡ text.old.items ++ decimal n }
    ensures len { vec_len text.new ≤ vec_len text.old + 4 }
    ensures capacity { vec_capacity text.new ≡ vec_capacity text.old }
{
    if n < 1000 {
        write_three(text, n);
    } else {
        write_three(text, n / 10);
        text.push_reserved(b'0' + (n % 10) as u8);
    }
}

#[inline(always)]
fn write_three(text: &mut Vec<u8>, n: u64)
    requires few { n < 1000 }
    requires room { vec_len text.old + 3 ≤ vec_capacity text.old }
    ensures items { text.new.items ≡ text.old.items ++ decimal n }
    ensures len { vec_len text.new ≤ vec_len text.old + 3 }
    ensures capacity { vec_capacity text.new ≡ vec_capacity text.old }
{
    if n < 100 {
        write_two(text, n);
    } else {
        write_two(text, n / 10);
        text.push_reserved(b'0' + (n % 10) as u8);
    }
}

#[inline(always)]
fn write_two(text: &mut Vec<u8>, n: u64)
    requires few { n < 100 }
    requires room { vec_len text.old + 2 ≤ vec_capacity text.old }
    ensures items { text.new.items ≡ text.old.items ++ decimal n }
    ensures len { vec_len text.new ≤ vec_len text.old + 2 }
    ensures capacity { vec_capacity text.new ≡ vec_capacity text.old }
{
    if n < 10 {
        write_digit(text, n);
    } else {
        write_digit(text, n / 10);
        text.push_reserved(b'0' + (n % 10) as u8);
    }
}

#[inline(always)]
#[tactic(auto, using(std::proofs::lemmas::Fmt::decimal_digit))]
fn write_digit(text: &mut Vec<u8>, n: u64)
    requires few { n < 10 }
    requires room { vec_len text.old < vec_capacity text.old }
    ensures items { text.new.items ≡ text.old.items ++ decimal n }
    ensures len { vec_len text.new ≡ vec_len text.old + 1 }
    ensures capacity { vec_capacity text.new ≡ vec_capacity text.old }
{
    text.push_reserved(b'0' + n as u8);
}

/// Appends an `int32` literal.
pub fn write_int32(text: &mut Vec<u8>, n: i32) -> Result<(), Memory>
    ensures { OnOk result (text.new.items ≡ text.old.items ++ int32_text n) }
{
    write_int(text, i64::from(n))?;
    write(text, b"l")
}

/// Appends an `int64` literal.
pub fn write_int64(text: &mut Vec<u8>, n: i64) -> Result<(), Memory>
    ensures { OnOk result (text.new.items ≡ text.old.items ++ int64_text n) }
{
    write_int(text, n)?;
    write(text, b"L")
}

/// Appends a `nativeint` literal.
pub fn write_native(text: &mut Vec<u8>, n: i64) -> Result<(), Memory>
    ensures { OnOk result (text.new.items ≡ text.old.items ++ native_text n) }
{
    write_int(text, n)?;
    write(text, b"n")
}

/// Appends a double as `$` and the hexadecimal digits of its bits.
pub fn write_float(text: &mut Vec<u8>, bits: u64) -> Result<(), Memory>
    ensures { OnOk result (text.new.items ≡ text.old.items ++ float_text bits) }
{
    let mut digits = [0; 16];
    hex::encode_to_slice(bits.to_be_bytes(), &mut digits).unwrap();
    text.push(b'$')?;
    write_few(text, &digits)
}

/// Appends a value of `unit`, `bool` or `char`, given the number of values of the type.
pub fn write_below(text: &mut Vec<u8>, many: u64, value: u8) -> Result<(), Memory>
    ensures { OnOk result (text.new.items ≡ text.old.items ++ below_text many value) }
{
    match many {
        1 => write(text, b"()"),
        2 => write(text, if value == 0 { b"false" } else { b"true" }),
        _ => write_char(text, value),
    }
}
