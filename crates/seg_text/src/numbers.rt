//! Whole numbers, editors and names, read from fields.

ghost use Rattle.std.specs.Prelude.{◌≡◌, pos, ◌-ℤ◌, ◌<◌, ◌≤◌, ◌^◌, ◌==◌};
ghost use Rattle.std.specs.Prelude.{position, unsigned_abs, IfSome};
ghost use Rattle.seg_text.specs.Numbers.{digits_of, whole_of, editor_of, serial_of, name_of};

use grid_core::Name;

/// The value of a whole number: 1 to 10 digits, or a minus sign and 1 to 10 digits.
/// `None` where the field isn't one. Takes no memory.
#[tactic(auto, unfolding(crate::specs::Numbers::whole_of))]
pub fn whole(field: &[u8]) -> Option<i64>
    ensures value { result ≡ whole_of field.now }
    ensures small { IfSome result (λ n. unsigned_abs n < 10 ^ 10) }
{
    match field.split_first() {
        Some((b'-', digits)) => Some(minus(read_digits(digits)?)),
        _ => Some(plus(read_digits(field)?)),
    }
}

/// The number of an editor, 1 to 64, given by 1 to 10 digits.
/// `None` where the field isn't one. Takes no memory.
#[tactic(auto, unfolding(crate::specs::Numbers::editor_of))]
pub fn editor(field: &[u8]) -> Option<u8>
    ensures value { result ≡ editor_of field.now }
    ensures known { IfSome result (λ e. (0 < e) × (e ≤ 64)) }
{
    let value = read_digits(field)?;
    if value == 0 || value > 64 {
        return None;
    }
    Some(value as u8)
}

/// A name: an editor, a full stop, and a serial number.
/// `None` where the field isn't one. Takes no memory.
#[tactic(auto, unfolding(crate::specs::Numbers::name_of))]
pub fn name(field: &[u8]) -> Option<Name>
    ensures { result ≡ name_of field.now }
{
    let stop = full_stop(field)?;
    let editor = editor(&field[..stop])?;
    let serial = read_serial(&field[stop + 1..])?;
    Name::new(editor, serial)
}

/// Where the first full stop stands.
fn full_stop(field: &[u8]) -> Option<usize>
    ensures { result ≡ position (λ b. b == 46) field.now }
{
    field.iter().position(|b| *b == b'.')
}

/// A serial number, 1 to 65,535, given by 1 to 10 digits.
#[tactic(auto, unfolding(crate::specs::Numbers::serial_of))]
fn read_serial(field: &[u8]) -> Option<u16>
    ensures value { result ≡ serial_of field.now }
    ensures some { IfSome result (λ k. 0 < k) }
{
    let value = read_digits(field)?;
    if value == 0 || value > 65_535 {
        return None;
    }
    Some(value as u16)
}

/// The value of 1 to 10 digits.
#[tactic(auto, unfolding(crate::specs::Numbers::digits_of))]
fn read_digits(field: &[u8]) -> Option<u64>
    ensures value { result ≡ digits_of field.now }
    ensures small { IfSome result (λ n. n < 10 ^ 10) }
{
    if field.is_empty() || field.len() > 10 {
        return None;
    }
    let mut value = 0;
    for digit in field {
        if !digit.is_ascii_digit() {
            return None;
        }
        value = value * 10 + u64::from(*digit - b'0');
    }
    Some(value)
}

/// `n` as a signed number.
fn plus(n: u64) -> i64
    requires { n < 10 ^ 10 }
    ensures { result ≡ pos n }
{
    n as i64
}

/// `-n`.
fn minus(n: u64) -> i64
    requires { n < 10 ^ 10 }
    ensures { result ≡ pos 0 -ℤ pos n }
{
    -(n as i64)
}
