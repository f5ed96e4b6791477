//! Appends bytes to a text.

ghost use Rattle.std.specs.Prelude.{◌≡◌, ◌+◌, ◌≤◌, ◌++◌, length, OnOk, vec_len, vec_capacity};

use base_data::model::Memory;

/// Appends a few bytes one by one. Memory for the bytes must be reserved.
#[inline(always)]
pub fn write_reserved(text: &mut Vec<u8>, bytes: &[u8])
    requires { vec_len text.old + length bytes.now ≤ vec_capacity text.old }
    ensures items { text.new.items ≡ text.old.items ++ bytes.now }
    ensures len { vec_len text.new ≡ vec_len text.old + length bytes.now }
    ensures capacity { vec_capacity text.new ≡ vec_capacity text.old }
{
    for i in 0..bytes.len() {
        text.push_reserved(bytes[i]);
    }
}

/// Appends a name. The caller must have reserved memory for the name. A name of four to eight bytes
/// is written as its first four and its last four bytes.
#[inline(always)]
pub fn write_name_reserved(text: &mut Vec<u8>, name: &[u8])
    requires { vec_len text.old + length name.now ≤ vec_capacity text.old }
    ensures items { text.new.items ≡ text.old.items ++ name.now }
    ensures len { vec_len text.new ≡ vec_len text.old + length name.now }
    ensures capacity { vec_capacity text.new ≡ vec_capacity text.old }
{
    let len = name.len();
    if len < 4 || 8 < len {
        write_reserved(text, name);
        return;
    }
    let middle = text.len() + len - 4;
    write_reserved(text, &[name[0], name[1], name[2], name[3]]);
    text.truncate(middle);
    write_reserved(
        text,
        &[name[len - 4], name[len - 3], name[len - 2], name[len - 1]],
    );
}

/// Appends a name, and allocates memory if needed.
#[inline(always)]
pub fn write_name(text: &mut Vec<u8>, name: &[u8]) -> Result<(), Memory>
    ensures { OnOk result (text.new.items ≡ text.old.items ++ name.now) }
{
    text.reserve(name.len())?;
    write_name_reserved(text, name);
    Ok(())
}

/// Appends a few bytes one by one, and allocates memory if needed.
#[inline(always)]
pub fn write_few(text: &mut Vec<u8>, bytes: &[u8]) -> Result<(), Memory>
    ensures { OnOk result (text.new.items ≡ text.old.items ++ bytes.now) }
{
    text.reserve(bytes.len())?;
    write_reserved(text, bytes);
    Ok(())
}
