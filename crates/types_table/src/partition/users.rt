//! The users of a number: the numbers whose heads have it as a part.

ghost use Rattle.std.specs.Prelude.{ℕ, ◌<◌, length, IfOk, OnOk, Contains};
ghost use Rattle.types_spec.specs.types.Reached.{listed_if};
ghost use Rattle.types_table.specs.partition.Users.{AreUsers, parts_in};
ghost use Rattle.types_table.specs.partition.Lists.{Keeps, Has};

use crate::partition::head_form::HeadForm;
use crate::partition::lists::{make_rooms, write};
use base_data::model::Memory;
use std::alloc::Global;

/// Returns the users of each number.
pub fn users_of(alloc: Global, forms: &[HeadForm]) -> Result<Vec<Vec<usize>>, Memory>
    ensures { IfOk result (λ users. AreUsers forms.now users.items) }
{
    let mut users = Vec::new(alloc);
    make_rooms(alloc, &mut users, forms.len())?;
    for (user, form) in forms.iter().enumerate() {
        add_user(&mut users, form, user)?;
    }
    Ok(users)
}

/// Adds `user` to the users of each part of a form.
fn add_user(users: &mut Vec<Vec<usize>>, form: &HeadForm, user: usize) -> Result<(), Memory>
    ensures keeps { OnOk result (Keeps users.old.items users.new.items) }
    ensures added { OnOk result
        ((k : ℕ) → Contains (parts_in form.now) k → k < length users.old.items
        → Has users.new.items k user) }
{
    for part in form.parts.as_slice() {
        use_part(users, *part, user)?;
    }
    for tag in form.tags.as_slice() {
        use_argument(users, tag.argument, user)?;
    }
    Ok(())
}

/// Adds `user` to the users of a tag's argument, if the tag has one.
fn use_argument(
    users: &mut Vec<Vec<usize>>,
    argument: Option<usize>,
    user: usize,
) -> Result<(), Memory>
    ensures keeps { OnOk result (Keeps users.old.items users.new.items) }
    ensures added { OnOk result
        ((k : ℕ) → Contains (listed_if argument) k → k < length users.old.items
        → Has users.new.items k user) }
{
    match argument {
        Some(part) => {
            use_part(users, part, user)?;
            Ok(())
        }
        None => Ok(()),
    }
}

/// If the number `part` exists, adds `user` to the users of `part`.
fn use_part(users: &mut Vec<Vec<usize>>, part: usize, user: usize) -> Result<(), Memory>
    ensures keeps { OnOk result (Keeps users.old.items users.new.items) }
    ensures added { OnOk result (part < length users.old.items → Has users.new.items part user) }
{
    if part < users.len() {
        write(users, part, user)?;
    }
    Ok(())
}
