//! What a JSON value is where a form wants a whole number, or a list of lists of them.

ghost use Rattle.std.specs.Prelude.{◌≡◌, Option, IfOk};
ghost use Rattle.serde_json.specs.Data.{Data};
ghost use Rattle.serde_json.specs.View.{view, items_view};
ghost use Rattle.sc_codefile.specs.Value.{whole_number, all_of, list_of};

use sc_outside::NoMemory;
use serde_json::Value;
use std::alloc::Global;
use std::marker::Model;

/// What a form wants of a value.
pub(crate) trait Shape: Sized {
    // What a value is in this shape, where it has it.
    ghost shape: { Data → Option Self };

    /// What the value is in this shape, or `None` where it hasn't it.
    fn of(alloc: Global, value: &Value) -> Result<Option<Self>, NoMemory>
        ensures { IfOk result (λ found. found ≡ shape (view value.now)) };
}

/// A whole number.
impl Shape for u64 {
    ghost shape = { whole_number };

    fn of(_alloc: Global, value: &Value) -> Result<Option<u64>, NoMemory> {
        Ok(value.as_u64())
    }
}

/// A list whose items all have one shape.
#[derive(Drop)]
pub(crate) struct ListOf<T> {
    items: Vec<T>,
}

impl<T> Model for ListOf<T> {
    ghost use Rattle.std.specs.Prelude.{List};
    ghost use Rattle.std.specs.Coded.{coded_list};

    ghost Value = { List T };

    ghost coded = { coded_list T.code };

    ghost view = { λ l. l.items.items };
}

impl<T> ListOf<T> {
    /// The items, in order.
    pub(crate) fn as_slice(&self) -> &[T]
        ensures { result.now ≡ self.now }
    {
        self.items.as_slice()
    }
}

impl<T: Shape + Drop> Shape for ListOf<T> {
    ghost shape = { list_of T.shape };

    fn of(alloc: Global, value: &Value) -> Result<Option<ListOf<T>>, NoMemory> {
        match value.as_array() {
            Some(items) => all_of(alloc, items.as_slice()),
            None => Ok(None),
        }
    }
}

/// What all the values are in one shape, or `None` where one hasn't it.
fn all_of<T: Shape + Drop>(alloc: Global, values: &[Value]) -> Result<Option<ListOf<T>>, NoMemory>
    ensures { IfOk result (λ found. found ≡ all_of T.shape (items_view values.now)) }
{
    let mut items = Vec::with_capacity(alloc, values.len())?;
    for value in values {
        match T::of(alloc, value)? {
            Some(item) => items.push(item)?,
            None => return Ok(None),
        }
    }
    Ok(Some(ListOf { items }))
}
