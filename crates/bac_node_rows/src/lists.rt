//! Lists that grow.
use bac_rows::row::Row;

/// Adds a value to a list; want of memory is a fault.
pub(crate) fn keep<T: Drop>(value: T, list: &mut Vec<T>, row: &mut Row) {
    if list.push(value).is_err() {
        row.fail();
    }
}
