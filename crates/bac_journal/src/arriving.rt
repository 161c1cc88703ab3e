//! Which copies may arrive.
ghost use Rattle.std.specs.Prelude.{◌≡◌, ◌-◌, ◌&&◌, nat_le, map, length, slice_get, List, None, Some};
ghost use Rattle.bac_world.specs.World as world;
ghost use Rattle.bac_world.specs.World.{Note, is_deliverable};
ghost use Rattle.bac_journal.specs.declared.copies.Copy.{Copy};
ghost use Rattle.bac_journal.specs.Records.{IsKept};
ghost use Rattle.bac_journal.specs.Views.{copy_view};

use crate::asks::{Row, known};
use crate::copies::Copy;

/// Whether a copy is young enough, and not overtaken by too many: `sent` copies of its transaction were sent by now.
fn is_young_and_early(overtake: u8, life: u64, now: u64, copy: &Copy, sent: usize) -> bool
    ensures { result ≡ (nat_le (now - copy.now.moment) life && nat_le (sent - copy.now.before - 1) overtake) }
{
    let age = now.saturating_sub(copy.moment);
    let later = sent.saturating_sub(copy.before).saturating_sub(1);
    age <= life && later <= usize::from(overtake)
}

/// Whether a copy may arrive: no later than its life after its sending, and overtaken by no more than so many of its transaction.
pub(crate) fn may_arrive(
    overtake: u8,
    life: u64,
    now: u64,
    copies: &[Copy],
    rows: &[Row],
    copy: &Copy,
) -> bool
    ensures { (notes : List Note) (number : _) → IsKept rows.now copies.now notes → slice_get copies.now number ≡ Some copy.now
        → result ≡ is_deliverable overtake life now number (map copy_view copies.now) (copy_view copy.now) }
{
    copy.transaction.fits();
    match known(rows, &copy.transaction) {
        Some(cell) => is_young_and_early(overtake, life, now, copy, cell.sent),
        None => false,
    }
}

/// Whether the copy of that number may arrive; None where there is none.
pub(crate) fn deliverable(
    overtake: u8,
    life: u64,
    now: u64,
    copies: &[Copy],
    rows: &[Row],
    number: usize,
) -> Option<bool>
    ensures none { slice_get (map copy_view copies.now) number ≡ None → result ≡ None }
    ensures is { (notes : List Note) → IsKept rows.now copies.now notes → (c : world.Copy) → slice_get (map copy_view copies.now) number ≡ Some c
        → result ≡ Some (is_deliverable overtake life now number (map copy_view copies.now) c) }
{
    match copies.get(number) {
        Some(copy) => Some(may_arrive(overtake, life, now, copies, rows, copy)),
        None => None,
    }
}
