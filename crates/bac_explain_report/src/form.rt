//! The forms in which a report on transactions is printed.
ghost use Rattle.std.specs.Prelude.{◌≡◌, ℕ, List, Option, IfOk, map};
ghost use Rattle.bac_explain.specs.Closings.{told_view};
ghost use Rattle.bac_explain.specs.Tables.{ClosedView};
ghost use Rattle.bac_explain_report.specs.AccountViews.{report_view};
ghost use Rattle.bac_explain_report.specs.Accounts.{FrameReportView};
ghost use Rattle.bac_explain_report.specs.DeviceViews.{device_view};
ghost use Rattle.bac_explain_report.specs.Devices.{DeviceView};
ghost use Rattle.bac_explain_report.specs.declared.selection.Selection.{Selection as Picked};
ghost use Rattle.bac_explain_report.specs.declared.tally.Tally.{Tally as Counts};

use crate::devices::Device;
use crate::frame_report::FrameReport;
use crate::selection::Selection;
use crate::tally::Tally;
use bac_explain::{Transaction, TransactionKey};
use bac_value::NoMemory;
use std::alloc::Global;

/// A form in which a report on transactions is printed: the text of each of its parts.
pub trait ReportForm {
    // What is printed above the frames.
    ghost front: { List ℕ };

    // What is printed of a transaction.
    ghost IsOne: { ClosedView → (text : List ℕ) → Type 0 };

    // What is printed of the report on the frame with a number and a moment, if it has one.
    ghost IsTold: { (number : ℕ) → (moment : Option ℕ) → FrameReportView → (text : List ℕ) → Type 0 };

    // What is printed at the end.
    ghost AreLast: { Picked → Counts → List DeviceView → (text : List ℕ) → Type 0 };

    /// The text above the frames.
    fn front_text(&self) -> &'static str
        ensures { result.now ≡ front };

    /// The text of a transaction. An Err is out of memory.
    fn transaction_text(
        &self,
        alloc: Global,
        key: TransactionKey,
        transaction: &Transaction,
    ) -> Result<Vec<u8>, NoMemory>
        ensures { IfOk result (λ t. IsOne (told_view key transaction.now) t.items) };

    /// The text of the report on the frame with this number, from 1, and this moment in milliseconds, where the file has one. An Err is out of memory.
    fn frame_text(
        &self,
        alloc: Global,
        number: u64,
        moment: Option<u64>,
        told: &FrameReport,
    ) -> Result<Vec<u8>, NoMemory>
        ensures { IfOk result (λ t. IsTold number moment (report_view told.now) t.items) };

    /// The text at the end: how many of the transactions were printed, where a filter is given, and the counts, also those of each server. An Err is out of
    /// memory.
    fn last_text(
        &self,
        alloc: Global,
        selection: Selection,
        tally: Tally,
        devices: &[Device],
    ) -> Result<Vec<u8>, NoMemory>
        ensures { IfOk result (λ t. AreLast selection tally (map device_view devices.now) t.items) };
}
