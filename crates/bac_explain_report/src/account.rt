//! The state of `explain`: what is printed, the open transactions, and the counts.
ghost use Rattle.std.specs.Prelude.{◌≡◌, IfOk};
ghost use Rattle.std.specs.Option.{option_map};
ghost use Rattle.bac_capture.specs.BlockViews.{frame_view};
ghost use Rattle.bac_explain.specs.KeyViews.{key_view};
ghost use Rattle.bac_explain.specs.Sightings.{sighting_view};
ghost use Rattle.bac_explain.specs.Tables.{awaited};
ghost use Rattle.bac_explain_report.specs.Accounts.{broken_off, frame_heard, fresh, is_again, is_alone, is_answered, is_sent, is_told, sighting_heard, told_by};
ghost use Rattle.bac_explain_report.specs.Taking.{IsTaken};
ghost use Rattle.bac_explain_report.specs.AccountViews.{account_view, report_view};
ghost use Rattle.bac_explain_report.specs.Selections.{told_finding};

use crate::devices::{Device, count_both};
use crate::frame_report::{FrameReport, Hearing};
use crate::seeing::seen_of;
use crate::selection::ReportOptions;
use crate::tally::Tally;
use crate::unread::Unread;
use bac_capture::{FileFault, Frame, Ports};
use bac_explain::{Explainer, Finding, Heard, Role, Sighting, Step, TransactionKey};
use std::alloc::{AllocError, Global};

/// What is printed, the open transactions, and the counts.
#[derive(Drop)]
pub struct Account {
    pub alloc: Global,
    pub options: ReportOptions,
    pub explainer: Explainer,
    pub tally: Tally,
    /// How the transactions of each server ended.
    pub devices: Vec<Device>,
}

/// Whether an APDU with this role is of a request or a reply.
fn is_sent(role: Role) -> bool
    ensures { result ≡ is_sent role }
{
    match role {
        Role::Request(_) | Role::Answer(_) => true,
        Role::Acknowledgement(_) | Role::GivesUp => false,
    }
}

impl Account {
    /// The state before the first frame. Returns an Err if the allocation of the table of transactions fails.
    pub fn new(alloc: Global, options: ReportOptions) -> Result<Account, AllocError>
        ensures { IfOk result (λ a. account_view a ≡ fresh options) }
    {
        let explainer = Explainer::new(alloc)?;
        Ok(Account {
            alloc,
            options,
            explainer,
            tally: Tally::none(),
            devices: Vec::new(alloc),
        })
    }

    /// What is wrong with an APDU, if it is to be printed: its transaction passes as it stands.
    fn told_finding(
        &self,
        now: u64,
        key: TransactionKey,
        finding: Option<Finding>,
    ) -> Option<Finding>
        ensures { result ≡ told_finding self.now.options.selection (key_view key) (awaited now (key_view key) self.now.explainer) finding }
    {
        let finding = finding?;
        let selection = self.options.selection;
        let takes = match self.explainer.awaited(now, &key) {
            Some(transaction) => selection.passes(key, transaction),
            None => selection.takes_alone(key),
        };
        if takes { Some(finding) } else { None }
    }

    /// Whether a finding that is printed is of no transaction.
    fn is_alone(&self, now: u64, key: TransactionKey, told: Option<Finding>) -> bool
        ensures { result ≡ is_alone (awaited now (key_view key) self.now.explainer) told }
    {
        told.is_some() && self.explainer.awaited(now, &key).is_none()
    }

    /// Whether a transaction was told.
    fn is_told(&self, now: u64, key: TransactionKey) -> bool
        ensures { result ≡ is_told (awaited now (key_view key) self.now.explainer) }
    {
        match self.explainer.awaited(now, &key) {
            Some(transaction) => transaction.told,
            None => false,
        }
    }

    /// Whether an APDU is a request or a reply of a transaction that was told, with nothing wrong.
    fn is_again(&self, now: u64, sighting: Sighting<'_>, finding: Option<Finding>) -> bool
        ensures { result ≡ is_again (sighting_view sighting.entry).role finding (awaited now (sighting_view sighting.entry).key self.now.explainer) }
    {
        is_sent(sighting.role) && finding.is_none() && self.is_told(now, sighting.key)
    }

    /// Whether a transaction is told now: it is over, passes, and was not told.
    fn is_answered(&self, now: u64, key: TransactionKey) -> bool
        ensures { result ≡ is_answered self.now.options (key_view key) (awaited now (key_view key) self.now.explainer) }
    {
        match self.explainer.awaited(now, &key) {
            Some(transaction) => {
                self.options.early
                    && !transaction.told
                    && transaction.is_over()
                    && self.options.selection.passes(key, transaction)
            }
            None => false,
        }
    }

    /// Hears an APDU, and keeps its frame.
    fn take(&mut self, now: u64, sighting: Sighting<'_>) -> Result<Heard, AllocError>
        ensures { IfOk result (λ h. IsTaken now (sighting_view sighting.entry) (account_view self.old) (account_view self.new) h) }
    {
        let strict_ids = self.options.strict_ids;
        let heard = self.explainer.hear(self.alloc, now, sighting, strict_ids)?;
        let step = Step {
            frame: self.tally.frames,
            moment: now,
            role: sighting.role,
            finding: heard.finding,
        };
        self.explainer.trace(now, &sighting.key, step)?;
        Ok(heard)
    }

    /// Notes that a transaction is told, if it is.
    fn tell(&mut self, answered: bool, now: u64, key: TransactionKey)
        ensures { account_view self.new ≡ record (account_view self.old) { slots = told_by answered now (key_view key) self.old.explainer } }
    {
        if answered {
            self.explainer.tell(now, &key);
        }
    }

    /// Handles an APDU of a transaction. Returns the report on its frame.
    fn hear_sighting(&mut self, now: u64, sighting: Sighting<'_>) -> Result<FrameReport, AllocError>
        ensures { IfOk result (λ t. (report_view t, account_view self.new) ≡ sighting_heard now (sighting_view sighting.entry) (account_view self.old)) }
    {
        let key = sighting.key;
        let over = self.explainer.pop_over(now);
        let heard = self.take(now, sighting)?;
        count_both(&mut self.devices, &over, &heard.closed)?;
        let selection = self.options.selection;
        let finding = self.told_finding(now, key, heard.finding);
        let again = self.is_again(now, sighting, heard.finding);
        let answered = self.is_answered(now, key);
        self.tally = self
            .tally
            .with_blocks(selection, &over)
            .with_blocks(selection, &heard.closed)
            .with_finding(heard.finding)
            .with_alone(self.is_alone(now, key, finding));
        self.tell(answered, now, key);
        Ok(FrameReport::Heard(Hearing {
            key,
            over: selection.shown(over),
            closed: selection.shown(heard.closed),
            finding,
            again,
            answered,
        }))
    }

    /// Handles a frame.
    pub(crate) fn hear_frame(
        &mut self,
        frame: Frame<'_>,
        ports: Ports,
    ) -> Result<FrameReport, AllocError>
        ensures { IfOk result (λ t. (report_view t, account_view self.new) ≡ frame_heard ports.also (frame_view frame.entry) (account_view self.old)) }
    {
        self.tally = self.tally.with_frame();
        match seen_of(frame, ports) {
            Ok(Some((now, sighting))) => self.hear_sighting(now, sighting),
            Ok(None) => Ok(FrameReport::Nothing),
            Err(why) => {
                self.tally = self.tally.with_unread();
                Ok(FrameReport::Unread(why))
            }
        }
    }

    /// Handles a file that cannot be read further.
    pub(crate) fn break_off(&mut self, fault: FileFault) -> FrameReport
        ensures { (report_view result, account_view self.new) ≡ broken_off fault (account_view self.old) }
    {
        self.tally = self.tally.with_frame().with_unread();
        FrameReport::Unread(Unread::File(fault))
    }
}
