//! What is counted of a log.

ghost use Rattle.std.specs.Prelude.{◌≡◌, ◌||◌, Some, IfOk, OnOk};
ghost use Rattle.std.specs.Option.{option_or};
ghost use Rattle.batch_operations.specs.Shown.{ShownRecord, Shows, shown_short};
ghost use Rattle.batch_operations.specs.View.{operation_of};
ghost use Rattle.list_log.specs.Totals as totals;
ghost use Rattle.list_log.specs.Wanted as wanted;

use crate::lines::last_after;
use crate::settings::Settings;
use crate::tallies::Tallies;
use crate::wanted::{is_in_range, is_left_out, is_wanted};
use batch_operations::{Head, OperationView, a_record_shows_one_thing, read_head, split_operation};
use log_scan::{Found, Unread};
use model_base::NoMemory;
use std::alloc::Global;

/// What is counted of a log: the records that would be shown, their first and their greatest sequence, their
/// operations, and the stretches that don't read with all their bytes. Numbers stop at the greatest `u64`.
#[derive(Drop)]
pub struct Totals {
    pub records: u64,
    pub first: Option<u128>,
    pub last: Option<u128>,
    pub tallies: Tallies,
    pub stretches: u64,
    pub bytes: u64,
}

impl Totals {
    /// Nothing is counted yet. This takes no memory.
    pub fn new(alloc: Global) -> Totals
        ensures { result ≡ totals.nothing }
    {
        Totals {
            records: 0,
            first: None,
            last: None,
            tallies: Tallies::new(alloc),
            stretches: 0,
            bytes: 0,
        }
    }

    /// Counts what was found: a record, which has these bytes, if it would be shown, and the stretch before it. Where
    /// memory runs out, the counts are of no use.
    pub fn add_found(
        &mut self,
        settings: &Settings<'_>,
        found: Found,
        bytes: &[u8],
    ) -> Result<(), NoMemory>
        ensures { OnOk result (totals.CountsFound settings.now found bytes.now self.old self.new) }
    {
        match found {
            Found::Record { unread, .. } => {
                self.add_unread(unread);
                self.add_record(settings, bytes)
            }
            Found::Passed => Ok(()),
            Found::End { .. } => Ok(()),
            Found::Fault { .. } => Ok(()),
            Found::NoMemory => Ok(()),
        }
    }

    /// Counts a stretch that doesn't read, if there is one.
    fn add_unread(&mut self, unread: Option<Unread>)
        ensures { self.new ≡ totals.with_unread unread self.old }
    {
        if let Some(unread) = unread {
            self.add_stretch(unread);
        }
    }

    fn add_stretch(&mut self, unread: Unread)
        ensures { self.new ≡ totals.with_stretch unread self.old }
    {
        self.stretches = self.stretches.saturating_add(1);
        self.bytes = self
            .bytes
            .saturating_add(unread.to.saturating_sub(unread.from));
    }

    /// Counts a record, if it would be shown.
    fn add_record(&mut self, settings: &Settings<'_>, bytes: &[u8]) -> Result<(), NoMemory>
        ensures { OnOk result ((shown : ShownRecord) × Shows bytes.now shown
            × (self.new ≡ totals.with_record settings.now shown self.old)) }
    {
        match read_head(bytes) {
            Some((head, body)) => self.add_batch(settings, head, body),
            None => {
                self.add_short(settings);
                Ok(())
            }
        }
    }

    /// Counts a record of fewer bytes than a head, if it would be shown. It has no operation, so it isn't if only those
    /// about a key are.
    fn add_short(&mut self, settings: &Settings<'_>)
        ensures { self.new ≡ totals.with_record settings.now shown_short self.old }
    {
        if settings.key.is_some() {
            return;
        }
        self.records = self.records.saturating_add(1);
    }

    /// Counts a record with this head and the bytes of operations after it, if it would be shown.
    fn add_batch(
        &mut self,
        settings: &Settings<'_>,
        head: Head,
        body: &[u8],
    ) -> Result<(), NoMemory>
        ensures { OnOk result (totals.CountsBatch settings.now head body.now self.old self.new) }
    {
        if !is_in_range(settings, head) {
            // Its operations needn't be read: they are something.
            a_record_shows_one_thing();
            return Ok(());
        }
        let any = self.add_operations(settings, body)?;
        if is_left_out(settings, any) {
            return Ok(());
        }
        self.add_head(head);
        Ok(())
    }

    /// Counts the operations that would be shown, of the bytes after a record's head, and answers whether there is one.
    fn add_operations(&mut self, settings: &Settings<'_>, body: &[u8]) -> Result<bool, NoMemory>
        ensures { IfOk result (λ any. totals.CountsBody settings.now body.now self.old self.new any) }
    {
        let mut any = false;
        let mut rest = body;
        // Before `rest` are operations, and those of them that would be shown are counted.
        while !rest.is_empty() {
            let Ok((operation, behind)) = split_operation(rest) else {
                return Ok(any);
            };
            any = self.add_if_wanted(settings, any, operation)?;
            rest = behind;
        }
        Ok(any)
    }

    /// Counts an operation, if it would be shown, and answers whether one would be by now. `any` says whether one was
    /// before.
    fn add_if_wanted(
        &mut self,
        settings: &Settings<'_>,
        any: bool,
        operation: OperationView<'_>,
    ) -> Result<bool, NoMemory>
        ensures any { IfOk result (λ now. now
            ≡ (any || wanted.is_wanted (wanted.key_in settings.now) (operation_of operation.entry))) }
        ensures counted { OnOk result (self.new ≡ record self.old {
          tallies = totals.with_wanted settings.now (operation_of operation.entry) self.old.tallies;
        }) }
    {
        if !is_wanted(settings, operation) {
            return Ok(any);
        }
        self.tallies.add(operation.tag, operation.family)?;
        Ok(true)
    }

    /// Counts one more record, with this head.
    fn add_head(&mut self, head: Head)
        ensures { self.new ≡ totals.with_head (Some head) self.old }
    {
        self.records = self.records.saturating_add(1);
        self.first = first_after(self.first, head);
        self.last = last_after(self.last, head);
    }
}

/// The first sequence so far, after a record with this head.
fn first_after(first: Option<u128>, head: Head) -> Option<u128>
    ensures { result ≡ option_or first (totals.first_of (Some head)) }
{
    if first.is_some() || head.count == 0 {
        first
    } else {
        Some(u128::from(head.sequence))
    }
}
