//! What is printed about adapters: their notifications, and how many notifications they got and keep.
ghost use Rattle.std.specs.Prelude.{◌≡◌, ◌++◌, ◌∷◌, [], OnOk};
ghost use Rattle.script_lines.specs.declared.grammar.TheConstants.{NEWLINE};
ghost use Rattle.script_output.specs.Notified.{change_text, counts_text, notice_text, end_text, released_text, report_text, seen_text, text_before, told_value_text, values_text};

use super::Output;
use crate::names::{feature_name, literal_name};
use mm_meta::Meta;
use mm_types::{AdapterNo, Value};
use notice_chain::{Notice, NoticeKind};
use script_lines::grammar::{NEWLINE, SPACE};
use std::alloc::AllocError;

/// Comes between a node and its feature: `#0.pages`.
const FEATURE_MARK: u8 = b'.';

impl Output {
    fn notified_end(&mut self, meta: &Meta, notice: &Notice) -> Result<(), AllocError>
        ensures ok { OnOk result (self.new ≡ self.old ++ end_text meta.now notice.now) }
    {
        self.node(notice.notifier)?;
        match notice.feature {
            Some(feature) => {
                self.byte(FEATURE_MARK)?;
                self.text(feature_name(meta, feature))
            }
            None => Ok(()),
        }
    }

    fn told_value(&mut self, meta: &Meta, notice: &Notice, value: &Value) -> Result<(), AllocError>
        ensures ok { OnOk result (self.new ≡ self.old ++ told_value_text meta.now notice.now value.now) }
    {
        match notice.feature {
            Some(feature) => self.value(value, literal_name(meta, feature, value)),
            None => self.value(value, ""),
        }
    }

    /// Adds the old value of a notification; for a notification of the kind REMOVING_ADAPTER, adds the removed adapter instead.
    fn told_before(&mut self, meta: &Meta, notice: &Notice) -> Result<(), AllocError>
        ensures ok { OnOk result (self.new ≡ self.old ++ text_before notice.now.kind (told_value_text meta.now notice.now notice.now.old_value)) }
    {
        match notice.kind {
            NoticeKind::RemovingAdapter(no) => self.adapter(no),
            _ => self.told_value(meta, notice, &notice.old_value),
        }
    }

    fn told_values(&mut self, meta: &Meta, notice: &Notice) -> Result<(), AllocError>
        ensures ok { OnOk result (self.new ≡ self.old ++ values_text meta.now notice.now) }
    {
        self.told_before(meta, notice)?;
        self.byte(SPACE)?;
        self.told_value(meta, notice, &notice.new_value)?;
        self.byte(SPACE)?;
        self.integer(notice.position)
    }

    fn change(&mut self, meta: &Meta, notice: &Notice) -> Result<(), AllocError>
        ensures ok { OnOk result (self.new ≡ self.old ++ change_text meta.now notice.now) }
    {
        self.notified_end(meta, notice)?;
        self.byte(SPACE)?;
        self.told_values(meta, notice)
    }

    fn report(&mut self, meta: &Meta, notice: &Notice) -> Result<(), AllocError>
        ensures ok { OnOk result (self.new ≡ self.old ++ report_text meta.now notice.now) }
    {
        self.text(notice.kind.name())?;
        self.byte(SPACE)?;
        self.change(meta, notice)
    }

    /// Adds the line of a notification of an adapter, with its newline: `told A1 SET #0.pages 100 1 -1`. The words after `told` are the
    /// adapter, the kind, the notifier (with the feature, if there is a feature), the old value, the new value, and the position. A
    /// notification of the kind REMOVING_ADAPTER has the removed adapter in place of the old value.
    pub fn notified(
        &mut self,
        meta: &Meta,
        no: AdapterNo,
        notice: &Notice,
    ) -> Result<(), AllocError>
        ensures ok { OnOk result (self.new ≡ self.old ++ notice_text meta.now no notice.now ++ NEWLINE ∷ []) }
    {
        self.short_text("told ")?;
        self.adapter(no)?;
        self.byte(SPACE)?;
        self.report(meta, notice)?;
        self.byte(NEWLINE)
    }

    fn counts(&mut self, told: u64, kept: u64) -> Result<(), AllocError>
        ensures ok { OnOk result (self.new ≡ self.old ++ counts_text told kept) }
    {
        self.natural(told)?;
        self.text(" kept ")?;
        self.natural(kept)
    }

    /// Adds the line of a released adapter, with its newline: `released A1 told 1 kept 1`. The numbers are how many notifications the
    /// adapter got, and how many it keeps.
    pub fn released(&mut self, no: AdapterNo, told: u64, kept: u64) -> Result<(), AllocError>
        ensures ok { OnOk result (self.new ≡ self.old ++ released_text no told kept ++ NEWLINE ∷ []) }
    {
        self.text("released ")?;
        self.adapter(no)?;
        self.text(" told ")?;
        self.counts(told, kept)?;
        self.byte(NEWLINE)
    }

    /// Adds how many notifications an adapter got, and how many it keeps: `seen 3 kept 2`.
    pub fn seen(&mut self, told: u64, kept: u64) -> Result<(), AllocError>
        ensures ok { OnOk result (self.new ≡ self.old ++ seen_text told kept) }
    {
        self.text("seen ")?;
        self.counts(told, kept)
    }
}
