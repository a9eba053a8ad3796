//! A record of a batch, as parts of the batch's bytes.

ghost use Rattle.std.specs.Prelude.{◌≡◌, [], ◌∷◌};
ghost use Rattle.model_base.specs.Batch as model;
ghost use Rattle.model_base.specs.Map.{named};
ghost use Rattle.log_batch.specs.Contents.{greatest_named};
ghost use Rattle.log_batch.specs.View.{record_of};

/// A record of a batch. Its strings are parts of the batch's bytes. A key's family is the one that the record names, or
/// else the default one, whose number is 0.
#[derive(Clone, Copy, Debug, PartialEq, Eq)]
pub enum RecordView<'a> {
    /// A key, and the value that it gets.
    Value {
        family: Option<u32>,
        key: &'a [u8],
        value: &'a [u8],
    },
    /// A key that is removed.
    Deletion {
        family: Option<u32>,
        key: &'a [u8],
    },
    /// A key that is removed. It should have been set once at most since it was last removed; that isn't checked here.
    SingleDeletion {
        family: Option<u32>,
        key: &'a [u8],
    },
    /// Bytes that are in the log alone, and change no key.
    LogData {
        blob: &'a [u8],
    },
}

impl<'a> RecordView<'a> {
    /// The family that the record names, if it names one.
    pub fn family(self) -> Option<u32>
        ensures { result ≡ model.named_by (record_of self.entry) }
    {
        match self {
            RecordView::Value { family, .. }
            | RecordView::Deletion { family, .. }
            | RecordView::SingleDeletion { family, .. } => family,
            RecordView::LogData { .. } => None,
        }
    }
}

impl<'a> RecordView<'a> {
    ghost use Rattle.std.specs.Prelude.{◌≡◌};
    ghost use Rattle.model_base.specs.Progress.{family_about};

    /// The family of the record's key, if it has a key.
    pub fn key_family(self) -> Option<u32>
        ensures { result ≡ family_about (record_of self.entry) }
    {
        match self {
            RecordView::Value { family, .. }
            | RecordView::Deletion { family, .. }
            | RecordView::SingleDeletion { family, .. } => Some(family.unwrap_or(0)),
            RecordView::LogData { .. } => None,
        }
    }
}

/// How many sequences a record takes: log data takes none, and any other record takes one.
pub fn sequences_of(view: RecordView<'_>) -> u32
    ensures { result ≡ model.count_of (record_of view.entry ∷ []) }
{
    match view {
        RecordView::Value { .. }
        | RecordView::Deletion { .. }
        | RecordView::SingleDeletion { .. } => 1,
        RecordView::LogData { .. } => 0,
    }
}

/// The family that a record is about, or 0 if it is about none.
pub(crate) fn greatest_of(view: RecordView<'_>) -> u32
    ensures { result ≡ greatest_named (record_of view.entry ∷ []) }
{
    view.key_family().unwrap_or(0)
}

/// How a record names a family: not at all where it is the default one, whose number is 0.
pub fn named(family: u32) -> Option<u32>
    ensures { result ≡ named family }
{
    if family == 0 { None } else { Some(family) }
}
