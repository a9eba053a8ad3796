//! What the tags of operations are called.

ghost use Rattle.std.specs.Prelude.{◌≡◌};
ghost use Rattle.list_text.specs.Kinds as kinds;

/// A kind of operation. A tag that names a family has the kind of the one that doesn't.
#[derive(Clone, Copy)]
enum Kind {
    Delete,
    Put,
    Merge,
    LogData,
    SingleDelete,
    BeginPrepare,
    EndPrepare,
    Commit,
    Rollback,
    Noop,
    DeleteRange,
    BlobIndex,
    BeginPersistedPrepare,
    BeginUnprepare,
    CommitTimestamp,
    PutEntity,
    TimedPut,
    Unknown,
}

/// The kinds of the tags from 0 on.
const KINDS: [Kind; 26] = [
    Kind::Delete,
    Kind::Put,
    Kind::Merge,
    Kind::LogData,
    Kind::Delete,
    Kind::Put,
    Kind::Merge,
    Kind::SingleDelete,
    Kind::SingleDelete,
    Kind::BeginPrepare,
    Kind::EndPrepare,
    Kind::Commit,
    Kind::Rollback,
    Kind::Noop,
    Kind::DeleteRange,
    Kind::DeleteRange,
    Kind::BlobIndex,
    Kind::BlobIndex,
    Kind::BeginPersistedPrepare,
    Kind::BeginUnprepare,
    Kind::Unknown,
    Kind::CommitTimestamp,
    Kind::PutEntity,
    Kind::PutEntity,
    Kind::TimedPut,
    Kind::TimedPut,
];

/// The word of a tag.
pub fn kind_word(tag: u8) -> &'static [u8]
    ensures { result.now ≡ kinds.kind_word tag }
{
    word_of(kind_of(tag))
}

fn kind_of(tag: u8) -> Kind
    ensures { result ≡ kinds.kind_of tag }
{
    KINDS
        .get(usize::from(tag))
        .copied()
        .unwrap_or(Kind::Unknown)
}

fn word_of(kind: Kind) -> &'static [u8]
    ensures { result.now ≡ kinds.word_of kind }
{
    match kind {
        Kind::Delete => b"delete",
        Kind::Put => b"put",
        Kind::Merge => b"merge",
        Kind::LogData => b"logdata",
        Kind::SingleDelete => b"singledelete",
        Kind::BeginPrepare => b"beginprepare",
        Kind::EndPrepare => b"endprepare",
        Kind::Commit => b"commit",
        Kind::Rollback => b"rollback",
        Kind::Noop => b"noop",
        Kind::DeleteRange => b"deleterange",
        Kind::BlobIndex => b"blobindex",
        Kind::BeginPersistedPrepare => b"beginpersistedprepare",
        Kind::BeginUnprepare => b"beginunprepare",
        Kind::CommitTimestamp => b"committimestamp",
        Kind::PutEntity => b"putentity",
        Kind::TimedPut => b"timedput",
        Kind::Unknown => b"unknown",
    }
}
