//! What reads answer. All layers use these types.

ghost use Rattle.std.specs.Prelude.{◌≡◌, [], ◌∷◌, ◌++◌, length, map, OnOk, OnErr};
ghost use Rattle.base_bytes.specs.Answers.{found_value};

use crate::Bytes;
use model_base::NoMemory;
use std::alloc::Global;
use std::marker::Model;

/// What a look-up of a key finds. Contracts see a value or none, by `found_value`.
#[derive(Debug, PartialEq, Eq, Drop)]
pub enum Found {
    /// No value.
    Absent,
    /// This value.
    Value(Bytes),
}

/// What a look-up at a sequence answers: the sequence, and what was found there.
#[derive(Debug, PartialEq, Eq, Drop)]
pub struct Read {
    pub at: u64,
    pub value: Found,
}

/// What look-ups of several keys at one sequence answer, in the order in which the keys were asked for.
#[derive(Debug, Drop)]
pub struct Reads {
    pub at: u64,
    pub values: FoundList,
}

/// The keys of a range of one family with their values at a sequence, in the byte order of the keys.
#[derive(Debug, Drop)]
pub struct Rows {
    pub at: u64,
    pub rows: PairList,
}

/// A key in a column family.
#[derive(Debug, Drop)]
pub struct Place {
    pub family: u32,
    pub key: Bytes,
}

/// A list of look-ups. Contracts see a list of values or none.
#[derive(Debug, Drop)]
pub struct FoundList {
    items: Vec<Found>,
}

impl Model for FoundList {
    ghost use Rattle.std.specs.Prelude.{List, ℕ, Option, map};
    ghost use Rattle.base_bytes.specs.Answers.{found_value};

    ghost Value = { List (Option (List ℕ)) };

    ghost view = { λ l. map found_value l.items.items };
}

impl FoundList {
    /// No look-ups. This takes no memory.
    pub fn new(alloc: Global) -> FoundList
        ensures { result ≡ [] }
    {
        FoundList {
            items: Vec::new(alloc),
        }
    }

    /// The look-ups of a `Vec`, in its order. This takes no memory.
    pub fn from_vec(items: Vec<Found>) -> FoundList
        ensures { result ≡ map found_value items.items }
    {
        FoundList { items }
    }

    /// The `Vec` of the look-ups. This takes no memory.
    pub fn into_vec(self) -> Vec<Found>
        ensures { map found_value result.items ≡ self }
    {
        self.items
    }

    /// Appends a look-up.
    pub fn push(&mut self, found: Found) -> Result<(), NoMemory>
        ensures ok { OnOk result (self.new ≡ self.old ++ found_value found ∷ []) }
        ensures err { OnErr result (self.new ≡ self.old) }
    {
        self.items.push(found)?;
        Ok(())
    }

    /// How many look-ups there are.
    pub fn len(&self) -> usize
        ensures { result ≡ length self.now }
    {
        self.items.len()
    }

    /// The look-ups.
    pub fn as_slice(&self) -> &[Found]
        ensures { map found_value result.now ≡ self.now }
    {
        &self.items
    }
}

/// A list of keys with their values. Contracts see a list of pairs of lists of bytes.
#[derive(Debug, Drop)]
pub struct PairList {
    items: Vec<(Bytes, Bytes)>,
}

impl Model for PairList {
    ghost use Rattle.model_base.specs.Map.{Rows};

    ghost Value = { Rows };

    ghost view = { λ l. l.items.items };
}

impl PairList {
    /// No pairs. This takes no memory.
    pub fn new(alloc: Global) -> PairList
        ensures { result ≡ [] }
    {
        PairList {
            items: Vec::new(alloc),
        }
    }

    /// The pairs of a `Vec`, in its order. This takes no memory.
    pub fn from_vec(items: Vec<(Bytes, Bytes)>) -> PairList
        ensures { result ≡ items.items }
    {
        PairList { items }
    }

    /// The `Vec` of the pairs. This takes no memory.
    pub fn into_vec(self) -> Vec<(Bytes, Bytes)>
        ensures { result.items ≡ self }
    {
        self.items
    }

    /// Appends a key with its value.
    pub fn push(&mut self, key: Bytes, value: Bytes) -> Result<(), NoMemory>
        ensures ok { OnOk result (self.new ≡ self.old ++ (key, value) ∷ []) }
        ensures err { OnErr result (self.new ≡ self.old) }
    {
        self.items.push((key, value))?;
        Ok(())
    }

    /// How many pairs there are.
    pub fn len(&self) -> usize
        ensures { result ≡ length self.now }
    {
        self.items.len()
    }

    /// The pairs.
    pub fn as_slice(&self) -> &[(Bytes, Bytes)]
        ensures { result.now ≡ self.now }
    {
        &self.items
    }
}

/// The records of a log. Contracts see a list of lists of bytes.
#[derive(Debug, Drop)]
pub struct RecordList {
    items: Vec<Bytes>,
}

impl Model for RecordList {
    ghost use Rattle.std.specs.Prelude.{List, ℕ};

    ghost Value = { List (List ℕ) };

    ghost view = { λ l. l.items.items };
}

impl RecordList {
    /// No records. This takes no memory.
    pub fn new(alloc: Global) -> RecordList
        ensures { result ≡ [] }
    {
        RecordList {
            items: Vec::new(alloc),
        }
    }

    /// The records of a `Vec`, in its order. This takes no memory.
    pub fn from_vec(items: Vec<Bytes>) -> RecordList
        ensures { result ≡ items.items }
    {
        RecordList { items }
    }

    /// The `Vec` of the records. This takes no memory.
    pub fn into_vec(self) -> Vec<Bytes>
        ensures { result.items ≡ self }
    {
        self.items
    }

    /// Appends a record.
    pub fn push(&mut self, bytes: Bytes) -> Result<(), NoMemory>
        ensures ok { OnOk result (self.new ≡ self.old ++ bytes ∷ []) }
        ensures err { OnErr result (self.new ≡ self.old) }
    {
        self.items.push(bytes)?;
        Ok(())
    }

    /// How many records there are.
    pub fn len(&self) -> usize
        ensures { result ≡ length self.now }
    {
        self.items.len()
    }

    /// The records.
    pub fn as_slice(&self) -> &[Bytes]
        ensures { result.now ≡ self.now }
    {
        &self.items
    }
}
