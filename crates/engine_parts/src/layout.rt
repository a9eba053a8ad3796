//! The lists in which a leader lays its group out.

ghost use Rattle.std.specs.Prelude.{◌≡◌, [], vec_len, IfOk};
ghost use Rattle.engine_parts.specs.Layout.{IsRoomy, AreRoomy};

use crate::numbering::Numbering;
use log_batch::Batch;
use model_base::NoMemory;
use std::alloc::Global;
use table_nodes::Parts;

/// A leader's lists, with room for all clients. Between its groups they are empty, except that `members` still lists
/// those that worked in parallel with it last.
#[derive(Drop)]
pub struct Layout {
    pub numberings: Vec<Numbering>,
    pub batches: Vec<Batch>,
    pub parts: Parts,
    pub members: Vec<u32>,
}

impl Layout {
    fn new(alloc: Global, clients: u32) -> Result<Layout, NoMemory>
        ensures { IfOk result (λ layout. IsRoomy clients layout) }
    {
        let numberings = Vec::with_capacity(alloc, clients as usize)?;
        let batches = Vec::with_capacity(alloc, clients as usize)?;
        let parts = Parts::new(alloc, clients)?;
        let members = Vec::with_capacity(alloc, clients as usize)?;
        Ok(Layout {
            numberings,
            batches,
            parts,
            members,
        })
    }

    /// A layout for each client.
    pub fn for_all(alloc: Global, clients: u32) -> Result<Vec<Layout>, NoMemory>
        ensures { IfOk result (λ all. (vec_len all ≡ clients) × AreRoomy clients all.items) }
    {
        let mut all = Vec::with_capacity(alloc, clients as usize)?;
        // There are `made` layouts, and each is empty and has room for all clients.
        for made in 0..clients {
            all.push_reserved(Layout::new(alloc, clients)?);
        }
        Ok(all)
    }

    /// Drops the parts that should have gone into the table.
    pub(crate) fn drop_parts(&mut self)
        ensures parts { (self.new.parts.parts ≡ []) × (self.new.parts.clients ≡ self.old.parts.clients) }
        ensures others { (self.new.numberings ≡ self.old.numberings) × (self.new.batches ≡ self.old.batches)
            × (self.new.members ≡ self.old.members) }
    {
        // There are fewer parts than before, and the rest of the layout is as it was.
        while let Some(part) = self.parts.pop() {
            drop(part);
        }
    }
}
