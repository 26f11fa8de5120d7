//! Which variables are decided first, and with which value. A formula that was made from a smaller question has
//! variables that decide the rest: decided strictly first, the search is one over the question. No clause speaks of it,
//! since any order of decisions gives a right answer.
use cpog_base::Memory;
use std::alloc::Global;

/// For each variable, from 1 at place 0, its block and its first value. The variables of a lower block are decided
/// before those of a higher one. A variable past the end of `blocks` is of the last block; one past the end of
/// `phases` is first made true.
#[derive(Drop)]
pub struct Preferences {
    pub blocks: Vec<u32>,
    pub phases: Vec<bool>,
}

impl Preferences {
    /// One block, and every variable is first made true.
    pub fn none(alloc: Global) -> Preferences {
        Preferences {
            blocks: Vec::new(alloc),
            phases: Vec::new(alloc),
        }
    }

    /// One block a list, in their order; the variables of no list come last. A number that is no variable is passed
    /// over.
    pub fn of_blocks(
        alloc: Global,
        variables: u32,
        lists: &[Vec<u32>],
    ) -> Result<Preferences, Memory> {
        let mut blocks = vec![in alloc; u32::MAX; variables as usize]?;
        let mut block = 0u32;
        for list in lists {
            put_block(&mut blocks, list, block);
            block = block.saturating_add(1);
        }
        Ok(Preferences {
            blocks,
            phases: Vec::new(alloc),
        })
    }
}

fn put_block(blocks: &mut [u32], list: &[u32], block: u32) {
    for var in list {
        if let Some(slot) = blocks.get_mut((*var as usize).wrapping_sub(1)) {
            *slot = block;
        }
    }
}
