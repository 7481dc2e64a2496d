//! Takes a snapshot of a game's entities at each tick, into memory that is used again, and prints
//! how large it is: beside it is the size of the same entities as rows, one call of `encode` for
//! each.
#![tactic(auto)]

pub mod entity;
pub mod kind;
mod snapshot;
mod world;

use crate::entity::Entity;
use crate::snapshot::Entities;
use anyhow::{Result, ensure};
use bitcode::{Buffer, encode};
use std::alloc::Global;

/// How many ticks are played.
const TICKS: u32 = 5;

/// How many bytes the entities have one by one.
fn size_of_rows(alloc: Global, entities: &[Entity]) -> Result<usize> {
    let mut size: usize = 0;
    for entity in entities {
        size = size.saturating_add(encode(alloc, entity)?.len());
    }
    Ok(size)
}

fn run(rt: &(impl AllocGlobal + Print)) -> Result<()> {
    let alloc = rt.alloc();
    let mut all: Buffer<Entities> = Buffer::new(alloc);
    let mut entities = world::entities(alloc)?;
    for tick in 0..TICKS {
        world::tick(&mut entities, tick);
        let columns = snapshot::take(&mut all, &entities)?.len();
        let rows = size_of_rows(alloc, &entities)?;
        println!(rt; "tick {tick}: {columns} bytes, and {rows} as rows")?;
    }
    let last = snapshot::take(&mut all, &entities)?;
    let again = snapshot::restored(alloc, &entities, last)?;
    ensure!(again == entities, "the restored entities differ");
    println!(rt; "restored")?;
    Ok(())
}

fn main(rt: HostRuntime) -> Result<()> {
    run(&rt)
}
