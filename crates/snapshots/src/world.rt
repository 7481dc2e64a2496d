//! The entities of a game, and how they move.
use crate::entity::Entity;
use crate::kind::Kind;
use std::alloc::{AllocError, Global};

/// How many entities there are.
pub const ENTITIES: u32 = 5000;

/// What kind an entity is: mostly arrows and chests.
fn kind(id: u32) -> Kind {
    match id % 16 {
        0 => Kind::Player,
        1..4 => Kind::Monster,
        4..10 => Kind::Arrow,
        _ => Kind::Chest,
    }
}

/// An entity before the first tick, on a grid of 100 columns.
fn entity(id: u32) -> Entity {
    let kind = kind(id);
    let is_asleep = kind == Kind::Monster && id % 3 == 0;
    Entity {
        id,
        kind,
        x: (id % 100) as i32 * 10,
        y: (id / 100) as i32 * 10,
        health: if kind == Kind::Arrow { 1 } else { 100 },
        is_asleep,
        target: if kind == Kind::Monster && !is_asleep {
            Some(id / 16 * 16)
        } else {
            None
        },
    }
}

/// The entities before the first tick.
pub fn entities(alloc: Global) -> Result<Vec<Entity>, AllocError> {
    let mut entities = Vec::with_capacity(alloc, ENTITIES as usize)?;
    for id in 0..ENTITIES {
        entities.push(entity(id))?;
    }
    Ok(entities)
}

/// Moves an entity: players walk, arrows fly, monsters that are awake hunt and are hit.
fn step(entity: &mut Entity, tick: u32) {
    match entity.kind {
        Kind::Player => entity.x = entity.x.wrapping_add((tick % 3) as i32),
        Kind::Arrow => entity.y = entity.y.wrapping_sub(7),
        Kind::Monster if !entity.is_asleep => {
            entity.x = entity.x.wrapping_sub(1);
            entity.health = entity.health.saturating_sub((entity.id % 5) as u16);
        }
        Kind::Monster => entity.is_asleep = tick < 2,
        Kind::Chest => {}
    }
}

/// Moves all entities.
pub fn tick(entities: &mut [Entity], tick: u32) {
    for entity in entities {
        step(entity, tick);
    }
}
