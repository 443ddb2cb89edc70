//! The scenes by their names.
use crate::{bound_names, laws, numbers, streams};
use anyhow::Result;
use happy_calls::look::Look;
use happy_calls::{logged, words as public_words};
use std::alloc::Global;
use std::sync::Wait;
use std::thread::Threads;
use test_kernels::{arena, seats};
use test_states::{findings, hand_overs, looks, plain, restored, state};
use test_structures::{structures, words};

/// Scenes of words, labels, states, texts and streams. False where none is of that name.
fn of_words(alloc: Global, scene: &str, look: &mut Look) -> Result<bool> {
    if scene == "base" {
        public_words::play(alloc, look)?;
    } else if scene == "labels" {
        words::labels::play(alloc, look)?;
    } else if scene == "label_rules" {
        words::rules::play(alloc, look)?;
    } else if scene == "parts" {
        words::parts::play(alloc, look)?;
    } else if scene == "booted" {
        state::booted::play(alloc, look)?;
    } else if scene == "changes" {
        state::changes::play(alloc, look)?;
    } else if scene == "looks" {
        looks::looked::play(alloc, look)?;
    } else if scene == "findings" {
        findings::play(alloc, look)?;
    } else if scene == "hand_overs" {
        hand_overs::play(alloc, look)?;
    } else if scene == "streams" {
        streams::play(alloc, look)?;
    } else {
        return Ok(false);
    }
    Ok(true)
}

/// Scenes of structures.
fn of_structures(alloc: Global, scene: &str, look: &mut Look) -> Result<bool> {
    if scene == "spaces" {
        structures::spaces::play(alloc, look)?;
    } else if scene == "containers" {
        structures::trees::play(alloc, look)?;
    } else if scene == "storm" {
        structures::storm::play(alloc, look)?;
    } else if scene == "rings" {
        structures::rings::play(alloc, look)?;
    } else if scene == "pool" {
        structures::pool::play(alloc, look)?;
    } else if scene == "objects" {
        structures::objects::play(alloc, look)?;
    } else if scene == "segments" {
        structures::pages::play(alloc, look)?;
    } else if scene == "rows" {
        structures::rows::play(alloc, look)?;
    } else {
        return Ok(false);
    }
    Ok(true)
}

/// Scenes of kernels.
fn of_kernels(alloc: Global, scene: &str, look: &mut Look) -> Result<bool> {
    if scene == "kept" {
        arena::kept::play(alloc, look)?;
    } else if scene == "run_arena" {
        arena::run::play(alloc, look)?;
    } else if scene == "scans" {
        arena::scans::play(alloc, look)?;
    } else if scene == "plain" {
        plain::calls::play(alloc, look)?;
    } else if scene == "short_metadata" {
        restored::conditions::play(alloc, look)?;
    } else if scene == "restored" {
        restored::played_on::play(alloc, look)?;
    } else {
        return Ok(false);
    }
    Ok(true)
}

/// Scenes of seats and workers.
fn of_seats<R: Threads + Wait + Sync + AllocGlobal>(
    rt: &R,
    scene: &str,
    look: &mut Look,
) -> Result<bool> {
    if scene == "batches" {
        seats::batches::play(rt, look)?;
    } else if scene == "few_seats" {
        seats::few_seats::play(rt, look)?;
    } else if scene == "notes" {
        seats::notes::play(rt, look)?;
    } else if scene == "readers" {
        seats::readers::play(rt, look)?;
    } else if scene == "seats" {
        seats::seats::play(rt, look)?;
    } else if scene == "sole" {
        seats::sole::play(rt, look)?;
    } else if scene == "threads" {
        seats::threads::play(rt, look)?;
    } else if scene == "told" {
        seats::told::play(rt, look)?;
    } else {
        return Ok(false);
    }
    Ok(true)
}

/// Scenes of words, states and flows, made again.
fn of_words_again(alloc: Global, scene: &str, look: &mut Look) -> Result<bool> {
    if scene == "parts" {
        words::parts::again(alloc, look)?;
    } else if scene == "changes" {
        state::changes::again(alloc, look)?;
    } else if scene == "hand_overs" {
        hand_overs::again(alloc, look)?;
    } else if scene == "names" {
        bound_names::again(alloc, look)?;
    } else {
        return Ok(false);
    }
    Ok(true)
}

/// Scenes of structures, made again.
fn of_structures_again(alloc: Global, scene: &str, look: &mut Look) -> Result<bool> {
    if scene == "spaces" {
        structures::spaces::again(alloc, look)?;
    } else if scene == "containers" {
        structures::trees::again(alloc, look)?;
    } else if scene == "rings" {
        structures::rings::again(alloc, look)?;
    } else if scene == "pool" {
        structures::pool::again(alloc, look)?;
    } else if scene == "objects" {
        structures::objects::again(alloc, look)?;
    } else if scene == "segments" {
        structures::pages::again(alloc, look)?;
    } else {
        return Ok(false);
    }
    Ok(true)
}

/// Scenes of kernels, made again.
fn of_kernels_again(alloc: Global, scene: &str, look: &mut Look) -> Result<bool> {
    if scene == "logged" {
        logged::again(alloc, look)?;
    } else if scene == "plain_memory" {
        plain::memory::again(alloc, look)?;
    } else if scene == "restored_memory" {
        restored::memory::again(alloc, look)?;
    } else {
        return Ok(false);
    }
    Ok(true)
}

/// Scenes of seats, made again.
fn of_seats_again<R: Threads + Wait + Sync + AllocGlobal>(
    rt: &R,
    scene: &str,
    look: &mut Look,
) -> Result<bool> {
    if scene == "seats_memory" {
        seats::memory::again(rt, look)?;
    } else if scene == "sole" {
        seats::sole::again(rt, look)?;
    } else {
        return Ok(false);
    }
    Ok(true)
}

/// Plays what of a scene is made again where there was no memory.
fn play_again<R: Threads + Wait + Sync + AllocGlobal>(
    rt: &R,
    scene: &str,
    look: &mut Look,
) -> Result<bool> {
    let alloc = rt.alloc();
    Ok(
        of_words_again(alloc, scene, look)?
            || of_structures_again(alloc, scene, look)?
            || of_kernels_again(alloc, scene, look)?
            || of_seats_again(rt, scene, look)?,
    )
}

/// Plays a scene. False where none is of that name.
pub fn play<R: Threads + Wait + Sync + AllocGlobal>(
    rt: &R,
    scene: &str,
    is_again: bool,
    look: &mut Look,
) -> Result<bool> {
    let alloc = rt.alloc();
    if is_again {
        return play_again(rt, scene, look);
    }
    if scene == "numbers" {
        numbers::play(look)?;
        return Ok(true);
    }
    if scene == "laws" {
        laws::play(look);
        return Ok(true);
    }
    Ok(
        of_words(alloc, scene, look)?
            || of_structures(alloc, scene, look)?
            || of_kernels(alloc, scene, look)?
            || of_seats(rt, scene, look)?,
    )
}
