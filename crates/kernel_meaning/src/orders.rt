//! Which thread steps next.

use running_threads::{Children, Focus, Thread, runs, some_run};
use std::alloc::AllocError;

/// How many threads of a thread's text can step: the thread itself, or those of its running branches.
#[cycle(counting)]
pub(crate) fn steppable(from: &Thread<'_>) -> u32 {
    match &from.focus {
        Focus::Fork { children } => {
            if some_run(children) {
                steppable_among(children)
            } else {
                1
            }
        }
        _ => 1,
    }
}

#[cycle(counting)]
fn steppable_among(children: &Children<'_>) -> u32 {
    match children {
        Children::Nobody => 0,
        Children::Child { first, rest } => {
            let others = steppable_among(rest);
            if runs(first.status) {
                steppable(first).saturating_add(others)
            } else {
                others
            }
        }
    }
}

/// The path to the thread with this number among those that can step, in preorder from 0.
#[cycle(picking)]
pub(crate) fn add_path(
    from: &Thread<'_>,
    pick: u32,
    path: &mut Vec<u32>,
) -> Result<(), AllocError> {
    match &from.focus {
        Focus::Fork { children } => add_path_among(children, pick, 0, path),
        _ => Ok(()),
    }
}

#[cycle(picking)]
fn add_path_among(
    children: &Children<'_>,
    pick: u32,
    place: u32,
    path: &mut Vec<u32>,
) -> Result<(), AllocError> {
    match children {
        Children::Nobody => Ok(()),
        Children::Child { first, rest } => {
            let count = if runs(first.status) {
                steppable(first)
            } else {
                0
            };
            if pick < count {
                path.push(place)?;
                return add_path(first, pick, path);
            }
            add_path_among(rest, pick - count, place.saturating_add(1), path)
        }
    }
}
