//! What is kept of the types of a walk: first of its circle, if it found one, and then of the types that lead there,
//! each after its parent. Begin with `settle_all`.
ghost use Rattle.std.specs.Prelude.{◌≡◌, ◌≢◌, ℕ, ◌<◌, ◌⊎◌, length, slice_index, EachIndex, OnOk};
ghost use Rattle.hierarchy.specs.Hierarchy.{parent_of};
ghost use Rattle.hierarchy.specs.inside.Entries.{IsKnown, IsUnknown, IsIndexed, IsPartlyIndexed, CanJump};
ghost use Rattle.hierarchy.specs.inside.Walks.{IsCircleWritten, IsClimb, StaysKnown};

use crate::walking::{circle_start, walk};
use std::alloc::{AllocError, Global};

/// A jump for a type with this parent. Two equal jumps in a row become one, so that jumps reach further and further.
fn jump_over(depths: &[u32], jumps: &[u32], parent: u32) -> u32
    requires lengths { length depths.now ≡ length jumps.now }
    requires parent { parent < length jumps.now }
    requires near { CanJump depths.now jumps.now parent }
    requires far { CanJump depths.now jumps.now (slice_index jumps.now parent) }
    ensures { (result ≡ parent) ⊎ (result ≡ slice_index jumps.now (slice_index jumps.now parent)) }
{
    let near = jumps[parent as usize];
    let far = jumps[near as usize];
    let first = depths[parent as usize] - depths[near as usize];
    let second = depths[near as usize] - depths[far as usize];
    if first == second { far } else { parent }
}

/// Of a type whose parent is known.
fn settle(parents: &[u32], depths: &mut [u32], circles: &mut [u32], jumps: &mut [u32], t: u32)
    requires partly { IsPartlyIndexed parents.now depths.old circles.old jumps.old }
    requires within { t < length parents.now }
    requires unknown { IsUnknown circles.old t }
    requires parent { IsKnown circles.old (parent_of parents.now t) }
    ensures partly { IsPartlyIndexed parents.now depths.new circles.new jumps.new }
    ensures known { IsKnown circles.new t }
    ensures others { (v : ℕ) → v ≢ t → slice_index circles.new v ≡ slice_index circles.old v }
{
    let parent = parents[t as usize];
    let jump = jump_over(depths, jumps, parent);
    depths[t as usize] = depths[parent as usize] + 1;
    circles[t as usize] = circles[parent as usize];
    jumps[t as usize] = jump;
}

/// Of the types of a path, the last first.
fn settle_path(
    parents: &[u32],
    depths: &mut [u32],
    circles: &mut [u32],
    jumps: &mut [u32],
    path: &[u32],
)
    requires partly { IsPartlyIndexed parents.now depths.old circles.old jumps.old }
    requires climb { IsClimb parents.now circles.old path.now }
    ensures partly { IsPartlyIndexed parents.now depths.new circles.new jumps.new }
    ensures known { EachIndex path.now (λ j. IsKnown circles.new (slice_index path.now j)) }
    ensures kept { StaysKnown circles.old circles.new }
{
    for i in (0..path.len()).rev() {
        settle(parents, depths, circles, jumps, path[i]);
    }
}

/// Of the types of a circle, which get the number of one of them.
fn settle_circle(
    depths: &mut [u32],
    circles: &mut [u32],
    jumps: &mut [u32],
    circle: &[u32],
    name: u32,
)
    requires depths { EachIndex circle.now (λ j. slice_index circle.now j < length depths.old) }
    requires circles { length circles.old ≡ length depths.old }
    requires jumps { length jumps.old ≡ length depths.old }
    ensures { IsCircleWritten circle.now (length circle.now) name depths.old depths.new circles.old circles.new jumps.old jumps.new }
{
    for t in circle {
        depths[*t as usize] = 0;
        circles[*t as usize] = name;
        jumps[*t as usize] = *t;
    }
}

/// Of the types from `start` on up that aren't known yet. `places` and `path` are scratch space.
fn settle_walk(
    parents: &[u32],
    depths: &mut [u32],
    circles: &mut [u32],
    jumps: &mut [u32],
    places: &mut [usize],
    path: &mut Vec<u32>,
    start: u32,
) -> Result<(), AllocError>
    requires partly { IsPartlyIndexed parents.now depths.old circles.old jumps.old }
    requires places { length places.old ≡ length parents.now }
    requires start { start < length parents.now }
    ensures partly { OnOk result (IsPartlyIndexed parents.now depths.new circles.new jumps.new) }
    ensures known { OnOk result (IsKnown circles.new start) }
    ensures kept { OnOk result (StaysKnown circles.old circles.new) }
{
    let end = walk(parents, circles, places, path, start)?;
    let path = path.as_slice();
    let from = circle_start(circles, places, path, end);
    settle_circle(depths, circles, jumps, &path[from..], end);
    settle_path(parents, depths, circles, jumps, &path[..from]);
    Ok(())
}

/// Of all types. `places` is scratch space.
pub fn settle_all(
    alloc: Global,
    parents: &[u32],
    depths: &mut [u32],
    circles: &mut [u32],
    jumps: &mut [u32],
    places: &mut [usize],
) -> Result<(), AllocError>
    requires partly { IsPartlyIndexed parents.now depths.old circles.old jumps.old }
    requires places { length places.old ≡ length parents.now }
    ensures { OnOk result (IsIndexed parents.now depths.new circles.new jumps.new) }
{
    let mut path = Vec::new(alloc);
    for start in 0..parents.len() {
        settle_walk(
            parents,
            depths,
            circles,
            jumps,
            places,
            &mut path,
            start as u32,
        )?;
    }
    Ok(())
}
