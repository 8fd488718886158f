//! The walk from a type along its parents, until a type whose circle is known or one of the walk itself: there the
//! walk has found a circle. Begin with `walk`.
ghost use Rattle.std.specs.Prelude.{◌≡◌, ◌+◌, ◌<◌, ◌⊎◌, ◌↔◌, IsTrue, length, IfOk, slice_index};
ghost use Rattle.hierarchy.specs.Hierarchy.{IsHierarchy};
ghost use Rattle.hierarchy.specs.inside.Entries.{IsKnown};
ghost use Rattle.hierarchy.specs.inside.Walks.{IsWalk, HasPlaces, StandsAt, IsCircleStart};

use std::alloc::AllocError;

fn is_known(circles: &[u32], t: u32) -> bool
    requires { t < length circles.now }
    ensures { IsTrue result ↔ IsKnown circles.now t }
{
    (circles[t as usize] as usize) < circles.len()
}

fn stands_at(path: &[u32], places: &[usize], t: u32) -> bool
    requires { t < length places.now }
    ensures { IsTrue result ↔ StandsAt path.now places.now t }
{
    let place = places[t as usize];
    place < path.len() && path[place] == t
}

/// Where the walk ends. `path` has the types before that, and `places` where they stand there: what it notes of other
/// types says nothing.
pub fn walk(
    parents: &[u32],
    circles: &[u32],
    places: &mut [usize],
    path: &mut Vec<u32>,
    start: u32,
) -> Result<u32, AllocError>
    requires hierarchy { IsHierarchy parents.now }
    requires circles { length circles.now ≡ length parents.now }
    requires places { length places.old ≡ length parents.now }
    requires start { start < length parents.now }
    ensures walk { IfOk result (λ end. IsWalk parents.now circles.now path.new.items start end) }
    ensures places { IfOk result (λ _. HasPlaces path.new.items places.new) }
    ensures end { IfOk result (λ end. IsKnown circles.now end ⊎ StandsAt path.new.items places.new end) }
{
    path.clear();
    let mut at = start;
    'walk: while !is_known(circles, at) && !stands_at(path, places, at) {
        places[at as usize] = path.len();
        path.push(at)?;
        at = parents[at as usize];
    }
    Ok(at)
}

/// From which place of the path on its types are a circle.
pub fn circle_start(circles: &[u32], places: &[usize], path: &[u32], end: u32) -> usize
    requires circles { end < length circles.now }
    requires places { end < length places.now }
    requires end { IsKnown circles.now end ⊎ StandsAt path.now places.now end }
    ensures { IsCircleStart circles.now path.now end result }
{
    if is_known(circles, end) {
        path.len()
    } else {
        places[end as usize]
    }
}
