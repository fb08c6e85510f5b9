ghost use Rattle.std.specs.Prelude.{◌≡◌, ◌+◌, ◌<◌, ◌∷◌, ◌++◌, length, flat_map, map, IfOk, OnOk};
ghost use Rattle.quilt_types.specs.Polygons.{edge, ring_edges};
ghost use Rattle.quilt_poly.specs.Edges.{edge_of, edges_after};

use quilt_types::{Corner, RingList};
use std::alloc::{AllocError, Global};

/// An edge of a ring, its upper end first.
#[derive(Clone, Copy, Debug)]
pub struct RingEdge {
    pub top: Corner,
    pub bottom: Corner,
}

/// The edge between two corners.
fn edge_between(a: Corner, b: Corner) -> RingEdge
    ensures { edge_of result ≡ edge a b }
{
    if a.y <= b.y {
        RingEdge { top: a, bottom: b }
    } else {
        RingEdge { top: b, bottom: a }
    }
}

/// The edges of all rings.
pub(crate) fn edges_of(alloc: Global, rings: &RingList) -> Result<Vec<RingEdge>, AllocError>
    ensures { IfOk result (λ v. map edge_of v.items ≡ flat_map ring_edges rings.now) }
{
    let mut edges = Vec::new(alloc);
    for i in 0..rings.len() {
        push_ring(&mut edges, rings.corners(i))?;
    }
    Ok(edges)
}

/// Adds the edges of a ring.
fn push_ring(edges: &mut Vec<RingEdge>, ring: &[Corner]) -> Result<(), AllocError>
    ensures { OnOk result (map edge_of edges.new.items ≡ map edge_of edges.old.items ++ ring_edges ring.now) }
{
    for i in 0..ring.len() {
        edges.push(edge_at(ring, i))?;
    }
    Ok(())
}

/// The edge from a corner of a ring to the next one, or from the last to the first.
fn edge_at(ring: &[Corner], i: usize) -> RingEdge
    requires { i < length ring.now }
    ensures { edges_after ring.now i ≡ edge_of result ∷ edges_after ring.now (i + 1) }
{
    if i + 1 < ring.len() {
        edge_between(ring[i], ring[i + 1])
    } else {
        edge_between(ring[i], ring[0])
    }
}
