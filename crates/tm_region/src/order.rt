ghost use Rattle.std.specs.Prelude.{◌≡◌, ◌<◌, ◌≤◌, ◌↔◌, IsTrue, IfOk, List, length, map};
ghost use Rattle.std.specs.List.{list_all, range_with_len};
ghost use Rattle.tm_base.specs.declared.definition.Bound.{Bound};
ghost use Rattle.tm_base.specs.Outlives.{Outlives};
ghost use Rattle.tm_base.specs.Whole.{is_bound_known};
ghost use Rattle.tm_region.specs.Order.{IsOrderOf};
ghost use Rattle.tm_region.specs.Table.{IsAdded, leads_in, lone_row, outlives_in};

use crate::row::{Row, join, lone_row};
use std::alloc::Global;
use std::marker::Model;
use tm_base::{Bound, Memory, RegionId, World};

/// The region of what lives to the end.
const STATIC: RegionId = RegionId(0);

/// Which regions of a world outlive which.
///
/// Contracts see it as a table: in the row of a region, whether a chain of bounds leads from it to each
/// region.
#[derive(Debug, Drop)]
pub struct Order {
    rows: Vec<Row>,
}

impl Model for Order {
    ghost use Rattle.std.specs.Prelude.{Bool, List};

    ghost Value = { List (List Bool) };

    ghost view = { λ order. order.rows.items };
}

impl Order {
    /// The order of a world's regions. `Memory`: there wasn't enough memory.
    pub fn new(alloc: Global, world: &World) -> Result<Order, Memory>
        ensures { IfOk result (IsOrderOf world.now.bounds) }
    {
        Order::of_bounds(alloc, world.regions.len(), world.bounds.as_slice())
    }

    /// Whether the one region outlives the other: a chain of bounds, of any length, leads from
    /// `longer` to `shorter` or to `'static`. So each region outlives itself, and `'static` outlives
    /// all. A region that the world doesn't have outlives itself alone.
    pub fn outlives(&self, longer: RegionId, shorter: RegionId) -> bool
        ensures answer { result ≡ outlives_in self.now longer shorter }
        ensures exact { (bounds : List Bound) → IsOrderOf bounds self.now
            → IsTrue result ↔ Outlives bounds longer shorter }
    {
        self.leads(longer, shorter) || self.leads(longer, STATIC)
    }

    /// The order of so many regions under bounds that name no others.
    fn of_bounds(alloc: Global, count: usize, bounds: &[Bound]) -> Result<Order, Memory>
        requires few { count ≤ 17 }
        requires known { IsTrue (list_all (is_bound_known count) bounds.now) }
        ensures { IfOk result (IsOrderOf bounds.now) }
    {
        let mut order = Order::without_bounds(alloc, count)?;
        for bound in bounds {
            order.add(*bound);
        }
        Ok(order)
    }

    /// The order in which each of so many regions leads to itself alone.
    fn without_bounds(alloc: Global, count: usize) -> Result<Order, Memory>
        requires { count ≤ 17 }
        ensures { IfOk result (λ order. order ≡ map lone_row (range_with_len 0 count)) }
    {
        Ok(Order {
            rows: (0..count).map(lone_row).collect(alloc)?,
        })
    }

    /// Takes a bound in: what leads to its longer region leads to all that its shorter one does.
    fn add(&mut self, bound: Bound)
        requires longer { bound.longer.0 < length self.old }
        requires shorter { bound.shorter.0 < length self.old }
        requires few { length self.old ≤ 17 }
        ensures count { length self.new ≡ length self.old }
        ensures added { IsAdded bound self.old self.new }
    {
        let behind = self.rows[bound.shorter.0 as usize];
        for row in self.rows.iter_mut() {
            if row[bound.longer.0 as usize] {
                join(row, &behind);
            }
        }
    }

    /// Whether a chain of bounds leads from the one region to the other.
    fn leads(&self, from: RegionId, to: RegionId) -> bool
        ensures { result ≡ leads_in self.now from to }
    {
        let row = self.rows.get(from.0 as usize);
        from == to || row.and_then(|row| row.get(to.0 as usize)) == Some(&true)
    }
}

#[cfg(test)]
mod tests {
    use super::*;

    const A: RegionId = RegionId(1);

    const B: RegionId = RegionId(2);

    const C: RegionId = RegionId(3);

    #[test]
    fn a_bound_is_read_one_way(rt: HostRuntime) {
        let bounds = [Bound {
            longer: A,
            shorter: B,
        }];
        let Ok(order) = Order::of_bounds(rt.alloc(), 3, &bounds) else {
            panic!(rt; "the order wants memory");
        };
        for (longer, shorter, holds) in [
            (A, B, true),
            (STATIC, A, true),
            (A, A, true),
            (B, A, false),
            (A, STATIC, false),
        ] {
            assert_eq!(rt;
                order.outlives(longer, shorter),
                holds,
                "{longer:?} {shorter:?}"
            );
        }
    }

    #[test]
    fn bounds_are_chained(rt: HostRuntime) {
        let bounds = [
            Bound {
                longer: B,
                shorter: C,
            },
            Bound {
                longer: A,
                shorter: B,
            },
        ];
        let Ok(order) = Order::of_bounds(rt.alloc(), 4, &bounds) else {
            panic!(rt; "the order wants memory");
        };
        assert!(rt; order.outlives(A, C));
        assert!(rt; !order.outlives(C, A));
    }

    #[test]
    fn what_outlives_static_outlives_all(rt: HostRuntime) {
        let bounds = [Bound {
            longer: A,
            shorter: STATIC,
        }];
        let Ok(order) = Order::of_bounds(rt.alloc(), 3, &bounds) else {
            panic!(rt; "the order wants memory");
        };
        assert!(rt; order.outlives(A, STATIC));
        assert!(rt; order.outlives(A, B));
        assert!(rt; !order.outlives(B, A));
    }
}
