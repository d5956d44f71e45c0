//! How many items a ring holds.

ghost use Rattle.std.specs.Prelude.{◌≡◌, ◌≤◌, ◌↔◌, IsSome, IfSome};
ghost use Rattle.run_options.specs.declared.ring_sizes.TheConstants.{LARGEST_RING};

use std::marker::Model;

/// The greatest size of a ring.
pub const LARGEST_RING: u32 = 65_536;

/// The size of a ring: 1 to 65,536 items.
#[derive(Clone, Copy, Debug, PartialEq, Eq)]
pub struct RingSize {
    items: u32,
}

impl Model for RingSize {
    ghost use Rattle.std.specs.Prelude.{ℕ, ◌≤◌};
    ghost use Rattle.run_options.specs.declared.ring_sizes.TheConstants.{LARGEST_RING};

    ghost Value = { ℕ };

    ghost view = { λ size. size.items };

    ghost invariant = { λ size. (1 ≤ size.items) × (size.items ≤ LARGEST_RING) };

    ghost inverse = { λ n. record { items = n } };
}

impl RingSize {
    /// The size of this many items. `None` for 0, and for more than 65,536.
    pub fn of(items: u32) -> Option<Self>
        ensures range { IsSome result ↔ ((1 ≤ items) × (items ≤ 65536)) }
        ensures size { IfSome result (λ size. size ≡ items) }
    {
        if (1..=LARGEST_RING).contains(&items) {
            Some(RingSize { items })
        } else {
            None
        }
    }

    /// The number of items.
    pub fn get(self) -> u32
        ensures number { result ≡ self }
        ensures range { (1 ≤ result) × (result ≤ LARGEST_RING) }
    {
        self.items
    }
}
