//! The byte order and address size that C's numbers stand for.

ghost use Rattle.std.specs.Prelude.{◌≡◌};
ghost use Rattle.dw_c_types.specs.Targets.{order_by, size_by, target_by};

use dw_bytes::{AddressSize, Order, Target};

fn order(number: u32) -> Option<Order>
    ensures { result ≡ order_by number }
{
    match number {
        0 => Some(Order::Little),
        1 => Some(Order::Big),
        _ => None,
    }
}

fn address_size(bytes: u32) -> Option<AddressSize>
    ensures { result ≡ size_by bytes }
{
    match bytes {
        4 => Some(AddressSize::Four),
        8 => Some(AddressSize::Eight),
        _ => None,
    }
}

/// The target with a byte order (0 for little, 1 for big) and an address size in bytes (4 or 8), or
/// `None` if one of these numbers is invalid.
pub fn target(order_number: u32, address_bytes: u32) -> Option<Target>
    ensures { result ≡ target_by order_number address_bytes }
{
    match (order(order_number), address_size(address_bytes)) {
        (Some(order), Some(address_size)) => Some(Target {
            order,
            address_size,
        }),
        _ => None,
    }
}
