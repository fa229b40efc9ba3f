//! The index of an order among those that are handed in.

ghost use Rattle.std.specs.Prelude.{◌≡◌, ◌<◌, IfSome, bytes_eq, length, map, position};
ghost use Rattle.command_steps.specs.Orders.{order_state, place_named};

use event_sim::Picker;

fn is_named(order: &Box<dyn Picker>, wanted: &str) -> bool
    ensures { result ≡ bytes_eq (name order.now) wanted.now }
{
    order.name() == wanted
}

fn first_named(orders: &[Box<dyn Picker>], wanted: &str) -> Option<usize>
    ensures { result ≡ position (λ order. bytes_eq (name order) wanted.now) orders.now }
{
    orders.iter().position(
        |order: &Box<dyn Picker>| -> bool
            ensures { result ≡ bytes_eq (name order.now) wanted.entry.now }
        { is_named(order, wanted) },
    )
}

/// The index of the first order of this name.
pub fn place_of(orders: &Vec<Box<dyn Picker>>, wanted: &str) -> Option<usize>
    ensures place { result ≡ place_named
        (map (λ order. order_state (name order) (log order) (seeded order)) orders.now.items) wanted.now }
    ensures within { IfSome result (λ place. place < length orders.now.items) }
{
    first_named(orders, wanted)
}
