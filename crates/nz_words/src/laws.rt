//! Laws of what is ordered.
ghost use Rattle.nz_words.specs.Orders.{OrdersOne};

/// The words order one thing at most, so that `order` has no choice.
pub fn words_order_one_thing()
    ensures { OrdersOne }
{}
