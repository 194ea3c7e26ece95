//! The shop: its prices, and the method by which a script asks for them.

ghost use Rattle.std.specs.Prelude.{IsTrue};
ghost use Rattle.host_example.specs.Shop.{shop_allows};

use jl_host::Relation;

/// The prices of its goods, in cents.
const PRICES: [i64; 3] = [250, 1_999, 49_900];

/// Method 0 answers a price from 0 to 1,000,000 cents. There is no other method.
pub struct Shop;

impl Relation for Shop {
    ghost allows = { shop_allows };
}

/// The price of an item, or 0 where there is none.
fn price_of(item: i64) -> i64 {
    match item {
        0 => PRICES[0],
        1 => PRICES[1],
        2 => PRICES[2],
        _ => 0,
    }
}

/// What so many pieces of an item cost.
pub fn price(item: i64, count: i64) -> i64
    ensures { IsTrue (shop_allows 0 item count result) }
{
    let cents = price_of(item).wrapping_mul(count);
    if cents < 0 {
        return 0;
    }
    if cents > 1_000_000 {
        return 1_000_000;
    }
    cents
}
