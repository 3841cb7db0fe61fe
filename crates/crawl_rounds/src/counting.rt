//! How many rows a class has, before any of them is made.

ghost use Rattle.std.specs.Prelude.{◌≡◌, ◌≤◌, ◌<◌, ◌+◌, ◌-◌, ◌*◌, ◌^◌, min, map};
ghost use Rattle.crawl_rounds.specs.Rows.{row_count};
ghost use Rattle.crawl_rounds.specs.Rounds.{round_count};
ghost use Rattle.crawl_rounds.specs.Lent.{lent_class};

use lists::Places;

/// The greatest count that is told.
const MOST: u64 = 4_294_967_295;

/// How many requests a round has, where so many values are known and so many of these are new. A greater count than 2^32 - 1
/// is told as that.
pub fn count_round(first: bool, known: u32, fresh: u32, classes: &[(u32, &Places)]) -> u64
    requires within { fresh ≤ known }
    ensures { result ≡ min (round_count first known fresh (map lent_class classes.now)) (2 ^ 32 - 1) }
{
    let mut total: u64 = 0;
    for class in classes {
        total = (total + count_rows(first, known, fresh, class.1.len())).min(MOST);
    }
    total
}

/// How many rows a class with so many inputs has, where so many values are known and so many of these are new. A greater
/// count than 2^32 - 1 is told as that.
pub fn count_rows(first: bool, known: u32, fresh: u32, inputs: usize) -> u64
    requires within { fresh ≤ known }
    ensures { result ≡ min (row_count first known fresh inputs) (2 ^ 32 - 1) }
{
    let mut count: u64 = if first { 1 } else { 0 };
    let mut all: u64 = 1;
    for _ in 0..inputs {
        count = sum_up(fresh, all, known - fresh, count);
        all = sum_up(known, all, 0, 0);
    }
    count
}

/// The sum of two products, or 2^32 - 1 where it is greater.
fn sum_up(first: u32, all: u64, second: u32, count: u64) -> u64
    requires within { first + second < 2 ^ 32 }
    requires all { all < 2 ^ 32 }
    requires count { count < 2 ^ 32 }
    ensures { result ≡ min (first * all + second * count) (2 ^ 32 - 1) }
{
    (u64::from(first) * all + u64::from(second) * count).min(MOST)
}
