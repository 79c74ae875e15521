// How many digits a number has.
ghost use Rattle.std.specs.Prelude.{◌≡◌, ◌≤◌};
ghost use Rattle.forms.specs.Digits.{digit_count};

use paper::one_if;

// The decimal digits of n: one, and one more for each power of ten that n reaches. There is no jump here that the processor could
// guess wrong.
pub fn count_decimal(n: u32) -> usize
    ensures { (result ≡ digit_count 10 n) × (result ≤ 10) }
{
    let thousands = one_if(10 <= n) + one_if(100 <= n) + one_if(1000 <= n);
    let millions = one_if(10000 <= n) + one_if(100000 <= n) + one_if(1000000 <= n);
    let billions = one_if(10000000 <= n) + one_if(100000000 <= n) + one_if(1000000000 <= n);
    1 + thousands + millions + billions
}
