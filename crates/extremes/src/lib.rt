// The numbers of a list that come first under an order, and the sum of the first five: one text for the smallest and
// the largest.
#![tactic(auto)]

ghost use Rattle.std.specs.Prelude.{◌≡◌, ℕ, ◌+◌, ◌*◌, ◌<◌, ◌≤◌, min, Bool, true, false, List, [], ◌∷◌, ◌++◌, length, take, if◌then◌else◌, cond, Some, None, sum, MatchOption, nat_eq, nat_le, nat_lt, slice_index};
ghost use Rattle.std.specs.List.{All, reduce};
ghost use Rattle.extremes.specs.Arranged.{Ascending, Foremost, InOrder, insert, sorted};
ghost use Rattle.std.proofs.Common.{rules};

use std::mem::replace;

/// A total order of the numbers.
pub trait Order {
    /// Whether the first number comes no later than the second.
    ghost upto: { ℕ → ℕ → Bool };

    /// Whether `a` comes no later than `b`.
    fn comes_first(a: u32, b: u32) -> bool
        ensures { result ≡ upto a b };

    /// Of two numbers, one comes no later than the other.
    ghost total: { (x y : ℕ) → upto x y ≡ false → upto y x ≡ true };

    /// What comes no later than a second, which comes no later than a third, comes no later than the third.
    ghost chain: { (x y z : ℕ) → upto x y ≡ true → upto y z ≡ true → upto x z ≡ true };

    /// Two numbers of which neither comes later than the other are the same.
    ghost same: { (x y : ℕ) → upto x y ≡ true → upto y x ≡ true → x ≡ y };
}

/// The smaller comes first.
pub struct Rising;

impl Order for Rising {
    ghost upto = { λ x y. nat_le x y };

    ghost total = { Prim.search rules };

    ghost chain = { Prim.search rules };

    ghost same = { Prim.search rules };

    /// Whether `a` is at most `b`.
    fn comes_first(a: u32, b: u32) -> bool
        ensures { result ≡ nat_le a b }
    {
        a <= b
    }
}

/// The larger comes first.
pub struct Falling;

impl Order for Falling {
    ghost upto = { λ x y. nat_le y x };

    ghost total = { Prim.search rules };

    ghost chain = { Prim.search rules };

    ghost same = { Prim.search rules };

    /// Whether `a` is at least `b`.
    fn comes_first(a: u32, b: u32) -> bool
        ensures { result ≡ nat_le b a }
    {
        a >= b
    }
}

/// What a pass over the list finds, which takes each number that comes first so far.
fn found_in<O: Order>(xs: &[u32]) -> Option<u32>
    ensures { result ≡ reduce (λ b x. cond (O.Order.upto x b) x b) xs.now }
{
    xs.iter().copied().reduce(|found, x| if O::comes_first(x, found) { x } else { found })
}

/// The number that comes first, or `None` in an empty list.
pub fn first<O: Order>(xs: &[u32]) -> Option<u32>
    ensures value { result ≡ (if nat_eq (length xs.now) 0 then None else Some (slice_index (sorted O.Order.upto xs.now) 0)) }
    ensures foremost { MatchOption result (length xs.now ≡ 0) (λ x. Foremost O.Order.upto xs.now x) }
    ensures bound { (m : ℕ) → All (λ x. x ≤ m) xs.now → MatchOption result (length xs.now ≡ 0) (λ x. x ≤ m) }
{
    found_in::<O>(xs)
}

/// The sum of the five numbers that come first, or `None` where there are fewer than five numbers.
pub fn sum_of_five_first<O: Order>(xs: &[u32]) -> Option<u64>
    ensures value { result ≡ (if nat_lt (length xs.now) 5 then None else Some (sum (take 5 (sorted O.Order.upto xs.now)))) }
    ensures order { MatchOption result (length xs.now < 5) (λ _. InOrder O.Order.upto xs.now (sorted O.Order.upto xs.now)) }
    ensures any_order { (ys : List ℕ) → InOrder O.Order.upto xs.now ys → MatchOption result (length xs.now < 5) (λ s. s ≡ sum (take 5 ys)) }
    ensures bound { (m : ℕ) → All (λ x. x ≤ m) xs.now → MatchOption result (length xs.now < 5) (λ s. s ≤ 5 * m) }
{
    if xs.len() < 5 {
        return None;
    }
    let five = five_first::<O>(xs);
    Some(sum_of(&five))
}

/// The five numbers that come first, in their order.
fn five_first<O: Order>(xs: &[u32]) -> [u32; 5]
    requires { 5 ≤ length xs.now }
    ensures five { result ≡ take 5 (sorted O.Order.upto xs.now) }
    ensures order { InOrder O.Order.upto xs.now (sorted O.Order.upto xs.now) }
    ensures any_order { (ys : List ℕ) → InOrder O.Order.upto xs.now ys → result ≡ take 5 ys }
    ensures bound { (m : ℕ) → All (λ x. x ≤ m) xs.now → sum result ≤ 5 * m }
{
    let mut held = [0u32; 5];
    let mut count = 0usize;
    for x in xs {
        count = join::<O>(&mut held, count, *x);
    }
    held
}

/// The sum of five numbers.
fn sum_of(five: &[u32; 5]) -> u64
    ensures { result ≡ sum five.now }
{
    five.iter().map(|x| u64::from(*x)).sum()
}

/// Puts `x` where it belongs among the first `count` of `held`, which are in order, drops what then stands sixth, and
/// returns how many are held.
// An array with a count, and no `Vec`: nothing below the reports allocates, so that no call fails for want of memory.
fn join<O: Order>(held: &mut [u32; 5], count: usize, x: u32) -> usize
    requires count_bound { count ≤ 5 }
    requires ascending { Ascending O.Order.upto (take count held.old) }
    ensures count { result ≡ min (count + 1) 5 }
    ensures held { take result held.new ≡ take 5 (insert O.Order.upto x (take count held.old)) }
{
    let last = place::<O>(&mut held[..count], x);
    if count < 5 {
        held[count] = last;
        count + 1
    } else {
        count
    }
}

/// Puts `x` where it belongs in `held`, and returns the number that then comes last and finds no place.
#[tactic(auto, using(crate::proofs::Pass::pass_takes, crate::proofs::Pass::pass_keeps))]
fn place<O: Order>(held: &mut [u32], x: u32) -> u32
    requires { Ascending O.Order.upto held.old }
    ensures { held.new ++ (result ∷ []) ≡ insert O.Order.upto x held.old }
{
    let mut carry = x;
    for k in held.iter_mut() {
        if O::comes_first(carry, *k) {
            carry = replace(k, carry);
        }
    }
    carry
}
