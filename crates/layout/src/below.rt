// Tests of the numbers below a bound.
ghost use Rattle.std.specs.Prelude.{◌≡◌, ℕ, Bool};
ghost use Rattle.layout.specs.Bounded.{each as each_below, first_not as first_not_below};

// The first number below the bound of which the test is not true. A caller learns this of any `p` that tells what the
// test answers.
// That the test may be called is asked of every function that takes one; a caller has nothing to prove for it.
pub fn first_not<F: Fn(u32) -> bool>(bound: u32, test: F) -> Option<u32>
    requires { F.IsAlwaysCallable test }
    ensures { (p : ℕ → Bool) → ((k : ℕ) (t : Bool) → F.post test k t → t ≡ p k) → result ≡ first_not_below bound p }
{
    (0..bound).find(|number| !test(*number))
}

// Whether the test is true of each number below the bound.
pub fn each<F: Fn(u32) -> bool>(bound: u32, test: F) -> bool
    requires { F.IsAlwaysCallable test }
    ensures { (p : ℕ → Bool) → ((k : ℕ) (t : Bool) → F.post test k t → t ≡ p k) → result ≡ each_below bound p }
{
    (0..bound).all(|number| test(number))
}
