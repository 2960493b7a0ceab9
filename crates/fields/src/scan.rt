// One search for all the checks that go from record to record.
ghost use Rattle.std.specs.Prelude.{◌≡◌, ℕ, Bool, ◌<◌};
ghost use Rattle.rules.specs.Check.{first_fault};

// The first of `count` records that fails a test, or the count, which stands for none in the rules' definition too.
pub fn first_that_fails<F: Fn(usize) -> bool>(count: usize, passes: F) -> usize
    requires { (i : ℕ) → i < count → F.pre passes i }
    ensures { (p : ℕ → Bool) → ((i : ℕ) (b : Bool) → i < count → F.post passes i b → b ≡ p i) → result ≡ first_fault p count 0 }
{
    for i in 0..count {
        if !passes(i) {
            return i;
        }
    }
    count
}
