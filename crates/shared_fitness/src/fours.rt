// A test of each number below a bound, four a turn: the test of one is shorter than a turn's own work.
ghost use Rattle.std.specs.Prelude.{◌≡◌, ℕ, ◌<◌, true, false};

// Whether the test holds of each number below `n`.
pub fn all_in_fours<F: Fn(u32) -> bool>(n: u32, test: F) -> bool
    requires { (j : ℕ) → j < n → F.pre test j }
    ensures each { result ≡ true → (j : ℕ) → j < n → F.post test j true }
    ensures some { result ≡ false → (j : ℕ) × (j < n) × F.post test j false }
{
    for four in 0..n / 4 {
        let j = 4 * four;
        if !(test(j) && test(j + 1) && test(j + 2) && test(j + 3)) {
            return false;
        }
    }
    for j in n / 4 * 4..n {
        if !test(j) {
            return false;
        }
    }
    true
}
